// What every crate stands on: octets as numbers, tests put together, powers of two, and the definitions of octets,
// numbers and words (specs).

#![tactic(auto)]

ghost use Rattle.std.specs.Prelude.{◌≡◌, ◌||◌, ◌&&◌, ◌^◌, ◌<◌};
ghost use Rattle.octets.specs.Base.{outside, refusal_number};

// Why a call is refused, by number.
#[derive(Clone, Copy, Debug, PartialEq, Eq)]
pub enum Refusal {
    AreaShort = 1,
    AreaWrong = 2,
    SheetShort = 3,
    MapBits = 4,
    OutOfRange = 5,
    StationCount = 6,
    Positions = 7,
    Addresses = 8,
    Draws = 9,
    NoSuchStation = 10,
    FrameData = 11,
    FrameHeld = 12,
    ClockTop = 13,
    NothingReadable = 14,
    OutputShort = 15,
    PlanWrong = 16,
    NoSuchMark = 17,
    MarksFull = 18,
    WindowReversed = 20,
    TimesFall = 21,
}

impl Refusal {
    // The number that the C interface and the run program give it.
    pub fn number(self) -> u32
        ensures { result ≡ refusal_number self }
    {
        self as u32
    }
}

// An octet as a wider number. That it is below 256 is said here once, so that no caller shows that a sum of octets
// fits.
pub fn wide(x: u8) -> u32
    ensures value { result ≡ x }
    ensures small { result < 256 }
{
    u32::from(x)
}

// Whether either holds. A test that a contract speaks of is put together by this and `both`: || and && branch.
pub fn either(a: bool, b: bool) -> bool
    ensures { result ≡ (a || b) }
{
    a | b
}

// Whether both hold.
pub fn both(a: bool, b: bool) -> bool
    ensures { result ≡ (a && b) }
{
    a & b
}

// Whether x is outside least..most.
#[tactic(auto, unfolding(crate::specs::Base::outside))]
pub fn out_of(x: u32, least: u32, most: u32) -> bool
    ensures { result ≡ outside x least most }
{
    either(x < least, most < x)
}

// 2 to the power p.
#[tactic(auto, using(crate::specs::BitsLaws::shift_is))]
pub fn power(p: u32) -> u32
    requires { p < 32 }
    ensures { result ≡ 2 ^ p }
{
    1u32 << p
}
