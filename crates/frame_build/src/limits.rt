// The sizes of frames. What each number stands for is said in specs/Limits.antt.

ghost use Rattle.std.specs.Prelude.{◌≡◌, ◌-◌, nat_eq};
ghost use Rattle.octets.specs.Base.{pick};
ghost use Rattle.frame_build.specs.Limits.{max_data, max_frame, refuses_value, min_data, tag_value};

pub const MIN_DATA: usize = 46;

pub const MIN_FRAME: usize = 64;

pub const SHORTEST_FRAME: u32 = 8 * MIN_FRAME as u32;

pub const MAX_LENGTH: usize = 1500;

pub const BUFFER: usize = 1522;

pub const BUFFER_BITS: usize = 8 * BUFFER;

pub const LARGEST_FRAME: u32 = BUFFER as u32;

pub const MIN_TYPE: usize = 1536;

pub const TAG: usize = 33024;

// A size that is another under the tag value.
fn by_tag(value: usize, tagged: usize, other: usize) -> usize
    ensures { result ≡ pick (nat_eq value tag_value) tagged other }
{
    if value == TAG { tagged } else { other }
}

// The largest data under a length/type value.
#[tactic(auto, unfolding(crate::specs::Limits::max_data))]
pub(crate) fn max_data(value: usize) -> usize
    ensures { result ≡ max_data value }
{
    by_tag(value, 1504, 1500)
}

// The largest frame under a length/type value.
#[tactic(auto, unfolding(crate::specs::Limits::max_frame))]
pub fn max_frame(value: usize) -> usize
    ensures { result ≡ max_frame value }
{
    by_tag(value, 1522, 1518)
}

// The octets of padding that n octets of data want.
pub(crate) fn pad_size(n: usize) -> usize
    ensures { result ≡ min_data - n }
{
    MIN_DATA.saturating_sub(n)
}

// Whether n octets of data, few enough, are refused under a length/type value.
#[tactic(auto, unfolding(crate::specs::Limits::refuses_value))]
pub(crate) fn refuses_value(value: usize, n: usize) -> bool
    ensures { result ≡ refuses_value value n }
{
    if value <= MAX_LENGTH {
        value != n
    } else {
        value < MIN_TYPE
    }
}
