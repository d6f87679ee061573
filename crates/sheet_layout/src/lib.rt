// The layout that a sheet describes: figures and stations. `sheet_check` and `sheet_fit` judge it.

#![tactic(auto)]

ghost use Rattle.std.specs.Prelude.{◌≡◌, ℕ, ◌<◌, ◌≤◌, min};
ghost use Rattle.octets.specs.Filled.{filled};
ghost use Rattle.sheet_layout.specs.declared.Tap.{Tap};
ghost use Rattle.sheet_layout.specs.Layout.{places_of};
ghost use Rattle.sheet_layout.specs.Limits.{max_stations};

// The most stations: "N is outside 2..16."
pub const MAX_STATIONS: usize = 16;

// The largest position and the largest slot.
pub const MAX_POSITION: u32 = 255;

pub const MAX_SLOT: u32 = 512;

// The clock's top: "Clock plus the bit times asked exceeds 16,777,216."
pub const LAST_CLOCK: u32 = 16777216;

// The figures burned into the stations: slot, gap1, gap2 and jam in bit times, the attempt limit and the backoff limit;
// late-end, 1 where a late collision closes the frame and 0 where it is tried again.
#[derive(Clone, Copy)]
pub struct Figures {
    pub slot: u32,
    pub gap1: u32,
    pub gap2: u32,
    pub jam: u32,
    pub limit: u32,
    pub backoff: u32,
    pub ends: u32,
}

// A station on the pair: its position in bit times, and its address.
#[derive(Clone, Copy)]
pub struct Tap {
    pub position: u32,
    pub address: [u8; 6],
}

// A layout of `count` stations. The places after them hold position 0 and address 0.
#[derive(Clone, Copy)]
pub struct Layout {
    pub figures: Figures,
    pub count: u32,
    pub stations: [Tap; 16],
}

// The places that a count of stations takes.
pub fn places(count: u32) -> usize
    ensures value { result ≡ min count max_stations }
    ensures most { result ≤ max_stations }
{
    (count as usize).min(MAX_STATIONS)
}

// The first n of sixteen places, as `give` has each, and `blank` in those after them.
pub fn filled<T: Copy, F: Fn(usize) -> T>(blank: T, n: usize, give: F) -> [T; 16]
    requires most { n ≤ max_stations }
    requires callable { (i : ℕ) → i < n → F.pre give i }
    ensures { (t : ℕ → T) → ((i : ℕ) (x : T) → i < n → F.post give i x → x ≡ t i) → result ≡ filled blank t n }
{
    let mut all = [blank; 16];
    for i in 0..n {
        all[i] = give(i);
    }
    all
}

// What stands in a place that no station has.
const BLANK: Tap = Tap {
    position: 0,
    address: [0; 6],
};

// The stations of n places, as `tap` gives each, and blank places after them.
pub fn taps<F: Fn(usize) -> Tap>(n: usize, tap: F) -> [Tap; 16]
    requires most { n ≤ max_stations }
    requires callable { (i : ℕ) → i < n → F.pre tap i }
    ensures { (t : ℕ → Tap) → ((i : ℕ) (x : Tap) → i < n → F.post tap i x → x ≡ t i) → result ≡ places_of t n }
{
    filled(BLANK, n, tap)
}
