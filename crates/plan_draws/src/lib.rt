// The draws of a run input: by station, and then by draw place.

#![tactic(auto)]

ghost use Rattle.std.specs.Prelude.{◌≡◌, ◌+◌, ◌*◌, ◌<◌, ◌≤◌, length};
ghost use Rattle.plan_draws.specs.Draws.{row_place, draw_in, row_in, draws_in};
ghost use Rattle.sheet_layout.specs.Limits.{max_draws, max_stations};

// The d draws from octet `at` on, and zeros after them.
#[tactic(auto, unfolding(crate::specs::Draws::row_in, crate::specs::Draws::draw_in))]
fn read_row(s: &[u8], at: usize, d: usize) -> [u16; 16]
    requires { (d ≤ max_draws) × (at + 2 * d ≤ length s.now) }
    ensures { result ≡ row_in s.now at d }
{
    let draw = |k: usize| -> u16
        requires { at + 2 * k + 2 ≤ length s.now }
        ensures { result ≡ draw_in s.entry.now at k }
    { octets_words::get16(s, at + 2 * k) as u16 };
    sheet_layout::filled(0, d, draw)
}

// The draws by station and then by draw place: the rows of n stations from octet `at` on, and blank rows after them.
#[tactic(auto, unfolding(crate::specs::Draws::draws_in))]
pub fn read_draws(s: &[u8], at: usize, n: usize, d: usize) -> [[u16; 16]; 16]
    requires { (n ≤ max_stations) × (d ≤ max_draws) × (at + 2 * (n * d) ≤ length s.now) }
    ensures { result ≡ draws_in s.now at n d }
{
    let row = |i: usize| -> [u16; 16]
        requires { (d ≤ max_draws) × (row_place at d i + 2 * d ≤ length s.now) }
        ensures { result ≡ row_in s.entry.now (row_place at d i) d }
    { read_row(s, at + 2 * (i * d), d) };
    sheet_layout::filled([0; 16], n, row)
}
