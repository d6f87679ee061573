// Many steps of silence at once, on the area.

#![tactic(auto)]

ghost use Rattle.std.specs.Prelude.{◌≡◌, ◌+◌, ◌<◌, ◌≤◌, length};
ghost use Rattle.area.specs.Area.{clock_at, figures_at};
ghost use Rattle.bus_spec.specs.Ready.{Ready};
ghost use Rattle.fast_silence.specs.Jump.{rested_all, jumped};
ghost use Rattle.fast_silence.specs.Bound.{silent_for, skipped};
ghost use Rattle.sheet_layout.specs.Limits.{last_clock, max_stations};
ghost use Rattle.area.specs.Offsets.{area_size};

use sheet_layout::Figures;

// Each of n stations after m steps of silence.
fn rest_all(area: &mut [u8], n: usize, m: u32, f: Figures)
    requires { (n ≤ max_stations) × (area_size ≤ length area.old) × (f.gap1 + f.gap2 < 65536)
        × (f ≡ figures_at area.old) }
    ensures { area.new ≡ rested_all area.old m n area.old }
{
    for i in 0..n {
        let s = area::read_station(area, i);
        area::write_station(area, i, fast_rest::rest(f, m, s));
    }
}

// m steps of a silence that lasts so long.
#[tactic(auto, using(bus_spec::specs::Ready::ready_few, fast_search::specs::SearchLaws::ready_gap), unfolding(fast_silence::specs::Jump::jumped))]
fn jump(area: &mut [u8], m: u32)
    requires { (area_size ≤ length area.old) × (clock_at area.old + m ≤ last_clock) × Ready area.old }
    ensures { area.new ≡ jumped m area.old }
{
    let n = area::read_count(area) as usize;
    let t = area::read_clock(area);
    let f = area::read_figures(area);
    rest_all(area, n, m, f);
    area::write_clock(area, t + m);
}

// Of the next m steps those that are silence, where they are worth a jump: says how many.
#[tactic(auto, using(fast_silence::proofs::Bound::silent_most), unfolding(fast_silence::specs::Bound::skipped))]
pub fn skip(area: &mut [u8], m: u32) -> u32
    requires { (area_size ≤ length area.old) × (clock_at area.old + m ≤ last_clock) × Ready area.old }
    ensures steps { result ≡ silent_for m area.old }
    ensures area { area.new ≡ skipped result area.old }
{
    let r = fast_search::silent_for(area, m);
    if r == 0 {
        return 0;
    }
    jump(area, r);
    r
}
