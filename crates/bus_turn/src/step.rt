// One bit time of the whole pair, in place: station after station takes its turn.

ghost use Rattle.std.specs.Prelude.{◌≡◌, ◌+◌, ◌<◌, ◌≤◌, length, get_or, set};
ghost use Rattle.area.specs.Area.{clock_at};
ghost use Rattle.bus_spec.specs.BitTime.{turned_in, events_in, advanced_in, step_area, events_at, no_events};
ghost use Rattle.bus_spec.specs.Ready.{AllAble, Ready};
ghost use Rattle.sheet_layout.specs.Limits.{last_clock, max_stations};
ghost use Rattle.area.specs.Offsets.{area_size};

use bus_spec::Events;
use sheet_layout::Figures;

// The events of a station at place i, where none stand yet. Only those that are there are copied: few steps have one.
#[tactic(auto, using(crate::specs::EventLaws::none_kept), unfolding(bus_spec::specs::Until::has_event))]
fn keep_events(all: &mut [Events], i: usize, e: Events)
    requires { (i < length all.old) × (get_or all.old i no_events ≡ no_events) }
    ensures { all.new ≡ set all.old i e }
{
    if e.sent.is_some() | e.got.is_some() {
        all[i] = e;
    }
}

// The turns of n stations, and the events of each.
fn turn_all(area: &mut [u8], n: usize, depth: u32, t: usize, f: Figures) -> [Events; 16]
    requires { (n ≤ max_stations) × (t < 4294967296) × (area_size ≤ length area.old) × AllAble n f area.old }
    ensures area { area.new ≡ turned_in f depth n t area.old n }
    ensures events { result ≡ events_in f depth t area.old n }
{
    let mut all = [bus_spec::NO_EVENTS; 16];
    for i in 0..n {
        let e = crate::turn(area, n, depth, t, f, i);
        keep_events(&mut all, i, e);
    }
    all
}

// All turns, and the clock.
#[tactic(auto, unfolding(bus_spec::specs::BitTime::advanced_in))]
fn advance(area: &mut [u8], n: usize, depth: u32, t: u32, f: Figures) -> [Events; 16]
    requires { (n ≤ max_stations) × (t < 4294967295) × (area_size ≤ length area.old) × AllAble n f area.old }
    ensures area { area.new ≡ advanced_in f depth n t area.old }
    ensures events { result ≡ events_in f depth t area.old n }
{
    let all = turn_all(area, n, depth, t as usize, f);
    area::write_clock(area, t + 1);
    all
}

// One bit time: the events of each station.
#[tactic(auto, using(bus_spec::specs::Ready::stepping))]
pub fn step(area: &mut [u8]) -> [Events; 16]
    requires { (area_size ≤ length area.old) × (clock_at area.old < last_clock) × Ready area.old }
    ensures area { area.new ≡ step_area area.old }
    ensures events { result ≡ events_at area.old }
{
    let n = area::read_count(area) as usize;
    let depth = area::read_depth(area);
    let t = area::read_clock(area);
    let f = area::read_figures(area);
    advance(area, n, depth, t, f)
}
