// The turn of one station by itself, on what it is told that it hears: no line is read or written.

#![tactic(auto)]

ghost use Rattle.std.specs.Prelude.{◌≡◌, ◌<◌, ◌≤◌, length};
ghost use Rattle.bus_spec.specs.InPlace.{Kept};
ghost use Rattle.bus_spec.specs.Ready.{Able};
ghost use Rattle.fast_plan.specs.Own.{outcome_on, own_left, own_turn};
ghost use Rattle.area.specs.Offsets.{area_size};
ghost use Rattle.sheet_layout.specs.Limits.{max_stations};

use sheet_layout::Figures;
use station_spec::Stepped;
use station_symbols::Heard;

// What station i does on hearing h.
#[tactic(auto, using(bus_spec::specs::Ready::able_draw, crate::specs::OwnLaws::outcome_is))]
fn outcome(area: &[u8], f: Figures, depth: u32, i: usize, h: Heard) -> Stepped
    requires { (i < max_stations) × (area_size ≤ length area.now) × Able f area.now i }
    ensures { result ≡ outcome_on f depth i h area.now }
{
    let s = area::read_station(area, i);
    let draw = area::read_draw(area, i, s.draw as usize);
    station_step::step(f, s, depth, draw, area_buffers::buffer(area, i), h)
}

// What it leaves of its own: its record, its counters, the bit that it collected.
#[tactic(auto, unfolding(fast_plan::specs::Own::own_left))]
fn leave(area: &mut [u8], i: usize, o: Stepped)
    requires { (i < max_stations) × (area_size ≤ length area.old) × Kept o.stored }
    ensures { area.new ≡ own_left i o area.old }
{
    area::write_station(area, i, o.station);
    bus_turn::count_step(area, i, o);
    bus_turn::keep_bit(area, i, o.stored);
}

#[tactic(auto, using(crate::specs::OwnLaws::outcome_kept, crate::specs::OwnLaws::turn_is))]
pub fn turn_alone(area: &mut [u8], f: Figures, depth: u32, i: usize, h: Heard)
    requires { (i < max_stations) × (area_size ≤ length area.old) × Able f area.old i }
    ensures { area.new ≡ own_turn f depth i h area.old }
{
    let o = outcome(area, f, depth, i, h);
    leave(area, i, o);
}
