// Whether a station hears anything in a step, by its line and a list of stretches, and how long that stays.

#![tactic(auto)]

ghost use Rattle.std.specs.Prelude.{◌≡◌, ◌+◌, ◌<◌, ◌≤◌, length};
ghost use Rattle.area.specs.Area.{clock_at};
ghost use Rattle.fast_hear.specs.Listed.{Fits};
ghost use Rattle.fast_carrier.specs.Carrier.{is_used, LineUsed, CarrierFor};
ghost use Rattle.area.specs.Offsets.{area_size};
ghost use Rattle.sheet_layout.specs.Limits.{last_clock, max_stations};

use fast_hear::Heard;
use fast_line::LineKind;
use fast_list::Stretch;

// Whether places of this kind are in use.
fn is_used(kind: LineKind) -> bool
    ensures { result ≡ is_used kind }
{
    !matches!(kind, LineKind::Empty)
}

// Whether line j is in use in step s from clock t on, and up to where that stays; m where it holds nothing any more.
#[tactic(auto, using(crate::specs::Carrier::line_past, crate::specs::Carrier::line_run))]
fn line(area: &[u8], j: usize, t: u32, s: u32, m: u32) -> Heard
    requires area_size_in_bounds { (area_size ≤ length area.now) × (j < max_stations) × (t ≡ clock_at area.now) × (t ≤ last_clock) }
    requires s_lt_m { s < m }
    ensures value { LineUsed area.now j s result.until result.on }
    ensures bound { s < result.until }
{
    if 256 <= s {
        return Heard {
            on: false,
            until: m,
        };
    }
    let n = 256 - s;
    let run = fast_line::line_run(area, j, (t + s) as usize, n as usize);
    let until = s + run.len as u32;
    Heard {
        on: is_used(run.kind),
        until,
    }
}

// Whether station j hears anything in step s by its line and the stretches, and up to where that stays, m at most where
// it hears nothing.
#[tactic(auto, using(crate::specs::Carrier::by_line, crate::specs::Carrier::by_list_lem, crate::specs::Carrier::by_none))]
pub fn carrier(area: &[u8], list: &[Stretch], j: usize, t: u32, s: u32, m: u32) -> Heard
    requires area_size_in_bounds { (area_size ≤ length area.now) × (j < max_stations) × Fits area.now list.now j }
    requires t_value { (t ≡ clock_at area.now) × (t ≤ last_clock) × (s < m) }
    ensures value { CarrierFor area.now list.now j s result.until result.on }
    ensures bound { s < result.until }
{
    let x = line(area, j, t, s, m);
    if x.on {
        return x;
    }
    let y = fast_hear::sound(area, list, j, s, m);
    if y.on {
        return y;
    }
    Heard {
        on: false,
        until: x.until.min(y.until),
    }
}
