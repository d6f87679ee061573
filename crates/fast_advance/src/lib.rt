// A run goes on: silence at once, a window at once, or one step.

#![tactic(auto)]

pub mod until;

ghost use Rattle.std.specs.Prelude.{◌≡◌, ◌<◌, ◌≤◌, length, replicate};
ghost use Rattle.bus_spec.specs.BitTime.{no_events};
ghost use Rattle.bus_spec.specs.RunLaws.{Runnable};
ghost use Rattle.bus_run.specs.Advance.{Advanced};
ghost use Rattle.fast_advance.specs.Advance.{Leapt};
ghost use Rattle.area.specs.Offsets.{area_size};

use bus_spec::Events;
use bus_spec::course::Stretch;

// Fewer steps than these are made singly.
const LEAST: u32 = 4;

// So many steps, and no events.
pub fn eventless(steps: u32) -> Stretch
    ensures steps { result.steps ≡ steps }
    ensures events { result.events ≡ replicate 16 no_events }
{
    let none = Events {
        sent: None,
        got: None,
    };
    Stretch {
        steps,
        events: [none; 16],
    }
}

// Steps of silence at once, or of a window, at most so many as are left; none where neither can be.
fn leap(area: &mut [u8], left: u32) -> Option<u32>
    requires { Runnable left area.old × (area_size ≤ length area.old) × (0 < left) }
    ensures { Leapt left result area.old area.new }
{
    if left < LEAST {
        return None;
    }
    let steps = fast_jump::skip(area, left);
    if steps != 0 {
        return Some(steps);
    }
    fast_window::pass(area, left)
}

// Many steps at once, or one: at most so many as are left, and the events of the last of them.
pub fn advance(area: &mut [u8], left: u32) -> Stretch
    requires { Runnable left area.old × (area_size ≤ length area.old) × (0 < left) }
    ensures made { Advanced result.steps result.events area.old area.new }
    ensures bound { (0 < result.steps) × (result.steps ≤ left) }
{
    if let Some(steps) = leap(area, left) {
        return eventless(steps);
    }
    Stretch {
        steps: 1,
        events: bus_turn::step::step(area),
    }
}
