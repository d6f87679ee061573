// Steps until an event.

ghost use Rattle.std.specs.Prelude.{◌≡◌, ◌≤◌, length};
ghost use Rattle.bus_spec.specs.RunLaws.{Runnable};
ghost use Rattle.bus_spec.specs.Until.{has_event, eventful, until_event, stretch_of};
ghost use Rattle.area.specs.Offsets.{area_size};

use bus_spec::Events;
use bus_spec::course::Stretch;

#[tactic(auto, unfolding(bus_spec::specs::Until::has_event))]
fn has_event(e: Events) -> bool
    ensures { result ≡ has_event e }
{
    e.sent.is_some() | e.got.is_some()
}

// Whether some station has an event.
fn is_eventful(events: [Events; 16]) -> bool
    ensures { result ≡ eventful events }
{
    events.iter().any(|e| has_event(*e))
}

// At most n steps, until one has an event.
pub fn until_event(area: &mut [u8], n: u32) -> Stretch
    requires { Runnable n area.old × (area_size ≤ length area.old) }
    ensures { stretch_of result area.new ≡ until_event n area.old }
{
    let mut t: u32 = 0;
    // No range: `advance` says how many steps were made.
    while t < n {
        let s = crate::advance(area, n - t);
        let events = s.events;
        t += s.steps;
        if is_eventful(events) {
            return Stretch { steps: t, events };
        }
    }
    crate::eventless(t)
}
