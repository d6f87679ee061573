// A bit time, and the counters of a station.

#![tactic(auto)]

ghost use Rattle.std.specs.Prelude.{◌≡◌};
ghost use Rattle.bus_step.specs.Step.{bit_time_outcome, stepped_once};
ghost use Rattle.bus_step.specs.Counters.{counters_reading, counters_read};

use bus_spec::Events;
use octets::Refusal;

// The counters of station i, in the order in which document 01 and N1 list them. Refusals 1, 2, 10.
#[tactic(auto, using(crate::specs::StepLaws::stepping), unfolding(crate::specs::Counters::counters_read))]
pub fn read_counters(area: &[u8], i: usize) -> Result<[u32; station_state::COUNTERS], Refusal>
    ensures { counters_reading result ≡ counters_read area.now i }
{
    area_check::check(area)?;
    if area::read_count(area) as usize <= i {
        return Err(Refusal::NoSuchStation);
    }
    Ok(area::read_counters(area, i))
}

// One bit time: the events of each station. Refusals 1, 2, 13.
#[tactic(auto, using(crate::specs::StepLaws::stepping), unfolding(crate::specs::Step::stepped_once))]
pub fn step(area: &mut [u8]) -> Result<[Events; 16], Refusal>
    ensures { bit_time_outcome result area.new ≡ stepped_once area.old }
{
    bus_spec::ready::check(area)?;
    if sheet_layout::LAST_CLOCK <= area::read_clock(area) {
        return Err(Refusal::ClockTop);
    }
    Ok(bus_turn::step::step(area))
}
