// Runs over many bit times: silence and windows at once, and single steps.

#![tactic(auto)]

ghost use Rattle.std.specs.Prelude.{◌≡◌};
ghost use Rattle.bus_spec.specs.Run.{run_outcome, ran};

use bus_run::GoesOn;
use bus_spec::course::{RunAnswer, Stretch};
use octets::Refusal;

// Silence, a window, or one step.
struct AtOnce;

impl GoesOn for AtOnce {
    fn go_on(area: &mut [u8], left: u32) -> Stretch {
        fast_advance::advance(area, left)
    }
}

// A run of n bit times. Refusals 1, 2, 13.
pub fn run(area: &mut [u8], n: u32) -> Result<RunAnswer, Refusal>
    ensures { run_outcome result area.new ≡ ran area.old n }
{
    bus_run::run_by::<AtOnce>(area, n)
}
