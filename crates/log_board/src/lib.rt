// Forty entries in an array, lent as a slice.

#![tactic(auto)]

ghost use Rattle.std.specs.Prelude.{◌≡◌};
ghost use Rattle.octets.specs.Base.{done_answer, outcome};
ghost use Rattle.log_lookup.specs.Lookup.{looked_up};

use log_entry::Entry;
use octets::Refusal;

// Looks up the windows in the log of n stations, as `log_lookup::look_up` does.
pub fn look_up_all(
    log: [Entry; 40],
    n: u32,
    windows: &[u32],
    out: &mut [u32],
) -> Result<(), Refusal>
    ensures { outcome (done_answer result) out.new
        ≡ looked_up n windows.now log out.old }
{
    log_lookup::look_up(&log, n, windows, out)
}
