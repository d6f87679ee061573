// The one function that reads a log of entries.

#![tactic(auto)]

ghost use Rattle.std.specs.Prelude.{◌≡◌};
ghost use Rattle.octets.specs.Base.{done_answer, outcome};
ghost use Rattle.log_lookup.specs.Lookup.{looked_up};

use log_entry::Entry;
use octets::Refusal;

// Looks up the windows in the log of n stations, and writes ten counts for each to the front of the output: how many
// events of each word the window holds. Refused: 10 (a window's or an entry's station is n or more), 16 (more than 64
// windows), 20 (a window's second time is below its first), 21 (the times of the entries fall), 15 (the output has room
// for fewer counts); then the output is as it was.
#[tactic(auto, using(crate::proofs::Looked::lookups))]
pub fn look_up(log: &[Entry], n: u32, windows: &[u32], out: &mut [u32]) -> Result<(), Refusal>
    ensures { outcome (done_answer result) out.new
        ≡ looked_up n windows.now log.now out.old }
{
    let mut s = log_windows::opened(n);
    for e in log {
        log_windows::enter(&mut s, windows, *e);
    }
    log_closing::closed(&s, windows, out)
}
