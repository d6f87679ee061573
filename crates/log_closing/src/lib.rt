// The answer of a lookup, once every entry was seen: a refusal, or the counts of the windows.

#![tactic(auto)]

ghost use Rattle.std.specs.Prelude.{◌≡◌};
ghost use Rattle.octets.specs.Base.{some, number_of, done_answer, outcome};
ghost use Rattle.log_entry.specs.Log.{window_count, astray_window, reversed_window, refusal_in};
ghost use Rattle.log_closing.specs.Close.{closed_of};

use log_entry::State;
use octets::Refusal;

// Whether some window's station is n or more.
#[tactic(auto, using(crate::specs::CloseLaws::searches))]
fn any_astray(windows: &[u32], n: u32) -> bool
    ensures { result ≡ some (astray_window n windows.now) (window_count windows.now) }
{
    let m = windows.len() / 3;
    for w in 0..m {
        if n <= windows[3 * w] {
            return true;
        }
    }
    false
}

// Whether some window's second time is below its first.
#[tactic(auto, using(crate::specs::CloseLaws::searches))]
fn any_reversed(windows: &[u32]) -> bool
    ensures { result ≡ some (reversed_window windows.now) (window_count windows.now) }
{
    let m = windows.len() / 3;
    for w in 0..m {
        if windows[3 * w + 2] < windows[3 * w + 1] {
            return true;
        }
    }
    false
}

// Refusals 10, 16, 20, 21 and 15, the first that holds. `astray` and `falls` are what is known of the entries.
#[tactic(auto, using(std::proofs::lemmas::Bool::Decides::nat_tests), unfolding(log_entry::specs::Log::refusal_in))]
fn check(windows: &[u32], n: u32, astray: bool, falls: bool, room: usize) -> Result<(), Refusal>
    ensures { number_of (done_answer result) ≡ refusal_in windows.now n astray falls room }
{
    let m = windows.len() / 3;
    if any_astray(windows, n) || astray {
        return Err(Refusal::NoSuchStation);
    }
    if log_entry::MAX_WINDOWS < m {
        return Err(Refusal::PlanWrong);
    }
    if any_reversed(windows) {
        return Err(Refusal::WindowReversed);
    }
    if falls {
        return Err(Refusal::TimesFall);
    }
    if room < station_tally::WORDS * m {
        return Err(Refusal::OutputShort);
    }
    Ok(())
}

// The answer after the last entry, and the counts in the output.
#[tactic(auto, using(crate::specs::CloseLaws::closings))]
pub fn closed(s: &State, windows: &[u32], out: &mut [u32]) -> Result<(), Refusal>
    ensures { outcome (done_answer result) out.new ≡ closed_of windows.now s.now out.old }
{
    check(windows, s.stations, s.astray, s.falls, out.len())?;
    let end = windows.len() / 3 * station_tally::WORDS;
    out[..end].copy_from_slice(&s.counts[..end]);
    Ok(())
}
