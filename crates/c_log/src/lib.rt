// Many windows over one log, on numbers and lent octets, as the C interface hands it out. The answers are as in
// `c_calls`.

#![tactic(auto)]

ghost use Rattle.std.specs.Prelude.{◌≡◌};
ghost use Rattle.c_words.specs.Answers.{reply_of, Below};
ghost use Rattle.c_calls.specs.Calls.{given};
ghost use Rattle.c_log.specs.LogCalls.{windows_given};

use octets::Refusal;

// Looks up the windows in the log of the stations, as `log_octets::look_up_octets` does: 0. Refusals 5, 10, 16, 20, 21,
// 15.
#[tactic(auto, using(c_words::specs::AnswersLaws::replies), unfolding(crate::specs::LogCalls::windows_given))]
pub fn windows(log: &[u8], stations: u32, windows: &[u32], out: &mut [u32]) -> Result<u32, Refusal>
    ensures number { given (reply_of result) out.new
        ≡ windows_given log.now stations windows.now out.old }
    ensures told { Below result }
{
    log_octets::look_up_octets(log, stations, windows, out)?;
    Ok(0)
}
