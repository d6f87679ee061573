// The run program's calls on numbers and lent octets, as the C interface hands them out: what is printed for an input,
// piece by piece or the whole. The answers are as in `c_calls`. Where a run stands is lent as 16 octets: four words, high
// octet first.

#![tactic(auto)]

ghost use Rattle.std.specs.Prelude.{◌≡◌, ◌≤◌, length};
ghost use Rattle.octets.specs.Words.{put_words};
ghost use Rattle.c_words.specs.Answers.{reply_of, Below};
ghost use Rattle.c_calls.specs.Calls.{left};
ghost use Rattle.c_text.specs.TextCalls.{progress_words, progress_in, lent, begun_lent, advanced_lent, print_left};

use c_words::numbers;
use octets::Refusal;
use report_spec::Progress;

// The octets of the words of where a run stands.
const PROGRESS: usize = 16;

// No plan has more octets, and of a longer input no more are looked at.
const PLAN: usize = 16384;

// The largest number that a reply can tell: bit 31 is a refusal's.
const MOST_TOLD: usize = 2147483647;

// Writes where a run stands.
#[tactic(auto, unfolding(crate::specs::TextCalls::progress_words, octets::specs::Words::put_words, octets::specs::Number::put))]
fn write_progress(s: &mut [u8], g: Progress)
    requires { 16 ≤ length s.old }
    ensures { s.new ≡ put_words 4 s.old 0 (progress_words g) }
{
    octets_copies::store(s, 0, &numbers::low_octets::<4>(g.at as u64));
    octets_words::put32(s, 4, g.offers);
    octets_words::put32(s, 8, g.times);
    octets_words::put32(s, 12, u32::from(g.ended));
}

// Reads where a run stands.
#[tactic(auto, unfolding(crate::specs::TextCalls::progress_in))]
fn read_progress(s: &[u8]) -> Progress
    requires { 16 ≤ length s.now }
    ensures { result ≡ progress_in s.now }
{
    Progress {
        at: octets_words::get32(s, 0) as usize,
        offers: octets_words::get32(s, 4),
        times: octets_words::get32(s, 8),
        ended: octets_words::get32(s, 12) != 0,
    }
}

// The first piece of what is printed for an input: its octets, and where the run stands. Refusals 1, 15.
#[tactic(auto, using(c_words::specs::AnswersLaws::replies), unfolding(crate::specs::TextCalls::begun_lent, crate::specs::TextCalls::progress_put))]
pub fn begin(
    input: &[u8],
    area: &mut [u8],
    progress: &mut [u8],
    out: &mut [u8],
) -> Result<u32, Refusal>
    ensures number { lent (reply_of result) area.new progress.new out.new
        ≡ begun_lent input.now area.old progress.old out.old }
    ensures told { Below result }
{
    if progress.len() < PROGRESS {
        if area.len() < area::AREA {
            return Err(Refusal::AreaShort);
        }
        return Err(Refusal::OutputShort);
    }
    let handed = report_begin::begin(input, area, out)?;
    write_progress(progress, handed.progress);
    Ok(handed.size as u32)
}

// The next piece: its octets, and where the run stands after it. Refusals 1, 2, 13, 15, 16.
#[tactic(auto, using(c_words::specs::AnswersLaws::replies), unfolding(crate::specs::TextCalls::advanced_lent))]
pub fn advance(
    input: &[u8],
    area: &mut [u8],
    progress: &mut [u8],
    out: &mut [u8],
) -> Result<u32, Refusal>
    ensures number { lent (reply_of result) area.new progress.new out.new
        ≡ advanced_lent input.now area.old progress.old out.old }
    ensures told { Below result }
{
    if progress.len() < PROGRESS {
        area_check::check(area)?;
        return Err(Refusal::OutputShort);
    }
    let g = read_progress(progress);
    let end = input.len().min(PLAN);
    let handed = report_next::advance(&input[..end], area, out, g)?;
    write_progress(progress, handed.progress);
    Ok(handed.size as u32)
}

// The whole text of an input: its octets. Refusals 1, 15.
pub fn print(input: &[u8], area: &mut [u8], out: &mut [u8]) -> Result<u32, Refusal>
    ensures number { left (reply_of result) area.new out.new
        ≡ print_left input.now area.old out.old }
    ensures told { Below result }
{
    let end = out.len().min(MOST_TOLD);
    let size = report_whole::print(input, area, &mut out[..end])?;
    Ok(size as u32)
}
