// The marks as the C interface hands them out, on numbers and lent octets. A name is a number of 64 bits, its eight
// octets high octet first. The answers are as in `c_calls`.

#![tactic(auto)]

ghost use Rattle.std.specs.Prelude.{◌≡◌};
ghost use Rattle.c_words.specs.Answers.{reply_of, Below};
ghost use Rattle.c_calls.specs.Calls.{given};
ghost use Rattle.c_marks.specs.MarkCalls.{mark_given, return_given, drop_given};

use c_words::numbers;
use octets::Refusal;

// Marks a work area under a name: 0. Refusals 1, 2, 15, 18.
#[tactic(auto, using(c_words::specs::AnswersLaws::replies), unfolding(crate::specs::MarkCalls::mark_given))]
pub fn mark(area: &[u8], store: &mut [u8], name: u64) -> Result<u32, Refusal>
    ensures number { given (reply_of result) store.new ≡ mark_given area.now store.old name }
    ensures told { Below result }
{
    marks::mark(area, store, numbers::low_octets::<8>(name))?;
    Ok(0)
}

// Puts back the work area that is marked under a name: 0. Refusals 1, 15, 17, 2.
#[tactic(auto, using(c_words::specs::AnswersLaws::replies), unfolding(crate::specs::MarkCalls::return_given))]
pub fn go_back(area: &mut [u8], store: &[u8], name: u64) -> Result<u32, Refusal>
    ensures number { given (reply_of result) area.new ≡ return_given area.old store.now name }
    ensures told { Below result }
{
    marks::go_back(area, store, numbers::low_octets::<8>(name))?;
    Ok(0)
}

// Drops the mark of a name: 0. Refusals 15, 17.
#[tactic(auto, using(c_words::specs::AnswersLaws::replies), unfolding(crate::specs::MarkCalls::drop_given))]
pub fn drop_mark(store: &mut [u8], name: u64) -> Result<u32, Refusal>
    ensures number { given (reply_of result) store.new ≡ drop_given store.old name }
    ensures told { Below result }
{
    marks::drop_mark(store, numbers::low_octets::<8>(name))?;
    Ok(0)
}
