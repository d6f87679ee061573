// How an answer is printed: the refusal, or the number, and behind it the words or the octets that were written.

use crate::asks::Question;
use octets::Refusal;
use std::io;

fn print_octets(rt: &impl Print, s: &[u8]) -> io::Result<()> {
    for octet in s {
        print!(rt; "{octet:02x}")?;
    }
    Ok(())
}

// The first n words of the output.
fn print_words(rt: &impl Print, out: &[u8], n: usize) -> io::Result<()> {
    for word in out.chunks_exact(4).take(n) {
        print!(rt; " {}", octets_words::get32(word, 0))?;
    }
    Ok(())
}

// What was written: n octets of a frame, or words, of which the first ones tell enough: the figures and the fit of a
// sheet, where client data lie, the counts of a run and how it ended, the counters, the events of two stations.
fn print_written(rt: &impl Print, question: Question, n: usize, out: &[u8]) -> io::Result<()> {
    match question {
        Question::Build | Question::Reading => {
            rt.write_all(b" ")?;
            print_octets(rt, out.get(..n).unwrap_or(&[]))
        }
        Question::Sheet | Question::Step => print_words(rt, out, 8),
        Question::Status => print_words(rt, out, 2),
        Question::Run => print_words(rt, out, 12),
        Question::Counters => print_words(rt, out, 16),
        _ => Ok(()),
    }
}

// The answer of a call, and what it left in the output. A check sequence is printed in all its 32 bits.
pub(crate) fn print_answer(
    rt: &impl Print,
    question: Question,
    answer: Result<u32, Refusal>,
    out: &[u8],
) -> io::Result<()> {
    match answer {
        Err(refusal) => print!(rt; "refused {}", refusal.number()),
        Ok(n) if question == Question::CheckSequence => print!(rt; "{n:08x}"),
        Ok(n) => {
            print!(rt; "{n}")?;
            print_written(rt, question, n as usize, out)
        }
    }
}
