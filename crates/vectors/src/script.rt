// Reading the lines.

ghost use Rattle.std.specs.Prelude.{◌<◌, ◌≤◌, length};

use crate::asks::{self, Question};
use crate::show;
use std::io;

// What a hexadecimal digit, 0 to 9 or a to f, stands for; 0 for any other octet.
fn digit(c: u8) -> u8
    ensures { result < 16 }
{
    match c {
        b'0'..=b'9' => c - b'0',
        b'a'..=b'f' => c - b'a' + 10,
        _ => 0,
    }
}

// Puts the octets that a line spells at the front of out, and answers how many there are.
fn decode(line: &[u8], out: &mut [u8]) -> usize
    ensures { result ≤ length out.new }
{
    for (octet, pair) in out.iter_mut().zip(line.chunks_exact(2)) {
        *octet = digit(pair[0]) * 16 + digit(pair[1]);
    }
    out.len().min(line.len() / 2)
}

// A call with what is spelled behind it.
fn run_call(
    rt: &impl Print,
    area: &mut [u8],
    question: Question,
    spelled: &[u8],
) -> io::Result<()> {
    let mut handed = [0u8; 4096];
    let mut out = [0u8; 1600];
    let n = decode(spelled, &mut handed);
    let answer = asks::ask(area, question, &handed[..n], &mut out);
    show::print_answer(rt, question, answer, &out)
}

// The call's letter and its name, then the answer.
fn run_line(rt: &impl Print, area: &mut [u8], letter: u8, rest: &[u8]) -> io::Result<()> {
    let end = rest.iter().position(|c| *c == b' ').unwrap_or(rest.len());
    let (spelled, name) = rest.split_at(end);
    rt.write_all(&[letter])?;
    rt.write_all(name)?;
    rt.write_all(b": ")?;
    run_call(rt, area, Question::of(letter), spelled)?;
    rt.write_all(b"\n")
}

fn run_one(rt: &impl Print, area: &mut [u8], line: &[u8]) -> io::Result<()> {
    match line {
        [letter, rest @ ..] if *letter != b'#' => run_line(rt, area, *letter, rest),
        _ => {
            rt.write_all(line)?;
            rt.write_all(b"\n")
        }
    }
}

fn run_lines(rt: &impl Print, text: &[u8]) -> io::Result<()> {
    let mut area = [0x55u8; area::AREA];
    for line in text.split_inclusive(|c| *c == b'\n') {
        run_one(rt, &mut area, line.strip_suffix(b"\n").unwrap_or(line))?;
    }
    Ok(())
}

// At most 65536 octets are read.
pub(crate) fn run_all(rt: &HostRuntime) -> io::Result<()> {
    let mut text = [0u8; 65536];
    let n = reading::fill(&mut rt.stdin(), &mut text)?;
    run_lines(rt, &text[..n])
}
