// Many windows over a log on standard input: how many events of each word every window holds.
//
// The input is N, how many windows, one octet each; the windows: station (1 octet), first time (4, high octet first),
// time past the last (4); then to its end the entries, six octets each, as `wisavulome windows --entries` writes them.
// What is missing of the windows is 0. A line is printed for each window, its ten counts parted by spaces; or one line,
// `refused` and the number. The log is read 4,096 entries at a time; one of 16,777,216 entries or more is refused
// under 16.

#![tactic(auto)]

use log_entry::{CELLS, State};
use octets::Refusal;
use std::io;
use std::io::Read;

// The octets that are read at a time, and how often.
const PART: usize = 24576;

const PARTS: u32 = 4096;

// The windows as numbers, three each.
fn read_windows(head: &[u8; 2295]) -> [u32; 765] {
    let mut windows = [0u32; 765];
    for w in 0..255usize {
        windows[3 * w] = octets::wide(head[9 * w]);
        windows[3 * w + 1] = octets_words::get32(head, 9 * w + 1);
        windows[3 * w + 2] = octets_words::get32(head, 9 * w + 5);
    }
    windows
}

// The answer after the last entry.
fn answer(unknown: bool, s: &State, windows: &[u32], out: &mut [u32]) -> Result<(), Refusal> {
    if unknown {
        return Err(Refusal::OutOfRange);
    }
    log_closing::closed(s, windows, out)
}

// Looks up the windows in the log that is still to be read.
fn look_up<R: Read>(
    from: &mut R,
    n: u32,
    windows: &[u32],
    out: &mut [u32],
) -> io::Result<Result<(), Refusal>> {
    let mut part = [0u8; PART];
    let mut unknown = false;
    let mut s = log_windows::opened(n);
    for _ in 0..PARTS {
        let got = reading::fill(from, &mut part)?;
        unknown |= log_octets::any_unknown(&part[..got]);
        log_octets::enter_all(&mut s, windows, &part[..got]);
        if got < PART {
            return Ok(answer(unknown, &s, windows, out));
        }
    }
    Ok(Err(Refusal::PlanWrong))
}

// A line for each of the first windows.
fn print_counts(rt: &impl Print, out: &[u32], windows: usize) -> io::Result<()> {
    for counts in out.chunks_exact(station_tally::WORDS).take(windows) {
        for (j, count) in counts.iter().enumerate() {
            let parting = if j == 0 { "" } else { " " };
            print!(rt; "{parting}{count}")?;
        }
        println!(rt)?;
    }
    Ok(())
}

fn main(rt: HostRuntime) -> io::Result<()> {
    let mut size = [0u8; 2];
    let mut head = [0u8; 2295];
    let mut out = [0u32; CELLS];
    reading::fill(&mut rt.stdin(), &mut size)?;
    let m = usize::from(size[1]);
    reading::fill(&mut rt.stdin(), &mut head[..9 * m])?;
    let windows = read_windows(&head);
    match look_up(
        &mut rt.stdin(),
        u32::from(size[0]),
        &windows[..3 * m],
        &mut out,
    )? {
        Err(e) => println!(rt; "refused {}", e.number()),
        Ok(()) => print_counts(&rt, &out, m),
    }
}
