// Stored lookups of an independent model, on standard input, and what they answer. The gate compares it with the file
// `stdout`.
//
// The input is one octet, the number of cases, and for each case: N, how many entries (40 at most), how many windows
// (68 at most), how many windows the output has room for (64 at most), one octet each; then the entries: time (4
// octets, high first), station, event (1 to 10), and the windows: station, first time (4), time past the last (4).
// Where there are fewer than 40 entries, the log is filled up at its end with entries at time 4294967295 of station 0,
// which no window holds. A line is printed for each: `ok` and for each window its ten counts, parted by commas, or
// `refused` and the number.

#![tactic(auto)]

ghost use Rattle.std.specs.Prelude.{◌<◌, ◌≤◌, ◌+◌, IfOk};

use log_entry::{CELLS, Entry, Event};
use octets::Refusal;
use std::io;

// An octet of the input, 0 past its end.
fn octet(s: &[u8], k: usize) -> u8 {
    s.get(k).copied().unwrap_or(0)
}

// A number of four octets.
fn four(s: &[u8], k: usize) -> u32
    requires { k < 2000000 }
{
    u32::from_be_bytes([
        octet(s, k),
        octet(s, k + 1),
        octet(s, k + 2),
        octet(s, k + 3),
    ])
}

fn read_entry(s: &[u8], k: usize) -> Entry
    requires { k < 1900000 }
{
    Entry {
        time: four(s, k),
        station: u32::from(octet(s, k + 4)),
        event: log_octets::event_of(u32::from(octet(s, k + 5))),
    }
}

fn read_log(s: &[u8], k: usize, count: usize) -> [Entry; 40]
    requires { k < 1800000 }
{
    let last = Entry {
        time: 4294967295,
        station: 0,
        event: Event::Collision(0),
    };
    let mut log = [last; 40];
    for i in 0..count.min(40) {
        log[i] = read_entry(s, k + 6 * i);
    }
    log
}

fn read_windows(s: &[u8], k: usize) -> [u32; 204]
    requires { k < 1800000 }
{
    let mut windows = [0u32; 204];
    for w in 0..68usize {
        windows[3 * w] = u32::from(octet(s, k + 9 * w));
        windows[3 * w + 1] = four(s, k + 9 * w + 1);
        windows[3 * w + 2] = four(s, k + 9 * w + 5);
    }
    windows
}

// The counts of the first windows.
fn print_counts(rt: &impl Print, out: &[u32], windows: usize) -> io::Result<()> {
    for counts in out.chunks_exact(station_tally::WORDS).take(windows) {
        for (j, count) in counts.iter().enumerate() {
            let parting = if j == 0 { ' ' } else { ',' };
            print!(rt; "{parting}{count}")?;
        }
    }
    Ok(())
}

fn print_answer(
    rt: &impl Print,
    answer: Result<(), Refusal>,
    out: &[u32],
    windows: usize,
) -> io::Result<()> {
    match answer {
        Err(e) => println!(rt; "refused {}", e.number()),
        Ok(()) => {
            print!(rt; "ok")?;
            print_counts(rt, out, windows)?;
            println!(rt)
        }
    }
}

// One case at `at`: the place of the next.
fn run_case(rt: &impl Print, s: &[u8], at: usize) -> io::Result<usize>
    requires { at < 1700000 }
    ensures { IfOk result (λ next. next ≤ at + 4000) }
{
    let n = u32::from(octet(s, at));
    let entries = usize::from(octet(s, at + 1));
    let count = usize::from(octet(s, at + 2));
    let room = usize::from(octet(s, at + 3));
    let log = read_log(s, at + 4, entries);
    let windows = read_windows(s, at + 4 + 6 * entries);
    let mut out = [0u32; CELLS];
    let windows = &windows[..windows.len().min(3 * count)];
    let last = out.len().min(station_tally::WORDS * room);
    let answer = log_lookup::look_up(&log, n, windows, &mut out[..last]);
    print_answer(rt, answer, &out, count)?;
    Ok(at + 4 + 6 * entries + 9 * count)
}

fn main(rt: HostRuntime) -> io::Result<()> {
    let mut input = [0u8; 32768];
    let n = reading::fill(&mut rt.stdin(), &mut input)?;
    let cases = octet(&input[0..n], 0);
    let mut at = 1;
    for k in 0..cases {
        at = run_case(&rt, &input[0..n], at)?;
    }
    Ok(())
}
