// The tallies of many windows, entry by entry: the state before the first entry of a log, and after one more.

#![tactic(auto)]

ghost use Rattle.std.specs.Prelude.{◌≡◌, ◌<◌, ◌≤◌, ◌+◌, ◌*◌, length};
ghost use Rattle.log_entry.specs.Log.{word_of, max_windows, holds};
ghost use Rattle.log_windows.specs.Grow.{added, added_all, used, opened_of, entered_of};

use log_entry::{CELLS, Entry, MAX_WINDOWS, State};

// Whether window w holds the entry.
#[tactic(auto, using(std::proofs::lemmas::Bool::Decides::nat_tests), unfolding(log_entry::specs::Log::holds))]
fn inside(windows: &[u32], w: usize, e: Entry) -> bool
    requires { (w < max_windows) × (3 * w + 3 ≤ length windows.now) }
    ensures { result ≡ holds windows.now w e.time e.station }
{
    windows[3 * w] == e.station && windows[3 * w + 1] <= e.time && e.time < windows[3 * w + 2]
}

// An entry is added to the counts of window w, where that holds it.
#[tactic(auto, unfolding(crate::specs::Grow::added, crate::specs::Grow::capped))]
fn add(counts: &mut [u32; CELLS], windows: &[u32], e: Entry, w: usize)
    requires { (w < max_windows) × (3 * w + 3 ≤ length windows.now) }
    ensures { counts.new ≡ added windows.now e.time e.station (word_of e.event) w counts.old }
{
    if inside(windows, w, e) {
        let c = station_tally::WORDS * w + log_entry::word_of(e.event).place();
        counts[c] = counts[c].saturating_add(1);
    }
}

// How many windows have a place in the table.
#[tactic(auto, unfolding(crate::specs::Grow::used))]
fn placed(windows: &[u32]) -> usize
    ensures value { result ≡ used windows.now }
    ensures small { (result ≤ max_windows) × (3 * result ≤ length windows.now) }
{
    (windows.len() / 3).min(MAX_WINDOWS)
}

// An entry is added to the counts of every window that holds it.
#[tactic(auto, unfolding(octets::specs::Turns::turns, crate::specs::Grow::added_all))]
fn add_all(counts: &mut [u32; CELLS], windows: &[u32], e: Entry)
    ensures { counts.new ≡ added_all windows.now e.time e.station (word_of e.event) counts.old }
{
    let m = placed(windows);
    for w in 0..m {
        add(counts, windows, e, w);
    }
}

// The state before the first entry.
#[tactic(auto, unfolding(crate::specs::Grow::opened_of))]
pub fn opened(n: u32) -> State
    ensures { result ≡ opened_of n }
{
    State {
        stations: n,
        astray: false,
        falls: false,
        last: 0,
        counts: [0u32; CELLS],
    }
}

// The state after one entry more.
#[tactic(auto, unfolding(crate::specs::Grow::entered_of))]
pub fn enter(s: &mut State, windows: &[u32], e: Entry)
    ensures { s.new ≡ entered_of windows.now s.old e }
{
    add_all(&mut s.counts, windows, e);
    s.astray |= s.stations <= e.station;
    s.falls |= e.time < s.last;
    s.last = e.time;
}
