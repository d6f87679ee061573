// A lookup in a log that is lent as octets, six to an entry: time (4, high octet first), station, event (1 to
// 10, as `station_tally/Words` numbers the words). Octets after the last whole entry are not looked at.

#![tactic(auto)]

ghost use Rattle.std.specs.Prelude.{◌≡◌, ◌+◌, ◌*◌, ◌≤◌, ◌/◌, length};
ghost use Rattle.octets.specs.Base.{some, done_answer, outcome};
ghost use Rattle.log_windows.specs.Grow.{over};
ghost use Rattle.log_octets.specs.Octets.{event_of, entry_at, unknown_at, entries_of, octets_looked_up};

use log_entry::{Entry, Event, State};
use octets::Refusal;

// The event of a number; where it stands for none, the last.
#[tactic(auto, using(std::proofs::lemmas::Bool::Decides::nat_tests), unfolding(crate::specs::Octets::event_of))]
pub fn event_of(c: u32) -> Event
    ensures { result ≡ event_of c }
{
    match c {
        1 => Event::Collision(0),
        2 => Event::Late(0),
        3 => Event::Sent(0),
        4 => Event::GivenUp(0),
        5 => Event::LateEnd(0),
        6 => Event::GotOk(0),
        7 => Event::GotTooLong(0),
        8 => Event::GotAlignment(0),
        9 => Event::GotCheck(0),
        _ => Event::GotLength(0),
    }
}

// Whether some entry's event stands for nothing.
#[tactic(auto, using(crate::specs::OctetsLaws::searches))]
pub fn any_unknown(log: &[u8]) -> bool
    ensures { result ≡ some (unknown_at log.now) (length log.now / 6) }
{
    for k in 0..log.len() / 6 {
        if octets::out_of(octets::wide(log[6 * k + 5]), 1, 10) {
            return true;
        }
    }
    false
}

// Entry k.
#[tactic(auto, unfolding(crate::specs::Octets::entry_at))]
fn entry_at(log: &[u8], k: usize) -> Entry
    requires { 6 * k + 6 ≤ length log.now }
    ensures { result ≡ entry_at log.now k }
{
    Entry {
        time: octets_words::get32(log, 6 * k),
        station: octets::wide(log[6 * k + 4]),
        event: event_of(octets::wide(log[6 * k + 5])),
    }
}

// The state after all entries of the log more.
#[tactic(auto, using(crate::specs::OctetsLaws::entries))]
pub fn enter_all(s: &mut State, windows: &[u32], log: &[u8])
    ensures { s.new ≡ over windows.now s.old (entries_of log.now) }
{
    for k in 0..log.len() / 6 {
        log_windows::enter(s, windows, entry_at(log, k));
    }
}

// Looks up the windows in the log of n stations, as `log_lookup::look_up` does, with one refusal before all others: 5,
// where an entry's event stands for nothing.
#[tactic(auto, using(crate::specs::OctetsLaws::answers), unfolding(crate::specs::Octets::octets_looked_up))]
pub fn look_up_octets(log: &[u8], n: u32, windows: &[u32], out: &mut [u32]) -> Result<(), Refusal>
    ensures { outcome (done_answer result) out.new
        ≡ octets_looked_up n windows.now log.now out.old }
{
    if any_unknown(log) {
        return Err(Refusal::OutOfRange);
    }
    let mut s = log_windows::opened(n);
    enter_all(&mut s, windows, log);
    log_closing::closed(&s, windows, out)
}
