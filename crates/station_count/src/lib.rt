// A station's counters, in the order in which document 01 lists them, and after them those of the requests.

#![tactic(auto)]

ghost use Rattle.std.specs.Prelude.{◌≡◌, ◌<◌};
ghost use Rattle.station_spec.specs.Count.{added, added_if, count_sent, count_transmit, count_receive, octets_in};
ghost use Rattle.station_spec.specs.Count.{counted};
ghost use Rattle.station_count.specs.Counters.{counter_place};
ghost use Rattle.station_state.specs.State.{counter_count};

use station_spec::{ReceiveEvent, Stepped, TransmitEvent};
use station_state::{COUNTERS, Receiver};

// The counters by name.
#[derive(Clone, Copy, Debug, PartialEq, Eq)]
pub enum Counter {
    Offered,
    Attempts,
    Collisions,
    Late,
    Sent,
    SentAfterOne,
    SentAfterSeveral,
    OctetsSent,
    Deferred,
    Excessive,
    Received,
    OctetsReceived,
    TooLong,
    CheckErrors,
    AlignmentErrors,
    LengthErrors,
    LateEnded,
}

impl Counter {
    // The place of a counter among a station's.
    pub fn place(self) -> usize
        ensures value { result ≡ counter_place self }
        ensures small { result < counter_count }
    {
        self as usize
    }
}

// A counter with n more; one that would pass its top stops at it.
#[tactic(auto, unfolding(station_spec::specs::Count::added))]
pub fn add(counters: [u32; COUNTERS], counter: Counter, n: u32) -> [u32; COUNTERS]
    ensures { result ≡ added counters (counter_place counter) n }
{
    let mut next = counters;
    let k = counter.place();
    next[k] = next[k].saturating_add(n);
    next
}

// A counter with one more where the test holds.
#[tactic(auto, unfolding(station_spec::specs::Count::added_if))]
fn add_if(test: bool, counters: [u32; COUNTERS], counter: Counter) -> [u32; COUNTERS]
    ensures { result ≡ added_if test counters (counter_place counter) }
{
    if test {
        add(counters, counter, 1)
    } else {
        counters
    }
}

// The octets of a frame that are neither data nor pad.
const NOT_DATA: u32 = 18;

// A frame of so many octets is sent after n attempts. It counts as deferred if it did not start in its first step and
// was sent on its first attempt.
#[tactic(auto, unfolding(station_spec::specs::Count::count_sent))]
fn count_sent(counters: [u32; COUNTERS], n: u32, frame: u32, deferred: bool) -> [u32; COUNTERS]
    ensures { result ≡ count_sent counters n frame deferred }
{
    let a = add(counters, Counter::Sent, 1);
    let b = add(a, Counter::OctetsSent, frame.saturating_sub(NOT_DATA));
    let c = add_if(n == 2, b, Counter::SentAfterOne);
    let d = add_if(3 <= n, c, Counter::SentAfterSeveral);
    add_if(deferred & (n == 1), d, Counter::Deferred)
}

// What a transmit event adds, of a frame of so many octets.
#[tactic(auto, unfolding(station_spec::specs::Count::count_transmit))]
fn count_transmit(
    counters: [u32; COUNTERS],
    event: Option<TransmitEvent>,
    frame: u32,
    deferred: bool,
) -> [u32; COUNTERS]
    ensures { result ≡ count_transmit counters event frame deferred }
{
    match event {
        None => counters,
        Some(TransmitEvent::Collision(_)) => add(counters, Counter::Collisions, 1),
        Some(TransmitEvent::Late { .. }) => {
            let a = add(counters, Counter::Collisions, 1);
            add(a, Counter::Late, 1)
        }
        Some(TransmitEvent::Sent(n)) => count_sent(counters, n, frame, deferred),
        Some(TransmitEvent::GivenUp(_)) => add(counters, Counter::Excessive, 1),
        Some(TransmitEvent::LateEnded(_)) => add(counters, Counter::LateEnded, 1),
    }
}

// What a receive event adds, of a frame of so many octets.
#[tactic(auto, unfolding(station_spec::specs::Count::count_receive))]
fn count_receive(
    counters: [u32; COUNTERS],
    event: Option<ReceiveEvent>,
    frame: u32,
) -> [u32; COUNTERS]
    ensures { result ≡ count_receive counters event frame }
{
    match event {
        None => counters,
        Some(ReceiveEvent::GotOk(_)) => {
            let a = add(counters, Counter::Received, 1);
            add(a, Counter::OctetsReceived, frame.saturating_sub(NOT_DATA))
        }
        Some(ReceiveEvent::GotTooLong(_)) => add(counters, Counter::TooLong, 1),
        Some(ReceiveEvent::GotAlignment(_)) => add(counters, Counter::AlignmentErrors, 1),
        Some(ReceiveEvent::GotCheck(_)) => add(counters, Counter::CheckErrors, 1),
        Some(ReceiveEvent::GotLength(_)) => add(counters, Counter::LengthErrors, 1),
    }
}

// The octets of a frame that can be read.
pub fn octets_in(r: Receiver) -> u32
    ensures { result ≡ octets_in r }
{
    match r {
        Receiver::Readable(n) => n,
        _ => 0,
    }
}

// The counters after a step.
#[tactic(auto, unfolding(station_spec::specs::Count::counted))]
pub fn count(counters: [u32; COUNTERS], o: Stepped) -> [u32; COUNTERS]
    ensures { result ≡ counted counters o }
{
    let next = o.station;
    let a = add_if(o.start, counters, Counter::Attempts);
    let b = count_transmit(a, o.sent, next.frame, next.deferred);
    count_receive(b, o.got, octets_in(next.receiver))
}
