// How long a station rests in a silence.

#![tactic(auto)]

ghost use Rattle.std.specs.Prelude.{◌≡◌, ◌+◌, ◌<◌, min};
ghost use Rattle.fast_silence.specs.Rested.{rests_for, gap_to, rested_deference, rested_transmitter, has_waited, rested};
ghost use Rattle.fast_silence.specs.Bound.{frames_rest, idle, station_rests};

use sheet_layout::Figures;
use station_state::{Deference, Receiver, Station, Transmitter};

// The steps in which a frame that waits does not start.
#[tactic(auto, unfolding(fast_silence::specs::Rested::rests_for, sheet_layout::specs::Layout::gap_of))]
fn rests_for(f: Figures, d: Deference) -> u32
    requires { f.gap1 + f.gap2 < 65536 }
    ensures { result ≡ rests_for f d }
{
    match d {
        Deference::Quiet => 0,
        Deference::Busy(_) => f.gap1 + f.gap2,
        Deference::Gap { count, .. } => (f.gap1 + f.gap2).saturating_sub(count),
    }
}

// The steps in which no frame starts, of m asked.
#[tactic(auto, unfolding(fast_silence::specs::Bound::frames_rest))]
pub fn frames_rest(f: Figures, m: u32, d: Deference, x: Transmitter) -> u32
    requires { f.gap1 + f.gap2 < 65536 }
    ensures { result ≡ frames_rest f m d x }
{
    match x {
        Transmitter::NoFrame => m,
        Transmitter::Waiting => rests_for(f, d),
        Transmitter::BackingOff(w) => w.max(rests_for(f, d)),
        Transmitter::Sending(_) | Transmitter::Heading(_) | Transmitter::Jamming { .. } => 0,
    }
}

// Whether nothing is being received.
#[tactic(auto, unfolding(fast_silence::specs::Bound::idle))]
pub fn is_idle(x: Receiver) -> bool
    ensures { result ≡ idle x }
{
    matches!(x, Receiver::Listening | Receiver::Readable(_))
}

// What a station allows of m steps.
#[tactic(auto, unfolding(fast_silence::specs::Bound::station_rests))]
fn station_rests(f: Figures, m: u32, s: Station) -> u32
    requires { f.gap1 + f.gap2 < 65536 }
    ensures { result ≡ station_rests f m s }
{
    if s.emitted {
        return 0;
    }
    if is_idle(s.receiver) {
        return frames_rest(f, m, s.deference, s.transmitter);
    }
    0
}

// The same, and no more than m.
pub fn least_rest(f: Figures, m: u32, s: Station) -> u32
    requires { f.gap1 + f.gap2 < 65536 }
    ensures { result ≡ min (station_rests f m s) m }
{
    station_rests(f, m, s).min(m)
}

// A gap that has come to `count` + m bit times, or is over.
#[tactic(auto, unfolding(fast_silence::specs::Rested::gap_to, sheet_layout::specs::Layout::gap_of))]
fn gap_to(f: Figures, own: bool, count: u32, m: u32) -> Deference
    requires { f.gap1 + f.gap2 < 65536 }
    ensures { result ≡ gap_to f own (count + m) }
{
    let g = f.gap1 + f.gap2;
    if g < count || g - count < m {
        return Deference::Quiet;
    }
    Deference::Gap {
        count: count + m,
        own,
    }
}

// A deference after m steps in which nothing is heard.
#[tactic(auto, unfolding(fast_silence::specs::Rested::rested_deference))]
pub fn rest_deference(f: Figures, m: u32, d: Deference) -> Deference
    requires { f.gap1 + f.gap2 < 65536 }
    ensures { result ≡ rested_deference f m d }
{
    match d {
        Deference::Quiet => Deference::Quiet,
        Deference::Busy(own) => {
            if m == 0 {
                return Deference::Busy(own);
            }
            gap_to(f, own, 0, m)
        }
        Deference::Gap { count, own } => gap_to(f, own, count, m),
    }
}

// A transmitter after m steps without a start: its backoff runs down.
#[tactic(auto, unfolding(fast_silence::specs::Rested::rested_transmitter))]
pub fn rest_transmitter(m: u32, x: Transmitter) -> Transmitter
    ensures { result ≡ rested_transmitter m x }
{
    match x {
        Transmitter::BackingOff(w) => {
            if m < w {
                return Transmitter::BackingOff(w - m);
            }
            Transmitter::Waiting
        }
        Transmitter::NoFrame
        | Transmitter::Waiting
        | Transmitter::Sending(_)
        | Transmitter::Heading(_)
        | Transmitter::Jamming { .. } => x,
    }
}

// Whether a frame waited in one of m steps.
#[tactic(auto, unfolding(fast_silence::specs::Rested::has_waited))]
pub fn has_waited(m: u32, x: Transmitter) -> bool
    ensures { result ≡ has_waited m x }
{
    match x {
        Transmitter::Waiting => 0 < m,
        Transmitter::BackingOff(w) => w < m,
        Transmitter::NoFrame
        | Transmitter::Sending(_)
        | Transmitter::Heading(_)
        | Transmitter::Jamming { .. } => false,
    }
}

// A station after m steps of silence.
#[tactic(auto, unfolding(fast_silence::specs::Rested::rested))]
pub fn rest(f: Figures, m: u32, s: Station) -> Station
    requires { f.gap1 + f.gap2 < 65536 }
    ensures { result ≡ rested f m s }
{
    let waited = has_waited(m, s.transmitter);
    Station {
        deference: rest_deference(f, m, s.deference),
        transmitter: rest_transmitter(m, s.transmitter),
        deferred: s.deferred | (s.attempts == 0) & waited,
        emitted: false,
        ..s
    }
}
