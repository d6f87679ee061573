// A station after many steps of one kind, by value: others are heard, nothing is heard, or it emits; and how long each
// lasts.

#![tactic(auto)]

ghost use Rattle.std.specs.Prelude.{◌≡◌, ◌+◌, ◌-◌, ◌<◌};
ghost use Rattle.station_state.specs.State.{number_in};
ghost use Rattle.fast_station.specs.Forms.{heard_gap, heard_deference, heard_for, heard_rest, hear_on, rest_on};
ghost use Rattle.fast_station.specs.Forms.{emits_on, emits_for, emit_on, unhurt, keeps_emitting};
ghost use Rattle.fast_receive.specs.Received.{calmed};

use sheet_layout::Figures;
use station_state::{Deference, Receiver, Station, Transmitter};

// ---- others are heard, and it emits nothing

// The steps, of m, in which a frame that waits does not start.
#[tactic(auto, unfolding(crate::specs::Forms::heard_for, sheet_layout::specs::Layout::gap_of))]
fn heard_for(f: Figures, m: u32, d: Deference) -> u32
    requires { f.gap1 + f.gap2 < 65536 }
    ensures { result ≡ heard_for f m d }
{
    match d {
        Deference::Quiet | Deference::Busy(_) => m,
        Deference::Gap { count, own } => {
            if station_defer::goes_back(f.gap1, count, own, true) {
                return m;
            }
            (f.gap1 + f.gap2).saturating_sub(count)
        }
    }
}

// The steps, of m, in which no frame starts and none goes out.
#[tactic(auto, unfolding(crate::specs::Forms::heard_rest))]
pub fn heard_rest(f: Figures, m: u32, d: Deference, x: Transmitter) -> u32
    requires { f.gap1 + f.gap2 < 65536 }
    ensures { result ≡ heard_rest f m d x }
{
    match x {
        Transmitter::NoFrame => m,
        Transmitter::Waiting => heard_for(f, m, d),
        Transmitter::BackingOff(w) => w.max(heard_for(f, m, d)),
        Transmitter::Sending(_) | Transmitter::Heading(_) | Transmitter::Jamming { .. } => 0,
    }
}

// A gap in which others were heard for m steps.
#[tactic(auto, unfolding(crate::specs::Forms::heard_gap, sheet_layout::specs::Layout::gap_of))]
fn hear_gap(f: Figures, m: u32, count: u32, own: bool) -> Deference
    requires { f.gap1 + f.gap2 < 65536 }
    ensures { result ≡ heard_gap f m count own }
{
    let g = f.gap1 + f.gap2;
    if station_defer::goes_back(f.gap1, count, own, true) {
        return Deference::Busy(false);
    }
    if g < count || g - count < m {
        return Deference::Busy(false);
    }
    Deference::Gap {
        count: count + m,
        own,
    }
}

// A deference after m steps in which others are heard.
#[tactic(auto, unfolding(crate::specs::Forms::heard_deference))]
pub fn hear_deference(f: Figures, m: u32, d: Deference) -> Deference
    requires { f.gap1 + f.gap2 < 65536 }
    ensures { result ≡ heard_deference f m d }
{
    if m == 0 {
        return d;
    }
    match d {
        Deference::Quiet => Deference::Busy(false),
        Deference::Busy(_) => d,
        Deference::Gap { count, own } => hear_gap(f, m, count, own),
    }
}

// A station that heard others for m steps; its receiver is r then.
#[tactic(auto, unfolding(crate::specs::Forms::hear_on, crate::specs::Forms::made, crate::specs::Forms::deferred_by))]
pub fn hear_on(f: Figures, m: u32, r: Receiver, s: Station) -> Station
    requires { f.gap1 + f.gap2 < 65536 }
    ensures { result ≡ hear_on f m r s }
{
    let waited = fast_rest::has_waited(m, s.transmitter);
    Station {
        deference: hear_deference(f, m, s.deference),
        transmitter: fast_rest::rest_transmitter(m, s.transmitter),
        receiver: r,
        deferred: s.deferred | (s.attempts == 0) & waited,
        emitted: false,
        ..s
    }
}

// ---- nothing is heard, and it emits nothing

// A receiver after m steps in which nothing is heard: a reception that reported nothing is over.
#[tactic(auto, unfolding(fast_receive::specs::Received::calmed, fast_silence::specs::Bound::idle))]
pub fn calm(m: u32, r: Receiver) -> Receiver
    ensures { result ≡ calmed m r }
{
    if m == 0 || fast_rest::is_idle(r) {
        return r;
    }
    Receiver::Listening
}

// A station that heard nothing for m steps, and whose reception, if there was one, reported nothing.
#[tactic(auto, unfolding(crate::specs::Forms::rest_on, crate::specs::Forms::made, crate::specs::Forms::deferred_by, fast_silence::specs::Rested::rested))]
pub fn rest_on(f: Figures, m: u32, s: Station) -> Station
    requires { f.gap1 + f.gap2 < 65536 }
    ensures { result ≡ rest_on f m s }
{
    Station {
        receiver: calm(m, s.receiver),
        ..fast_rest::rest(f, m, s)
    }
}

// ---- it emits

// The steps through which it emits without an event, a draw or a change of what it emits; `octets` are those of its
// frame.
#[tactic(auto, unfolding(crate::specs::Forms::emits_for, station_spec::specs::Transmit::packet_length))]
pub fn emits_for(octets: u32, x: Transmitter) -> u32
    requires { octets < 65536 }
    ensures { result ≡ emits_for octets x }
{
    match x {
        Transmitter::NoFrame | Transmitter::Waiting | Transmitter::BackingOff(_) => 0,
        Transmitter::Sending(k) => (64 + 8 * octets).saturating_sub(k),
        Transmitter::Heading(k) => 65u32.saturating_sub(k),
        Transmitter::Jamming { left, .. } => left.saturating_sub(1),
    }
}

// Whether others that are heard make no collision, where `heard`, and else that nothing heard ends no reception.
#[tactic(auto, unfolding(crate::specs::Forms::unhurt, crate::specs::Forms::sends))]
fn is_unhurt(heard: bool, r: Receiver, x: Transmitter) -> bool
    ensures { result ≡ unhurt heard r x }
{
    if heard {
        return !matches!(x, Transmitter::Sending(_));
    }
    fast_rest::is_idle(r)
}

// Whether a station emits as in the step before, and goes on while others are heard, where `heard`, or nothing is.
#[tactic(auto, unfolding(crate::specs::Forms::keeps_emitting, crate::specs::Forms::own_busy))]
pub fn keeps_emitting(heard: bool, s: Station) -> bool
    ensures { result ≡ keeps_emitting heard s }
{
    let own = matches!(s.deference, Deference::Busy(true));
    s.emitted & (own & is_unhurt(heard, s.receiver, s.transmitter))
}

#[tactic(auto, unfolding(crate::specs::Forms::emits_on, station_state::specs::State::number_in))]
fn emit_transmitter(f: Figures, m: u32, x: Transmitter) -> Transmitter
    requires { number_in x + m < 4294967296 }
    ensures { result ≡ emits_on f m x }
{
    match x {
        Transmitter::NoFrame | Transmitter::Waiting | Transmitter::BackingOff(_) => x,
        Transmitter::Sending(k) => Transmitter::Sending(k + m),
        Transmitter::Heading(k) => {
            if k + m <= 64 {
                return Transmitter::Heading(k + m);
            }
            Transmitter::Jamming {
                left: f.jam,
                ends: false,
            }
        }
        Transmitter::Jamming { left, ends } => Transmitter::Jamming {
            left: left.saturating_sub(m),
            ends,
        },
    }
}

// A station that emitted for m steps; its receiver is r then.
#[tactic(auto, unfolding(crate::specs::Forms::emit_on, crate::specs::Forms::made))]
pub fn emit_on(f: Figures, m: u32, r: Receiver, s: Station) -> Station
    requires { number_in s.transmitter + m < 4294967296 }
    ensures { result ≡ emit_on f m r s }
{
    Station {
        deference: Deference::Busy(true),
        transmitter: emit_transmitter(f, m, s.transmitter),
        receiver: r,
        emitted: true,
        ..s
    }
}
