// The transmitter: start, packet bits, collision, header, jam, backoff.

#![tactic(auto)]

ghost use Rattle.std.specs.Prelude.{◌≡◌, ◌*◌, ◌<◌};
ghost use Rattle.station_spec.specs.Transmit.{waits, octets_held, emitting, jam_bit, last_jam, back_off, backoff_range};

use sheet_layout::Figures;
use station_spec::{TransmitEvent, Transmitted};
use station_state::Transmitter;
use station_symbols::Emission;

pub fn is_waiting(t: Transmitter) -> bool
    ensures { result ≡ waits t }
{
    matches!(t, Transmitter::Waiting)
}

// The octets of the frame that a station holds; 0 where it holds none.
pub fn octets_held(t: Transmitter, frame: u32) -> u32
    ensures { result ≡ octets_held t frame }
{
    match t {
        Transmitter::NoFrame => 0,
        _ => frame,
    }
}

// A step that uses no draw: the next phase, what is emitted, and what is reported.
pub fn emitting(phase: Transmitter, emission: Emission, event: Option<TransmitEvent>) -> Transmitted
    ensures { result ≡ emitting phase emission event }
{
    Transmitted {
        phase,
        emission,
        event,
        drew: false,
    }
}

// The backoff range after attempt n: a power of two.
#[tactic(auto, unfolding(station_spec::specs::Transmit::backoff_range))]
fn range_after(n: u32, backoff: u32) -> u32
    requires { backoff < 16 }
    ensures value { result ≡ backoff_range n backoff }
    ensures some { (0 < result) × (result < 65536) }
{
    2u32.pow(n.min(backoff))
}

// Where a frame goes after the last jam bit of attempt n, with this draw. The bounds of the figures are asked for and are
// no invariant of them: a sheet may hold any figures until it is checked.
#[tactic(auto, unfolding(station_spec::specs::Transmit::back_off))]
fn back_off(f: Figures, n: u32, draw: u32) -> Transmitter
    requires { (f.backoff < 16) × (f.slot < 65536) }
    ensures { result ≡ back_off f n draw }
{
    let range = range_after(n, f.backoff);
    let wait = f.slot * (draw % range);
    if wait == 0 {
        return Transmitter::Waiting;
    }
    Transmitter::BackingOff(wait)
}

#[tactic(auto, unfolding(station_spec::specs::Transmit::last_jam))]
fn last_jam(f: Figures, n: u32, draw: u32) -> Transmitted
    requires { (f.backoff < 16) × (f.slot < 65536) }
    ensures { result ≡ last_jam f n draw }
{
    if n == f.limit {
        return emitting(
            Transmitter::NoFrame,
            Emission::JamBit,
            Some(TransmitEvent::GivenUp(n)),
        );
    }
    let phase = back_off(f, n, draw);
    Transmitted {
        phase,
        emission: Emission::JamBit,
        event: None,
        drew: true,
    }
}

#[tactic(auto, unfolding(station_spec::specs::Transmit::jam_bit))]
pub fn jam_bit(f: Figures, n: u32, draw: u32, left: u32, ends: bool) -> Transmitted
    requires { (f.backoff < 16) × (f.slot < 65536) }
    ensures { result ≡ jam_bit f n draw left ends }
{
    if left <= 1 {
        if ends {
            return emitting(
                Transmitter::NoFrame,
                Emission::JamBit,
                Some(TransmitEvent::LateEnded(n)),
            );
        }
        return last_jam(f, n, draw);
    }
    emitting(
        Transmitter::Jamming {
            left: left - 1,
            ends,
        },
        Emission::JamBit,
        None,
    )
}
