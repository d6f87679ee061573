// A bit of an attempt, its collision, and the transmitter's step.

#![tactic(auto)]

ghost use Rattle.std.specs.Prelude.{◌≡◌, ◌+◌, ◌*◌, ◌<◌};
ghost use Rattle.station_spec.specs.Transmit.{after_bit, collision, send_bit, head_bit, resting, backoff_bit, transmit};
ghost use Rattle.station_state.specs.State.{number_in};

use sheet_layout::Figures;
use station_spec::{TransmitEvent, Transmitted};
use station_state::Transmitter;
use station_symbols::Emission;
use station_transmit::emitting;

// How a collided attempt goes on after packet bit k, whose frame ends or not.
#[tactic(auto, unfolding(station_spec::specs::Transmit::after_bit))]
fn after_bit(jam: u32, k: u32, ends: bool) -> Transmitter
    ensures { result ≡ after_bit jam k ends }
{
    if k < 64 {
        Transmitter::Heading(k + 1)
    } else {
        Transmitter::Jamming { left: jam, ends }
    }
}

#[tactic(auto, unfolding(station_spec::specs::Transmit::collision))]
fn collided(f: Figures, k: u32) -> Transmitted
    ensures { result ≡ collision f k }
{
    if f.slot < k {
        let closes = f.ends == 1;
        return emitting(
            after_bit(f.jam, k, closes),
            Emission::PacketBit(k),
            Some(TransmitEvent::Late { bit: k, closes }),
        );
    }
    emitting(
        after_bit(f.jam, k, false),
        Emission::PacketBit(k),
        Some(TransmitEvent::Collision(k)),
    )
}

// Packet bit k of a frame's attempt n goes out.
#[tactic(auto, unfolding(station_spec::specs::Transmit::send_bit))]
fn send_bit(f: Figures, frame: u32, n: u32, k: u32, hears: bool) -> Transmitted
    requires { (frame < 65536) × (k < 4294967295) }
    ensures { result ≡ send_bit f frame n k hears }
{
    if hears {
        return collided(f, k);
    }
    if k == 64 + 8 * frame {
        return emitting(
            Transmitter::NoFrame,
            Emission::PacketBit(k),
            Some(TransmitEvent::Sent(n)),
        );
    }
    emitting(Transmitter::Sending(k + 1), Emission::PacketBit(k), None)
}

// A step in which nothing is emitted.
fn rests(phase: Transmitter) -> Transmitted
    ensures { result ≡ resting phase }
{
    emitting(phase, Emission::Rest, None)
}

#[tactic(auto, unfolding(station_spec::specs::Transmit::backoff_bit))]
fn backoff_bit(left: u32) -> Transmitted
    ensures { result ≡ backoff_bit left }
{
    if left <= 1 {
        rests(Transmitter::Waiting)
    } else {
        rests(Transmitter::BackingOff(left - 1))
    }
}

#[tactic(auto, unfolding(station_spec::specs::Transmit::head_bit))]
fn head_bit(f: Figures, k: u32) -> Transmitted
    ensures { result ≡ head_bit f k }
{
    emitting(after_bit(f.jam, k, false), Emission::PacketBit(k), None)
}

// One step of the transmitter, of a frame of so many octets in its attempt n.
#[tactic(auto, unfolding(station_spec::specs::Transmit::transmit, station_spec::specs::Transmit::wait_bit))]
pub fn transmit(
    f: Figures,
    t: Transmitter,
    frame: u32,
    n: u32,
    draw: u32,
    start: bool,
    hears: bool,
) -> Transmitted
    requires { (f.backoff < 16) × (f.slot < 65536) × (frame < 65536) × (number_in t < 4294967295) }
    ensures { result ≡ transmit f t frame n draw start hears }
{
    match t {
        Transmitter::NoFrame => rests(Transmitter::NoFrame),
        Transmitter::Waiting if start => send_bit(f, frame, n, 1, hears),
        Transmitter::Waiting => rests(Transmitter::Waiting),
        Transmitter::BackingOff(left) => backoff_bit(left),
        Transmitter::Sending(k) => send_bit(f, frame, n, k, hears),
        Transmitter::Heading(k) => head_bit(f, k),
        Transmitter::Jamming { left, ends } => station_transmit::jam_bit(f, n, draw, left, ends),
    }
}
