// The end of a reception, what is reported of it, and the receiver's step.

#![tactic(auto)]

ghost use Rattle.std.specs.Prelude.{◌≡◌, ◌<◌, ◌≤◌, length};
ghost use Rattle.frame_open.specs.Open.{status_answer};
ghost use Rattle.station_state.specs.declared.Receiver.TheVariants.{Listening};
ghost use Rattle.station_spec.specs.Receive.{row_in, bits_in, hear, addressed, open_answer, opening, deciding, decide};
ghost use Rattle.station_spec.specs.Receive.{ended, receive, row_limit};
ghost use Rattle.station_spec.specs.ReceiveLaws.{got_error};
ghost use Rattle.frame_build.specs.Limits.{buffer_octets};

use frame_open::ReceiveStatus;
use octets::Refusal;
use station_spec::{ReceiveEvent, Received};
use station_state::Receiver;
use station_symbols::Heard;

// Whether the destination that stands in the buffer is the station's own address or broadcast.
#[tactic(auto, unfolding(station_spec::specs::Receive::addressed, frame_open::specs::Open::destination_of))]
pub fn is_addressed(address: [u8; 6], buffer: &[u8]) -> bool
    requires { 6 ≤ length buffer.now }
    ensures { result ≡ addressed address buffer.now }
{
    let all = [255u8; 6];
    octets_copies::same(&buffer[0..6], &address) | octets_copies::same(&buffer[0..6], &all)
}

fn deciding(receiver: Receiver, event: Option<ReceiveEvent>) -> Received
    ensures { result ≡ deciding receiver event }
{
    Received {
        receiver,
        event,
        stored: None,
    }
}

// A reception is left with this event, or none.
fn left(event: Option<ReceiveEvent>) -> Received
    ensures { result ≡ deciding Listening event }
{
    deciding(Receiver::Listening, event)
}

// The status of n collected bits.
#[tactic(auto, unfolding(station_spec::specs::Receive::open_answer))]
fn open_buffer(buffer: &[u8], n: u32, spoiled: bool) -> Result<ReceiveStatus, Refusal>
    requires { buffer_octets ≤ length buffer.now }
    ensures { status_answer result ≡ open_answer buffer.now n spoiled }
{
    let octets = (n / 8) as usize;
    if frame_build::limits::BUFFER < octets {
        return Ok(ReceiveStatus::FrameTooLong);
    }
    frame_open::reception_status(&buffer[0..octets], n % 8, spoiled)
}

// The event of a status that is no receiveOK, with the octets collected.
fn got_error(status: ReceiveStatus, octets: u32) -> Option<ReceiveEvent>
    ensures { result ≡ got_error status octets }
{
    match status {
        ReceiveStatus::Fragment => None,
        ReceiveStatus::FrameTooLong => Some(ReceiveEvent::GotTooLong(octets)),
        ReceiveStatus::FrameCheckError => Some(ReceiveEvent::GotCheck(octets)),
        ReceiveStatus::AlignmentError => Some(ReceiveEvent::GotAlignment(octets)),
        ReceiveStatus::LengthError => Some(ReceiveEvent::GotLength(octets)),
        ReceiveStatus::ReceiveOk(_) => None,
    }
}

// The opening rules on n collected bits: it leaves on a fragment or an error.
fn open_reception(buffer: &[u8], n: u32, spoiled: bool) -> Received
    requires { buffer_octets ≤ length buffer.now }
    ensures { result ≡ opening buffer.now n spoiled }
{
    let Ok(status) = open_buffer(buffer, n, spoiled) else {
        return left(None);
    };
    let ReceiveStatus::ReceiveOk(size) = status else {
        return left(got_error(status, n / 8));
    };
    deciding(
        Receiver::Readable(n / 8),
        Some(ReceiveEvent::GotOk(size as u32)),
    )
}

// The step after a reception of n collected bits.
#[tactic(auto, unfolding(station_spec::specs::Receive::decide))]
fn decide(address: [u8; 6], buffer: &[u8], n: u32, spoiled: bool, own: bool) -> Received
    requires { buffer_octets ≤ length buffer.now }
    ensures { result ≡ decide address buffer.now n spoiled own }
{
    if n < frame_build::limits::SHORTEST_FRAME {
        return left(None);
    }
    if own {
        return left(None);
    }
    if is_addressed(address, buffer) {
        return open_reception(buffer, n, spoiled);
    }
    left(None)
}

// A step in which nothing is heard.
#[tactic(auto, unfolding(station_spec::specs::Receive::ended))]
fn end(address: [u8; 6], buffer: &[u8], r: Receiver) -> Received
    requires { buffer_octets ≤ length buffer.now }
    ensures { result ≡ ended address buffer.now r }
{
    match r {
        Receiver::Listening | Receiver::Seeking { .. } => left(None),
        Receiver::Readable(n) => deciding(Receiver::Readable(n), None),
        Receiver::Collecting { bits, spoiled, own } => decide(address, buffer, bits, spoiled, own),
    }
}

// One step of the receiver: the octets that it collected so far, what it hears, and whether its station emits in this
// step.
#[tactic(auto, unfolding(station_spec::specs::Receive::receive))]
pub fn receive(address: [u8; 6], buffer: &[u8], r: Receiver, h: Heard, emits: bool) -> Received
    requires { (buffer_octets ≤ length buffer.now) × (row_in r < row_limit) × (bits_in r < 4294967295) }
    ensures { result ≡ receive address buffer.now r h emits }
{
    match h {
        Heard::Nothing => end(address, buffer, r),
        Heard::Clean(one) => station_receive::hear(r, Some(one), emits),
        Heard::Spoiled => station_receive::hear(r, None, emits),
    }
}
