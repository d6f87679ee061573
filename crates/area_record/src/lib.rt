// A station's record: the fourteen 32-bit words that stand for its state in a work area. Its address stands with the
// layout.
//
// | word | holds |
// |---|---|
// | 0, 1, 2 | deference: 0 quiet, 1 busy, 2 gap; own emission; gap count |
// | 3, 4 | transmitter: 0 no frame, 1 waiting, 2 backing off, 3 sending, 4 heading, 5 jamming, 6 jamming before the end; its number |
// | 5, 6, 7, 8 | receiver: 0 listening, 1 readable, 2 seeking, 3 collecting; its number; spoiled; own emission |
// | 9, 10, 11, 12, 13 | frame; attempts; draw place; deferred; emitted |
//
// A flag is 0 or 1. Words that a state does not use are 0.

#![tactic(auto)]

pub mod words;

ghost use Rattle.std.specs.Prelude.{◌≡◌};
ghost use Rattle.area_record.specs.Codec.{flag, deference_of, deference_code, deference_own, deference_count};
ghost use Rattle.area_record.specs.Codec.{transmitter_of, transmitter_code, receiver_of, receiver_code};
ghost use Rattle.area_record.specs.Codec.{receiver_number, receiver_spoiled, receiver_own, encoded};
ghost use Rattle.station_state.specs.State.{number_in};

use station_state::{Deference, Receiver, Station, Transmitter};

// The phase that a code stands for. A code over 1 reads as gap.
#[tactic(auto, unfolding(crate::specs::Codec::deference_of))]
pub fn deference_of(code: u32, own: bool, count: u32) -> Deference
    ensures { result ≡ deference_of code own count }
{
    match code {
        0 => Deference::Quiet,
        1 => Deference::Busy(own),
        _ => Deference::Gap { count, own },
    }
}

fn deference_code(d: Deference) -> u32
    ensures { result ≡ deference_code d }
{
    match d {
        Deference::Quiet => 0,
        Deference::Busy(_) => 1,
        Deference::Gap { .. } => 2,
    }
}

fn deference_own(d: Deference) -> bool
    ensures { result ≡ deference_own d }
{
    match d {
        Deference::Quiet => false,
        Deference::Busy(own) => own,
        Deference::Gap { own, .. } => own,
    }
}

fn deference_count(d: Deference) -> u32
    ensures { result ≡ deference_count d }
{
    match d {
        Deference::Gap { count, .. } => count,
        _ => 0,
    }
}

// The phase that a code stands for. A code over 5 reads as jamming before the frame's end.
#[tactic(auto, unfolding(crate::specs::Codec::transmitter_of))]
pub fn transmitter_of(code: u32, number: u32) -> Transmitter
    ensures { result ≡ transmitter_of code number }
{
    match code {
        0 => Transmitter::NoFrame,
        1 => Transmitter::Waiting,
        2 => Transmitter::BackingOff(number),
        3 => Transmitter::Sending(number),
        4 => Transmitter::Heading(number),
        _ => Transmitter::Jamming {
            left: number,
            ends: code != 5,
        },
    }
}

fn transmitter_code(t: Transmitter) -> u32
    ensures { result ≡ transmitter_code t }
{
    match t {
        Transmitter::NoFrame => 0,
        Transmitter::Waiting => 1,
        Transmitter::BackingOff(_) => 2,
        Transmitter::Sending(_) => 3,
        Transmitter::Heading(_) => 4,
        Transmitter::Jamming { ends, .. } => 5 + u32::from(ends),
    }
}

fn transmitter_number(t: Transmitter) -> u32
    ensures { result ≡ number_in t }
{
    match t {
        Transmitter::NoFrame | Transmitter::Waiting => 0,
        Transmitter::BackingOff(n) | Transmitter::Sending(n) | Transmitter::Heading(n) => n,
        Transmitter::Jamming { left, .. } => left,
    }
}

// The state that a code stands for. A code over 2 reads as collecting.
#[tactic(auto, unfolding(crate::specs::Codec::receiver_of))]
pub fn receiver_of(code: u32, number: u32, spoiled: bool, own: bool) -> Receiver
    ensures { result ≡ receiver_of code number spoiled own }
{
    match code {
        0 => Receiver::Listening,
        1 => Receiver::Readable(number),
        2 => Receiver::Seeking {
            row: number,
            spoiled,
            own,
        },
        _ => Receiver::Collecting {
            bits: number,
            spoiled,
            own,
        },
    }
}

fn receiver_code(r: Receiver) -> u32
    ensures { result ≡ receiver_code r }
{
    match r {
        Receiver::Listening => 0,
        Receiver::Readable(_) => 1,
        Receiver::Seeking { .. } => 2,
        Receiver::Collecting { .. } => 3,
    }
}

fn receiver_number(r: Receiver) -> u32
    ensures { result ≡ receiver_number r }
{
    match r {
        Receiver::Listening => 0,
        Receiver::Readable(n) => n,
        Receiver::Seeking { row, .. } => row,
        Receiver::Collecting { bits, .. } => bits,
    }
}

fn receiver_spoiled(r: Receiver) -> bool
    ensures { result ≡ receiver_spoiled r }
{
    match r {
        Receiver::Listening | Receiver::Readable(_) => false,
        Receiver::Seeking { spoiled, .. } | Receiver::Collecting { spoiled, .. } => spoiled,
    }
}

fn receiver_own(r: Receiver) -> bool
    ensures { result ≡ receiver_own r }
{
    match r {
        Receiver::Listening | Receiver::Readable(_) => false,
        Receiver::Seeking { own, .. } | Receiver::Collecting { own, .. } => own,
    }
}

// The words that stand for a state.
#[tactic(auto, unfolding(crate::specs::Codec::encoded))]
pub fn encode(s: Station) -> [u32; words::WORDS]
    ensures { result ≡ encoded s }
{
    let d = s.deference;
    let t = s.transmitter;
    let r = s.receiver;
    [
        deference_code(d),
        u32::from(deference_own(d)),
        deference_count(d),
        transmitter_code(t),
        transmitter_number(t),
        receiver_code(r),
        receiver_number(r),
        u32::from(receiver_spoiled(r)),
        u32::from(receiver_own(r)),
        s.frame,
        s.attempts,
        s.draw,
        u32::from(s.deferred),
        u32::from(s.emitted),
    ]
}
