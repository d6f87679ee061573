// A station's bit time by value (document 01, "One bit time"): the definitions of deference, transmitter, receiver, a
// step and the counters (specs), and the outcomes that they speak of.

#![tactic(auto)]

use station_state::{Deference, Receiver, Station, Transmitter};
use station_symbols::Emission;

// What a step's deference leads to: the next phase, and whether a waiting frame starts in the step.
#[derive(Clone, Copy)]
pub struct Deferred {
    pub phase: Deference,
    pub start: bool,
}

// What a transmitter reports in a step: a collision with its bit, or a late one, which closes the frame or not; sent,
// given up or ended after a late collision with the frame's attempts.
#[derive(Clone, Copy)]
pub enum TransmitEvent {
    Collision(u32),
    Late { bit: u32, closes: bool },
    Sent(u32),
    GivenUp(u32),
    LateEnded(u32),
}

// What a step of the transmitter leads to: the next phase, the emission, at most one event, and whether a draw was
// used.
#[derive(Clone, Copy)]
pub struct Transmitted {
    pub phase: Transmitter,
    pub emission: Emission,
    pub event: Option<TransmitEvent>,
    pub drew: bool,
}

// What a receiver reports in a step, a frame got: with receiveOK the octets of client data, else the whole octets
// collected.
#[derive(Clone, Copy)]
pub enum ReceiveEvent {
    GotOk(u32),
    GotTooLong(u32),
    GotAlignment(u32),
    GotCheck(u32),
    GotLength(u32),
}

// The collected bit that a step stores: its number, counted from 0, and its value.
#[derive(Clone, Copy)]
pub struct Stored {
    pub bit: u32,
    pub one: bool,
}

// What a step of the receiver leads to: the next state, at most one event, and the collected bit to store, if any.
#[derive(Clone, Copy)]
pub struct Received {
    pub receiver: Receiver,
    pub event: Option<ReceiveEvent>,
    pub stored: Option<Stored>,
}

// What a step leads to: the next state, what is emitted, whether a frame started, the events, the collected bit to
// store, if any.
#[derive(Clone, Copy)]
pub struct Stepped {
    pub station: Station,
    pub emission: Emission,
    pub start: bool,
    pub sent: Option<TransmitEvent>,
    pub got: Option<ReceiveEvent>,
    pub stored: Option<Stored>,
}
