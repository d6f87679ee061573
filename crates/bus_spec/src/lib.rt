// One bit time of all stations on the pair, in place (document 01, "One bit time"). Checks 1 and 2 are not made here.

#![tactic(auto)]

pub mod course;
pub mod medium;
pub mod ready;

use station_spec::{ReceiveEvent, Stepped, TransmitEvent};
use station_symbols::Symbol;

// A station's events in a step: at most one transmit and one receive event.
#[derive(Clone, Copy)]
pub struct Events {
    pub sent: Option<TransmitEvent>,
    pub got: Option<ReceiveEvent>,
}

// What a station has in a step in which nothing comes to an end.
pub const NO_EVENTS: Events = Events {
    sent: None,
    got: None,
};

// What a station does in a step: the step's outcome, and the symbol that it emits.
#[derive(Clone, Copy)]
pub struct Act {
    pub outcome: Stepped,
    pub symbol: Symbol,
}
