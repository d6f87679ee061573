// The state of a station (document 01, "One bit time").

#![tactic(auto)]

// Quiet, busy or gap. A gap counts its quiet bits; busy and gap remember whether the station itself emitted in that
// busy stretch.
#[derive(Clone, Copy)]
pub enum Deference {
    Quiet,
    Busy(bool),
    Gap { count: u32, own: bool },
}

// No frame; a frame that waits; one in backoff, with the steps left; one going out, with its next packet bit; one that
// collided and finishes its header, with the next bit; one that jams, with the jam bits left and whether the frame ends
// after them.
#[derive(Clone, Copy)]
pub enum Transmitter {
    NoFrame,
    Waiting,
    BackingOff(u32),
    Sending(u32),
    Heading(u32),
    Jamming { left: u32, ends: bool },
}

// Hearing nothing, with no readable frame, or with one of so many octets; in a reception, looking for the delimiter,
// with the row of clean symbols, or collecting, with the bits so far. Both remember whether a symbol was spoiled and
// whether the station itself emitted.
#[derive(Clone, Copy)]
pub enum Receiver {
    Listening,
    Readable(u32),
    Seeking { row: u32, spoiled: bool, own: bool },
    Collecting { bits: u32, spoiled: bool, own: bool },
}

// A station: its address; deference, transmitter and receiver; the octets and attempts of the frame it holds; the place
// of its next draw; whether that frame did not start in its first step; whether it emitted in the last step.
#[derive(Clone, Copy)]
pub struct Station {
    pub address: [u8; 6],
    pub deference: Deference,
    pub transmitter: Transmitter,
    pub receiver: Receiver,
    pub frame: u32,
    pub attempts: u32,
    pub draw: u32,
    pub deferred: bool,
    pub emitted: bool,
}

// The counters of a station.
pub const COUNTERS: usize = 17;
