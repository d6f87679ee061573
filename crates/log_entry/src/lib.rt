// A log of events: entries with time, station and event, and what is known of a log after its entries so far. The
// windows that are looked up in a log are numbers, three to a window: station, first time, time past the last. They are
// no structs, since C lends them as an array of numbers.

#![tactic(auto)]

ghost use Rattle.std.specs.Prelude.{◌≡◌, ◌+◌};
ghost use Rattle.station_tally.specs.Words.{word_number};
ghost use Rattle.log_entry.specs.Log.{word_of};

use station_tally::Word;

// The most windows of a lookup, and the counts of so many.
pub const MAX_WINDOWS: usize = 64;

pub const CELLS: usize = MAX_WINDOWS * station_tally::WORDS;

// What a station reported, as document 01 prints it: a transmit event with its bit or its attempts, a receive event
// with its octets.
#[derive(Clone, Copy)]
pub enum Event {
    Collision(u32),
    Late(u32),
    Sent(u32),
    GivenUp(u32),
    LateEnd(u32),
    GotOk(u32),
    GotTooLong(u32),
    GotAlignment(u32),
    GotCheck(u32),
    GotLength(u32),
}

#[derive(Clone, Copy)]
pub struct Entry {
    pub time: u32,
    pub station: u32,
    pub event: Event,
}

// After some entries: N, whether an entry's station was N or more, whether the times fell, the last time, and ten
// counts for each of 64 windows.
#[derive(Clone, Copy)]
pub struct State {
    pub stations: u32,
    pub astray: bool,
    pub falls: bool,
    pub last: u32,
    pub counts: [u32; CELLS],
}

// The word of an event.
pub fn word_of(event: Event) -> Word
    ensures { word_number (Some result) ≡ word_of event + 1 }
{
    match event {
        Event::Collision(_) => Word::Collision,
        Event::Late(_) => Word::Late,
        Event::Sent(_) => Word::Sent,
        Event::GivenUp(_) => Word::GivenUp,
        Event::LateEnd(_) => Word::LateEnd,
        Event::GotOk(_) => Word::GotOk,
        Event::GotTooLong(_) => Word::GotTooLong,
        Event::GotAlignment(_) => Word::GotAlignment,
        Event::GotCheck(_) => Word::GotCheck,
        Event::GotLength(_) => Word::GotLength,
    }
}
