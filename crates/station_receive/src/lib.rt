// The receiver: a reception, its delimiter, the bits collected, and what comes of them.

#![tactic(auto)]

ghost use Rattle.std.specs.Prelude.{false, is_some, unwrap_or, ◌≡◌, ◌+◌, ◌*◌, ◌<◌};
ghost use Rattle.station_spec.specs.Receive.{row_in, bits_in, hearing, next_row, seek_bit, seek, stored_bit, collect, hear};
ghost use Rattle.station_spec.specs.Receive.{row_limit};

use station_spec::{Received, Stored};
use station_state::Receiver;

// A step in which nothing is decided.
fn hearing(receiver: Receiver, stored: Option<Stored>) -> Received
    ensures { result ≡ hearing receiver stored }
{
    Received {
        receiver,
        event: None,
        stored,
    }
}

// The row of clean symbols with one more.
#[tactic(auto, unfolding(station_spec::specs::Receive::next_row))]
pub fn next_row(row: u32, one: bool) -> u32
    requires { row < 65536 }
    ensures { result ≡ next_row row one }
{
    let longer = 2 * row + u32::from(one);
    if longer < 512 {
        longer
    } else {
        256 + longer % 256
    }
}

// A clean symbol of a reception that has no delimiter yet.
#[tactic(auto, unfolding(station_spec::specs::Receive::seek_bit))]
fn seek_bit(row: u32, one: bool, spoiled: bool, own: bool) -> Received
    requires { row < 65536 }
    ensures { result ≡ seek_bit row one spoiled own }
{
    let longer = next_row(row, one);
    if longer == 427 {
        return hearing(
            Receiver::Collecting {
                bits: 0,
                spoiled,
                own,
            },
            None,
        );
    }
    hearing(
        Receiver::Seeking {
            row: longer,
            spoiled,
            own,
        },
        None,
    )
}

// Any symbol of a reception that has no delimiter yet: a clean one is its bit.
#[tactic(auto, unfolding(station_spec::specs::Receive::seek))]
fn seek(row: u32, spoiled: bool, own: bool, symbol: Option<bool>) -> Received
    requires { row < 65536 }
    ensures { result ≡ seek row spoiled own (is_some symbol) (unwrap_or symbol false) }
{
    match symbol {
        Some(one) => seek_bit(row, one, spoiled, own),
        None => hearing(
            Receiver::Seeking {
                row: 1,
                spoiled: true,
                own,
            },
            None,
        ),
    }
}

#[tactic(auto, unfolding(station_spec::specs::Receive::stored_bit))]
fn stored_bit(n: u32, one: bool) -> Option<Stored>
    ensures { result ≡ stored_bit n one }
{
    if (n as usize) < frame_build::limits::BUFFER_BITS {
        Some(Stored { bit: n, one })
    } else {
        None
    }
}

// A symbol of a reception after its delimiter.
#[tactic(auto, unfolding(station_spec::specs::Receive::collect, station_spec::specs::Receive::collect_bit))]
fn collect(n: u32, spoiled: bool, own: bool, symbol: Option<bool>) -> Received
    requires { n < 4294967295 }
    ensures { result ≡ collect n spoiled own (is_some symbol) (unwrap_or symbol false) }
{
    let stored = stored_bit(n, symbol.unwrap_or(false));
    hearing(
        Receiver::Collecting {
            bits: n + 1,
            spoiled: spoiled | symbol.is_none(),
            own,
        },
        stored,
    )
}

// A step in which others are heard: a clean symbol is its bit.
#[tactic(auto, unfolding(station_spec::specs::Receive::hear))]
pub fn hear(r: Receiver, symbol: Option<bool>, emits: bool) -> Received
    requires { (row_in r < row_limit) × (bits_in r < 4294967295) }
    ensures { result ≡ hear r (is_some symbol) (unwrap_or symbol false) emits }
{
    match r {
        Receiver::Listening | Receiver::Readable(_) => seek(1, false, emits, symbol),
        Receiver::Seeking { row, spoiled, own } => seek(row, spoiled, own | emits, symbol),
        Receiver::Collecting { bits, spoiled, own } => collect(bits, spoiled, own | emits, symbol),
    }
}
