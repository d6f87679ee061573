// The work area: where each thing lies, read and written by name. All numbers are high octet first.
//
// | octets from | holds |
// |---|---|
// | 0 | the clock, 4 octets |
// | 4 | D, 4 octets |
// | 8 | slot, gap1, gap2, jam, attempt limit, backoff limit, N, late-end, 4 octets each |
// | 64 + 16 i | station i: position, 4 octets; address, 6 octets |
// | 320 + 32 i + 2 k | draw k of station i, 2 octets |
// | 832 + 68 i | the seventeen counters of station i, 4 octets each |
// | 2048 + 64 i | the record of station i, fourteen words of 4 octets |
// | 4096 + 256 i + u % 256 | what reaches station i in step u: 0 nothing, 1 a zero, 2 a one, 3 spoiled |
// | 8192 + 1536 i | the frame of station i, up to 1522 octets |
// | 32768 + 1536 i | what station i collected, up to 1522 octets |

#![tactic(auto)]

ghost use Rattle.std.specs.Prelude.{◌≡◌, ◌+◌, ◌*◌, ◌<◌, ◌≤◌, min, max, length, get_or};
ghost use Rattle.sheet_layout.specs.Layout.{places_of};
ghost use Rattle.area.specs.Area.{clock_at, with_clock, depth_at, draw_at, figures_at, count_at, position_at, address_at};
ghost use Rattle.area.specs.Area.{tap_at, layout_at, distance, counters_at, with_counters, record_at, station_at};
ghost use Rattle.area.specs.Area.{with_station, with_word};
ghost use Rattle.area.specs.Offsets.{area_size};
ghost use Rattle.sheet_layout.specs.Limits.{max_stations, max_draws};
ghost use Rattle.area_record.specs.Words.{record_words};

use sheet_layout::{Figures, Layout, Tap};
use station_state::{Deference, Receiver, Station, Transmitter};

// The octets of a work area.
pub const AREA: usize = 57344;

// Where D, the layout, the taps, their addresses, the draws, the counters, the records, the delay lines, the frames and
// what was collected begin.
pub const DEPTH_AT: usize = 4;

pub const LAYOUT_AT: usize = 8;

pub const TAPS_AT: usize = 64;

pub const ADDRESSES_AT: usize = 68;

pub const DRAWS_AT: usize = 320;

pub const COUNTERS_AT: usize = 832;

pub const RECORDS_AT: usize = 2048;

pub const LINES_AT: usize = 4096;

pub const FRAMES_AT: usize = 8192;

pub const BUFFERS_AT: usize = 32768;

// The highest code of what is heard.
pub const SPOILED: u8 = 3;

// The places of a delay line, and the octets that a frame may take.
pub const RING: usize = 256;

pub const FRAME_ROOM: usize = 1536;

#[tactic(auto, unfolding(crate::specs::Area::clock_at))]
pub fn read_clock(area: &[u8]) -> u32
    requires { area_size ≤ length area.now }
    ensures { result ≡ clock_at area.now }
{
    octets_words::get32(area, 0)
}

#[tactic(auto, unfolding(crate::specs::Area::with_clock))]
pub fn write_clock(area: &mut [u8], t: u32)
    requires { area_size ≤ length area.old }
    ensures { area.new ≡ with_clock area.old t }
{
    octets_words::put32(area, 0, t);
}

// D.
#[tactic(auto, unfolding(crate::specs::Area::depth_at))]
pub fn read_depth(area: &[u8]) -> u32
    requires { area_size ≤ length area.now }
    ensures { result ≡ depth_at area.now }
{
    octets_words::get32(area, 4)
}

// Draw k of station i.
#[tactic(auto, unfolding(crate::specs::Area::draw_at))]
pub fn read_draw(area: &[u8], i: usize, k: usize) -> u32
    requires { (i < max_stations) × (k < max_draws) × (area_size ≤ length area.now) }
    ensures { result ≡ draw_at area.now i k }
{
    octets_words::get16(area, DRAWS_AT + 32 * i + 2 * k)
}

#[tactic(auto, unfolding(crate::specs::Area::figures_at))]
pub fn read_figures(area: &[u8]) -> Figures
    requires { area_size ≤ length area.now }
    ensures { result ≡ figures_at area.now }
{
    Figures {
        slot: octets_words::get32(area, 8),
        gap1: octets_words::get32(area, 12),
        gap2: octets_words::get32(area, 16),
        jam: octets_words::get32(area, 20),
        limit: octets_words::get32(area, 24),
        backoff: octets_words::get32(area, 28),
        ends: octets_words::get32(area, 36),
    }
}

// N.
#[tactic(auto, unfolding(crate::specs::Area::count_at))]
pub fn read_count(area: &[u8]) -> u32
    requires { area_size ≤ length area.now }
    ensures { result ≡ count_at area.now }
{
    octets_words::get32(area, 32)
}

// Where station i is.
#[tactic(auto, unfolding(crate::specs::Area::position_at))]
pub fn read_position(area: &[u8], i: usize) -> u32
    requires { (i < max_stations) × (area_size ≤ length area.now) }
    ensures { result ≡ position_at area.now i }
{
    octets_words::get32(area, TAPS_AT + 16 * i)
}

#[tactic(auto, unfolding(crate::specs::Area::address_at))]
pub fn read_address(area: &[u8], i: usize) -> [u8; 6]
    requires { (i < max_stations) × (area_size ≤ length area.now) }
    ensures { result ≡ address_at area.now i }
{
    octets_copies::six(area, ADDRESSES_AT + 16 * i)
}

fn read_tap(area: &[u8], i: usize) -> Tap
    requires { (i < max_stations) × (area_size ≤ length area.now) }
    ensures { result ≡ tap_at area.now i }
{
    let position = read_position(area, i);
    let address = read_address(area, i);
    Tap { position, address }
}

pub fn read_layout(area: &[u8]) -> Layout
    requires { area_size ≤ length area.now }
    ensures { result ≡ layout_at area.now }
{
    let figures = read_figures(area);
    let count = read_count(area);
    let tap = |i: usize| -> Tap
        requires { (i < max_stations) × (area_size ≤ length area.now) }
        ensures { result ≡ tap_at area.entry.now i }
    { read_tap(area, i) };
    let stations = sheet_layout::taps(sheet_layout::places(count), tap);
    Layout {
        figures,
        count,
        stations,
    }
}

// The distance of two places in bit times. As the larger less the smaller, each place is read as one word even where
// only the low octet of the distance counts.
#[tactic(auto, unfolding(crate::specs::Area::distance))]
pub fn apart(p: u32, q: u32) -> u32
    ensures { result ≡ distance p q }
{
    p.max(q) - p.min(q)
}

#[tactic(auto, unfolding(crate::specs::Area::counters_at))]
pub fn read_counters(area: &[u8], i: usize) -> [u32; station_state::COUNTERS]
    requires { (i < max_stations) × (area_size ≤ length area.now) }
    ensures { result ≡ counters_at area.now i }
{
    let mut w = [0u32; station_state::COUNTERS];
    octets_words::load_words(area, COUNTERS_AT + 68 * i, &mut w);
    w
}

#[tactic(auto, unfolding(crate::specs::Area::with_counters))]
pub fn write_counters(area: &mut [u8], i: usize, counters: [u32; station_state::COUNTERS])
    requires { (i < max_stations) × (area_size ≤ length area.old) }
    ensures { area.new ≡ with_counters area.old i counters }
{
    octets_words::store_words(area, COUNTERS_AT + 68 * i, &counters);
}

// Word k of the record of station i.
#[tactic(auto, using(crate::specs::CodeLaws::word_is))]
pub fn read_word(area: &[u8], i: usize, k: usize) -> u32
    requires { (i < max_stations) × (k < record_words) × (area_size ≤ length area.now) }
    ensures { result ≡ get_or (record_at area.now i) k 0 }
{
    octets_words::get32(area, RECORDS_AT + 64 * i + 4 * k)
}

// Writes word k of the record of station i alone.
#[tactic(auto, unfolding(crate::specs::Area::with_word))]
pub fn write_word(area: &mut [u8], i: usize, k: usize, v: u32)
    requires { (i < max_stations) × (k < record_words) × (area_size ≤ length area.old) }
    ensures { area.new ≡ with_word area.old i k v }
{
    octets_words::put32(area, RECORDS_AT + 64 * i + 4 * k, v);
}

// The parts of the state of station i. A word is read next to where it is used: so it is read at once, and not octet by
// octet.
#[tactic(auto, unfolding(crate::specs::Area::station_at, area_record::specs::Codec::decoded))]
fn read_deference(area: &[u8], i: usize) -> Deference
    requires { (i < max_stations) × (area_size ≤ length area.now) }
    ensures { result ≡ (station_at area.now i).deference }
{
    let own = read_word(area, i, area_record::words::STRETCH) == 1;
    area_record::deference_of(
        read_word(area, i, area_record::words::DEFERENCE),
        own,
        read_word(area, i, area_record::words::GAP),
    )
}

#[tactic(auto, unfolding(crate::specs::Area::station_at, area_record::specs::Codec::decoded))]
fn read_receiver(area: &[u8], i: usize) -> Receiver
    requires { (i < max_stations) × (area_size ≤ length area.now) }
    ensures { result ≡ (station_at area.now i).receiver }
{
    let spoiled = read_word(area, i, area_record::words::SPOILED) == 1;
    let own = read_word(area, i, area_record::words::RECEPTION) == 1;
    area_record::receiver_of(
        read_word(area, i, area_record::words::RECEIVER),
        read_word(area, i, area_record::words::RECEIVER_NUMBER),
        spoiled,
        own,
    )
}

#[tactic(auto, unfolding(crate::specs::Area::station_at, area_record::specs::Codec::decoded))]
fn read_transmitter(area: &[u8], i: usize) -> Transmitter
    requires { (i < max_stations) × (area_size ≤ length area.now) }
    ensures { result ≡ (station_at area.now i).transmitter }
{
    area_record::transmitter_of(
        read_word(area, i, area_record::words::PHASE),
        read_word(area, i, area_record::words::PHASE_NUMBER),
    )
}

#[tactic(auto, unfolding(crate::specs::Area::station_at, area_record::specs::Codec::decoded))]
pub fn read_station(area: &[u8], i: usize) -> Station
    requires { (i < max_stations) × (area_size ≤ length area.now) }
    ensures { result ≡ station_at area.now i }
{
    let deference = read_deference(area, i);
    let receiver = read_receiver(area, i);
    let transmitter = read_transmitter(area, i);
    let address = read_address(area, i);
    Station {
        address,
        deference,
        transmitter,
        receiver,
        frame: read_word(area, i, area_record::words::FRAME),
        attempts: read_word(area, i, area_record::words::ATTEMPTS),
        draw: read_word(area, i, area_record::words::DRAW),
        deferred: read_word(area, i, area_record::words::DEFERRED) == 1,
        emitted: read_word(area, i, area_record::words::EMITTED) == 1,
    }
}

#[tactic(auto, unfolding(crate::specs::Area::with_station, area_record::specs::Codec::encoded))]
pub fn write_station(area: &mut [u8], i: usize, s: Station)
    requires { (i < max_stations) × (area_size ≤ length area.old) }
    ensures { area.new ≡ with_station area.old i s }
{
    let w = area_record::encode(s);
    octets_words::store_words(area, RECORDS_AT + 64 * i, &w);
}
