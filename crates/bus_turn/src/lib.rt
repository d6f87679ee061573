// The turn of one station, in place: it acts on what it hears, its symbol goes to every other, its record and counters
// are written.

#![tactic(auto)]

pub mod step;

ghost use Rattle.std.specs.Prelude.{◌≡◌, ◌+◌, ◌*◌, ◌<◌, ◌≤◌, length};
ghost use Rattle.area.specs.Area.{station_at, with_station};
ghost use Rattle.bus_spec.specs.BitTime.{happened, with_stored, with_counted, placed, settled, act_in, turn_in, events_of};
ghost use Rattle.bus_spec.specs.InPlace.{Kept};
ghost use Rattle.bus_spec.specs.Ready.{Able};
ghost use Rattle.area.specs.Offsets.{area_size};
ghost use Rattle.sheet_layout.specs.Limits.{max_stations};

use bus_spec::{Act, Events};
use sheet_layout::Figures;
use station_spec::{Stepped, Stored};
use station_state::{Deference, Receiver, Station, Transmitter};
use station_symbols::Heard;

// A collected bit is kept, if there is one.
#[tactic(auto, using(bus_spec::specs::CodeLaws::bit_room), unfolding(bus_spec::specs::BitTime::with_stored))]
pub fn keep_bit(area: &mut [u8], i: usize, stored: Option<Stored>)
    requires { (i < max_stations) × (area_size ≤ length area.old) × Kept stored }
    ensures { area.new ≡ with_stored i stored area.old }
{
    if let Some(s) = stored {
        area_buffers::store_bit(area, i, s.bit as usize, s.one);
    }
}

// Whether a step has anything to count.
#[tactic(auto, unfolding(bus_spec::specs::BitTime::happened))]
fn has_happened(o: Stepped) -> bool
    ensures { result ≡ happened o }
{
    o.start | (o.sent.is_some() | o.got.is_some())
}

#[tactic(auto, unfolding(bus_spec::specs::BitTime::with_counted))]
pub fn count_step(area: &mut [u8], i: usize, o: Stepped)
    requires { (i < max_stations) × (area_size ≤ length area.old) }
    ensures { area.new ≡ with_counted i o area.old }
{
    if has_happened(o) {
        let c = area::read_counters(area, i);
        area::write_counters(area, i, station_count::count(c, o));
    }
}

#[tactic(auto, unfolding(area::specs::Area::station_at, area_record::specs::Codec::decoded))]
fn load_deference(area: &[u8], i: usize) -> Deference
    requires { (i < max_stations) × (area_size ≤ length area.now) }
    ensures { result ≡ (station_at area.now i).deference }
{
    let code = area::read_word(area, i, area_record::words::DEFERENCE);
    let own = area::read_word(area, i, area_record::words::STRETCH);
    let count = area::read_word(area, i, area_record::words::GAP);
    area_record::deference_of(code, own == 1, count)
}

#[tactic(auto, unfolding(area::specs::Area::station_at, area_record::specs::Codec::decoded))]
fn load_transmitter(area: &[u8], i: usize) -> Transmitter
    requires { (i < max_stations) × (area_size ≤ length area.now) }
    ensures { result ≡ (station_at area.now i).transmitter }
{
    let code = area::read_word(area, i, area_record::words::PHASE);
    let number = area::read_word(area, i, area_record::words::PHASE_NUMBER);
    area_record::transmitter_of(code, number)
}

#[tactic(auto, unfolding(area::specs::Area::station_at, area_record::specs::Codec::decoded))]
fn load_receiver(area: &[u8], i: usize) -> Receiver
    requires { (i < max_stations) × (area_size ≤ length area.now) }
    ensures { result ≡ (station_at area.now i).receiver }
{
    let code = area::read_word(area, i, area_record::words::RECEIVER);
    let number = area::read_word(area, i, area_record::words::RECEIVER_NUMBER);
    let spoiled = area::read_word(area, i, area_record::words::SPOILED);
    let own = area::read_word(area, i, area_record::words::RECEPTION);
    area_record::receiver_of(code, number, spoiled == 1, own == 1)
}

// Station i. It is `area::read_station`, here once more: called from one place it is put in there, and no word goes
// through memory.
#[tactic(auto, unfolding(area::specs::Area::station_at, area_record::specs::Codec::decoded))]
fn load(area: &[u8], i: usize) -> Station
    requires { (i < max_stations) × (area_size ≤ length area.now) }
    ensures { result ≡ station_at area.now i }
{
    let deference = load_deference(area, i);
    let transmitter = load_transmitter(area, i);
    let receiver = load_receiver(area, i);
    let address = area::read_address(area, i);
    Station {
        address,
        deference,
        transmitter,
        receiver,
        frame: area::read_word(area, i, area_record::words::FRAME),
        attempts: area::read_word(area, i, area_record::words::ATTEMPTS),
        draw: area::read_word(area, i, area_record::words::DRAW),
        deferred: area::read_word(area, i, area_record::words::DEFERRED) == 1,
        emitted: area::read_word(area, i, area_record::words::EMITTED) == 1,
    }
}

// Writes station i, as `area::write_station` does.
#[tactic(auto, unfolding(area::specs::Area::with_station, area_record::specs::Codec::encoded))]
fn store(area: &mut [u8], i: usize, s: Station)
    requires { (i < max_stations) × (area_size ≤ length area.old) }
    ensures { area.new ≡ with_station area.old i s }
{
    let w = area_record::encode(s);
    octets_words::store_words(area, area::RECORDS_AT + 64 * i, &w);
}

// Station i is what its step t made of it: its record, its counters, the bit it collected; what reached it is taken
// from its line.
#[tactic(auto, unfolding(bus_spec::specs::BitTime::placed))]
fn place(area: &mut [u8], t: usize, i: usize, o: Stepped)
    requires { (i < max_stations) × (area_size ≤ length area.old) × Kept o.stored }
    ensures { area.new ≡ placed t i o area.old }
{
    store(area, i, o.station);
    count_step(area, i, o);
    keep_bit(area, i, o.stored);
    area_line::put_arrival(area, i, t, Heard::Nothing);
}

#[tactic(auto, unfolding(bus_spec::specs::BitTime::settled))]
fn settle(area: &mut [u8], n: usize, t: usize, i: usize, a: Act)
    requires { (i < max_stations) × (n ≤ max_stations) × (t < 4294967296) × (area_size ≤ length area.old)
        × Kept a.outcome.stored }
    ensures { area.new ≡ settled n t i a area.old }
{
    place(area, t, i, a.outcome);
    bus_spec::medium::push(area, n, t, i, a.symbol);
}

// What station i does in step t, from the area as it stands.
#[tactic(auto, using(bus_spec::specs::Ready::able_draw, bus_spec::specs::Ready::able_held, bus_spec::specs::Ready::able_room), unfolding(bus_spec::specs::BitTime::act_in, bus_spec::specs::BitTime::outcome_in))]
fn acts(area: &[u8], depth: u32, t: usize, f: Figures, i: usize) -> Act
    requires { (i < max_stations) × (area_size ≤ length area.now) × Able f area.now i }
    ensures { result ≡ act_in f depth t area.now i }
{
    let s = load(area, i);
    let h = area_line::arrival(area, i, t);
    let draw = area::read_draw(area, i, s.draw as usize);
    let size = station_transmit::octets_held(s.transmitter, s.frame) as usize;
    let outcome = station_step::step(f, s, depth, draw, area_buffers::buffer(area, i), h);
    let symbol = area_buffers::symbol(area, i, size, outcome.emission);
    Act { outcome, symbol }
}

// Any turn of station i in step t.
#[tactic(auto, using(bus_spec::specs::Ready::acts_kept), unfolding(bus_spec::specs::BitTime::turn_in))]
fn general(area: &mut [u8], n: usize, depth: u32, t: usize, f: Figures, i: usize) -> Events
    requires { (i < max_stations) × (n ≤ max_stations) × (t < 4294967296) × (area_size ≤ length area.old)
        × Able f area.old i }
    ensures area { area.new ≡ turn_in f depth n t i area.old }
    ensures events { result ≡ events_of (act_in f depth t area.old i) }
{
    let a = acts(area, depth, t, f, i);
    settle(area, n, t, i, a);
    Events {
        sent: a.outcome.sent,
        got: a.outcome.got,
    }
}

// Station i's turn in step t, where its gap or its backoff goes on, or any other. The general turn is called from two
// places, and so is this one: each is then a function of its own. Put together, the octets that one reads would take
// apart the words that another reads.
fn work(area: &mut [u8], n: usize, depth: u32, t: usize, f: Figures, i: usize) -> Events
    requires { (i < max_stations) × (n ≤ max_stations) × (t < 4294967296) × (area_size ≤ length area.old)
        × Able f area.old i }
    ensures area { area.new ≡ turn_in f depth n t i area.old }
    ensures events { result ≡ events_of (act_in f depth t area.old i) }
{
    if area_line::read_symbol(area, i, t) == 0 {
        if bus_quick::easy::waits(area, n, depth, t, f, i) {
            return bus_spec::NO_EVENTS;
        }
        return general(area, n, depth, t, f, i);
    }
    general(area, n, depth, t, f, i)
}

// Station i's turn in step t: it acts from the area as the stations before it have left it. One that rests, and that
// nothing reaches, leaves all as it is; of one whose reception goes on few words change.
pub fn turn(area: &mut [u8], n: usize, depth: u32, t: usize, f: Figures, i: usize) -> Events
    requires { (i < max_stations) × (n ≤ max_stations) × (t < 4294967296) × (area_size ≤ length area.old)
        × Able f area.old i }
    ensures area { area.new ≡ turn_in f depth n t i area.old }
    ensures events { result ≡ events_of (act_in f depth t area.old i) }
{
    if area_line::read_symbol(area, i, t) == 0 {
        if bus_quick::easy::rests(area, i) {
            return bus_spec::NO_EVENTS;
        }
        return work(area, n, depth, t, f, i);
    }
    if bus_quick::easy::hearing(area, n, depth, t, f, i) {
        return bus_spec::NO_EVENTS;
    }
    work(area, n, depth, t, f, i)
}
