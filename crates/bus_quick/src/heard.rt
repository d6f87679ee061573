// The turn of a station whose reception goes on, in place. It is the general turn (`bus_turn::turn`), made by the few
// words that it changes.

ghost use Rattle.std.specs.Prelude.{◌≡◌, true, ◌+◌, ◌<◌, ◌≤◌, length, get_or};
ghost use Rattle.station_spec.specs.Receive.{next_row, stored_bit};
ghost use Rattle.area.specs.Area.{record_at, symbol_at};
ghost use Rattle.bus_spec.specs.BitTime.{with_stored};
ghost use Rattle.bus_spec.specs.Ready.{Able};
ghost use Rattle.bus_quick.specs.Quick.{Plain, Taken, counted_down, spoiled_on, collected_on, row_on, sought_on};
ghost use Rattle.bus_quick.specs.Quick.{received_on};
ghost use Rattle.area.specs.Offsets.{area_size};
ghost use Rattle.sheet_layout.specs.Limits.{max_stations};
ghost use Rattle.area_record.specs.Words.{phase_number_word, receiver_number_word};

use sheet_layout::Figures;
use station_symbols::Heard;

// A step of backoff, where c is its code.
pub fn count_down(area: &mut [u8], i: usize, c: u32)
    requires { (i < max_stations) × (area_size ≤ length area.old)
        × (c ≡ 2 → 1 ≤ get_or (record_at area.old i) phase_number_word 0) }
    ensures { area.new
        ≡ counted_down i c (get_or (record_at area.old i) 4 0) area.old }
{
    if c == 2 {
        let k = area::read_word(area, i, area_record::words::PHASE_NUMBER);
        area::write_word(area, i, area_record::words::PHASE_NUMBER, k - 1);
    }
}

// Collected bit k is kept where the buffer has a place for it. The cap changes nothing: by it k is read as one word,
// though its low octet is also used alone.
fn keep_one(area: &mut [u8], i: usize, k: u32, one: bool)
    requires { (i < max_stations) × (area_size ≤ length area.old) }
    ensures { area.new ≡ with_stored i (stored_bit k one) area.old }
{
    let m = crate::capped(k as usize, area.len());
    if m < frame_build::limits::BUFFER_BITS {
        area_buffers::store_bit(area, i, m, one);
    }
}

// A symbol with this code spoils the reception, unless it is a clean bit.
fn spoil(area: &mut [u8], i: usize, code: u8)
    requires { (i < max_stations) × (area_size ≤ length area.old) }
    ensures { area.new ≡ spoiled_on i code area.old }
{
    if code <= 2 {
        return;
    }
    area::write_word(area, i, area_record::words::SPOILED, 1);
}

// A symbol after the bits collected so far.
fn collect_on(area: &mut [u8], i: usize, code: u8)
    requires { (i < max_stations) × (area_size ≤ length area.old)
        × (get_or (record_at area.old i) 6 0 < 4294967295) }
    ensures { area.new
        ≡ collected_on i (get_or (record_at area.old i) 6 0) code area.old }
{
    let k = area::read_word(area, i, area_record::words::RECEIVER_NUMBER);
    area::write_word(area, i, area_record::words::RECEIVER_NUMBER, k + 1);
    spoil(area, i, code);
    keep_one(area, i, k, code == 2);
}

// A clean bit after the row of them.
fn seek_bit(area: &mut [u8], i: usize, one: bool)
    requires { (i < max_stations) × (area_size ≤ length area.old)
        × (get_or (record_at area.old i) receiver_number_word 0 < 65536) }
    ensures { area.new
        ≡ row_on i (next_row (get_or (record_at area.old i) 6 0) one) area.old }
{
    let next = station_receive::next_row(
        area::read_word(area, i, area_record::words::RECEIVER_NUMBER),
        one,
    );
    if next == 427 {
        area::write_word(area, i, area_record::words::RECEIVER, 3);
        area::write_word(area, i, area_record::words::RECEIVER_NUMBER, 0);
        return;
    }
    area::write_word(area, i, area_record::words::RECEIVER_NUMBER, next);
}

// A symbol before the delimiter.
fn seek_on(area: &mut [u8], i: usize, code: u8)
    requires { (i < max_stations) × (area_size ≤ length area.old)
        × (get_or (record_at area.old i) receiver_number_word 0 < 65536) }
    ensures { area.new
        ≡ sought_on i (get_or (record_at area.old i) 6 0) code area.old }
{
    if code <= 2 {
        seek_bit(area, i, code == 2);
        return;
    }
    area::write_word(area, i, area_record::words::RECEIVER_NUMBER, 1);
    area::write_word(area, i, area_record::words::SPOILED, 1);
}

// A symbol of a reception, where r is the receiver's code.
fn receive_on(area: &mut [u8], i: usize, r: u32, code: u8)
    requires { (i < max_stations) × (area_size ≤ length area.old)
        × (get_or (record_at area.old i) receiver_number_word 0 < 4294967295)
        × (r ≡ 2 → get_or (record_at area.old i) 6 0 < 65536) }
    ensures { area.new
        ≡ received_on i r (get_or (record_at area.old i) 6 0) code area.old }
{
    if r == 2 {
        seek_on(area, i, code);
        return;
    }
    collect_on(area, i, code);
}

// The turn of a station that hears a symbol with this code, where its reception goes on.
fn quick_heard(
    area: &mut [u8],
    n: usize,
    depth: u32,
    t: usize,
    f: Figures,
    i: usize,
    code: u8,
) -> bool
    requires i_lt_max_stations { (i < max_stations) × (n ≤ max_stations) × (t < 4294967296) × (area_size ≤ length area.old)
        × Able f area.old i × Plain area.old i }
    requires code_value { (code ≡ symbol_at area.old i t) × (code ≡ 0 → ⊥) }
    ensures { Taken f depth n t i area.old area.new result }
{
    if crate::hears(area, i) {
        let c = area::read_word(area, i, area_record::words::PHASE);
        if crate::calm(area, i, c) {
            let r = area::read_word(area, i, area_record::words::RECEIVER);
            area_line::put_arrival(area, i, t, Heard::Nothing);
            count_down(area, i, c);
            receive_on(area, i, r, code);
            return true;
        }
    }
    false
}

// Takes the turn of station i where it hears a symbol, its reception goes on, and nothing happens; says whether it did.
pub fn turn(area: &mut [u8], n: usize, depth: u32, t: usize, f: Figures, i: usize) -> bool
    requires { (i < max_stations) × (n ≤ max_stations) × (t < 4294967296) × (area_size ≤ length area.old)
        × Able f area.old i × Plain area.old i }
    ensures { Taken f depth n t i area.old area.new result }
{
    let code = area_line::read_symbol(area, i, t);
    if code == 0 {
        return false;
    }
    quick_heard(area, n, depth, t, f, i, code)
}
