// Turns in which little changes, taken at once: a station rests, or its gap, its backoff or its reception goes on. A
// record that no step leaves so is passed over.

ghost use Rattle.std.specs.Prelude.{◌≡◌, true, ◌+◌, ◌<◌, ◌≤◌, length};
ghost use Rattle.area.specs.Area.{record_at, symbol_at};
ghost use Rattle.bus_spec.specs.Ready.{Able};
ghost use Rattle.bus_quick.specs.Quick.{Plain, Taken, gaps_in, backs_in};
ghost use Rattle.bus_quick.specs.Easy.{deference_in, transmitter_in, receiver_in, plain_in, bare_sum, bare_in};
ghost use Rattle.octets.specs.NumberLaws.{Octets};
ghost use Rattle.area.specs.Offsets.{area_size};
ghost use Rattle.sheet_layout.specs.Limits.{max_stations};

use sheet_layout::Figures;

// Whether the words of deference are those of a state. Here and below a number that a state does not use is compared
// with a bound that is 0 for it. A word that is compared with 0 itself would be read octet by octet.
fn deference_in(code: u32, own: u32, count: u32) -> bool
    ensures { result ≡ deference_in code own count }
{
    let fits = octets::both(own <= code, count as u64 <= (code / 2) as u64 * 4294967295);
    octets::both(code <= 2, octets::both(own <= 1, fits))
}

fn transmitter_in(code: u32, number: u32) -> bool
    ensures { result ≡ transmitter_in code number }
{
    octets::both(code <= 5, number as u64 <= (code / 2) as u64 * 4294967295)
}

fn receiver_in(code: u32, number: u32, spoiled: u32, own: u32) -> bool
    ensures { result ≡ receiver_in code number spoiled own }
{
    let flags = octets::both(spoiled <= code / 2, own <= code / 2);
    let fits = octets::both(number as u64 <= code as u64 * 4294967295, flags);
    octets::both(code <= 3, fits)
}

// Whether the record of station i is the one that its state is written as.
fn is_plain(area: &[u8], i: usize) -> bool
    requires { (i < max_stations) × (area_size ≤ length area.now) }
    ensures { result ≡ plain_in (record_at area.now i) }
{
    let d = deference_in(
        area::read_word(area, i, area_record::words::DEFERENCE),
        area::read_word(area, i, area_record::words::STRETCH),
        area::read_word(area, i, area_record::words::GAP),
    );
    let x = transmitter_in(
        area::read_word(area, i, area_record::words::PHASE),
        area::read_word(area, i, area_record::words::PHASE_NUMBER),
    );
    let r = receiver_in(
        area::read_word(area, i, area_record::words::RECEIVER),
        area::read_word(area, i, area_record::words::RECEIVER_NUMBER),
        area::read_word(area, i, area_record::words::SPOILED),
        area::read_word(area, i, area_record::words::RECEPTION),
    );
    let flags = octets::both(
        area::read_word(area, i, area_record::words::DEFERRED) <= 1,
        area::read_word(area, i, area_record::words::EMITTED) <= 1,
    );
    octets::both(d, octets::both(x, octets::both(r, flags)))
}

// The sum of the words that are 0 where station i is quiet, with no frame, in no reception, and emitted nothing.
fn bare_sum(area: &[u8], i: usize) -> u64
    requires { (i < max_stations) × (area_size ≤ length area.now) }
    ensures value { result ≡ bare_sum (record_at area.now i) }
    ensures small { result < 34359738368 }
{
    let r = area::read_word(area, i, area_record::words::EMITTED) as u64
        + area::read_word(area, i, area_record::words::RECEPTION) as u64
        + area::read_word(area, i, area_record::words::SPOILED) as u64;
    let x = area::read_word(area, i, area_record::words::PHASE_NUMBER) as u64
        + area::read_word(area, i, area_record::words::PHASE) as u64;
    let d = area::read_word(area, i, area_record::words::GAP) as u64
        + area::read_word(area, i, area_record::words::STRETCH) as u64
        + area::read_word(area, i, area_record::words::DEFERENCE) as u64;
    r + x + d
}

// Whether station i rests, and its record is the one that its state is written as: a receiver that listens has the
// number 0. That the area holds octets is said here.
pub fn rests(area: &[u8], i: usize) -> bool
    requires { (i < max_stations) × (area_size ≤ length area.now) }
    ensures value { result ≡ bare_in (record_at area.now i) }
    ensures octets { Octets area.now }
{
    let sum = bare_sum(area, i);
    let deferred = area::read_word(area, i, area_record::words::DEFERRED);
    let code = area::read_word(area, i, area_record::words::RECEIVER);
    let number = area::read_word(area, i, area_record::words::RECEIVER_NUMBER);
    let still = octets::both(code <= 1, number as u64 <= code as u64 * 4294967295);
    octets::both(2 * sum + deferred as u64 <= 1, still)
}

// The turn of station i, which is in a gap.
fn gap_on(area: &mut [u8], n: usize, depth: u32, t: usize, f: Figures, i: usize) -> bool
    requires { (i < max_stations) × (area_size ≤ length area.old) × (symbol_at area.old i t ≡ 0)
        × (f.gap1 + f.gap2 < 65536) × Octets area.old × Plain area.old i
        × (gaps_in (record_at area.old i) ≡ true) }
    ensures { Taken f depth n t i area.old area.new result }
{
    let count = area::read_word(area, i, area_record::words::GAP);
    if count < f.gap1 + f.gap2 {
        let c = area::read_word(area, i, area_record::words::PHASE);
        if crate::calm(area, i, c) {
            crate::heard::count_down(area, i, c);
            area::write_word(area, i, area_record::words::GAP, count + 1);
            return true;
        }
    }
    false
}

// The turn of station i, which is quiet and in backoff.
fn back_on(area: &mut [u8], n: usize, depth: u32, t: usize, f: Figures, i: usize) -> bool
    requires { (i < max_stations) × (area_size ≤ length area.old) × (symbol_at area.old i t ≡ 0) × Octets area.old
        × Plain area.old i × (backs_in (record_at area.old i) ≡ true) }
    ensures { Taken f depth n t i area.old area.new result }
{
    let left = area::read_word(area, i, area_record::words::PHASE_NUMBER);
    if 1 < left {
        area::write_word(area, i, area_record::words::PHASE_NUMBER, left - 1);
        return true;
    }
    false
}

// Takes the turn of station i, which nothing reaches, where its gap or its backoff goes on; says whether it did.
pub fn waits(area: &mut [u8], n: usize, depth: u32, t: usize, f: Figures, i: usize) -> bool
    requires { (i < max_stations) × (area_size ≤ length area.old) × (symbol_at area.old i t ≡ 0)
        × (f.gap1 + f.gap2 < 65536) }
    ensures { Taken f depth n t i area.old area.new result }
{
    if is_plain(area, i) {
        if crate::gaps(area, i) {
            return gap_on(area, n, depth, t, f, i);
        }
        if crate::backs(area, i) {
            return back_on(area, n, depth, t, f, i);
        }
    }
    false
}

// Takes the turn of station i where it hears a symbol, its reception goes on, and nothing happens; says whether it
// did.
pub fn hearing(area: &mut [u8], n: usize, depth: u32, t: usize, f: Figures, i: usize) -> bool
    requires { (i < max_stations) × (n ≤ max_stations) × (t < 4294967296) × (area_size ≤ length area.old)
        × Able f area.old i }
    ensures { Taken f depth n t i area.old area.new result }
{
    if is_plain(area, i) {
        return crate::heard::turn(area, n, depth, t, f, i);
    }
    false
}
