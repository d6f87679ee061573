// Turns that change little: whether a station hears, is in a gap or in backoff, by a few words of its record. The turns
// are taken by `heard` and `easy`.

#![tactic(auto)]

pub mod easy;
pub mod heard;

ghost use Rattle.std.specs.Prelude.{◌≡◌, true, ◌<◌, ◌≤◌, min, length, get_or};
ghost use Rattle.octets.specs.NumberLaws.{Octets};
ghost use Rattle.area.specs.Area.{record_at};
ghost use Rattle.bus_quick.specs.Quick.{Plain, hears_in, gaps_in, backs_in, calm_in};
ghost use Rattle.area.specs.Offsets.{area_size};
ghost use Rattle.sheet_layout.specs.Limits.{max_stations};
ghost use Rattle.area_record.specs.Words.{phase_word};

// Whether station i is busy and in a reception, with nothing of its own on the pair. Here and in the tests after it
// two words are tested by one sum, so that each is read as one word; and it is said that the area holds octets.
pub fn hears(area: &[u8], i: usize) -> bool
    requires { (i < max_stations) × (area_size ≤ length area.now) × Plain area.now i }
    ensures value { result ≡ hears_in (record_at area.now i) }
    ensures octets { Octets area.now }
{
    let r = area::read_word(area, i, area_record::words::RECEIVER);
    let d = area::read_word(area, i, area_record::words::DEFERENCE);
    let e = area::read_word(area, i, area_record::words::EMITTED);
    octets::both(1 < r, d as u64 + 2 * e as u64 == 1)
}

// Whether station i is in a gap, and receives nothing.
pub fn gaps(area: &[u8], i: usize) -> bool
    requires { (i < max_stations) × (area_size ≤ length area.now) × Plain area.now i }
    ensures value { result ≡ gaps_in (record_at area.now i) }
    ensures octets { Octets area.now }
{
    let d = area::read_word(area, i, area_record::words::DEFERENCE);
    let e = area::read_word(area, i, area_record::words::EMITTED);
    let r = area::read_word(area, i, area_record::words::RECEIVER);
    octets::both(d == 2, 2 * e as u64 + r as u64 <= 1)
}

// Whether station i is quiet and in backoff, and receives nothing.
pub fn backs(area: &[u8], i: usize) -> bool
    requires { (i < max_stations) × (area_size ≤ length area.now) × Plain area.now i }
    ensures value { result ≡ backs_in (record_at area.now i) }
    ensures octets { Octets area.now }
{
    let d = area::read_word(area, i, area_record::words::DEFERENCE);
    let x = area::read_word(area, i, area_record::words::PHASE);
    let e = area::read_word(area, i, area_record::words::EMITTED);
    let r = area::read_word(area, i, area_record::words::RECEIVER);
    octets::both(x == 2, 2 * d as u64 + 2 * e as u64 + r as u64 <= 1)
}

// Whether the transmitter of station i, with this code, goes on as it is, but for a step of backoff.
pub fn calm(area: &[u8], i: usize, c: u32) -> bool
    requires { (i < max_stations) × (area_size ≤ length area.now) × (c ≡ get_or (record_at area.now i) phase_word 0) }
    ensures { result ≡ calm_in (record_at area.now i) }
{
    if c == 0 {
        return true;
    }
    if c == 1 {
        let h = area::read_word(area, i, area_record::words::DEFERRED);
        let n = area::read_word(area, i, area_record::words::ATTEMPTS);
        return octets::either(h == 1, n != 0);
    }
    if c == 2 {
        return 1 < area::read_word(area, i, area_record::words::PHASE_NUMBER);
    }
    false
}

// The smaller of the two.
pub fn capped(k: usize, most: usize) -> usize
    ensures { result ≡ min k most }
{
    k.min(most)
}
