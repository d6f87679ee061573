// Writing a sheet: the shortest that reads as a layout (document 02, N4).

#![tactic(auto)]

ghost use Rattle.std.specs.Prelude.{◌≡◌, ◌+◌, ◌*◌, ◌-◌, ◌<◌, ◌≤◌, ◌++◌, length};
ghost use Rattle.std.proofs.lemmas.List.Edits.{sets};
ghost use Rattle.octets.specs.Base.{pick, size_answer, outcome};
ghost use Rattle.octets.specs.Number.{spelled};
ghost use Rattle.sheet_read.specs.Sheet.{field_count};
ghost use Rattle.sheet_layout.specs.Limits.{max_stations};
ghost use Rattle.sheet_write.specs.Write.{values_of, is_absent, map_from, field_octets, fields_octets, head_octets};
ghost use Rattle.sheet_write.specs.Write.{taps_octets, written, sheet_written};

use octets::Refusal;
use sheet_layout::{Figures, Layout};
use sheet_read::{FIELDS, field_of};

// The figures in the order of the map's bits.
fn values(f: Figures) -> [u32; FIELDS]
    ensures { result ≡ values_of f }
{
    [f.slot, f.gap1, f.gap2, f.jam, f.limit, f.backoff, f.ends]
}

// The bit in the map of a field that holds v: 0 where that is its default.
fn bit(v: u32, k: usize) -> u32
    requires { k < field_count }
    ensures value { result ≡ pick (is_absent v k) 0 1 }
    ensures most { result ≤ 1 }
{
    u32::from(v != field_of(k).absent)
}

// The map.
fn map_octet(f: Figures) -> u32
    ensures value { result ≡ map_from (values_of f) 0 field_count }
    ensures most { result < 128 }
{
    let all = values(f);
    let mut map = 0;
    for k in (0..FIELDS).rev() {
        map = bit(all[k], k) + 2 * map;
    }
    map
}

// The octets of the field of bit k that holds v.
#[tactic(auto, using(crate::specs::WriteLaws::field_length))]
fn field_size(v: u32, k: usize) -> usize
    requires { k < field_count }
    ensures value { result ≡ length (field_octets v k) }
    ensures most { result ≤ 2 }
{
    let field = field_of(k);
    if v == field.absent { 0 } else { field.width }
}

// The octets of all fields.
#[tactic(auto, using(crate::specs::WriteLaws::fields_size), unfolding(crate::specs::Write::joined))]
fn fields_size(f: Figures) -> usize
    ensures value { result ≡ length (fields_octets (values_of f) field_count) }
    ensures most { result ≤ 14 }
{
    let all = values(f);
    let mut size = 0;
    for k in 0..FIELDS {
        size += field_size(all[k], k);
    }
    size
}

// Writes the field of bit k that holds v at `at`. Answers where it ends.
#[tactic(auto, using(crate::specs::WriteLaws::low_octets, octets::specs::NumberLaws::length_spelled), unfolding(crate::specs::Write::field_octets))]
fn put_field(out: &mut [u8], at: usize, v: u32, k: usize) -> usize
    requires { (k < field_count) × (at + 2 ≤ length out.old) }
    ensures end { result ≡ at + length (field_octets v k) }
    ensures octets { out.new ≡ sets out.old at (field_octets v k) }
    ensures most { result ≤ at + 2 }
{
    let field = field_of(k);
    if v == field.absent {
        return at;
    }
    octets_copies::store(out, at, &v.to_be_bytes()[4 - field.width..]);
    at + field.width
}

// Writes all fields from octet 1 on. Answers where they end.
#[tactic(auto, using(crate::specs::WriteLaws::fields_on, crate::specs::WriteLaws::fields_more), unfolding(crate::specs::Write::joined))]
fn put_fields(out: &mut [u8], f: Figures) -> usize
    requires { 15 ≤ length out.old }
    ensures end { result ≡ 1 + length (fields_octets (values_of f) field_count) }
    ensures octets { out.new ≡ sets out.old 1 (fields_octets (values_of f) field_count) }
    ensures most { result ≤ 15 }
{
    let all = values(f);
    let mut at = 1;
    for k in 0..FIELDS {
        at = put_field(out, at, all[k], k);
    }
    at
}

// Writes the map and the fields. Answers where they end.
#[tactic(auto, using(crate::specs::WriteLaws::head_length, crate::specs::WriteLaws::set_past), unfolding(octets::specs::Number::spelled, crate::specs::Write::head_octets))]
fn put_head(out: &mut [u8], f: Figures) -> usize
    requires { 15 ≤ length out.old }
    ensures end { result ≡ length (head_octets f) }
    ensures octets { out.new ≡ sets out.old 0 (head_octets f) }
{
    let map = map_octet(f);
    let end = put_fields(out, f);
    out[0] = map as u8;
    end
}

// Writes a station at `at`.
#[tactic(auto, using(crate::specs::WriteLaws::set_past), unfolding(octets::specs::Number::spelled))]
fn put_tap(out: &mut [u8], at: usize, position: u32, address: [u8; 6])
    requires { at + 7 ≤ length out.old }
    ensures octets { out.new ≡ sets out.old at (spelled 1 position ++ address) }
    ensures six { length address ≡ 6 }
{
    octets_copies::store(out, at + 1, &address);
    out[at] = (position % 256) as u8;
}

// Writes the first n stations from `at` on.
#[tactic(auto, using(crate::specs::WriteLaws::taps_length, crate::specs::WriteLaws::taps_more), unfolding(crate::specs::Write::joined))]
fn put_taps(out: &mut [u8], at: usize, y: Layout, n: usize)
    requires { (n ≤ max_stations) × (at + 7 * n ≤ length out.old) }
    ensures { out.new ≡ sets out.old at (taps_octets y n) }
{
    for i in 0..n {
        let t = y.stations[i];
        put_tap(out, at + 7 * i, t.position, t.address);
    }
}

// Writes N at `at`, and the stations behind it.
#[tactic(auto, using(crate::specs::WriteLaws::set_past), unfolding(octets::specs::Number::spelled))]
fn put_stations(out: &mut [u8], at: usize, y: Layout)
    requires { (y.count ≤ max_stations) × (at + 1 + 7 * y.count ≤ length out.old) }
    ensures { out.new
        ≡ sets out.old at (spelled 1 y.count ++ taps_octets y y.count) }
{
    put_taps(out, at + 1, y, y.count as usize);
    out[at] = (y.count % 256) as u8;
}

// The octets of a station: its position, and its address. A proof knows the length of an array within a struct only
// where the array is an argument: so the loop below adds up what is 7 for each station, and `put_tap` takes the fields.
fn tap_size(address: [u8; 6]) -> usize
    ensures seven { result ≡ 7 }
    ensures six { length address ≡ 6 }
{
    7
}

// The octets of the first n stations.
#[tactic(auto, using(crate::specs::WriteLaws::taps_size), unfolding(crate::specs::Write::joined))]
fn taps_size(y: Layout, n: usize) -> usize
    requires { n ≤ max_stations }
    ensures value { result ≡ length (taps_octets y n) }
    ensures seven { result ≡ 7 * n }
{
    let mut size = 0;
    for i in 0..n {
        size += tap_size(y.stations[i].address);
    }
    size
}

// The octets of the sheet.
#[tactic(auto, using(crate::specs::WriteLaws::written_length, crate::specs::WriteLaws::head_length))]
fn sheet_size(y: Layout) -> usize
    requires { y.count ≤ max_stations }
    ensures value { result ≡ length (written y) }
    ensures parts { result ≡ length (head_octets y.figures) + 1 + 7 * y.count }
    ensures most { result ≤ 128 }
{
    let stations = taps_size(y, y.count as usize);
    2 + fields_size(y.figures) + stations
}

// Writes the sheet, where there is room for it.
#[tactic(auto, using(octets::specs::Store::sets_append), unfolding(crate::specs::Write::written))]
fn put_sheet(out: &mut [u8], y: Layout)
    requires le_count { (2 ≤ y.count) × (y.count ≤ max_stations) }
    requires count_in_bounds { length (head_octets y.figures) + 1 + 7 * y.count ≤ length out.old }
    ensures { out.new ≡ sets out.old 0 (written y) }
{
    let end = put_head(out, y.figures);
    put_stations(out, end, y);
}

// The shortest sheet that reads as the layout, at the front of `out`: the octets written, or a refusal (5 to 8, 15).
#[tactic(auto, using(crate::specs::WriteLaws::counted), unfolding(crate::specs::Write::sheet_written))]
pub fn write_sheet(y: Layout, out: &mut [u8]) -> Result<u32, Refusal>
    ensures { outcome (size_answer result) out.new ≡ sheet_written y out.old }
{
    sheet_check::check(y)?;
    let size = sheet_size(y);
    if out.len() < size {
        return Err(Refusal::OutputShort);
    }
    put_sheet(out, y);
    Ok(size as u32)
}
