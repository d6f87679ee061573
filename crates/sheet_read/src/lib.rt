// Reading a sheet (document 01, "The sheet").

#![tactic(auto)]

ghost use Rattle.std.specs.Prelude.{◌≡◌, ◌+◌, ◌*◌, ◌<◌, ◌≤◌, suc, length};
ghost use Rattle.octets.specs.Base.{pick};
ghost use Rattle.sheet_layout.specs.Layout.{places_of};
ghost use Rattle.sheet_read.specs.Sheet.{map_of, stands, field_count, row, width, field_at, field, figures_in};
ghost use Rattle.sheet_read.specs.Sheet.{tap_in, taps_from, layout_in, count_in, count_place, sheet_size};
ghost use Rattle.sheet_read.specs.Sheet.{read_sheet, sheet_reading};
ghost use Rattle.sheet_layout.specs.Limits.{max_stations};

use octets::Refusal;
use sheet_layout::{Figures, Layout, Tap};

// A sheet as read: the octets used, and the layout.
#[derive(Clone, Copy)]
pub struct Sheet {
    pub used: usize,
    pub layout: Layout,
}

// What is known of a field: the octets that it takes, and what it is if absent.
#[derive(Clone, Copy)]
pub struct Field {
    pub width: usize,
    pub absent: u32,
}

// How many fields a sheet may have.
pub const FIELDS: usize = 7;

// The fields in the order of the map's bits: slot, gap1, gap2, jam, attempt limit, backoff limit, late-end.
const TABLE: [Field; FIELDS] = [
    Field {
        width: 2,
        absent: 512,
    },
    Field {
        width: 1,
        absent: 64,
    },
    Field {
        width: 1,
        absent: 32,
    },
    Field {
        width: 1,
        absent: 32,
    },
    Field {
        width: 1,
        absent: 16,
    },
    Field {
        width: 1,
        absent: 10,
    },
    Field {
        width: 1,
        absent: 0,
    },
];

// The field of bit k.
pub fn field_of(k: usize) -> Field
    requires { k < field_count }
    ensures width { result.width ≡ width k }
    ensures range { (1 ≤ result.width) × (result.width ≤ 2) }
    ensures absent { result.absent ≡ (row k).absent }
{
    TABLE[k]
}

// Whether bit k of the map stands.
fn stands(s: &[u8], k: usize) -> bool
    requires { (0 < length s.now) × (k ≤ field_count) }
    ensures { result ≡ stands (map_of s.now) k }
{
    (s[0] >> k) % 2 == 1
}

// The octets that the field of bit k takes.
fn taken(s: &[u8], k: usize) -> usize
    requires { (0 < length s.now) × (k < field_count) }
    ensures value { result ≡ pick (stands (map_of s.now) k) (width k) 0 }
    ensures most { result ≤ 2 }
{
    if stands(s, k) { field_of(k).width } else { 0 }
}

// Where the field of bit k begins, or would; after the last one the octet N.
#[tactic(auto, using(crate::specs::SheetLaws::place_more), unfolding(crate::specs::Sheet::field_at))]
fn field_at(s: &[u8], k: usize) -> usize
    requires { (0 < length s.now) × (k ≤ field_count) }
    ensures place { result ≡ field_at (map_of s.now) k }
    ensures most { result ≤ 1 + 2 * k }
{
    let mut at = 1;
    for j in 0..k {
        at += taken(s, j);
    }
    at
}

// The field of bit k, or what stands for it where it has none.
#[tactic(auto, using(crate::specs::SheetLaws::place_low, crate::specs::SheetLaws::field_within), unfolding(crate::specs::Sheet::field, octets::specs::Number::get))]
fn read_field(s: &[u8], k: usize) -> u32
    requires { (k < field_count) × (count_place s.now ≤ length s.now) }
    ensures { result ≡ field s.now k }
{
    if !stands(s, k) {
        return field_of(k).absent;
    }
    let at = field_at(s, k);
    if field_of(k).width == 1 {
        return octets::wide(s[at]);
    }
    octets_words::get16(s, at)
}

#[tactic(auto, unfolding(crate::specs::Sheet::figures_in))]
fn read_figures(s: &[u8]) -> Figures
    requires { count_place s.now ≤ length s.now }
    ensures { result ≡ figures_in s.now }
{
    Figures {
        slot: read_field(s, 0),
        gap1: read_field(s, 1),
        gap2: read_field(s, 2),
        jam: read_field(s, 3),
        limit: read_field(s, 4),
        backoff: read_field(s, 5),
        ends: read_field(s, 6),
    }
}

// The station whose seven octets begin at `at`.
#[tactic(auto, unfolding(crate::specs::Sheet::tap_in))]
fn read_tap(s: &[u8], at: usize) -> Tap
    requires { at + 7 ≤ length s.now }
    ensures { result ≡ tap_in s.now at }
{
    let address = octets_copies::six(s, at + 1);
    let position = octets::wide(s[at]);
    Tap { position, address }
}

// The layout as it is written, of a sheet that is all there; of more than sixteen stations the first sixteen.
#[tactic(auto, unfolding(crate::specs::Sheet::layout_in, crate::specs::Sheet::sheet_size))]
fn read_layout(s: &[u8]) -> Layout
    requires { sheet_size s.now ≤ length s.now }
    ensures { result ≡ layout_in s.now }
{
    let figures = read_figures(s);
    let end = field_at(s, FIELDS);
    let count = octets::wide(s[end]);
    let tap = |i: usize| -> Tap
        requires { end + 8 + 7 * i ≤ length s.now }
        ensures { result ≡ taps_from s.entry.now (end + 1) i }
    { read_tap(s, end + 1 + 7 * i) };
    let stations = sheet_layout::taps(sheet_layout::places(count), tap);
    Layout {
        figures,
        count,
        stations,
    }
}

// The sheet at the front of s, or a refusal (3 to 8). More may follow it.
#[tactic(auto, unfolding(crate::specs::Sheet::read_sheet, crate::specs::Sheet::sheet_size, crate::specs::Sheet::layout_in))]
pub fn read_sheet(s: &[u8]) -> Result<Sheet, Refusal>
    ensures { sheet_reading result ≡ read_sheet s.now }
{
    if s.is_empty() {
        return Err(Refusal::SheetShort);
    }
    let end = field_at(s, FIELDS);
    if s.len() <= end {
        return Err(Refusal::SheetShort);
    }
    let used = end + 1 + 7 * (s[end] as usize);
    if s.len() < used {
        return Err(Refusal::SheetShort);
    }
    if stands(s, FIELDS) {
        return Err(Refusal::MapBits);
    }
    let layout = read_layout(s);
    sheet_check::check(layout)?;
    Ok(Sheet { used, layout })
}
