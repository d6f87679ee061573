// The delay lines of the work area: what is on its way to each station.

#![tactic(auto)]

ghost use Rattle.std.specs.Prelude.{◌≡◌, ◌+◌, ◌*◌, ◌%◌, ◌<◌, ◌≤◌, eqb, length};
ghost use Rattle.area.specs.Area.{heard_of, heard_code, symbol_at, arrival_at, with_arrival, alone, with_symbol, max_code};
ghost use Rattle.octets.specs.Base.{pick};
ghost use Rattle.area.specs.Offsets.{area_size};
ghost use Rattle.sheet_layout.specs.Limits.{max_stations};

use station_symbols::{Heard, Symbol};

#[tactic(auto, unfolding(area::specs::Area::heard_of))]
fn heard_of(code: u8) -> Heard
    ensures { result ≡ heard_of code }
{
    match code {
        0 => Heard::Nothing,
        1 => Heard::Clean(false),
        2 => Heard::Clean(true),
        _ => Heard::Spoiled,
    }
}

// The code of what is heard.
pub fn heard_code(h: Heard) -> u8
    ensures { result ≡ heard_code h }
{
    match h {
        Heard::Nothing => 0,
        Heard::Clean(b) => 1 + u8::from(b),
        Heard::Spoiled => area::SPOILED,
    }
}

// The code of what reaches station i in step u.
#[tactic(auto, unfolding(area::specs::Area::symbol_at))]
pub fn read_symbol(area: &[u8], i: usize, u: usize) -> u8
    requires { (i < max_stations) × (area_size ≤ length area.now) }
    ensures { result ≡ symbol_at area.now i u }
{
    area[area::LINES_AT + area::RING * i + u % area::RING]
}

// What reaches station i in step u.
#[tactic(auto, unfolding(area::specs::Area::arrival_at))]
pub fn arrival(area: &[u8], i: usize, u: usize) -> Heard
    requires { (i < max_stations) × (area_size ≤ length area.now) }
    ensures { result ≡ arrival_at area.now i u }
{
    heard_of(read_symbol(area, i, u))
}

#[tactic(auto, unfolding(area::specs::Area::with_arrival))]
pub fn put_arrival(area: &mut [u8], i: usize, u: usize, h: Heard)
    requires { (i < max_stations) × (area_size ≤ length area.old) }
    ensures { area.new ≡ with_arrival area.old i u h }
{
    area[area::LINES_AT + area::RING * i + u % area::RING] = heard_code(h);
}

// The code of a symbol that is heard alone.
pub fn symbol_code(s: Symbol) -> u8
    ensures { result ≡ heard_code (alone s) }
{
    match s {
        Symbol::Silence => 0,
        Symbol::Bit(b) => 1 + u8::from(b),
        Symbol::Jam => area::SPOILED,
    }
}

// The code of one symbol more where this one is, unless it is silence.
#[tactic(auto, using(std::proofs::lemmas::Bool::Decides::nat_tests))]
pub fn mixed(there: u8, code: u8) -> u8
    ensures { result ≡ pick (eqb there 0) code max_code }
{
    if there == 0 { code } else { area::SPOILED }
}

// One symbol more, by its code, is to reach station i in step u.
#[tactic(auto, unfolding(area::specs::Area::with_symbol, area::specs::Area::symbol_at))]
pub fn add_symbol(area: &mut [u8], i: usize, u: usize, code: u8)
    requires { (i < max_stations) × (area_size ≤ length area.old) }
    ensures { area.new ≡ with_symbol area.old i u code }
{
    let at = area::LINES_AT + area::RING * i + u % area::RING;
    area[at] = mixed(area[at], code);
}
