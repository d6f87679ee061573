// A station's delay line over many places at once: what it holds, places cleared, symbols put.
// Above this crate nobody knows how a place is kept.

#![tactic(auto)]

ghost use Rattle.std.specs.Prelude.{◌≡◌, true, ◌+◌, ◌-◌, ◌*◌, ◌%◌, ◌<◌, ◌≤◌, min, eqb, length};
ghost use Rattle.octets.specs.Base.{pick};
ghost use Rattle.station_symbols.specs.declared.Symbol.TheVariants.{Bit};
ghost use Rattle.station_symbols.specs.Packet.{packet_bit};
ghost use Rattle.area.specs.Area.{heard_of, heard_code, symbol_at, alone, frame_at};
ghost use Rattle.fast_plan.specs.Push.{cleared};
ghost use Rattle.fast_line.specs.Line.{line_kind, kind_number, lasts, run_at, AllOf, is_clear, bits_from, jams, Coded, Below};
ghost use Rattle.fast_line.specs.Line.{codes_put};
ghost use Rattle.area.specs.Offsets.{area_size, ring, frame_room};
ghost use Rattle.sheet_layout.specs.Limits.{max_stations};

use station_symbols::Heard;

// What places of a line hold: nothing, clean bits, or spoiled symbols.
#[derive(Clone, Copy, PartialEq, Eq)]
pub enum LineKind {
    Empty,
    Bits,
    Noise,
}

// Places of one kind, and how many.
#[derive(Clone, Copy)]
pub struct LineRun {
    pub kind: LineKind,
    pub len: usize,
}

// Whether nothing is on its way to station j. The codes are put together without a branch: many are looked at at once.
#[tactic(auto, using(crate::specs::LineLaws::clear_none, crate::specs::LineLaws::clear_more, crate::specs::LineLaws::clear_end))]
pub fn is_clear(area: &[u8], j: usize) -> bool
    requires { (j < max_stations) × (area_size ≤ length area.now) }
    ensures { result ≡ is_clear area.now j }
{
    let mut all: u8 = 0;
    for u in 0..area::RING {
        all |= area_line::read_symbol(area, j, u);
    }
    all == 0
}

// What a place holds, by its code: how the area keeps a line.
#[tactic(auto, unfolding(area::specs::Area::heard_of))]
fn kind_of(code: u8) -> LineKind
    ensures { result ≡ line_kind (heard_of code) }
{
    match code {
        0 => LineKind::Empty,
        1 | 2 => LineKind::Bits,
        _ => LineKind::Noise,
    }
}

// The code at place p of the line of station j.
#[tactic(auto, using(crate::specs::LineLaws::code_is))]
fn code_at(area: &[u8], j: usize, p: usize) -> u8
    requires { (j < max_stations) × (area_size ≤ length area.now) × (p < ring) }
    ensures { result ≡ symbol_at area.now j p }
{
    area[area::LINES_AT + area::RING * j + p]
}

// Whether the n places from p on are of this kind. Without a branch: they are looked at at once. Half of a code,
// rounded up, is the number of its kind.
fn are_alike(area: &[u8], j: usize, p: usize, kind: LineKind, n: usize) -> bool
    requires { (j < max_stations) × (area_size ≤ length area.now) × (p + n ≤ ring) }
    ensures { result ≡ true → AllOf area.now j p (kind_number kind) n }
{
    let number = kind as u8;
    let mut other: u8 = 0;
    for i in 0..n {
        let code = code_at(area, j, p + i);
        other |= (code / 2 + code % 2) ^ number;
    }
    other == 0
}

// Of the m places from p on, the first s of which are of this kind, n more at a time as long as all of them are. A
// `while`: `(s..m + 1 - n).step_by(n)` would leave to be reckoned again where it ended.
fn go_on(area: &[u8], j: usize, p: usize, kind: LineKind, m: usize, s: usize, n: usize) -> usize
    requires { (j < max_stations) × (area_size ≤ length area.now) × (p + m ≤ ring) × (s ≤ m) × (0 < n)
        × (n ≤ 16) × AllOf area.now j p (kind_number kind) s }
    ensures alike { AllOf area.now j p (kind_number kind) result }
    ensures bound { result ≤ m }
{
    let mut k = s;
    while k + n <= m {
        if !are_alike(area, j, p + k, kind, n) {
            return k;
        }
        k += n;
    }
    k
}

// How many of the m places from p on, which lie in a row, are of this kind, up to the first that is not.
fn lasting_row(area: &[u8], j: usize, p: usize, kind: LineKind, m: usize) -> usize
    requires { (j < max_stations) × (area_size ≤ length area.now) × (p + m ≤ ring) }
    ensures same { result ≡ lasts area.now j p (kind_number kind) m }
    ensures bound { result ≤ m }
{
    let many = go_on(area, j, p, kind, m, 0, 16);
    let few = go_on(area, j, p, kind, m, many, 4);
    for s in few..m {
        if kind_of(code_at(area, j, p + s)) != kind {
            return s;
        }
    }
    m
}

// How many of the m places from u on are of this kind, up to the first that is not.
#[tactic(auto, using(crate::specs::LineLaws::row_stop, crate::specs::LineLaws::row_again))]
fn lasting(area: &[u8], j: usize, u: usize, kind: LineKind, m: usize) -> usize
    requires { (j < max_stations) × (area_size ≤ length area.now) × (m ≤ ring) }
    ensures same { result ≡ lasts area.now j u (kind_number kind) m }
    ensures bound { result ≤ m }
{
    let p = u % area::RING;
    let row = bus_quick::capped(area::RING - p, m);
    let s = lasting_row(area, j, p, kind, row);
    if s < row {
        return s;
    }
    row + lasting_row(area, j, 0, kind, m - row)
}

// The kind of place u, and how many of the m places from there on have it.
#[tactic(auto, using(crate::specs::LineLaws::run_is, crate::specs::LineLaws::run_some))]
pub fn line_run(area: &[u8], j: usize, u: usize, m: usize) -> LineRun
    requires { (j < max_stations) × (area_size ≤ length area.now) × (m ≤ ring) × (0 < m) }
    ensures run { result ≡ run_at area.now j u m }
    ensures bound { (0 < result.len) × (result.len ≤ m) }
{
    let kind = kind_of(area_line::read_symbol(area, j, u));
    let len = lasting(area, j, u, kind, m);
    LineRun { kind, len }
}

// The n places of station j from step u on, which lie in a row, become nothing.
fn clear_row(area: &mut [u8], j: usize, u: usize, n: usize)
    requires { (j < max_stations) × (area_size ≤ length area.old) × (u % ring + n ≤ ring) }
    ensures { area.new ≡ cleared u j n area.old }
{
    let first = area::LINES_AT + area::RING * j + u % area::RING;
    area[first..first + n].fill(0);
}

// The m places of station j from step t on become nothing, row by row: a `while`, since a row's length is found at each.
pub fn clear(area: &mut [u8], j: usize, t: usize, m: usize)
    requires { (j < max_stations) × (area_size ≤ length area.old) × (t + m < 4294967296) }
    ensures { area.new ≡ cleared t j m area.old }
{
    let mut s: usize = 0;
    while s < m {
        let u = t + s;
        let n = bus_quick::capped(area::RING - u % area::RING, m - s);
        clear_row(area, j, u, n);
        s += n;
    }
}

// The code of bit k of the packet that carries a frame. Reckoned and not chosen: a choice by a frame's bits is foreseen
// wrong half the time.
#[tactic(auto, using(crate::specs::LineLaws::code_alternates, crate::specs::LineLaws::code_delimits, crate::specs::LineLaws::code_of_frame))]
fn bit_code(frame: &[u8], k: usize) -> u8
    requires { k < 65 + 8 * length frame.now }
    ensures { result ≡ heard_code (alone (Bit (packet_bit frame.now k))) }
{
    if k <= 62 {
        return (k % 2 + 1) as u8;
    }
    if k <= 64 {
        return 2;
    }
    let j = k - 65;
    let place = (j % 8) as u32;
    let x = octets::wide(frame[j / 8]);
    ((x >> place) % 2 + 1) as u8
}

// ---- symbols put: codes are noted once for an emitter, and put on each line that they are on their way to

// The codes of the last of `steps` bits, 256 at most, of the packet that carries the frame of station i, from bit k on.
// They end at place `at` + 256.
pub fn note_bits(
    area: &[u8],
    i: usize,
    octets: usize,
    k: usize,
    steps: usize,
    codes: &mut [u8],
    at: usize,
)
    requires { (i < max_stations) × (octets ≤ frame_room) × (area_size ≤ length area.now)
        × (at + ring ≤ length codes.old) × (k + steps ≤ 65 + 8 * octets) }
    ensures coded { Coded codes.new at steps (bits_from (frame_at area.now i octets) k) }
    ensures kept { Below at codes.old codes.new }
{
    let frame = area_buffers::frame(area, i, octets);
    let m = bus_quick::capped(area::RING, steps);
    let from = steps - m;
    let first = at + (area::RING - m);
    for put in 0..m {
        codes[first + put] = bit_code(frame, k + (from + put));
    }
}

// The same of jam.
pub fn note_jam(steps: usize, codes: &mut [u8], at: usize)
    requires { at + ring ≤ length codes.old }
    ensures coded { Coded codes.new at steps jams }
    ensures kept { Below at codes.old codes.new }
{
    let m = bus_quick::capped(area::RING, steps);
    let first = at + (area::RING - m);
    codes[first..first + m].fill(area::SPOILED);
}

// Puts the codes on the line of station j from step u on; the places lie in a row.
#[tactic(auto, using(crate::specs::LineLaws::row_none, crate::specs::LineLaws::row_more))]
fn put_row(area: &mut [u8], j: usize, u: usize, codes: &[u8])
    requires { (j < max_stations) × (area_size ≤ length area.old) × (u % ring + length codes.now ≤ ring) }
    ensures { area.new ≡ codes_put j u codes.now 0 (length codes.now) area.old }
{
    let first = area::LINES_AT + area::RING * j + u % area::RING;
    for s in 0..codes.len() {
        area[first + s] = area_line::mixed(area[first + s], codes[s]);
    }
}

// A station at distance d emits in `steps` steps from t on what the codes say that end at place `at` + 256: the symbols
// that are still on their way then are put on the line of station j.
pub fn push_codes(
    area: &mut [u8],
    j: usize,
    t: usize,
    d: usize,
    steps: usize,
    codes: &[u8],
    at: usize,
)
    requires { (j < max_stations) × (area_size ≤ length area.old) × (t + steps + d < 4294967296) × (d ≤ ring)
        × (at + ring ≤ length codes.now) }
    ensures { area.new
        ≡ codes_put j (t + (steps - d + d)) codes.now (at + (ring - min d steps)) (min d steps)
        area.old }
{
    let m = bus_quick::capped(d, steps);
    let u = t + (steps - m + d);
    let k = at + (area::RING - m);
    let n = bus_quick::capped(area::RING - u % area::RING, m);
    put_row(area, j, u, &codes[k..k + n]);
    put_row(area, j, u + n, &codes[k + n..k + m]);
}
