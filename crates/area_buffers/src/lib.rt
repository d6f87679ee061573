// The frames and the collected bits in the work area, and the symbol that a station emits.

#![tactic(auto)]

ghost use Rattle.std.specs.Prelude.{◌≡◌, ◌+◌, ◌*◌, ◌/◌, ◌%◌, ◌^◌, ◌<◌, ◌≤◌, length};
ghost use Rattle.area.specs.Area.{with_bit, with_octet, octet_with, frame_at, buffer_at, frame_built};
ghost use Rattle.octets.specs.Base.{outcome, size_answer};
ghost use Rattle.octets.specs.Bits.{digit};
ghost use Rattle.station_symbols.specs.Packet.{symbol_of};
ghost use Rattle.area.specs.Offsets.{area_size, frame_room};
ghost use Rattle.frame_build.specs.Limits.{buffer_octets, buffer_bits};
ghost use Rattle.sheet_layout.specs.Limits.{max_stations};

use octets::Refusal;
use station_symbols::{Emission, Symbol};

// What bit p of an octet stands for.
#[tactic(auto, using(area::specs::CodeLaws::power_some, area::specs::CodeLaws::power_small))]
pub fn power(p: usize) -> u32
    requires { p < 8 }
    ensures value { result ≡ 2 ^ p }
    ensures some { (0 < result) × (result ≤ 128) }
{
    octets::power(p as u32)
}

// The p low bits of x, of which `unit` is 2^p.
#[tactic(auto, using(area::specs::CodeLaws::low_is, area::specs::CodeLaws::low_small))]
pub fn low_bits(x: u32, p: usize, unit: u32) -> u32
    requires { (unit ≡ 2 ^ p) × (0 < unit) }
    ensures value { result ≡ x % unit }
    ensures small { result < unit }
{
    x & (unit - 1)
}

// A bit as a number, at place p.
#[tactic(auto, using(area::specs::CodeLaws::raised_is, area::specs::CodeLaws::raised_small))]
fn raised(one: bool, p: usize) -> u32
    requires { p < 8 }
    ensures value { result ≡ digit one * 2 ^ p }
    ensures small { result ≤ 128 }
{
    let place = p as u32;
    u32::from(one) << place
}

// An octet with bit p stored: the bits below it stay, those above it are 0.
#[tactic(auto, unfolding(area::specs::Area::octet_with))]
fn octet_with(x: u8, p: usize, one: bool) -> u8
    requires { p < 8 }
    ensures { result ≡ octet_with x p one }
{
    let unit = power(p);
    let low = low_bits(octets::wide(x), p, unit);
    (low + raised(one, p)) as u8
}

// Stores collected bit k of station i.
#[tactic(auto, unfolding(area::specs::Area::with_bit))]
pub fn store_bit(area: &mut [u8], i: usize, k: usize, one: bool)
    requires { (i < max_stations) × (k < buffer_bits) × (area_size ≤ length area.old) }
    ensures { area.new ≡ with_bit area.old i k one }
{
    let at = area::BUFFERS_AT + area::FRAME_ROOM * i + k / 8;
    area[at] = octet_with(area[at], k % 8, one);
}

// Writes octet k of what station i collected.
#[tactic(auto, unfolding(area::specs::Area::with_octet))]
pub fn write_octet(area: &mut [u8], i: usize, k: usize, v: u8)
    requires { (i < max_stations) × (k < buffer_octets) × (area_size ≤ length area.old) }
    ensures { area.new ≡ with_octet area.old i k v }
{
    area[area::BUFFERS_AT + area::FRAME_ROOM * i + k] = v;
}

// What station i collected.
#[tactic(auto, using(area::specs::CodeLaws::buffer_is))]
pub fn buffer(area: &[u8], i: usize) -> &[u8]
    requires { (i < max_stations) × (area_size ≤ length area.now) }
    ensures { result.now ≡ buffer_at area.now i }
{
    let at = area::BUFFERS_AT + area::FRAME_ROOM * i;
    let end = at + frame_build::limits::BUFFER;
    &area[at..end]
}

// The n octets of the frame of station i.
#[tactic(auto, unfolding(area::specs::Area::frame_at))]
pub fn frame(area: &[u8], i: usize, n: usize) -> &[u8]
    requires { (i < max_stations) × (n ≤ frame_room) × (area_size ≤ length area.now) }
    ensures { result.now ≡ frame_at area.now i n }
{
    let at = area::FRAMES_AT + area::FRAME_ROOM * i;
    let end = at + n;
    &area[at..end]
}

// The symbol that an emission of station i is, whose frame has n octets.
pub fn symbol(area: &[u8], i: usize, n: usize, e: Emission) -> Symbol
    requires { (i < max_stations) × (n ≤ frame_room) × (area_size ≤ length area.now) }
    ensures { result ≡ symbol_of (frame_at area.now i n) e }
{
    station_symbols::symbol_of(frame(area, i, n), e)
}

// Builds a frame of station i, with its own address as source, at its place, or refuses (11) and leaves the area as it
// was.
pub fn build_frame(
    area: &mut [u8],
    i: usize,
    destination: [u8; 6],
    value: u16,
    payload: &[u8],
) -> Result<usize, Refusal>
    requires { (i < max_stations) × (area_size ≤ length area.old) }
    ensures { outcome (size_answer result) area.new
        ≡ frame_built area.old i destination value payload.now }
{
    let source = area::read_address(area, i);
    let at = area::FRAMES_AT + area::FRAME_ROOM * i;
    let end = at + frame_build::limits::BUFFER;
    frame_build::builder::build(&mut area[at..end], destination, source, value, payload)
}
