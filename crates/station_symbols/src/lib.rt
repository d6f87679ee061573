// Symbols on the pair, and the bits of a packet.

#![tactic(auto)]

ghost use Rattle.std.specs.Prelude.{◌≡◌};
ghost use Rattle.station_symbols.specs.Packet.{packet_bit, frame_bit, hears_any, symbol_of, is_emission};

// What a station emits in a step: silence, 0, 1 or jam.
#[derive(Clone, Copy)]
pub enum Symbol {
    Silence,
    Bit(bool),
    Jam,
}

// What a station hears of the others in a step: nothing, a clean bit, or what is spoiled: a jam bit, or any
// symbol from two or more.
#[derive(Clone, Copy)]
pub enum Heard {
    Nothing,
    Clean(bool),
    Spoiled,
}

// What a station is to emit: nothing, its packet's bit with this number, or a jam bit.
#[derive(Clone, Copy)]
pub enum Emission {
    Rest,
    PacketBit(u32),
    JamBit,
}

pub fn hears_any(h: Heard) -> bool
    ensures { result ≡ hears_any h }
{
    !matches!(h, Heard::Nothing)
}

pub fn is_emission(e: Emission) -> bool
    ensures { result ≡ is_emission e }
{
    !matches!(e, Emission::Rest)
}

// Bit j of the octets, low bit first; 0 past their end.
fn frame_bit(frame: &[u8], j: usize) -> bool
    ensures { result ≡ frame_bit frame.now j }
{
    let at = j / 8;
    if frame.len() <= at {
        return false;
    }
    (frame[at] >> (j % 8)) % 2 == 1
}

// Bit k of the packet that carries a frame, counted from 1: 64 header bits, then the frame's.
pub fn packet_bit(frame: &[u8], k: u32) -> bool
    ensures { result ≡ packet_bit frame.now k }
{
    if k <= 62 {
        return k % 2 == 1;
    }
    if k <= 64 {
        return true;
    }
    frame_bit(frame, (k - 65) as usize)
}

// The symbol that an emission is, of the packet that carries a frame.
pub fn symbol_of(frame: &[u8], e: Emission) -> Symbol
    ensures { result ≡ symbol_of frame.now e }
{
    match e {
        Emission::Rest => Symbol::Silence,
        Emission::PacketBit(k) => Symbol::Bit(packet_bit(frame, k)),
        Emission::JamBit => Symbol::Jam,
    }
}
