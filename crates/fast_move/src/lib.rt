// A station moves on by itself, over steps of one kind at once where that can be, else by one turn.

#![tactic(auto)]

ghost use Rattle.std.specs.Prelude.{◌≡◌, ◌+◌, ◌<◌, ◌≤◌, length};
ghost use Rattle.fast_plan.specs.Own.{by_itself};
ghost use Rattle.area.specs.Area.{station_at};
ghost use Rattle.fast_stretch.specs.Stretch.{Movable};
ghost use Rattle.fast_heard.specs.Hearing.{emits};
ghost use Rattle.fast_move.specs.Move.{heard_in, rests_all, hears_all, emits_all, can_move, stretched, Moving};
ghost use Rattle.fast_move.specs.Move.{Audible, Held};
ghost use Rattle.sheet_layout.specs.Limits.{last_clock, max_stations};
ghost use Rattle.area.specs.Offsets.{area_size};

use fast_heard::Kind;
use sheet_layout::Figures;
use station_state::{Station, Transmitter};
use station_symbols::Heard;

fn is_emitting(x: Transmitter) -> bool
    ensures { result ≡ emits x }
{
    matches!(
        x,
        Transmitter::Sending(_) | Transmitter::Heading(_) | Transmitter::Jamming { .. }
    )
}

// A station that emits nothing hears nothing for m steps: none starts, and its reception, if any, ends without a
// report.
#[tactic(auto, unfolding(crate::specs::Move::rests_all))]
fn rests_all(f: Figures, m: u32, report: bool, s: Station) -> bool
    requires { f.gap1 + f.gap2 < 65536 }
    ensures { result ≡ rests_all f m report s }
{
    !s.emitted & ((m <= fast_rest::frames_rest(f, m, s.deference, s.transmitter)) & !report)
}

// One that emits nothing hears others for m steps: none starts.
#[tactic(auto, unfolding(crate::specs::Move::hears_all))]
fn hears_all(f: Figures, m: u32, s: Station) -> bool
    requires { f.gap1 + f.gap2 < 65536 }
    ensures { result ≡ hears_all f m s }
{
    !s.emitted & (m <= fast_station::heard_rest(f, m, s.deference, s.transmitter))
}

// An emitter goes on for m steps, in which it hears others, where `heard`, or nothing.
#[tactic(auto, unfolding(crate::specs::Move::emits_all))]
fn emits_all(m: u32, heard: bool, s: Station) -> bool
    requires { s.frame < 65536 }
    ensures { result ≡ emits_all m heard s }
{
    fast_station::keeps_emitting(heard, s) & (m <= fast_station::emits_for(s.frame, s.transmitter))
}

// Whether station j, which is s, can go over m steps of a kind at once.
fn can_move(area: &[u8], f: Figures, m: u32, kind: Kind, j: usize, s: Station) -> bool
    requires { (j < max_stations) × (area_size ≤ length area.now) × (f.gap1 + f.gap2 < 65536)
        × Movable f m area.now j × Held s × (s ≡ station_at area.now j) }
    ensures { result ≡ can_move f m kind area.now j }
{
    let heard = kind.is_heard();
    if is_emitting(s.transmitter) {
        return emits_all(m, heard, s);
    }
    if heard {
        return hears_all(f, m, s);
    }
    let report = fast_receive::may_report(area, j, s.receiver, 0);
    rests_all(f, m, report, s)
}

// Station j, which is s, goes over m steps of a kind at once; e: whether it emits in them.
fn move_at_once(
    area: &mut [u8],
    f: Figures,
    e: bool,
    kind: Kind,
    j: usize,
    u: u32,
    frame: &[u8],
    b: u32,
    m: u32,
    s: Station,
)
    requires { (j < max_stations) × (area_size ≤ length area.old) × Movable f m area.old j
        × (s ≡ station_at area.old j) × (u + m < 4294967296) × (b + m < 4294967296) × Audible kind area.old j u m }
    ensures { area.new ≡ stretched f e kind m j area.old u frame.now b }
{
    match kind {
        Kind::Silent => fast_stretch::hear_nothing(area, j, f, e, m, s),
        Kind::Line => fast_stretch::hear_line(area, j, f, e, u as usize, m, s),
        Kind::From => fast_stretch::hear_packet(area, j, f, e, frame, b, m, s),
        Kind::Mixed => fast_stretch::hear_spoiled(area, j, f, e, m, s),
    }
}

// What station j hears in the first step of a kind.
fn heard_first(area: &[u8], kind: Kind, j: usize, u: usize, frame: &[u8], b: u32) -> Heard
    requires { (j < max_stations) × (area_size ≤ length area.now) }
    ensures { result ≡ heard_in kind area.now j u frame.now b 0 }
{
    match kind {
        Kind::Silent => Heard::Nothing,
        Kind::Line => area_line::arrival(area, j, u),
        Kind::From => Heard::Clean(station_symbols::packet_bit(frame, b)),
        Kind::Mixed => Heard::Spoiled,
    }
}

// Station j moves on over m steps of a kind from clock u on, or over the first of them; says over how many. In them it
// hears nothing, what its line holds, the packet that carries a frame from its bit b on, or spoiled symbols.
pub fn advance(
    area: &mut [u8],
    f: Figures,
    depth: u32,
    j: usize,
    u: u32,
    kind: Kind,
    frame: &[u8],
    b: u32,
    m: u32,
) -> u32
    requires { (j < max_stations) × (area_size ≤ length area.old) × (0 < m) × (u + m ≤ last_clock)
        × (b + m < 4294967296) × (f.gap1 + f.gap2 < 65536) × Moving f depth j u area.old
        × Audible kind area.old j u m }
    ensures moved { area.new
        ≡ by_itself f depth j (heard_in kind area.old j u frame.now b) result area.old }
    ensures bound { (0 < result) × (result ≤ m) }
{
    let s = area::read_station(area, j);
    let e = is_emitting(s.transmitter);
    if can_move(area, f, m, kind, j, s) {
        move_at_once(area, f, e, kind, j, u, frame, b, m, s);
        return m;
    }
    let h = heard_first(area, kind, j, u as usize, frame, b);
    fast_own::turn_alone(area, f, depth, j, h);
    1
}
