// How long a window may be: the steps in which no station has an event or starts, and each emitter goes on.

#![tactic(auto)]

ghost use Rattle.std.specs.Prelude.{◌≡◌, true, false, ◌+◌, ◌<◌, ◌≤◌, length};
ghost use Rattle.station_spec.specs.Receive.{bits_in};
ghost use Rattle.area.specs.Area.{figures_at};
ghost use Rattle.fast_plan.specs.Calm.{AllCalm};
ghost use Rattle.fast_heard.specs.Hearing.{plan_of, emits_at, Segmented};
ghost use Rattle.fast_bound.specs.Bound.{rest_steps, hear_steps, rest_ahead, hear_ahead, ahead, ahead_of, emit_steps};
ghost use Rattle.fast_bound.specs.Bound.{Alike, CalmFor, CalmIf, CalmAmong, AllLast, ReadFrom, NearTo, Sighted, Underway};
ghost use Rattle.sheet_layout.specs.Limits.{last_clock, max_stations};
ghost use Rattle.area.specs.Offsets.{area_size};

use fast_heard::{Kind, Segment, Sight};
use sheet_layout::Figures;
use station_state::{Deference, Receiver, Station, Transmitter};

// Fewer steps than these are not worth a window.
pub const LEAST: u32 = 2;

// Of a station that emits nothing: `len` steps of one kind, and what it comes to in them. It has collected at most
// `bits` bits; `harmless`: its reception may not report, however long it goes on.
#[derive(Clone, Copy)]
pub struct Ahead {
    pub len: u32,
    pub deference: Deference,
    pub transmitter: Transmitter,
    pub bits: u32,
    pub harmless: bool,
}

// ---- a station that emits nothing, by value

// Of m steps in which nothing is heard those in which no frame starts; none where the reception that they end may be
// reported.
#[tactic(auto, unfolding(crate::specs::Bound::rest_steps))]
fn rest_steps(f: Figures, m: u32, d: Deference, x: Transmitter, q: u32, harmless: bool) -> u32
    requires { f.gap1 + f.gap2 < 65536 }
    ensures same { result ≡ rest_steps f m d x q harmless }
    ensures bound { result ≤ m }
{
    if harmless | (q < frame_build::limits::SHORTEST_FRAME) {
        return m.min(fast_rest::frames_rest(f, m, d, x));
    }
    0
}

// Of m steps in which others are heard those in which no frame starts.
#[tactic(auto, unfolding(crate::specs::Bound::hear_steps))]
fn hear_steps(f: Figures, m: u32, d: Deference, x: Transmitter) -> u32
    requires { f.gap1 + f.gap2 < 65536 }
    ensures same { result ≡ hear_steps f m d x }
    ensures bound { result ≤ m }
{
    m.min(fast_station::heard_rest(f, m, d, x))
}

#[tactic(auto, unfolding(crate::specs::Bound::rest_ahead, crate::specs::Bound::rested_to))]
fn rest_ahead(f: Figures, m: u32, at: Ahead) -> Ahead
    requires { f.gap1 + f.gap2 < 65536 }
    ensures same { result ≡ rest_ahead f m at }
    ensures bound { (result.len ≤ m) × (result.bits ≤ at.bits + result.len) }
{
    let len = rest_steps(f, m, at.deference, at.transmitter, at.bits, at.harmless);
    Ahead {
        len,
        deference: fast_rest::rest_deference(f, len, at.deference),
        transmitter: fast_rest::rest_transmitter(len, at.transmitter),
        bits: 0,
        harmless: false,
    }
}

#[tactic(auto, unfolding(crate::specs::Bound::hear_ahead, crate::specs::Bound::heard_to))]
fn hear_ahead(f: Figures, m: u32, at: Ahead) -> Ahead
    requires { (f.gap1 + f.gap2 < 65536) × (at.bits + m < 4294967296) }
    ensures same { result ≡ hear_ahead f m at }
    ensures bound { (result.len ≤ m) × (result.bits ≤ at.bits + result.len) }
{
    let len = hear_steps(f, m, at.deference, at.transmitter);
    Ahead {
        len,
        deference: fast_station::hear_deference(f, len, at.deference),
        transmitter: fast_rest::rest_transmitter(len, at.transmitter),
        bits: at.bits + len,
        harmless: at.harmless,
    }
}

// Of m steps of a kind those in which no frame starts and nothing is reported.
#[tactic(auto, unfolding(crate::specs::Bound::ahead))]
fn foresee(f: Figures, kind: Kind, m: u32, at: Ahead) -> Ahead
    requires { (f.gap1 + f.gap2 < 65536) × (at.bits + m < 4294967296) }
    ensures same { result ≡ ahead f kind m at }
    ensures bound { (result.len ≤ m) × (result.bits ≤ at.bits + result.len) }
{
    match kind {
        Kind::Silent => rest_ahead(f, m, at),
        Kind::Line | Kind::From | Kind::Mixed => hear_ahead(f, m, at),
    }
}

// The bits that a receiver has collected.
#[tactic(auto, unfolding(station_spec::specs::Receive::bits_in))]
fn bits_in(r: Receiver) -> u32
    ensures { result ≡ bits_in r }
{
    match r {
        Receiver::Collecting { bits, .. } => bits,
        Receiver::Listening | Receiver::Readable(_) | Receiver::Seeking { .. } => 0,
    }
}

// A station as it is: no step ahead.
#[tactic(auto, unfolding(crate::specs::Bound::ahead_of))]
fn ahead_of(s: Station, harmless: bool) -> Ahead
    ensures { result ≡ ahead_of s harmless }
{
    Ahead {
        len: 0,
        deference: s.deference,
        transmitter: s.transmitter,
        bits: bits_in(s.receiver),
        harmless,
    }
}

// ---- a station that emits, by value

// The steps through which a station goes on emitting while it hears others, where `heard`, or hears nothing.
#[tactic(auto, unfolding(crate::specs::Bound::emit_steps))]
fn emit_steps(heard: bool, s: Station) -> u32
    requires { s.frame < 65536 }
    ensures { result ≡ emit_steps heard s }
{
    if fast_station::keeps_emitting(heard, s) {
        return fast_station::emits_for(s.frame, s.transmitter);
    }
    0
}

// ---- on the area

// What station j hears from step s of m on, counted from clock t: a run of steps of one kind.
pub fn run_at(area: &[u8], j: usize, t: u32, w: &Sight, s: u32, m: u32) -> Segment
    requires { (j < max_stations) × (area_size ≤ length area.now) × (t + m ≤ last_clock) × (s < m) }
    ensures says { Segmented area.now j t w.now.near w.now.bit s result }
    ensures bound { (0 < result.len) × (s + result.len ≤ m) }
{
    fast_heard::heard_run(
        area,
        j,
        t as usize,
        w.near,
        w.bit,
        s as usize,
        (m - s) as usize,
    )
}

// A station that emits nothing, run by run of what it hears, from where it begins: at most m steps in which it starts
// nothing and has no event.
fn silent_runs(area: &[u8], f: Figures, j: usize, t: u32, w: &Sight, first: Ahead, m: u32) -> u32
    requires { (j < max_stations) × (area_size ≤ length area.now) × (t + m ≤ last_clock) × (f.gap1 + f.gap2 < 65536)
        × NearTo area.now f j t w.now.near w.now.bit × (emits_at area.now j ≡ false) × (first.bits ≤ t + 0)
        × Underway area.now j m 0 first }
    ensures calm { CalmFor area.now j result }
    ensures bound { result ≤ m }
{
    let mut at = first;
    let mut s: u32 = 0;
    // No range: a run says how many steps it has.
    while s < m {
        let run = run_at(area, j, t, w, s, m);
        let len = run.len as u32;
        let next = foresee(f, run.kind, len, at);
        s += next.len;
        if next.len < len {
            return s;
        }
        at = next;
    }
    s
}

// A station that emits nothing: at most m steps in which it starts nothing and has no event.
fn silent_bound(area: &[u8], f: Figures, j: usize, t: u32, w: &Sight, m: u32) -> u32
    requires { (j < max_stations) × (area_size ≤ length area.now) × (t + m ≤ last_clock) × (f.gap1 + f.gap2 < 65536)
        × NearTo area.now f j t w.now.near w.now.bit × (emits_at area.now j ≡ false) }
    ensures calm { CalmFor area.now j result }
    ensures bound { result ≤ m }
{
    let station = area::read_station(area, j);
    if station.emitted {
        return 0;
    }
    let reports = fast_receive::may_report(area, j, station.receiver, m);
    let first = ahead_of(station, !reports);
    silent_runs(area, f, j, t, w, first, m)
}

// Of m steps those before station j hears nothing, where `heard`, or before it hears others.
fn alike_for(area: &[u8], f: Figures, j: usize, t: u32, w: &Sight, heard: bool, m: u32) -> u32
    requires { (j < max_stations) × (area_size ≤ length area.now) × (t + m ≤ last_clock)
        × NearTo area.now f j t w.now.near w.now.bit }
    ensures alike { Alike area.now j heard result }
    ensures bound { result ≤ m }
{
    let mut s: u32 = 0;
    // No range: a run says how many steps it has.
    while s < m {
        let run = run_at(area, j, t, w, s, m);
        if run.kind.is_heard() != heard {
            return s;
        }
        s += run.len as u32;
    }
    s
}

// A station that emits: at most m steps through which it goes on and has no event.
fn emit_bound(area: &[u8], f: Figures, j: usize, t: u32, w: &Sight, m: u32) -> u32
    requires { (j < max_stations) × (area_size ≤ length area.now) × (t + m ≤ last_clock)
        × NearTo area.now f j t w.now.near w.now.bit × (emits_at area.now j ≡ true) }
    ensures calm { CalmFor area.now j result }
    ensures bound { result ≤ m }
{
    let station = area::read_station(area, j);
    let silent = alike_for(area, f, j, t, w, false, m);
    if 0 < silent {
        return silent.min(emit_steps(false, station));
    }
    let heard = alike_for(area, f, j, t, w, true, m);
    heard.min(emit_steps(true, station))
}

// Whether station j emits.
fn is_emitter(area: &[u8], j: usize) -> bool
    requires { (j < max_stations) × (area_size ≤ length area.now) }
    ensures { result ≡ emits_at area.now j }
{
    3 <= area::read_word(area, j, area_record::words::PHASE)
}

// Station j, if it emits, where `emits`, or if it emits nothing: at most m steps through which it goes on, or in which
// it starts nothing, and has no event.
fn station_bound(area: &[u8], f: Figures, emits: bool, j: usize, t: u32, w: &Sight, m: u32) -> u32
    requires { (j < max_stations) × (area_size ≤ length area.now) × (t + m ≤ last_clock) × (f.gap1 + f.gap2 < 65536)
        × NearTo area.now f j t w.now.near w.now.bit }
    ensures calm { CalmIf area.now emits j result }
    ensures bound { result ≤ m }
{
    if is_emitter(area, j) != emits {
        return m;
    }
    if emits {
        return emit_bound(area, f, j, t, w, m);
    }
    silent_bound(area, f, j, t, w, m)
}

// The same of all stations, or none where the steps are few.
fn bound_among(area: &[u8], f: Figures, emits: bool, t: u32, seen: &[Sight], m: u32) -> u32
    requires { (length seen.now ≤ max_stations) × (area_size ≤ length area.now) × (t + m ≤ last_clock)
        × (f.gap1 + f.gap2 < 65536) × ReadFrom area.now f (length seen.now) t × Sighted area.now seen.now }
    ensures calm { CalmAmong area.now emits (length seen.now) result }
    ensures bound { result ≤ m }
{
    let mut left = m;
    for (j, w) in seen.iter().enumerate() {
        if left < LEAST {
            return 0;
        }
        left = station_bound(area, f, emits, j, t, w, left);
    }
    left
}

// How long a window of m steps from clock t on may be, by what each station hears of. Emitters are looked at first: they
// allow the fewest steps, and the others need not be looked at past those.
pub fn bound(area: &[u8], f: Figures, t: u32, seen: &[Sight], m: u32) -> u32
    requires { (length seen.now ≤ max_stations) × (area_size ≤ length area.now) × (t + m ≤ last_clock)
        × ReadFrom area.now f (length seen.now) t × Sighted area.now seen.now }
    ensures calm { AllCalm area.now (plan_of area.now) result }
    ensures last { AllLast area.now result }
    ensures bound { result ≤ m }
{
    let most = bound_among(area, f, true, t, seen, m);
    bound_among(area, f, false, t, seen, most)
}
