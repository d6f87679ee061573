// What a station hears in the steps ahead while every emitter goes on: the nearest other emitters, and runs of steps in
// which what it hears is of one kind.

#![tactic(auto)]

ghost use Rattle.std.specs.Prelude.{◌≡◌, true, ◌+◌, ◌<◌, ◌≤◌, leb, length, MatchOption};
ghost use Rattle.octets.specs.Base.{pick};
ghost use Rattle.area.specs.Area.{position_at};
ghost use Rattle.fast_line.specs.Line.{kind_number};
ghost use Rattle.fast_heard.specs.Sights.{sight_of, sights_of};
ghost use Rattle.fast_heard.specs.Hearing.{is_heard, emits_at, nearer, noted, space_to, Lists, nearest_of, near_bit, begun};
ghost use Rattle.fast_heard.specs.Hearing.{before, line_from, RunOf, kind_near, kind_heard, Segmented};
ghost use Rattle.area.specs.Offsets.{area_size, ring};
ghost use Rattle.sheet_layout.specs.Limits.{max_stations};

use fast_line::{LineKind, LineRun};

// The nearest other emitter and its distance, and the distance of the second nearest. Where there is none the distance
// is 256 and not an Option: no station is so far, so that an emitter that is nearer than that one is the first, and one
// that is not there is never heard, by the same two comparisons as any other.
#[derive(Clone, Copy)]
pub struct Near {
    pub from: usize,
    pub d1: usize,
    pub d2: usize,
}

const NONE_NEAR: Near = Near {
    from: 16,
    d1: area::RING,
    d2: area::RING,
};

// What a station hears in a run of steps: nothing; clean bits of its line; packet bits of the nearest emitter; jam or
// several.
#[derive(Clone, Copy)]
pub enum Kind {
    Silent,
    Line,
    From,
    Mixed,
}

impl Kind {
    // Whether anything is heard.
    pub fn is_heard(self) -> bool
        ensures { result ≡ is_heard self }
    {
        !matches!(self, Kind::Silent)
    }
}

#[derive(Clone, Copy)]
pub struct Segment {
    pub kind: Kind,
    pub len: usize,
}

// With emitter i more, at distance d.
#[tactic(auto, unfolding(crate::specs::Hearing::nearer))]
fn nearer_with(near: Near, i: usize, d: usize) -> Near
    ensures { result ≡ nearer near i d }
{
    if d < near.d1 {
        return Near {
            from: i,
            d1: d,
            d2: near.d1,
        };
    }
    if d < near.d2 {
        return Near { d2: d, ..near };
    }
    near
}

// So many emitters, or one more, by the code of a station's phase.
#[tactic(auto, using(std::proofs::lemmas::Bool::Decides::nat_tests))]
fn counted(count: usize, code: u32) -> usize
    requires { count < max_stations }
    ensures value { result ≡ pick (leb 3 code) (count + 1) count }
    ensures bound { result ≤ count + 1 }
{
    if 3 <= code { count + 1 } else { count }
}

// Lists those of n stations that emit, in their order; says how many. Each is written, and counted if it emits.
fn emitters(area: &[u8], n: usize, list: &mut [usize]) -> usize
    requires { (n ≤ max_stations) × (area_size ≤ length area.now) × (length list.old ≡ 16) }
    ensures lists { Lists area.now n list.new result }
    ensures bound { result ≤ n }
{
    let mut count: usize = 0;
    for i in 0..n {
        list[count] = i;
        count = counted(count, area::read_word(area, i, area_record::words::PHASE));
    }
    count
}

// With emitter i more, seen from station j, which is at p.
fn note(area: &[u8], j: usize, p: u32, i: usize, near: Near) -> Near
    requires { (i < max_stations) × (area_size ≤ length area.now) × (p ≡ position_at area.now j)
        × (emits_at area.now i ≡ true) }
    ensures { result ≡ noted (emits_at area.now) (space_to area.now j) j i near }
{
    if i == j {
        return near;
    }
    let q = area::read_position(area, i);
    nearer_with(near, i, area::apart(q, p) as usize)
}

// The emitters nearest to station j, of the emitters among n stations.
fn nearest(area: &[u8], n: usize, j: usize, emitting: &[usize]) -> Near
    requires { (j < max_stations) × (n ≤ max_stations) × (area_size ≤ length area.now)
        × Lists area.now n emitting.now (length emitting.now) }
    ensures { result ≡ nearest_of area.now n j }
{
    let p = area::read_position(area, j);
    let mut near = NONE_NEAR;
    for i in emitting {
        near = note(area, j, p, *i, near);
    }
    near
}

// The next packet bit of the nearest emitter, if there is one and it does not jam.
#[tactic(auto, using(crate::specs::NearLaws::bit_none, crate::specs::NearLaws::bit_silent, crate::specs::NearLaws::bit_jam, crate::specs::NearLaws::bit_next))]
fn near_bit(area: &[u8], near: Near) -> Option<u32>
    requires { (area_size ≤ length area.now) × (near.d1 < ring → near.from < max_stations) }
    ensures { MatchOption result (near_bit area.now near ≡ 0) (λ k. (k ≡ near_bit area.now near) × (0 < k)) }
{
    if area::RING <= near.d1 {
        return None;
    }
    let phase = area::read_word(area, near.from, area_record::words::PHASE);
    if phase < 3 || 4 < phase {
        return None;
    }
    let bit = area::read_word(area, near.from, area_record::words::PHASE_NUMBER);
    if bit == 0 { None } else { Some(bit) }
}

// Whether an emitter at distance d is heard s steps from now.
#[tactic(auto, unfolding(crate::specs::Hearing::begun))]
fn has_begun(d: usize, s: usize) -> bool
    ensures { result ≡ begun d s }
{
    (d < area::RING) & (d <= s)
}

// Of m steps from s on, those in which it does not change whether an emitter at distance d is heard.
#[tactic(auto, unfolding(crate::specs::Hearing::before))]
fn steps_before(d: usize, s: usize, m: usize) -> usize
    requires { 0 < m }
    ensures same { result ≡ before d s m }
    ensures bound { (0 < result) × (result ≤ m) }
{
    if d <= s { m } else { m.min(d - s) }
}

// The line of station j at step t, from s steps on: it holds nothing after 256 steps.
fn line_ahead(area: &[u8], j: usize, t: usize, s: usize, m: usize) -> LineRun
    requires { (j < max_stations) × (area_size ≤ length area.now) × (t + s + m < 4294967296) × (0 < m) }
    ensures run { RunOf (line_from area.now j t) s result }
    ensures bound { (0 < result.len) × (result.len ≤ m) }
{
    if area::RING <= s {
        return LineRun {
            kind: LineKind::Empty,
            len: m,
        };
    }
    if s == 0 && fast_line::is_clear(area, j) {
        return LineRun {
            kind: LineKind::Empty,
            len: m,
        };
    }
    let most = bus_quick::capped(area::RING - s, m);
    fast_line::line_run(area, j, t + s, most)
}

// The kind of what is heard where the nearest emitter is heard, by the kind of the line and its next packet bit.
#[tactic(auto, unfolding(crate::specs::Hearing::kind_near))]
fn kind_near(line: LineKind, bit: u32) -> Kind
    ensures { result ≡ kind_near (kind_number line) bit }
{
    match line {
        LineKind::Empty if bit != 0 => Kind::From,
        _ => Kind::Mixed,
    }
}

// The kind of what is heard.
#[tactic(auto, unfolding(crate::specs::Hearing::kind_heard))]
fn kind_heard(line: LineKind, near: bool, bit: u32) -> Kind
    ensures { result ≡ kind_heard (kind_number line) near bit }
{
    if near {
        return kind_near(line, bit);
    }
    match line {
        LineKind::Empty => Kind::Silent,
        LineKind::Bits => Kind::Line,
        LineKind::Noise => Kind::Mixed,
    }
}

// What station j hears from step s on, counted from step t, where its line stands in the area as it was at t: a run of
// steps of one kind, at most m. It goes by the line and by the nearest emitters, found at step t, alone.
pub fn heard_run(
    area: &[u8],
    j: usize,
    t: usize,
    near: Near,
    bit: u32,
    s: usize,
    m: usize,
) -> Segment
    requires { (j < max_stations) × (area_size ≤ length area.now) × (t + s + m < 4294967296) × (0 < m) }
    ensures says { Segmented area.now j t near bit s result }
    ensures bound { (0 < result.len) × (result.len ≤ m) }
{
    if has_begun(near.d2, s) {
        return Segment {
            kind: Kind::Mixed,
            len: m,
        };
    }
    let few = steps_before(near.d1, s, m);
    let most = steps_before(near.d2, s, few);
    let run = line_ahead(area, j, t, s, most);
    let kind = kind_heard(run.kind, has_begun(near.d1, s), bit);
    Segment { kind, len: run.len }
}

// ---- what each station hears of

// What a station hears of before a window: the nearest emitters; the next packet bit of the nearest, and the frame that
// it sends, by its station and its octets. Where there is none, or it jams, these are 0 and not an Option: each run
// reckons its bit and its frame from them in the same way, and looks at them only where its kind is `From`.
#[derive(Clone, Copy)]
pub struct Sight {
    pub near: Near,
    pub bit: u32,
    pub from: usize,
    pub octets: u32,
}

const UNSEEN: Sight = Sight {
    near: NONE_NEAR,
    bit: 0,
    from: 0,
    octets: 0,
};

// What station j, of n, hears of, by the list of those that emit.
#[tactic(auto, using(crate::specs::SightLaws::near_few, crate::specs::SightLaws::sight_none, crate::specs::SightLaws::bit_from, crate::specs::SightLaws::sight_some))]
fn see(area: &[u8], n: usize, j: usize, emitting: &[usize]) -> Sight
    requires { (j < max_stations) × (n ≤ max_stations) × (area_size ≤ length area.now)
        × Lists area.now n emitting.now (length emitting.now) }
    ensures { result ≡ sight_of area.now n j }
{
    let near = nearest(area, n, j, emitting);
    let Some(bit) = near_bit(area, near) else {
        return Sight { near, ..UNSEEN };
    };
    let from = near.from;
    let octets = area::read_word(area, from, area_record::words::FRAME);
    Sight {
        near,
        bit,
        from,
        octets,
    }
}

// What each of n stations hears of: to be taken before they move on.
pub fn sights(area: &[u8], n: usize) -> [Sight; 16]
    requires { (n ≤ max_stations) × (area_size ≤ length area.now) }
    ensures { result ≡ sights_of area.now n }
{
    let mut list = [0usize; 16];
    let count = emitters(area, n, &mut list);
    let emitting = &list[..count];
    let mut all = [UNSEEN; 16];
    for j in 0..n {
        all[j] = see(area, n, j, emitting);
    }
    all
}
