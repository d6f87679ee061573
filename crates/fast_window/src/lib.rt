// A window: many steps in which no station starts or has an event, and each emitter goes on. Each station moves on by
// itself, then the lines and the clock are set.

#![tactic(auto)]

ghost use Rattle.std.specs.Prelude.{◌≡◌, ◌+◌, ◌-◌, ◌<◌, ◌≤◌, length, take};
ghost use Rattle.area.specs.Area.{clock_at, frame_at};
ghost use Rattle.bus_spec.specs.Ready.{Ready};
ghost use Rattle.bus_spec.specs.RunLaws.{Runnable};
ghost use Rattle.fast_plan.specs.Plan.{steps};
ghost use Rattle.fast_plan.specs.Own.{by_itself};
ghost use Rattle.fast_plan.specs.Exact.{own_all};
ghost use Rattle.fast_plan.specs.Turned.{turned_of};
ghost use Rattle.fast_heard.specs.Hearing.{plan_of};
ghost use Rattle.fast_bound.specs.Bound.{Sighted};
ghost use Rattle.fast_move.specs.Move.{Moving};
ghost use Rattle.fast_window.specs.Window.{bit_at, heard_by, heard_from, Began, settled_of, Lasting, Passed};
ghost use Rattle.sheet_layout.specs.Limits.{last_clock, max_stations};
ghost use Rattle.area.specs.Offsets.{area_size, frame_room};

use fast_heard::Sight;
use sheet_layout::Figures;

// A window of fewer steps is made by single steps: they cost less.
const SHORT: u32 = 12;

// What is read of a work area before a window.
#[derive(Clone, Copy)]
pub struct Start {
    pub figures: Figures,
    pub depth: u32,
    pub clock: u32,
}

// ---- one station

// The packet bit that an emitter at distance d brings after s steps, if it is heard then.
fn bit_at(bit: u32, d: usize, s: u32) -> u32
    requires { bit + s < 4294967296 }
    ensures { result ≡ bit_at bit d s }
{
    bit + (s as usize).saturating_sub(d) as u32
}

// The first n octets are the frame of station i.
fn hold_frame(area: &[u8], i: usize, n: usize) -> [u8; area::FRAME_ROOM]
    requires { (i < max_stations) × (n ≤ frame_room) × (area_size ≤ length area.now) }
    ensures { take n result ≡ frame_at area.now i n }
{
    let mut held = [0u8; area::FRAME_ROOM];
    octets_copies::store(&mut held, 0, area_buffers::frame(area, i, n));
    held
}

impl Start {
    // Station j, s steps on, moves on over steps of one kind, at most to step m; says over how many.
    fn move_run(&self, area: &mut [u8], j: usize, w: &Sight, frame: &[u8], s: u32, m: u32) -> u32
        requires { (j < max_stations) × (area_size ≤ length area.old) × (s < m) × (self.now.clock + m ≤ last_clock)
            × (w.now.bit + m < 4294967296) × (self.now.figures.gap1 + self.now.figures.gap2 < 65536)
            × Moving self.now.figures self.now.depth j (self.now.clock + s) area.old }
        ensures moved { area.new
            ≡ by_itself self.now.figures self.now.depth j
            (heard_from area.old j self.now.clock w.now.near frame.now w.now.bit s) result
            area.old }
        ensures bound { (0 < result) × (s + result ≤ m) }
    {
        let run = fast_bound::run_at(area, j, self.clock, w, s, m);
        let b = bit_at(w.bit, w.near.d1, s);
        fast_move::advance(
            area,
            self.figures,
            self.depth,
            j,
            self.clock + s,
            run.kind,
            frame,
            b,
            run.len as u32,
        )
    }

    // Station j moves on over m steps, run by run of what it hears.
    fn move_runs(&self, area: &mut [u8], j: usize, w: &Sight, frame: &[u8], m: u32)
        requires { (j < max_stations) × (area_size ≤ length area.old) × (self.now.clock + m ≤ last_clock)
            × (w.now.bit + m < 4294967296) × (self.now.figures.gap1 + self.now.figures.gap2 < 65536)
            × Moving self.now.figures self.now.depth j self.now.clock area.old }
        ensures { area.new
            ≡ by_itself self.now.figures self.now.depth j
            (heard_by area.old j self.now.clock w.now.near frame.now w.now.bit) m
            area.old }
    {
        let mut s: u32 = 0;
        // No range: a run says how many steps it has.
        while s < m {
            s += self.move_run(area, j, w, frame, s, m);
        }
    }

    // Station j moves on over m steps.
    fn move_station(&self, area: &mut [u8], j: usize, w: &Sight, m: u32)
        requires { (j < max_stations) × (area_size ≤ length area.old) × (self.now.clock + m ≤ last_clock)
            × (w.now.bit + m < 4294967296) × (w.now.from < max_stations) × (w.now.octets ≤ frame_room)
            × (self.now.figures.gap1 + self.now.figures.gap2 < 65536)
            × Moving self.now.figures self.now.depth j self.now.clock area.old }
        ensures { area.new
            ≡ by_itself self.now.figures self.now.depth j
            (heard_by area.old j self.now.clock w.now.near (frame_at area.old w.now.from w.now.octets) w.now.bit) m
            area.old }
    {
        let octets = w.octets as usize;
        let held = hold_frame(area, w.from, octets);
        self.move_runs(area, j, w, &held[..octets], m);
    }

    // ---- all stations

    // Each station moves on over m steps, by what it heard of before.
    fn move_all(&self, area: &mut [u8], seen: &[Sight], m: u32)
        requires { (length seen.now ≤ max_stations) × (area_size ≤ length area.old) × (self.now.clock + m ≤ last_clock)
            × Began area.old self.now (length seen.now) × Sighted area.old seen.now }
        ensures { area.new
            ≡ own_all area.old (plan_of area.old) m (length seen.now) area.old }
    {
        for (j, w) in seen.iter().enumerate() {
            self.move_station(area, j, w, m);
        }
    }

    // A window of r steps, but for the clock: the stations, and then the lines.
    fn make_steps(&self, area: &mut [u8], seen: &[Sight], r: u32)
        requires { (length seen.now ≤ max_stations) × (area_size ≤ length area.old) × (self.now.clock + r ≤ last_clock)
            × Began area.old self.now (length seen.now) × Sighted area.old seen.now × Lasting area.old r }
        ensures { area.new ≡ settled_of area.old r }
    {
        let n = seen.len();
        let from = fast_lines::emitters(area, n);
        self.move_all(area, seen, r);
        fast_lines::settle_lines(area, n, self.clock as usize, r as usize, from);
    }

    // A window of r steps.
    fn make(&self, area: &mut [u8], seen: &[Sight], r: u32)
        requires { (length seen.now ≤ max_stations) × (area_size ≤ length area.old) × (self.now.clock + r ≤ last_clock)
            × Began area.old self.now (length seen.now) × Sighted area.old seen.now × Lasting area.old r }
        ensures { area.new ≡ turned_of area.old (plan_of area.old) r }
    {
        self.make_steps(area, seen, r);
        area::write_clock(area, self.clock + r);
    }
}

// ---- whether a window is worth a try: any answer is right

// Whether a station that emits nothing, by its record, emitted nothing before and does not start now.
fn is_still(area: &[u8], f: Figures, i: usize, phase: u32) -> bool
    requires { (i < max_stations) × (area_size ≤ length area.now) × (f.gap1 + f.gap2 < 65536) }
{
    if area::read_word(area, i, area_record::words::EMITTED) != 0 {
        return false;
    }
    if phase != 1 {
        return true;
    }
    let deference = area::read_word(area, i, area_record::words::DEFERENCE);
    if deference == 0 {
        return false;
    }
    area::read_word(area, i, area_record::words::GAP) < f.gap1 + f.gap2
}

// Whether a station that emits did so before, and is not hit now while it sends.
fn goes_on(area: &[u8], i: usize, phase: u32, t: u32) -> bool
    requires { (i < max_stations) × (area_size ≤ length area.now) }
{
    if phase == 3 {
        if area_line::read_symbol(area, i, t as usize) != 0 {
            return false;
        }
    }
    if area::read_word(area, i, area_record::words::EMITTED) == 0 {
        return false;
    }
    area::read_word(area, i, area_record::words::DEFERENCE) == 1
}

// Whether station i may allow a window at clock t.
fn may_last(area: &[u8], f: Figures, i: usize, t: u32) -> bool
    requires { (i < max_stations) × (area_size ≤ length area.now) × (f.gap1 + f.gap2 < 65536) }
{
    let phase = area::read_word(area, i, area_record::words::PHASE);
    if phase < 3 {
        return is_still(area, f, i, phase);
    }
    goes_on(area, i, phase, t)
}

// ---- a window

// r steps, one after the other.
fn make_singly(area: &mut [u8], r: u32)
    requires { (area_size ≤ length area.old) × Runnable r area.old }
    ensures { area.new ≡ steps r area.old }
{
    for _s in 0..r {
        bus_turn::step::step(area);
    }
}

impl Start {
    // Whether each of n stations may allow a window.
    fn is_worth(&self, area: &[u8], n: usize) -> bool
        requires { (n ≤ max_stations) × (area_size ≤ length area.now)
            × (self.now.figures.gap1 + self.now.figures.gap2 < 65536) }
    {
        (0..n).all(|i| may_last(area, self.figures, i, self.clock))
    }

    // Of the next m steps of n stations those that are a window.
    fn pass(&self, area: &mut [u8], n: usize, m: u32) -> Option<u32>
        requires { (n ≤ max_stations) × (area_size ≤ length area.old) × (self.now.clock + m ≤ last_clock)
            × Began area.old self.now n }
        ensures { Passed m result area.old area.new }
    {
        if !self.is_worth(area, n) {
            return None;
        }
        let all = fast_heard::sights(area, n);
        let seen = &all[..n];
        let r = fast_bound::bound(area, self.figures, self.clock, seen, m);
        if r < fast_bound::LEAST {
            return None;
        }
        if r < SHORT {
            make_singly(area, r);
            return Some(r);
        }
        self.make(area, seen, r);
        Some(r)
    }
}

// Of the next m steps those that are a window, where they are worth one: says how many.
pub fn pass(area: &mut [u8], m: u32) -> Option<u32>
    requires { (area_size ≤ length area.old) × (clock_at area.old + m ≤ last_clock) × Ready area.old }
    ensures { Passed m result area.old area.new }
{
    let n = area::read_count(area) as usize;
    let start = Start {
        figures: area::read_figures(area),
        depth: area::read_depth(area),
        clock: area::read_clock(area),
    };
    start.pass(area, n, m)
}
