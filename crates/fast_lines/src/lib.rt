// What a window of many steps leaves in the delay lines: the places of its steps are cleared, and the symbols that are
// still on their way are put.

#![tactic(auto)]

ghost use Rattle.std.specs.Prelude.{◌≡◌, ℕ, ◌+◌, ◌*◌, ◌<◌, ◌≤◌, min, length};
ghost use Rattle.area.specs.Area.{symbol_at, max_code};
ghost use Rattle.fast_plan.specs.Push.{cleared, ways_to, line_done};
ghost use Rattle.fast_plan.specs.Placed.{lines_done};
ghost use Rattle.fast_line.specs.Line.{Below};
ghost use Rattle.fast_lines.specs.Lines.{emitter_at, emitters_of, plan_by, Enough, AllEnough, CodedFrom, AllCoded};
ghost use Rattle.fast_lines.specs.Lines.{Pushes, pushed_from, Settles};
ghost use Rattle.sheet_layout.specs.Limits.{last_clock, max_stations};
ghost use Rattle.area.specs.Offsets.{area_size, ring};

// What a station emits in a window: nothing; its packet's bits from `bit` on, of the frame of so many octets; jam.
#[derive(Clone, Copy)]
pub enum Emitter {
    Silent,
    Sender { bit: u32, octets: u32 },
    Jammer,
}

// What station i is about to emit.
fn read_emitter(area: &[u8], i: usize) -> Emitter
    requires { (i < max_stations) × (area_size ≤ length area.now) }
    ensures { result ≡ emitter_at area.now i }
{
    let phase = area::read_word(area, i, area_record::words::PHASE);
    if phase < 3 {
        return Emitter::Silent;
    }
    if 4 < phase {
        return Emitter::Jammer;
    }
    let bit = area::read_word(area, i, area_record::words::PHASE_NUMBER);
    let octets = area::read_word(area, i, area_record::words::FRAME);
    Emitter::Sender { bit, octets }
}

// What the first n stations are about to emit: to be taken before the stations move on.
pub fn emitters(area: &[u8], n: usize) -> [Emitter; 16]
    requires { (n ≤ max_stations) × (area_size ≤ length area.now) }
    ensures { result ≡ emitters_of area.now n }
{
    let mut all = [Emitter::Silent; 16];
    for i in 0..n {
        all[i] = read_emitter(area, i);
    }
    all
}

// Notes the codes of what station i emits in so many steps, in its 256 places.
fn note_from(area: &[u8], steps: usize, i: usize, e: Emitter, codes: &mut [u8])
    requires { (i < max_stations) × (area_size ≤ length area.now) × (256 * i + ring ≤ length codes.old)
        × Enough steps e }
    ensures coded { CodedFrom codes.new steps i e area.now }
    ensures kept { Below (ring * i) codes.old codes.new }
{
    let at = area::RING * i;
    match e {
        Emitter::Silent => (),
        Emitter::Sender { bit, octets } => {
            fast_line::note_bits(area, i, octets as usize, bit as usize, steps, codes, at)
        }
        Emitter::Jammer => fast_line::note_jam(steps, codes, at),
    }
}

// The same of all n stations.
fn note_all(area: &[u8], n: usize, steps: usize, from: [Emitter; 16], codes: &mut [u8])
    requires { (n ≤ max_stations) × (area_size ≤ length area.now) × (ring * n ≤ length codes.old)
        × AllEnough steps from n }
    ensures { AllCoded codes.new steps from area.now n }
{
    for i in 0..n {
        let e = from[i];
        note_from(area, steps, i, e, codes);
    }
}

// Puts the symbols of station i that are on their way to station j after so many steps from t on.
fn push_from(area: &mut [u8], j: usize, t: usize, steps: usize, i: usize, e: Emitter, codes: &[u8])
    requires { Pushes j t steps i e area.old × (256 * i + ring ≤ length codes.now)
        × CodedFrom codes.now steps i e area.old }
    ensures { area.new ≡ pushed_from j t steps i e area.old }
{
    if i == j {
        return;
    }
    if let Emitter::Silent = e {
        return;
    }
    let p = area::read_position(area, i);
    let q = area::read_position(area, j);
    let d = area::apart(p, q) as usize;
    fast_line::push_codes(area, j, t, d, steps, codes, area::RING * i);
}

// Clears the places of so many steps from t on, all 256 at most. A line that holds nothing is left alone.
fn clear_line(area: &mut [u8], j: usize, t: usize, steps: usize)
    requires { (j < max_stations) × (area_size ≤ length area.old) × (t ≤ last_clock)
        × ((u : ℕ) → symbol_at area.old j u ≤ max_code) }
    ensures { area.new ≡ cleared t j (min steps ring) area.old }
{
    if fast_line::is_clear(area, j) {
        return;
    }
    let m = bus_quick::capped(steps, area::RING);
    fast_line::clear(area, j, t, m);
}

// Puts the symbols of all stations that are on their way to station j.
fn push_all(
    area: &mut [u8],
    n: usize,
    j: usize,
    t: usize,
    steps: usize,
    from: [Emitter; 16],
    codes: &[u8],
)
    requires { (j < n) × Settles n t steps from area.old × (ring * n ≤ length codes.now)
        × AllCoded codes.now steps from area.old n }
    ensures { area.new
        ≡ ways_to area.old (plan_by area.old from) steps j n area.old }
{
    for i in 0..n {
        let e = from[i];
        push_from(area, j, t, steps, i, e, codes);
    }
}

// The line of station j.
fn settle_line(
    area: &mut [u8],
    n: usize,
    j: usize,
    t: usize,
    steps: usize,
    from: [Emitter; 16],
    codes: &[u8],
)
    requires { (j < n) × Settles n t steps from area.old × (ring * n ≤ length codes.now)
        × AllCoded codes.now steps from area.old n }
    ensures { area.new
        ≡ line_done area.old (plan_by area.old from) steps j area.old }
{
    clear_line(area, j, t, steps);
    push_all(area, n, j, t, steps, from, codes);
}

// The lines of all n stations after so many steps from t on in which each emits what `from` says; `codes` has 256
// places for each of them.
fn settle_with(
    area: &mut [u8],
    n: usize,
    t: usize,
    steps: usize,
    from: [Emitter; 16],
    codes: &mut [u8],
)
    requires { Settles n t steps from area.old × (ring * n ≤ length codes.old) }
    ensures { area.new
        ≡ lines_done area.old (plan_by area.old from) steps n area.old }
{
    note_all(area, n, steps, from, codes);
    for j in 0..n {
        settle_line(area, n, j, t, steps, from, codes);
    }
}

// The same, with places of its own: half as many where few stations are.
pub fn settle_lines(area: &mut [u8], n: usize, t: usize, steps: usize, from: [Emitter; 16])
    requires { Settles n t steps from area.old }
    ensures { area.new
        ≡ lines_done area.old (plan_by area.old from) steps n area.old }
{
    if n <= 8 {
        let mut few = [0u8; 2048];
        settle_with(area, n, t, steps, from, &mut few);
        return;
    }
    let mut all = [0u8; 4096];
    settle_with(area, n, t, steps, from, &mut all);
}
