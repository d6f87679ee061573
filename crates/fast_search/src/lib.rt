// How many of the next steps are silence, on the area: no station starts, and nothing is on its way.

#![tactic(auto)]

ghost use Rattle.std.specs.Prelude.{◌≡◌, ◌+◌, ◌<◌, ◌≤◌, length};
ghost use Rattle.octets.specs.Base.{some};
ghost use Rattle.area.specs.Area.{clock_at, figures_at};
ghost use Rattle.bus_spec.specs.Ready.{Ready};
ghost use Rattle.fast_silence.specs.Bound.{stations_rest, lines_rest, line_rests, worth, silent_for};
ghost use Rattle.fast_search.specs.SearchLaws.{emitted_at, AtMost};
ghost use Rattle.sheet_layout.specs.Limits.{last_clock, max_stations};
ghost use Rattle.area.specs.Offsets.{area_size, ring};

use sheet_layout::Figures;

// Whether station i emitted in the step before.
#[tactic(auto, using(crate::specs::SearchLaws::emitted_is))]
fn emitted(area: &[u8], i: usize) -> bool
    requires { (i < max_stations) × (area_size ≤ length area.now) }
    ensures { result ≡ emitted_at area.now i }
{
    area::read_word(area, i, area_record::words::EMITTED) == 1
}

// Whether one of n stations did.
#[tactic(auto, using(crate::specs::SearchLaws::emitted_none, crate::specs::SearchLaws::emitted_more, crate::specs::SearchLaws::emitted_hit, crate::specs::SearchLaws::emitted_end))]
fn any_emitted(area: &[u8], n: usize) -> bool
    requires { (n ≤ max_stations) × (area_size ≤ length area.now) }
    ensures { result ≡ some (emitted_at area.now) n }
{
    for i in 0..n {
        if emitted(area, i) {
            return true;
        }
    }
    false
}

// So many steps, or none where they are too few to be worth a jump.
#[tactic(auto, unfolding(fast_silence::specs::Bound::worth))]
fn worth(steps: u32) -> u32
    ensures { result ≡ worth steps }
{
    if steps < 5 { 0 } else { steps }
}

// What n stations allow of m steps.
#[tactic(auto, using(crate::specs::SearchLaws::stations_none, crate::specs::SearchLaws::stations_more))]
fn stations_rest(area: &[u8], n: usize, f: Figures, m: u32) -> u32
    requires { (n ≤ max_stations) × (area_size ≤ length area.now) × (f.gap1 + f.gap2 < 65536)
        × (f ≡ figures_at area.now) }
    ensures { result ≡ worth (stations_rest area.now m n) }
{
    let mut left = m;
    for i in 0..n {
        if left < 5 {
            return 0;
        }
        let s = area::read_station(area, i);
        left = fast_rest::least_rest(f, left, s);
    }
    worth(left)
}

// No less than any code in the line of station i: found without a branch.
#[tactic(auto, using(crate::specs::SearchLaws::most_none, crate::specs::SearchLaws::most_more, crate::specs::SearchLaws::most_end))]
fn line_top(area: &[u8], i: usize) -> u8
    requires { (i < max_stations) × (area_size ≤ length area.now) }
    ensures { AtMost result area.now i ring }
{
    let mut top: u8 = 0;
    for u in 0..area::RING {
        top = top.max(area_line::read_symbol(area, i, u));
    }
    top
}

// The steps of m before something reaches station i.
#[tactic(auto, using(crate::specs::SearchLaws::line_clear, crate::specs::SearchLaws::used_none, crate::specs::SearchLaws::used_more, crate::specs::SearchLaws::used_hit, crate::specs::SearchLaws::used_end))]
fn line_rests(area: &[u8], i: usize, t: u32, m: u32) -> u32
    requires { (i < max_stations) × (area_size ≤ length area.now) × (t + m ≤ last_clock) × (t ≡ clock_at area.now) }
    ensures { result ≡ line_rests area.now m i }
{
    if line_top(area, i) == 0 {
        return m;
    }
    for s in 0..m.min(area::RING as u32) {
        if area_line::read_symbol(area, i, (t + s) as usize) != 0 {
            return s;
        }
    }
    m
}

// What the lines to n stations allow of m steps.
#[tactic(auto, using(crate::specs::SearchLaws::lines_none, crate::specs::SearchLaws::lines_more))]
fn lines_rest(area: &[u8], n: usize, t: u32, m: u32) -> u32
    requires { (n ≤ max_stations) × (area_size ≤ length area.now) × (t + m ≤ last_clock) × (t ≡ clock_at area.now) }
    ensures { result ≡ worth (lines_rest area.now m n) }
{
    let mut left = m;
    for i in 0..n {
        if left < 5 {
            return 0;
        }
        left = line_rests(area, i, t, left);
    }
    worth(left)
}

// How many of the next m steps may be made as one jump.
#[tactic(auto, using(bus_spec::specs::Ready::ready_few, crate::specs::SearchLaws::silent_few, crate::specs::SearchLaws::silent_emitted, crate::specs::SearchLaws::silent_is, crate::specs::SearchLaws::silent_within, crate::specs::SearchLaws::ready_gap))]
pub fn silent_for(area: &[u8], m: u32) -> u32
    requires { (area_size ≤ length area.now) × (clock_at area.now + m ≤ last_clock) × Ready area.now }
    ensures { result ≡ silent_for m area.now }
{
    if m < 5 {
        return 0;
    }
    let n = area::read_count(area) as usize;
    if any_emitted(area, n) {
        return 0;
    }
    let f = area::read_figures(area);
    let left = stations_rest(area, n, f, m);
    lines_rest(area, n, area::read_clock(area), left)
}
