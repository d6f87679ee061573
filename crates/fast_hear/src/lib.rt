// What a station hears of a list of stretches, the newest last, by scans of the list: the next one to be heard, and
// how long what is heard now lasts.

#![tactic(auto)]

ghost use Rattle.std.specs.Prelude.{◌≡◌, ◌+◌, ◌<◌, ◌≤◌, ltb, length};
ghost use Rattle.octets.specs.Base.{pick};
ghost use Rattle.area.specs.Area.{position_at, space_at};
ghost use Rattle.fast_list.specs.Reaching.{next_in, reach_in};
ghost use Rattle.fast_hear.specs.Listed.{list_of, Reaches, Fits};
ghost use Rattle.fast_hear.specs.ListedLaws.{reach_of};
ghost use Rattle.fast_hear.specs.Sound.{Sounds};
ghost use Rattle.area.specs.Offsets.{area_size};
ghost use Rattle.sheet_layout.specs.Limits.{max_stations};

use fast_list::Stretch;

// Whether a stretch is heard from some step on, and the step up to which that stays.
#[derive(Clone, Copy)]
pub struct Heard {
    pub on: bool,
    pub until: u32,
}

// The step in which a stretch begins to be heard at station j, which is at p.
#[tactic(auto, using(crate::specs::ListedLaws::reaches_who, crate::specs::ListedLaws::reaches_sum, crate::specs::ListedLaws::arrival_is))]
fn arrival(area: &[u8], stretch: Stretch, j: usize, p: u32) -> u32
    requires { (area_size ≤ length area.now) × Reaches area.now stretch j × (p ≡ position_at area.now j) }
    ensures { result ≡ stretch.from + space_at area.now stretch.who j }
{
    let q = area::read_position(area, stretch.who);
    let d = area::apart(q, p);
    stretch.from + d
}

// That step, if it is after s; else m.
#[tactic(auto, using(std::proofs::lemmas::Bool::Decides::nat_tests))]
fn after(at: u32, s: u32, m: u32) -> u32
    ensures { result ≡ pick (ltb s at) at m }
{
    if s < at { at } else { m }
}

// The first step after s, of those up to m, in which a stretch begins to be heard at station j.
fn next_heard(area: &[u8], list: &[Stretch], j: usize, s: u32, m: u32) -> u32
    requires area_size_in_bounds { (area_size ≤ length area.now) × (j < max_stations) × Fits area.now list.now j }
    requires s_lt_m { s < m }
    ensures value { result ≡ next_in (space_at area.now) (list_of list.now (length list.now)) j s m }
    ensures bound { s < result }
{
    let p = area::read_position(area, j);
    let mut r = m;
    for stretch in list {
        let at = arrival(area, *stretch, j, p);
        r = r.min(after(at, s, m));
    }
    r
}

// The end of a stretch at station j, which is at p, if it is heard there in step s; else s.
fn reach(area: &[u8], stretch: Stretch, j: usize, p: u32, s: u32) -> u32
    requires { (area_size ≤ length area.now) × Reaches area.now stretch j × (p ≡ position_at area.now j) }
    ensures { result ≡ reach_of area.now stretch j s }
{
    if stretch.who == j {
        return s;
    }
    let at = arrival(area, stretch, j, p);
    if s < at {
        return s;
    }
    let end = at + stretch.bits + stretch.jam;
    s.max(end)
}

// The step after the last one of those stretches that are heard at station j in step s; s where none is.
fn sound_until(area: &[u8], list: &[Stretch], j: usize, s: u32) -> u32
    requires { (area_size ≤ length area.now) × (j < max_stations) × Fits area.now list.now j }
    ensures { result ≡ reach_in (space_at area.now) (list_of list.now (length list.now)) j s }
{
    let p = area::read_position(area, j);
    let mut r = s;
    for stretch in list {
        r = r.max(reach(area, *stretch, j, p, s));
    }
    r
}

// Whether a stretch is heard at station j in step s, and up to where that stays, m at most where none is.
#[tactic(auto, using(crate::specs::Sound::sound_on, crate::specs::Sound::sound_off))]
pub fn sound(area: &[u8], list: &[Stretch], j: usize, s: u32, m: u32) -> Heard
    requires area_size_in_bounds { (area_size ≤ length area.now) × (j < max_stations) × Fits area.now list.now j }
    requires s_lt_m { s < m }
    ensures value { Sounds area.now list.now j s result.until result.on }
    ensures bound { s < result.until }
{
    let end = sound_until(area, list, j, s);
    if s < end {
        return Heard {
            on: true,
            until: end,
        };
    }
    let until = next_heard(area, list, j, s, m);
    Heard { on: false, until }
}
