// A fresh start: zeros, and over them the layout, D and the draws.

#![tactic(auto)]

ghost use Rattle.std.specs.Prelude.{◌≡◌, ◌+◌, ◌*◌, ◌<◌, ◌≤◌, length};
ghost use Rattle.octets.specs.Base.{done_answer, outcome};
ghost use Rattle.bus_start.specs.Fresh.{with_figures, with_tap, with_taps, with_depth, with_draw, with_row, with_draws};
ghost use Rattle.bus_start.specs.Fresh.{with_plan, fresh};
ghost use Rattle.bus_start.specs.Start.{started};
ghost use Rattle.area.specs.Offsets.{area_size};
ghost use Rattle.sheet_layout.specs.Limits.{max_stations, max_draws};

use octets::Refusal;
use sheet_layout::{Figures, Layout, Tap};

// The figures, N among them.
#[tactic(auto, unfolding(crate::specs::Fresh::with_figures))]
fn write_figures(area: &mut [u8], f: Figures, count: u32)
    requires { area_size ≤ length area.old }
    ensures { area.new ≡ with_figures f count area.old }
{
    let words = [
        f.slot, f.gap1, f.gap2, f.jam, f.limit, f.backoff, count, f.ends,
    ];
    octets_words::store_words(area, area::LAYOUT_AT, &words);
}

#[tactic(auto, unfolding(crate::specs::Fresh::with_tap))]
fn write_tap(area: &mut [u8], i: usize, t: Tap)
    requires { (i < max_stations) × (area_size ≤ length area.old) }
    ensures { area.new ≡ with_tap t.position t.address i area.old }
{
    octets_words::put32(area, area::TAPS_AT + 16 * i, t.position);
    octets_copies::store(area, area::ADDRESSES_AT + 16 * i, &t.address);
}

// The first n stations.
#[tactic(auto, using(crate::specs::FreshLaws::taps_none, crate::specs::FreshLaws::taps_more))]
fn write_taps(area: &mut [u8], taps: [Tap; 16], n: usize)
    requires { (n ≤ max_stations) × (area_size ≤ length area.old) }
    ensures { area.new ≡ with_taps taps n area.old }
{
    for i in 0..n {
        write_tap(area, i, taps[i]);
    }
}

#[tactic(auto, unfolding(crate::specs::Fresh::with_depth))]
fn write_depth(area: &mut [u8], depth: u32)
    requires { area_size ≤ length area.old }
    ensures { area.new ≡ with_depth depth area.old }
{
    octets_words::put32(area, area::DEPTH_AT, depth);
}

#[tactic(auto, unfolding(crate::specs::Fresh::with_draw))]
fn write_draw(area: &mut [u8], i: usize, k: usize, v: u16)
    requires { (i < max_stations) × (k < max_draws) × (area_size ≤ length area.old) }
    ensures { area.new ≡ with_draw i k v area.old }
{
    octets_words::put16(area, area::DRAWS_AT + 32 * i + 2 * k, v);
}

// The first draws of station i, as many as there are.
#[tactic(auto, using(crate::specs::FreshLaws::row_none, crate::specs::FreshLaws::row_more))]
fn write_row(area: &mut [u8], i: usize, depth: usize, row: [u16; 16])
    requires { (i < max_stations) × (depth ≤ max_draws) × (area_size ≤ length area.old) }
    ensures { area.new ≡ with_row row i depth area.old }
{
    for k in 0..depth {
        write_draw(area, i, k, row[k]);
    }
}

#[tactic(auto, using(crate::specs::FreshLaws::draws_none, crate::specs::FreshLaws::draws_more))]
fn write_draws(area: &mut [u8], n: usize, depth: usize, draws: [[u16; 16]; 16])
    requires { (n ≤ max_stations) × (depth ≤ max_draws) × (area_size ≤ length area.old) }
    ensures { area.new ≡ with_draws draws n depth area.old }
{
    for i in 0..n {
        write_row(area, i, depth, draws[i]);
    }
}

#[tactic(auto, unfolding(crate::specs::Fresh::with_plan))]
fn write_plan(area: &mut [u8], y: Layout, depth: u32, draws: [[u16; 16]; 16])
    requires { (y.count ≤ max_stations) × (depth ≤ max_draws) × (area_size ≤ length area.old) }
    ensures { area.new ≡ with_plan y depth draws area.old }
{
    let figures = y.figures;
    let taps = y.stations;
    let n = y.count as usize;
    write_figures(area, figures, y.count);
    write_taps(area, taps, n);
    write_depth(area, depth);
    write_draws(area, n, depth as usize, draws);
}

// A fresh start on this layout, with D and the draws of each station.
#[tactic(auto, unfolding(crate::specs::Fresh::fresh))]
pub fn write_fresh(area: &mut [u8], y: Layout, depth: u32, draws: [[u16; 16]; 16])
    requires { (y.count ≤ max_stations) × (depth ≤ max_draws) × (area_size ≤ length area.old) }
    ensures { area.new ≡ fresh y depth draws area.old }
{
    octets_copies::blank(area, area::AREA);
    write_plan(area, y, depth, draws);
}

// A fresh start on this layout, with D and the draws of each station. Refusals 1, 5 to 9.
#[tactic(auto, using(crate::specs::StartLaws::starting), unfolding(crate::specs::Start::started))]
pub fn start(area: &mut [u8], y: Layout, depth: u32, draws: [[u16; 16]; 16]) -> Result<(), Refusal>
    ensures { outcome (done_answer result) area.new ≡ started area.old y depth draws }
{
    if area.len() < area::AREA {
        return Err(Refusal::AreaShort);
    }
    sheet_check::check(y)?;
    if octets::out_of(depth, 1, 16) {
        return Err(Refusal::Draws);
    }
    write_fresh(area, y, depth, draws);
    Ok(())
}
