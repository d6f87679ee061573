// Reading a run input: sheet, draws, offers and bit times (document 01, "The run program").

#![tactic(auto)]

ghost use Rattle.std.specs.Prelude.{◌≡◌, ◌+◌, ◌*◌, ◌<◌, ◌≤◌, length};
ghost use Rattle.octets.specs.Base.{refusal_in};
ghost use Rattle.plan_read.specs.Plan.{offer_in, offer_data, offers_wrong, plan_wrong, last_refusal};
ghost use Rattle.plan_read.specs.Plan.{plan_as_read, plan_reading};
ghost use Rattle.plan_read.specs.PlanLaws.{rest_read, sheet_on};
ghost use Rattle.sheet_layout.specs.Limits.{max_stations};

use octets::Refusal;
use sheet_layout::Layout;

// A run input as read: the layout, D, where the draws begin, the number of offers, where the first begins, and the bit
// times.
#[derive(Clone, Copy)]
pub struct Plan {
    pub layout: Layout,
    pub depth: u32,
    pub drawn: usize,
    pub offers: u32,
    pub first: usize,
    pub times: u32,
}

// An offer's fixed fields. Its data follow them, `size` octets.
#[derive(Clone, Copy)]
pub struct Offered {
    pub time: u32,
    pub station: u32,
    pub destination: [u8; 6],
    pub value: u16,
    pub size: usize,
}

// The fixed fields of the offer that begins at `at`.
#[tactic(auto, unfolding(crate::specs::Plan::offer_in))]
pub fn read_offer(s: &[u8], at: usize) -> Offered
    requires { at + 15 ≤ length s.now }
    ensures { result ≡ offer_in s.now at }
{
    let time = octets_words::get32(s, at);
    let station = octets::wide(s[at + 4]);
    let destination = octets_copies::six(s, at + 5);
    let value = octets_words::get16(s, at + 11) as u16;
    let size = octets_words::get16(s, at + 13) as usize;
    Offered {
        time,
        station,
        destination,
        value,
        size,
    }
}

// The data of the offer that begins at `at`, as a part of the input itself.
#[tactic(auto, unfolding(crate::specs::Plan::offer_data))]
pub fn offer_data(s: &[u8], at: usize, size: usize) -> &[u8]
    requires { at + 15 + size ≤ length s.now }
    ensures { result.now ≡ offer_data s.now at size }
{
    let from = at + 15;
    let end = from + size;
    &s[from..end]
}

// Whether the times of the offers from octet `at` on fall, or the offers and the bit times are not just what is left.
#[tactic(auto, using(crate::specs::PlanLaws::walk_short, crate::specs::PlanLaws::walk_falls, crate::specs::PlanLaws::walk_cut, crate::specs::PlanLaws::walk_place, crate::specs::PlanLaws::walk_time, crate::specs::PlanLaws::walk_rising, crate::specs::PlanLaws::walk_end), unfolding(crate::specs::Plan::offer_place, crate::specs::Plan::time_before, octets::specs::Base::some))]
fn offers_wrong(s: &[u8], at: usize, count: usize) -> bool
    requires { at ≤ length s.now }
    ensures { result ≡ offers_wrong s.now at count }
{
    let n = s.len();
    let mut place = at;
    let mut last: u32 = 0;
    for _k in 0..count {
        if n - place < 15 {
            return true;
        }
        let time = octets_words::get32(s, place);
        if time < last {
            return true;
        }
        let size = octets_words::get16(s, place + 13) as usize;
        if n - place - 15 < size {
            return true;
        }
        place = place + 15 + size;
        last = time;
    }
    n - place != 4
}

// Refusal 16 of an input whose offer count stands at c.
#[tactic(auto, unfolding(crate::specs::Plan::plan_wrong))]
fn plan_wrong(s: &[u8], c: usize) -> bool
    requires { c ≤ length s.now }
    ensures { result ≡ plan_wrong s.now c }
{
    let n = s.len();
    if 16384 < n {
        return true;
    }
    if n - c < 2 {
        return true;
    }
    let offers = octets_words::get16(s, c);
    if 64 < offers {
        return true;
    }
    offers_wrong(s, c + 2, offers as usize)
}

// Refusals 16 and 13.
#[tactic(auto, using(crate::specs::PlanLaws::ends_so), unfolding(crate::specs::Plan::last_refusal))]
fn check_last(s: &[u8], c: usize) -> Result<(), Refusal>
    requires { c ≤ length s.now }
    ensures { refusal_in result ≡ last_refusal s.now c }
{
    if plan_wrong(s, c) {
        return Err(Refusal::PlanWrong);
    }
    if sheet_layout::LAST_CLOCK < octets_words::get32(s, s.len() - 4) {
        return Err(Refusal::ClockTop);
    }
    Ok(())
}

// The plan of an input whose draws begin at `at`, all there, and whose offer count stands at c.
#[tactic(auto, using(crate::specs::PlanLaws::count_room, crate::specs::PlanLaws::end_room, crate::specs::PlanLaws::end_place), unfolding(crate::specs::PlanLaws::rest_read))]
fn read_rest(s: &[u8], y: Layout, d: u32, at: usize, c: usize) -> Result<Plan, Refusal>
    requires { c ≤ length s.now }
    ensures { plan_reading result ≡ rest_read s.now y d at c }
{
    check_last(s, c)?;
    let offers = octets_words::get16(s, c);
    let times = octets_words::get32(s, s.len() - 4);
    Ok(Plan {
        layout: y,
        depth: d,
        drawn: at,
        offers,
        first: c + 2,
        times,
    })
}

// The plan of an input whose sheet has layout y and takes the first `used` octets.
#[tactic(auto, unfolding(crate::specs::PlanLaws::sheet_on, crate::specs::PlanLaws::rest_read, crate::specs::Plan::after_sheet, crate::specs::Plan::draws_wrong))]
fn after_sheet(s: &[u8], used: usize, y: Layout) -> Result<Plan, Refusal>
    requires { (used ≤ length s.now) × (y.count ≤ max_stations) }
    ensures { plan_reading result ≡ sheet_on s.now used y }
{
    let n = s.len();
    if n <= used {
        return Err(Refusal::Draws);
    }
    let d = octets::wide(s[used]);
    if octets::out_of(d, 1, 16) {
        return Err(Refusal::Draws);
    }
    let c = used + 1 + 2 * ((y.count as usize) * (d as usize));
    if n < c {
        return Err(Refusal::Draws);
    }
    read_rest(s, y, d, used + 1, c)
}

// The run input s, or a refusal (3 to 9, 16, 13).
pub fn read_plan(s: &[u8]) -> Result<Plan, Refusal>
    ensures { plan_reading result ≡ plan_as_read s.now }
{
    let front = sheet_read::read_sheet(s)?;
    after_sheet(s, front.used, front.layout)
}
