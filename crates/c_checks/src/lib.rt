// The calls of the C interface that only look: a reception's status, the checks of a work area and of a layout, a
// run input as it is read, and the shortest sheet. Their answers are as in `c_calls`.

#![tactic(auto)]

ghost use Rattle.std.specs.Prelude.{◌≡◌, ◌<◌, ◌≤◌, Ok, length};
ghost use Rattle.plan_read.specs.Plan.{plan_reading};
ghost use Rattle.c_words.specs.Answers.{reply_of, sheet_out, Below};
ghost use Rattle.c_calls.specs.Calls.{given};
ghost use Rattle.c_checks.specs.CheckCalls.{reception_given, area_given, figures_written, tap_written, layout_written};
ghost use Rattle.c_checks.specs.CheckCalls.{layout_given, plan_words, plan_given, write_given};
ghost use Rattle.sheet_layout.specs.Limits.{max_stations};

use c_calls::check_room;
use c_words::numbers;
use octets::Refusal;
use plan_read::Plan;
use sheet_layout::{Figures, Layout, Tap};

// The status of a reception: 0 to 5. Refusal 5.
#[tactic(auto, using(c_words::specs::AnswersLaws::replies), unfolding(crate::specs::CheckCalls::reception_given))]
pub fn reception_status(frame: &[u8], excess: u32, spoiled: u32) -> Result<u32, Refusal>
    ensures number { reply_of result ≡ reception_given frame.now excess spoiled }
    ensures told { Below result }
{
    let s = frame_open::reception_status(frame, excess, spoiled != 0)?;
    Ok(numbers::status_code(s))
}

// Checks a work area: 0. Refusals 1, 2.
#[tactic(auto, using(c_words::specs::AnswersLaws::replies), unfolding(crate::specs::CheckCalls::area_given))]
pub fn check_area(area: &[u8]) -> Result<u32, Refusal>
    ensures number { reply_of result ≡ area_given area.now }
    ensures told { Below result }
{
    area_check::check(area)?;
    Ok(0)
}

// The figures, each in a word; the last stands after the stations.
#[tactic(auto, unfolding(crate::specs::CheckCalls::figures_written))]
fn read_figures(s: &[u8]) -> Figures
    requires { sheet_out ≤ length s.now }
    ensures { result ≡ figures_written s.now }
{
    Figures {
        slot: octets_words::get32(s, 0),
        gap1: octets_words::get32(s, 4),
        gap2: octets_words::get32(s, 8),
        jam: octets_words::get32(s, 12),
        limit: octets_words::get32(s, 16),
        backoff: octets_words::get32(s, 20),
        ends: octets_words::get32(s, 192),
    }
}

// The station at place i.
#[tactic(auto, unfolding(crate::specs::CheckCalls::tap_written))]
fn read_tap(s: &[u8], i: usize) -> Tap
    requires { (i < max_stations) × (sheet_out ≤ length s.now) }
    ensures { result ≡ tap_written s.now i }
{
    Tap {
        position: octets_words::get32(s, 32 + 10 * i),
        address: octets_copies::six(s, 36 + 10 * i),
    }
}

// A layout as `c_tables::write_layout` writes one.
#[tactic(auto, unfolding(crate::specs::CheckCalls::layout_written))]
fn read_layout(s: &[u8]) -> Layout
    requires { sheet_out ≤ length s.now }
    ensures { result ≡ layout_written s.now }
{
    let figures = read_figures(s);
    let stations = sheet_layout::taps(sheet_layout::MAX_STATIONS, |i| read_tap(s, i));
    let count = octets_words::get32(s, 24);
    Layout {
        figures,
        count,
        stations,
    }
}

// Checks a layout: 0. Refusals 3, 5 to 8.
#[tactic(auto, using(c_words::specs::AnswersLaws::replies), unfolding(crate::specs::CheckCalls::layout_given))]
pub fn check_layout(layout: &[u8]) -> Result<u32, Refusal>
    ensures number { reply_of result ≡ layout_given layout.now }
    ensures told { Below result }
{
    if layout.len() < c_words::SHEET_OUT {
        return Err(Refusal::SheetShort);
    }
    sheet_check::check(read_layout(layout))?;
    Ok(0)
}

// D, where the draws begin, the number of offers, where the first begins, the bit times.
#[tactic(auto, unfolding(crate::specs::CheckCalls::plan_words))]
fn plan_words(p: Plan) -> [u32; 5]
    requires { (p.drawn < 4294967296) × (p.first < 4294967296) }
    ensures { result ≡ plan_words (plan_reading (Ok p)) }
{
    [p.depth, p.drawn as u32, p.offers, p.first as u32, p.times]
}

// Reads a run input: 0. Refusals 3 to 9, 13, 15, 16.
#[tactic(auto, using(c_words::specs::AnswersLaws::replies), unfolding(crate::specs::CheckCalls::plan_given))]
pub fn read_plan(input: &[u8], out: &mut [u8]) -> Result<u32, Refusal>
    ensures number { given (reply_of result) out.new ≡ plan_given input.now out.old }
    ensures told { Below result }
{
    let plan = plan_read::read_plan(input)?;
    check_room(out, c_words::PLAN_OUT)?;
    let words = plan_words(plan);
    c_tables::write_layout(out, plan.layout);
    octets_words::store_words(out, c_words::SHEET_OUT, &words);
    Ok(0)
}

// Writes the shortest sheet that reads as a sheet does: its octets. Refusals 3 to 8, 15.
#[tactic(auto, using(c_words::specs::AnswersLaws::replies), unfolding(crate::specs::CheckCalls::write_given))]
pub fn write_sheet(sheet: &[u8], out: &mut [u8]) -> Result<u32, Refusal>
    ensures number { given (reply_of result) out.new ≡ write_given sheet.now out.old }
    ensures told { Below result }
{
    let read = sheet_read::read_sheet(sheet)?;
    sheet_write::write_sheet(read.layout, out)
}
