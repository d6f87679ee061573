// The first piece for a run input: a fresh start and the first line, or the line of a refusal.

#![tactic(auto)]

ghost use Rattle.std.specs.Prelude.{◌≡◌, ◌<◌, ◌≤◌, length};
ghost use Rattle.octets.specs.Base.{refusal_number};
ghost use Rattle.report_text.specs.Text.{written, puts, refused_line};
ghost use Rattle.plan_read.specs.Plan.{plan_as_read, plan_reading};
ghost use Rattle.report_spec.specs.Printed.{first_text};
ghost use Rattle.report_spec.specs.Pieces.{moved, handed, handing, given, no_progress, start_piece, first_piece, begun};
ghost use Rattle.area.specs.Offsets.{area_size};
ghost use Rattle.sheet_layout.specs.Limits.{max_stations};

use octets::Refusal;
use plan_read::Plan;
use report_spec::{Handed, Progress};
use sheet_layout::Layout;

// That `out` has room for a piece stands in each contract here and in `report_next`. A struct around the lent output
// would be taken apart again at each call of `report_text`, which writes into a slice.

// The first line.
#[tactic(auto, unfolding(report_spec::specs::Printed::first_text))]
fn put_heading(out: &mut [u8], y: Layout) -> usize
    requires { (0 < y.count) × (y.count ≤ max_stations) × (2048 ≤ length out.old) }
    ensures { written result out.new ≡ puts out.old 0 (first_text y) }
{
    if sheet_fit::fits_well(y) {
        return report_text::put_first(out, y.count, b"fit yes\n");
    }
    report_text::put_first(out, y.count, b"fit no\n")
}

// The first piece of an input that is refused: nothing is to come after it.
#[tactic(auto, unfolding(report_text::specs::Text::refused_line))]
fn refused_piece(area: &[u8], out: &mut [u8], e: Refusal) -> Handed
    requires { 2048 ≤ length out.old }
    ensures { handed result area.now out.new
        ≡ given out.old (moved (refused_line (refusal_number e)) no_progress area.now) }
{
    Handed {
        size: report_text::put_counted(out, 0, b"refused", e.number(), b'\n'),
        progress: Progress {
            at: 0,
            offers: 0,
            times: 0,
            ended: true,
        },
    }
}

// The first piece of an input that is read: a fresh start.
fn start_piece(input: &[u8], area: &mut [u8], out: &mut [u8], p: Plan) -> Handed
    requires p_value { plan_reading (Ok p) ≡ plan_as_read input.now }
    requires area_size_in_bounds { (area_size ≤ length area.old) × (2048 ≤ length out.old) }
    ensures { handed result area.new out.new
        ≡ given out.old (start_piece input.now (plan_reading (Ok p)) area.old) }
{
    let y = p.layout;
    let draws = plan_draws::read_draws(input, p.drawn, y.count as usize, p.depth as usize);
    bus_start::write_fresh(area, y, p.depth, draws);
    Handed {
        size: put_heading(out, y),
        progress: Progress {
            at: p.first,
            offers: p.offers,
            times: p.times,
            ended: false,
        },
    }
}

#[tactic(auto, using(report_spec::specs::PieceLaws::refusals), unfolding(report_spec::specs::Pieces::first_piece))]
fn begin_on(input: &[u8], area: &mut [u8], out: &mut [u8]) -> Handed
    requires { (area_size ≤ length area.old) × (2048 ≤ length out.old) }
    ensures { handed result area.new out.new
        ≡ given out.old (first_piece input.now area.old) }
{
    match plan_read::read_plan(input) {
        Ok(p) => start_piece(input, area, out, p),
        Err(e) => refused_piece(area, out, e),
    }
}

// Reads the run input, makes a fresh start and hands out the first piece: the first line, or `refused n`. Refusals 1,
// 15.
#[tactic(auto, using(report_spec::specs::PieceLaws::fronts), unfolding(report_spec::specs::Pieces::begun))]
pub fn begin(input: &[u8], area: &mut [u8], out: &mut [u8]) -> Result<Handed, Refusal>
    ensures { handing no_progress result area.new out.new
        ≡ begun input.now area.old out.old }
{
    if area.len() < area::AREA {
        return Err(Refusal::AreaShort);
    }
    if out.len() < report_spec::ROOM {
        return Err(Refusal::OutputShort);
    }
    Ok(begin_on(input, &mut area[..area::AREA], out))
}
