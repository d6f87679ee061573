// The run program on lent octets: what it prints for an input, handed out piece by piece (document 01, "The run
// program"). The first piece is `report_begin::begin`'s.

#![tactic(auto)]

ghost use Rattle.std.specs.Prelude.{◌≡◌, true, false, ◌<◌, ◌≤◌, length};
ghost use Rattle.octets.specs.Base.{outcome, done_answer, refusal_in};
ghost use Rattle.bus_spec.specs.RunLaws.{Runnable};
ghost use Rattle.report_text.specs.Text.{written, puts};
ghost use Rattle.report_spec.specs.Printed.{lies, made, offer_line};
ghost use Rattle.report_spec.specs.Pieces.{last_piece, offer_piece, step_piece, handed, handing, given, offer_short};
ghost use Rattle.report_spec.specs.Pieces.{advanced_on, advanced};
ghost use Rattle.area.specs.Offsets.{area_size};

use octets::Refusal;
use report_spec::{Handed, Progress};

// The last line.
#[tactic(auto, unfolding(report_spec::specs::Pieces::last_piece, report_text::specs::Text::end_line))]
fn end_piece(area: &[u8], out: &mut [u8], g: Progress) -> Handed
    requires { (area_size ≤ length area.now) × (2048 ≤ length out.old) }
    ensures { handed result area.now out.new
        ≡ given out.old (last_piece g area.now) }
{
    Handed {
        size: report_text::put_counted(out, 0, b"end", area::read_clock(area), b'\n'),
        progress: Progress {
            times: 0,
            ended: true,
            ..g
        },
    }
}

// Makes the offer that begins at `at`.
#[tactic(auto, using(report_spec::specs::PieceLaws::offers), unfolding(report_spec::specs::Printed::made, plan_read::specs::Plan::offer_in))]
fn make_offer(input: &[u8], area: &mut [u8], at: usize) -> Result<(), Refusal>
    requires { lies input.now at ≡ true }
    ensures { outcome (done_answer result) area.new ≡ made input.now at area.old }
{
    let o = plan_read::read_offer(input, at);
    let data = plan_read::offer_data(input, at, o.size);
    bus_offer::offer(area, o.station as usize, o.destination, o.value, data)
}

// The line of the offer that begins at `at`, where it is refused; none where it is made.
#[tactic(auto, using(report_spec::specs::PieceLaws::offers))]
fn put_offer(input: &[u8], at: usize, made: Result<(), Refusal>, out: &mut [u8]) -> usize
    requires { (lies input.now at ≡ true) × (2048 ≤ length out.old) }
    ensures { written result out.new ≡ puts out.old 0 (offer_line input.now at (refusal_in made)) }
{
    match made {
        Ok(()) => 0,
        Err(e) => {
            let time = octets_words::get32(input, at);
            let station = octets::wide(input[at + 4]);
            report_text::put_line(out, 0, time, station, b"refused", e.number())
        }
    }
}

// The next offer is made.
#[tactic(auto, using(report_spec::specs::PieceLaws::offers), unfolding(report_spec::specs::Pieces::offer_piece, report_spec::specs::Printed::offer_text))]
fn offer_piece(input: &[u8], area: &mut [u8], out: &mut [u8], g: Progress) -> Handed
    requires { (lies input.now g.at ≡ true) × (0 < g.offers) × (2048 ≤ length out.old) }
    ensures { handed result area.new out.new
        ≡ given out.old (offer_piece input.now g area.old) }
{
    let size = octets_words::get16(input, g.at + 13) as usize;
    let made = make_offer(input, area, g.at);
    Handed {
        size: put_offer(input, g.at, made, out),
        progress: Progress {
            at: g.at + 15 + size,
            offers: g.offers - 1,
            times: g.times,
            ended: false,
        },
    }
}

// Steps are made until one has an event or an offer is due, and the last one's lines handed out.
#[tactic(auto, using(report_spec::specs::PieceLaws::steps))]
fn step_piece(input: &[u8], area: &mut [u8], out: &mut [u8], g: Progress) -> Handed
    requires area_size_in_bounds { (area_size ≤ length area.old) × Runnable g.times area.old × (0 < g.times) }
    requires g_value { (offer_short input.now g ≡ false) × (2048 ≤ length out.old) }
    ensures { handed result area.new out.new
        ≡ given out.old (step_piece input.now g area.old) }
{
    let n = report_spec::span(input, area, g);
    let s = fast_advance::until::until_event(area, n);
    Handed {
        size: report_lines::put_step(out, area::read_clock(area) - 1, s.events),
        progress: Progress {
            at: g.at,
            offers: g.offers,
            times: report_spec::times_left(s.events, s.steps, g.times),
            ended: false,
        },
    }
}

// The next piece, on an area of just the octets that one must have.
#[tactic(auto, using(report_spec::specs::PieceLaws::advances), unfolding(report_spec::specs::Pieces::advanced_on))]
fn advance_on(input: &[u8], area: &mut [u8], out: &mut [u8], g: Progress) -> Result<Handed, Refusal>
    requires { area_size ≤ length area.old }
    ensures { handing g result area.new out.new
        ≡ advanced_on input.now area.old out.old g }
{
    report_spec::check(input, area, out.len(), g)?;
    if g.ended {
        return Ok(Handed {
            size: 0,
            progress: g,
        });
    }
    if g.times == 0 {
        return Ok(end_piece(area, out, g));
    }
    if report_spec::is_due(input, area, g) {
        return Ok(offer_piece(input, area, out, g));
    }
    Ok(step_piece(input, area, out, g))
}

// Hands out the next piece of what is printed for the input, where the run stands at g. Refusals 1, 2, 13, 15, 16.
#[tactic(auto, using(report_spec::specs::PieceLaws::fronts), unfolding(report_spec::specs::Pieces::advanced))]
pub fn advance(
    input: &[u8],
    area: &mut [u8],
    out: &mut [u8],
    g: Progress,
) -> Result<Handed, Refusal>
    ensures { handing g result area.new out.new
        ≡ advanced input.now area.old out.old g }
{
    if area.len() < area::AREA {
        return Err(Refusal::AreaShort);
    }
    advance_on(input, &mut area[..area::AREA], out, g)
}
