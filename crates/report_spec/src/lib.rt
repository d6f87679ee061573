// The pieces in which what is printed is handed out: where a run stands, and which piece is the next.

#![tactic(auto)]

ghost use Rattle.std.specs.Prelude.{◌≡◌, false, ◌-◌, ◌≤◌, length};
ghost use Rattle.octets.specs.Base.{pick, refusal_in};
ghost use Rattle.octets.specs.NumberLaws.{Octets};
ghost use Rattle.bus_spec.specs.Run.{stops};
ghost use Rattle.report_spec.specs.Printed.{lies};
ghost use Rattle.report_spec.specs.Pieces.{is_due, span_of, offer_short, move_refusal};
ghost use Rattle.area.specs.Offsets.{area_size};

use bus_spec::Events;
use octets::Refusal;

// The octets that `out` must have: no piece is longer.
pub const ROOM: usize = 2048;

// Where a run stands: the octet of the input at which the next offer begins, how many offers are left, how many bit
// times are left, and whether the last line is handed out.
#[derive(Clone, Copy)]
pub struct Progress {
    pub at: usize,
    pub offers: u32,
    pub times: u32,
    pub ended: bool,
}

// What a call hands out: a piece of text, whose octets stand at the front of `out`, and where the run stands after it.
#[derive(Clone, Copy)]
pub struct Handed {
    pub size: usize,
    pub progress: Progress,
}

// Whether some station has a late collision.
#[tactic(auto, using(crate::specs::PieceLaws::lates))]
fn is_late(events: [Events; 16]) -> bool
    ensures { result ≡ stops events }
{
    for e in events {
        if station_tally::ends_run(e.sent) {
            return true;
        }
    }
    false
}

// Whether the offer that begins at `at` lies within the input.
#[tactic(auto, using(crate::specs::PieceLaws::tests), unfolding(crate::specs::Printed::lies))]
fn offer_lies(input: &[u8], at: usize) -> bool
    ensures { result ≡ lies input.now at }
{
    let left = input.len().saturating_sub(at);
    15 <= left && octets_words::get16(input, at + 13) as usize <= left - 15
}

// Whether an offer is left and does not lie within the input.
#[tactic(auto, using(crate::specs::PieceLaws::tests), unfolding(crate::specs::Pieces::offer_short))]
fn offer_short(input: &[u8], g: Progress) -> bool
    ensures { result ≡ offer_short input.now g }
{
    g.offers != 0 && !offer_lies(input, g.at)
}

// Refusals 2, 13, 15 and 16.
#[tactic(auto, using(crate::specs::PieceLaws::checks), unfolding(crate::specs::Pieces::move_refusal))]
pub fn check(input: &[u8], area: &[u8], room: usize, g: Progress) -> Result<(), Refusal>
    requires { area_size ≤ length area.now }
    ensures value { refusal_in result ≡ move_refusal input.now area.now room g }
    ensures octets { Octets area.now }
{
    bus_spec::ready::check(area)?;
    if sheet_layout::LAST_CLOCK - area::read_clock(area) < g.times {
        return Err(Refusal::ClockTop);
    }
    if room < ROOM {
        return Err(Refusal::OutputShort);
    }
    if offer_short(input, g) {
        return Err(Refusal::PlanWrong);
    }
    Ok(())
}

// Whether the next offer's time is the clock.
#[tactic(auto, using(crate::specs::PieceLaws::times), unfolding(crate::specs::Pieces::is_due))]
pub fn is_due(input: &[u8], area: &[u8], g: Progress) -> bool
    requires { (area_size ≤ length area.now) × (offer_short input.now g ≡ false) }
    ensures { result ≡ is_due input.now g area.now }
{
    g.offers != 0 && octets_words::get32(input, g.at) == area::read_clock(area)
}

// The steps that may be made before the next offer.
#[tactic(auto, using(crate::specs::PieceLaws::times), unfolding(crate::specs::Pieces::span_of))]
pub fn span(input: &[u8], area: &[u8], g: Progress) -> u32
    requires { (area_size ≤ length area.now) × (offer_short input.now g ≡ false) }
    ensures { result ≡ span_of input.now g area.now }
{
    if g.offers == 0 {
        return g.times;
    }
    let time = octets_words::get32(input, g.at);
    let clock = area::read_clock(area);
    if time <= clock {
        return g.times;
    }
    g.times.min(time - clock)
}

// The bit times left of n after some steps: none after a late collision.
pub fn times_left(events: [Events; 16], steps: u32, n: u32) -> u32
    requires { steps ≤ n }
    ensures { result ≡ pick (stops events) 0 (n - steps) }
{
    if is_late(events) { 0 } else { n - steps }
}
