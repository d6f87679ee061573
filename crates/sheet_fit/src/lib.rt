// Whether a layout fits (document 01, "The sheet"), and how far its last tap may move outward.

#![tactic(auto)]

ghost use Rattle.std.specs.Prelude.{◌≡◌, true, ◌<◌, ◌≤◌};
ghost use Rattle.sheet_layout.specs.Layout.{gap_of, span_of, fits_well};
ghost use Rattle.sheet_layout.specs.Check.{refusal_of};
ghost use Rattle.sheet_layout.specs.Fit.{fit_answer, fit_of};
ghost use Rattle.sheet_layout.specs.Limits.{max_stations};
ghost use Rattle.sheet_fit.specs.Margin.{outward_of, margin_answer, margin_of};

use octets::Refusal;
use sheet_layout::{Figures, Layout};

// Last position less first.
#[tactic(auto, unfolding(sheet_layout::specs::Layout::span_of, sheet_layout::specs::Layout::tap_at))]
fn span(y: Layout) -> u32
    requires { (0 < y.count) × (y.count ≤ max_stations) }
    ensures { result ≡ span_of y }
{
    let n = y.count as usize;
    let first = y.stations[0];
    let last = y.stations[n - 1];
    last.position.saturating_sub(first.position)
}

// gap1 and gap2 together.
#[tactic(auto, unfolding(sheet_layout::specs::Layout::gap_of))]
fn gap(f: Figures) -> u64
    ensures value { result ≡ gap_of f }
    ensures small { result < 8589934592 }
{
    f.gap1 as u64 + f.gap2 as u64
}

// Whether a layout of 1 to 16 stations fits.
#[tactic(auto, unfolding(sheet_layout::specs::Layout::fits_well))]
pub fn fits_well(y: Layout) -> bool
    requires { (0 < y.count) × (y.count ≤ max_stations) }
    ensures { result ≡ fits_well y }
{
    let f = y.figures;
    let g = gap(f);
    let round = 2 * (span(y) as u64) + g;
    (round <= f.slot as u64) & (g <= 64 + f.jam as u64)
}

// Whether a layout fits, or which of the checks 5 to 8 refuses it.
#[tactic(auto, using(sheet_layout::specs::CheckLaws::counted), unfolding(sheet_layout::specs::Fit::fit_of))]
pub fn fits(y: Layout) -> Result<bool, Refusal>
    ensures { fit_answer result ≡ fit_of y }
{
    sheet_check::check(y)?;
    Ok(fits_well(y))
}

// Half of what is left of the slot, or what is left of the largest position.
#[tactic(auto, unfolding(crate::specs::Margin::outward_of, sheet_layout::specs::Layout::tap_at))]
fn outward(y: Layout) -> u32
    requires { (0 < y.count) × (y.count ≤ max_stations) × (refusal_of y ≡ 0) × (fits_well y ≡ true) }
    ensures { result ≡ outward_of y }
{
    let f = y.figures;
    let round = 2 * (span(y) as u64) + gap(f);
    let half = (f.slot as u64 - round) / 2;
    let last = y.stations[y.count as usize - 1];
    let end = sheet_layout::MAX_POSITION - last.position;
    half.min(end as u64) as u32
}

// How far the last tap of a layout may move outward so that it still fits, none where it does not fit; or which of the
// checks 5 to 8 refuses it.
#[tactic(auto, using(sheet_layout::specs::CheckLaws::counted), unfolding(crate::specs::Margin::margin_of))]
pub fn margin(y: Layout) -> Result<Option<u32>, Refusal>
    ensures { margin_answer result ≡ margin_of y }
{
    sheet_check::check(y)?;
    if !fits_well(y) {
        return Ok(None);
    }
    Ok(Some(outward(y)))
}
