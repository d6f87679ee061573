// Deference: when a station may start.

#![tactic(auto)]

ghost use Rattle.std.specs.Prelude.{◌≡◌, ◌+◌, ◌<◌};
ghost use Rattle.station_spec.specs.Defer.{to, quiet_rule, busy_rule, gap_rule, goes_back, defer};

use sheet_layout::Figures;
use station_spec::Deferred;
use station_state::Deference;

// The next phase, with no frame started.
fn to(phase: Deference) -> Deferred
    ensures { result ≡ to phase }
{
    Deferred {
        phase,
        start: false,
    }
}

#[tactic(auto, unfolding(station_spec::specs::Defer::quiet_rule))]
fn quiet_rule(hears: bool, emitted: bool, waits: bool) -> Deferred
    ensures { result ≡ quiet_rule hears emitted waits }
{
    if hears | emitted {
        return to(Deference::Busy(emitted));
    }
    Deferred {
        phase: Deference::Quiet,
        start: waits,
    }
}

#[tactic(auto, unfolding(station_spec::specs::Defer::busy_rule))]
fn busy_rule(own: bool, hears: bool, emitted: bool) -> Deferred
    ensures { result ≡ busy_rule own hears emitted }
{
    if hears | emitted {
        return to(Deference::Busy(own | emitted));
    }
    to(Deference::Gap { count: 1, own })
}

// Whether a gap goes back to busy: others are heard in its first part, and the station did not emit in the stretch.
#[tactic(auto, unfolding(station_spec::specs::Defer::goes_back))]
pub fn goes_back(gap1: u32, count: u32, own: bool, hears: bool) -> bool
    ensures { result ≡ goes_back gap1 count own hears }
{
    hears & ((count < gap1) & !own)
}

#[tactic(auto, unfolding(station_spec::specs::Defer::gap_rule, station_spec::specs::Defer::gap_over, sheet_layout::specs::Layout::gap_of))]
fn gap_rule(f: Figures, count: u32, own: bool, hears: bool, emitted: bool, waits: bool) -> Deferred
    requires { f.gap1 + f.gap2 < 65536 }
    ensures { result ≡ gap_rule f count own hears emitted waits }
{
    if f.gap1 + f.gap2 <= count {
        if waits {
            return Deferred {
                phase: Deference::Quiet,
                start: true,
            };
        }
        return quiet_rule(hears, emitted, false);
    }
    if goes_back(f.gap1, count, own, hears) {
        return to(Deference::Busy(own));
    }
    to(Deference::Gap {
        count: count + 1,
        own,
    })
}

// Deference in one step: whether others are heard, whether the station emitted in the step before, whether a frame
// waits.
#[tactic(auto, unfolding(station_spec::specs::Defer::defer))]
pub fn defer(f: Figures, d: Deference, hears: bool, emitted: bool, waits: bool) -> Deferred
    requires { f.gap1 + f.gap2 < 65536 }
    ensures { result ≡ defer f d hears emitted waits }
{
    match d {
        Deference::Quiet => quiet_rule(hears, emitted, waits),
        Deference::Busy(own) => busy_rule(own, hears, emitted),
        Deference::Gap { count, own } => gap_rule(f, count, own, hears, emitted, waits),
    }
}
