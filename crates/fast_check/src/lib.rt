// Whether a station agrees with a list of stretches: so far of stations without a frame.

#![tactic(auto)]

ghost use Rattle.std.specs.Prelude.{◌≡◌, ◌<◌, ◌≤◌, length};
ghost use Rattle.fast_check.specs.Frameless.{NoneOf, is_none, Frameless, Tells};
ghost use Rattle.area.specs.Offsets.{area_size};
ghost use Rattle.sheet_layout.specs.Limits.{max_stations};

use fast_list::Stretch;
use station_state::Transmitter;

// Whether none of the stretches is of station j.
#[tactic(auto, using(crate::specs::Frameless::none_first, crate::specs::Frameless::none_more, crate::specs::Frameless::none_end, crate::specs::Frameless::tells_not))]
fn none_of(list: &[Stretch], j: usize) -> bool
    ensures { Tells result (NoneOf list.now (length list.now) j) }
{
    for stretch in list {
        if stretch.who == j {
            return false;
        }
    }
    true
}

fn is_none(x: Transmitter) -> bool
    ensures { result ≡ is_none x }
{
    matches!(x, Transmitter::NoFrame)
}

// Whether station j holds no frame and the list has no stretch of it: then it agrees with the list for any number of
// steps.
#[tactic(auto, using(crate::specs::Frameless::frameless_is, crate::specs::Frameless::tells_not))]
pub fn is_frameless(area: &[u8], list: &[Stretch], j: usize) -> bool
    requires { (area_size ≤ length area.now) × (j < max_stations) }
    ensures { Tells result (Frameless area.now list.now j) }
{
    let s = area::read_station(area, j);
    is_none(s.transmitter) && none_of(list, j)
}
