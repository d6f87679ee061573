// Many steps of one kind of one station, on the area: its record, and the bits that it collects.

#![tactic(auto)]

ghost use Rattle.std.specs.Prelude.{◌≡◌, ◌+◌, ◌<◌, ◌≤◌, length};
ghost use Rattle.station_state.specs.State.{number_in};
ghost use Rattle.area.specs.Area.{station_at};
ghost use Rattle.fast_receive.specs.Received.{spoils, line_from, bits_from, AllHeard};
ghost use Rattle.fast_stretch.specs.Stretch.{Movable, moved_on, heard_stretch, quiet_on, quiet_stretch};
ghost use Rattle.area.specs.Offsets.{area_size};
ghost use Rattle.sheet_layout.specs.Limits.{max_stations};

use sheet_layout::Figures;
use station_state::{Receiver, Station};

// A station that heard others for m steps; e: whether it emitted in them; its receiver is r then.
#[tactic(auto, unfolding(crate::specs::Stretch::moved_on))]
fn move_on(f: Figures, e: bool, m: u32, r: Receiver, s: Station) -> Station
    requires { (f.gap1 + f.gap2 < 65536) × (number_in s.transmitter + m < 4294967296) }
    ensures { result ≡ moved_on f e m r s }
{
    if e {
        return fast_station::emit_on(f, m, r, s);
    }
    fast_station::hear_on(f, m, r, s)
}

// Station j, which is s, hears spoiled symbols for m steps.
#[tactic(auto, using(crate::specs::StretchLaws::gap_room, crate::specs::StretchLaws::number_room, crate::specs::StretchLaws::row_room, crate::specs::StretchLaws::bits_room))]
pub fn hear_spoiled(area: &mut [u8], j: usize, f: Figures, e: bool, m: u32, s: Station)
    requires { (j < max_stations) × (area_size ≤ length area.old) × Movable f m area.old j
        × (s ≡ station_at area.old j) }
    ensures { area.new ≡ heard_stretch f e spoils m j area.old }
{
    let q = fast_receive::hear_spoiled(area, j, e, s.receiver, m);
    area::write_station(area, j, move_on(f, e, m, q, s));
}

// Station j, which is s, hears for m steps what its line holds from step u on.
#[tactic(auto, using(crate::specs::StretchLaws::gap_room, crate::specs::StretchLaws::number_room, crate::specs::StretchLaws::row_room, crate::specs::StretchLaws::bits_room))]
pub fn hear_line(area: &mut [u8], j: usize, f: Figures, e: bool, u: usize, m: u32, s: Station)
    requires { (j < max_stations) × (area_size ≤ length area.old) × Movable f m area.old j
        × (s ≡ station_at area.old j) × (u + m < 4294967296) × AllHeard (line_from area.old j u) m }
    ensures { area.new ≡ heard_stretch f e (line_from area.old j u) m j area.old }
{
    let q = fast_receive::hear_line(area, j, u, e, s.receiver, m);
    area::write_station(area, j, move_on(f, e, m, q, s));
}

// Station j, which is s, hears for m steps the packet that carries a frame, from its bit a on.
#[tactic(auto, using(crate::specs::StretchLaws::gap_room, crate::specs::StretchLaws::number_room, crate::specs::StretchLaws::row_room, crate::specs::StretchLaws::bits_room))]
pub fn hear_packet(
    area: &mut [u8],
    j: usize,
    f: Figures,
    e: bool,
    frame: &[u8],
    a: u32,
    m: u32,
    s: Station,
)
    requires { (j < max_stations) × (area_size ≤ length area.old) × Movable f m area.old j
        × (s ≡ station_at area.old j) × (a + m < 4294967296) }
    ensures { area.new ≡ heard_stretch f e (bits_from frame.now a) m j area.old }
{
    let q = fast_receive::hear_packet(area, j, frame, a, e, s.receiver, m);
    area::write_station(area, j, move_on(f, e, m, q, s));
}

// A station that heard nothing for m steps; e: whether it emitted in them.
#[tactic(auto, unfolding(crate::specs::Stretch::quiet_on))]
fn keep_on(f: Figures, e: bool, m: u32, s: Station) -> Station
    requires { (f.gap1 + f.gap2 < 65536) × (number_in s.transmitter + m < 4294967296) }
    ensures { result ≡ quiet_on f e m s }
{
    if e {
        return fast_station::emit_on(f, m, fast_station::calm(m, s.receiver), s);
    }
    fast_station::rest_on(f, m, s)
}

// Station j, which is s, hears nothing for m steps.
#[tactic(auto, using(crate::specs::StretchLaws::gap_room, crate::specs::StretchLaws::number_room, crate::specs::StretchLaws::stretch_quiet))]
pub fn hear_nothing(area: &mut [u8], j: usize, f: Figures, e: bool, m: u32, s: Station)
    requires { (j < max_stations) × (area_size ≤ length area.old) × Movable f m area.old j
        × (s ≡ station_at area.old j) }
    ensures { area.new ≡ quiet_stretch f e m j area.old }
{
    area::write_station(area, j, keep_on(f, e, m, s));
}
