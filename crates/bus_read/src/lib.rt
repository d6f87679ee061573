// Readings of received frames.

#![tactic(auto)]

ghost use Rattle.std.specs.Prelude.{◌≡◌, ◌<◌, ◌≤◌, length, take};
ghost use Rattle.std.proofs.lemmas.List.Edits.{sets};
ghost use Rattle.octets.specs.Base.{outcome, size_answer};
ghost use Rattle.area.specs.Area.{buffer_at};
ghost use Rattle.bus_read.specs.Read.{is_readable, frame_read};
ghost use Rattle.area.specs.Offsets.{area_size};
ghost use Rattle.frame_build.specs.Limits.{buffer_octets};
ghost use Rattle.sheet_layout.specs.Limits.{max_stations};

use octets::Refusal;
use station_state::Receiver;

fn is_readable(r: Receiver) -> bool
    ensures { result ≡ is_readable r }
{
    match r {
        Receiver::Readable(_) => true,
        _ => false,
    }
}

fn copy_frame(area: &[u8], i: usize, n: usize, out: &mut [u8])
    requires { (i < max_stations) × (area_size ≤ length area.now) × (n ≤ buffer_octets) × (n ≤ length out.old) }
    ensures { out.new ≡ sets out.old 0 (take n (buffer_at area.now i)) }
{
    let b = area_buffers::buffer(area, i);
    octets_copies::store(out, 0, &b[..n]);
}

// Reads the frame that station i received, whole with its check sequence: how many octets it has. Refusals 1, 2, 10, 14,
// 15.
#[tactic(auto, using(crate::specs::ReadLaws::reading), unfolding(crate::specs::Read::frame_read))]
pub fn read_frame(area: &[u8], i: usize, out: &mut [u8]) -> Result<u32, Refusal>
    ensures { outcome (size_answer result) out.new ≡ frame_read area.now i out.old }
{
    bus_spec::ready::check(area)?;
    if area::read_count(area) as usize <= i {
        return Err(Refusal::NoSuchStation);
    }
    let s = area::read_station(area, i);
    let r = s.receiver;
    if !is_readable(r) {
        return Err(Refusal::NothingReadable);
    }
    let n = station_count::octets_in(r);
    if out.len() < n as usize {
        return Err(Refusal::OutputShort);
    }
    copy_frame(area, i, n as usize, out);
    Ok(n)
}
