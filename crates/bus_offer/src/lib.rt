// An offer of a frame to a station.

#![tactic(auto)]

ghost use Rattle.std.specs.Prelude.{◌≡◌, false, ◌<◌, ◌≤◌, length};
ghost use Rattle.octets.specs.Base.{done_answer, outcome};
ghost use Rattle.frame_build.specs.Limits.{refuses_data};
ghost use Rattle.bus_offer.specs.Offer.{holds, offered_station, with_held, with_offered, with_offer, offered};
ghost use Rattle.area.specs.Offsets.{area_size};
ghost use Rattle.sheet_layout.specs.Limits.{max_stations};

use octets::Refusal;
use station_count::Counter;
use station_state::{Station, Transmitter};

fn has_frame(t: Transmitter) -> bool
    ensures { result ≡ holds t }
{
    match t {
        Transmitter::NoFrame => false,
        _ => true,
    }
}

// A station with a frame of n octets offered to it.
#[tactic(auto, unfolding(crate::specs::Offer::offered_station))]
fn with_offer(s: Station, n: u32) -> Station
    ensures { result ≡ offered_station s n }
{
    Station {
        transmitter: Transmitter::Waiting,
        frame: n,
        attempts: 0,
        deferred: false,
        ..s
    }
}

#[tactic(auto, unfolding(crate::specs::Offer::with_held))]
fn hold_frame(area: &mut [u8], i: usize, n: u32)
    requires { (i < max_stations) × (area_size ≤ length area.old) }
    ensures { area.new ≡ with_held area.old i n }
{
    let s = area::read_station(area, i);
    area::write_station(area, i, with_offer(s, n));
}

#[tactic(auto, unfolding(crate::specs::Offer::with_offered))]
fn count_offer(area: &mut [u8], i: usize)
    requires { (i < max_stations) × (area_size ≤ length area.old) }
    ensures { area.new ≡ with_offered area.old i }
{
    let c = area::read_counters(area, i);
    let next = station_count::add(c, Counter::Offered, 1);
    area::write_counters(area, i, next);
}

// The frame built at its place, held by the station, and counted.
fn accept(area: &mut [u8], i: usize, destination: [u8; 6], value: u16, payload: &[u8])
    requires i_lt_max_stations { (i < max_stations) × (area_size ≤ length area.old) }
    requires payload_value { refuses_data value (length payload.now) ≡ false }
    ensures { area.new ≡ with_offer area.old i destination value payload.now }
{
    // The data are not refused, so the frame is built.
    let _ = area_buffers::build_frame(area, i, destination, value, payload);
    hold_frame(area, i, frame_build::builder::frame_size(payload));
    count_offer(area, i);
}

// Offers a frame to station i: destination, length/type value and data. Refusals 1, 2, 10, 11, 12.
#[tactic(auto, using(crate::specs::OfferLaws::offering), unfolding(crate::specs::Offer::offered))]
pub fn offer(
    area: &mut [u8],
    i: usize,
    destination: [u8; 6],
    value: u16,
    payload: &[u8],
) -> Result<(), Refusal>
    ensures { outcome (done_answer result) area.new
        ≡ offered area.old i destination value payload.now }
{
    area_check::check(area)?;
    if area::read_count(area) as usize <= i {
        return Err(Refusal::NoSuchStation);
    }
    if frame_build::builder::refuses(value, payload) {
        return Err(Refusal::FrameData);
    }
    let s = area::read_station(area, i);
    let t = s.transmitter;
    if has_frame(t) {
        return Err(Refusal::FrameHeld);
    }
    accept(area, i, destination, value, payload);
    Ok(())
}
