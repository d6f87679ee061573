// The calls of the C interface that look at one thing: a station's state in a work area, and the margin of a sheet.
// Their answers are as in `c_calls`.

#![tactic(auto)]

ghost use Rattle.std.specs.Prelude.{◌≡◌, ◌<◌, ◌≤◌, length};
ghost use Rattle.octets.specs.Base.{refusal_in};
ghost use Rattle.sheet_layout.specs.Limits.{max_stations};
ghost use Rattle.area.specs.Offsets.{area_size};
ghost use Rattle.c_words.specs.Answers.{reply_of, Below};
ghost use Rattle.c_calls.specs.Calls.{given};
ghost use Rattle.c_views.specs.Views.{station_out, station_refusal, station_put, station_given, margin_given};

use c_calls::check_room;
use octets::Refusal;

// The octets of a station's state, and what stands for no margin.
pub const STATION_OUT: usize = 64;

pub const NO_MARGIN: u32 = 256;

// The refusals of a look at a station: 1, 2, 10.
#[tactic(auto, using(c_calls::specs::CallLaws::times), unfolding(crate::specs::Views::station_refusal))]
fn check_station(area: &[u8], station: u32) -> Result<(), Refusal>
    ensures { refusal_in result ≡ station_refusal area.now station }
{
    area_check::check(area)?;
    if area::read_count(area) <= station {
        return Err(Refusal::NoSuchStation);
    }
    Ok(())
}

// The record of station i, what it hears in the next step, and the clock.
#[tactic(auto, unfolding(crate::specs::Views::station_put))]
fn write_station(area: &[u8], i: usize, out: &mut [u8])
    requires { (i < max_stations) × (area_size ≤ length area.now) × (station_out ≤ length out.old) }
    ensures { out.new ≡ station_put area.now i out.old }
{
    let words = area_record::encode(area::read_station(area, i));
    let clock = area::read_clock(area);
    let heard = area_line::arrival(area, i, clock as usize);
    let last = [u32::from(area_line::heard_code(heard)), clock];
    octets_words::store_words(out, 0, &words);
    octets_words::store_words(out, 4 * area_record::words::WORDS, &last);
}

// The state of a station: 0. Refusals 1, 2, 10, 15.
#[tactic(auto, using(crate::specs::ViewLaws::looks), unfolding(crate::specs::Views::station_given))]
pub fn station(area: &[u8], station: u32, out: &mut [u8]) -> Result<u32, Refusal>
    ensures number { given (reply_of result) out.new ≡ station_given area.now station out.old }
    ensures told { Below result }
{
    check_station(area, station)?;
    check_room(out, STATION_OUT)?;
    write_station(area, station as usize, out);
    Ok(0)
}

// How far the last tap of a sheet may move outward so that its layout still fits: so many bit times, or 256 where it
// does not fit. Refusals 3 to 8.
#[tactic(auto, using(c_words::specs::AnswersLaws::replies), unfolding(crate::specs::Views::margin_given))]
pub fn margin(sheet: &[u8]) -> Result<u32, Refusal>
    ensures number { reply_of result ≡ margin_given sheet.now }
    ensures told { Below result }
{
    let read = sheet_read::read_sheet(sheet)?;
    let outward = sheet_fit::margin(read.layout)?;
    Ok(outward.unwrap_or(NO_MARGIN))
}
