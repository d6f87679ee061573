// Each call of the model on numbers and lent octets, as the C interface hands it out, but for the number that it
// replies: `c_words::numbers::reply` makes that of the answer or the refusal. With a refusal every lent slice keeps what
// it held. What is written into `out` is said at each function of wisavulome.h, in words of four octets, high octet
// first; octets past what is written stay.

#![tactic(auto)]

ghost use Rattle.std.specs.Prelude.{◌≡◌, ◌<◌, ◌≤◌};
ghost use Rattle.octets.specs.Base.{refusal_in};
ghost use Rattle.bus_spec.specs.Run.{ran, run_outcome};
ghost use Rattle.c_words.specs.Answers.{reply_of, Below};
ghost use Rattle.c_calls.specs.Calls.{given, left, short, sheet_given, fits_given, build_given, status_given};
ghost use Rattle.c_calls.specs.Calls.{client_given, drawn_given, start_given, offer_given, step_left, time_refusal};
ghost use Rattle.c_calls.specs.Calls.{run_left, frame_given, counters_given};
ghost use Rattle.sheet_layout.specs.Limits.{max_stations};

use bus_spec::course::RunAnswer;
use c_words::numbers;
use octets::Refusal;
use sheet_layout::Layout;

// Refusal 15 where an output has fewer octets than are written.
pub fn check_room(out: &[u8], octets: usize) -> Result<(), Refusal>
    ensures { refusal_in result ≡ short octets out.now }
{
    if out.len() < octets {
        return Err(Refusal::OutputShort);
    }
    Ok(())
}

// A fresh start on a layout, with the octets of its draws.
#[tactic(auto, using(crate::specs::CallLaws::starts), unfolding(crate::specs::Calls::drawn_given, crate::specs::Calls::draws_refusal))]
fn start_drawn(area: &mut [u8], y: Layout, depth: u32, draws: &[u8]) -> Result<u32, Refusal>
    requires { y.count ≤ max_stations }
    ensures number { given (reply_of result) area.new ≡ drawn_given area.old y depth draws.now }
    ensures told { Below result }
{
    if octets::out_of(depth, 1, 16) {
        return Err(Refusal::Draws);
    }
    let n = y.count as usize;
    let d = depth as usize;
    if draws.len() != 2 * (n * d) {
        return Err(Refusal::Draws);
    }
    let rows = plan_draws::read_draws(draws, 0, n, d);
    bus_start::start(area, y, depth, rows)?;
    Ok(0)
}

// The refusals of n bit times: 1, 2, 13.
#[tactic(auto, using(crate::specs::CallLaws::times), unfolding(crate::specs::Calls::time_refusal))]
pub fn check_time(area: &[u8], n: u32) -> Result<(), Refusal>
    ensures { refusal_in result ≡ time_refusal area.now n }
{
    bus_spec::ready::check(area)?;
    let t = area::read_clock(area);
    if sheet_layout::LAST_CLOCK - t < n {
        return Err(Refusal::ClockTop);
    }
    Ok(())
}

// Reads a sheet: the octets used. Refusals 3 to 8, 15.
#[tactic(auto, using(c_words::specs::AnswersLaws::replies), unfolding(crate::specs::Calls::sheet_given))]
pub fn read_sheet(sheet: &[u8], out: &mut [u8]) -> Result<u32, Refusal>
    ensures number { given (reply_of result) out.new ≡ sheet_given sheet.now out.old }
    ensures told { Below result }
{
    let read = sheet_read::read_sheet(sheet)?;
    check_room(out, c_words::SHEET_OUT)?;
    c_tables::write_layout(out, read.layout);
    Ok(read.used as u32)
}

// Whether the layout of a sheet fits: 1 or 0. Refusals 3 to 8.
#[tactic(auto, using(c_words::specs::AnswersLaws::replies), unfolding(crate::specs::Calls::fits_given))]
pub fn fits(sheet: &[u8]) -> Result<u32, Refusal>
    ensures number { reply_of result ≡ fits_given sheet.now }
    ensures told { Below result }
{
    let read = sheet_read::read_sheet(sheet)?;
    let fit = sheet_fit::fits(read.layout)?;
    Ok(u32::from(fit))
}

// Builds a frame: its octets. Refusals 11, 15.
#[tactic(auto, using(c_words::specs::AnswersLaws::replies), unfolding(crate::specs::Calls::build_given))]
pub fn build(
    destination: u64,
    source: u64,
    value: u16,
    payload: &[u8],
    out: &mut [u8],
) -> Result<u32, Refusal>
    ensures number { given (reply_of result) out.new
        ≡ build_given destination source value payload.now out.old }
    ensures told { Below result }
{
    let d = numbers::low_octets::<6>(destination);
    let s = numbers::low_octets::<6>(source);
    let size = frame_build::builder::build(out, d, s, value, payload)?;
    Ok(size as u32)
}

// The status of a frame's octets and excess bits: 0 to 5. Refusal 5.
#[tactic(auto, using(c_words::specs::AnswersLaws::replies), unfolding(crate::specs::Calls::status_given))]
pub fn status(frame: &[u8], excess: u32) -> Result<u32, Refusal>
    ensures number { reply_of result ≡ status_given frame.now excess }
    ensures told { Below result }
{
    let s = frame_open::status(frame, excess)?;
    Ok(numbers::status_code(s))
}

// The status, and where the client data lie. Refusals 5, 15.
#[tactic(auto, using(c_words::specs::AnswersLaws::replies), unfolding(crate::specs::Calls::client_given))]
pub fn client_data(frame: &[u8], excess: u32, out: &mut [u8]) -> Result<u32, Refusal>
    ensures number { given (reply_of result) out.new ≡ client_given frame.now excess out.old }
    ensures told { Below result }
{
    let s = frame_open::status(frame, excess)?;
    check_room(out, 8)?;
    let words = numbers::client_words(s);
    octets_words::store_words(out, 0, &words);
    Ok(numbers::status_code(s))
}

// A fresh start: 0. Refusals 1, 3 to 8, 9.
#[tactic(auto, using(c_words::specs::AnswersLaws::replies), unfolding(crate::specs::Calls::start_given))]
pub fn start(area: &mut [u8], sheet: &[u8], depth: u32, draws: &[u8]) -> Result<u32, Refusal>
    ensures number { given (reply_of result) area.new
        ≡ start_given area.old sheet.now depth draws.now }
    ensures told { Below result }
{
    if area.len() < area::AREA {
        return Err(Refusal::AreaShort);
    }
    let read = sheet_read::read_sheet(sheet)?;
    start_drawn(area, read.layout, depth, draws)
}

// Offers a frame to a station: 0. Refusals 1, 2, 10, 11, 12.
#[tactic(auto, using(c_words::specs::AnswersLaws::replies), unfolding(crate::specs::Calls::offer_given))]
pub fn offer(
    area: &mut [u8],
    station: u32,
    destination: u64,
    value: u16,
    payload: &[u8],
) -> Result<u32, Refusal>
    ensures number { given (reply_of result) area.new
        ≡ offer_given area.old station destination value payload.now }
    ensures told { Below result }
{
    let d = numbers::low_octets::<6>(destination);
    bus_offer::offer(area, station as usize, d, value, payload)?;
    Ok(0)
}

// One bit time: 0, and the events of each station. Refusals 1, 2, 13, 15.
#[tactic(auto, using(c_words::specs::AnswersLaws::replies), unfolding(crate::specs::Calls::step_left, crate::specs::Calls::time_refusal, bus_step::specs::Step::stepped_once))]
pub fn step(area: &mut [u8], out: &mut [u8]) -> Result<u32, Refusal>
    ensures number { left (reply_of result) area.new out.new ≡ step_left area.old out.old }
    ensures told { Below result }
{
    if out.len() < 256 {
        check_time(area, 1)?;
        return Err(Refusal::OutputShort);
    }
    let events = bus_step::step(area)?;
    c_tables::write_events(out, events);
    Ok(0)
}

// A run of n bit times by an engine: the steps made, and how many events of each word came. Refusals 1, 2, 13, 15.
#[tactic(auto, using(crate::specs::CallLaws::runs), unfolding(crate::specs::Calls::run_left))]
pub fn run<F: FnOnce(&mut [u8], u32) -> Result<RunAnswer, Refusal>>(
    engine: F,
    area: &mut [u8],
    n: u32,
    out: &mut [u8],
) -> Result<u32, Refusal>
    requires called { F.IsAlwaysCallable engine }
    requires runs { (s : _) (r : _) (t : _) → F.post engine s n r t
        → run_outcome r t.now ≡ ran s.now n }
    ensures number { left (reply_of result) area.new out.new ≡ run_left area.old n out.old }
    ensures told { Below result }
{
    if out.len() < c_words::RUN_OUT {
        check_time(area, n)?;
        return Err(Refusal::OutputShort);
    }
    let answer = engine(area, n)?;
    c_tables::write_run(out, answer);
    Ok(answer.steps)
}

// Reads the frame that a station received: its octets. Refusals 1, 2, 10, 14, 15.
#[tactic(auto, unfolding(crate::specs::Calls::frame_given))]
pub fn read_frame(area: &[u8], station: u32, out: &mut [u8]) -> Result<u32, Refusal>
    ensures number { given (reply_of result) out.new ≡ frame_given area.now station out.old }
    ensures told { Below result }
{
    bus_read::read_frame(area, station as usize, out)
}

// The counters of a station: 0. Refusals 1, 2, 10, 15.
#[tactic(auto, using(c_words::specs::AnswersLaws::replies), unfolding(crate::specs::Calls::counters_given))]
pub fn counters(area: &[u8], station: u32, out: &mut [u8]) -> Result<u32, Refusal>
    ensures number { given (reply_of result) out.new ≡ counters_given area.now station out.old }
    ensures told { Below result }
{
    let words = bus_step::read_counters(area, station as usize)?;
    check_room(out, c_words::COUNTERS_OUT)?;
    c_tables::write_counters(out, words);
    Ok(0)
}
