// The C interface: every call of the model as a function on numbers and lent octets. It returns one 32-bit number:
// 0x80000000 + n is refusal n, anything below is the answer (crc32: all 32 bits). With a refusal every lent slice keeps
// what it held. What is written into `out` is said at each function of wisavulome.h, in words of four octets, high
// octet first; octets past what is written stay.

#![tactic(auto)]

ghost use Rattle.std.specs.Prelude.{◌≡◌, ◌<◌};
ghost use Rattle.frame_crc.specs.Crc.{crc_of};
ghost use Rattle.c_calls.specs.Calls.{given, left, sheet_given, fits_given, build_given, status_given, client_given};
ghost use Rattle.c_calls.specs.Calls.{start_given, offer_given, step_left, run_left, frame_given, counters_given};
ghost use Rattle.c_checks.specs.CheckCalls.{reception_given, area_given, layout_given, plan_given, write_given};
ghost use Rattle.c_log.specs.LogCalls.{windows_given};
ghost use Rattle.c_views.specs.Views.{station_given, margin_given};
ghost use Rattle.c_marks.specs.MarkCalls.{mark_given, return_given, drop_given};
ghost use Rattle.c_text.specs.TextCalls.{lent, begun_lent, advanced_lent, print_left};

use c_words::numbers::reply;

// Reads a sheet: the octets used. Refusals 3 to 8, 15.
#[unsafe(no_mangle)]
pub extern "C" fn wisavulome_read_sheet(sheet: &[u8], out: &mut [u8]) -> u32
    ensures { given result out.new ≡ sheet_given sheet.now out.old }
{
    reply(c_calls::read_sheet(sheet, out))
}

// Whether the layout of a sheet fits: 1 or 0. Refusals 3 to 8.
#[unsafe(no_mangle)]
pub extern "C" fn wisavulome_fits(sheet: &[u8]) -> u32
    ensures { result ≡ fits_given sheet.now }
{
    reply(c_calls::fits(sheet))
}

// How far the last tap of a sheet may move outward so that its layout still fits: so many bit times, or 256 where it
// does not fit. Refusals 3 to 8.
#[unsafe(no_mangle)]
pub extern "C" fn wisavulome_margin(sheet: &[u8]) -> u32
    ensures { result ≡ margin_given sheet.now }
{
    reply(c_views::margin(sheet))
}

// Checks a layout, as `wisavulome_read_sheet` writes one: 0. Refusals 3, 5 to 8.
#[unsafe(no_mangle)]
pub extern "C" fn wisavulome_check_layout(layout: &[u8]) -> u32
    ensures { result ≡ layout_given layout.now }
{
    reply(c_checks::check_layout(layout))
}

// Reads a run input: 0. Refusals 3 to 9, 13, 15, 16.
#[unsafe(no_mangle)]
pub extern "C" fn wisavulome_read_plan(input: &[u8], out: &mut [u8]) -> u32
    ensures { given result out.new ≡ plan_given input.now out.old }
{
    reply(c_checks::read_plan(input, out))
}

// Writes the shortest sheet that reads as this one: its octets. Refusals 3 to 8, 15.
#[unsafe(no_mangle)]
pub extern "C" fn wisavulome_write_sheet(sheet: &[u8], out: &mut [u8]) -> u32
    ensures { given result out.new ≡ write_given sheet.now out.old }
{
    reply(c_checks::write_sheet(sheet, out))
}

// Builds a frame: its octets. Refusals 11, 15.
#[unsafe(no_mangle)]
pub extern "C" fn wisavulome_build(
    destination: u64,
    source: u64,
    value: u16,
    payload: &[u8],
    out: &mut [u8],
) -> u32
    ensures { given result out.new
        ≡ build_given destination source value payload.now out.old }
{
    reply(c_calls::build(destination, source, value, payload, out))
}

// The status of a frame's octets and excess bits: 0 to 5. Refusal 5.
#[unsafe(no_mangle)]
pub extern "C" fn wisavulome_status(frame: &[u8], excess: u32) -> u32
    ensures { result ≡ status_given frame.now excess }
{
    reply(c_calls::status(frame, excess))
}

// The status of a reception, spoiled (not 0) or not: 0 to 5. Refusal 5.
#[unsafe(no_mangle)]
pub extern "C" fn wisavulome_reception_status(frame: &[u8], excess: u32, spoiled: u32) -> u32
    ensures { result ≡ reception_given frame.now excess spoiled }
{
    reply(c_checks::reception_status(frame, excess, spoiled))
}

// The status, and where the client data lie. Refusals 5, 15.
#[unsafe(no_mangle)]
pub extern "C" fn wisavulome_client_data(frame: &[u8], excess: u32, out: &mut [u8]) -> u32
    ensures { given result out.new ≡ client_given frame.now excess out.old }
{
    reply(c_calls::client_data(frame, excess, out))
}

// A fresh start: 0. Refusals 1, 3 to 8, 9.
#[unsafe(no_mangle)]
pub extern "C" fn wisavulome_start(area: &mut [u8], sheet: &[u8], depth: u32, draws: &[u8]) -> u32
    ensures { given result area.new
        ≡ start_given area.old sheet.now depth draws.now }
{
    reply(c_calls::start(area, sheet, depth, draws))
}

// Checks a work area: 0. Refusals 1, 2.
#[unsafe(no_mangle)]
pub extern "C" fn wisavulome_check_area(area: &[u8]) -> u32
    ensures { result ≡ area_given area.now }
{
    reply(c_checks::check_area(area))
}

// Offers a frame to a station: 0. Refusals 1, 2, 10, 11, 12.
#[unsafe(no_mangle)]
pub extern "C" fn wisavulome_offer(
    area: &mut [u8],
    station: u32,
    destination: u64,
    value: u16,
    payload: &[u8],
) -> u32
    ensures { given result area.new
        ≡ offer_given area.old station destination value payload.now }
{
    reply(c_calls::offer(area, station, destination, value, payload))
}

// One bit time: 0, and the events of each station. Refusals 1, 2, 13, 15.
#[unsafe(no_mangle)]
pub extern "C" fn wisavulome_step(area: &mut [u8], out: &mut [u8]) -> u32
    ensures { left result area.new out.new ≡ step_left area.old out.old }
{
    reply(c_calls::step(area, out))
}

// A run of n bit times: the steps made, and how many events of each word came. Refusals 1, 2, 13, 15.
#[unsafe(no_mangle)]
pub extern "C" fn wisavulome_run(area: &mut [u8], n: u32, out: &mut [u8]) -> u32
    ensures { left result area.new out.new ≡ run_left area.old n out.old }
{
    reply(c_calls::run(fast_run::run, area, n, out))
}

// The same run, made step by step: the reference.
#[unsafe(no_mangle)]
pub extern "C" fn wisavulome_run_stepwise(area: &mut [u8], n: u32, out: &mut [u8]) -> u32
    ensures { left result area.new out.new ≡ run_left area.old n out.old }
{
    reply(c_calls::run(bus_run::run, area, n, out))
}

// Reads the frame that a station received: its octets. Refusals 1, 2, 10, 14, 15.
#[unsafe(no_mangle)]
pub extern "C" fn wisavulome_read_frame(area: &[u8], station: u32, out: &mut [u8]) -> u32
    ensures { given result out.new ≡ frame_given area.now station out.old }
{
    reply(c_calls::read_frame(area, station, out))
}

// The counters of a station: 0. Refusals 1, 2, 10, 15.
#[unsafe(no_mangle)]
pub extern "C" fn wisavulome_counters(area: &[u8], station: u32, out: &mut [u8]) -> u32
    ensures { given result out.new ≡ counters_given area.now station out.old }
{
    reply(c_calls::counters(area, station, out))
}

// The state of a station: 0. Refusals 1, 2, 10, 15.
#[unsafe(no_mangle)]
pub extern "C" fn wisavulome_station(area: &[u8], station: u32, out: &mut [u8]) -> u32
    ensures { given result out.new ≡ station_given area.now station out.old }
{
    reply(c_views::station(area, station, out))
}

// Marks a work area under a name, in a store: 0. Refusals 1, 2, 15, 18.
#[unsafe(no_mangle)]
pub extern "C" fn wisavulome_mark(area: &[u8], store: &mut [u8], name: u64) -> u32
    ensures { given result store.new ≡ mark_given area.now store.old name }
{
    reply(c_marks::mark(area, store, name))
}

// Puts back the work area that is marked under a name: 0. Refusals 1, 15, 17, 2.
#[unsafe(no_mangle)]
pub extern "C" fn wisavulome_return(area: &mut [u8], store: &[u8], name: u64) -> u32
    ensures { given result area.new ≡ return_given area.old store.now name }
{
    reply(c_marks::go_back(area, store, name))
}

// Drops the mark of a name: 0. Refusals 15, 17.
#[unsafe(no_mangle)]
pub extern "C" fn wisavulome_drop(store: &mut [u8], name: u64) -> u32
    ensures { given result store.new ≡ drop_given store.old name }
{
    reply(c_marks::drop_mark(store, name))
}

// The first piece of what is printed for a run input: its octets, and where the run stands. Refusals 1, 15.
#[unsafe(no_mangle)]
pub extern "C" fn wisavulome_begin(
    input: &[u8],
    area: &mut [u8],
    progress: &mut [u8],
    out: &mut [u8],
) -> u32
    ensures { lent result area.new progress.new out.new
        ≡ begun_lent input.now area.old progress.old out.old }
{
    reply(c_text::begin(input, area, progress, out))
}

// The next piece: its octets, and where the run stands after it. Refusals 1, 2, 13, 15, 16.
#[unsafe(no_mangle)]
pub extern "C" fn wisavulome_advance(
    input: &[u8],
    area: &mut [u8],
    progress: &mut [u8],
    out: &mut [u8],
) -> u32
    ensures { lent result area.new progress.new out.new
        ≡ advanced_lent input.now area.old progress.old out.old }
{
    reply(c_text::advance(input, area, progress, out))
}

// All that is printed for a run input: its octets. Refusals 1, 15.
#[unsafe(no_mangle)]
pub extern "C" fn wisavulome_print(input: &[u8], area: &mut [u8], out: &mut [u8]) -> u32
    ensures { left result area.new out.new
        ≡ print_left input.now area.old out.old }
{
    reply(c_text::print(input, area, out))
}

// Many windows over one log: 0, and the counts of each window. Refusals 5, 10, 16, 20, 21, 15.
#[unsafe(no_mangle)]
pub extern "C" fn wisavulome_windows(
    log: &[u8],
    stations: u32,
    windows: &[u32],
    out: &mut [u32],
) -> u32
    ensures { given result out.new
        ≡ windows_given log.now stations windows.now out.old }
{
    reply(c_log::windows(log, stations, windows, out))
}

// The CRC-32 of the octets.
#[unsafe(no_mangle)]
pub extern "C" fn wisavulome_crc32(payload: &[u8]) -> u32
    ensures { result ≡ crc_of payload.now }
{
    frame_crc::crc_of(payload)
}
