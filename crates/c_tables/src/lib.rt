// What the calls write into the output that is lent to them. All numbers are high octet first.

#![tactic(auto)]

ghost use Rattle.std.specs.Prelude.{◌≡◌, ◌+◌, ◌*◌, ◌<◌, ◌≤◌, length};
ghost use Rattle.octets.specs.Words.{put_words};
ghost use Rattle.c_words.specs.Answers.{layout_words, tap_put, taps_put, layout_put, events_put};
ghost use Rattle.c_words.specs.Answers.{counters_out, run_out, sheet_out};
ghost use Rattle.c_tables.specs.RunWords.{ended_words, run_put};
ghost use Rattle.sheet_layout.specs.Limits.{max_stations};
ghost use Rattle.station_state.specs.State.{counter_count};

use bus_spec::Events;
use bus_spec::course::{LateEnd, RunAnswer};
use c_words::numbers;
use sheet_layout::{Layout, Tap};

// Slot, gap1, gap2, jam, attempt limit, backoff limit, N, and whether the layout fits.
#[tactic(auto, unfolding(c_words::specs::Answers::layout_words))]
fn layout_words(y: Layout) -> [u32; 8]
    ensures { result ≡ layout_words y }
{
    let f = y.figures;
    [
        f.slot,
        f.gap1,
        f.gap2,
        f.jam,
        f.limit,
        f.backoff,
        y.count,
        u32::from(sheet_fit::fits(y).unwrap_or(false)),
    ]
}

#[tactic(auto, unfolding(c_words::specs::Answers::tap_put))]
fn write_tap(out: &mut [u8], i: usize, tap: Tap)
    requires { (i < max_stations) × (sheet_out ≤ length out.old) }
    ensures { out.new ≡ tap_put tap.position tap.address i out.old }
{
    octets_words::put32(out, 32 + 10 * i, tap.position);
    octets_copies::store(out, 36 + 10 * i, &tap.address);
}

// All sixteen places.
#[tactic(auto, unfolding(c_words::specs::Answers::taps_put, octets::specs::Turns::turns))]
fn write_taps(out: &mut [u8], taps: [Tap; 16])
    requires { sheet_out ≤ length out.old }
    ensures { out.new ≡ taps_put taps 16 out.old }
{
    for i in 0..sheet_layout::MAX_STATIONS {
        write_tap(out, i, taps[i]);
    }
}

#[tactic(auto, unfolding(c_words::specs::Answers::layout_put))]
pub fn write_layout(out: &mut [u8], y: Layout)
    requires { sheet_out ≤ length out.old }
    ensures { out.new ≡ layout_put y out.old }
{
    let words = layout_words(y);
    octets_words::store_words(out, 0, &words);
    write_taps(out, y.stations);
    octets_words::put32(out, 192, y.figures.ends);
}

// Four words for each of the sixteen stations.
#[tactic(auto, unfolding(c_words::specs::Answers::events_put, octets::specs::Turns::turns))]
pub fn write_events(out: &mut [u8], events: [Events; 16])
    requires { 256 ≤ length out.old }
    ensures { out.new ≡ events_put events 16 out.old }
{
    for i in 0..sheet_layout::MAX_STATIONS {
        let words = numbers::event_words(events[i]);
        octets_words::store_words(out, 16 * i, &words);
    }
}

// The counters of a station.
pub fn write_counters(out: &mut [u8], words: [u32; station_state::COUNTERS])
    requires { counters_out ≤ length out.old }
    ensures { out.new ≡ put_words counter_count out.old 0 words }
{
    octets_words::store_words(out, 0, &words);
}

// How a run ended as three words: whether early, and the step and station of the late collision.
fn ended_words(late: Option<LateEnd>) -> [u32; 3]
    ensures { result ≡ ended_words late }
{
    match late {
        None => [0, 0, 0],
        Some(end) => [1, end.step, end.station],
    }
}

// The event words of a run, and how it ended.
#[tactic(auto, unfolding(crate::specs::RunWords::run_put))]
pub fn write_run(out: &mut [u8], answer: RunAnswer)
    requires { run_out ≤ length out.old }
    ensures { out.new ≡ run_put answer.words answer.late out.old }
{
    let last = ended_words(answer.late);
    octets_words::store_words(out, 0, &answer.words);
    octets_words::store_words(out, 4 * station_tally::WORDS, &last);
}
