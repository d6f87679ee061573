// How far a run goes: its answer, and the definition of a run and its laws (specs).

ghost use Rattle.std.specs.Prelude.{◌≡◌, ◌+◌, ◌-◌, ◌<◌, length};
ghost use Rattle.station_tally.specs.TallyLaws.{Bounded};
ghost use Rattle.bus_spec.specs.Run.{tallied, late_in};
ghost use Rattle.station_tally.specs.Words.{word_count};

use crate::Events;

// The late collision that ended a run: the step, which is the run's last, and the station that had it.
#[derive(Clone, Copy, Debug, PartialEq, Eq)]
pub struct LateEnd {
    pub step: u32,
    pub station: u32,
}

// What a run answers: the steps made, how many events of each word came (collision, late, sent, given-up, got ok, got
// too-long, got alignment, got check, got length), and the late collision that ended it, if one did.
#[derive(Clone, Copy)]
pub struct RunAnswer {
    pub steps: u32,
    pub words: [u32; station_tally::WORDS],
    pub late: Option<LateEnd>,
}

// How far a run went, and the late collision that ended it, if one did.
#[derive(Clone, Copy)]
pub struct Course {
    pub steps: u32,
    pub late: Option<LateEnd>,
}

// Steps made, and the events of the last of them, if it has any.
#[derive(Clone, Copy)]
pub struct Stretch {
    pub steps: u32,
    pub events: [Events; 16],
}

// The end of a run that makes so many steps, where the station has a late collision in the last of them.
pub fn late_end(steps: u32, station: u32) -> LateEnd
    requires { 0 < steps }
    ensures { result ≡ late_in (steps - 1) station }
{
    LateEnd {
        step: steps - 1,
        station,
    }
}

// The events of a step, counted into `words`. No word is past `top` yet.
pub fn count_events(words: &mut [u32], events: &[Events; 16], top: u32)
    requires { (length words.old ≡ word_count) × Bounded words.old top × (top + 32 < 4294967295) }
    ensures { words.new ≡ tallied events.now 16 words.old }
{
    for i in 0..sheet_layout::MAX_STATIONS {
        let high = top + 2 * i as u32;
        let e = events[i];
        let sent = e.sent;
        let got = e.got;
        station_tally::count_sent(words, sent, high);
        station_tally::count_got(words, got, high + 1);
    }
}
