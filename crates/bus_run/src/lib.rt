// Runs over many bit times, by any way to go on. `run` goes step by step: the reference for every faster run.

#![tactic(auto)]

ghost use Rattle.std.specs.Prelude.{◌≡◌, ◌<◌, ◌≤◌, length};
ghost use Rattle.bus_spec.specs.Run.{course_of, run_of, run_outcome, ran};
ghost use Rattle.bus_spec.specs.RunLaws.{Runnable};
ghost use Rattle.bus_run.specs.Advance.{Advanced};
ghost use Rattle.station_tally.specs.TallyLaws.{Bounded};
ghost use Rattle.sheet_layout.specs.Limits.{last_clock};
ghost use Rattle.area.specs.Offsets.{area_size};
ghost use Rattle.station_tally.specs.Words.{word_count};

use bus_spec::Events;
use bus_spec::course::{Course, RunAnswer, Stretch};
use octets::Refusal;

// A way to go on in a run.
pub trait GoesOn {
    // So many steps, at most those that are left, and the events of the last one. The others have none.
    fn go_on(area: &mut [u8], left: u32) -> Stretch
        requires { Runnable left area.old × (area_size ≤ length area.old) × (0 < left) }
        ensures made { Advanced result.steps result.events area.old area.new }
        ensures bound { (0 < result.steps) × (result.steps ≤ left) };
}

// One step at a time.
struct Singly;

impl GoesOn for Singly {
    fn go_on(area: &mut [u8], _left: u32) -> Stretch {
        Stretch {
            steps: 1,
            events: bus_turn::step::step(area),
        }
    }
}

// At most n steps, on an area that is ready for them, counted into `words`.
fn run_steps<G: GoesOn>(area: &mut [u8], words: &mut [u32], n: u32) -> Course
    requires runnable { Runnable n area.old × (area_size ≤ length area.old) × (n ≤ last_clock) }
    requires words_len { (length words.old ≡ word_count) × Bounded words.old 0 }
    ensures { course_of result words.new area.new
        ≡ run_of n 0 words.old area.old }
{
    let mut late = None;
    let mut t: u32 = 0;
    // No range: the way to go on says how many steps were made.
    'steps: while t < n {
        let s = G::go_on(area, n - t);
        bus_spec::course::count_events(words, &s.events, 32 * t);
        t += s.steps;
        for i in 0..sheet_layout::MAX_STATIONS {
            if station_tally::ends_run(s.events[i].sent) {
                late = Some(bus_spec::course::late_end(t, i as u32));
                break 'steps;
            }
        }
    }
    Course { steps: t, late }
}

// A run of n bit times that goes on in this way. Refusals 1, 2, 13.
pub fn run_by<G: GoesOn>(area: &mut [u8], n: u32) -> Result<RunAnswer, Refusal>
    ensures { run_outcome result area.new ≡ ran area.old n }
{
    bus_spec::ready::check(area)?;
    let t = area::read_clock(area);
    if sheet_layout::LAST_CLOCK - t < n {
        return Err(Refusal::ClockTop);
    }
    let mut words = [0u32; station_tally::WORDS];
    let course = run_steps::<G>(area, &mut words, n);
    Ok(RunAnswer {
        steps: course.steps,
        words,
        late: course.late,
    })
}

// A run of n bit times, step by step. Refusals 1, 2, 13.
pub fn run(area: &mut [u8], n: u32) -> Result<RunAnswer, Refusal>
    ensures { run_outcome result area.new ≡ ran area.old n }
{
    run_by::<Singly>(area, n)
}
