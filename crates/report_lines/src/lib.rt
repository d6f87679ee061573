// The lines of the run program (document 01, "The run program"), written into lent octets.

#![tactic(auto)]

ghost use Rattle.std.specs.Prelude.{◌≡◌, ◌+◌, ◌≤◌, length};
ghost use Rattle.station_tally.specs.Words.{word_number};
ghost use Rattle.report_text.specs.Text.{written, puts};
ghost use Rattle.report_lines.specs.Events.{word_text, event_line, station_lines, step_lines};

use bus_spec::Events;
use station_tally::Word;

// The text of a word.
#[tactic(auto, unfolding(crate::specs::Events::word_text))]
fn text(word: Word) -> &'static [u8]
    ensures text { result.now ≡ word_text (word_number (Some word)) }
    ensures small { length result.now ≤ 14 }
{
    match word {
        Word::Collision => b"collision",
        Word::Late => b"late",
        Word::Sent => b"sent",
        Word::GivenUp => b"given-up",
        Word::LateEnd => b"late-end",
        Word::GotOk => b"got ok",
        Word::GotTooLong => b"got too-long",
        Word::GotAlignment => b"got alignment",
        Word::GotCheck => b"got check",
        Word::GotLength => b"got length",
    }
}

// The line of an event of station i in step t, by its word and value, written at `at`. Answers where it ends, as all
// here do. `out`, `at`, `t` and `i` go together, but a struct of them would be made anew for each line.
#[tactic(auto, using(crate::specs::EventsLaws::event_none, crate::specs::EventsLaws::event_some))]
fn put_event(out: &mut [u8], at: usize, t: u32, i: u32, word: Option<Word>, value: u32) -> usize
    requires { at + 48 ≤ length out.old }
    ensures text { written result out.new ≡ puts out.old at (event_line t i (word_number word) value) }
    ensures small { result ≤ at + 48 }
{
    match word {
        None => at,
        Some(w) => report_text::put_line(out, at, t, i, text(w), value),
    }
}

// The lines of station i's events.
fn put_station(out: &mut [u8], at: usize, t: u32, i: u32, e: Events) -> usize
    requires { at + 96 ≤ length out.old }
    ensures text { written result out.new ≡ puts out.old at (station_lines t i e) }
    ensures small { result ≤ at + 96 }
{
    let sent = station_tally::transmit_word(e.sent);
    let middle = put_event(out, at, t, i, sent, station_tally::transmit_value(e.sent));
    let got = station_tally::receive_word(e.got);
    put_event(out, middle, t, i, got, station_tally::receive_value(e.got))
}

// The lines of step t, stations rising.
pub fn put_step(out: &mut [u8], t: u32, events: [Events; 16]) -> usize
    requires { 1536 ≤ length out.old }
    ensures text { written result out.new ≡ puts out.old 0 (step_lines t events 16) }
    ensures small { result ≤ 1536 }
{
    let mut at = 0;
    for (i, e) in events.iter().enumerate() {
        at = put_station(out, at, t, i as u32, *e);
    }
    at
}
