// The events by their words and how many of each word came.

#![tactic(auto)]

ghost use Rattle.std.specs.Prelude.{◌≡◌, ◌+◌, ◌<◌, ◌≤◌, length};
ghost use Rattle.station_tally.specs.Words.{word_number, transmit_word, transmit_value, receive_word, receive_value};
ghost use Rattle.station_tally.specs.Words.{last_transmit, word_count, ends_run};
ghost use Rattle.station_tally.specs.Tally.{counted, sent_counted, got_counted};
ghost use Rattle.station_tally.specs.TallyLaws.{Bounded};

use station_spec::{ReceiveEvent, TransmitEvent};

// The event words, in the documents' order: those of transmit events, then those of receive events.
#[derive(Clone, Copy, Debug, PartialEq, Eq)]
pub enum Word {
    Collision = 1,
    Late = 2,
    Sent = 3,
    GivenUp = 4,
    LateEnd = 5,
    GotOk = 6,
    GotTooLong = 7,
    GotAlignment = 8,
    GotCheck = 9,
    GotLength = 10,
}

// How many they are.
pub const WORDS: usize = 10;

impl Word {
    // The place of a word among those that are counted, from 0 on.
    pub fn place(self) -> usize
        ensures value { result + 1 ≡ word_number (Some self) }
        ensures small { result < word_count }
    {
        self as usize - 1
    }
}

// The number under which the documents list a word; 0 where there is none.
pub fn number(word: Option<Word>) -> u32
    ensures value { result ≡ word_number word }
    ensures few { result ≤ word_count }
{
    match word {
        None => 0,
        Some(w) => w as u32,
    }
}

// The word of a transmit event, and its value.
pub fn transmit_word(e: Option<TransmitEvent>) -> Option<Word>
    ensures value { word_number result ≡ transmit_word e }
    ensures few { word_number result ≤ last_transmit }
{
    match e {
        None => None,
        Some(TransmitEvent::Collision(_)) => Some(Word::Collision),
        Some(TransmitEvent::Late { .. }) => Some(Word::Late),
        Some(TransmitEvent::Sent(_)) => Some(Word::Sent),
        Some(TransmitEvent::GivenUp(_)) => Some(Word::GivenUp),
        Some(TransmitEvent::LateEnded(_)) => Some(Word::LateEnd),
    }
}

pub fn transmit_value(e: Option<TransmitEvent>) -> u32
    ensures { result ≡ transmit_value e }
{
    match e {
        None => 0,
        Some(TransmitEvent::Collision(k)) => k,
        Some(TransmitEvent::Late { bit, .. }) => bit,
        Some(TransmitEvent::Sent(n)) => n,
        Some(TransmitEvent::GivenUp(n)) => n,
        Some(TransmitEvent::LateEnded(n)) => n,
    }
}

// The word of a receive event, and its value.
pub fn receive_word(e: Option<ReceiveEvent>) -> Option<Word>
    ensures { word_number result ≡ receive_word e }
{
    match e {
        None => None,
        Some(ReceiveEvent::GotOk(_)) => Some(Word::GotOk),
        Some(ReceiveEvent::GotTooLong(_)) => Some(Word::GotTooLong),
        Some(ReceiveEvent::GotAlignment(_)) => Some(Word::GotAlignment),
        Some(ReceiveEvent::GotCheck(_)) => Some(Word::GotCheck),
        Some(ReceiveEvent::GotLength(_)) => Some(Word::GotLength),
    }
}

pub fn receive_value(e: Option<ReceiveEvent>) -> u32
    ensures { result ≡ receive_value e }
{
    match e {
        None => 0,
        Some(ReceiveEvent::GotOk(n)) => n,
        Some(ReceiveEvent::GotTooLong(n)) => n,
        Some(ReceiveEvent::GotAlignment(n)) => n,
        Some(ReceiveEvent::GotCheck(n)) => n,
        Some(ReceiveEvent::GotLength(n)) => n,
    }
}

// Whether a run ends with this event: a late collision that does not close the frame.
pub fn ends_run(e: Option<TransmitEvent>) -> bool
    ensures { result ≡ ends_run e }
{
    matches!(e, Some(TransmitEvent::Late { closes: false, .. }))
}

// One more event of a word, if there is one. No word is past `top` yet.
fn count(words: &mut [u32], word: Option<Word>, top: u32)
    requires { (length words.old ≡ word_count) × Bounded words.old top × (top < 4294967295) }
    ensures { words.new ≡ counted words.old (word_number word) }
{
    if let Some(w) = word {
        words[w.place()] += 1;
    }
}

pub fn count_sent(words: &mut [u32], e: Option<TransmitEvent>, top: u32)
    requires { (length words.old ≡ word_count) × Bounded words.old top × (top < 4294967295) }
    ensures { words.new ≡ sent_counted words.old e }
{
    count(words, transmit_word(e), top);
}

pub fn count_got(words: &mut [u32], e: Option<ReceiveEvent>, top: u32)
    requires { (length words.old ≡ word_count) × Bounded words.old top × (top < 4294967295) }
    ensures { words.new ≡ got_counted words.old e }
{
    count(words, receive_word(e), top);
}
