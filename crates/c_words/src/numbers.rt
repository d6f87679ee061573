// The answers of the calls as numbers.

ghost use Rattle.std.specs.Prelude.{◌≡◌, ◌<◌, ◌≤◌, Ok, get_or};
ghost use Rattle.octets.specs.Number.{spelled};
ghost use Rattle.frame_open.specs.Open.{status_answer};
ghost use Rattle.octets.specs.Base.{values_of};
ghost use Rattle.c_words.specs.Answers.{reply_of, value_of, client_words, got_code, event_words};

use bus_spec::Events;
use frame_open::ReceiveStatus;
use octets::Refusal;
use station_spec::ReceiveEvent;
use station_tally::Word;

// Set in a reply that is a refusal.
const REFUSAL: u32 = 0x8000_0000;

// What a call returns: the answer's number, or the refusal's number with bit 31.
#[tactic(auto, using(octets::specs::BaseLaws::refusal_numbered), unfolding(crate::specs::Answers::replied))]
pub fn reply(answer: Result<u32, Refusal>) -> u32
    ensures { result ≡ reply_of answer }
{
    match answer {
        Ok(value) => value,
        Err(refusal) => REFUSAL + refusal.number(),
    }
}

// The N low octets of a number, the highest first.
pub fn low_octets<const N: usize>(x: u64) -> [u8; N]
    requires { N ≤ 8 }
    ensures { result ≡ spelled N x }
{
    *x.to_be_bytes().last_chunk::<N>().unwrap()
}

// The status's number.
pub fn status_code(s: ReceiveStatus) -> u32
    ensures value { result ≡ value_of (status_answer (Ok s)) }
    ensures few { result ≤ 5 }
{
    match s {
        ReceiveStatus::Fragment => 0,
        ReceiveStatus::FrameTooLong => 1,
        ReceiveStatus::FrameCheckError => 2,
        ReceiveStatus::AlignmentError => 3,
        ReceiveStatus::LengthError => 4,
        ReceiveStatus::ReceiveOk(_) => 5,
    }
}

// Where the client data begin, and their octets.
#[tactic(auto, unfolding(crate::specs::Answers::client_words))]
pub fn client_words(s: ReceiveStatus) -> [u32; 2]
    requires { get_or (values_of (status_answer (Ok s))) 1 0 < 4294967296 }
    ensures { result ≡ client_words (status_answer (Ok s)) }
{
    match s {
        ReceiveStatus::ReceiveOk(n) => [14, n as u32],
        _ => [0, 0],
    }
}

// The code of a receive event: its place among theirs.
fn got_code(e: Option<ReceiveEvent>) -> u32
    ensures { result ≡ got_code e }
{
    station_tally::number(station_tally::receive_word(e)).saturating_sub(Word::LateEnd as u32)
}

// A station's events as four words: transmit event and its number, receive event and its number.
#[tactic(auto, unfolding(crate::specs::Answers::event_words))]
pub fn event_words(e: Events) -> [u32; 4]
    ensures { result ≡ event_words e }
{
    [
        station_tally::number(station_tally::transmit_word(e.sent)),
        station_tally::transmit_value(e.sent),
        got_code(e.got),
        station_tally::receive_value(e.got),
    ]
}
