// The calls, by their letters. What is handed is octets: numbers high octet first, addresses as eight octets. A line
// that hands too few of them answers 0.
//
// | letter | call | handed |
// |---|---|---|
// | k | the check sequence | the octets |
// | b | build a frame | room of the output (2), destination (8), source (8), length/type value (2), data |
// | v | status, and where the client data lie | excess bits (1), the frame |
// | x | status of a spoiled reception | excess bits (1), the frame |
// | s, f | read a sheet; whether it fits | the sheet |
// | a | a fresh start | D (1), octets of the sheet (1), the sheet, the draws |
// | p | a fresh start on two stations, D 2; words written over its area; check 2 | of each word where (4) and what (4) |
// | o | an offer | station (1), destination (8), length/type value (2), data |
// | t, u | a step; a step on an area that is one octet short | |
// | r | a run | bit times (4) |
// | g | a reading | station (1), room of the output (2) |
// | c | counters | station (1) |

use octets::Refusal;

// What a line asks for.
#[derive(Clone, Copy, Debug, PartialEq, Eq)]
pub(crate) enum Question {
    CheckSequence,
    Build,
    Status,
    Spoiled,
    Sheet,
    Fits,
    Start,
    Poked,
    Offer,
    Step,
    ShortStep,
    Run,
    Reading,
    Counters,
}

impl Question {
    // The question of a letter. Any other letter asks as f does.
    pub(crate) fn of(letter: u8) -> Question {
        match letter {
            b'k' => Question::CheckSequence,
            b'b' => Question::Build,
            b'v' => Question::Status,
            b'x' => Question::Spoiled,
            b's' => Question::Sheet,
            b'a' => Question::Start,
            b'p' => Question::Poked,
            b'o' => Question::Offer,
            b't' => Question::Step,
            b'u' => Question::ShortStep,
            b'r' => Question::Run,
            b'g' => Question::Reading,
            b'c' => Question::Counters,
            _ => Question::Fits,
        }
    }
}

// The answer of a call, where enough is handed to make it.
type Asked = Option<Result<u32, Refusal>>;

fn build(a: &[u8], out: &mut [u8]) -> Asked {
    let (room, a) = a.split_first_chunk::<2>()?;
    let (destination, a) = a.split_first_chunk::<8>()?;
    let (source, a) = a.split_first_chunk::<8>()?;
    let (value, data) = a.split_first_chunk::<2>()?;
    let out = out.get_mut(..usize::from(u16::from_be_bytes(*room)))?;
    Some(c_calls::build(
        u64::from_be_bytes(*destination),
        u64::from_be_bytes(*source),
        u16::from_be_bytes(*value),
        data,
        out,
    ))
}

fn status(a: &[u8], out: &mut [u8]) -> Asked {
    let (excess, frame) = a.split_first()?;
    Some(c_calls::client_data(frame, u32::from(*excess), out))
}

fn spoiled(a: &[u8]) -> Asked {
    let (excess, frame) = a.split_first()?;
    Some(c_checks::reception_status(frame, u32::from(*excess), 1))
}

fn start(area: &mut [u8], a: &[u8]) -> Asked {
    let ([depth, size], a) = a.split_first_chunk::<2>()?;
    let (sheet, draws) = a.split_at_checked(usize::from(*size))?;
    Some(c_calls::start(area, sheet, u32::from(*depth), draws))
}

// Each word over the area, where it lies in it.
fn poke_all(area: &mut [u8], words: &[u8]) {
    for word in words.chunks_exact(8) {
        let at = octets_words::get32(word, 0) as usize;
        if at + 4 <= area.len() {
            octets_words::put32(area, at, octets_words::get32(word, 4));
        }
    }
}

fn poked(area: &mut [u8], words: &[u8], out: &mut [u8]) -> Asked {
    let sheet = b"\x00\x02\x00\x02\x00\x00\x00\x00\x01\x0a\x02\x00\x00\x00\x00\x02";
    let _ = c_calls::start(area, sheet, 2, &[0u8, 0, 0, 0, 0, 1, 0, 0]);
    poke_all(area, words);
    Some(c_calls::counters(area, 0, out))
}

fn offer(area: &mut [u8], a: &[u8]) -> Asked {
    let (station, a) = a.split_first()?;
    let (destination, a) = a.split_first_chunk::<8>()?;
    let (value, data) = a.split_first_chunk::<2>()?;
    Some(c_calls::offer(
        area,
        u32::from(*station),
        u64::from_be_bytes(*destination),
        u16::from_be_bytes(*value),
        data,
    ))
}

fn short_step(area: &mut [u8], out: &mut [u8]) -> Asked {
    let (_, area) = area.split_last_mut()?;
    Some(c_calls::step(area, out))
}

fn run(area: &mut [u8], a: &[u8], out: &mut [u8]) -> Asked {
    let n = a.first_chunk::<4>()?;
    Some(c_calls::run(fast_run::run, area, u32::from_be_bytes(*n), out))
}

fn read(area: &[u8], a: &[u8], out: &mut [u8]) -> Asked {
    let (station, a) = a.split_first()?;
    let room = a.first_chunk::<2>()?;
    let out = out.get_mut(..usize::from(u16::from_be_bytes(*room)))?;
    Some(c_calls::read_frame(area, u32::from(*station), out))
}

fn counters(area: &[u8], a: &[u8], out: &mut [u8]) -> Asked {
    let station = a.first()?;
    Some(c_calls::counters(area, u32::from(*station), out))
}

pub(crate) fn ask(
    area: &mut [u8],
    question: Question,
    a: &[u8],
    out: &mut [u8],
) -> Result<u32, Refusal> {
    let asked = match question {
        Question::CheckSequence => Some(Ok(frame_crc::crc_of(a))),
        Question::Build => build(a, out),
        Question::Status => status(a, out),
        Question::Spoiled => spoiled(a),
        Question::Sheet => Some(c_calls::read_sheet(a, out)),
        Question::Fits => Some(c_calls::fits(a)),
        Question::Start => start(area, a),
        Question::Poked => poked(area, a, out),
        Question::Offer => offer(area, a),
        Question::Step => Some(c_calls::step(area, out)),
        Question::ShortStep => short_step(area, out),
        Question::Run => run(area, a, out),
        Question::Reading => read(area, a, out),
        Question::Counters => counters(area, a, out),
    };
    asked.unwrap_or(Ok(0))
}
