// Opening frames (document 01, "Frames").

#![tactic(auto)]

ghost use Rattle.std.specs.Prelude.{◌≡◌, false, ◌≤◌, length};
ghost use Rattle.frame_open.specs.Open.{status_answer, check_wrong, check_error, unpadded, opened};

use frame_build::limits;
use octets::Refusal;

// Document 01's status of a frame. ReceiveOk has the octets of client data.
#[derive(Clone, Copy, Debug, PartialEq, Eq)]
pub enum ReceiveStatus {
    Fragment,
    FrameTooLong,
    FrameCheckError,
    AlignmentError,
    LengthError,
    ReceiveOk(usize),
}

// Whether the check is wrong: known to be, or by the octets. It covers the part of the frame before the last four
// octets.
#[tactic(auto, unfolding(crate::specs::Open::check_wrong))]
fn check_wrong(frame: &[u8], spoiled: bool) -> bool
    requires { 4 ≤ length frame.now }
    ensures { result ≡ check_wrong spoiled frame.now }
{
    if spoiled {
        return true;
    }
    let end = frame.len() - 4;
    let check = frame_crc::check_sequence(&frame[..end]);
    !octets_copies::same(&frame[end..], &check)
}

#[tactic(auto, unfolding(crate::specs::Open::check_error))]
fn check_error(excess: u32) -> ReceiveStatus
    ensures { status_answer (Ok result) ≡ check_error excess }
{
    if excess == 0 {
        ReceiveStatus::FrameCheckError
    } else {
        ReceiveStatus::AlignmentError
    }
}

// The length and padding rules, on the part of a frame from octet 14 on, up to its check sequence.
#[tactic(auto, using(crate::specs::OpenLaws::unpadded_status))]
fn unpad(field: &[u8], value: usize) -> ReceiveStatus
    ensures { status_answer (Ok result) ≡ (unpadded value field.now).status }
{
    let n = field.len();
    if limits::MIN_TYPE <= value {
        return ReceiveStatus::ReceiveOk(n);
    }
    if limits::MAX_LENGTH < value {
        return ReceiveStatus::LengthError;
    }
    if n == limits::MIN_DATA.max(value) {
        return ReceiveStatus::ReceiveOk(value);
    }
    ReceiveStatus::LengthError
}

// The status of a frame's octets and excess bits, in document 01's order. A receiver says whether its check is known to
// be spoiled.
#[tactic(auto, unfolding(crate::specs::Open::opened, crate::specs::Open::value_of, crate::specs::Open::data_field))]
pub fn reception_status(frame: &[u8], excess: u32, spoiled: bool) -> Result<ReceiveStatus, Refusal>
    ensures { status_answer result ≡ (opened spoiled frame.now excess).status }
{
    if 7 < excess {
        return Err(Refusal::OutOfRange);
    }
    let n = frame.len();
    if n < limits::MIN_FRAME {
        return Ok(ReceiveStatus::Fragment);
    }
    let value = octets_words::get16(frame, 12) as usize;
    if limits::max_frame(value) < n {
        return Ok(ReceiveStatus::FrameTooLong);
    }
    if check_wrong(frame, spoiled) {
        return Ok(check_error(excess));
    }
    let end = n - 4;
    Ok(unpad(&frame[14..end], value))
}

// The status of a frame's octets and excess bits.
pub fn status(frame: &[u8], excess: u32) -> Result<ReceiveStatus, Refusal>
    ensures { status_answer result ≡ (opened false frame.now excess).status }
{
    reception_status(frame, excess, false)
}

// The client data of a frame that opens with receiveOK, as a part of the frame itself; of any other, none of it.
pub fn client_data(frame: &[u8], excess: u32) -> &[u8]
    ensures { result.now ≡ (opened false frame.now excess).client_data }
{
    let Ok(s) = status(frame, excess) else {
        return &[];
    };
    match s {
        ReceiveStatus::ReceiveOk(n) => &frame[14..14 + n],
        _ => &[],
    }
}
