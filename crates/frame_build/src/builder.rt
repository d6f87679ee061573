// The builder.

ghost use Rattle.std.specs.Prelude.{◌≡◌, ◌+◌, ◌-◌, ◌≤◌, max, length};
ghost use Rattle.std.proofs.lemmas.List.Edits.{sets};
ghost use Rattle.octets.specs.Base.{outcome, size_answer};
ghost use Rattle.frame_build.specs.Limits.{min_data, refuses_data};
ghost use Rattle.frame_build.specs.Build.{header, padded, built};
ghost use Rattle.frame_build.specs.BuildLaws.{sealed};

use super::limits;
use octets::Refusal;

// Writes destination, source and length/type to the front of out.
fn write_header(out: &mut [u8], destination: [u8; 6], source: [u8; 6], value: u16)
    requires { 14 ≤ length out.old }
    ensures { out.new ≡ sets out.old 0 (header destination source value) }
{
    octets_copies::store(out, 0, &destination);
    octets_copies::store(out, 6, &source);
    octets_words::put16(out, 12, value);
}

// Writes the data from the fifteenth octet on, and zeros after them up to 46.
fn write_data(out: &mut [u8], payload: &[u8])
    requires { 14 + (length payload.now + (46 - length payload.now)) ≤ length out.old }
    ensures { out.new ≡ sets out.old 14 (padded payload.now) }
{
    octets_copies::store(out, 14, payload);
    let end = 14 + payload.len();
    out[end..end + limits::pad_size(payload.len())].fill(0);
}

// Writes the check sequence of the first `end` octets after them.
fn seal(out: &mut [u8], end: usize)
    requires { end + 4 ≤ length out.old }
    ensures { out.new ≡ sealed out.old end }
{
    let check = frame_crc::check_sequence(&out[..end]);
    octets_copies::store(out, end, &check);
}

// Whether refusal 11 stands against a length/type value and data.
#[tactic(auto, unfolding(crate::specs::Limits::refuses_data))]
pub fn refuses(value: u16, payload: &[u8]) -> bool
    ensures { result ≡ refuses_data value (length payload.now) }
{
    let v = usize::from(value);
    let n = payload.len();
    limits::max_data(v) < n || limits::refuses_value(v, n)
}

// The octets of a frame with such data, of which there are not too many.
pub fn frame_size(payload: &[u8]) -> u32
    requires { length payload.now ≤ 65535 }
    ensures { result ≡ max min_data (length payload.now) + 18 }
{
    let n = payload.len();
    (n.max(limits::MIN_DATA) + 18) as u32
}

// Builds a frame at the front of out, or refuses (11, 15) and leaves out as it was. What stands after the frame stays.
pub fn build(
    out: &mut [u8],
    destination: [u8; 6],
    source: [u8; 6],
    value: u16,
    payload: &[u8],
) -> Result<usize, Refusal>
    ensures { outcome (size_answer result) out.new
        ≡ built out.old destination source value payload.now }
{
    if refuses(value, payload) {
        return Err(Refusal::FrameData);
    }
    let n = payload.len();
    let end = 14 + (n + limits::pad_size(n));
    if out.len() < end + 4 {
        return Err(Refusal::OutputShort);
    }
    write_header(out, destination, source, value);
    write_data(out, payload);
    seal(out, end);
    Ok(end + 4)
}
