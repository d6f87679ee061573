// The whole text of a run input at once: what `begin` and `advance` hand out piece by piece, one piece behind the other
// in a lent output.

#![tactic(auto)]

pub mod parts;

ghost use Rattle.std.specs.Prelude.{◌≡◌, false, ◌≤◌, leb, length, drop};
ghost use Rattle.std.proofs.lemmas.List.Edits.{sets};
ghost use Rattle.octets.specs.Base.{size_answer};
ghost use Rattle.report_spec.specs.Printed.{input_course, printed};
ghost use Rattle.report_spec.specs.Pieces.{remaining};
ghost use Rattle.report_theorem.specs.Along.{Along};
ghost use Rattle.report_whole.specs.Print.{print, printed_into};
ghost use Rattle.area.specs.Offsets.{area_size};

use octets::Refusal;
use report_spec::{Progress, ROOM};

// Whether what is printed for the input has at most `room` octets, where `at` of them are handed out.
// `store_rest` and `simulate::write_rest` go over the pieces too. One walk with a closure would have to promise which
// octets each call of it was handed, which is longer than the loop; and each loop keeps something else: a room, an
// output, a writer that may fail.
fn rest_fits(input: &[u8], area: &mut [u8], room: usize, at: usize, g: Progress) -> bool
    requires { (Along input.now at g area.old) × (at ≤ room) }
    ensures { result ≡ leb (length (printed input.now)) room }
{
    let mut buf = [0u8; ROOM];
    let mut at = at;
    let mut g = g;
    while !g.ended {
        let p = crate::parts::next(input, area, &mut buf, g);
        if room - at < p.size {
            return false;
        }
        at += p.size;
        g = p.progress;
    }
    true
}

// Whether what is printed for the input has at most `room` octets. The run is made on an area of its own, as far as
// there is room.
fn fits(input: &[u8], room: usize) -> bool
    ensures { result ≡ leb (length (printed input.now)) room }
{
    let mut area = [0u8; area::AREA];
    let mut buf = [0u8; ROOM];
    let p = crate::parts::first(input, &mut area, &mut buf);
    if room < p.size {
        return false;
    }
    rest_fits(input, &mut area, room, p.size, p.progress)
}

// Stores what is still to come into `out` from `at` on, and answers where it ends.
fn store_rest(input: &[u8], area: &mut [u8], out: &mut [u8], at: usize, g: Progress) -> usize
    requires { (Along input.now at g area.old) × (length (printed input.now) ≤ length out.old) }
    ensures end { result ≡ length (printed input.now) }
    ensures text { out.new ≡ sets out.old at (drop at (printed input.now)) }
    ensures area { area.new ≡ (remaining input.now g area.old).octets }
{
    let mut buf = [0u8; ROOM];
    let mut at = at;
    let mut g = g;
    while !g.ended {
        let p = crate::parts::next(input, area, &mut buf, g);
        octets_copies::store(out, at, &buf[..p.size]);
        at += p.size;
        g = p.progress;
    }
    at
}

// Stores all that is printed for the input into `out`, and answers where it ends.
fn store_run(input: &[u8], area: &mut [u8], out: &mut [u8]) -> usize
    requires { (length area.old ≡ area_size) × (length (printed input.now) ≤ length out.old) }
    ensures end { result ≡ length (printed input.now) }
    ensures text { out.new ≡ sets out.old 0 (printed input.now) }
    ensures area { area.new ≡ (input_course input.now area.old).octets }
{
    let mut buf = [0u8; ROOM];
    let p = crate::parts::first(input, area, &mut buf);
    octets_copies::store(out, 0, &buf[..p.size]);
    store_rest(input, area, out, p.size, p.progress)
}

// Puts the whole text of a run input at the front of `out`, and answers how many octets it has. Refusals 1, 15.
pub fn print(input: &[u8], area: &mut [u8], out: &mut [u8]) -> Result<usize, Refusal>
    ensures { print (size_answer result) area.new out.new
        ≡ printed_into input.now area.old out.old }
{
    if area.len() < area::AREA {
        return Err(Refusal::AreaShort);
    }
    if !fits(input, out.len()) {
        return Err(Refusal::OutputShort);
    }
    Ok(store_run(input, &mut area[..area::AREA], out))
}
