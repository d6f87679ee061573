// The run program: a run input on standard input, what is printed for it on standard output. The pieces are made by
// `report_begin` and `report_next`; what is handed to the writer here, one behind the other, is just what is printed.

#![tactic(auto)]

ghost use Rattle.std.specs.Prelude.{◌≡◌, ◌+◌, ◌*◌, ◌≤◌, length, drop, IfOk, OnOk};
ghost use Rattle.std.specs.Io.KnownBytes.{Appends};
ghost use Rattle.octets.specs.Store.{part};
ghost use Rattle.report_spec.specs.Printed.{printed};
ghost use Rattle.report_theorem.specs.Whole.{pieces};
ghost use Rattle.report_theorem.specs.Along.{Along};
ghost use Rattle.simulate.specs.Written.{most};
ghost use Rattle.area.specs.Offsets.{area_size};

use report_spec::{Progress, ROOM};
use std::io;
use std::io::Write;

// The writer, the input and the area go together, but `main` lends each of them once, and a struct of three borrows
// would be taken apart at each call.

// The one call that writes. It is handed the octets of what is printed for the input from `at` on, and answers where
// they end.
fn write_piece<W: Write>(to: &mut W, input: &[u8], at: usize, piece: &[u8]) -> io::Result<usize>
    requires piece_value { part (printed input.now) at (length piece.now) ≡ piece.now }
    requires piece_bound { at + length piece.now ≤ most }
    ensures end { IfOk result (λ end. end ≡ at + length piece.now) }
    ensures text { OnOk result (Appends (W.contents to.old) (W.contents to.new) piece.now) }
{
    to.write_all(piece)?;
    Ok(at + piece.len())
}

// Writes the pieces that are still to come, each as soon as it is made, until the writer fails. Answers where they end.
fn write_rest<W: Write>(
    to: &mut W,
    input: &[u8],
    area: &mut [u8],
    at: usize,
    g: Progress,
) -> io::Result<usize>
    requires { (Along input.now at g area.old) × (at + 2048 * pieces g ≤ most) }
    ensures end { IfOk result (λ end. end ≡ length (printed input.now)) }
    ensures text { OnOk result (Appends (W.contents to.old) (W.contents to.new) (drop at (printed input.now))) }
{
    let mut buf = [0u8; ROOM];
    let mut at = at;
    let mut g = g;
    while !g.ended {
        let p = report_whole::parts::next(input, area, &mut buf, g);
        at = write_piece(to, input, at, &buf[..p.size])?;
        g = p.progress;
    }
    Ok(at)
}

// Writes all that is printed for the input: where every write succeeded, what was handed to the writer is the whole
// text. Answers where the text ends.
fn write_run<W: Write>(to: &mut W, input: &[u8], area: &mut [u8]) -> io::Result<usize>
    requires { length area.old ≡ area_size }
    ensures end { IfOk result (λ end. end ≡ length (printed input.now)) }
    ensures text { OnOk result (Appends (W.contents to.old) (W.contents to.new) (printed input.now)) }
{
    let mut buf = [0u8; ROOM];
    let p = report_whole::parts::first(input, area, &mut buf);
    let at = write_piece(to, input, 0, &buf[..p.size])?;
    write_rest(to, input, area, at, p.progress)
}

// One octet more than an input may have is read: a longer one is refused without keeping it.
fn main(rt: HostRuntime) -> io::Result<()> {
    let mut input = [0u8; 16385];
    let mut area = [0u8; area::AREA];
    let n = reading::fill(&mut rt.stdin(), &mut input)?;
    write_run(&mut io::writer(&rt), &input[..n], &mut area)?;
    Ok(())
}
