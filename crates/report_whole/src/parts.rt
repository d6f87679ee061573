// The pieces of what is printed, by their octets: on an area and in a state of the run in which no call is refused.

ghost use Rattle.std.specs.Prelude.{◌≡◌, ◌≤◌, length, take};
ghost use Rattle.report_spec.specs.Pieces.{moved, move, first_piece};
ghost use Rattle.report_theorem.specs.Whole.{Going};
ghost use Rattle.area.specs.Offsets.{area_size};

use report_spec::{Handed, Progress};

// The first piece.
pub fn first(input: &[u8], area: &mut [u8], buf: &mut [u8]) -> Handed
    requires { (length area.old ≡ area_size) × (2048 ≤ length buf.old) }
    ensures piece { moved (take result.size buf.new) result.progress area.new
        ≡ first_piece input.now area.old }
    ensures size { result.size ≤ length buf.new }
{
    report_begin::begin(input, area, buf).unwrap()
}

// The piece after it, where the run stands at g.
pub fn next(input: &[u8], area: &mut [u8], buf: &mut [u8], g: Progress) -> Handed
    requires { (Going input.now g area.old) × (2048 ≤ length buf.old) }
    ensures piece { moved (take result.size buf.new) result.progress area.new
        ≡ move input.now g area.old }
    ensures size { result.size ≤ length buf.new }
{
    report_next::advance(input, area, buf, g).unwrap()
}
