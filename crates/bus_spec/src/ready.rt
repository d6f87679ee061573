// Checks 1 and 2, and what they give: an area that passes is ready for steps, and stays so.

ghost use Rattle.std.specs.Prelude.{◌≡◌};
ghost use Rattle.octets.specs.Base.{refusal_in};
ghost use Rattle.octets.specs.NumberLaws.{Octets};
ghost use Rattle.area_check.specs.Valid.{area_refusal};

use octets::Refusal;

// Checks 1 and 2 of a work area. That the area holds octets is said here once.
pub fn check(area: &[u8]) -> Result<(), Refusal>
    ensures value { refusal_in result ≡ area_refusal area.now }
    ensures octets { Octets area.now }
{
    area_check::check(area)
}
