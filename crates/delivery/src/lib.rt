// Demand 3: what holds over every list of calls. There is no code here but this number; the definitions are in specs/,
// the theorems in proofs/.

#![tactic(auto)]

ghost use Rattle.std.specs.Prelude.{◌≡◌};

// The number of the demand.
pub fn demand() -> u32
    ensures { result ≡ 3 }
{
    3
}
