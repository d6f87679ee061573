// Runs with marks and returns: the path that leads to the present state. There is no code here but this number; the
// theorems are in specs/.

#![tactic(auto)]

ghost use Rattle.std.specs.Prelude.{◌≡◌};

// The number of the request.
pub fn request() -> u32
    ensures { result ≡ 5 }
{
    5
}
