// The pair as a medium: a symbol that a station emits is on its way to the others' delay lines.

ghost use Rattle.std.specs.Prelude.{◌≡◌, ◌<◌, ◌≤◌, length};
ghost use Rattle.area.specs.Area.{position_at};
ghost use Rattle.bus_spec.specs.Medium.{code_to, pushed};
ghost use Rattle.area.specs.Offsets.{area_size};
ghost use Rattle.sheet_layout.specs.Limits.{max_stations};

use station_symbols::Symbol;

// The symbol with this code that station i, at p, emits in step t is on its way to station j.
#[tactic(auto, using(std::proofs::lemmas::Bool::Decides::nat_tests), unfolding(crate::specs::Medium::code_to, area::specs::Area::space_at))]
fn send_to(area: &mut [u8], t: usize, i: usize, p: u32, code: u8, j: usize)
    requires { (i < max_stations) × (j < max_stations) × (t < 4294967296) × (area_size ≤ length area.old)
        × (p ≡ position_at area.old i) }
    ensures { area.new ≡ code_to t i code j area.old }
{
    if j == i {
        return;
    }
    let q = area::read_position(area, j);
    let u = t + area::apart(p, q) as usize;
    area_line::add_symbol(area, j, u, code);
}

// The symbol goes to each of n stations but its own.
pub fn push(area: &mut [u8], n: usize, t: usize, i: usize, s: Symbol)
    requires { (i < max_stations) × (n ≤ max_stations) × (t < 4294967296) × (area_size ≤ length area.old) }
    ensures { area.new ≡ pushed n t i s area.old }
{
    let code = area_line::symbol_code(s);
    if code == 0 {
        return;
    }
    let p = area::read_position(area, i);
    for j in 0..n {
        send_to(area, t, i, p, code, j);
    }
}
