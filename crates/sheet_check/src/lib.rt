// The checks of a layout: refusals 5 to 8, on its positions and addresses as plain numbers.

#![tactic(auto)]

ghost use Rattle.std.specs.Prelude.{◌≡◌, ◌<◌, ◌≤◌, length};
ghost use Rattle.octets.specs.Base.{some, refusal_in};
ghost use Rattle.octets.specs.Number.{get};
ghost use Rattle.octets.specs.NumberLaws.{Octets};
ghost use Rattle.sheet_layout.specs.Check.{gap1_out, figures_out, refusal_of};
ghost use Rattle.sheet_check.specs.Plain.{Laid, high_at, drops_at, same_at, wrong_at, plain_refusal};
ghost use Rattle.sheet_layout.specs.Limits.{max_stations};

use octets::Refusal;
use sheet_layout::{Figures, Layout};

#[tactic(auto, unfolding(sheet_layout::specs::Check::gap1_out))]
fn gap1_out(f: Figures) -> bool
    ensures { result ≡ gap1_out f }
{
    octets::out_of(f.gap1, 0, 255) | (2 * (f.gap2 as u64) < f.gap1 as u64)
}

// Whether a figure is outside its range.
#[tactic(auto, unfolding(sheet_layout::specs::Check::figures_out))]
fn figures_out(f: Figures) -> bool
    ensures { result ≡ figures_out f }
{
    octets::out_of(f.slot, 64, sheet_layout::MAX_SLOT)
        | gap1_out(f)
        | octets::out_of(f.gap2, 1, 255)
        | octets::out_of(f.jam, 1, 64)
        | octets::out_of(f.limit, 1, 16)
        | octets::out_of(f.backoff, 1, 10)
        | octets::out_of(f.ends, 0, 1)
}

// The number that the six octets of an address spell, high octet first.
fn number(a: [u8; 6]) -> u64
    ensures value { result ≡ get 6 a 0 }
    ensures octets { Octets a }
    ensures six { length a ≡ 6 }
{
    u64::from(octets_words::get16(&a, 0)) * 4294967296 + u64::from(octets_words::get32(&a, 2))
}

// Lays out the positions and the addresses of the first n stations as plain numbers. Two arrays, and not the stations
// where they stand: `plain_count` and `refusal_plain` (specs) are about these.
fn lay_out(y: Layout, n: usize, positions: &mut [u32], addresses: &mut [u64])
    requires { (n ≤ max_stations) × (length positions.old ≡ 16) × (length addresses.old ≡ 16) }
    ensures { Laid y n positions.new addresses.new }
{
    for i in 0..n {
        let t = y.stations[i];
        positions[i] = t.position;
        addresses[i] = number(t.address);
    }
}

// Whether one of the first n positions is outside its range.
fn positions_out(positions: &[u32], n: usize) -> bool
    requires { n ≤ length positions.now }
    ensures { result ≡ some (high_at positions.now) n }
{
    (0..n).any(|i| sheet_layout::MAX_POSITION < positions[i])
}

// Whether one of the first n positions is not below the one after it.
fn unordered(positions: &[u32], n: usize) -> bool
    requires { n < length positions.now }
    ensures { result ≡ some (drops_at positions.now) n }
{
    (0..n).any(|i| positions[i + 1] <= positions[i])
}

// Whether the address of station i stands at a station before it.
fn repeats(addresses: &[u64], i: usize) -> bool
    requires { i < length addresses.now }
    ensures { result ≡ some (same_at addresses.now i) i }
{
    (0..i).any(|j| addresses[j] == addresses[i])
}

// Whether address i has the low bit of its first octet set, or repeats.
#[tactic(auto, unfolding(crate::specs::Plain::wrong_at))]
fn address_wrong(addresses: &[u64], i: usize) -> bool
    requires { i < length addresses.now }
    ensures { result ≡ wrong_at addresses.now i }
{
    let group = addresses[i] / 1099511627776 % 2 == 1;
    group | repeats(addresses, i)
}

// Whether one of the first n addresses is wrong.
fn addresses_wrong(addresses: &[u64], n: usize) -> bool
    requires { n ≤ length addresses.now }
    ensures { result ≡ some (wrong_at addresses.now) n }
{
    (0..n).any(|i| address_wrong(addresses, i))
}

// Checks 5 to 8 of so many stations with these positions and addresses.
fn check_stations(count: u32, positions: &[u32], addresses: &[u64]) -> Result<(), Refusal>
    requires { (length positions.now ≡ 16) × (length addresses.now ≡ 16) }
    ensures { refusal_in result ≡ plain_refusal count positions.now addresses.now }
{
    if positions_out(positions, sheet_layout::places(count)) {
        return Err(Refusal::OutOfRange);
    }
    if octets::out_of(count, 2, 16) {
        return Err(Refusal::StationCount);
    }
    let n = count as usize;
    if unordered(positions, n - 1) {
        return Err(Refusal::Positions);
    }
    if addresses_wrong(addresses, n) {
        return Err(Refusal::Addresses);
    }
    Ok(())
}

// Checks 5 to 8 of a layout.
pub fn check(y: Layout) -> Result<(), Refusal>
    ensures { refusal_in result ≡ refusal_of y }
{
    if figures_out(y.figures) {
        return Err(Refusal::OutOfRange);
    }
    let mut positions = [0; 16];
    let mut addresses = [0; 16];
    lay_out(
        y,
        sheet_layout::places(y.count),
        &mut positions,
        &mut addresses,
    );
    check_stations(y.count, &positions, &addresses)
}
