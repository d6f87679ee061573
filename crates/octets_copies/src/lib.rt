// Octets blanked, copied and compared.

#![tactic(auto)]

ghost use Rattle.std.specs.Prelude.{◌≡◌, ◌+◌, ◌<◌, ◌≤◌, length};
ghost use Rattle.std.proofs.lemmas.List.Edits.{sets};
ghost use Rattle.octets.specs.Equal.{equal};
ghost use Rattle.octets.specs.Store.{part};
ghost use Rattle.octets.specs.Turns.{blanked};

// Writes 0 over the first n octets.
pub fn blank(s: &mut [u8], n: usize)
    requires { n ≤ length s.old }
    ensures { s.new ≡ blanked n s.old }
{
    s[..n].fill(0);
}

// Stores all of `src` into `s` from index `at` on. Octet by octet, which becomes one `memcpy`: `copy_from_slice` becomes
// a `memmove`, which the archive for C would need besides.
pub fn store(s: &mut [u8], at: usize, src: &[u8])
    requires { at + length src.now ≤ length s.old }
    ensures { s.new ≡ sets s.old at src.now }
{
    for i in 0..src.len() {
        s[at + i] = src[i];
    }
}

// The N octets from `at` on.
pub fn array_at<const N: usize>(s: &[u8], at: usize) -> [u8; N]
    requires { at + N ≤ length s.now }
    ensures { result ≡ part s.now at N }
{
    *s[at..at + N].first_chunk().unwrap()
}

// The six octets from `at` on, as an address has.
pub fn six(s: &[u8], at: usize) -> [u8; 6]
    requires { at + 6 ≤ length s.now }
    ensures { result ≡ part s.now at 6 }
{
    array_at(s, at)
}

// Whether the two hold the same octets.
pub fn same(a: &[u8], b: &[u8]) -> bool
    ensures { result ≡ equal a.now b.now }
{
    a == b
}
