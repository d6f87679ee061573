// The check sequence of 802.3. What it is stands bit by bit in specs/Crc.antt; here it goes eight octets at a time,
// through a table.

#![tactic(auto)]

mod table;

ghost use Rattle.std.specs.Prelude.{◌≡◌, ◌+◌, ◌*◌, ◌%◌, ◌<◌};
ghost use Rattle.std.specs.Int.Bits.{bit_xor};
ghost use Rattle.octets.specs.Bits.{bits_of};
ghost use Rattle.frame_crc.specs.Crc.{crc_of, check_sequence};
ghost use Rattle.frame_crc.specs.Division.{register};
ghost use Rattle.frame_crc.specs.Register.{shifts};
ghost use Rattle.frame_crc.specs.Table.{table};

// What the octet x, added to the low octet of c, does to the register by the time that k octets have followed it: two
// entries of the table t, one for each half of the octet. That x is an octet is said for the callers, whose slices do
// not say it.
#[tactic(auto, using(crate::specs::Table::halves_shifts))]
fn carried(t: &[u32; 256], k: usize, c: u32, x: u8) -> u32
    requires table { t.now ≡ table }
    requires octets { k < 8 }
    ensures value { result ≡ shifts (8 * k + 8) (bit_xor c x % 256) }
    ensures small { x < 256 }
{
    let sum = c ^ u32::from(x);
    let low = (sum % 16) as usize;
    let high = (sum / 16 % 16) as usize;
    t[32 * k + 16 + low] ^ t[32 * k + high]
}

// The register after eight octets. The last four do not wait for c, and so come first: the processor runs ahead with
// them.
fn after_eight(t: &[u32; 256], s: &[u8; 8], c: u32) -> u32
    requires { t.now ≡ table }
    ensures { result ≡ register (bits_of s.now) c }
{
    carried(t, 0, 0, s[7])
        ^ carried(t, 1, 0, s[6])
        ^ carried(t, 2, 0, s[5])
        ^ carried(t, 3, 0, s[4])
        ^ carried(t, 4, c / 256 / 256 / 256, s[3])
        ^ carried(t, 5, c / 256 / 256, s[2])
        ^ carried(t, 6, c / 256, s[1])
        ^ carried(t, 7, c, s[0])
}

// The CRC-32 of the octets of s.
pub fn crc_of(s: &[u8]) -> u32
    ensures { result ≡ crc_of s.now }
{
    let t = table::rows();
    let mut c: u32 = 0xffff_ffff;
    let (eights, rest) = s.as_chunks::<8>();
    for eight in eights {
        c = after_eight(t, eight, c);
    }
    for x in rest {
        c = carried(t, 0, c, *x) ^ (c / 256);
    }
    c ^ 0xffff_ffff
}

// The four octets of the check sequence of s, in the order in which they travel.
#[tactic(auto, using(crate::specs::Division::sequence_is))]
pub fn check_sequence(s: &[u8]) -> [u8; 4]
    ensures { result ≡ check_sequence s.now }
{
    crc_of(s).to_le_bytes()
}
