// Numbers of two and four octets, high octet first, and rows of them. Each function takes a slice and a place in it: with
// the part from there on in their stead, every caller would have to cut it.

#![tactic(auto)]

ghost use Rattle.std.specs.Prelude.{◌≡◌, ◌+◌, ◌*◌, ◌<◌, ◌≤◌, length};
ghost use Rattle.octets.specs.Number.{get, put};
ghost use Rattle.octets.specs.Words.{put_words, words_at};

// The number of two octets at `at`, high octet first.
#[tactic(auto, using(octets::specs::NumberLaws::get_two, octets::specs::Store::two_octets))]
pub fn get16(s: &[u8], at: usize) -> u32
    requires { at + 2 ≤ length s.now }
    ensures value { result ≡ get 2 s.now at }
    ensures small { result < 65536 }
{
    u32::from(u16::from_be_bytes([s[at], s[at + 1]]))
}

// The number of four octets at `at`, high octet first.
#[tactic(auto, using(octets::specs::NumberLaws::get_four))]
pub fn get32(s: &[u8], at: usize) -> u32
    requires { at + 4 ≤ length s.now }
    ensures { result ≡ get 4 s.now at }
{
    u32::from_be_bytes(octets_copies::array_at(s, at))
}

// Writes the number v over the two octets from `at` on, high octet first.
pub fn put16(s: &mut [u8], at: usize, v: u16)
    requires { at + 2 ≤ length s.old }
    ensures { s.new ≡ put 2 s.old at v }
{
    octets_copies::store(s, at, &v.to_be_bytes());
}

// Writes the number v over the four octets from `at` on, high octet first.
pub fn put32(s: &mut [u8], at: usize, v: u32)
    requires { at + 4 ≤ length s.old }
    ensures { s.new ≡ put 4 s.old at v }
{
    octets_copies::store(s, at, &v.to_be_bytes());
}

// Writes 32-bit words one after the other from octet `at` on.
pub fn store_words(s: &mut [u8], at: usize, words: &[u32])
    requires { at + 4 * length words.now ≤ length s.old }
    ensures { s.new ≡ put_words (length words.now) s.old at words.now }
{
    for (k, word) in words.iter().enumerate() {
        put32(s, at + 4 * k, *word);
    }
}

// Fills `words` with the 32-bit words that stand from octet `at` on.
pub fn load_words(s: &[u8], at: usize, words: &mut [u32])
    requires { at + 4 * length words.old ≤ length s.now }
    ensures { words.new ≡ words_at (length words.old) s.now at }
{
    for (k, word) in words.iter_mut().enumerate() {
        *word = get32(s, at + 4 * k);
    }
}
