// Numbers and words as text.

#![tactic(auto)]

ghost use Rattle.std.specs.Prelude.{◌≡◌, [], ◌∷◌, ◌++◌, ◌+◌, ◌≤◌, length};
ghost use Rattle.report_text.specs.Text.{written, puts, decimal, numbered, counted, placed, line};
ghost use Rattle.report_text.specs.Text.{first_line, space};

// n in decimal, written at `at`. Answers where it ends, as all here do.
fn put_decimal(out: &mut [u8], at: usize, n: u32) -> usize
    requires { at + 10 ≤ length out.old }
    ensures text { written result out.new ≡ puts out.old at (decimal n) }
    ensures small { result ≤ at + 10 }
{
    let mut digits = itoa::Buffer::new();
    let text = digits.format(n).as_bytes();
    octets_copies::store(out, at, text);
    at + text.len()
}

// A number with an octet after it.
fn put_number(out: &mut [u8], at: usize, n: u32, after: u8) -> usize
    requires { at + 11 ≤ length out.old }
    ensures text { written result out.new ≡ puts out.old at (numbered n after) }
    ensures small { result ≤ at + 11 }
{
    let end = put_decimal(out, at, n);
    out[end] = after;
    end + 1
}

// A word with a space after it.
fn put_word(out: &mut [u8], at: usize, word: &[u8]) -> usize
    requires { at + length word.now + 1 ≤ length out.old }
    ensures text { written result out.new
        ≡ puts out.old at (word.now ++ (space ∷ [])) }
    ensures small { result ≤ at + length word.now + 1 }
{
    octets_copies::store(out, at, word);
    let end = at + word.len();
    out[end] = b' ';
    end + 1
}

// A word, and a number with an octet after it.
pub fn put_counted(out: &mut [u8], at: usize, word: &[u8], n: u32, after: u8) -> usize
    requires { at + length word.now + 12 ≤ length out.old }
    ensures text { written result out.new
        ≡ puts out.old at (counted word.now n after) }
    ensures small { result ≤ at + length word.now + 12 }
{
    let middle = put_word(out, at, word);
    put_number(out, middle, n, after)
}

// Time and station.
fn put_place(out: &mut [u8], at: usize, t: u32, i: u32) -> usize
    requires { at + 22 ≤ length out.old }
    ensures text { written result out.new ≡ puts out.old at (placed t i) }
    ensures small { result ≤ at + 22 }
{
    let middle = put_number(out, at, t, b' ');
    put_number(out, middle, i, b' ')
}

// The line of an event: time, station, word, number.
pub fn put_line(out: &mut [u8], at: usize, t: u32, i: u32, word: &[u8], n: u32) -> usize
    requires { at + length word.now + 34 ≤ length out.old }
    ensures text { written result out.new ≡ puts out.old at (line t i word.now n) }
    ensures small { result ≤ at + length word.now + 34 }
{
    let middle = put_place(out, at, t, i);
    put_counted(out, middle, word, n, b'\n')
}

// The first line: N, and whether the layout fits.
pub fn put_first(out: &mut [u8], n: u32, fit: &[u8]) -> usize
    requires { 20 + length fit.now ≤ length out.old }
    ensures text { written result out.new ≡ puts out.old 0 (first_line n fit.now) }
    ensures small { result ≤ 20 + length fit.now }
{
    let middle = put_counted(out, 0, b"stations", n, b' ');
    octets_copies::store(out, middle, fit);
    middle + fit.len()
}
