// Decimal numerals in bytes, read and written.
#![tactic(auto)]

ghost use Rattle.std.specs.Prelude.{◌≡◌, ◌+◌, ◌≤◌, ◌<◌, length};
ghost use Rattle.numerals.specs.Numerals.{digits, numeral_of, Put};

// The number of a digit.
pub fn digit(c: u8) -> u64
    requires { 48 ≤ c }
    ensures { result + 48 ≡ c }
{
    (c - b'0') as u64
}

// The number that the text is the numeral of, in 1 to `most` digits.
#[tactic(auto, using(crate::proofs::Reading::reads))]
pub fn read_numeral(text: &[u8], most: usize) -> Option<u64>
    requires { most ≤ 19 }
    ensures { result ≡ numeral_of most text.now }
{
    if text.is_empty() {
        return None; // no digit
    }
    if most < text.len() {
        return None; // too many digits
    }
    if text[0] == b'0' {
        if text.len() == 1 {
            return Some(0);
        }
        return None; // a leading zero
    }
    let mut x = 0;
    for &c in text {
        if !c.is_ascii_digit() {
            return None;
        }
        x = 10 * x + digit(c);
    }
    Some(x)
}

// Writes the numeral of a number below 10 into out at `at`, and returns the place after it.
fn put_digit(x: u64, at: usize, out: &mut [u8]) -> usize
    requires { (x < 10) × (at < length out.old) }
    ensures { Put x at result out.old out.new }
{
    out[at] = b'0' + x as u8;
    at + 1
}

// Writes the numeral of x into out from `at` on, and returns the place after it. By hand: what `write!` leaves in a slice no contract of the library says.
// List and place go one by one: a struct that lends the list would have to say that it is the same list afterwards.
#[tactic(auto, using(crate::proofs::Written::room_after))]
pub fn put_digits(x: u64, at: usize, out: &mut [u8]) -> usize
    requires { at + length (digits x) ≤ length out.old }
    ensures { Put x at result out.old out.new }
{
    if x < 10 {
        return put_digit(x, at, out);
    }
    let last = put_digits(x / 10, at, out);
    put_digit(x % 10, last, out)
}
