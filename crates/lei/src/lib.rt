// LEIs in bytes: judged, taken as two numbers and written from them, and sought among those known.
#![tactic(auto)]

ghost use Rattle.std.specs.Prelude.{◌≡◌, ◌+◌, ◌≤◌, ◌<◌, length};
ghost use Rattle.lists.specs.Tables.{overwrite};
ghost use Rattle.lei.specs.Lei.{is_character, in_form, value_of, half_of, lei_of, remainder, remainder_next, judged_of, character_of, characters, lei_text};
ghost use Rattle.lei.specs.Numbering.{place_among};

// An LEI as two numbers to the base 36: of its first ten characters and of its last ten.
#[derive(Clone, Copy, PartialEq, Eq)]
pub struct Lei {
    pub high: u64,
    pub low: u64,
}

// Why a text is no LEI: its form, or in good form its remainder.
#[derive(Clone, Copy, PartialEq, Eq)]
pub enum NotLei {
    Form,
    Remainder,
}

// `A` to `Z` or `0` to `9`.
#[tactic(auto, unfolding(crate::specs::Lei::is_character, crate::specs::Lei::is_capital, crate::specs::Lei::is_digit, lists::specs::Choice::within))]
fn is_character(c: u8) -> bool
    ensures { result ≡ is_character c }
{
    c.is_ascii_uppercase() || c.is_ascii_digit()
}

// Whether the text is 18 capitals or digits and then 2 digits.
fn in_form(text: &[u8]) -> bool
    ensures { result ≡ in_form text.now }
{
    if text.len() != 20 {
        return false;
    }
    let (first, last) = text.split_at(18);
    first.iter().all(|&c| is_character(c)) && last.iter().all(|&c| c.is_ascii_digit())
}

// The number of a character. The digit is worked out before the test, so that a character takes no branch.
fn value(c: u8) -> u64
    ensures { (result ≡ value_of c) × (result ≤ 207) }
{
    let digit = c.saturating_sub(b'0');
    if c.is_ascii_uppercase() {
        return (digit - 7) as u64;
    }
    digit as u64
}

// The remainder by 97, one character on.
fn remainder_next(r: u64, c: u8) -> u64
    requires { r < 97 }
    ensures { (result ≡ remainder_next r c) × (result < 97) }
{
    if c.is_ascii_uppercase() {
        return (100 * r + value(c)) % 97;
    }
    (10 * r + value(c)) % 97
}

// The remainder by 97 of the text's number.
#[tactic(auto, using(crate::proofs::Remainders::remains))]
fn remainder(text: &[u8]) -> u64
    ensures { result ≡ remainder text.now }
{
    let mut r = 0;
    for &c in text {
        r = remainder_next(r, c);
    }
    r
}

// The number of up to ten characters to the base 36.
#[tactic(auto, using(crate::proofs::Halves::halves))]
fn half(text: &[u8]) -> u64
    requires { length text.now ≤ 10 }
    ensures { result ≡ half_of text.now }
{
    let mut x = 0;
    for &c in text {
        x = 36 * x + value(c);
    }
    x
}

// Whether the text is an LEI: its form is tested before its remainder.
#[tactic(auto, using(crate::proofs::Judging::judges))]
pub fn judge(text: &[u8]) -> Result<(), NotLei>
    ensures { result ≡ judged_of text.now }
{
    if !in_form(text) {
        return Err(NotLei::Form);
    }
    if remainder(text) != 1 {
        return Err(NotLei::Remainder);
    }
    Ok(())
}

// The two numbers of a text of 20 bytes; zeros of any other, since it is taken of every record, whatever its issuer is.
#[tactic(auto, using(crate::proofs::Judging::takes))]
pub fn lei_of(text: &[u8]) -> Lei
    ensures { result ≡ lei_of text.now }
{
    if text.len() != 20 {
        return Lei { high: 0, low: 0 };
    }
    Lei {
        high: half(&text[..10]),
        low: half(&text[10..]),
    }
}

// The character of a number.
#[tactic(auto, unfolding(crate::specs::Lei::character_of))]
fn character(v: u64) -> u8
    requires { v < 36 }
    ensures { result ≡ character_of v }
{
    if v < 10 {
        return b'0' + v as u8;
    }
    b'A' + (v - 10) as u8
}

// Writes the k lowest digits of v to the base 36 into out from `at` on; all other bytes are kept. The library writes no number to that base.
#[tactic(auto, using(crate::proofs::Written::writes))]
fn put_characters(k: usize, v: u64, at: usize, out: &mut [u8])
    requires { at + k ≤ length out.old }
    ensures { out.new ≡ overwrite at (characters k v) out.old }
{
    if k == 0 {
        return;
    }
    let before = k - 1;
    put_characters(before, v / 36, at, out);
    out[at + before] = character(v % 36);
}

// Writes the 20 bytes of an LEI into out from `at` on; all other bytes are kept. List and place go one by one, as in `numerals`.
#[tactic(auto, using(crate::proofs::Written::writes))]
pub fn put_lei(lei: Lei, at: usize, out: &mut [u8])
    requires { at + 20 ≤ length out.old }
    ensures { out.new ≡ overwrite at (lei_text lei) out.old }
{
    put_characters(10, lei.high, at, out);
    put_characters(10, lei.low, at + 10, out);
}

// The first place of an LEI among those known.
pub fn number_of(known: &[Lei], lei: Lei) -> Option<usize>
    ensures { result ≡ place_among known.now lei }
{
    known.iter().position(|k| lei == *k)
}
