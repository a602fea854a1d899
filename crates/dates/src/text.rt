// The text of a number of eight digits, YYYY-MM-DD, read; the number need not be a date.
ghost use Rattle.std.specs.Prelude.{◌≡◌, ◌+◌, ◌≤◌, ◌<◌, length, IfSome};
ghost use Rattle.dates.specs.Text.{read_date, two_at};

// The number of two digits.
#[tactic(auto, using(crate::proofs::Texts::finds))]
fn two_at(text: &[u8], at: usize) -> Option<u64>
    requires { at + 1 < length text.now }
    ensures value { result ≡ two_at text.now at }
    ensures below { IfSome result (λ x. x ≤ 99) }
{
    let a = text[at];
    let b = text[at + 1];
    if !a.is_ascii_digit() || !b.is_ascii_digit() {
        return None;
    }
    Some(10 * numerals::digit(a) + numerals::digit(b))
}

// The number of a text of the form YYYY-MM-DD.
#[tactic(auto, using(crate::proofs::Texts::finds))]
pub fn read_date(text: &[u8]) -> Option<u64>
    ensures { result ≡ read_date text.now }
{
    if text.len() != 10 {
        return None;
    }
    if text[4] != b'-' {
        return None;
    }
    if text[7] != b'-' {
        return None;
    }
    let century = two_at(text, 0)?;
    let year = two_at(text, 2)?;
    let month = two_at(text, 5)?;
    let day = two_at(text, 8)?;
    Some(1000000 * century + 10000 * year + 100 * month + day)
}
