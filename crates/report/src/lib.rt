// What is printed of a verdict: its lines, as bytes in a lent list.
#![tactic(auto)]

ghost use Rattle.std.specs.Prelude.{◌≡◌, ◌+◌, ◌*◌, ◌≤◌, ◌<◌, length, get_or, take};
ghost use mathlib.Core.List.{[], ◌∷◌, flat_map};
ghost use Rattle.lists.specs.Tables.{list_to};
ghost use Rattle.article.specs.Answer.{make_answer};
ghost use Rattle.verdict.specs.Judges.{answer_of};
ghost use Rattle.report.specs.Report.{Written, report_room, Prints, after_comma, line_of, answer_numbers, refusal_line, judged_line, report_of};

use refusals::Refusal;
use verdict::Verdict;

// Room for 257 lines of at most 66 bytes.
pub const ROOM: usize = 257 * 66;

// What the check leaves in its lists: each holding's remainder, the margin of that, and the ranking.
#[derive(Clone, Copy)]
pub struct Lists<'a> {
    pub left: &'a [u64],
    pub margins: &'a [u64],
    pub ranks: &'a [u64],
}

// Writes a byte into out at `at`, and returns the place after it.
// By hand, as numbers and lines are: what `write!` leaves in a slice no contract of the library says. List and place go one by one, as in `numerals`.
fn put_byte(byte: u8, at: usize, out: &mut [u8]) -> usize
    requires { at < length out.old }
    ensures { Written (byte ∷ []) at result out.old out.new }
{
    out[at] = byte;
    at + 1
}

// Writes a comma and the numeral of x from `at` on, and returns the place after them.
fn put_number(x: u64, at: usize, out: &mut [u8]) -> usize
    requires { at + 21 ≤ length out.old }
    ensures { Written (after_comma x) at result out.old out.new × (result ≤ at + 21) }
{
    let next = put_byte(b',', at, out);
    numerals::put_digits(x, next, out)
}

// Writes a line from `at` on: the letter, the numbers, CRLF. Returns the place after it.
fn put_line(letter: u8, numbers: &[u64], at: usize, out: &mut [u8]) -> usize
    requires { (length numbers.now ≤ 3) × (at + 66 ≤ length out.old) }
    ensures { Written (line_of (letter ∷ []) numbers.now) at result out.old out.new × (result ≤ at + 66) }
{
    let mut next = put_byte(letter, at, out);
    for x in numbers {
        next = put_number(*x, next, out);
    }
    let last = put_byte(b'\r', next, out);
    put_byte(b'\n', last, out)
}

// The paper's number and values of a verdict.
// It is printed by these and not by its case: a refusal of number 0 is none.
fn numbers_of(verdict: Verdict) -> [u64; 3]
    ensures { result ≡ answer_numbers (answer_of verdict) }
{
    match verdict {
        Verdict::Accepted { units, cents } => [0, units, cents],
        Verdict::Refused {
            number,
            place,
            second,
        } => [number, place, second],
    }
}

// What a list has at a number, 0 past its end.
fn entry(list: &[u64], k: u64) -> u64
    ensures { result ≡ get_or list.now k 0 }
{
    list.get(k as usize).copied().unwrap_or(0)
}

// Writes the R lines of the first `count` holdings of a ranking of at most 256 from `at` on, and returns the place after them.
fn put_remainders(count: usize, lists: &Lists<'_>, at: usize, out: &mut [u8]) -> usize
    requires { at + 66 * 256 ≤ length out.old }
    ensures { Written
        (flat_map (judged_line lists.now.left.now lists.now.margins.now) (take count (list_to 256 (λ k. get_or lists.now.ranks.now k 0))))
        at result out.old out.new }
{
    let mut next = at;
    for i in 0..count.min(256) {
        let k = entry(lists.ranks, i as u64);
        let cents = entry(lists.left, k);
        let units = entry(lists.margins, k);
        next = put_line(b'R', &[k, cents, units], next, out);
    }
    next
}

// Writes the lines of a verdict on `count` holdings at the front of out, and returns how many bytes they are.
fn put_report(verdict: Verdict, count: usize, lists: &Lists<'_>, out: &mut [u8]) -> usize
    requires { report_room ≤ length out.old }
    ensures { Written (report_of verdict count lists.now.left.now lists.now.margins.now lists.now.ranks.now)
        0 result out.old out.new }
{
    let [number, first, second] = numbers_of(verdict);
    if number != 0 {
        return put_line(b'X', &[number, first, second], 0, out);
    }
    let next = put_line(b'M', &[first, second], 0, out);
    put_remainders(count, lists, next, out)
}

// Prints a text at the front of out, and returns how many bytes it is; a list that it is longer than is left alone.
fn print(text: &[u8], out: &mut [u8]) -> Result<usize, Refusal>
    ensures { Prints text.now out.old out.new result }
{
    let bytes = text.len();
    if out.len() < bytes {
        return Err(Refusal::NoRoom);
    }
    lists::copy(text, out);
    Ok(bytes)
}

// Prints the lines of a verdict on `count` holdings; the lists may be longer.
pub fn report(
    verdict: Verdict,
    count: usize,
    lists: &Lists<'_>,
    out: &mut [u8],
) -> Result<usize, Refusal>
    ensures prints { Prints (report_of verdict count lists.now.left.now lists.now.margins.now lists.now.ranks.now)
        out.old out.new result }
    ensures ranks_len_bound { length (report_of verdict count lists.now.left.now lists.now.margins.now lists.now.ranks.now) ≤ report_room }
{
    let mut lines = [0u8; ROOM];
    let n = put_report(verdict, count, lists, &mut lines);
    print(&lines[..n], out)
}

// Prints the line of a refusal, of any number.
pub fn refusal(number: u64, place: u64, second: u64, out: &mut [u8]) -> Result<usize, Refusal>
    ensures prints { Prints (refusal_line (make_answer number place second)) out.old out.new result }
    ensures second_len_bound { length (refusal_line (make_answer number place second)) ≤ report_room }
{
    let mut line = [0u8; 66];
    let n = put_line(b'X', &[number, place, second], 0, &mut line);
    print(&line[..n], out)
}
