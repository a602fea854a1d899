// The check on what the host lends: columns of bytes in, lists of bytes written.
#![tactic(auto)]

ghost use Rattle.article.specs.Answer.{make_answer};
ghost use Rattle.columns.specs.Columns.{count_in};
ghost use Rattle.verdict.specs.Scratch.{HasRoom, SameLists};
ghost use Rattle.lent.specs.Boundary.{make_lent, Answers, Checks};

use columns::Columns;
use holding::Head;
use verdict::{Scratch, Verdict};

// Puts two numbers into an answer slice of 16 bytes or more, and returns the number, which is what the host gets.
pub fn put_answer(number: u64, first: u64, second: u64, out: &mut [u8]) -> u64
    ensures { Answers (make_answer number first second) out.old out.new result }
{
    let enough = out.len() >= 16;
    if enough {
        words::write_words(&[first, second], out);
    }
    number
}

// The check of what is lent, with scratch for its holdings: an accepted answer's remainders and ranking go into their lists, and the answer's
// number is returned.
pub fn judge(
    head: Head,
    columns: &Columns<'_>,
    remainder: &mut [u8],
    ranking: &mut [u8],
    answer: &mut [u8],
    scratch: &mut Scratch<'_>,
) -> u64
    requires { HasRoom (count_in columns.now.holdings) scratch.old }
    ensures checks { Checks head columns.now
        (make_lent remainder.old ranking.old answer.old)
        (make_lent remainder.new ranking.new answer.new) result }
    ensures same { SameLists scratch.old scratch.new }
{
    let n = columns.holdings();
    let two = sizes::lists_too_short(n, remainder.len(), ranking.len(), answer.len());
    match verdict::check(two, head, columns, scratch) {
        Verdict::Accepted { units, cents } => {
            words::write_words(&scratch.left[..n], remainder);
            words::write_words(&scratch.ranks[..n], ranking);
            put_answer(0, units, cents, answer)
        }
        Verdict::Refused {
            number,
            place,
            second,
        } => put_answer(number, place, second, answer),
    }
}
