// The reader and the check for the desk's Rust host: columns and lent lists as byte slices.
#![tactic(auto)]

ghost use Rattle.std.specs.Prelude.{[], ◌∷◌, ◌≡◌, ◌*◌, ◌≤◌, ◌<◌, length};
ghost use Rattle.holding.specs.Holding.{head_by};
ghost use Rattle.columns.specs.Columns.{count_in, make_columns};
ghost use Rattle.columns.specs.Filling.{columns_in, SameLists};
ghost use Rattle.lent.specs.Boundary.{make_lent, Checks};
ghost use Rattle.received.specs.Reading.{Reads};
ghost use Rattle.received.specs.Naming.{Names};

use columns::{Columns, ColumnsMut};
use holding::Head;
use lei::Lei;
use verdict::Scratch;

// The bytes of the tables that the reader fills, with 72 and with 512 entries in each column: a book's table has a column for each field of a holding, a
// proposal's for each of a line.
const BOOK_72: usize = 8 * 72 * (rfc4180::FIELDS - 1);

const LINES_72: usize = 8 * 72 * 3;

const BOOK_512: usize = 8 * 512 * (rfc4180::FIELDS - 1);

const LINES_512: usize = 8 * 512 * 3;

// The check with scratch of N entries in each list.
fn check_in<const N: usize>(
    head: Head,
    columns: &Columns<'_>,
    remainder: &mut [u8],
    ranking: &mut [u8],
    answer: &mut [u8],
) -> u64
    requires few { N ≤ 256 }
    requires room { count_in columns.now.holdings ≤ 256 → count_in columns.now.holdings ≤ N }
    ensures { Checks head columns.now
        (make_lent remainder.old ranking.old answer.old)
        (make_lent remainder.new ranking.new answer.new) result }
{
    let mut scratch = Scratch {
        legs: &mut [0; N],
        left: &mut [0; N],
        margins: &mut [0; N],
        ranks: &mut [0; N],
    };
    lent::judge(head, columns, remainder, ranking, answer, &mut scratch)
}

// The check of a proposal, for the host: returns the refusal number, 0 for accepted. Scratch has 4 entries for a book of up to 4 holdings,
// 16 for one of up to 16, and 256 for any other. Nothing is presumed of the bytes or the lengths; that a pointer leads to its bytes, and that no other
// refers to a list meanwhile, is what a slice means, and the host's borrow sees to it.
#[tactic(auto, unfolding(columns::specs::Columns::count_in, words::specs::Words::entries))]
#[unsafe(no_mangle)]
pub extern "C" fn margin_check(
    date: u64,
    letter: u64,
    side: &[u8],
    kind: &[u8],
    issuer: &[u8],
    maturity: &[u8],
    value: &[u8],
    price: &[u8],
    currency: &[u8],
    rating: &[u8],
    long: &[u8],
    short: &[u8],
    amount: &[u8],
    remainder: &mut [u8],
    ranking: &mut [u8],
    answer: &mut [u8],
) -> u64
    ensures { Checks (head_by (date ∷ letter ∷ []))
        (make_columns
        (side.now ∷ kind.now ∷ issuer.now ∷ maturity.now ∷ value.now ∷ currency.now ∷ rating.now ∷ [])
        price.now
        (long.now ∷ short.now ∷ amount.now ∷ []))
        (make_lent remainder.old ranking.old answer.old)
        (make_lent remainder.new ranking.new answer.new) result }
{
    let head = Head { date, letter };
    let columns = Columns {
        side,
        kind,
        issuer,
        maturity,
        value,
        price,
        currency,
        rating,
        long,
        short,
        amount,
    };
    if side.len() <= 32 {
        return check_in::<4>(head, &columns, remainder, ranking, answer);
    }
    if side.len() <= 128 {
        return check_in::<16>(head, &columns, remainder, ranking, answer);
    }
    check_in::<256>(head, &columns, remainder, ranking, answer)
}

// The reader with tables of ROWS entries in each column, of BOOK and LINES bytes. A function of its own, so that a short text's call has no large table to
// fill. Three numbers, since an array's length is no product of a parameter.
fn read_in<const ROWS: usize, const BOOK: usize, const LINES: usize>(
    text: &[u8],
    head: &mut [u8],
    columns: &mut ColumnsMut<'_>,
    answer: &mut [u8],
) -> u64
    requires few { ROWS ≤ 512 }
    requires enough { ROWS < 512 → length text.now ≤ ROWS }
    requires book { BOOK ≡ 64 * ROWS }
    requires lines { LINES ≡ 24 * ROWS }
    ensures read { Reads text.now head.old head.new (columns_in columns.old) (columns_in columns.new) answer.old answer.new result }
    ensures same { SameLists columns.old columns.new }
{
    let mut book = [0u8; BOOK];
    let mut lines = [0u8; LINES];
    let mut known = [Lei { high: 0, low: 0 }; 256];
    received::read_into(
        text, ROWS, &mut book, &mut lines, &mut known, head, columns, answer,
    )
}

// Reads a file into the columns, for the host: returns the refusal number, 0 for none. Tables of 72 entries serve a short text, which has no more
// records than bytes, and 512 any other. Nothing is presumed of the text, the bytes or the lengths.
#[unsafe(no_mangle)]
pub extern "C" fn margin_read(
    text: &[u8],
    head: &mut [u8],
    side: &mut [u8],
    kind: &mut [u8],
    issuer: &mut [u8],
    maturity: &mut [u8],
    value: &mut [u8],
    price: &mut [u8],
    currency: &mut [u8],
    rating: &mut [u8],
    long: &mut [u8],
    short: &mut [u8],
    amount: &mut [u8],
    answer: &mut [u8],
) -> u64
    ensures { Reads text.now head.old head.new
        (make_columns
        (side.old ∷ kind.old ∷ issuer.old ∷ maturity.old ∷ value.old ∷ currency.old ∷ rating.old ∷ [])
        price.old
        (long.old ∷ short.old ∷ amount.old ∷ []))
        (make_columns
        (side.new ∷ kind.new ∷ issuer.new ∷ maturity.new ∷ value.new ∷ currency.new ∷ rating.new ∷ [])
        price.new
        (long.new ∷ short.new ∷ amount.new ∷ []))
        answer.old answer.new result }
{
    let mut columns = ColumnsMut {
        side,
        kind,
        issuer,
        maturity,
        value,
        price,
        currency,
        rating,
        long,
        short,
        amount,
    };
    if text.len() <= 72 {
        return read_in::<72, BOOK_72, LINES_72>(text, head, &mut columns, answer);
    }
    read_in::<512, BOOK_512, LINES_512>(text, head, &mut columns, answer)
}

// Writes the LEIs of a file's corporations, for the host: 20 bytes each, in the order of their numbers from 100. Returns the refusal number, 0 for none.
// Nothing is presumed of the text, the bytes or the lengths.
#[unsafe(no_mangle)]
pub extern "C" fn margin_leis(text: &[u8], leis: &mut [u8], answer: &mut [u8]) -> u64
    ensures { Names text.now leis.old leis.new answer.old answer.new result }
{
    let mut book = [0u8; BOOK_512];
    let mut lines = [0u8; LINES_512];
    let mut known = [Lei { high: 0, low: 0 }; 256];
    received::leis_into(text, 512, &mut book, &mut lines, &mut known, leis, answer)
}
