// Booking for the desk's Rust host, in an archive of its own: lists of records as byte slices.
#![tactic(auto)]

ghost use Rattle.std.specs.Prelude.{[], ◌∷◌};
ghost use Rattle.holding.specs.Holding.{head_by, row_by};
ghost use Rattle.daybook.specs.declared.Order.{TheVariants.Add, TheVariants.Take, TheVariants.MoveTo};
ghost use Rattle.records.specs.Records.{make_slices, Books};

use daybook::Order;
use holding::{Head, Row};

// Adds a trade to a book, for the host: `list` has 56 bytes for each record and `count` says how many of them are the book's; `totals` has its five
// totals. All of it is changed in place, and on a refusal none of it. Returns the refusal number, 0 for accepted; the new count stands in the answer slice.
// Nothing is presumed of the bytes, the numbers or the lengths. The C interface has a parameter for each number and each slice.
#[unsafe(no_mangle)]
pub extern "C" fn margin_add(
    list: &mut [u8],
    count: u64,
    totals: &mut [u8],
    date: u64,
    letter: u64,
    side: u64,
    kind: u64,
    issuer: u64,
    maturity: u64,
    currency: u64,
    rating: u64,
    value: u64,
    answer: &mut [u8],
) -> u64
    ensures { Books (Add (row_by (side ∷ kind ∷ issuer ∷ maturity ∷ value ∷ currency ∷ rating ∷ []))) count (head_by (date ∷ letter ∷ []))
        (make_slices list.old totals.old answer.old)
        (make_slices list.new totals.new answer.new) result }
{
    let head = Head { date, letter };
    let trade = Row {
        side,
        kind,
        issuer,
        maturity,
        value,
        currency,
        rating,
    };
    records::book(list, count, totals, head, Order::Add(trade), answer)
}

// Takes a trade from a book, in the same way. The C interface has a parameter for each number; what the two share is `records::book`.
#[unsafe(no_mangle)]
pub extern "C" fn margin_take(
    list: &mut [u8],
    count: u64,
    totals: &mut [u8],
    date: u64,
    letter: u64,
    side: u64,
    kind: u64,
    issuer: u64,
    maturity: u64,
    currency: u64,
    rating: u64,
    value: u64,
    answer: &mut [u8],
) -> u64
    ensures { Books (Take (row_by (side ∷ kind ∷ issuer ∷ maturity ∷ value ∷ currency ∷ rating ∷ []))) count (head_by (date ∷ letter ∷ []))
        (make_slices list.old totals.old answer.old)
        (make_slices list.new totals.new answer.new) result }
{
    let head = Head { date, letter };
    let trade = Row {
        side,
        kind,
        issuer,
        maturity,
        value,
        currency,
        rating,
    };
    records::book(list, count, totals, head, Order::Take(trade), answer)
}

// Moves a book to a later date, in the same way: no record changes. The C interface has a parameter for each number.
#[unsafe(no_mangle)]
pub extern "C" fn margin_move(
    list: &[u8],
    count: u64,
    totals: &mut [u8],
    date: u64,
    letter: u64,
    to: u64,
    answer: &mut [u8],
) -> u64
    ensures { Books (MoveTo to) count (head_by (date ∷ letter ∷ []))
        (make_slices list.now totals.old answer.old)
        (make_slices list.now totals.new answer.new) result }
{
    let head = Head { date, letter };
    records::move_to(list, count, totals, head, to, answer)
}
