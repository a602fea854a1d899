// A book as the host lends it: one list of bytes, 56 for each record, changed in place.
#![tactic(auto)]

ghost use Rattle.std.specs.Prelude.{◌≡◌, ◌+◌, ◌*◌, ◌≤◌, length, set};
ghost use Rattle.booking.specs.Seeing.{changed, Fits, Concluded};
ghost use Rattle.daybook.specs.Book.{valued, make_book};
ghost use Rattle.daybook.specs.declared.Order.{TheVariants.MoveTo};
ghost use Rattle.records.specs.Records.{records_in, row_at, rows_in, too_short, make_slices, Books};
ghost use Rattle.records.specs.Writing.{Rewritten, Stored, Writable, Replied};

use booking::{Change, Outcome};
use daybook::{Day, Order, Reply};
use holding::{Head, Row};

// The row of record i: side, kind, issuer, maturity, value, currency, rating. The literal is the table of the record; a loop over numbers would name them again.
fn row_at(list: &[u8], i: usize) -> Row
    requires { 56 * i + 56 ≤ length list.now }
    ensures { result ≡ row_at list.now i }
{
    let w = 7 * i;
    Row {
        side: words::word(list, w),
        kind: words::word(list, w + 1),
        issuer: words::word(list, w + 2),
        maturity: words::word(list, w + 3),
        value: words::word(list, w + 4),
        currency: words::word(list, w + 5),
        rating: words::word(list, w + 6),
    }
}

// Writes a row as record i; all other bytes are kept.
fn put_row(list: &mut [u8], i: usize, row: Row)
    requires { 56 * i + 56 ≤ length list.old }
    ensures { Rewritten (set (rows_in list.old) i row) list.old list.new }
{
    let numbers = [
        row.side,
        row.kind,
        row.issuer,
        row.maturity,
        row.value,
        row.currency,
        row.rating,
    ];
    words::write_words(&numbers, &mut list[56 * i..56 * i + 56]);
}

// The outcome of an order to a book whose records these are.
fn judge(list: &[u8], day: Day, order: Order<Row>, short: bool) -> Outcome
    ensures { Fits (records_in list.now) result.change × Concluded short (make_book day (rows_in list.now)) order result }
{
    let row = |i: usize| -> Row
        requires { 56 * i + 56 ≤ length list.now }
        ensures { result ≡ row_at list.entry.now i }
    { row_at(list, i) };
    booking::judge(day, list.len() / 56, short, order, &row)
}

// Changes the list: nothing, the trade's record with a value is written, or records move up by one place. Beside `desk`, whose list is of holdings.
fn write(list: &mut [u8], change: Change, trade: Row)
    requires { Fits (records_in list.old) change }
    ensures { Rewritten (changed change (valued trade) (rows_in list.old)) list.old list.new }
{
    match change {
        Change::Stay => {}
        Change::Put { at, value } => {
            let mut row = trade;
            row.value = value;
            put_row(list, at, row);
        }
        Change::CloseUp { first, end } => {
            list.copy_within(56 * first..56 * end, 56 * (first - 1));
        }
    }
}

// Whether totals have fewer than 40 bytes, or an answer slice fewer than 16.
fn too_short(totals: usize, answer: usize) -> bool
    ensures { result ≡ too_short totals answer }
{
    if totals < 40 {
        return true;
    }
    answer < 16
}

// What is stored with a book; of fewer than 40 bytes no total is read.
fn day_of(count: u64, totals: &[u8], head: Head) -> Day
    ensures { Stored count totals.now head result }
{
    let mut five = [0u64; 5];
    if totals.len() >= 40 {
        for k in 0..5 {
            five[k] = words::word(totals, k);
        }
    }
    Day {
        date: head.date,
        letter: head.letter,
        count: count as usize,
        totals: five,
    }
}

// What the host gets of a reply: the totals of an accepted order, and the answer, whose number is returned.
fn put_reply(reply: Reply, totals: &mut [u8], answer: &mut [u8]) -> u64
    requires { Writable reply.finding reply.day.totals totals.old }
    ensures { Replied reply.finding reply.day.totals totals.old totals.new answer.old answer.new result }
{
    let day = reply.day;
    let five = day.totals;
    match reply.finding {
        Ok(count) => {
            words::write_words(&five, totals);
            lent::put_answer(0, count, 0, answer)
        }
        Err(refused) => lent::put_answer(refused.refusal.number(), refused.place, 0, answer),
    }
}

// An order to a lent book of so many records: its list, its totals and the answer are written. The answer's number is returned.
// The slices are parameters of their own, as in the C interface that hands them on.
pub fn book(
    list: &mut [u8],
    count: u64,
    totals: &mut [u8],
    head: Head,
    order: Order<Row>,
    answer: &mut [u8],
) -> u64
    ensures { Books order count head
        (make_slices list.old totals.old answer.old)
        (make_slices list.new totals.new answer.new) result }
{
    let short = too_short(totals.len(), answer.len());
    let day = day_of(count, totals, head);
    let outcome = judge(list, day, order, short);
    let change = outcome.change;
    write(list, change, booking::trade_of(order));
    put_reply(outcome.reply, totals, answer)
}

// A lent book moves to a date: no record changes, and the host lends the list to be read alone.
pub fn move_to(
    list: &[u8],
    count: u64,
    totals: &mut [u8],
    head: Head,
    to: u64,
    answer: &mut [u8],
) -> u64
    ensures { Books (MoveTo to) count head
        (make_slices list.now totals.old answer.old)
        (make_slices list.now totals.new answer.new) result }
{
    let short = too_short(totals.len(), answer.len());
    let day = day_of(count, totals, head);
    let outcome = judge(list, day, Order::MoveTo(to), short);
    put_reply(outcome.reply, totals, answer)
}
