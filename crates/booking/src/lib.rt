// An order judged on a book that is seen one holding at a time: by value, whatever list holds it.
#![tactic(auto)]

ghost use Rattle.std.specs.Prelude.{◌≡◌, true, ℕ, ◌+◌, ◌-◌, ◌*◌, ◌≤◌, ◌<◌, List, length};
ghost use Rattle.lists.specs.Choice.{first_of};
ghost use Rattle.refusals.specs.Refusals.{refused_by};
ghost use Rattle.dates.specs.Calendar.{is_date};
ghost use Rattle.holding.specs.Holding.{Builds};
ghost use Rattle.holding.specs.declared.Row.{Row};
ghost use Rattle.daybook.specs.Book.{alike, valued};
ghost use Rattle.booking.specs.Seeing.{trade_of, Opens, OpensLater, OpensAgain, Unseen, Countable, Sees, Lists, Scans, Known, Concludes, Judges};
ghost use Rattle.booking.specs.Settling.{Rates, adding_faults, Adds, Takes, outcome_by, Tradable};

use daybook::{Day, Order, Refused, Reply};
use holding::{Account, Head, Holding, Row};
use refusals::Refusal;

// What was seen of holdings without fault: the place of the first one equal to the trade, or how many were seen where none is, which is where the trade joins;
// what that one holds; and the five totals.
#[derive(Clone, Copy)]
pub struct Scan {
    pub at: usize,
    pub held: u64,
    pub totals: [u64; 5],
}

// What is to be done to a list: nothing; the trade's description with a value goes to a place; or a holding leaves, and entries from `first` to before `end`
// move up by one place.
#[derive(Clone, Copy)]
pub enum Change {
    Stay,
    Put { at: usize, value: u64 },
    CloseUp { first: usize, end: usize },
}

// An order accepted: what is then stored with the book, and what is to be done to its list.
#[derive(Clone, Copy)]
struct Settled {
    pub day: Day,
    pub change: Change,
}

// What an order gets, and what is to be done to the book's list.
#[derive(Clone, Copy)]
pub struct Outcome {
    pub reply: Reply,
    pub change: Change,
}

// A trade's place among the totals, which is its period's, and its rate.
#[derive(Clone, Copy)]
struct AtRate {
    pub place: usize,
    pub rate: u64,
}

// A book before its holdings, in a list of so many entries: its account, or 3, 2, 24, 26. `short` says whether 2 holds of another list.
pub fn open(day: Day, room: usize, short: bool) -> Result<Account, Refusal>
    ensures { Opens short room day result }
{
    if day.count > 256 {
        return Err(Refusal::TooManyHoldings);
    }
    if room < day.count {
        return Err(Refusal::NoRoom);
    }
    if short {
        return Err(Refusal::NoRoom);
    }
    holding::account_of(Head {
        date: day.date,
        letter: day.letter,
    })
}

// The account on the date that a book moves to, or 24, and 27 for a date that is not later.
pub fn later(day: Day, account: Account, to: u64) -> Result<Account, Refusal>
    ensures { OpensLater day account to result }
{
    if !dates::is_date(to) {
        return Err(Refusal::Date);
    }
    if to <= day.date {
        return Err(Refusal::Booking);
    }
    Ok(Account {
        date: to as u32,
        letter: account.letter,
    })
}

// What is to be seen once more: for a move the same holdings, in the account of the new date, or 24; for any other order nothing.
pub fn again(order: Order<Row>, account: Account) -> Option<Result<Account, Refusal>>
    ensures { OpensAgain order account result }
{
    match order {
        Order::Add(_t) => None,
        Order::Take(_t) => None,
        Order::MoveTo(to) => {
            if !dates::is_date(to) {
                return Some(Err(Refusal::Date));
            }
            Some(Ok(Account {
                date: to as u32,
                letter: account.letter,
            }))
        }
    }
}

// The row that a move has for its trade, as the definition has it: what is seen is compared with a row in any case.
const NO_ROW: Row = Row {
    side: 0,
    kind: 0,
    issuer: 0,
    maturity: 0,
    value: 0,
    currency: 0,
    rating: 0,
};

// The trade of an order; a move has none.
#[tactic(auto, unfolding(crate::specs::Seeing::trade_of))]
pub fn trade_of(order: Order<Row>) -> Row
    ensures { result ≡ trade_of order }
{
    order.trade_or(NO_ROW)
}

// Nothing was seen yet.
pub fn unseen() -> Scan
    ensures { Unseen result }
{
    Scan {
        at: 0,
        held: 0,
        totals: [0; 5],
    }
}

// Whether two rows are equal in side, kind, issuer, maturity, currency and rating. A derived `==` would compare the value too, and `&` takes no branch.
pub fn is_alike(r: Row, t: Row) -> bool
    ensures { result ≡ alike r t }
{
    (r.side == t.side)
        & (r.kind == t.kind)
        & (r.issuer == t.issuer)
        & (r.maturity == t.maturity)
        & (r.currency == t.currency)
        & (r.rating == t.rating)
}

// One holding more is seen, after i others: its first fault with its place, or its margin alone is added to its period's total, and it is compared with the
// trade.
pub fn see(scan: Scan, i: usize, account: Account, row: Row, trade: Row) -> Result<Scan, Refused>
    requires { Countable account i scan }
    ensures { Sees account trade scan i row result }
{
    let h = match holding::holding_of(account, row) {
        Ok(h) => h,
        Err(refusal) => return Err(Refused {
            refusal,
            place: i as u64,
        }),
    };
    let period = rates::period(account, h.maturity);
    let p = (period - 1) as usize;
    let margin = rates::rate_in(account, h, period) * h.value;
    let mut next = scan;
    next.totals[p] += margin;
    if next.at == i {
        if is_alike(row, trade) {
            next.held = row.value;
        } else {
            next.at = i + 1;
        }
    }
    Ok(next)
}

// The first holdings of a list, seen one after another; `row` gives the row at a place.
fn see_rows<F: Fn(usize) -> Row>(
    row: &F,
    count: usize,
    account: Account,
    trade: Row,
) -> Result<Scan, Refused>
    requires few { count ≤ 256 }
    requires valued { is_date account.date ≡ true }
    requires callable { (i : ℕ) → i < count → F.pre row.now i }
    requires listed { (list : List Row) × Lists (F.post row.now) count list × (count ≤ length list) }
    ensures { Scans account trade count (F.post row.now) result }
{
    let mut scan = unseen();
    for i in 0..count {
        scan = see(scan, i, account, row(i), trade)?;
    }
    Ok(scan)
}

// The first fault of an added value, where the first equal holding holds so much: 8; and where none is, 3 and 2.
fn adding_fault(
    held: u64,
    value: u64,
    joins: bool,
    count: usize,
    room: usize,
) -> Result<(), Refusal>
    ensures { refused_by result ≡ first_of (adding_faults held value joins count room) 0 }
{
    if value < 1 {
        return Err(Refusal::Value);
    }
    if value > 100000000000 {
        return Err(Refusal::Value);
    }
    if held > 100000000000 - value {
        return Err(Refusal::Value);
    }
    if !joins {
        return Ok(());
    }
    if count >= 256 {
        return Err(Refusal::TooManyHoldings);
    }
    if room <= count {
        return Err(Refusal::NoRoom);
    }
    Ok(())
}

// A trade's description as a holding of one cent, or its first fault: 4, 5, 6, 24, 7, 23, 25.
fn described(account: Account, t: Row) -> Result<Holding, Refusal>
    ensures { Builds account (valued t 1) result }
{
    let mut one = t;
    one.value = 1;
    holding::holding_of(account, one)
}

// The place and the rate of a trade, or the first fault of its description.
fn rated(account: Account, t: Row) -> Result<AtRate, Refusal>
    ensures { Rates account t result }
{
    let h = described(account, t)?;
    let period = rates::period(account, h.maturity);
    Ok(AtRate {
        place: (period - 1) as usize,
        rate: rates::rate_in(account, h, period),
    })
}

// Adding a trade to a book that was seen without fault.
fn adding(day: Day, room: usize, scan: Scan, account: Account, t: Row) -> Result<Settled, Refused>
    requires { Tradable day scan account t }
    ensures { Adds day room scan account t result }
{
    let AtRate { place, rate } = rated(account, t)?;
    let joins = scan.at == day.count;
    adding_fault(scan.held, t.value, joins, day.count, room)?;
    let change = Change::Put {
        at: scan.at,
        value: scan.held + t.value,
    };
    let mut next = day;
    next.totals[place] += rate * t.value;
    if joins {
        next.count += 1;
    }
    Ok(Settled { day: next, change })
}

// Taking in the same way: what is held no more leaves, and later ones move up.
fn taking(day: Day, scan: Scan, account: Account, t: Row) -> Result<Settled, Refused>
    requires { Tradable day scan account t }
    ensures { Takes day scan account t result }
{
    let at = rated(account, t)?;
    let value = t.value;
    let held = scan.held;
    if value == 0 {
        return Err(Refused::from(Refusal::Booking));
    }
    if value > held {
        return Err(Refused::from(Refusal::Booking));
    }
    let mut next = day;
    next.totals[at.place] -= at.rate * value;
    let change = if value == held {
        next.count -= 1;
        Change::CloseUp {
            first: scan.at + 1,
            end: day.count,
        }
    } else {
        Change::Put {
            at: scan.at,
            value: held - value,
        }
    };
    Ok(Settled { day: next, change })
}

// What is then stored with a book and what is to be done to its list, by what was seen of it, or the first refusal, with its place.
fn settle(
    day: Day,
    room: usize,
    order: Order<Row>,
    account: Result<Account, Refusal>,
    scan: Result<Scan, Refused>,
    moved: Result<Scan, Refused>,
) -> Result<Settled, Refused>
    requires { Known day room order account scan }
    ensures { Concludes day room order account scan moved (outcome_by day result) }
{
    let account = account?;
    let scan = scan?;
    if day.totals != scan.totals {
        return Err(Refused::from(Refusal::Booking));
    }
    match order {
        Order::Add(t) => adding(day, room, scan, account, t),
        Order::Take(t) => taking(day, scan, account, t),
        Order::MoveTo(to) => {
            later(day, account, to)?;
            let moved = moved?;
            let totals = moved.totals;
            let mut next = day;
            next.date = to;
            next.totals = totals;
            Ok(Settled {
                day: next,
                change: Change::Stay,
            })
        }
    }
}

// The outcome of an order to a book, by what was seen of it: before its holdings, of them, and for a move of them once more. Nothing is to be seen of a
// book that was refused before them, nor once more for an order that is no move to a later date: whatever is given there is not read.
pub fn conclude(
    day: Day,
    room: usize,
    order: Order<Row>,
    account: Result<Account, Refusal>,
    scan: Result<Scan, Refused>,
    moved: Result<Scan, Refused>,
) -> Outcome
    requires { Known day room order account scan }
    ensures { Concludes day room order account scan moved result }
{
    match settle(day, room, order, account, scan, moved) {
        Ok(settled) => {
            let day = settled.day;
            let reply = Reply {
                finding: Ok(day.count as u64),
                day,
            };
            Outcome {
                reply,
                change: settled.change,
            }
        }
        Err(refused) => {
            let reply = Reply {
                finding: Err(refused),
                day,
            };
            Outcome {
                reply,
                change: Change::Stay,
            }
        }
    }
}

// The outcome of an order to a book in a list of so many entries; `row` gives the row at a place.
pub fn judge<F: Fn(usize) -> Row>(
    day: Day,
    room: usize,
    short: bool,
    order: Order<Row>,
    row: &F,
) -> Outcome
    requires callable { (i : ℕ) → i < day.count → i < room → F.pre row.now i }
    requires listed { (list : List Row) × Lists (F.post row.now) day.count list × (length list ≡ room) }
    ensures { Judges short room day order (F.post row.now) result }
{
    let account = match open(day, room, short) {
        Ok(account) => account,
        Err(refusal) => {
            let scan = Ok(unseen());
            return conclude(day, room, order, Err(refusal), scan, scan);
        }
    };
    let trade = trade_of(order);
    let scan = see_rows(row, day.count, account, trade);
    let moved = match again(order, account) {
        Some(Ok(then)) => see_rows(row, day.count, then, trade),
        Some(Err(_)) => scan,
        None => scan,
    };
    conclude(day, room, order, Ok(account), scan, moved)
}
