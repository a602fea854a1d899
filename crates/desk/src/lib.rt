// Booking into a lent list of holdings: an order is judged on the list as it stands, and what it changes is written in place.
#![tactic(auto)]

ghost use Rattle.std.specs.Prelude.{◌≡◌, ◌<◌, length, get_or};
ghost use Rattle.holding.specs.Holding.{row_of};
ghost use Rattle.booking.specs.Seeing.{Fits, changed};
ghost use Rattle.desk.specs.Desk.{order_of, blank, put_of, Examines, Books};

use booking::{Change, Outcome};
use daybook::{Day, Order, Reply};
use holding::{Currency, Holding, Issuer, Kind, Rating, Row, Side};

// The order by numbers. A method of `Order` that takes a closure would serve here alone, and is no plainer.
fn order_of(order: Order<Holding>) -> Order<Row>
    ensures { result ≡ order_of order }
{
    match order {
        Order::Add(h) => Order::Add(holding::row_of(h)),
        Order::Take(h) => Order::Take(holding::row_of(h)),
        Order::MoveTo(to) => Order::MoveTo(to),
    }
}

// The holding that a move has for its trade.
const BLANK: Holding = Holding {
    side: Side::Long,
    kind: Kind::Bond,
    issuer: Issuer::Canada,
    maturity: 0,
    value: 0,
    currency: Currency::Cad,
    rating: Rating::SingleA,
};

// The holding of an order, a move has the blank one, with a value.
#[tactic(auto, unfolding(crate::specs::Desk::put_of, crate::specs::Desk::worth, crate::specs::Desk::traded_by, crate::specs::Desk::blank))]
fn put_of(order: Order<Holding>, value: u64) -> Holding
    ensures { result ≡ put_of order value }
{
    let mut h = order.trade_or(BLANK);
    h.value = value;
    h
}

// An order judged on a list.
fn examine(list: &[Holding], day: Day, order: Order<Holding>) -> Outcome
    ensures { Examines list.now day order result }
{
    let row = |i: usize| -> Row
        requires { i < length list.now }
        ensures { result ≡ row_of (get_or list.entry.now i blank) }
    { holding::row_of(list[i]) };
    booking::judge(day, list.len(), false, order_of(order), &row)
}

// A change written into a list: nothing, the order's holding with a value at a place, or entries that move up by one place. Beside `records`, whose list is bytes.
fn write(list: &mut [Holding], change: Change, order: Order<Holding>)
    requires { Fits (length list.old) change }
    ensures { list.new ≡ changed change (put_of order) list.old }
{
    match change {
        Change::Stay => {}
        Change::Put { at, value } => list[at] = put_of(order, value),
        Change::CloseUp { first, end } => list.copy_within(first..end, first - 1),
    }
}

// An order to a book whose list is lent.
pub fn book(list: &mut [Holding], day: Day, order: Order<Holding>) -> Reply
    ensures { Books list.old day order list.new result }
{
    let outcome = examine(list, day, order);
    write(list, outcome.change, order);
    outcome.reply
}

// A list of 256 by value, and the reply.
#[derive(Clone, Copy)]
pub struct Whole {
    pub list: [Holding; 256],
    pub reply: Reply,
}

// The same on a list by value, for a caller that lends none.
pub fn book_whole(list: [Holding; 256], day: Day, order: Order<Holding>) -> Whole
    ensures { Books list day order result.list result.reply }
{
    let mut lent = list;
    let reply = book(&mut lent, day, order);
    Whole { list: lent, reply }
}
