// The book through the day: what is stored with a book, an order to it, and the reply. What an order does to a book stands in specs/.
#![tactic(auto)]

ghost use Rattle.std.specs.Prelude.{◌≡◌};
ghost use Rattle.daybook.specs.Orders.{trade_or, whole};

use refusals::Refusal;

// What is stored with a book: its valuation date as a number YYYYMMDD, the number of its letter, how many holdings it has, and a total for each
// period of the holdings' margins alone, in units.
#[derive(Clone, Copy)]
pub struct Day {
    pub date: u64,
    pub letter: u64,
    pub count: usize,
    pub totals: [u64; 5],
}

// An order to a book: a trade, which is a description and a value, adds or takes; or the book moves to a later date. The trade is a row of numbers or a holding.
#[derive(Clone, Copy)]
pub enum Order<T> {
    Add(T),
    Take(T),
    MoveTo(u64),
}

impl<T: Copy> Order<T> {
    // The trade of an order; a move has none.
    pub fn trade_or(self, none: T) -> T
        ensures { result ≡ trade_or none self }
    {
        match self {
            Order::Add(trade) => trade,
            Order::Take(trade) => trade,
            Order::MoveTo(_) => none,
        }
    }
}

// An order is refused, at a place; no second place as in proposal's Fault, for an order has none.
#[derive(Clone, Copy)]
pub struct Refused {
    pub refusal: Refusal,
    pub place: u64,
}

// A refusal that is none of a holding has place 0.
impl From<Refusal> for Refused {
    ghost from_gives = { λ refusal refused. refused ≡ whole refusal };

    fn from(refusal: Refusal) -> Refused {
        Refused { refusal, place: 0 }
    }
}

// Done, with the new count of holdings, or refused.
pub type Finding = Result<u64, Refused>;

// What an order gets: the finding, and what is then stored with the book.
#[derive(Clone, Copy)]
pub struct Reply {
    pub finding: Finding,
    pub day: Day,
}
