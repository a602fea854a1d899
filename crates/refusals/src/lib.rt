// The refusals of documents 01 and 02, by name.
#![tactic(auto)]

ghost use Rattle.std.specs.Prelude.{◌≡◌};
ghost use Rattle.refusals.specs.Refusals.{number_of};

// Each has the paper's number.
#[derive(Clone, Copy, PartialEq, Eq)]
pub enum Refusal {
    Lengths = 1,
    NoRoom = 2,
    TooManyHoldings = 3,
    Side = 4,
    Kind = 5,
    Issuer = 6,
    Term = 7,
    Value = 8,
    TooManyLines = 9,
    Price = 10,
    NotInBook = 11,
    Sides = 12,
    NotAllowed = 13,
    NoAmount = 14,
    AmountTooHigh = 15,
    NotCovered = 16,
    Totals = 17,
    FileTooLong = 18,
    Grammar = 19,
    FieldCount = 20,
    Field = 21,
    Sequence = 22,
    Currency = 23,
    Date = 24,
    Rating = 25,
    Letter = 26,
    Booking = 27,
}

impl Refusal {
    pub fn number(self) -> u64
        ensures { result ≡ number_of self }
    {
        self as u64
    }
}
