// The book that is scanned.
ghost use Rattle.std.specs.Prelude.{length};
ghost use Rattle.cover.specs.Cover.{Priced};
ghost use Rattle.cover.specs.Range.{priced_prop};

// The packed legs of a book's holdings and their prices.
#[derive(Clone, Copy)]
pub struct Book<'a> {
    pub legs: &'a [u64],
    pub price: &'a [u8],
    ghost priced: { Priced (length legs.now) legs.now price.now } by { priced_prop _ _ _ },
}
