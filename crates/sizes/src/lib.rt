// The byte lengths of what the host lends.
#![tactic(auto)]

ghost use Rattle.std.specs.Prelude.{◌≡◌, [], ◌∷◌, ◌++◌, map};
ghost use Rattle.refusals.specs.Refusals.{refused_by};
ghost use Rattle.lists.specs.Choice.{first_of};
ghost use Rattle.proposal.specs.Outcome.{size_faults};
ghost use Rattle.columns.specs.Columns.{holding_sizes, line_sizes};
ghost use Rattle.columns.specs.Filling.{columns_in};
ghost use Rattle.sizes.specs.Sizes.{Counted, too_short, length_fault};

use columns::{Columns, ColumnsMut};
use refusals::Refusal;

// Document 01's order 1, 3, 9, 2, of so many holdings and lines.
#[tactic(auto, unfolding(proposal::specs::Outcome::size_faults, lists::specs::Choice::first_of), using(lists::proofs::Tests::tests))]
fn in_order(unequal: bool, two: bool, holdings: usize, lines: usize) -> Result<(), Refusal>
    ensures { refused_by result ≡ first_of (size_faults unequal two holdings lines) 0 }
{
    if unequal {
        return Err(Refusal::Lengths);
    }
    if holdings > 256 {
        return Err(Refusal::TooManyHoldings);
    }
    if lines > 512 {
        return Err(Refusal::TooManyLines);
    }
    if two {
        return Err(Refusal::NoRoom);
    }
    Ok(())
}

// The refusal by the lengths of what is lent; `two` says whether 2 holds. Of numbers alone, so that it can be asked before anything is lent.
pub fn lengths(
    side: usize,
    kind: usize,
    issuer: usize,
    maturity: usize,
    value: usize,
    price: usize,
    currency: usize,
    rating: usize,
    long: usize,
    short: usize,
    amount: usize,
    two: bool,
) -> Result<(), Refusal>
    ensures { refused_by result ≡ length_fault (side ∷ kind ∷ issuer ∷ maturity ∷ value ∷ currency ∷ rating ∷ price ∷ []) (long ∷ short ∷ amount ∷ []) two }
{
    let n = side / 8;
    let m = long / 8;
    let book = 8 * n;
    let lines = 8 * m;
    let unequal = (side != book)
        | (kind != book)
        | (issuer != book)
        | (maturity != book)
        | (value != book)
        | (currency != book)
        | (rating != book)
        | (price != book)
        | (long != lines)
        | (short != lines)
        | (amount != lines);
    in_order(unequal, two, n, m)
}

// The same of columns. Each is named, so that none is left out unseen.
pub fn column_lengths(columns: &Columns<'_>, two: bool) -> Result<(), Refusal>
    ensures number { refused_by result ≡ length_fault (holding_sizes columns.now) (line_sizes columns.now) two }
    ensures counted { Counted columns.now }
{
    lengths(
        columns.side.len(),
        columns.kind.len(),
        columns.issuer.len(),
        columns.maturity.len(),
        columns.value.len(),
        columns.price.len(),
        columns.currency.len(),
        columns.rating.len(),
        columns.long.len(),
        columns.short.len(),
        columns.amount.len(),
        two,
    )
}

// Whether a list that the check writes is shorter than what must be written: an entry for each of n holdings, and the answer slice's 16 bytes.
pub fn lists_too_short(n: usize, remainder: usize, ranking: usize, answer: usize) -> bool
    ensures { result ≡ too_short ((n, remainder) ∷ (n, ranking) ∷ []) answer }
{
    (remainder / 8 < n) | (ranking / 8 < n) | (answer < 16)
}

// The same of the lists that the reader fills: two entries for the head, and one for each holding, or each line. Of numbers alone too.
pub fn columns_too_short(
    holdings: usize,
    lines: usize,
    head: usize,
    side: usize,
    kind: usize,
    issuer: usize,
    maturity: usize,
    value: usize,
    price: usize,
    currency: usize,
    rating: usize,
    long: usize,
    short: usize,
    amount: usize,
    answer: usize,
) -> bool
    ensures { result ≡ too_short ((2, head)
        ∷ (holdings, side) ∷ (holdings, kind) ∷ (holdings, issuer) ∷ (holdings, maturity)
        ∷ (holdings, value) ∷ (holdings, currency) ∷ (holdings, rating) ∷ (holdings, price)
        ∷ (lines, long) ∷ (lines, short) ∷ (lines, amount) ∷ []) answer }
{
    (head / 8 < 2)
        | (side / 8 < holdings)
        | (kind / 8 < holdings)
        | (issuer / 8 < holdings)
        | (maturity / 8 < holdings)
        | (value / 8 < holdings)
        | (currency / 8 < holdings)
        | (rating / 8 < holdings)
        | (price / 8 < holdings)
        | (long / 8 < lines)
        | (short / 8 < lines)
        | (amount / 8 < lines)
        | (answer < 16)
}

// The same of columns to be filled, each by its name.
pub fn filled_too_short(
    holdings: usize,
    lines: usize,
    head: usize,
    columns: &ColumnsMut<'_>,
    answer: usize,
) -> bool
    ensures { result ≡ too_short ((2, head)
        ∷ (map (λ size. (holdings, size)) (holding_sizes (columns_in columns.now))
        ++ map (λ size. (lines, size)) (line_sizes (columns_in columns.now)))) answer }
{
    columns_too_short(
        holdings,
        lines,
        head,
        columns.side.len(),
        columns.kind.len(),
        columns.issuer.len(),
        columns.maturity.len(),
        columns.value.len(),
        columns.price.len(),
        columns.currency.len(),
        columns.rating.len(),
        columns.long.len(),
        columns.short.len(),
        columns.amount.len(),
        answer,
    )
}
