// Columns of bytes, with an entry for each holding or line; and tables, whose columns stand one after another in a list: written an entry at a time, and
// handed out.
#![tactic(auto)]

ghost use Rattle.std.specs.Prelude.{◌≡◌, ◌+◌, ◌*◌, ◌≤◌, length};
ghost use Rattle.lists.specs.Tables.{Each, front};
ghost use Rattle.holding.specs.Holding.{row_by};
ghost use Rattle.proposal.specs.Submission.{line_by};
ghost use Rattle.columns.specs.Columns.{count_in, numbers_at, column_in, EntryRoom, EntryPut, CopyRoom, copied};
ghost use Rattle.columns.specs.Filling.{book_in, lines_of, SameLists};

use holding::Row;
use pairing::Line;
use std::marker::Model;

// The columns of a book's holdings and their prices, and of a proposal's lines. A clause sees them as lists of bytes.
#[derive(Drop)]
pub struct Columns<'a> {
    pub side: &'a [u8],
    pub kind: &'a [u8],
    pub issuer: &'a [u8],
    pub maturity: &'a [u8],
    pub value: &'a [u8],
    pub price: &'a [u8],
    pub currency: &'a [u8],
    pub rating: &'a [u8],
    pub long: &'a [u8],
    pub short: &'a [u8],
    pub amount: &'a [u8],
}

impl<'a> Model for Columns<'a> {
    ghost use Rattle.std.specs.Prelude.{[], ◌∷◌};
    ghost use Rattle.columns.specs.Columns.{Columns as Held, make_columns};

    ghost Value = { Held };

    ghost view = { λ c. make_columns
        (c.side.now ∷ c.kind.now ∷ c.issuer.now ∷ c.maturity.now ∷ c.value.now ∷ c.currency.now ∷ c.rating.now ∷ [])
        c.price.now
        (c.long.now ∷ c.short.now ∷ c.amount.now ∷ []) };
}

impl<'a> Columns<'a> {
    // As many holdings, and as many lines, as the first column of each has entries.
    pub fn holdings(&self) -> usize
        ensures { result ≡ count_in self.now.holdings }
    {
        self.side.len() / 8
    }

    pub fn lines(&self) -> usize
        ensures { result ≡ count_in self.now.lines }
    {
        self.long.len() / 8
    }

    // The numbers of a holding.
    pub fn row(&self, i: usize) -> Row
        requires { Each (λ c. 8 * i + 8 ≤ length c) self.now.holdings }
        ensures { result ≡ row_by (numbers_at self.now.holdings i) }
    {
        Row {
            side: words::word(self.side, i),
            kind: words::word(self.kind, i),
            issuer: words::word(self.issuer, i),
            maturity: words::word(self.maturity, i),
            value: words::word(self.value, i),
            currency: words::word(self.currency, i),
            rating: words::word(self.rating, i),
        }
    }

    // The numbers of a line.
    pub fn line(&self, i: usize) -> Line
        requires { Each (λ c. 8 * i + 8 ≤ length c) self.now.lines }
        ensures { result ≡ line_by (numbers_at self.now.lines i) }
    {
        Line {
            long: words::word(self.long, i),
            short: words::word(self.short, i),
            amount: words::word(self.amount, i),
        }
    }
}

// Writes entry k of a table, each of whose columns has `rows` entries: value j into column j. A table serves books of any size, so `rows` stands beside it.
pub fn put_entry(values: &[u64], rows: usize, k: usize, table: &mut [u8])
    requires { EntryRoom rows k values.now table.old }
    ensures { EntryPut (length values.now) rows k values.now table.old table.new }
{
    for (j, value) in values.iter().enumerate() {
        words::put_word(table, rows * j + k, *value);
    }
}

// The first n entries of column j of a table, which is longer than what was put in it, so that n and `rows` stand beside it.
pub fn column(table: &[u8], rows: usize, n: usize, j: usize) -> &[u8]
    requires { 8 * (rows * j + n) ≤ length table.now }
    ensures { result.now ≡ column_in rows n table.now j }
{
    &table[8 * (rows * j)..8 * (rows * j) + 8 * n]
}

// Copies them to the front of a list; its other bytes are kept.
fn copy_column(table: &[u8], rows: usize, n: usize, j: usize, list: &mut [u8])
    requires room { 8 * (rows * j + n) ≤ length table.now }
    requires held { 8 * n ≤ length list.old }
    ensures { list.new ≡ front (column_in rows n table.now j) list.old }
{
    lists::copy(column(table, rows, n, j), list);
}

// The columns to be filled, each a list of bytes.
#[derive(Drop)]
pub struct ColumnsMut<'a> {
    pub side: &'a mut [u8],
    pub kind: &'a mut [u8],
    pub issuer: &'a mut [u8],
    pub maturity: &'a mut [u8],
    pub value: &'a mut [u8],
    pub price: &'a mut [u8],
    pub currency: &'a mut [u8],
    pub rating: &'a mut [u8],
    pub long: &'a mut [u8],
    pub short: &'a mut [u8],
    pub amount: &'a mut [u8],
}

impl<'a> ColumnsMut<'a> {
    // Copies the first n entries of each column of a table of holdings to the front of its list. A line for each: which column goes where is said here.
    #[tactic(auto, unfolding(crate::specs::Columns::copied))]
    pub fn copy_book(&mut self, table: &[u8], rows: usize, n: usize)
        requires { CopyRoom rows n table.now (book_in self.old) }
        ensures copied { book_in self.new ≡ copied rows n table.now 0 (book_in self.old) }
        ensures lines { lines_of self.new ≡ lines_of self.old }
        ensures same { SameLists self.old self.new }
    {
        copy_column(table, rows, n, 0, self.side);
        copy_column(table, rows, n, 1, self.kind);
        copy_column(table, rows, n, 2, self.issuer);
        copy_column(table, rows, n, 3, self.maturity);
        copy_column(table, rows, n, 4, self.value);
        copy_column(table, rows, n, 5, self.price);
        copy_column(table, rows, n, 6, self.currency);
        copy_column(table, rows, n, 7, self.rating);
    }

    // The same of a table of lines.
    #[tactic(auto, unfolding(crate::specs::Columns::copied))]
    pub fn copy_lines(&mut self, table: &[u8], rows: usize, n: usize)
        requires { CopyRoom rows n table.now (lines_of self.old) }
        ensures copied { lines_of self.new ≡ copied rows n table.now 0 (lines_of self.old) }
        ensures book { book_in self.new ≡ book_in self.old }
        ensures same { SameLists self.old self.new }
    {
        copy_column(table, rows, n, 0, self.long);
        copy_column(table, rows, n, 1, self.short);
        copy_column(table, rows, n, 2, self.amount);
    }
}
