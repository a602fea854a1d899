// What the program `margin` prints of a file: read, checked and reported.
#![tactic(auto)]

ghost use Rattle.std.specs.Prelude.{◌≡◌, ◌+◌, length};
ghost use Rattle.reader.specs.File.{file_limit};
ghost use Rattle.report.specs.Report.{report_room};
ghost use Rattle.printing.specs.Printed.{TablesHold, columns_of, PrintsColumns, PrintsFile};

use columns::Columns;
use holding::Head;
use lei::Lei;
use reader::Contents;
use refusals::Refusal;
use report::Lists;
use verdict::Scratch;

// The entries of a column of a table: as many as a file may have lines.
const ROWS: usize = 512;

// Room for a file, and for one byte more: a file that fills it is too long.
pub fn file_buffer() -> [u8; reader::LIMIT + 1]
    ensures { file_limit + 1 ≡ length result }
{
    [0; reader::LIMIT + 1]
}

// Room for what is printed.
pub fn print_buffer() -> [u8; report::ROOM]
    ensures { report_room ≡ length result }
{
    [0; report::ROOM]
}

// Checks columns for an account, by its head, and prints what is found.
fn print_columns(head: Head, columns: &Columns<'_>, out: &mut [u8]) -> Result<usize, Refusal>
    ensures { PrintsColumns head columns.now out.old out.new result }
{
    let mut legs = lists::zeros();
    let mut left = lists::zeros();
    let mut margins = lists::zeros();
    let mut ranks = lists::zeros();
    let mut scratch = Scratch {
        legs: &mut legs,
        left: &mut left,
        margins: &mut margins,
        ranks: &mut ranks,
    };
    let verdict = verdict::check(false, head, columns, &mut scratch);
    let lists = Lists {
        left: &left,
        margins: &margins,
        ranks: &ranks,
    };
    report::report(verdict, columns.holdings(), &lists, out)
}

// The same of the holdings and the lines that two tables hold.
fn print_tables(
    contents: Contents,
    book: &[u8],
    lines: &[u8],
    out: &mut [u8],
) -> Result<usize, Refusal>
    requires { TablesHold contents.holdings contents.lines book.now lines.now }
    ensures { PrintsColumns contents.head (columns_of contents.holdings contents.lines book.now lines.now)
        out.old out.new result }
{
    let n = contents.holdings;
    let m = contents.lines;
    let columns = Columns {
        side: columns::column(book, ROWS, n, 0),
        kind: columns::column(book, ROWS, n, 1),
        issuer: columns::column(book, ROWS, n, 2),
        maturity: columns::column(book, ROWS, n, 3),
        value: columns::column(book, ROWS, n, 4),
        price: columns::column(book, ROWS, n, 5),
        currency: columns::column(book, ROWS, n, 6),
        rating: columns::column(book, ROWS, n, 7),
        long: columns::column(lines, ROWS, m, 0),
        short: columns::column(lines, ROWS, m, 1),
        amount: columns::column(lines, ROWS, m, 2),
    };
    print_columns(contents.head, &columns, out)
}

// Prints a file at the front of out: its margin, or its refusal. A list too short for that is left alone.
pub fn print_file(text: &[u8], out: &mut [u8]) -> Result<usize, Refusal>
    ensures { PrintsFile text.now out.old out.new result }
{
    let mut book = [0u8; 8 * ROWS * (rfc4180::FIELDS - 1)];
    let mut lines = [0u8; 8 * ROWS * 3];
    let mut known = [Lei { high: 0, low: 0 }; 256];
    match reader::read(text, ROWS, &mut book, &mut lines, &mut known) {
        Ok(contents) => print_tables(contents, &book, &lines, out),
        Err(fault) => report::refusal(fault.refusal.number(), fault.place, fault.second, out),
    }
}
