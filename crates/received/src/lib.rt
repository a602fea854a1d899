// The reader on what the host lends: a text in, columns of bytes filled, or the LEIs of its corporations written.
#![tactic(auto)]

ghost use Rattle.std.specs.Prelude.{◌≡◌, ◌*◌, ◌≤◌, length};
ghost use Rattle.lists.specs.Tables.{front};
ghost use Rattle.refusals.specs.Refusals.{number_of};
ghost use Rattle.article.specs.Answer.{make_answer};
ghost use Rattle.columns.specs.Filling.{columns_in, SameLists};
ghost use Rattle.lent.specs.Boundary.{Answers};
ghost use Rattle.reader.specs.File.{TableRoom};
ghost use Rattle.received.specs.Reading.{Reads};
ghost use Rattle.received.specs.Naming.{lei_texts, leis_too_short, Names};

use columns::ColumnsMut;
use lei::Lei;
use proposal::Fault;
use refusals::Refusal;

// Puts a refusal's places into an answer slice, and returns its number.
fn put_fault(fault: Fault, answer: &mut [u8]) -> u64
    ensures { Answers (make_answer (number_of fault.refusal) fault.place fault.second) answer.old answer.new result }
{
    lent::put_answer(fault.refusal.number(), fault.place, fault.second, answer)
}

// Reads a text into what is lent, by way of two tables whose columns have `rows` entries, and a list for LEIs: what is submitted goes into the columns
// once all of it is read and each list is known to hold it. The answer's number is returned.
pub fn read_into(
    text: &[u8],
    rows: usize,
    book: &mut [u8],
    lines: &mut [u8],
    known: &mut [Lei],
    head: &mut [u8],
    columns: &mut ColumnsMut<'_>,
    answer: &mut [u8],
) -> u64
    requires { TableRoom rows text.now book.old lines.old known.old }
    ensures read { Reads text.now head.old head.new (columns_in columns.old) (columns_in columns.new) answer.old answer.new result }
    ensures same { SameLists columns.old columns.new }
{
    match reader::read(text, rows, book, lines, known) {
        Ok(contents) => {
            let n = contents.holdings;
            let m = contents.lines;
            if sizes::filled_too_short(n, m, head.len(), columns, answer.len()) {
                return put_fault(proposal::fault_at(Refusal::NoRoom, 0, 0), answer);
            }
            words::put_word(head, 0, contents.head.date);
            words::put_word(head, 1, contents.head.letter);
            columns.copy_book(book, rows, n);
            columns.copy_lines(lines, rows, m);
            lent::put_answer(0, n as u64, m as u64, answer)
        }
        Err(fault) => put_fault(fault, answer),
    }
}

// Whether a list of bytes has fewer than 20 for each LEI, or an answer slice fewer than 16.
#[tactic(auto, unfolding(crate::specs::Naming::leis_too_short), using(lists::proofs::Tests::tests))]
fn leis_too_short(count: usize, leis: usize, answer: usize) -> bool
    ensures { result ≡ leis_too_short count leis answer }
{
    (leis / 20 < count) | (answer < 16)
}

// Writes LEIs one after another at the front of a list of bytes; the others are kept.
fn put_leis(leis: &[Lei], out: &mut [u8])
    requires { 20 * length leis.now ≤ length out.old }
    ensures { out.new ≡ front (lei_texts leis.now) out.old }
{
    for (i, lei) in leis.iter().enumerate() {
        lei::put_lei(*lei, 20 * i, out);
    }
}

// Writes the LEIs of a text's corporations in the order of their numbers, once the text is read and the list is known to hold them, in the same tables and
// list. The answer's number is returned.
pub fn leis_into(
    text: &[u8],
    rows: usize,
    book: &mut [u8],
    lines: &mut [u8],
    known: &mut [Lei],
    leis: &mut [u8],
    answer: &mut [u8],
) -> u64
    requires { TableRoom rows text.now book.old lines.old known.old }
    ensures { Names text.now leis.old leis.new answer.old answer.new result }
{
    match reader::read(text, rows, book, lines, known) {
        Ok(contents) => {
            let count = contents.corporations;
            if leis_too_short(count, leis.len(), answer.len()) {
                return put_fault(proposal::fault_at(Refusal::NoRoom, 0, 0), answer);
            }
            put_leis(&known[..count], leis);
            lent::put_answer(0, count as u64, 0, answer)
        }
        Err(fault) => put_fault(fault, answer),
    }
}
