// The file of a book and a proposal, read in one pass into a table of holdings and a table of lines.
#![tactic(auto)]

ghost use Rattle.std.specs.Prelude.{◌<◌, ◌≤◌, length, take};
ghost use Rattle.layout.specs.Layout.{all_values};
ghost use Rattle.reader.specs.File.{TableRoom, NumbersIssuer, ReadsFile};

use holding::Head;
use layout::{AFTER, Letter, Record};
use lei::Lei;
use proposal::{Fault, fault_at};
use refusals::Refusal;

// The most bytes that a file may have.
pub const LIMIT: usize = 65536;

// A file that was read: its head, and how many holdings, lines and corporations it has.
#[derive(Clone, Copy)]
pub struct Contents {
    pub head: Head,
    pub holdings: usize,
    pub lines: usize,
    pub corporations: usize,
}

// Numbers the issuer of an H, of a corporation by the place of its LEI among the first `count` of a list, which has room for more, where a new one joins. Returns
// how many are known then.
fn number_issuer(record: &mut Record, known: &mut [Lei], count: usize) -> usize
    requires { count < length known.old }
    ensures numbers { NumbersIssuer (take count known.old) (take result known.new) (all_values «record».old) (all_values «record».new) }
    ensures inside { result ≤ length known.new }
{
    if record.fields[2] != 100 {
        return count;
    }
    if let Some(place) = lei::number_of(&known[..count], record.lei) {
        record.fields[2] = 100 + place as u64;
        return count;
    }
    record.fields[2] = 100 + count as u64;
    known[count] = record.lei;
    count + 1
}

// Reads a file: 18; an empty file 22; each record in turn 19 to 21, 25 and 22, then 3 or 9; else its head is handed back, what it submits is in the two
// tables, each of whose columns has `rows` entries, and the LEIs of its corporations are in the list `known`.
// A value that depends on the records before is worked out here, between `entry_at` and `put_entry`. The tables and the list come one by one: of a struct that
// lends them each call would have to say that they are the same lists after it.
pub fn read(
    text: &[u8],
    rows: usize,
    book: &mut [u8],
    lines: &mut [u8],
    known: &mut [Lei],
) -> Result<Contents, Fault>
    requires { TableRoom rows text.now book.old lines.old known.old }
    ensures { ReadsFile text.now rows book.old lines.old book.new lines.new known.new result }
{
    if text.len() > LIMIT {
        return Err(fault_at(Refusal::FileTooLong, 0, 0));
    }
    if text.is_empty() {
        return Err(fault_at(Refusal::Sequence, 0, 0));
    }
    let mut record = Record {
        fields: [0; AFTER],
        lei: Lei { high: 0, low: 0 },
    };
    let mut read = Contents {
        head: Head { date: 0, letter: 0 },
        holdings: 0,
        lines: 0,
        corporations: 0,
    };
    let mut before = None;
    let mut place = 0;
    let mut at = 0;
    // One record after another, each as long as it is: no iterator has them.
    while at < text.len() {
        let entry = layout::entry_at(text, at, &mut record);
        // A match, since what a closure of map_err returned has no name that an answer can cite.
        let letter = match entry.parsed {
            Ok(letter) => letter,
            Err(refusal) => return Err(fault_at(refusal, place, 0)),
        };
        if !letter.may_follow(before) {
            return Err(fault_at(Refusal::Sequence, place, 0));
        }
        match letter {
            Letter::Valuation => {
                read.head = Head {
                    date: record.fields[0],
                    letter: record.fields[1],
                };
            }
            Letter::Holding => {
                if read.holdings == 256 {
                    return Err(fault_at(Refusal::TooManyHoldings, 0, 0));
                }
                read.corporations = number_issuer(&mut record, known, read.corporations);
                columns::put_entry(&record.fields, rows, read.holdings, book);
                read.holdings += 1;
            }
            Letter::Line => {
                if read.lines == 512 {
                    return Err(fault_at(Refusal::TooManyLines, 0, 0));
                }
                columns::put_entry(&record.fields[..3], rows, read.lines, lines);
                read.lines += 1;
            }
        }
        before = Some(letter);
        place += 1;
        at = entry.next;
    }
    Ok(read)
}
