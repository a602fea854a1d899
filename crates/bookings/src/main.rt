// Runs the histories of orders on standard input: each order is given to a book in a list of 256 holdings, and what it gets is printed.
// A step of a history is ten eight-byte little-endian numbers: its sort, its own numbers, and zeros. Lines are decimal numbers with commas.
#![tactic(auto)]

ghost use Rattle.std.specs.Prelude.{◌≤◌, length};

use daybook::{Day, Finding, Order};
use holding::{Currency, Holding, Issuer, Kind, Rating, Side};
use std::{array, io};

// A list that has a book at its front, and what is stored with the book.
#[derive(Clone, Copy)]
struct Book {
    list: [Holding; 256],
    day: Day,
}

// What every place has before anything is written to it: a bond of Canada, which has no rating.
fn blank() -> Holding {
    Holding {
        side: Side::Long,
        kind: Kind::Bond,
        issuer: Issuer::Canada,
        maturity: 0,
        value: 0,
        currency: Currency::Cad,
        rating: Rating::NotGiven,
    }
}

// What there is before the first step.
fn no_book() -> Book {
    let h = blank();
    Book {
        list: [h; 256],
        day: Day {
            date: 0,
            letter: 0,
            count: 0,
            totals: [0; 5],
        },
    }
}

// The holding of the numbers 1 to 7 of a step; of the maturity's bits the lowest 32. A number that no issuer has is taken for a province's, so that the book or
// the order is at fault.
fn holding_of(step: &[u8; 80]) -> Holding {
    let maturity = words::word(step, 4) % 4294967296;
    Holding {
        side: Side::from(words::word(step, 1)),
        kind: Kind::from(words::word(step, 2)),
        issuer: Issuer::from(words::word(step, 3)),
        maturity: maturity as u32,
        value: words::word(step, 5),
        currency: Currency::from(words::word(step, 6)),
        rating: Rating::from(words::word(step, 7)),
    }
}

// What the numbers 1 to 8 of a step store with a book.
fn day_of(step: &[u8; 80]) -> Day {
    Day {
        date: words::word(step, 1),
        letter: words::word(step, 2),
        count: words::word(step, 3) as usize,
        totals: array::from_fn(|k| words::word(step, 4 + k)),
    }
}

// Prints numbers, each after a comma.
fn print_numbers(rt: &impl Print, numbers: &[u64]) -> io::Result<()> {
    for x in numbers {
        print!(rt; ",{x}")?;
    }
    Ok(())
}

fn end_line(rt: &impl Print) -> io::Result<()> {
    print!(rt; "\r\n")
}

// Prints the line of a new book.
fn print_head(rt: &impl Print, day: Day) -> io::Result<()> {
    print!(rt; "N")?;
    print_numbers(rt, &[day.date, day.letter])?;
    end_line(rt)
}

// Prints what an order got, 0 and the new count or a refusal and its place, and the totals that are then stored.
fn print_reply(rt: &impl Print, finding: Finding, totals: [u64; 5]) -> io::Result<()> {
    let (number, value) = match finding {
        Ok(count) => (0, count),
        Err(refused) => (refused.refusal.number(), refused.place),
    };
    print!(rt; "{number}")?;
    print_numbers(rt, &[value])?;
    print_numbers(rt, &totals)?;
    end_line(rt)
}

// Prints the numbers of a holding.
fn print_holding(rt: &impl Print, h: Holding) -> io::Result<()> {
    let row = holding::row_of(h);
    let numbers = [
        row.side,
        row.kind,
        row.issuer,
        row.maturity,
        row.value,
        row.currency,
        row.rating,
    ];
    print!(rt; "H")?;
    print_numbers(rt, &numbers)?;
    end_line(rt)
}

// Prints the holdings of a book, and what stands behind them where the list goes on.
fn print_book(rt: &impl Print, book: Book) -> io::Result<()> {
    let list = book.list;
    for h in list.iter().take(book.day.count.saturating_add(1)) {
        print_holding(rt, *h)?;
    }
    Ok(())
}

// An order to a book, and its line.
fn give(rt: &impl Print, book: Book, order: Order<Holding>) -> io::Result<Book> {
    let list = book.list;
    let whole = desk::book_whole(list, book.day, order);
    let list = whole.list;
    let reply = whole.reply;
    let day = reply.day;
    let totals = day.totals;
    print_reply(rt, reply.finding, totals)?;
    Ok(Book { list, day })
}

// A holding is written to a place of the list, where it has that.
fn put(book: Book, h: Holding, place: u64) -> Book {
    let mut list = book.list;
    if place < 256 {
        list[place as usize] = h;
    }
    Book {
        list,
        day: book.day,
    }
}

// Something else is stored with the book.
fn store(book: Book, day: Day) -> Book {
    let list = book.list;
    Book { list, day }
}

// An empty book in the same list, and its line.
fn start(rt: &impl Print, book: Book, day: Day) -> io::Result<Book> {
    print_head(rt, day)?;
    Ok(store(book, day))
}

// One step, by the number that the input has for its sort: an empty book, a trade added or taken, a move, a holding written to a place, something else stored, or
// the book printed.
fn run(rt: &impl Print, book: Book, step: &[u8; 80]) -> io::Result<Book> {
    match words::word(step, 0) {
        0 => start(rt, book, day_of(step)),
        1 => give(rt, book, Order::Add(holding_of(step))),
        2 => give(rt, book, Order::Take(holding_of(step))),
        3 => give(rt, book, Order::MoveTo(words::word(step, 1))),
        4 => Ok(put(book, holding_of(step), words::word(step, 8))),
        5 => Ok(store(book, day_of(step))),
        _ => {
            print_book(rt, book)?;
            Ok(book)
        }
    }
}

fn main(rt: HostRuntime) -> io::Result<()> {
    let mut input = rt.reader();
    let mut book = no_book();
    for _ in 0..100000 {
        let mut step = [0u8; 80];
        let got = input::read_full(&mut input, &mut step);
        if got < 80 {
            return Ok(());
        }
        book = run(&rt, book, &step)?;
    }
    Ok(())
}
