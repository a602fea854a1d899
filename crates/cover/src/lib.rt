// Whether the prices cover the book, and what they add up to.
#![tactic(auto)]

ghost use Rattle.std.specs.Prelude.{◌≡◌, false, ◌≤◌, ◌<◌, IfSome, IfNone};
ghost use Rattle.article.specs.Pair.{RateInRange};
ghost use Rattle.marks.specs.Marks.{scan_limit};
ghost use Rattle.packed.specs.Packed.{AtMost, entry};
ghost use Rattle.cover.specs.Cover.{Priced, Finds, Valued, Totals, Covered, RowCovered, Added, Parts, Free};
ghost use Rattle.cover.specs.Books.{count_of, ShortsOf, CoveredIn, OpenIn, FindsIn};

mod book;

use article::pair::Leg;
use book::Book;
use proposal::Fault;
use refusals::Refusal;

// Shorts, in the first `count` places of columns: the marks of each for the long strips and for the long bonds, the rate that it is scanned by, and its price.
// Columns, since the scan reads eight shorts of each at once: a list of structs is not read eight at a time.
#[derive(Clone, Copy)]
struct Shorts {
    marks: [u16; 256],
    strips: [u16; 256],
    rates: [u16; 256],
    prices: [u16; 256],
    count: usize,
}

impl Shorts {
    // One more short.
    fn add(&mut self, leg: Leg, price: u16)
        requires { RateInRange leg × (self.old.count < 256) }
        ensures { Added leg price self.old self.new }
    {
        let k = self.count;
        let mark = marks::mark_of(leg.kind == 0, leg);
        self.marks[k] = marks::across_mark(leg.kind, mark);
        self.strips[k] = marks::strip_mark(leg.kind, mark);
        self.rates[k] = marks::scan_rate(leg);
        self.prices[k] = price;
        self.count = k + 1;
    }

    // Whether a long with this mark, rate and price may be uncovered with one of the shorts, by one of the two columns of marks. The loop has no exit and takes
    // whole eights: so it runs on many shorts at once, and none is left to be looked at alone.
    #[tactic(auto, using(crate::proofs::Rows::missing_all))]
    fn row_open(&self, marks: &[u16; 256], mark: u16, rate: u16, price: u16) -> bool
        requires { (self.now.count ≤ 256) × ((rate ≤ scan_limit) × (AtMost scan_limit 256 (entry self.now.rates))) }
        ensures { result ≡ false → Covered mark rate price marks.now self.now.rates self.now.prices self.now.count }
    {
        let mut worst: u16 = 0;
        for j in 0..self.count.next_multiple_of(8) {
            let asked = marks::asked(mark, rate, marks[j], self.rates[j]);
            worst = worst.max(asked.saturating_sub(price).saturating_sub(self.prices[j]));
        }
        0 < worst
    }

    // The same for a long leg. Two bonds save nothing, so a bond is scanned against the strips alone. Inlined, so that the leg is not copied.
    #[inline(always)]
    #[tactic(auto, unfolding(marks::specs::Marks::sought_mark, article::specs::Pair::is_bond), using(crate::proofs::Rows::bond_row, crate::proofs::Rows::other_row))]
    fn long_open(&self, long: Leg, price: u16) -> bool
        requires { (self.now.count ≤ 256) × (RateInRange long × (AtMost scan_limit 256 (entry self.now.rates))) }
        ensures { result ≡ false → RowCovered long price self.now self.now.count }
    {
        let mark = marks::mark_of(long.kind != 0, long);
        let rate = marks::scan_rate(long);
        if long.kind == 0 {
            return self.row_open(&self.strips, mark, rate, price);
        }
        self.row_open(&self.marks, mark, rate, price)
    }
}

impl<'a> Book<'a> {
    // The shorts of the book, each in the part of its period.
    fn shorts_of<const PARTS: usize>(&self, parts: &mut [Shorts; PARTS])
        requires { (0 < PARTS) × (Parts parts.old × Free parts.old) }
        ensures { Parts parts.new × ShortsOf self.now parts.new }
    {
        for (j, code) in self.legs.iter().enumerate() {
            let leg = packed::leg_in(*code);
            if leg.side == 1 {
                parts[leg.period as usize % PARTS].add(leg, words::word(self.price, j) as u16);
            }
        }
    }

    // The first holding that holding i is not covered with as the long.
    #[tactic(auto, using(crate::proofs::Uncovered::other_covered))]
    fn first_open(&self, i: usize) -> Option<usize>
        requires { i < count_of self.now }
        ensures open { IfSome result (λ j. OpenIn self.now i j) }
        ensures none { IfNone result (CoveredIn self.now i) }
    {
        let long = packed::leg_in(self.legs[i]);
        if long.side != 0 {
            return None;
        }
        let first = words::word(self.price, i);
        for (j, code) in self.legs.iter().enumerate() {
            let short = packed::leg_in(*code);
            if first + words::word(self.price, j) < savings::saving(long, short) {
                return Some(j);
            }
        }
        None
    }

    // Every holding as the long, one after another. Beside `scanned`: one function for both, with a closure for the scan's test, would be longer.
    #[tactic(auto, using(crate::proofs::Uncovered::finds_open, crate::proofs::Uncovered::finds_none))]
    fn searched(&self) -> Result<(), Fault>
        ensures { FindsIn self.now result }
    {
        for long in 0..self.legs.len() {
            if let Some(short) = self.first_open(long) {
                return Err(proposal::fault_at(Refusal::NotCovered, long, short));
            }
        }
        Ok(())
    }

    // The same, where the scan of the shorts passes over the longs that it finds covered.
    #[tactic(auto, unfolding(crate::specs::Cover::part_of), using(crate::proofs::Rows::scan_steps))]
    fn scanned<const PARTS: usize>(&self, parts: &[Shorts; PARTS]) -> Result<(), Fault>
        requires { (0 < PARTS) × (Parts parts.now × ShortsOf self.now parts.now) }
        ensures { FindsIn self.now result }
    {
        for (i, code) in self.legs.iter().enumerate() {
            let leg = packed::leg_in(*code);
            if leg.side == 0 {
                let first = words::word(self.price, i);
                if parts[leg.period as usize % PARTS].long_open(leg, first as u16) {
                    if let Some(j) = self.first_open(i) {
                        return Err(proposal::fault_at(Refusal::NotCovered, i, j));
                    }
                }
            }
        }
        Ok(())
    }

    // The same with the shorts in so many parts by period, each long by the shorts of its part.
    #[tactic(auto, using(crate::proofs::Rows::parts_blank, crate::proofs::Rows::free_blank))]
    fn scan<const PARTS: usize>(&self) -> Result<(), Fault>
        requires { (0 < PARTS) × (PARTS ≤ 8) }
        ensures { FindsIn self.now result }
    {
        let mut parts = [Shorts {
            marks: [0; 256],
            strips: [0; 256],
            rates: [0; 256],
            prices: [0; 256],
            count: 0,
        }; PARTS];
        self.shorts_of(&mut parts);
        self.scanned(&parts)
    }
}

// The first allowed pair of the book that the prices do not cover, lowest long, then lowest short. Columns of the shorts are worth their making from nine holdings
// on, and eight parts of them from 65 on. The legs that are lent may be more than the book's.
pub fn first_uncovered(n: usize, legs: &[u64], price: &[u8]) -> Result<(), Fault>
    requires { Priced n legs.now price.now }
    ensures { Finds n legs.now price.now result }
{
    let book = Book {
        legs: &legs[..n],
        price,
    };
    if n < 9 {
        return book.searched();
    }
    if n < 65 {
        return book.scan::<1>();
    }
    book.scan::<8>()
}

// The sum of price times whole market value. A loop: of `(0..n).map(..).sum()` the proof finds neither that the sum fits nor what it is.
#[tactic(auto, unfolding(words::specs::Words::entries), using(crate::proofs::Totals::sum_steps))]
pub fn priced_total(price: &[u8], value: &[u8]) -> u64
    requires { Valued price.now value.now }
    ensures { Totals price.now value.now result }
{
    let mut total: u64 = 0;
    for k in 0..price.len() / 8 {
        total += words::word(price, k) * words::word(value, k);
    }
    total
}
