// The check: columns in, the answer out. Nothing is presumed of the columns; what it works on are lists that are lent to it.
#![tactic(auto)]

ghost use Rattle.std.specs.Prelude.{◌≡◌};
ghost use Rattle.columns.specs.Columns.{count_in};
ghost use Rattle.verdict.specs.Judges.{refusal_of, ScratchRoom, make_scratch, Judges, Found};
ghost use Rattle.verdict.specs.Scratch.{scratch_in, HasRoom, SameLists};

use columns::Columns;
use holding::Head;
use proposal::Fault;
use refusals::Refusal;
use tally::Sums;

// Accepted with its figures, or refused with number and places: document 01 has it so.
#[derive(Clone, Copy)]
pub enum Verdict {
    Accepted {
        units: u64,
        cents: u64,
    },
    Refused {
        number: u64,
        place: u64,
        second: u64,
    },
}

// The lists that the check works on, with an entry in each for each holding.
#[derive(Drop)]
pub struct Scratch<'a> {
    pub legs: &'a mut [u64],
    pub left: &'a mut [u64],
    pub margins: &'a mut [u64],
    pub ranks: &'a mut [u64],
}

fn refused(fault: Fault) -> Verdict
    ensures { result ≡ refusal_of fault }
{
    Verdict::Refused {
        number: fault.refusal.number(),
        place: fault.place,
        second: fault.second,
    }
}

// The first fault, in the documents' order: 1, 3, 9, 2; 24 on the valuation date, 26 on the letter; each holding in turn; each line in turn; 16; 17; else total units.
// The lists of the scratch come one by one: of a struct of them, one is not read while another is lent to be written.
fn total_units(
    two: bool,
    head: Head,
    columns: &Columns<'_>,
    legs: &mut [u64],
    left: &mut [u64],
    margins: &mut [u64],
    ranks: &mut [u64],
) -> Result<u64, Fault>
    requires { ScratchRoom (count_in columns.now.holdings) legs.old left.old margins.old ranks.old }
    ensures { Found two head columns.now (make_scratch left.old margins.old ranks.old) (make_scratch left.new margins.new ranks.new) result }
{
    sizes::column_lengths(columns, two)?;
    let account = holding::account_of(head)?;
    let n = columns.holdings();
    let mut sums = Sums {
        units: 0,
        saving: 0,
    };
    positions::open(account, columns, legs, left)?;
    tally::take_lines(n, legs, left, columns, &mut sums)?;
    cover::first_uncovered(n, legs, columns.price)?;
    if cover::priced_total(columns.price, columns.value) != sums.saving {
        return Err(proposal::fault_at(Refusal::Totals, 0, 0));
    }
    let units = sums.units + figures::margins_of(n, legs, left, margins);
    ranking::rank(n, margins, ranks);
    Ok(units)
}

// The check's answer; `two` says whether 2 holds of what is lent. Where it accepts, `left` has each holding's remainder, `margins` the margin of that, and `ranks`
// the ranking.
pub fn check(two: bool, head: Head, columns: &Columns<'_>, scratch: &mut Scratch<'_>) -> Verdict
    requires { HasRoom (count_in columns.now.holdings) scratch.old }
    ensures judges { Judges two head columns.now (scratch_in scratch.old) (scratch_in scratch.new) result }
    ensures same { SameLists scratch.old scratch.new }
{
    let found = total_units(
        two,
        head,
        columns,
        scratch.legs,
        scratch.left,
        scratch.margins,
        scratch.ranks,
    );
    match found {
        Ok(units) => Verdict::Accepted {
            units,
            cents: figures::cents_of(units),
        },
        Err(fault) => refused(fault),
    }
}
