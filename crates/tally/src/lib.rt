// The lines of a proposal in turn, each against what is unpaired of its two holdings.
#![tactic(auto)]

ghost use Rattle.std.specs.Prelude.{◌≡◌};
ghost use Rattle.refusals.specs.Refusals.{numbered};
ghost use Rattle.columns.specs.Columns.{lines_in};
ghost use Rattle.tally.specs.Lines.{Ready, applied_of, LinesLent, Takes};

use article::pair;
use article::pair::Leg;
use columns::Columns;
use proposal::Fault;
use refusals::Refusal;

// What is unpaired of the two holdings of a line, and the units and the saving of the lines taken off.
#[derive(Clone, Copy)]
pub struct Tally {
    pub long: u64,
    pub short: u64,
    pub units: u64,
    pub saving: u64,
}

// The units and the saving of lines that were taken off.
#[derive(Clone, Copy)]
pub struct Sums {
    pub units: u64,
    pub saving: u64,
}

impl Tally {
    // One pair line of an amount on its two legs: the new tally.
    #[tactic(auto, using(crate::proofs::OneLine::not_long, crate::proofs::OneLine::not_short))]
    pub fn apply(self, amount: u64, long: Leg, short: Leg) -> Result<Tally, Refusal>
        requires { Ready self long short }
        ensures { numbered result ≡ applied_of self amount long short }
    {
        if long.side != 0 {
            return Err(Refusal::Sides);
        }
        if short.side != 1 {
            return Err(Refusal::Sides);
        }
        let Some(pair) = pair::pair_legs(long, short) else {
            return Err(Refusal::NotAllowed);
        };
        if amount == 0 {
            return Err(Refusal::NoAmount);
        }
        if self.long < amount {
            return Err(Refusal::AmountTooHigh);
        }
        if self.short < amount {
            return Err(Refusal::AmountTooHigh);
        }
        Ok(Tally {
            long: self.long - amount,
            short: self.short - amount,
            units: self.units + pair.rate * amount,
            saving: self.saving + pair.saving * amount,
        })
    }
}

// Each line in turn, up to the first fault: 11, a number not in the book, then 12 to 15. The first n entries of `left` are what is unpaired; `sums` gets the
// units and the saving of all lines, or of those before the one at fault. The lists that are lent may be longer than the book, so n stands beside them.
pub fn take_lines(
    n: usize,
    legs: &[u64],
    left: &mut [u64],
    columns: &Columns<'_>,
    sums: &mut Sums,
) -> Result<(), Fault>
    requires { LinesLent n legs.now left.old columns.now.lines }
    ensures { Takes n legs.now left.old (lines_in columns.now.lines) left.new sums.new result }
{
    *sums = Sums {
        units: 0,
        saving: 0,
    };
    let m = columns.lines();
    for i in 0..m {
        let line = columns.line(i);
        let first = line.long as usize;
        let second = line.short as usize;
        if first >= n {
            return Err(proposal::fault_at(Refusal::NotInBook, i, 0));
        }
        if second >= n {
            return Err(proposal::fault_at(Refusal::NotInBook, i, 0));
        }
        let tally = Tally {
            long: left[first],
            short: left[second],
            units: sums.units,
            saving: sums.saving,
        };
        let long = packed::leg_in(legs[first]);
        let short = packed::leg_in(legs[second]);
        // By cases: the fault that map_err would make stands in no clause.
        match tally.apply(line.amount, long, short) {
            Ok(after) => {
                left[first] = after.long;
                left[second] = after.short;
                sums.units = after.units;
                sums.saving = after.saving;
            }
            Err(refusal) => return Err(proposal::fault_at(refusal, i, 0)),
        }
    }
    Ok(())
}
