// The figures of a proposal: the margin of what is left of each holding, and total cents.
#![tactic(auto)]

ghost use Rattle.proposal.specs.Submission.{RoundedUp};
ghost use Rattle.figures.specs.Margins.{MarginsLent, Margins};

// Puts the margin of what is left of each of n holdings into a list, and returns their sum. The lists that are lent may be longer than the book.
pub fn margins_of(n: usize, legs: &[u64], left: &[u64], margins: &mut [u64]) -> u64
    requires { MarginsLent n legs.now left.now margins.old }
    ensures { Margins n legs.now left.now margins.old margins.new result }
{
    let mut total: u64 = 0;
    for i in 0..n {
        let leg = packed::leg_in(legs[i]);
        let margin = leg.rate * left[i];
        margins[i] = margin;
        total += margin;
    }
    total
}

// The smallest whole number of cents that is, times 146,000, at least the units.
pub fn cents_of(units: u64) -> u64
    ensures { RoundedUp units result }
{
    units.div_ceil(146000)
}
