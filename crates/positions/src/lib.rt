// A book opened: each holding's leg, packed, and its value, in lent lists.
#![tactic(auto)]

ghost use Rattle.positions.specs.Opens.{OpenRoom, Opens};

use article::pair;
use columns::Columns;
use holding::Account;
use proposal::Fault;
use refusals::Refusal;

// The highest price that is taken.
const HIGHEST: u64 = 43800;

// Each holding in turn, up to the first fault: 4, 5, 6, 24, 7, 8, 23, 25, then a price above the highest.
pub fn open(
    account: Account,
    columns: &Columns<'_>,
    legs: &mut [u64],
    left: &mut [u64],
) -> Result<(), Fault>
    requires { OpenRoom account columns.now.holdings columns.now.price legs.old left.old }
    ensures { Opens account columns.now.holdings columns.now.price left.old legs.new left.new result }
{
    let n = columns.holdings();
    for i in 0..n {
        let row = columns.row(i);
        // By cases: the fault that map_err would make stands in no clause.
        let holding = match holding::holding_of(account, row) {
            Ok(holding) => holding,
            Err(refusal) => return Err(proposal::fault_at(refusal, i, 0)),
        };
        if words::word(columns.price, i) > HIGHEST {
            return Err(proposal::fault_at(Refusal::Price, i, 0));
        }
        legs[i] = packed::code_of(pair::leg_of(account, holding));
        left[i] = row.value;
    }
    Ok(())
}
