// What two legs save as a pair.
#![tactic(auto)]

ghost use Rattle.std.specs.Prelude.{◌≡◌, ◌≤◌};
ghost use Rattle.article.specs.Pair.{rate_limit, saving_limit, RateInRange};
ghost use Rattle.savings.specs.Savings.{rule_saving, saving_of};

use article::pair;
use article::pair::{Leg, Rule};

// What a rule saves of two rates, without the rate that it makes of them.
#[tactic(auto, unfolding(crate::specs::Savings::rule_saving, article::specs::Pair::rule_rate))]
fn rule_saving(rule: Rule, long: u64, short: u64) -> u64
    requires { (long ≤ rate_limit) × (short ≤ rate_limit) }
    ensures { result ≡ rule_saving rule long short }
{
    match rule {
        Rule::Difference => 2 * long.min(short),
        Rule::HalfSum => (long + short).div_ceil(2),
        Rule::Capped => long + short - pair::capped(long, short),
        Rule::NotAllowed => 0,
    }
}

// What two legs save as a pair, 0 where the article does not allow it.
#[tactic(auto, using(crate::proofs::RuleSavings::of_a_pair), unfolding(article::specs::Pair::allowed, article::specs::Pair::is_long, article::specs::Pair::is_short))]
pub fn saving(long: Leg, short: Leg) -> u64
    requires { RateInRange long × RateInRange short }
    ensures { (result ≡ saving_of long short) × (result ≤ saving_limit) }
{
    if long.side == 0 && short.side == 1 && long.period == short.period {
        let rule = pair::rule_of(long, short);
        return rule_saving(rule, long.rate, short.rate);
    }
    0
}
