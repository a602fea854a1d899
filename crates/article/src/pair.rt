// A pair of a long and a short: whether the article allows it, its rate, and what it saves.
ghost use Rattle.std.specs.Prelude.{◌≡◌, cond, ◌+◌, ◌≤◌};
ghost use Rattle.article.specs.Pair.{leg_of, kinds_pair, provinces_pair, class_rule, domestic_rule, is_corporate, bond_rating, corporate_rule};
ghost use Rattle.article.specs.Pair.{are_participants, one_bond, OneIssuer, foreign_rule, Outside, rule_of, rule_rate, rate_limit, RateInRange, Pairs};
ghost use Rattle.holding.specs.Holding.{InRange};

use holding::{Account, Holding};

// Which rule a pair has; that it has none is a case too, as document 01 has it.
#[derive(Clone, Copy, PartialEq, Eq)]
pub enum Rule {
    Difference,
    HalfSum,
    Capped,
    NotAllowed,
}

// What a pair asks of one leg: the number of its account's letter, those of its side, kind, issuer, currency and rating, its period, and its rate alone.
// They are numbers, since document 01 has the rule chosen by a match over the numbers of issuers and kinds; and a leg is read back from any number, so that the range
// of its rate is a clause of those who ask for it and no part of the type.
#[derive(Clone, Copy)]
pub struct Leg {
    pub letter: u64,
    pub side: u64,
    pub kind: u64,
    pub issuer: u64,
    pub currency: u64,
    pub rating: u64,
    pub period: u64,
    pub rate: u64,
}

// A pair's rate and the rate that it saves.
#[derive(Clone, Copy)]
pub struct Pair {
    pub rate: u64,
    pub saving: u64,
}

// What a pair asks of this holding, worked out once.
pub fn leg_of(account: Account, h: Holding) -> Leg
    ensures { (result ≡ leg_of account h) × (InRange account h → RateInRange result) }
{
    let row = holding::row_of(h);
    let period = rates::period(account, h.maturity);
    Leg {
        letter: u64::from(account.letter),
        side: row.side,
        kind: row.kind,
        issuer: row.issuer,
        currency: row.currency,
        rating: row.rating,
        period,
        rate: rates::rate_in(account, h, period),
    }
}

// The rule of two provinces: two strips of any, a bond and a strip only of the same.
#[tactic(auto, unfolding(crate::specs::Pair::provinces_pair, crate::specs::Pair::is_bond))]
fn province_rule(long: Leg, short: Leg) -> Rule
    ensures { result ≡ cond (provinces_pair long short) Rule.Difference Rule.NotAllowed }
{
    if long.kind != 0 && short.kind != 0 {
        return Rule::Difference;
    }
    if long.issuer == short.issuer {
        return Rule::Difference;
    }
    Rule::NotAllowed
}

// The rule by the numbers of the two issuers.
fn class_rule(long: Leg, short: Leg) -> Rule
    ensures { result ≡ class_rule long short }
{
    let first = long.issuer;
    let second = short.issuer;
    match first {
        0 => match second {
            0 => Rule::Difference,
            1..=10 => Rule::HalfSum,
            _ => Rule::NotAllowed,
        },
        1..=10 => match second {
            0 => Rule::HalfSum,
            1..=10 => province_rule(long, short),
            _ => Rule::NotAllowed,
        },
        _ => Rule::NotAllowed,
    }
}

// Whether the two kinds pair in CAD: a bond with a strip or a strip with a strip.
#[tactic(auto, unfolding(crate::specs::Pair::kinds_pair, crate::specs::Pair::is_bond, crate::specs::Pair::is_strip, lists::specs::Choice::within))]
fn kinds_pair(long: Leg, short: Leg) -> bool
    ensures { result ≡ kinds_pair long short }
{
    matches!((long.kind, short.kind), (0, 1..=2) | (1..=2, 0..=2))
}

// Paragraph 2: the rule by the numbers of the two kinds, and where they pair by those of the two issuers.
#[tactic(auto, unfolding(crate::specs::Pair::domestic_rule))]
fn domestic_rule(long: Leg, short: Leg) -> Rule
    ensures { result ≡ domestic_rule long short }
{
    if kinds_pair(long, short) {
        return class_rule(long, short);
    }
    Rule::NotAllowed
}

// Whether a leg is a corporation's.
#[tactic(auto, unfolding(crate::specs::Pair::is_corporate))]
pub fn is_corporate(leg: Leg) -> bool
    ensures { result ≡ is_corporate leg }
{
    holding::is_corporation(leg.issuer)
}

// Whether exactly one of the two is a bond.
#[tactic(auto, unfolding(crate::specs::Pair::one_bond, crate::specs::Pair::is_bond, crate::specs::Pair::is_strip, lists::specs::Choice::within))]
fn one_bond(long: Leg, short: Leg) -> bool
    ensures { result ≡ one_bond long short }
{
    matches!((long.kind, short.kind), (0, 1..=2) | (1..=2, 0))
}

// The rating of the bond, where just one of the two is one.
#[tactic(auto, unfolding(crate::specs::Pair::bond_rating, crate::specs::Pair::is_bond))]
fn bond_rating(long: Leg, short: Leg) -> u64
    ensures { result ≡ bond_rating long short }
{
    if long.kind == 0 {
        long.rating
    } else {
        short.rating
    }
}

// Paragraph 3, of a participant's bond and strip of one issuer: the greater rate, capped, where that is a corporation and the bond is rated.
#[tactic(auto, using(crate::proofs::Outside::corporate))]
fn corporate_rule(long: Leg, short: Leg) -> Rule
    requires { OneIssuer long short }
    ensures { result ≡ corporate_rule long short }
{
    if bond_rating(long, short) != 0 {
        return Rule::NotAllowed;
    }
    if is_corporate(long) {
        return Rule::Capped;
    }
    Rule::NotAllowed
}

// Paragraph 4, of a participant's bond and strip of one issuer: the difference, where that is Canada, US or GB.
#[tactic(auto, using(crate::proofs::Outside::foreign_government))]
fn foreign_rule(long: Leg, short: Leg) -> Rule
    requires { OneIssuer long short }
    ensures { result ≡ foreign_rule long short }
{
    let issuer = long.issuer;
    match issuer {
        0 | 11 | 12 => Rule::Difference,
        _ => Rule::NotAllowed,
    }
}

// Whether both legs are approved participants'.
#[tactic(auto, unfolding(crate::specs::Pair::are_participants, crate::specs::Pair::is_participant))]
fn are_participants(long: Leg, short: Leg) -> bool
    ensures { result ≡ are_participants long short }
{
    if long.letter != 0 {
        return false;
    }
    short.letter == 0
}

// Paragraphs 3 and 4, by the number of the currency that both legs are in: approved participants', exactly one a bond, and the issuer is the same.
#[tactic(auto, using(crate::proofs::Outside::outside))]
fn outside_rule(long: Leg, short: Leg) -> Rule
    requires { Outside long short }
    ensures { result ≡ rule_of long short }
{
    if long.issuer != short.issuer {
        return Rule::NotAllowed;
    }
    if !one_bond(long, short) {
        return Rule::NotAllowed;
    }
    if !are_participants(long, short) {
        return Rule::NotAllowed;
    }
    let currency = long.currency;
    match currency {
        0 => corporate_rule(long, short),
        1..=2 => foreign_rule(long, short),
        _ => Rule::NotAllowed,
    }
}

// The rule: paragraph 2 for Canada and the provinces in CAD, of clients too, paragraphs 3 and 4 for any other. Two currencies have none.
// In place: two legs through memory at each line and each pair would cost more than the rule.
#[inline(always)]
#[tactic(auto, using(crate::proofs::Outside::two_currencies_rows, crate::proofs::Outside::domestic))]
pub fn rule_of(long: Leg, short: Leg) -> Rule
    ensures { result ≡ rule_of long short }
{
    if long.currency != short.currency {
        return Rule::NotAllowed;
    }
    if long.currency == 0 && long.issuer <= 10 {
        return domestic_rule(long, short);
    }
    outside_rule(long, short)
}

// The lesser of 29,200, which is 20 percent, and the greater of two rates.
#[tactic(auto, unfolding(crate::specs::Pair::rule_rate))]
pub fn capped(a: u64, b: u64) -> u64
    ensures { (result ≡ rule_rate Rule.Capped a b) × (result ≤ a + b) }
{
    a.max(b).min(29200)
}

// The rate that a rule makes of two rates.
#[tactic(auto, unfolding(crate::specs::Pair::rule_rate))]
fn rule_rate(rule: Rule, long: u64, short: u64) -> u64
    requires { (long ≤ rate_limit) × (short ≤ rate_limit) }
    ensures { (result ≡ rule_rate rule long short) × (result ≤ long + short) }
{
    match rule {
        Rule::Difference => { long.abs_diff(short) }
        Rule::HalfSum => (long + short) / 2,
        Rule::Capped => capped(long, short),
        Rule::NotAllowed => long + short,
    }
}

// Two legs as a pair, where the article allows it.
pub fn pair_legs(long: Leg, short: Leg) -> Option<Pair>
    requires { RateInRange long × RateInRange short }
    ensures { Pairs long short result }
{
    if long.side != 0 {
        return None;
    }
    if short.side != 1 {
        return None;
    }
    if long.period != short.period {
        return None;
    }
    let rule = rule_of(long, short);
    if rule == Rule::NotAllowed {
        return None;
    }
    let rate = rule_rate(rule, long.rate, short.rate);
    Some(Pair {
        rate,
        saving: long.rate + short.rate - rate,
    })
}
