// An estimate of what two legs save as a pair, never too low, by a small number of each.
#![tactic(auto)]

ghost use Rattle.std.specs.Prelude.{◌≡◌, ◌≤◌, ◌<◌};
ghost use Rattle.article.specs.Pair.{RateInRange};
ghost use Rattle.marks.specs.Marks.{is_domestic, is_offered, is_government, has_partner, mark_of, across_mark, scan_rate, scan_limit, OtherClass, Asks};

use article::pair;
use article::pair::Leg;

// Whether a leg is in CAD and of Canada or a province.
#[tactic(auto, unfolding(crate::specs::Marks::is_domestic, article::specs::Pair::in_cad, article::specs::Pair::is_canada, article::specs::Pair::is_province, lists::specs::Choice::within))]
fn is_domestic(leg: Leg) -> bool
    ensures { result ≡ is_domestic leg }
{
    leg.currency == 0 && leg.issuer <= 10
}

// Whether paragraph 3 can have a leg: a corporation's strip, or its bond if that is rated single A or higher.
#[tactic(auto, unfolding(crate::specs::Marks::is_offered, article::specs::Pair::is_bond))]
fn is_offered(leg: Leg) -> bool
    ensures { result ≡ is_offered leg }
{
    pair::is_corporate(leg) && (leg.kind != 0 || leg.rating == 0)
}

// Whether paragraph 4 can have an issuer: Canada, US or GB.
#[tactic(auto, unfolding(crate::specs::Marks::is_government, article::specs::Pair::is_canada, article::specs::Pair::is_us, article::specs::Pair::is_gb))]
fn is_government(leg: Leg) -> bool
    ensures { result ≡ is_government leg }
{
    matches!(leg.issuer, 0 | 11 | 12)
}

// Whether a leg that is not domestic may have a pair: a participant's alone.
#[tactic(auto, unfolding(crate::specs::Marks::has_partner, article::specs::Pair::is_participant, article::specs::Pair::in_cad))]
fn has_partner(leg: Leg) -> bool
    ensures { result ≡ has_partner leg }
{
    if leg.letter != 0 {
        return false;
    }
    if leg.currency == 0 {
        is_offered(leg)
    } else {
        is_government(leg)
    }
}

// What a pair asks of a leg beside its side and rate, as one small number: the period, the issuer and the currency, and of a domestic leg the class, 0 for
// Canada and 1 for a province; of any other 2 or 34, whether it is to be a bond, or where it has no pair, its side. It returns early, since the scan's loops over
// shorts and longs are slower where what depends on the class is added once, at the end.
#[tactic(auto, unfolding(crate::specs::Marks::mark_of, crate::specs::Marks::key_of, article::specs::Pair::is_canada, article::specs::Pair::is_long))]
pub fn mark_of(bond: bool, leg: Leg) -> u16
    ensures { result ≡ mark_of bond leg }
{
    let key = 4 * (leg.period % 8) + 64 * (leg.issuer % 512) + 1024 * (leg.currency % 4);
    if is_domestic(leg) {
        if leg.issuer == 0 {
            return key as u16;
        }
        return (key + 1) as u16;
    }
    let first = if has_partner(leg) {
        bond
    } else {
        leg.side == 0
    };
    if first {
        return (key + 2) as u16;
    }
    (key + 34) as u16
}

// The mark of a short in the column of all shorts, for the long strips: a provincial strip's is that of any province.
#[tactic(auto, unfolding(crate::specs::Marks::across_mark))]
pub fn across_mark(kind: u64, mark: u16) -> u16
    ensures { result ≡ across_mark kind mark }
{
    if kind != 0 && mark % 4 == 1 {
        mark % 32
    } else {
        mark
    }
}

// The mark of a short in the column of the strips, for the long bonds, where a bond has 0: the scan reads numbers of sixteen bits, so that no mark is one too.
pub fn strip_mark(kind: u64, mark: u16) -> u16
    ensures { (kind ≡ 0 → ⊥) → result ≡ mark }
{
    if kind == 0 { 0 } else { mark }
}

// The mark of any issuer of the same period and the other class; no leg that is not domestic has it.
fn other_class(mark: u16) -> u16
    ensures { OtherClass mark result }
{
    if mark % 2 == 0 {
        mark % 32 + 1
    } else {
        mark % 32 - 1
    }
}

// The rate that a leg is scanned by: its own, or of a corporation's strip a third of it.
#[tactic(auto, unfolding(crate::specs::Marks::scan_rate, article::specs::Pair::is_bond), using(crate::proofs::Estimate::bond_low))]
pub fn scan_rate(leg: Leg) -> u16
    requires { RateInRange leg }
    ensures { (result ≡ scan_rate leg) × (result ≤ scan_limit) }
{
    if leg.kind == 0 {
        return leg.rate as u16;
    }
    if pair::is_corporate(leg) {
        return (leg.rate / 3) as u16;
    }
    leg.rate as u16
}

// At least what a long and a short save as a pair, by their marks and the rates a and b that they are scanned by. Nothing else of the scan knows the pair rules.
pub fn asked(long: u16, a: u16, short: u16, b: u16) -> u16
    requires { (a ≤ scan_limit) × (b ≤ scan_limit) }
    ensures { Asks long a short b result }
{
    let cross = other_class(long);
    if short % 32 == cross {
        // Half the sum, rounded up: div_ceil compiles to a step more in the scan's loop.
        return (a + b + 1) / 2;
    }
    if short == long || short == long % 32 {
        return 2 * a.min(b);
    }
    0
}
