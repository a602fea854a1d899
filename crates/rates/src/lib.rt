// Article 7204 of the Bourse de Montréal, Groups I, II, V and XI paragraph 1: the period of a term, and the rate of a holding alone, margin units per
// cent of market value, a unit being 1/146,000 of a cent.
#![tactic(auto)]

ghost use Rattle.std.specs.Prelude.{◌≡◌, ◌≤◌, ◌<◌};
ghost use Rattle.rates.specs.Rate.{period_of, class_of, bond_rate, strip_rate, rate_of};

use holding::{Account, Holding, Issuer, Kind};

// Issuer class (Canada with US and GB, the provinces, corporations) by period: the article's percentages in units. Class and period are numbers, since they are
// places of this table.
const FLAT: [[u16; 5]; 3] = [
    [1460, 1460, 2920, 5840, 5840],
    [2920, 4380, 5840, 7300, 7300],
    [4380, 8760, 10220, 14600, 14600],
];

// The period of a term, 1 to 5: from the valuation date to a maturity.
#[tactic(auto, using(crate::proofs::Periods::period_1, crate::proofs::Periods::period_2, crate::proofs::Periods::period_3, crate::proofs::Periods::period_4, crate::proofs::Periods::period_5))]
pub fn period(account: Account, maturity: u32) -> u64
    ensures { (result ≡ period_of account maturity) × ((1 ≤ result) × (result ≤ 5)) }
{
    let date = account.date;
    let end = maturity as u64;
    if end <= dates::anniversary(date, 1) {
        return 1;
    }
    if end <= dates::anniversary(date, 3) {
        return 2;
    }
    if end <= dates::anniversary(date, 7) {
        return 3;
    }
    if end <= dates::anniversary(date, 11) {
        return 4;
    }
    5
}

// The class of an issuer, its row of the table.
fn class_of(issuer: Issuer) -> usize
    ensures { (result ≡ class_of issuer) × (result < 3) }
{
    match issuer {
        Issuer::Canada | Issuer::UnitedStates | Issuer::UnitedKingdom => 0,
        Issuer::Province(_) => 1,
        Issuer::Corporation(_) => 2,
    }
}

// What a bond of this issuer and term, in its period, has: in period 1 the year's fraction, of a government.
fn bond_rate(account: Account, issuer: Issuer, maturity: u32, period: u64) -> u64
    requires { (period ≡ period_of account maturity) × ((1 ≤ period) × (period ≤ 5)) }
    ensures { (result ≡ bond_rate (class_of issuer) account maturity) × (result ≤ 8000000000) }
{
    let class = class_of(issuer);
    let at = (period - 1) as usize;
    let flat = FLAT[class][at] as u64;
    if class == 2 {
        return flat;
    }
    if period == 1 {
        return flat * dates::days_between(account.date, maturity) / 365;
    }
    flat
}

// One and a half times the bond's rate, three times from 20 years.
#[tactic(auto, using(crate::proofs::Terms::below_twenty, crate::proofs::Terms::from_twenty))]
fn strip_rate(account: Account, bond: u64, maturity: u32) -> u64
    requires { bond ≤ 8000000000 }
    ensures { result ≡ strip_rate bond account maturity }
{
    if (maturity as u64) < dates::anniversary(account.date, 20) {
        return bond * 3 / 2;
    }
    bond * 3
}

// The rate of a holding alone, whose period was worked out. The period comes back as a number, since who asked for it keeps its totals by it: a struct of account,
// maturity and period would be taken apart at each call.
#[tactic(auto, unfolding(crate::specs::Rate::rate_of, crate::specs::Rate::rate_at, crate::specs::Rate::kind_rate))]
pub fn rate_in(account: Account, h: Holding, period: u64) -> u64
    requires { (period ≡ period_of account h.maturity) × ((1 ≤ period) × (period ≤ 5)) }
    ensures { result ≡ rate_of account h }
{
    let kind = h.kind;
    let issuer = h.issuer;
    let maturity = h.maturity;
    let bond = bond_rate(account, issuer, maturity, period);
    match kind {
        Kind::Bond => bond,
        Kind::Coupon | Kind::Residual => strip_rate(account, bond, maturity),
    }
}
