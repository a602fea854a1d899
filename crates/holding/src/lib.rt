// A holding and the account that it is valued in: raw numbers, their ranges, and the records that numbers within them make.
#![tactic(auto)]

ghost use Rattle.std.specs.Prelude.{◌≡◌};
ghost use Rattle.refusals.specs.Refusals.{refused_by, numbered};
ghost use Rattle.lists.specs.Choice.{first_of};
ghost use Rattle.holding.specs.Holding.{head_fault, letter_of, letter_number, headed_of, identity_faults, term_faults, worth_faults, money_faults, fault_of, Builds};
ghost use Rattle.holding.specs.Holding.{side_of, kind_of, is_corporation, is_issuer, issuer_of, currency_of, is_rated, rating_of};
ghost use Rattle.holding.specs.Holding.{issuer_number, row_of};

use refusals::Refusal;

// Each case of a side, a kind, a currency, a rating and an account's letter has the paper's number.
#[derive(Clone, Copy)]
pub enum Side {
    Long = 0,
    Short = 1,
}

#[derive(Clone, Copy)]
pub enum Kind {
    Bond = 0,
    Coupon = 1,
    Residual = 2,
}

#[derive(Clone, Copy)]
pub enum Issuer {
    Canada,
    Province(u64),
    UnitedStates,
    UnitedKingdom,
    Corporation(u64),
}

#[derive(Clone, Copy)]
pub enum Currency {
    Cad = 0,
    Usd = 1,
    Gbp = 2,
}

// Whether a corporation is rated single A or higher; of a government nothing is said, which is a case too, as the document numbers it.
#[derive(Clone, Copy)]
pub enum Rating {
    SingleA = 0,
    Lower = 1,
    NotGiven = 2,
}

// Whose account it is, by its letter: an approved participant's, `P`, or a client's, `C`.
#[derive(Clone, Copy)]
pub enum AccountKind {
    Participant = 0,
    Client = 1,
}

// What is said once for all holdings, as the C interface hands it over, in numbers of any size: the valuation date as a number YYYYMMDD, and the number of the account's letter.
#[derive(Clone, Copy)]
pub struct Head {
    pub date: u64,
    pub letter: u64,
}

// The account of a head without fault.
#[derive(Clone, Copy)]
pub struct Account {
    pub date: u32,
    pub letter: AccountKind,
}

#[derive(Clone, Copy)]
pub struct Holding {
    pub side: Side,
    pub kind: Kind,
    pub issuer: Issuer,
    pub maturity: u32,
    pub value: u64,
    pub currency: Currency,
    pub rating: Rating,
}

// A holding's numbers as they come, of any size: the C interface hands numbers over.
#[derive(Clone, Copy)]
pub struct Row {
    pub side: u64,
    pub kind: u64,
    pub issuer: u64,
    pub maturity: u64,
    pub value: u64,
    pub currency: u64,
    pub rating: u64,
}

// From a number to its case: of a number that none has, the last. Each enum has an impl, since no generic one could name their cases.
impl From<u64> for AccountKind {
    ghost from_gives = { λ n letter. letter ≡ letter_of n };

    #[tactic(auto, unfolding(crate::specs::Holding::letter_of))]
    fn from(letter: u64) -> AccountKind {
        match letter {
            0 => AccountKind::Participant,
            _ => AccountKind::Client,
        }
    }
}

impl From<AccountKind> for u64 {
    ghost from_gives = { λ letter n. n ≡ letter_number letter };

    fn from(letter: AccountKind) -> u64 {
        letter as u64
    }
}

impl From<u64> for Side {
    ghost from_gives = { λ n side. side ≡ side_of n };

    #[tactic(auto, unfolding(crate::specs::Holding::side_of))]
    fn from(side: u64) -> Side {
        match side {
            0 => Side::Long,
            _ => Side::Short,
        }
    }
}

impl From<u64> for Kind {
    ghost from_gives = { λ n kind. kind ≡ kind_of n };

    #[tactic(auto, unfolding(crate::specs::Holding::kind_of))]
    fn from(kind: u64) -> Kind {
        match kind {
            0 => Kind::Bond,
            1 => Kind::Coupon,
            _ => Kind::Residual,
        }
    }
}

impl From<u64> for Currency {
    ghost from_gives = { λ n currency. currency ≡ currency_of n };

    #[tactic(auto, unfolding(crate::specs::Holding::currency_of))]
    fn from(currency: u64) -> Currency {
        match currency {
            0 => Currency::Cad,
            1 => Currency::Usd,
            _ => Currency::Gbp,
        }
    }
}

impl From<u64> for Rating {
    ghost from_gives = { λ n rating. rating ≡ rating_of n };

    #[tactic(auto, unfolding(crate::specs::Holding::rating_of))]
    fn from(rating: u64) -> Rating {
        match rating {
            0 => Rating::SingleA,
            1 => Rating::Lower,
            _ => Rating::NotGiven,
        }
    }
}

// Of a number that no issuer has, a province of that number.
impl From<u64> for Issuer {
    ghost from_gives = { λ n issuer. issuer ≡ issuer_of n };

    #[tactic(auto, unfolding(crate::specs::Holding::issuer_of, crate::specs::Holding::is_corporation, lists::specs::Choice::first_of, lists::specs::Choice::within))]
    fn from(issuer: u64) -> Issuer {
        match issuer {
            0 => Issuer::Canada,
            11 => Issuer::UnitedStates,
            12 => Issuer::UnitedKingdom,
            100..=355 => Issuer::Corporation(issuer),
            _ => Issuer::Province(issuer),
        }
    }
}

// The number of a province or a corporation of no number that an issuer has: the page fixes it, and no issuer has it.
const NO_ISSUER: u64 = u64::MAX;

impl From<Issuer> for u64 {
    ghost from_gives = { λ issuer n. n ≡ issuer_number issuer };

    #[tactic(auto, unfolding(crate::specs::Holding::is_corporation, lists::specs::Choice::within))]
    fn from(issuer: Issuer) -> u64 {
        match issuer {
            Issuer::Canada => 0,
            Issuer::Province(p @ 1..=10) => p,
            Issuer::UnitedStates => 11,
            Issuer::UnitedKingdom => 12,
            Issuer::Corporation(c @ 100..=355) => c,
            _ => NO_ISSUER,
        }
    }
}

// The account of a head, or its first fault: 24 for a valuation date that is none, 26 for a letter that is neither.
#[tactic(auto, using(crate::proofs::Heads::heads), unfolding(crate::specs::Holding::account_of))]
pub fn account_of(head: Head) -> Result<Account, Refusal>
    ensures number { refused_by result ≡ head_fault head }
    ensures account { numbered result ≡ headed_of head }
{
    if !dates::is_date(head.date) {
        return Err(Refusal::Date);
    }
    if head.letter > 1 {
        return Err(Refusal::Letter);
    }
    Ok(Account {
        date: head.date as u32,
        letter: AccountKind::from(head.letter),
    })
}

// Whether a number is a corporation's.
#[tactic(auto, unfolding(crate::specs::Holding::is_corporation, lists::specs::Choice::within))]
pub fn is_corporation(issuer: u64) -> bool
    ensures { result ≡ is_corporation issuer }
{
    matches!(issuer, 100..=355)
}

// Whether a number is an issuer's: a government's or a corporation's.
#[tactic(auto, unfolding(crate::specs::Holding::is_issuer, lists::specs::Choice::within))]
fn is_issuer(issuer: u64) -> bool
    ensures { result ≡ is_issuer issuer }
{
    issuer <= 12 || is_corporation(issuer)
}

// The first fault of what a row is, 4 to 6.
#[tactic(auto, unfolding(crate::specs::Holding::identity_faults, lists::specs::Choice::first_of, lists::specs::Choice::within))]
pub fn identity_fault(row: Row) -> Result<(), Refusal>
    ensures { refused_by result ≡ first_of (identity_faults row) 0 }
{
    if row.side > 1 {
        return Err(Refusal::Side);
    }
    if row.kind > 2 {
        return Err(Refusal::Kind);
    }
    if !is_issuer(row.issuer) {
        return Err(Refusal::Issuer);
    }
    Ok(())
}

// The first fault of its term: 24 for a maturity that is no date, 7 for one by the valuation date or past its 100th anniversary.
#[tactic(auto, unfolding(crate::specs::Holding::term_faults, crate::specs::Holding::out_of_term, lists::specs::Choice::first_of))]
pub fn term_fault(account: Account, row: Row) -> Result<(), Refusal>
    ensures { refused_by result ≡ first_of (term_faults account row) 0 }
{
    if !dates::is_date(row.maturity) {
        return Err(Refusal::Date);
    }
    if row.maturity <= account.date as u64 {
        return Err(Refusal::Term);
    }
    if row.maturity > dates::anniversary(account.date, 100) {
        return Err(Refusal::Term);
    }
    Ok(())
}

// The fault of its worth, 8.
#[tactic(auto, unfolding(crate::specs::Holding::worth_faults, lists::specs::Choice::first_of, lists::specs::Choice::within))]
pub fn worth_fault(row: Row) -> Result<(), Refusal>
    ensures { refused_by result ≡ first_of (worth_faults row) 0 }
{
    if !matches!(row.value, 1..=100000000000) {
        return Err(Refusal::Value);
    }
    Ok(())
}

// Whether a rating is one that an issuer has: of a corporation 0 or 1, of any other 2.
#[tactic(auto, unfolding(crate::specs::Holding::is_rated, lists::specs::Choice::within))]
fn is_rated(issuer: u64, rating: u64) -> bool
    ensures { result ≡ is_rated issuer rating }
{
    if is_corporation(issuer) {
        rating <= 1
    } else {
        rating == 2
    }
}

// The first fault of its money, 23, or of its rating, 25.
#[tactic(auto, unfolding(crate::specs::Holding::money_faults, lists::specs::Choice::first_of, lists::specs::Choice::within))]
pub fn money_fault(row: Row) -> Result<(), Refusal>
    ensures { refused_by result ≡ first_of (money_faults row) 0 }
{
    if row.currency > 2 {
        return Err(Refusal::Currency);
    }
    if !is_rated(row.issuer, row.rating) {
        return Err(Refusal::Rating);
    }
    Ok(())
}

// A row's first fault, 4 to 6, 24, 7, 8, 23 or 25.
pub fn fault(account: Account, row: Row) -> Result<(), Refusal>
    ensures { refused_by result ≡ fault_of account row }
{
    identity_fault(row)?;
    term_fault(account, row)?;
    worth_fault(row)?;
    money_fault(row)
}

// The record of a row, or its first fault.
#[tactic(auto, using(crate::proofs::Rows::building), unfolding(crate::specs::Holding::holding_of))]
pub fn holding_of(account: Account, row: Row) -> Result<Holding, Refusal>
    ensures { Builds account row result }
{
    fault(account, row)?;
    Ok(Holding {
        side: Side::from(row.side),
        kind: Kind::from(row.kind),
        issuer: Issuer::from(row.issuer),
        maturity: row.maturity as u32,
        value: row.value,
        currency: Currency::from(row.currency),
        rating: Rating::from(row.rating),
    })
}

// The numbers of a record.
#[tactic(auto, unfolding(crate::specs::Holding::row_of))]
pub fn row_of(h: Holding) -> Row
    ensures { result ≡ row_of h }
{
    Row {
        side: h.side as u64,
        kind: h.kind as u64,
        issuer: u64::from(h.issuer),
        maturity: h.maturity as u64,
        value: h.value,
        currency: h.currency as u64,
        rating: h.rating as u64,
    }
}
