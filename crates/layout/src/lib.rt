// The layout of a record: a letter, and after it fields, each of a sort.
#![tactic(auto)]

ghost use Rattle.std.specs.Prelude.{◌≡◌, ◌++◌, ◌-◌, take, drop, option_map};
ghost use Rattle.refusals.specs.Refusals.{number_of, refused_by};
ghost use Rattle.rfc4180.specs.Reading.{field_count, texts_in};
ghost use Rattle.codes.specs.Codes.{place_of};
ghost use Rattle.layout.specs.Layout.{letters, ratings, issuers, place_by, valued, by_issuer, value_of, sorts_by, values_of, misrated, all_values, sooner, Found, may_follow, Parses, EntryAt};
ghost use Rattle.lei.specs.Lei.{judged_of};

use lei::{Lei, NotLei};
use refusals::Refusal;
use rfc4180::{Scanned, Span};

// The number of fields in a record after its letter.
pub const AFTER: usize = rfc4180::FIELDS - 1;

// What a record is of: the valuation date and the account, a holding, or a line. Its letter is D, H or P.
#[derive(Clone, Copy, PartialEq, Eq)]
pub enum Letter {
    Valuation,
    Holding,
    Line,
}

// What a field can be: a letter or a code that is named, an LEI, a date, a numeral of at most so many digits, or nothing.
#[derive(Clone, Copy)]
pub enum Sort {
    Account,
    Side,
    Kind,
    Issuer,
    Currency,
    Rating,
    Date,
    Six,
    Twelve,
    Empty,
}

// What a record has after its letter: a value for each field, and the LEI of its issuer.
#[derive(Clone, Copy)]
pub struct Record {
    pub fields: [u64; AFTER],
    pub lei: Lei,
}

// A record as parsed, and where the next one starts: of a broken one 0, as the definition has it.
#[derive(Clone, Copy)]
pub struct Entry {
    pub parsed: Result<Letter, Refusal>,
    pub next: usize,
}

// The sorts of the fields after a letter.
fn sorts_of(letter: Letter) -> [Sort; AFTER]
    ensures { result ≡ sorts_by (place_by letter) }
{
    use Sort::{Account, Currency, Date, Empty, Issuer, Kind, Rating, Side, Six, Twelve};
    match letter {
        Letter::Valuation => [Date, Account, Empty, Empty, Empty, Empty, Empty, Empty],
        Letter::Holding => [Side, Kind, Issuer, Date, Twelve, Six, Currency, Rating],
        Letter::Line => [Six, Six, Twelve, Empty, Empty, Empty, Empty, Empty],
    }
}

// A place among named texts, as a value.
fn valued(place: Option<usize>) -> Result<u64, Refusal>
    ensures { result ≡ valued place }
{
    place.map(|n| n as u64).ok_or(Refusal::Field)
}

// The value of an issuer: the place of its code, or else 100, the paper's number, for a corporation by its LEI.
fn issuer_in(text: &[u8]) -> Result<u64, Refusal>
    ensures { result ≡ by_issuer (place_of text.now issuers) (judged_of text.now) }
{
    if let Some(n) = codes::place_in(text, b"CAABBCMBNBNLNSONPEQCSKUSGB", 2, 13) {
        return Ok(n as u64);
    }
    match lei::judge(text) {
        Ok(()) => Ok(100),
        Err(NotLei::Form) => Err(Refusal::Field),
        Err(NotLei::Remainder) => Err(Refusal::Rating),
    }
}

// The value of a rating: Y, N or none.
#[tactic(auto, using(crate::proofs::Ratings::rated), unfolding(codes::specs::Codes::cells))]
fn rating_in(text: &[u8]) -> Result<u64, Refusal>
    ensures { result ≡ valued (place_of text.now ratings) }
{
    if text.is_empty() {
        return Ok(2);
    }
    valued(codes::place_in(text, b"YN", 1, 2))
}

// The value that a text is of its sort, or its refusal: Rating of an LEI that has another remainder, and else Field.
#[tactic(auto, using(std::proofs::lemmas::Bool::Decides::nat_tests), unfolding(crate::specs::Layout::value_of, codes::specs::Codes::cells))]
fn value_in(sort: Sort, text: &[u8]) -> Result<u64, Refusal>
    ensures { result ≡ value_of sort text.now }
{
    match sort {
        Sort::Account => valued(codes::place_in(text, b"PC", 1, 2)),
        Sort::Side => valued(codes::place_in(text, b"LS", 1, 2)),
        Sort::Kind => valued(codes::place_in(text, b"BCR", 1, 3)),
        Sort::Issuer => issuer_in(text),
        Sort::Currency => valued(codes::place_in(text, b"CADUSDGBP", 3, 3)),
        Sort::Rating => rating_in(text),
        Sort::Date => dates::text::read_date(text).ok_or(Refusal::Field),
        Sort::Six => numerals::read_numeral(text, 6).ok_or(Refusal::Field),
        Sort::Twelve => numerals::read_numeral(text, 12).ok_or(Refusal::Field),
        Sort::Empty => if text.is_empty() {
            Ok(0)
        } else {
            Err(Refusal::Field)
        },
    }
}

// The sooner of what was found and another refusal: of two the one with the lesser number. By the numbers, since the papers order refusals by number.
#[tactic(auto, using(std::proofs::lemmas::Bool::Decides::nat_tests), unfolding(crate::specs::Layout::sooner))]
fn sooner(found: Result<(), Refusal>, refusal: Refusal) -> Result<(), Refusal>
    ensures { refused_by result ≡ sooner (refused_by found) (number_of refusal) }
{
    let Err(first) = found else {
        return Err(refusal);
    };
    if first.number() < refusal.number() {
        return found;
    }
    Err(refusal)
}

// The values of the fields after a letter go into the lent list. The refusal that comes first, if there is one: Field before Rating.
fn values_after(
    text: &[u8],
    spans: &[Span; rfc4180::FIELDS],
    letter: Letter,
    fields: &mut [u64; AFTER],
) -> Result<(), Refusal>
    ensures { Found (values_of (sorts_by (place_by letter)) (drop 1 (texts_in text.now field_count spans.now)))
        fields.new (refused_by result) }
{
    let sorts = sorts_of(letter);
    let mut found = Ok(());
    for j in 0..AFTER {
        match value_in(
            sorts[j],
            rfc4180::field(text, rfc4180::FIELDS, spans, j + 1),
        ) {
            Ok(value) => fields[j] = value,
            Err(refusal) => found = sooner(found, refusal),
        }
    }
    found
}

// Whether a corporation has no rating, or a government has one: in a record of a holding.
#[tactic(auto, using(std::proofs::lemmas::Bool::Decides::nat_tests), unfolding(crate::specs::Layout::misrated))]
fn misrated(letter: Letter, issuer: u64, rating: u64) -> bool
    ensures { result ≡ misrated (place_by letter) issuer rating }
{
    if letter != Letter::Holding {
        false
    } else if issuer == 100 {
        rating >= 2
    } else {
        rating != 2
    }
}

impl Letter {
    // Whether a record of this letter may follow one of the letter before, or none: D comes first and only there.
    pub fn may_follow(self, before: Option<Letter>) -> bool
        ensures { result ≡ may_follow (option_map place_by before) (place_by self) }
    {
        may_follow(before.map(|letter| letter as usize), self as usize)
    }
}

// The same of two letters' numbers, or of any other: 0, which is D's, comes first and only there. It is asked of any numbers, as promised.
pub fn may_follow(before: Option<usize>, letter: usize) -> bool
    ensures { result ≡ may_follow before letter }
{
    match before {
        None => letter == 0,
        Some(place) => letter != 0 && place <= letter,
    }
}

// The letter that a text is.
#[tactic(auto, using(crate::proofs::Letters::by_byte))]
fn letter_in(text: &[u8]) -> Option<Letter>
    ensures { option_map place_by result ≡ place_of text.now letters }
{
    match text {
        [b'D'] => Some(Letter::Valuation),
        [b'H'] => Some(Letter::Holding),
        [b'P'] => Some(Letter::Line),
        _ => None,
    }
}

// A record of so many fields, which may be more than the spans, parsed. What a good one has after its letter goes into the lent record.
fn parsed_in(
    text: &[u8],
    count: usize,
    spans: &[Span; rfc4180::FIELDS],
    record: &mut Record,
) -> Result<Letter, Refusal>
    ensures { Parses text.now count spans.now (all_values «record».new) result }
{
    if count != rfc4180::FIELDS {
        return Err(Refusal::FieldCount);
    }
    let Some(letter) = letter_in(rfc4180::field(text, count, spans, 0)) else {
        return Err(Refusal::Field);
    };
    values_after(text, spans, letter, &mut record.fields)?;
    if misrated(letter, record.fields[2], record.fields[7]) {
        return Err(Refusal::Rating);
    }
    record.lei = lei::lei_of(rfc4180::field(text, count, spans, 3));
    Ok(letter)
}

// The record at `at`, parsed, and where the next one starts. What a good one has after its letter is in the lent record.
pub fn entry_at(text: &[u8], at: usize, record: &mut Record) -> Entry
    ensures { EntryAt text.now at (all_values «record».new) result }
{
    let mut spans = [Span { start: 0, end: 0 }; rfc4180::FIELDS];
    let Some(Scanned { count, next }) = rfc4180::record(text, at, &mut spans) else {
        return Entry {
            parsed: Err(Refusal::Grammar),
            next: 0,
        };
    };
    Entry {
        parsed: parsed_in(text, count, &spans, record),
        next,
    }
}
