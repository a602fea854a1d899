// Dates of the Gregorian calendar as numbers YYYYMMDD, 1900 to 2299: whether a number is one, the next day, anniversaries, and the days between
// two. Their text is in text.rt.
#![tactic(auto)]

pub mod text;

ghost use Rattle.std.specs.Prelude.{◌≡◌, ◌+◌, ◌*◌, ◌≤◌};
ghost use Rattle.dates.specs.Calendar.{is_leap, leap_day, month_length, is_date, next_day, year_start, month_start, day_number, days_between, anniversary};

#[tactic(auto, unfolding(crate::specs::Calendar::is_leap))]
fn is_leap(year: u64) -> bool
    ensures { result ≡ is_leap year }
{
    year % 4 == 0 && (year % 100 != 0 || year % 400 == 0)
}

#[tactic(auto, unfolding(crate::specs::Calendar::leap_day))]
fn leap_day(year: u64) -> u64
    ensures { (result ≡ leap_day year) × (result ≤ 1) }
{
    u64::from(is_leap(year))
}

// The days of a month, 31 and 30 in turn and in turn again from August on; a month that no year has is given none.
#[tactic(auto, using(crate::proofs::Coded::lengths))]
fn month_length(year: u64, month: u64) -> u64
    ensures { result ≡ month_length year month }
{
    if month == 2 {
        return 28 + leap_day(year);
    }
    if !(1..=12).contains(&month) {
        return 0;
    }
    30 + (month + month / 8) % 2
}

// Whether a number is a day of the calendar in the years 1900 to 2299.
#[tactic(auto, using(crate::proofs::Tested::dates))]
pub fn is_date(d: u64) -> bool
    ensures { result ≡ is_date d }
{
    if !(19000101..=22991231).contains(&d) {
        return false;
    }
    let day = d % 100;
    1 <= day && day <= month_length(d / 10000, d / 100 % 100)
}

// The day after.
#[tactic(auto, using(crate::proofs::Coded::next_days))]
pub fn next_day(d: u32) -> u64
    ensures { result ≡ next_day d }
{
    let number = d as u64;
    let year = number / 10000;
    let month = number / 100 % 100;
    let day = number % 100;
    if day < month_length(year, month) {
        return number + 1;
    }
    if month < 12 {
        return 10000 * year + 100 * (month + 1) + 1;
    }
    10000 * (year + 1) + 101
}

// The days of a common year before a month, of which February has two less than 30.
fn month_start(month: u64) -> u64
    ensures { (result ≡ month_start 1 month) × (result ≤ 365) }
{
    let place = month.clamp(1, 13);
    let short = if place <= 2 { 0 } else { 2 };
    (367 * place - 362) / 12 - short
}

// The leap days of the years before a year.
fn leap_days(year: u64) -> u64
    requires { year ≤ 429497 }
    ensures { (365 * year + result ≡ year_start year) × (result ≤ 110000) }
{
    (year + 3) / 4 - (year + 99) / 100 + (year + 399) / 400
}

// A day's number in the count of all days: the leap day of its own year counts from March on.
fn day_number(d: u32) -> u64
    ensures { (result ≡ day_number d) × (result ≤ 200000000) }
{
    let number = d as u64;
    let year = number / 10000;
    let month = number / 100 % 100;
    let years = if month <= 2 { year } else { year + 1 };
    365 * year + leap_days(years) + month_start(month) + number % 100
}

// The days from one date to another, 0 to an earlier one.
pub fn days_between(from: u32, to: u32) -> u64
    ensures { (result ≡ days_between from to) × (result ≤ 200000000) }
{
    day_number(to).saturating_sub(day_number(from))
}

// The same day and month so many years on; 29 February falls on 28 February where there is none.
#[tactic(auto, using(crate::proofs::Coded::anniversaries))]
pub fn anniversary(d: u32, years: u32) -> u64
    ensures { result ≡ anniversary d years }
{
    let number = d as u64;
    let ahead = years as u64;
    let same = number + 10000 * ahead;
    if number % 10000 != 229 {
        return same;
    }
    if is_leap(number / 10000 + ahead) {
        return same;
    }
    same - 1
}
