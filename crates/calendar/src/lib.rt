//! Dates of the Gregorian calendar from 1960 to 2059, told as day number and weekday. docs/days.md has the rules.
#![tactic(auto)]

ghost use Rattle.std.specs.Prelude.{◌≡◌, ◌≤◌, ◌<◌, ◌%◌, ◌==◌};
ghost use Rattle.calendar.specs.Calendar.{days_in, month_start, day_number, weekday, dated};
ghost use Rattle.calendar.specs.Laws.{NumbersTheDays, StaysInRange, TellsDatesApart};

/// The highest day number: that of 31 December 2059, where 1 January 1960 has 0.
pub const LAST_DAY: u16 = 36_524;

// Every fourth year is a leap year: the years from 1960 to 2059 have no other exception than 2000, which is one.
fn is_leap(years: u32) -> bool
    ensures { result ≡ (years % 4 == 0) }
{
    years % 4 == 0
}

// The days of a month.
fn days_in(leap: bool, month: u32) -> u32
    ensures { result ≡ days_in leap month }
{
    match month {
        2 => if leap { 29 } else { 28 },
        4 | 6 | 9 | 11 => 30,
        _ => 31,
    }
}

// The days of the year before a month.
fn month_start(years: u32, month: u32) -> u32
    requires first { 1 ≤ month }
    requires last { month ≤ 12 }
    ensures start { result ≡ month_start years month }
    ensures small { result ≤ 336 }
{
    let before = (367 * month - 362) / 12;
    if month <= 2 {
        before
    } else if is_leap(years) {
        before - 1
    } else {
        before - 2
    }
}

// The day number of a date, given by the years since 1960, month and day of the month.
fn day_number(years: u32, month: u32, day: u32) -> u32
    requires years { years < 100 }
    requires first_month { 1 ≤ month }
    requires last_month { month ≤ 12 }
    requires first_day { 1 ≤ day }
    requires last_day { day ≤ 31 }
    ensures number { result ≡ day_number years month day }
    ensures small { result < 65536 }
{
    365 * years + (years + 3) / 4 + month_start(years, month) + day - 1
}

/// The weekday of a day number; Monday is 0.
pub fn weekday(number: u16) -> u8
    ensures { result ≡ weekday number }
{
    ((number as u32 + 4) % 7) as u8
}

/// The day number and the weekday (Monday is 0) of a date, given by the years since 1960, month and day of the month. There is
/// none where the calendar has no such date, or its year is not from 1960 to 2059.
pub fn date(years: u32, month: u32, day: u32) -> Option<(u16, u8)>
    ensures { result ≡ dated years month day }
{
    if years >= 100 || month < 1 || month > 12 || day < 1 || day > days_in(is_leap(years), month) {
        return None;
    }
    let number = day_number(years, month, day) as u16;
    Some((number, weekday(number)))
}

/// The numbering begins with 1 January 1960, and the next date has the next number and weekday.
pub fn numbers_the_days()
    ensures { NumbersTheDays }
{}

/// The last day is 31 December 2059, and no date has a higher number.
pub fn stays_in_range()
    ensures last { day_number 99 12 31 ≡ LAST_DAY }
    ensures range { StaysInRange LAST_DAY }
{}

/// Two dates with one number are one date.
pub fn tells_dates_apart()
    ensures { TellsDatesApart }
{}
