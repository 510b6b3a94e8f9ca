//! The texts of days and of days with a time.

ghost use Rattle.std.specs.Prelude.{◌≡◌, ◌↔◌, IsTrue};
ghost use Rattle.column_values.specs.Calendar.{is_leap, days_in, IsDay, IsDateText, IsFraction, IsFractionText, IsTime, IsTimeText, IsTimestampText};

use crate::digits::{are_digits, cut, three_numbers};

// Whether bytes are the text of a day.
pub fn is_date_text(bytes: &[u8]) -> bool
    ensures date { IsTrue result ↔ IsDateText bytes.now }
{
    match three_numbers(bytes, 4, b'-') {
        Some((year, month, day)) => is_day(year, month, day),
        None => false,
    }
}

// Whether there is such a day in the Gregorian calendar.
fn is_day(year: u64, month: u64, day: u64) -> bool
    ensures day { IsTrue result ↔ IsDay year month day }
{
    year >= 1
        && year <= 9999
        && month >= 1
        && month <= 12
        && day >= 1
        && day <= days_in(year, month)
}

// How many days a month has.
fn days_in(year: u64, month: u64) -> u64
    ensures days { result ≡ days_in year month }
{
    match month {
        2 => { if is_leap(year) { 29 } else { 28 } }
        4 | 6 | 9 | 11 => 30,
        _ => 31,
    }
}

fn is_leap(year: u64) -> bool
    ensures leap { result ≡ is_leap year }
{
    year % 4 == 0 && (year % 100 != 0 || year % 400 == 0)
}

// Whether bytes are the text of a day and a time.
pub fn is_timestamp_text(bytes: &[u8]) -> bool
    ensures timestamp { IsTrue result ↔ IsTimestampText bytes.now }
{
    let Some((date, rest)) = cut(bytes, 10, b' ') else {
        return false;
    };
    if rest.len() < 8 {
        return false;
    }
    if !is_date_text(date) {
        return false;
    }
    let (time, fraction) = rest.split_at(8);
    is_time_text(time) && is_fraction_text(fraction)
}

// Whether bytes are the text of a time of day.
fn is_time_text(bytes: &[u8]) -> bool
    ensures time { IsTrue result ↔ IsTimeText bytes.now }
{
    match three_numbers(bytes, 2, b':') {
        Some((hour, minute, second)) => is_time(hour, minute, second),
        None => false,
    }
}

// Whether there is such a time of day.
fn is_time(hour: u64, minute: u64, second: u64) -> bool
    ensures time { IsTrue result ↔ IsTime hour minute second }
{
    hour <= 23 && minute <= 59 && second <= 59
}

// Whether bytes are the text of the parts of a second.
fn is_fraction_text(bytes: &[u8]) -> bool
    ensures fraction { IsTrue result ↔ IsFractionText bytes.now }
{
    if bytes.is_empty() {
        return true;
    }
    bytes[0] == b'.' && is_fraction(&bytes[1..])
}

// Whether bytes are 1 to 6 digits, the last of which is not `0`.
fn is_fraction(digits: &[u8]) -> bool
    ensures fraction { IsTrue result ↔ IsFraction digits.now }
{
    if digits.is_empty() || digits.len() > 6 {
        return false;
    }
    digits[digits.len() - 1] != b'0' && are_digits(digits)
}
