//! The parts of a time, which are there for the years 1 to 9999 alone. (The Prometheus querying documentation.)
ghost use Rattle.std.specs.Prelude.{◌≡◌, ◌↔◌, false, true, IsSome, MatchOption};
ghost use Rattle.calendar_fn.specs.Jiff.{IsSameDate};
ghost use Rattle.calendar_fn.specs.Parts.{IsInCalendar, is_in_calendar as in_calendar, date_at as the_date_at, year_at, month_at, day_of_month_at, days_in_month_at, day_of_year_at, day_of_week_at, hour_at, minute_at, within_calendar, second_of_day as place_in_day};

use crate::civil::date_of;
use jiff::civil::Date;

const FIRST_SECOND: i64 = -62_135_596_800;

const LAST_SECOND: i64 = 253_402_300_799;

const SECONDS_OF_A_DAY: i64 = 86_400;

/// Whether a second is one of the years 1 to 9999.
fn is_in_calendar(seconds: i64) -> bool
    ensures { result ≡ in_calendar seconds }
{
    FIRST_SECOND <= seconds && seconds <= LAST_SECOND
}

/// The date of a second of the calendar.
fn date_at(seconds: i64) -> Option<Date>
    ensures { MatchOption result (in_calendar seconds ≡ false)
        (λ date. (in_calendar seconds ≡ true) × IsSameDate date (the_date_at seconds)) }
{
    if !is_in_calendar(seconds) {
        return None;
    }
    Some(date_of(seconds.div_euclid(SECONDS_OF_A_DAY)))
}

/// How many seconds of its day lie before a second of the calendar.
fn second_of_day(seconds: i64) -> Option<u32>
    ensures { result ≡ within_calendar seconds (place_in_day seconds) }
{
    if !is_in_calendar(seconds) {
        return None;
    }
    Some(seconds.rem_euclid(SECONDS_OF_A_DAY) as u32)
}

/// The year, from 1 to 9999, or `None` exactly where the second is outside these years.
pub fn year(seconds: i64) -> Option<u32>
    ensures part { result ≡ year_at seconds }
    ensures ends { IsSome result ↔ IsInCalendar seconds }
{
    match date_at(seconds) {
        Some(date) => Some(date.year() as u32),
        None => None,
    }
}

/// The month, from 1 to 12, or `None` exactly where the second is outside the years 1 to 9999.
pub fn month(seconds: i64) -> Option<u32>
    ensures part { result ≡ month_at seconds }
    ensures ends { IsSome result ↔ IsInCalendar seconds }
{
    match date_at(seconds) {
        Some(date) => Some(date.month() as u32),
        None => None,
    }
}

/// The day of the month, from 1 on, or `None` exactly where the second is outside the years 1 to 9999.
pub fn day_of_month(seconds: i64) -> Option<u32>
    ensures part { result ≡ day_of_month_at seconds }
    ensures ends { IsSome result ↔ IsInCalendar seconds }
{
    match date_at(seconds) {
        Some(date) => Some(date.day() as u32),
        None => None,
    }
}

/// How many days the month has, or `None` exactly where the second is outside the years 1 to 9999.
pub fn days_in_month(seconds: i64) -> Option<u32>
    ensures part { result ≡ days_in_month_at seconds }
    ensures ends { IsSome result ↔ IsInCalendar seconds }
{
    match date_at(seconds) {
        Some(date) => Some(date.days_in_month() as u32),
        None => None,
    }
}

/// The day of the year, from 1 on, or `None` exactly where the second is outside the years 1 to 9999.
pub fn day_of_year(seconds: i64) -> Option<u32>
    ensures part { result ≡ day_of_year_at seconds }
    ensures ends { IsSome result ↔ IsInCalendar seconds }
{
    match date_at(seconds) {
        Some(date) => Some(date.day_of_year() as u32),
        None => None,
    }
}

/// The day of the week, from 0 for Sunday to 6, or `None` exactly where the second is outside the years 1 to 9999.
pub fn day_of_week(seconds: i64) -> Option<u32>
    ensures part { result ≡ day_of_week_at seconds }
    ensures ends { IsSome result ↔ IsInCalendar seconds }
{
    if !is_in_calendar(seconds) {
        return None;
    }
    // Day 0 was a Thursday.
    let day = seconds.div_euclid(SECONDS_OF_A_DAY);
    Some((day + 4).rem_euclid(7) as u32)
}

/// The hour of the day, from 0 to 23, or `None` exactly where the second is outside the years 1 to 9999.
pub fn hour(seconds: i64) -> Option<u32>
    ensures part { result ≡ hour_at seconds }
    ensures ends { IsSome result ↔ IsInCalendar seconds }
{
    match second_of_day(seconds) {
        Some(place) => Some(place / 3600),
        None => None,
    }
}

/// The minute of the hour, from 0 to 59, or `None` exactly where the second is outside the years 1 to 9999.
pub fn minute(seconds: i64) -> Option<u32>
    ensures part { result ≡ minute_at seconds }
    ensures ends { IsSome result ↔ IsInCalendar seconds }
{
    match second_of_day(seconds) {
        Some(place) => Some(place % 3600 / 60),
        None => None,
    }
}
