//! Laws of the calendar that users rely on. The functions do nothing: each stands for what its contract says.
ghost use Rattle.calendar_fn.specs.Laws.{DatesAreCounted, EachDateIsFound, EpochIsDayZero, NextDayIsNextDate, CalendarRepeats, EndsAreThoseOfYears, SecondsArePutTogether, AllPartsAreWithin};

/// The date with a day number has that day number, and each date of the calendar is the one with its day number. Day 0
/// is 1970-01-01.
pub fn dates_are_counted()
    ensures counted { DatesAreCounted }
    ensures found { EachDateIsFound }
    ensures epoch { EpochIsDayZero }
{}

/// The next day has the next date.
pub fn next_day_is_next_date()
    ensures { NextDayIsNextDate }
{}

/// The calendar repeats every 400 years, which have 146,097 days.
pub fn calendar_repeats()
    ensures { CalendarRepeats }
{}

/// The seconds that have parts are those of the years 1 to 9999.
pub fn ends_are_those_of_years()
    ensures { EndsAreThoseOfYears }
{}

/// A second is its day, and its hours, minutes and seconds in the day.
pub fn seconds_are_put_together()
    ensures { SecondsArePutTogether }
{}

/// A year is from 1 to 9999, a month from 1 to 12, a day of a month from 1 to 31, of which a month has 28 to 31, a day of a
/// year from 1 to 366, one of a week up to 6, an hour up to 23 and a minute up to 59.
pub fn parts_are_within()
    ensures { AllPartsAreWithin }
{}
