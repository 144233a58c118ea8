//! What a time is on a clock and a calendar of UTC: the parts of a number of seconds since the beginning of 1970-01-01.
//! Its rows of tests stand in `number_tests`.
#![tactic(auto)]

mod civil;
mod laws;
mod parts;

pub use laws::{
    calendar_repeats, dates_are_counted, ends_are_those_of_years, next_day_is_next_date,
    parts_are_within, seconds_are_put_together,
};
pub use parts::{day_of_month, day_of_week, day_of_year, days_in_month, hour, minute, month, year};
