//! The date with a day number, by `jiff`.
ghost use Rattle.std.specs.Prelude.{pos, neg_ℤ};
ghost use Rattle.jiff.specs.Words.{IsBetween};
ghost use Rattle.calendar_fn.specs.Calendar.{date_of as the_date};
ghost use Rattle.calendar_fn.specs.Jiff.{IsSameDate};

use jiff::civil::Date;
use jiff_core::civil;

/// The date with a day number in the years 1 to 9999.
pub(crate) fn date_of(day: i64) -> Date
    requires { IsBetween (neg_ℤ (pos 719_162)) (pos 2_932_896) day }
    ensures { IsSameDate result (the_date day) }
{
    Date::from_plain(civil::Date::from_unix_epoch_day(day).unwrap())
}
