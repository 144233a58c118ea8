//! Readers of times.
ghost use Rattle.frac_text.specs.Readings.{literal_answer};
ghost use Rattle.frac_text.specs.Times.{amount_answer, amount_of, exact_quotient, is_negative, milliseconds_of, seconds_answer, time_answer, time_limit};
ghost use Rattle.xfrac.specs.Fractions.{with_sign};
ghost use Rattle.std.specs.Prelude.{◌≡◌, ◌<◌, ◌≤◌, IfOk};

use crate::{NumberRefusal, TimeRefusal, read_number};
use ticks::{Ms, TickRefusal, read_duration};
use xfrac::{XFrac, parts};

/// The latest time that a number of seconds may stand for, in milliseconds: 10^14.
const TIME_LIMIT: u128 = 100_000_000_000_000;

/// The milliseconds in a number of seconds, where they are a whole number.
fn milliseconds_in(seconds: &XFrac) -> Option<u128>
    ensures { result ≡ milliseconds_of seconds.now }
{
    match seconds {
        XFrac::Fin(fraction) => {
            let (n, d) = parts(fraction);
            exact_quotient(n.unsigned_abs() * 1000, d.unsigned_abs())
        }
        _ => None,
    }
}

fn exact_quotient(m: u128, d: u128) -> Option<u128>
    requires { 0 < d }
    ensures { result ≡ exact_quotient m d }
{
    if m % d == 0 { Some(m / d) } else { None }
}

/// The milliseconds of a text that is no duration.
fn read_seconds(text: &str) -> Result<u64, TimeRefusal>
    ensures answer { result ≡ seconds_answer (literal_answer text.now) }
    ensures within { IfOk result (λ n. n ≤ time_limit) }
{
    match read_number(text) {
        Err(NumberRefusal::NumberRange) => Err(TimeRefusal::OutOfRange),
        Err(NumberRefusal::BadNumber | NumberRefusal::LeadingZero) => Err(TimeRefusal::BadTime),
        Ok(value) => match milliseconds_in(&value) {
            None => Err(TimeRefusal::BadTime),
            Some(n) => {
                if n > TIME_LIMIT {
                    return Err(TimeRefusal::OutOfRange);
                }
                Ok(n as u64)
            }
        },
    }
}

/// The milliseconds of a time without its sign.
fn read_amount(text: &str) -> Result<u64, TimeRefusal>
    ensures answer { result ≡ amount_answer text.now }
    ensures within { IfOk result (λ n. n ≤ time_limit) }
{
    match read_duration(text) {
        Ok(duration) => Ok(duration.0.unsigned_abs()),
        Err(TickRefusal::BadDuration) => read_seconds(text),
        Err(TickRefusal::OutOfRange) => Err(TimeRefusal::OutOfRange),
        Err(TickRefusal::TooManySteps) => Err(TimeRefusal::BadTime),
    }
}

/// Whether a minus sign stands before a time, and the time without its sign.
fn split_sign(text: &str) -> (bool, &str)
    ensures sign { result.0 ≡ is_negative text.now }
    ensures amount { result.1.now ≡ amount_of text.now }
{
    match text.strip_prefix('-') {
        Some(amount) => (true, amount),
        None => match text.strip_prefix('+') {
            Some(amount) => (false, amount),
            None => (false, text),
        },
    }
}

/// The time that a text spells, in milliseconds: an optional sign, and then a duration or a number of seconds. It is
/// `OutOfRange` where a duration is more than 100 years, where seconds are more than 10^14 milliseconds, and where a
/// number is outside the limits of numbers; and `BadTime` where the text is neither form, or the seconds are no whole
/// number of milliseconds. It takes no memory.
pub fn read_time(text: &str) -> Result<Ms, TimeRefusal>
    ensures { result ≡ time_answer text.now }
{
    let (negative, amount) = split_sign(text);
    Ok(Ms(turned(negative, read_amount(amount)?)))
}

fn turned(negative: bool, milliseconds: u64) -> i64
    requires { milliseconds ≤ time_limit }
    ensures { result ≡ with_sign negative milliseconds }
{
    let time = milliseconds as i64;
    if negative { -time } else { time }
}
