//! Decimal numbers in a text.
ghost use Rattle.frac_text.specs.Capped.{IsCapped, IsCount, IsPower};
ghost use Rattle.frac_text.specs.Decimals.{are_digits, count_of, decimal_of, ending_of, exponent_of, fraction_of, has_leading_zero, is_optional_run, power, scaled, signed_exponent};
ghost use Rattle.frac_text.specs.Digits.{front, back, digits_in, number};
ghost use Rattle.frac_text.specs.Readings.{decimal_answer, plain_answer, script_answer, turned};
ghost use Rattle.std.specs.Prelude.{◌≡◌, ◌≤◌, ◌++◌, ℕ};
ghost use Rattle.xfrac.specs.Fractions.{limit};

use crate::NumberRefusal;
use crate::digits::{Base, digit_count, is_run, run_length, whole_number};
use crate::value::value_of;
use xfrac::{LIMIT, XFrac};

/// An exponent, which stands still where its size is beyond the limit.
#[derive(Clone, Copy)]
pub struct Exponent {
    pub negative: bool,
    pub size: u128,
}

/// The run of digits at the front, and what stands after it.
fn split_run(text: &[u8], grouped: bool) -> (&[u8], &[u8])
    ensures front { result.0.now ≡ front grouped text.now }
    ensures back { result.1.now ≡ back grouped text.now }
{
    text.split_at(run_length(text, grouped))
}

/// After the whole digits: the fraction's digits, and what stands after these.
pub fn split_fraction(text: &[u8], grouped: bool) -> (&[u8], &[u8])
    ensures fraction { result.0.now ≡ fraction_of grouped text.now }
    ensures ending { result.1.now ≡ ending_of grouped text.now }
{
    match text {
        [b'.', rest @ ..] => split_run(rest, grouped),
        _ => (text.split_at(0).0, text),
    }
}

/// A number's text without what stands after its digits.
fn significand<'a>(text: &'a [u8], ending: &[u8], grouped: bool) -> &'a [u8]
    requires { ending.now ≡ ending_of grouped (back grouped text.now) }
    ensures { digits_in result.now ≡ digits_in (front grouped text.now) ++ digits_in (fraction_of grouped (back grouped text.now)) }
{
    text.split_at(text.len().saturating_sub(ending.len())).0
}

/// Whether a run of digits is well formed, or has no byte.
pub fn is_optional_run(text: &[u8]) -> bool
    ensures { result ≡ is_optional_run text.now }
{
    text.is_empty() || is_run(text, Base::Ten, false)
}

/// Whether the digits on both sides of a point are well formed, and there are some.
pub fn are_digits(whole: &[u8], fraction: &[u8]) -> bool
    ensures { result ≡ are_digits whole.now fraction.now }
{
    is_optional_run(whole)
        && is_optional_run(fraction)
        && !(whole.is_empty() && fraction.is_empty())
}

/// The number of digits that are the whole text.
fn count_of(text: &[u8], grouped: bool) -> Option<u128>
    ensures { IsCount (count_of grouped text.now) result }
{
    if !split_run(text, grouped).1.is_empty() || !is_run(text, Base::Ten, false) {
        return None;
    }
    match whole_number(text, Base::Ten) {
        Some(n) => Some(n),
        None => Some(LIMIT),
    }
}

fn with_sign(negative: bool, size: Option<u128>) -> Option<Exponent>
    ensures { (count : _) → IsCount count size → IsPower (power negative count) result }
{
    match size {
        None => None,
        Some(size) => Some(Exponent { negative, size }),
    }
}

fn signed_exponent(text: &[u8], grouped: bool) -> Option<Exponent>
    ensures { IsPower (signed_exponent grouped text.now) result }
{
    match text {
        [b'-', rest @ ..] => with_sign(true, count_of(rest, grouped)),
        [b'+', rest @ ..] => with_sign(false, count_of(rest, grouped)),
        _ => with_sign(false, count_of(text, grouped)),
    }
}

/// What stands after the digits: nothing, or `e` or `E` and an exponent.
fn exponent_of(ending: &[u8], grouped: bool) -> Option<Exponent>
    ensures { IsPower (exponent_of grouped ending.now) result }
{
    match ending {
        [] => Some(Exponent {
            negative: false,
            size: 0,
        }),
        [b'e', rest @ ..] => signed_exponent(rest, grouped),
        [b'E', rest @ ..] => signed_exponent(rest, grouped),
        _ => None,
    }
}

fn scaled(digits: &[u8], places: usize, exponent: Exponent) -> Option<XFrac>
    requires { exponent.size ≤ limit }
    ensures { (size : ℕ) → IsCapped size exponent.size → result ≡ scaled (number (digits_in digits.now)) places exponent.negative size }
{
    if exponent.negative {
        value_of(digits, 0, places as u128 + exponent.size)
    } else {
        value_of(digits, exponent.size, places as u128)
    }
}

/// Whether there are digits alone, more than one, and the first is 0.
fn has_leading_zero(text: &[u8], grouped: bool) -> bool
    ensures { result ≡ has_leading_zero grouped text.now }
{
    match text {
        [b'0', ..] => split_run(text, grouped).1.is_empty() && digit_count(text) > 1,
        _ => false,
    }
}

/// The value of a decimal number.
pub fn read_decimal(text: &[u8], grouped: bool) -> Result<XFrac, NumberRefusal>
    ensures { result ≡ decimal_answer (has_leading_zero grouped text.now) (decimal_of grouped text.now) }
{
    let (whole, rest) = split_run(text, grouped);
    let (fraction, ending) = split_fraction(rest, grouped);
    if !are_digits(whole, fraction) {
        return Err(NumberRefusal::BadNumber);
    }
    let digits = significand(text, ending, grouped);
    match exponent_of(ending, grouped) {
        None => Err(NumberRefusal::BadNumber),
        Some(exponent) => match scaled(digits, digit_count(fraction), exponent) {
            None => Err(NumberRefusal::NumberRange),
            Some(value) => {
                if has_leading_zero(text, grouped) {
                    Err(NumberRefusal::LeadingZero)
                } else {
                    Ok(value)
                }
            }
        },
    }
}
