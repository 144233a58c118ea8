//! Values of digits and powers of ten, within the limits, by steps that fit 128 bits.
ghost use Rattle.frac_text.specs.Digits.{digits_in, number};
ghost use Rattle.frac_text.specs.Scales.{IsRest, IsScaled, rest_in};
ghost use Rattle.std.specs.Int.{IsGcd};
ghost use Rattle.std.specs.Option.{SomeIff};
ghost use Rattle.std.specs.Prelude.{◌≡◌, ◌<◌, ◌≤◌, ◌+◌, ◌*◌, ◌^◌, length, pos, MatchOption};
ghost use Rattle.xfrac.specs.Forming.{formed};
ghost use Rattle.xfrac.specs.Fractions.{limit};

use crate::digits::{Base, digit_count, split_digits, whole_number};
use xfrac::{LIMIT, XFrac, of, parts};

/// So many places make a denominator within the limit.
const MOST_AT_ONCE: u128 = 30;

/// A part of a number below 1, in lowest terms.
#[derive(Clone, Copy)]
pub struct Rest {
    pub n: u128,
    pub d: u128,
}

fn rest_in(value: &XFrac) -> Option<Rest>
    ensures { result ≡ rest_in value.now }
{
    match value {
        XFrac::Fin(fraction) => {
            let (n, d) = parts(fraction);
            Some(Rest {
                n: n.unsigned_abs(),
                d: d.unsigned_abs(),
            })
        }
        _ => None,
    }
}

/// A tenth of a digit and a rest.
fn tenth(digit: u128, rest: Rest) -> Option<Rest>
    requires digit { digit < 10 }
    requires below { rest.n < rest.d }
    requires within { rest.d ≤ limit }
    ensures { IsScaled result (digit * rest.d + rest.n) (10 * rest.d) }
{
    rest_in(&made(digit * rest.d + rest.n, 10 * rest.d)?)
}

/// The part below 1 that the digits are after a point.
fn fraction(text: &[u8]) -> Option<Rest>
    ensures { IsScaled result (number (digits_in text.now)) (10 ^ length (digits_in text.now)) }
{
    let mut rest = Rest { n: 0, d: 1 };
    let mut place = text.len();
    while place > 0 {
        place -= 1;
        let byte = text[place];
        if byte.is_ascii_digit() {
            rest = tenth(u128::from(byte - b'0'), rest)?;
        }
    }
    Some(rest)
}

/// The rest with so many zeros between the point and it.
fn lowered(rest: Rest, places: u128) -> Option<Rest>
    requires apart { IsGcd rest.n rest.d 1 }
    requires below { rest.n < rest.d }
    requires within { rest.d ≤ limit }
    ensures { IsScaled result rest.n (rest.d * 10 ^ places) }
{
    if rest.n == 0 {
        return Some(rest);
    }
    let mut lower = rest;
    let mut done: u128 = 0;
    while done < places {
        lower = tenth(0, lower)?;
        done += 1;
    }
    Some(lower)
}

/// The number n/d of parts that 128 bits hold.
pub fn made(n: u128, d: u128) -> Option<XFrac>
    requires numerator { n < 2 ^ 127 }
    requires denominator { d < 2 ^ 127 }
    requires positive { 0 < d }
    ensures { result ≡ formed (pos n) d }
{
    of(n as i128, d as i128).ok()
}

/// A whole number and a rest together.
fn joined(whole: u128, rest: Rest) -> Option<XFrac>
    requires apart { IsGcd rest.n rest.d 1 }
    requires below { rest.n < rest.d }
    requires within { rest.d ≤ limit }
    ensures { result ≡ formed (pos (whole * rest.d + rest.n)) rest.d }
{
    let product = whole.checked_mul(rest.d)?;
    if product > LIMIT {
        return None;
    }
    made(product + rest.n, rest.d)
}

/// The number with so many zeros after it, where that is within the limit.
fn raised(n: u128, places: u128) -> Option<u128>
    requires { n ≤ limit }
    ensures { SomeIff result (n * 10 ^ places ≤ limit) (n * 10 ^ places) }
{
    if n == 0 {
        return Some(0);
    }
    let mut more = n;
    let mut done: u128 = 0;
    while done < places {
        more *= 10;
        if more > LIMIT {
            return None;
        }
        done += 1;
    }
    Some(more)
}

/// The number of the digits with so many zeros after them.
fn raised_value(text: &[u8], places: u128) -> Option<XFrac>
    ensures { result ≡ formed (pos (number (digits_in text.now) * 10 ^ places)) 1 }
{
    let n = whole_number(text, Base::Ten)?;
    made(raised(n, places)?, 1)
}

/// The number of the digits with so many places after the point. Up to thirty places and digits are formed at once.
fn lowered_value(text: &[u8], places: u128) -> Option<XFrac>
    ensures { result ≡ formed (pos (number (digits_in text.now))) (10 ^ places) }
{
    if places > MOST_AT_ONCE {
        return lowered_by_parts(text, places);
    }
    match whole_number(text, Base::Ten) {
        None => lowered_by_parts(text, places),
        Some(n) => made(n, power_of_ten(places)),
    }
}

fn power_of_ten(places: u128) -> u128
    requires { places ≤ 30 }
    ensures value { result ≡ 10 ^ places }
    ensures positive { 0 < result }
    ensures within { result ≤ limit }
{
    let mut power: u128 = 1;
    for _ in 0..places {
        power *= 10;
    }
    power
}

/// The same by parts, each within the limit.
fn lowered_by_parts(text: &[u8], places: u128) -> Option<XFrac>
    ensures { result ≡ formed (pos (number (digits_in text.now))) (10 ^ places) }
{
    let count = digit_count(text) as u128;
    let wholes = count.saturating_sub(places);
    let (front, back) = split_digits(text, wholes as usize);
    let whole = whole_number(front, Base::Ten)?;
    let rest = fraction(back)?;
    let lower = lowered(rest, places - (count - wholes))?;
    joined(whole, lower)
}

/// The number of the digits times ten to the power of `up`, over ten to the power of `down`.
pub fn value_of(text: &[u8], up: u128, down: u128) -> Option<XFrac>
    ensures { result ≡ formed (pos (number (digits_in text.now) * 10 ^ up)) (10 ^ down) }
{
    if up >= down {
        raised_value(text, up - down)
    } else {
        lowered_value(text, down - up)
    }
}
