//! Hexadecimal numbers in a text.
ghost use Rattle.frac_text.specs.Digits.{number_in};
ghost use Rattle.frac_text.specs.Hexadecimals.{is_hexadecimal};
ghost use Rattle.frac_text.specs.Readings.{hexadecimal_answer};
ghost use Rattle.std.specs.Prelude.{◌≡◌, ◌≤◌, IsTrue, length, pos};
ghost use Rattle.xfrac.specs.Forming.{formed};

use crate::NumberRefusal;
use crate::digits::{Base, is_run, whole_number};
use crate::value::made;
use xfrac::XFrac;

/// Whether a text begins as hexadecimal numbers do.
pub fn is_hexadecimal(text: &[u8]) -> bool
    ensures value { result ≡ is_hexadecimal text.now }
    ensures long { IsTrue result → 2 ≤ length text.now }
{
    match text {
        [first, second, ..] => *first == b'0' && (*second == b'x' || *second == b'X'),
        _ => false,
    }
}

fn value_of(digits: &[u8]) -> Option<XFrac>
    ensures { result ≡ formed (pos (number_in Base.Sixteen digits.now)) 1 }
{
    made(whole_number(digits, Base::Sixteen)?, 1)
}

/// The value of the digits after the prefix.
pub fn read_hexadecimal(digits: &[u8]) -> Result<XFrac, NumberRefusal>
    ensures { result ≡ hexadecimal_answer digits.now }
{
    if digits.is_empty() || !is_run(digits, Base::Sixteen, true) {
        return Err(NumberRefusal::BadNumber);
    }
    match value_of(digits) {
        None => Err(NumberRefusal::NumberRange),
        Some(value) => Ok(value),
    }
}
