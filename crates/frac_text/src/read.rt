//! Readers of numbers.
ghost use Rattle.frac_text.specs.Readings.{is_word, literal_answer, plain_answer, script_answer, turned};
ghost use Rattle.std.specs.Char.{to_ascii_lowercase};
ghost use Rattle.std.specs.Prelude.{◌≡◌, map, false};

use crate::NumberRefusal;
use crate::decimal::read_decimal;
use crate::hexadecimal::{is_hexadecimal, read_hexadecimal};
use xfrac::{XFrac, neg};

/// Whether the text is the word, in any case.
fn is_word(text: &[u8], word: &[u8]) -> bool
    ensures { result ≡ is_word text.now (map to_ascii_lowercase word.now) }
{
    text.eq_ignore_ascii_case(word)
}

/// A number without a sign: `Inf` or `NaN` in any case, or a decimal number.
fn read_plain(text: &[u8], grouped: bool) -> Result<XFrac, NumberRefusal>
    ensures { result ≡ plain_answer grouped text.now }
{
    if is_word(text, b"inf") {
        Ok(XFrac::PosInf)
    } else if is_word(text, b"nan") {
        Ok(XFrac::NaN)
    } else {
        read_decimal(text, grouped)
    }
}

/// The answer for a number with a minus sign before it.
fn turned(answer: Result<XFrac, NumberRefusal>) -> Result<XFrac, NumberRefusal>
    ensures { result ≡ turned answer }
{
    Ok(neg(&answer?))
}

/// The number that a PromQL literal spells: digits with an optional point and an optional exponent, `0x` and hexadecimal
/// digits, or `Inf` or `NaN` in any case. A single underscore may stand between two digits and right after `0x`. It is
/// `NumberRange` where the lowest terms are outside the limits, else `LeadingZero` where digits alone, more than one,
/// begin with 0, and `BadNumber` where the text is no literal. It takes no memory.
pub fn read_number(text: &str) -> Result<XFrac, NumberRefusal>
    ensures { result ≡ literal_answer text.now }
{
    read_literal(text.as_bytes())
}

fn read_literal(text: &[u8]) -> Result<XFrac, NumberRefusal>
    ensures { result ≡ literal_answer text.now }
{
    if is_hexadecimal(text) {
        read_hexadecimal(text.split_at(2).1)
    } else {
        read_plain(text, true)
    }
}

/// The number that a promqltest script spells by the text: an optional sign, and then digits with an optional point
/// and an optional exponent, or `Inf` or `NaN` in any case. It is `NumberRange` where the lowest terms are outside the
/// limits, else `LeadingZero` where digits alone, more than one, begin with 0, and `BadNumber` where the text is no
/// number. It takes no memory.
pub fn read_script_number(text: &str) -> Result<XFrac, NumberRefusal>
    ensures { result ≡ script_answer text.now }
{
    read_signed(text.as_bytes())
}

fn read_signed(text: &[u8]) -> Result<XFrac, NumberRefusal>
    ensures { result ≡ script_answer text.now }
{
    match text {
        [] => Err(NumberRefusal::BadNumber),
        [first, rest @ ..] => {
            if *first == b'-' {
                turned(read_plain(rest, false))
            } else if *first == b'+' {
                read_plain(rest, false)
            } else {
                read_plain(text, false)
            }
        }
    }
}
