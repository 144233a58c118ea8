//! What a word of a script spells.
ghost use Rattle.script_read.specs.Outcomes.{then_give};
ghost use Rattle.script_read.specs.Words.{interval_spelled, is_ascii, is_metric_name, is_reserved, number_spelled, starts_name, continues_name, is_identifier, text_told, time_spelled};
ghost use Rattle.std.specs.Char.{to_ascii_lowercase};
ghost use Rattle.std.specs.List.{list_all, prefix_len};
ghost use Rattle.std.specs.Prelude.{◌≡◌, ◌≤◌, false, true, drop, length, map, take_while, bytes_eq, MatchOption};

use crate::fault::LineFault;
use frac_text::{NumberRefusal, read_script_number};
use std::str;
use ticks::Ms;
use xfrac::XFrac;

fn is_ascii(word: &[u8]) -> bool
    ensures { result ≡ is_ascii word.now }
{
    word.iter().all(|byte| *byte < 128)
}

/// The word as a text, unless it has a byte above 127.
fn ascii_text(word: &[u8]) -> Option<&str>
    ensures { MatchOption result (is_ascii word.now ≡ false) (λ text. (text.now ≡ word.now) × (is_ascii word.now ≡ true)) }
{
    if !is_ascii(word) {
        return None;
    }
    match str::from_utf8(word) {
        Ok(text) => Some(text),
        Err(_) => None,
    }
}

/// Bytes of a line as a text. (They are one, since a file is, and they are cut off between bytes below 128.)
pub fn text_in(bytes: &[u8]) -> Result<&str, LineFault>
    ensures { then_give result (λ text. text.now) ≡ text_told bytes.now }
{
    match str::from_utf8(bytes) {
        Ok(text) => Ok(text),
        Err(_) => Err(LineFault::Malformed),
    }
}

/// A number of the script format. `NumberRange` comes exactly where it is outside the limits, `Malformed` where the word
/// is no number.
pub fn read_number(word: &[u8]) -> Result<XFrac, LineFault>
    ensures { result ≡ number_spelled word.now }
{
    let Some(text) = ascii_text(word) else {
        return Err(LineFault::Malformed);
    };
    match read_script_number(text) {
        Ok(value) => Ok(value),
        Err(NumberRefusal::NumberRange) => Err(LineFault::NumberRange),
        Err(NumberRefusal::BadNumber) => Err(LineFault::Malformed),
        Err(NumberRefusal::LeadingZero) => Err(LineFault::Malformed),
    }
}

/// A time: an optional sign, and a duration or a number of seconds.
pub fn read_time(word: &[u8]) -> Result<Ms, LineFault>
    ensures { result ≡ time_spelled word.now }
{
    let Some(text) = ascii_text(word) else {
        return Err(LineFault::Malformed);
    };
    match frac_text::read_time(text) {
        Ok(time) => Ok(time),
        Err(_) => Err(LineFault::Malformed),
    }
}

/// A positive time.
pub fn read_interval(word: &[u8]) -> Result<Ms, LineFault>
    ensures { result ≡ interval_spelled word.now }
{
    let time = read_time(word)?;
    if time.0 > 0 {
        Ok(time)
    } else {
        Err(LineFault::Malformed)
    }
}

/// Whether a name may begin with the byte: a letter, an underscore or a colon.
pub fn starts_name(byte: u8) -> bool
    ensures { result ≡ starts_name byte }
{
    byte.is_ascii_alphabetic() || byte == b'_' || byte == b':'
}

fn continues_name(byte: u8) -> bool
    ensures { result ≡ continues_name byte }
{
    byte.is_ascii_alphanumeric() || byte == b'_' || byte == b':'
}

fn all_continue(text: &[u8]) -> bool
    ensures { result ≡ list_all continues_name text.now }
{
    text.iter().all(|byte| continues_name(*byte))
}

fn is_identifier(text: &[u8]) -> bool
    ensures { result ≡ is_identifier text.now }
{
    match text {
        [] => false,
        [first, rest @ ..] => starts_name(*first) && all_continue(rest),
    }
}

/// Whether the text is the word, in any case of its letters.
pub fn is_word(text: &[u8], word: &[u8]) -> bool
    ensures { result ≡ bytes_eq (map to_ascii_lowercase text.now) (map to_ascii_lowercase word.now) }
{
    text.eq_ignore_ascii_case(word)
}

fn is_reserved(text: &[u8]) -> bool
    ensures { result ≡ is_reserved text.now }
{
    is_word(text, b"inf")
        || is_word(text, b"nan")
        || is_word(text, b"bool")
        || is_word(text, b"on")
        || is_word(text, b"ignoring")
        || is_word(text, b"group_left")
        || is_word(text, b"group_right")
        || is_word(text, b"atan2")
}

fn is_metric_name(text: &[u8]) -> bool
    ensures { result ≡ is_metric_name text.now }
{
    is_identifier(text) && !is_reserved(text)
}

/// The word as a text, if it names a metric.
pub fn metric_name(word: &[u8]) -> Option<&str>
    ensures { MatchOption result (is_metric_name word.now ≡ false)
        (λ name. (name.now ≡ word.now) × (is_metric_name name.now ≡ true)) }
{
    if !is_metric_name(word) {
        return None;
    }
    match str::from_utf8(word) {
        Ok(name) => Some(name),
        Err(_) => None,
    }
}

/// The bytes of a name at the front of a text, and what stands behind them.
pub fn split_name(text: &[u8]) -> (&[u8], &[u8])
    ensures name { result.0.now ≡ take_while continues_name text.now }
    ensures behind { result.1.now ≡ drop (prefix_len continues_name text.now) text.now }
    ensures shorter { length result.1.now ≤ length text.now }
{
    text.split_at(name_len(text))
}

fn name_len(text: &[u8]) -> usize
    ensures len { result ≡ prefix_len continues_name text.now }
    ensures within { result ≤ length text.now }
{
    text.iter()
        .take_while(|byte| continues_name(**byte))
        .count()
}
