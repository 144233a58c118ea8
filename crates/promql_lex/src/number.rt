//! Numbers and durations.
ghost use Rattle.promql_lex.specs.Numbers.{bad_kind, begins_exponent, begins_number, begins_unit, begins_with_digit, counts_in_hexadecimal, duration_kind, ends_count, exponent_len, fraction_len, has_unit, has_units, is_mantissa, is_word_byte, mantissa_len, number_kind, point_len, read_kind, run_len, signed_len};
ghost use Rattle.std.specs.List.{prefix_len};
ghost use Rattle.std.specs.Prelude.{◌≡◌, ◌≤◌, length, true, false, IsTrue};

use crate::token::TokenKind;
use frac_text::{
    NumberRefusal, are_digits, is_optional_run, read_number, run_length, split_fraction,
};
use promql_ast::QueryRefusal;
use ticks::{Ms, TickRefusal, read_duration};
use xfrac::XFrac;

fn begins_with_digit(text: &[u8]) -> bool
    ensures { result ≡ begins_with_digit text.now }
{
    match text {
        [] => false,
        [byte, ..] => byte.is_ascii_digit(),
    }
}

/// Whether a digit, or a point and a digit, stand at the front.
pub fn begins_number(byte: u8, bytes: &[u8]) -> bool
    ensures { result ≡ begins_number byte bytes.now }
{
    byte.is_ascii_digit() || (byte == b'.' && begins_with_digit(bytes))
}

fn is_word_byte(byte: u8) -> bool
    ensures { result ≡ is_word_byte byte }
{
    byte.is_ascii_alphanumeric() || byte == b'_'
}

/// How many letters, digits and underscores stand at the front.
fn word_len(text: &[u8]) -> usize
    ensures is { result ≡ prefix_len is_word_byte text.now }
    ensures within { result ≤ length text.now }
{
    text.iter().take_while(|byte| is_word_byte(**byte)).count()
}

/// How long a point and the digits behind it are.
fn fraction_len(text: &[u8]) -> usize
    ensures is { result ≡ fraction_len text.now }
    ensures within { result ≤ length text.now }
{
    match text {
        [] => 0,
        [first, rest @ ..] => {
            if *first == b'.' {
                1 + run_length(rest, true)
            } else {
                0
            }
        }
    }
}

fn point_len(whole: &[u8], rest: &[u8]) -> usize
    ensures is { result ≡ point_len whole.now rest.now }
    ensures within { result ≤ length rest.now }
{
    if is_optional_run(whole) {
        fraction_len(rest)
    } else {
        0
    }
}

fn mantissa_len(text: &[u8]) -> usize
    ensures is { result ≡ mantissa_len text.now }
    ensures within { result ≤ length text.now }
{
    let whole = run_length(text, true);
    let (front, back) = text.split_at(whole);
    whole + point_len(front, back)
}

fn is_mantissa(text: &[u8]) -> bool
    ensures { result ≡ is_mantissa text.now }
{
    let (whole, rest) = text.split_at(run_length(text, true));
    are_digits(whole, split_fraction(rest, true).0)
}

fn begins_exponent(text: &[u8]) -> bool
    ensures is { result ≡ begins_exponent text.now }
    ensures within { IsTrue result → 2 ≤ length text.now }
{
    match text {
        [letter, sign, digit, ..] => {
            (*letter == b'e' || *letter == b'E')
                && (*sign == b'+' || *sign == b'-')
                && digit.is_ascii_digit()
        }
        _ => false,
    }
}

fn exponent_len(mantissa: &[u8], rest: &[u8]) -> usize
    ensures is { result ≡ exponent_len mantissa.now rest.now }
    ensures within { result ≤ length rest.now }
{
    if is_mantissa(mantissa) && begins_exponent(rest) {
        2
    } else {
        0
    }
}

fn signed_len(text: &[u8]) -> usize
    ensures is { result ≡ signed_len text.now }
    ensures within { result ≤ length text.now }
{
    let size = mantissa_len(text);
    let (mantissa, rest) = text.split_at(size);
    size + exponent_len(mantissa, rest)
}

/// How far the digits at the front go, with all letters, digits and underscores behind them.
pub fn run_len(text: &[u8]) -> usize
    ensures is { result ≡ run_len text.now }
    ensures within { result ≤ length text.now }
{
    let size = signed_len(text);
    size + word_len(text.split_at(size).1)
}

/// Whether hexadecimal digits stand right behind `0x` or `0X`.
fn counts_in_hexadecimal(run: &[u8]) -> bool
    ensures { result ≡ counts_in_hexadecimal run.now }
{
    match run {
        [first, second, digit, ..] => {
            *first == b'0' && (*second == b'x' || *second == b'X') && digit.is_ascii_hexdigit()
        }
        _ => false,
    }
}

fn begins_unit(hexadecimal: bool, byte: u8) -> bool
    ensures { result ≡ begins_unit hexadecimal byte }
{
    byte == b'y'
        || byte == b'w'
        || byte == b'h'
        || byte == b'm'
        || byte == b's'
        || (byte == b'd' && !hexadecimal)
}

fn ends_count(hexadecimal: bool, byte: u8) -> bool
    ensures { result ≡ ends_count hexadecimal byte }
{
    if hexadecimal {
        byte.is_ascii_hexdigit()
    } else {
        byte.is_ascii_digit() || byte == b'.'
    }
}

fn has_unit(hexadecimal: bool, run: &[u8]) -> bool
    ensures { result ≡ has_unit hexadecimal false run.now }
{
    let mut behind = false;
    for byte in run {
        if behind && begins_unit(hexadecimal, *byte) {
            return true;
        }
        behind = ends_count(hexadecimal, *byte);
    }
    false
}

fn has_units(run: &[u8]) -> bool
    ensures { result ≡ has_units run.now }
{
    has_unit(counts_in_hexadecimal(run), run)
}

fn bad_kind(at: u32, run: &str) -> TokenKind
    ensures { result ≡ bad_kind at run.now }
{
    if has_units(run.as_bytes()) {
        TokenKind::Bad(QueryRefusal::BadDuration(at))
    } else {
        TokenKind::Bad(QueryRefusal::BadNumber(at))
    }
}

fn duration_kind(at: u32, run: &str, answer: Result<Ms, TickRefusal>) -> TokenKind
    ensures { result ≡ duration_kind at run.now answer }
{
    match answer {
        Ok(duration) => TokenKind::Duration(duration),
        Err(TickRefusal::OutOfRange) => TokenKind::Bad(QueryRefusal::DurationRange(at)),
        Err(_) => bad_kind(at, run),
    }
}

fn read_kind(at: u32, run: &str, answer: Result<XFrac, NumberRefusal>) -> TokenKind
    ensures { result ≡ read_kind at run.now answer }
{
    match answer {
        Ok(value) => TokenKind::Number(value),
        Err(NumberRefusal::NumberRange) => TokenKind::Bad(QueryRefusal::NumberRange(at)),
        Err(NumberRefusal::LeadingZero) => TokenKind::Bad(QueryRefusal::LeadingZero(at)),
        Err(NumberRefusal::BadNumber) => duration_kind(at, run, read_duration(run)),
    }
}

/// What a whole run is: the number or the duration that its reader gives, or the refusal.
pub fn number_kind(at: u32, run: &str) -> TokenKind
    ensures { result ≡ number_kind at run.now }
{
    read_kind(at, run, read_number(run))
}
