ghost use Rattle.std.specs.Prelude.{◌≡◌, ◌<◌, ◌≤◌, ℕ, length, pos, find, bytes_eq, IfOk, IfSome, IsOkAnd, IsErrOf, IsSomeAnd, option_copied};
ghost use Rattle.std.specs.Char.{is_ascii_digit};
ghost use Rattle.std.specs.List.{position_or_len, prefix_len};
ghost use Rattle.ticks.specs.Durations.{AreDigits, number, duration_answer, hundred_years, IsCapped, IsDuration, Spells};
ghost use Rattle.ticks.specs.Runs.{digits_of, after_digits, name_at, after_name};
ghost use Rattle.ticks.specs.Units.{name_of, units};

use crate::unit::{LONGEST_FIRST, Unit};
use crate::{Ms, TickRefusal};

/// The longest duration that a text may spell, 100 years of 365 days in milliseconds.
const HUNDRED_YEARS: u64 = 3_153_600_000_000;

/// The milliseconds in a duration's text: one or more pairs of digits and a unit among `y`, `w`, `d`, `h`, `m`, `s` and
/// `ms`, from the longest to the shortest, each at most once. It is `OutOfRange` where they are more than 100 years, and
/// `BadDuration` where the text is no duration. It takes no memory.
pub fn read_duration(text: &str) -> Result<Ms, TickRefusal>
    ensures answer { result ≡ duration_answer text.now }
    ensures duration { IfOk result (λ d. (n : ℕ) × IsDuration text.now n × (n ≤ hundred_years) × (d.0 ≡ pos n)) }
    ensures read { (n : ℕ) → IsDuration text.now n → n ≤ hundred_years → IsOkAnd result (λ d. d.0 ≡ pos n) }
    ensures long { IsErrOf result TickRefusal.OutOfRange → (n : ℕ) × IsDuration text.now n × (hundred_years < n) }
    ensures bad { IsErrOf result TickRefusal.BadDuration → (n : ℕ) → IsDuration text.now n → ⊥ }
    ensures no_grid { IsErrOf result TickRefusal.TooManySteps → ⊥ }
{
    if text.is_empty() {
        return Err(TickRefusal::BadDuration);
    }
    match read_pairs(text.as_bytes(), Unit::Year.milliseconds() + 1) {
        None => Err(TickRefusal::BadDuration),
        Some(n) if n > HUNDRED_YEARS => Err(TickRefusal::OutOfRange),
        Some(n) => Ok(Ms(n as i64)),
    }
}

/// The milliseconds in pairs whose units are shorter than `longest`, as far as 64 bits hold them.
fn read_pairs(text: &[u8], longest: u64) -> Option<u64>
    ensures sound { IfSome result (λ counted. (n : ℕ) × Spells longest text.now n × IsCapped n counted) }
    ensures complete { (n : ℕ) → Spells longest text.now n → IsSomeAnd result (λ counted. IsCapped n counted) }
{
    if text.is_empty() {
        return Some(0);
    }
    let (digits, name, later) = split_pair(text);
    if digits.is_empty() {
        return None;
    }
    let Some(unit) = unit_named(name) else {
        return None;
    };
    let length = unit.milliseconds();
    if length >= longest {
        return None;
    }
    match read_pairs(later, length) {
        None => None,
        Some(counted) => Some(
            number_of(digits)
                .saturating_mul(length)
                .saturating_add(counted),
        ),
    }
}

/// The digits at the front, the bytes from there to the next digit, and the rest.
fn split_pair(text: &[u8]) -> (&[u8], &[u8], &[u8])
    ensures digits { result.0.now ≡ digits_of text.now }
    ensures name { result.1.now ≡ name_at (after_digits text.now) }
    ensures later { result.2.now ≡ after_name (after_digits text.now) }
{
    let (digits, rest) = text.split_at(digit_run(text));
    let (name, later) = rest.split_at(name_run(rest));
    (digits, name, later)
}

/// How many digits stand at the front.
fn digit_run(text: &[u8]) -> usize
    ensures run { result ≡ prefix_len is_ascii_digit text.now }
    ensures within { result ≤ length text.now }
{
    for (i, byte) in text.iter().enumerate() {
        if !byte.is_ascii_digit() {
            return i;
        }
    }
    text.len()
}

/// How many bytes stand before the first digit.
fn name_run(text: &[u8]) -> usize
    ensures run { result ≡ position_or_len is_ascii_digit text.now }
    ensures within { result ≤ length text.now }
{
    for (i, byte) in text.iter().enumerate() {
        if byte.is_ascii_digit() {
            return i;
        }
    }
    text.len()
}

fn unit_named(name: &[u8]) -> Option<Unit>
    ensures { result ≡ find (λ unit. bytes_eq (name_of unit) name.now) units }
{
    LONGEST_FIRST
        .iter()
        .copied()
        .find(|unit| unit.name().as_bytes() == name)
}

/// The number of decimal digits, as far as 64 bits hold it.
fn number_of(digits: &[u8]) -> u64
    requires { AreDigits digits.now }
    ensures { IsCapped (number digits.now) result }
{
    let mut n = 0u64;
    for digit in digits {
        n = n
            .saturating_mul(10)
            .saturating_add(u64::from(*digit - b'0'));
    }
    n
}
