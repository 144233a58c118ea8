//! Runs of digits in a text.
ghost use Rattle.frac_text.specs.Digits.{is_part, is_digit, radix, is_run_in, digits_in, number_in};
ghost use Rattle.std.specs.Char.{digit_value};
ghost use Rattle.std.specs.List.{prefix_len};
ghost use Rattle.std.specs.Option.{SomeIff};
ghost use Rattle.std.specs.Prelude.{◌≡◌, ◌≤◌, ◌<◌, ◌+◌, ◌*◌, IsTrue, IsSome, IfSome, length, take, drop};
ghost use Rattle.xfrac.specs.Fractions.{limit};

use xfrac::LIMIT;

/// The base of a run of digits.
#[derive(Clone, Copy)]
pub enum Base {
    Ten,
    Sixteen,
}

impl Base {
    fn is_digit(self, byte: u8) -> bool
        ensures { result ≡ is_digit self byte }
    {
        match self {
            Base::Ten => byte.is_ascii_digit(),
            Base::Sixteen => byte.is_ascii_hexdigit(),
        }
    }

    /// What a digit is worth.
    fn digit(self, byte: u8) -> Option<u128>
        ensures value { SomeIff result (IsTrue (is_digit self byte)) (digit_value byte) }
        ensures below { IfSome result (λ d. d < radix self) }
    {
        match (self, byte) {
            (_, b'0'..=b'9') => Some(u128::from(byte - b'0')),
            (Base::Sixteen, b'a'..=b'f') => Some(u128::from(byte - b'a' + 10)),
            (Base::Sixteen, b'A'..=b'F') => Some(u128::from(byte - b'A' + 10)),
            _ => None,
        }
    }

    /// The number with one more digit.
    fn push(self, n: u128, digit: u128) -> u128
        requires within { n ≤ limit }
        requires below { digit < radix self }
        ensures { result ≡ n * radix self + digit }
    {
        match self {
            Base::Ten => n * 10 + digit,
            Base::Sixteen => n * 16 + digit,
        }
    }
}

fn is_part(byte: u8, grouped: bool) -> bool
    ensures { result ≡ is_part grouped byte }
{
    byte.is_ascii_digit() || (grouped && byte == b'_')
}

/// How many bytes the run of digits at the front has.
pub fn run_length(text: &[u8], grouped: bool) -> usize
    ensures run { result ≡ prefix_len (is_part grouped) text.now }
    ensures within { result ≤ length text.now }
{
    for (i, byte) in text.iter().enumerate() {
        if !is_part(*byte, grouped) {
            return i;
        }
    }
    text.len()
}

/// Whether a run ends with a digit, and each byte that is none is an underscore right after a digit. It may begin with one
/// where `joined` says so.
pub fn is_run(text: &[u8], base: Base, joined: bool) -> bool
    ensures { result ≡ is_run_in base joined text.now }
{
    let mut after = joined;
    for byte in text {
        if base.is_digit(*byte) {
            after = true;
        } else if after && *byte == b'_' {
            after = false;
        } else {
            return false;
        }
    }
    after
}

/// How many digits there are.
pub fn digit_count(text: &[u8]) -> usize
    ensures value { result ≡ length (digits_in text.now) }
    ensures within { result ≤ length text.now }
{
    text.iter().filter(|byte| byte.is_ascii_digit()).count()
}

/// The number that the digits stand for, where it is within the limit.
pub fn whole_number(text: &[u8], base: Base) -> Option<u128>
    ensures { SomeIff result (number_in base text.now ≤ limit) (number_in base text.now) }
{
    let mut n: u128 = 0;
    for byte in text {
        if let Some(digit) = base.digit(*byte) {
            n = base.push(n, digit);
            if n > LIMIT {
                return None;
            }
        }
    }
    Some(n)
}

/// The text up to the end of so many digits, and the rest.
pub fn split_digits(text: &[u8], count: usize) -> (&[u8], &[u8])
    requires { count ≤ length (digits_in text.now) }
    ensures front { digits_in result.0.now ≡ take count (digits_in text.now) }
    ensures back { digits_in result.1.now ≡ drop count (digits_in text.now) }
{
    text.split_at(end_of_digits(text, count))
}

/// The place right after so many digits, or the last byte.
fn end_of_digits(text: &[u8], count: usize) -> usize
    requires { count ≤ length (digits_in text.now) }
    ensures within { result ≤ length text.now }
    ensures digits { length (digits_in (take result text.now)) ≡ count }
{
    let mut seen = 0;
    for (i, byte) in text.iter().enumerate() {
        if seen == count {
            return i;
        }
        if byte.is_ascii_digit() {
            seen += 1;
        }
    }
    text.len()
}
