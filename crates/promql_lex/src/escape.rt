//! The escapes of strings.
ghost use Rattle.promql_lex.specs.Quoted.{byte_escape, character_escape, digit_in, escape_of, escape_at, four, hexadecimal_escape, joined, long_escape, octal_escape, short_escape, simple_escape, two};
ghost use Rattle.std.specs.Prelude.{◌≡◌, ◌≤◌, ◌<◌, ◌+◌, ◌*◌, length, nat_lt, IfSome};
ghost use Rattle.std.specs.Char.{digit_value};

/// What an escape stands for, and how many bytes it has behind its backslash.
#[derive(Clone, Copy)]
pub struct Escape {
    pub stands_for: char,
    pub size: usize,
}

fn escape_of(size: usize, byte: u8) -> Option<Escape>
    ensures { result ≡ escape_of size byte }
{
    Some(Escape {
        stands_for: char::from(byte),
        size,
    })
}

fn simple_escape(quote: u8, byte: u8) -> Option<Escape>
    ensures is { result ≡ simple_escape quote byte }
    ensures size { IfSome result (λ e. e.size ≡ 1) }
{
    if byte == b'a' {
        escape_of(1, 7)
    } else if byte == b'b' {
        escape_of(1, 8)
    } else if byte == b'f' {
        escape_of(1, 12)
    } else if byte == b'n' {
        escape_of(1, 10)
    } else if byte == b'r' {
        escape_of(1, 13)
    } else if byte == b't' {
        escape_of(1, 9)
    } else if byte == b'v' {
        escape_of(1, 11)
    } else if byte == b'\\' || byte == quote {
        escape_of(1, byte)
    } else {
        None
    }
}

fn digit_in(base: u32, byte: u8) -> Option<u32>
    requires { 2 ≤ base × base ≤ 16 }
    ensures is { result ≡ digit_in base byte }
    ensures below { IfSome result (λ digit. digit < base) }
{
    char::from(byte).to_digit(base)
}

/// A number by its higher and its lower digits.
fn joined(factor: u32, high: Option<u32>, low: Option<u32>) -> Option<u32>
    requires high { IfSome high (λ n. n < factor) }
    requires low { IfSome low (λ n. n < factor) }
    requires factor { factor ≤ 65536 }
    ensures is { result ≡ joined factor high low }
    ensures below { IfSome result (λ n. n < factor * factor) }
{
    match (high, low) {
        (Some(high), Some(low)) => Some(high * factor + low),
        _ => None,
    }
}

fn two(a: u8, b: u8) -> Option<u32>
    ensures is { result ≡ two a b }
    ensures below { IfSome result (λ n. n < 256) }
{
    joined(16, digit_in(16, a), digit_in(16, b))
}

fn four(a: u8, b: u8, c: u8, d: u8) -> Option<u32>
    ensures is { result ≡ four a b c d }
    ensures below { IfSome result (λ n. n < 65536) }
{
    joined(256, two(a, b), two(c, d))
}

fn byte_escape(code: Option<u32>) -> Option<Escape>
    ensures is { result ≡ byte_escape code }
    ensures size { IfSome result (λ e. e.size ≡ 3) }
{
    match code {
        None => None,
        Some(code) => {
            if code < 128 {
                escape_of(3, code as u8)
            } else {
                None
            }
        }
    }
}

fn octal_escape(a: u8, text: &[u8]) -> Option<Escape>
    ensures is { result ≡ octal_escape a text.now }
    ensures size { IfSome result (λ e. (e.size ≡ 3) × (2 ≤ length text.now)) }
{
    match text {
        [b, c, ..] => {
            let high = match joined(8, digit_in(8, a), digit_in(8, *b)) {
                Some(high) => high,
                None => return None,
            };
            match digit_in(8, *c) {
                Some(low) => byte_escape(Some(high * 8 + low)),
                None => None,
            }
        }
        _ => None,
    }
}

fn hexadecimal_escape(text: &[u8]) -> Option<Escape>
    ensures is { result ≡ hexadecimal_escape text.now }
    ensures size { IfSome result (λ e. (e.size ≡ 3) × (2 ≤ length text.now)) }
{
    match text {
        [a, b, ..] => byte_escape(two(*a, *b)),
        _ => None,
    }
}

fn character_escape(size: usize, code: Option<u32>) -> Option<Escape>
    ensures is { result ≡ character_escape size code }
    ensures size { IfSome result (λ e. e.size ≡ size) }
{
    match code {
        None => None,
        Some(code) => match char::from_u32(code) {
            None => None,
            Some(stands_for) => Some(Escape { stands_for, size }),
        },
    }
}

fn short_escape(text: &[u8]) -> Option<Escape>
    ensures is { result ≡ short_escape text.now }
    ensures size { IfSome result (λ e. (e.size ≡ 5) × (4 ≤ length text.now)) }
{
    match text {
        [a, b, c, d, ..] => character_escape(5, four(*a, *b, *c, *d)),
        _ => None,
    }
}

fn long_escape(text: &[u8]) -> Option<Escape>
    ensures is { result ≡ long_escape text.now }
    ensures size { IfSome result (λ e. (e.size ≡ 9) × (8 ≤ length text.now)) }
{
    match text {
        [a, b, c, d, e, f, g, h, ..] => character_escape(
            9,
            joined(65536, four(*a, *b, *c, *d), four(*e, *f, *g, *h)),
        ),
        _ => None,
    }
}

fn is_octal_digit(byte: u8) -> bool
    ensures { result ≡ nat_lt (digit_value byte) 8 }
{
    digit_in(8, byte).is_some()
}

/// The escape behind a backslash, in a string of this quote.
pub fn escape_at(quote: u8, text: &[u8]) -> Option<Escape>
    ensures is { result ≡ escape_at quote text.now }
    ensures within { IfSome result (λ e. e.size ≤ length text.now) }
{
    match text {
        [] => None,
        [byte, rest @ ..] => {
            if *byte == b'x' {
                hexadecimal_escape(rest)
            } else if *byte == b'u' {
                short_escape(rest)
            } else if *byte == b'U' {
                long_escape(rest)
            } else if is_octal_digit(*byte) {
                octal_escape(*byte, rest)
            } else {
                simple_escape(quote, *byte)
            }
        }
    }
}
