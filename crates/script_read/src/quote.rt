//! What stands outside the quotes of a line.
ghost use Rattle.script_read.specs.Quotes.{before_place, closes_pair, has_histogram, histogram_from, is_open, is_quote, place_from, place_outside, quoting_behind, without_comment};
ghost use Rattle.std.specs.Option.{ForSome};
ghost use Rattle.std.specs.Prelude.{◌≡◌, ◌<◌, ◌≤◌, length, IfSome};

/// Whether a quote is open, by its byte. In double and single quotes a byte behind a backslash closes nothing.
#[derive(Clone, Copy)]
pub enum Quoting {
    Outside,
    Inside(u8),
    Escaped(u8),
}

fn is_quote(byte: u8) -> bool
    ensures { result ≡ is_quote byte }
{
    byte == b'"' || byte == b'\'' || byte == b'`'
}

fn is_open(quoting: Quoting) -> bool
    ensures { result ≡ is_open quoting }
{
    match quoting {
        Quoting::Outside => false,
        Quoting::Inside(_) => true,
        Quoting::Escaped(_) => true,
    }
}

/// Which quote is open behind a byte.
fn quoting_behind(quoting: Quoting, byte: u8) -> Quoting
    ensures { result ≡ quoting_behind quoting byte }
{
    match quoting {
        Quoting::Outside => {
            if is_quote(byte) {
                Quoting::Inside(byte)
            } else {
                Quoting::Outside
            }
        }
        Quoting::Inside(quote) => {
            if byte == quote {
                Quoting::Outside
            } else if byte == b'\\' && quote != b'`' {
                Quoting::Escaped(quote)
            } else {
                Quoting::Inside(quote)
            }
        }
        Quoting::Escaped(quote) => Quoting::Inside(quote),
    }
}

/// The place of the first such byte outside quotes, counted from 0.
pub fn find_outside(text: &[u8], wanted: u8) -> Option<usize>
    ensures place { result ≡ place_outside wanted text.now }
    ensures within { IfSome result (λ place. place < length text.now) }
{
    let mut quoting = Quoting::Outside;
    for (place, byte) in text.iter().enumerate() {
        if *byte == wanted && !is_open(quoting) {
            return Some(place);
        }
        quoting = quoting_behind(quoting, *byte);
    }
    None
}

/// The text before a place, or all of it.
pub fn before(text: &[u8], place: Option<usize>) -> &[u8]
    requires { ForSome place (λ place. place ≤ length text.now) }
    ensures is { result.now ≡ before_place place text.now }
    ensures shorter { length result.now ≤ length text.now }
{
    match place {
        Some(place) => text.split_at(place).0,
        None => text,
    }
}

/// A text without its comment: a `#` outside quotes, and what stands behind it.
pub fn without_comment(text: &[u8]) -> &[u8]
    ensures is { result.now ≡ without_comment text.now }
    ensures shorter { length result.now ≤ length text.now }
{
    before(text, find_outside(text, b'#'))
}

/// Whether a byte is the second of two braces outside quotes.
fn closes_pair(brace: bool, byte: u8) -> bool
    ensures { result ≡ closes_pair brace byte }
{
    brace && byte == b'{'
}

/// Whether `{{` stands outside quotes.
pub fn has_histogram(text: &[u8]) -> bool
    ensures { result ≡ has_histogram text.now }
{
    let mut quoting = Quoting::Outside;
    let mut brace = false;
    for byte in text {
        if closes_pair(brace, *byte) {
            return true;
        }
        brace = *byte == b'{' && !is_open(quoting);
        quoting = quoting_behind(quoting, *byte);
    }
    false
}
