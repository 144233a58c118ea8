//! Names and words.
ghost use Rattle.promql_lex.specs.Names.{continues_name, is_query_word, name_kind, starts_name};
ghost use Rattle.std.specs.List.{prefix_len};
ghost use Rattle.std.specs.Prelude.{◌≡◌, ◌≤◌, length};

use crate::token::TokenKind;
use crate::word::{is_word, word_of};
use xfrac::XFrac;

/// Whether a name may start with the byte; between brackets a colon is a sign.
pub fn starts_name(inside: bool, byte: u8) -> bool
    ensures { result ≡ starts_name inside byte }
{
    byte.is_ascii_alphabetic() || byte == b'_' || (byte == b':' && !inside)
}

fn continues_name(inside: bool, byte: u8) -> bool
    ensures { result ≡ continues_name inside byte }
{
    byte.is_ascii_alphanumeric() || byte == b'_' || (byte == b':' && !inside)
}

/// How many bytes of a name stand at the front.
pub fn name_len(inside: bool, text: &[u8]) -> usize
    ensures is { result ≡ prefix_len (continues_name inside) text.now }
    ensures within { result ≤ length text.now }
{
    text.iter()
        .take_while(|byte| continues_name(inside, **byte))
        .count()
}

fn is_query_word(text: &[u8]) -> bool
    ensures { result ≡ is_query_word text.now }
{
    word_of(text).is_some()
}

/// What a name's bytes are: `Inf` or `NaN`, a word, or a name.
pub fn name_kind(text: &[u8]) -> TokenKind
    ensures { result ≡ name_kind text.now }
{
    if is_word(text, b"inf") {
        TokenKind::Number(XFrac::PosInf)
    } else if is_word(text, b"nan") {
        TokenKind::Number(XFrac::NaN)
    } else if is_query_word(text) {
        TokenKind::Word
    } else {
        TokenKind::Name
    }
}
