//! The replacement text of `label_replace`.
ghost use Rattle.promql_type.specs.Templates.{has_name, is_closed, is_name, is_named, is_word};
ghost use Rattle.std.specs.Char.{is_ascii_digit};
ghost use Rattle.std.specs.Prelude.{◌≡◌, ◌≤◌, length};
ghost use Rattle.std.specs.List.{list_all, prefix_len};

/// Whether a byte may stand in the name of a group.
const fn is_word(byte: u8) -> bool
    ensures { result ≡ is_word byte }
{
    byte.is_ascii_alphanumeric() || byte == b'_'
}

/// How many bytes at the front may stand in the name of a group.
fn word_size(text: &[u8]) -> usize
    ensures size { result ≡ prefix_len is_word text.now }
    ensures within { result ≤ length text.now }
{
    for (i, byte) in text.iter().enumerate() {
        if !is_word(*byte) {
            return i;
        }
    }
    text.len()
}

/// Whether it isn't a number.
fn is_name(word: &[u8]) -> bool
    ensures { result ≡ is_name word.now }
{
    !are_digits(word)
}

fn are_digits(word: &[u8]) -> bool
    ensures { result ≡ list_all is_ascii_digit word.now }
{
    word.iter().all(|byte| byte.is_ascii_digit())
}

/// Whether the text behind a dollar sign begins with the name of a group, in braces or without.
fn has_name(text: &[u8]) -> bool
    ensures { result ≡ has_name text.now }
{
    match text {
        [b'{', ..] => {
            let inside = text.split_at(1).1;
            let (word, rest) = inside.split_at(word_size(inside));
            is_closed(rest) && is_name(word)
        }
        _ => is_name(text.split_at(word_size(text)).0),
    }
}

fn is_closed(rest: &[u8]) -> bool
    ensures { result ≡ is_closed rest.now }
{
    matches!(rest, [b'}', ..])
}

/// Whether the replacement refers to a group by a name that is no number.
pub fn is_named(text: &str) -> bool
    ensures { result ≡ is_named text.now }
{
    let mut rest = text.as_bytes();
    let mut refers = false;
    while let [byte, ..] = rest {
        if refers && has_name(rest) {
            return true;
        }
        refers = *byte == b'$' && !refers;
        rest = rest.split_at(1).1;
    }
    false
}
