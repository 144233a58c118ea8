ghost use Rattle.match_rule.specs.Patterns.{is_plain, is_special, plain_passes, stands_in};
ghost use Rattle.std.specs.List.{list_any};
ghost use Rattle.std.specs.Prelude.{◌≡◌, not, bytes_eq, if◌then◌else◌};

/// The characters of which a plain text has none.
const SPECIAL: &[u8] = b"\\.+*?()[]{}^$";

/// Whether a text is plain: a list of words that `|` parts.
pub fn is_plain(text: &str) -> bool
    ensures { result ≡ is_plain text.now }
{
    !has_special(text.as_bytes())
}

fn has_special(bytes: &[u8]) -> bool
    ensures { result ≡ list_any is_special bytes.now }
{
    bytes.iter().any(|byte| is_special(*byte))
}

fn is_special(byte: u8) -> bool
    ensures { result ≡ is_special byte }
{
    SPECIAL.contains(&byte)
}

/// Whether a plain text passes a value: the value is one of its words or, where `whole` is false, has one of them in it.
pub fn plain_passes(whole: bool, text: &str, value: &str) -> bool
    ensures { result ≡ plain_passes whole text.now value.now }
{
    text.split('|').any(|word| word_passes(whole, word, value))
}

fn word_passes(whole: bool, word: &str, value: &str) -> bool
    ensures { result ≡ (if whole then bytes_eq word.now value.now else stands_in word.now value.now) }
{
    if whole {
        word == value
    } else {
        stands_in(word, value)
    }
}

fn stands_in(word: &str, text: &str) -> bool
    ensures { result ≡ stands_in word.now text.now }
{
    text.contains(word)
}
