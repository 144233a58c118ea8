//! Texts compared piece by piece, without memory.
ghost use Rattle.label_set.specs.LabelText.{escaped_byte, quoted};
ghost use Rattle.std.specs.Prelude.{◌≡◌, ◌++◌, IfSome, IsTrue};

/// What stands behind the front of a text, if it begins so.
pub fn behind<'a>(text: &'a [u8], front: &[u8]) -> Option<&'a [u8]>
    ensures { IfSome result (λ rest. text.now ≡ front.now ++ rest.now) }
{
    if text.len() < front.len() {
        return None;
    }
    let (first, rest) = text.split_at(front.len());
    if first == front { Some(rest) } else { None }
}

/// Whether two texts are the same.
pub fn is_same(text: &[u8], other: &[u8]) -> bool
    ensures { IsTrue result → text.now ≡ other.now }
{
    text == other
}

/// What stands behind a byte of a text in quotes.
fn behind_escaped(text: &[u8], byte: u8) -> Option<&[u8]>
    ensures { IfSome result (λ rest. text.now ≡ escaped_byte byte ++ rest.now) }
{
    match byte {
        b'\\' => behind(text, b"\\\\"),
        b'"' => behind(text, b"\\\""),
        b'\n' => behind(text, b"\\n"),
        _ => behind(text, &[byte]),
    }
}

/// What stands behind a text in quotes.
pub fn behind_quoted<'a>(text: &'a [u8], plain: &[u8]) -> Option<&'a [u8]>
    ensures { IfSome result (λ rest. text.now ≡ quoted plain.now ++ rest.now) }
{
    let mut rest = match behind(text, b"\"") {
        Some(rest) => rest,
        None => return None,
    };
    for byte in plain {
        match behind_escaped(rest, *byte) {
            Some(more) => rest = more,
            None => return None,
        }
    }
    behind(rest, b"\"")
}

/// Whether a text is this one in quotes.
pub fn is_quoted(text: &[u8], plain: &[u8]) -> bool
    ensures { IsTrue result → quoted plain.now ≡ text.now }
{
    match behind_quoted(text, plain) {
        Some(rest) => is_same(rest, b""),
        None => false,
    }
}
