//! Signs, and characters that begin no token.
ghost use Rattle.promql_lex.specs.Signs.{begins_double, character_len, is_continuation, is_double, is_single};
ghost use Rattle.std.specs.List.{prefix_len};
ghost use Rattle.std.specs.Prelude.{◌≡◌, ◌≤◌, ◌+◌, length, IsTrue};

fn is_double(a: u8, b: u8) -> bool
    ensures { result ≡ is_double a b }
{
    (b == b'=' && (a == b'=' || a == b'!' || a == b'<' || a == b'>'))
        || (b == b'~' && (a == b'=' || a == b'!'))
}

/// Whether the byte alone is a sign.
pub fn is_single(a: u8) -> bool
    ensures { result ≡ is_single a }
{
    a == b'('
        || a == b')'
        || a == b'{'
        || a == b'}'
        || a == b'['
        || a == b']'
        || a == b','
        || a == b':'
        || a == b'+'
        || a == b'-'
        || a == b'*'
        || a == b'/'
        || a == b'%'
        || a == b'^'
        || a == b'='
        || a == b'<'
        || a == b'>'
        || a == b'@'
}

/// Whether the byte and the first one behind it are one sign.
pub fn begins_double(a: u8, text: &[u8]) -> bool
    ensures is { result ≡ begins_double a text.now }
    ensures within { IsTrue result → 1 ≤ length text.now }
{
    match text {
        [] => false,
        [b, ..] => is_double(a, *b),
    }
}

fn is_continuation(byte: u8) -> bool
    ensures { result ≡ is_continuation byte }
{
    128 <= byte && byte < 192
}

fn continuation_len(bytes: &[u8]) -> usize
    ensures is { result ≡ prefix_len is_continuation bytes.now }
    ensures within { result ≤ length bytes.now }
{
    bytes
        .iter()
        .take_while(|byte| is_continuation(**byte))
        .count()
}

/// How many bytes a character has, from what stands behind its first one.
pub fn character_len(bytes: &[u8]) -> usize
    ensures is { result ≡ character_len bytes.now }
    ensures within { result ≤ 1 + length bytes.now }
{
    1 + continuation_len(bytes)
}
