//! The replacement of label_replace, with its references replaced.
ghost use Rattle.match_rule.specs.Patterns.{AreCutFrom};
ghost use Rattle.promql_meaning.specs.Templates.{expanded, group_number, group_text, is_braced, is_word_byte, name_in, reference_size, reference_text, span_text};
ghost use Rattle.std.specs.Char.{is_ascii_digit};
ghost use Rattle.std.specs.List.{list_all, prefix_len};
ghost use Rattle.std.specs.Prelude.{◌≡◌, ◌+◌, ◌≤◌, ◌∷◌, [], Some, drop, is_some, length, slice_get, string_bytes, IfOk, if◌then◌else◌};

use match_rule::Spans;
use std::alloc::{AllocError, Global};

/// The template with the groups' texts in the places of its references. The only error is want of memory.
pub fn expanded(
    alloc: Global,
    spans: &Spans,
    value: &str,
    template: &str,
) -> Result<String, AllocError>
    requires { AreCutFrom value.now spans.now }
    ensures { IfOk result (λ text. string_bytes text ≡ expanded spans.now value.now template.now) }
{
    let mut text = String::new(alloc);
    let mut rest = template;
    while let Some((plain, behind)) = rest.split_once('$') {
        text.push_str(plain)?;
        text.push_str(reference_text(spans, value, behind))?;
        rest = after_reference(behind);
    }
    text.push_str(rest)?;
    Ok(text)
}

/// What stands behind a reference.
fn after_reference(behind: &str) -> &str
    ensures { result.now ≡ drop (reference_size behind.now) behind.now }
{
    behind.split_at(reference_size(behind.as_bytes())).1
}

/// How many bytes behind a `$` belong to the reference.
fn reference_size(behind: &[u8]) -> usize
    ensures { result ≡ reference_size behind.now }
{
    match behind {
        [] => 0,
        [b'$', ..] => 1,
        [b'{', ..] => braced_size(behind.split_at(1).1),
        _ => name_size(behind),
    }
}

/// How many bytes a name in braces takes, both braces counted; none where it is no such name.
fn braced_size(rest: &[u8]) -> usize
    ensures { result ≡ (if is_braced rest.now then length (name_in rest.now) + 2 else 0) }
{
    if is_braced(rest) {
        name_size(rest) + 2
    } else {
        0
    }
}

/// Whether a text is a name and the brace that closes it.
#[tactic(auto, using(crate::proofs::Templated::braced_at))]
fn is_braced(text: &[u8]) -> bool
    ensures { result ≡ is_braced text.now }
{
    let size = name_size(text);
    size > 0 && matches!(text.split_at(size).1, [b'}', ..])
}

/// How many letters, digits and underscores are at the front.
#[tactic(auto, using(crate::proofs::Templated::name_length))]
fn name_size(text: &[u8]) -> usize
    ensures size { result ≡ length (name_in text.now) }
    ensures within { result ≤ length text.now }
{
    for (i, byte) in text.iter().enumerate() {
        if !is_word(*byte) {
            return i;
        }
    }
    text.len()
}

const fn is_word(byte: u8) -> bool
    ensures { result ≡ is_word_byte byte }
{
    byte.is_ascii_digit()
        || (b'a' <= byte && byte <= b'z')
        || (b'A' <= byte && byte <= b'Z')
        || byte == b'_'
}

/// The longest run of letters, digits and underscores at the front.
fn name_in(text: &str) -> &str
    ensures { result.now ≡ name_in text.now }
{
    text.split_at(name_size(text.as_bytes())).0
}

/// What stands for a `$` and the reference behind it.
fn reference_text<'a>(spans: &Spans, value: &'a str, behind: &str) -> &'a str
    requires { AreCutFrom value.now spans.now }
    ensures { result.now ≡ reference_text spans.now value.now behind.now }
{
    match behind.as_bytes() {
        [] => "$",
        [b'$', ..] => "$",
        [b'{', ..] => braced_text(spans, value, after_brace(behind)),
        [first, ..] => {
            if is_word(*first) {
                group_text(spans, value, name_in(behind))
            } else {
                "$"
            }
        }
    }
}

fn after_brace(behind: &str) -> &str
    requires { slice_get behind.now 0 ≡ Some 123 }
    ensures { result.now ≡ drop 1 behind.now }
{
    behind.split_at(1).1
}

/// What stands for a reference in braces, behind the first brace.
fn braced_text<'a>(spans: &Spans, value: &'a str, rest: &str) -> &'a str
    requires { AreCutFrom value.now spans.now }
    ensures { result.now ≡ (if is_braced rest.now then group_text spans.now value.now (group_number (name_in rest.now)) else 36 ∷ []) }
{
    if is_braced(rest.as_bytes()) {
        group_text(spans, value, name_in(rest))
    } else {
        "$"
    }
}

/// What the group of a number matched; nothing where the name is no number of a group.
fn group_text<'a>(spans: &Spans, value: &'a str, name: &str) -> &'a str
    requires { AreCutFrom value.now spans.now }
    ensures { result.now ≡ group_text spans.now value.now (group_number name.now) }
{
    if !is_number(name.as_bytes()) {
        return "";
    }
    match name.parse::<usize>() {
        Ok(number) => span_text(spans, value, number),
        // no group has a number of more than 64 bits, and none that of how many there are
        Err(_) => span_text(spans, value, spans.len()),
    }
}

/// Digits alone, without a leading zero.
fn is_number(name: &[u8]) -> bool
    ensures { result ≡ is_some (group_number name.now) }
{
    match name {
        [] => false,
        [digit] => digit.is_ascii_digit(),
        [first, ..] => are_digits(name) && *first != b'0',
    }
}

fn are_digits(name: &[u8]) -> bool
    ensures { result ≡ list_all is_ascii_digit name.now }
{
    name.iter().all(|byte| byte.is_ascii_digit())
}

/// What a group matched; nothing where it took no part, or isn't there.
fn span_text<'a>(spans: &Spans, value: &'a str, number: usize) -> &'a str
    requires { AreCutFrom value.now spans.now }
    ensures { result.now ≡ span_text value.now (slice_get spans.now number) }
{
    if number >= spans.len() {
        return "";
    }
    match spans.get(number) {
        Some((from, to)) => &value[from..to],
        None => "",
    }
}
