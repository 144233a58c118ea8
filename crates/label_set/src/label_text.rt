ghost use Rattle.label_set.specs.LabelText.{braced, comma_list, escaped_byte, is_name, is_name_byte, label_text, quoted, series_text};
ghost use Rattle.label_set.specs.Labels.{metric_name, without};
ghost use Rattle.std.specs.List.{list_all};
ghost use Rattle.std.specs.Prelude.{◌≡◌, ◌+◌, false, Some, [], ◌∷◌, ◌++◌, length, map, if◌then◌else◌, IfOk, OnErr, OnOk};

use crate::labels::is_metric;
use crate::pairs::Pairs;
use std::alloc::{AllocError, Global};

/// Appends the name of a metric and its labels, as a series is printed. `pairs` are all its labels, with the name.
pub fn push_named(out: &mut Vec<u8>, name: &str, pairs: &Pairs) -> Result<(), AllocError>
    requires { length pairs.now ≡ length (without (metric_name ∷ []) pairs.now) + 1 }
    ensures { OnOk result (out.new.items ≡ out.old.items ++ series_text (Some name.now) (map label_text (without (metric_name ∷ []) pairs.now))) }
{
    if !is_name(true, name) {
        return push_braced_name(out, name, pairs);
    }
    out.extend_from_slice(name.as_bytes())?;
    if pairs.len() > 1 {
        push_braced(out, pairs)
    } else {
        Ok(())
    }
}

/// Appends in braces a metric's name in quotes, and its labels.
fn push_braced_name(out: &mut Vec<u8>, name: &str, pairs: &Pairs) -> Result<(), AllocError>
    ensures { OnOk result (out.new.items ≡ out.old.items ++ braced (quoted name.now ∷ map label_text (without (metric_name ∷ []) pairs.now))) }
{
    out.push(b'{')?;
    push_quoted(out, name)?;
    push_labels(out, true, pairs)?;
    out.push(b'}')?;
    Ok(())
}

/// Appends in braces the labels but for the metric's name.
pub fn push_braced(out: &mut Vec<u8>, pairs: &Pairs) -> Result<(), AllocError>
    ensures { OnOk result (out.new.items ≡ out.old.items ++ braced (map label_text (without (metric_name ∷ []) pairs.now))) }
{
    out.push(b'{')?;
    push_labels(out, false, pairs)?;
    out.push(b'}')?;
    Ok(())
}

/// Appends the labels but for the metric's name, with a comma before each, or before each but the first where nothing
/// has started.
fn push_labels(out: &mut Vec<u8>, mut started: bool, pairs: &Pairs) -> Result<(), AllocError>
    ensures { OnOk result (out.new.items ≡ out.old.items ++ comma_list started (map label_text (without (metric_name ∷ []) pairs.now))) }
{
    for place in 0..pairs.len() {
        let (name, value) = pairs.pair(place);
        if is_metric(name) {
            continue;
        }
        push_label(out, started, name, value)?;
        started = true;
    }
    Ok(())
}

/// Appends one label, with a comma before it where something has started.
fn push_label(out: &mut Vec<u8>, started: bool, name: &str, value: &str) -> Result<(), AllocError>
    ensures { OnOk result (out.new.items ≡ out.old.items ++ ((if started then 44 ∷ [] else []) ++ label_text (name.now, value.now))) }
{
    if started {
        out.push(b',')?;
    }
    push_label_name(out, name)?;
    out.push(b'=')?;
    push_quoted(out, value)
}

/// Appends a label's name, in quotes where it needs them.
fn push_label_name(out: &mut Vec<u8>, name: &str) -> Result<(), AllocError>
    ensures { OnOk result (out.new.items ≡ out.old.items ++ (if is_name false name.now then name.now else quoted name.now)) }
{
    if is_name(false, name) {
        out.extend_from_slice(name.as_bytes())
    } else {
        push_quoted(out, name)
    }
}

/// Appends a text in quotes, as a label's value is printed: a backslash, a quote and a line feed are written `\\`, `\"` and `\n`.
/// The only error is want of memory; then nothing is appended.
pub fn append_quoted(text: &str, into: &mut Vec<u8>) -> Result<(), AllocError>
    ensures ok { OnOk result (into.new.items ≡ into.old.items ++ quoted text.now) }
    ensures err { OnErr result (into.new.items ≡ into.old.items) }
{
    let quoted = quoted(*into.allocator(), text)?;
    into.extend_from_slice(quoted.as_slice())
}

/// A text in quotes.
fn quoted(alloc: Global, text: &str) -> Result<Vec<u8>, AllocError>
    ensures { IfOk result (λ v. v.items ≡ quoted text.now) }
{
    let mut quoted = Vec::new(alloc);
    push_quoted(&mut quoted, text)?;
    Ok(quoted)
}

fn push_quoted(out: &mut Vec<u8>, text: &str) -> Result<(), AllocError>
    ensures { OnOk result (out.new.items ≡ out.old.items ++ quoted text.now) }
{
    out.push(b'"')?;
    for byte in text.as_bytes() {
        push_escaped(out, *byte)?;
    }
    out.push(b'"')?;
    Ok(())
}

/// Appends a byte of a quoted text.
fn push_escaped(out: &mut Vec<u8>, byte: u8) -> Result<(), AllocError>
    ensures { OnOk result (out.new.items ≡ out.old.items ++ escaped_byte byte) }
{
    if byte == b'\\' || byte == b'"' {
        out.push(b'\\')?;
        out.push(byte)?;
    } else if byte == b'\n' {
        out.push(b'\\')?;
        out.push(b'n')?;
    } else {
        out.push(byte)?;
    }
    Ok(())
}

/// Whether a name stands without quotes: a metric's where `colon` says that `:` may stand in it, else a label's.
fn is_name(colon: bool, text: &str) -> bool
    ensures { result ≡ is_name colon text.now }
{
    match text.as_bytes() {
        [] => false,
        [first, ..] => !first.is_ascii_digit() && all_name_bytes(colon, text.as_bytes()),
    }
}

fn all_name_bytes(colon: bool, bytes: &[u8]) -> bool
    ensures { result ≡ list_all (is_name_byte colon) bytes.now }
{
    bytes.iter().all(|byte| is_name_byte(colon, *byte))
}

fn is_name_byte(colon: bool, byte: u8) -> bool
    ensures { result ≡ is_name_byte colon byte }
{
    byte.is_ascii_alphanumeric() || byte == b'_' || (colon && byte == b':')
}
