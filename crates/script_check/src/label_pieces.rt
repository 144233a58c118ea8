//! The text of labels, told without memory.
ghost use Rattle.label_set.specs.LabelText.{comma_list, is_metric_name, is_name, is_name_byte, label_text, labels_text, quoted, series_text};
ghost use Rattle.label_set.specs.Labels.{is_named, metric_name, value_at, without};
ghost use Rattle.std.specs.List.{list_all};
ghost use Rattle.std.specs.Prelude.{◌≡◌, None, Some, false, [], ◌∷◌, ◌++◌, map, true, if◌then◌else◌, IfSome, IsTrue, MatchOption};

use crate::pieces::{behind, behind_quoted, is_same};
use label_set::{Labels, METRIC_NAME};

fn is_name_byte(colon: bool, byte: u8) -> bool
    ensures { result ≡ is_name_byte colon byte }
{
    byte.is_ascii_alphanumeric() || byte == b'_' || (colon && byte == b':')
}

fn all_name_bytes(colon: bool, bytes: &[u8]) -> bool
    ensures { result ≡ list_all (is_name_byte colon) bytes.now }
{
    bytes.iter().all(|byte| is_name_byte(colon, *byte))
}

/// Whether a name is printed without quotes: a metric's where `colon` says that `:` may stand in it, else a label's.
fn is_name(colon: bool, text: &str) -> bool
    ensures { result ≡ is_name colon text.now }
{
    match text.as_bytes() {
        [] => false,
        [first, ..] => !first.is_ascii_digit() && all_name_bytes(colon, text.as_bytes()),
    }
}

/// Whether a name is the one that names the metric.
fn is_metric(name: &str) -> bool
    ensures { result ≡ is_named (metric_name ∷ []) name.now }
{
    METRIC_NAME == name
}

/// What stands behind a label's name, in quotes where it needs them.
fn behind_name<'a>(text: &'a [u8], name: &str) -> Option<&'a [u8]>
    ensures { IfSome result (λ rest. text.now ≡ (if is_name false name.now then name.now else quoted name.now) ++ rest.now) }
{
    if is_name(false, name) {
        behind(text, name.as_bytes())
    } else {
        behind_quoted(text, name.as_bytes())
    }
}

/// What stands behind a comma, where something has started before it.
fn behind_comma(text: &[u8], started: bool) -> Option<&[u8]>
    ensures { IfSome result (λ rest. text.now ≡ (if started then 44 ∷ [] else []) ++ rest.now) }
{
    if started {
        behind(text, b",")
    } else {
        Some(text)
    }
}

/// What stands behind one label, with a comma before it where something has started.
fn behind_label<'a>(text: &'a [u8], started: bool, name: &str, value: &str) -> Option<&'a [u8]>
    ensures { IfSome result (λ rest. text.now ≡ ((if started then 44 ∷ [] else []) ++ label_text (name.now, value.now)) ++ rest.now) }
{
    let name_on = behind_comma(text, started)?;
    let sign_on = behind_name(name_on, name)?;
    let value_on = behind(sign_on, b"=")?;
    behind_quoted(value_on, value.as_bytes())
}

/// What stands behind the labels but for the metric's name, with a comma before each, or before each but the first where nothing
/// has started.
fn behind_labels<'a>(text: &'a [u8], mut started: bool, labels: &Labels) -> Option<&'a [u8]>
    ensures { IfSome result (λ rest. text.now ≡ comma_list started (map label_text (without (metric_name ∷ []) labels.now)) ++ rest.now) }
{
    let mut rest = text;
    for place in 0..labels.len() {
        let (name, value) = labels.pair(place);
        if is_metric(name) {
            continue;
        }
        match behind_label(rest, started, name, value) {
            Some(more) => rest = more,
            None => return None,
        }
        started = true;
    }
    Some(rest)
}

/// Whether a text is that of the labels but for the metric's name, in braces, behind what has started.
fn are_braced(text: &[u8], started: bool, labels: &Labels) -> bool
    ensures { IsTrue result → text.now ≡ comma_list started (map label_text (without (metric_name ∷ []) labels.now)) ++ 125 ∷ [] }
{
    match behind_labels(text, started, labels) {
        Some(rest) => is_same(rest, b"}"),
        None => false,
    }
}

/// The name of the metric that labels name, if they name one.
fn metric_of(labels: &Labels) -> Option<&str>
    ensures { MatchOption result (value_at labels.now metric_name ≡ None) (λ name. value_at labels.now metric_name ≡ Some name.now) }
{
    let name = labels.get(METRIC_NAME);
    if labels.len() == 0 || name.is_empty() {
        None
    } else {
        Some(name)
    }
}

/// Whether a text is that of labels with a metric's name that stands before the braces.
fn are_behind_name(text: &[u8], name: &str, labels: &Labels) -> bool
    requires { is_metric_name name.now ≡ true }
    ensures { IsTrue result → text.now ≡ series_text (Some name.now) (map label_text (without (metric_name ∷ []) labels.now)) }
{
    let Some(rest) = behind(text, name.as_bytes()) else {
        return false;
    };
    match behind(rest, b"{") {
        Some(inside) => inside.len() > 1 && are_braced(inside, false, labels),
        None => are_none(rest, labels),
    }
}

/// Whether nothing stands there, and there are no labels but for the metric's name.
fn are_none(text: &[u8], labels: &Labels) -> bool
    ensures text { IsTrue result → text.now ≡ [] }
    ensures labels { IsTrue result → map label_text (without (metric_name ∷ []) labels.now) ≡ [] }
{
    match behind_labels(text, false, labels) {
        Some(_) => text.is_empty(),
        None => false,
    }
}

/// Whether a text is that of labels without a metric's name.
fn are_nameless(text: &[u8], labels: &Labels) -> bool
    ensures { IsTrue result → text.now ≡ series_text None (map label_text (without (metric_name ∷ []) labels.now)) }
{
    match behind(text, b"{") {
        Some(inside) => are_braced(inside, false, labels),
        None => false,
    }
}

/// Whether a text is that of labels with a metric's name that stands in quotes, inside the braces.
fn are_behind_quoted(text: &[u8], name: &str, labels: &Labels) -> bool
    requires { is_metric_name name.now ≡ false }
    ensures { IsTrue result → text.now ≡ series_text (Some name.now) (map label_text (without (metric_name ∷ []) labels.now)) }
{
    let Some(inside) = behind(text, b"{") else {
        return false;
    };
    match behind_quoted(inside, name.as_bytes()) {
        Some(rest) => are_braced(rest, true, labels),
        None => false,
    }
}

/// Whether a text is that of labels with a metric's name.
fn are_named(text: &[u8], name: &str, labels: &Labels) -> bool
    ensures { IsTrue result → text.now ≡ series_text (Some name.now) (map label_text (without (metric_name ∷ []) labels.now)) }
{
    if is_name(true, name) {
        are_behind_name(text, name, labels)
    } else {
        are_behind_quoted(text, name, labels)
    }
}

/// Whether a text is that of labels, as series are printed.
pub fn are_labels(text: &[u8], labels: &Labels) -> bool
    ensures { IsTrue result → text.now ≡ labels_text labels.now }
{
    match metric_of(labels) {
        Some(name) => are_named(text, name, labels),
        None => are_nameless(text, labels),
    }
}
