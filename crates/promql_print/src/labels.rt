//! The texts of labels, of lists of them, and of rules.
ghost use Rattle.frac_text.specs.Readings.{is_word};
ghost use Rattle.label_set.specs.LabelText.{is_name, is_name_byte};
ghost use Rattle.promql_print.specs.Labels.{braced_rules, braces_unless_none, comma, behind_first, equal_text, front_name, is_bare_name, is_number_word, is_on_metric, kind_text, label_text, labels_text, name_if, pattern_text, rule_text, rules_text};
ghost use Rattle.std.specs.Char.{to_ascii_lowercase};
ghost use Rattle.std.specs.List.{list_all, list_any};
ghost use Rattle.std.specs.Option.{option_map};
ghost use Rattle.std.specs.Prelude.{◌≡◌, ◌++◌, map, OnOk};

use holders::{Items, Text};
use label_set::{METRIC_NAME, PatternId, Rule, RuleKind, append_quoted};
use match_rule::Patterns;
use promql_lex::word_of;
use std::alloc::AllocError;

/// Appends a comma and a blank where something stands before them. After an error a part of it may stand.
pub(crate) fn append_comma(started: bool, into: &mut Vec<u8>) -> Result<(), AllocError>
    ensures { OnOk result (into.new.items ≡ into.old.items ++ comma started) }
{
    if started {
        into.extend_from_slice(b", ")
    } else {
        Ok(())
    }
}

/// Whether a text is the word, in any case.
fn is_word(text: &[u8], word: &[u8]) -> bool
    ensures { result ≡ is_word text.now (map to_ascii_lowercase word.now) }
{
    text.eq_ignore_ascii_case(word)
}

fn is_number_word(text: &str) -> bool
    ensures { result ≡ is_number_word text.now }
{
    is_word(text.as_bytes(), b"inf") || is_word(text.as_bytes(), b"nan")
}

fn is_name_byte(colon: bool, byte: u8) -> bool
    ensures { result ≡ is_name_byte colon byte }
{
    byte.is_ascii_alphanumeric() || byte == b'_' || (colon && byte == b':')
}

fn all_name_bytes(colon: bool, bytes: &[u8]) -> bool
    ensures { result ≡ list_all (is_name_byte colon) bytes.now }
{
    bytes.iter().all(|byte| is_name_byte(colon, *byte))
}

/// Whether a text is a name: a metric's where `colon` says that `:` may stand in it, else a label's.
fn is_name(colon: bool, text: &str) -> bool
    ensures { result ≡ is_name colon text.now }
{
    match text.as_bytes() {
        [] => false,
        [first, ..] => !first.is_ascii_digit() && all_name_bytes(colon, text.as_bytes()),
    }
}

fn append_label(label: &str, into: &mut Vec<u8>) -> Result<(), AllocError>
    ensures { OnOk result (into.new.items ≡ into.old.items ++ label_text label.now) }
{
    if is_name(false, label) && !is_number_word(label) {
        into.extend_from_slice(label.as_bytes())
    } else {
        append_quoted(label, into)
    }
}

/// Appends labels in parentheses, those in quotes that aren't read as labels without. The only error is want of memory; then a
/// part may be appended.
pub(crate) fn append_labels(labels: &Items<Text>, into: &mut Vec<u8>) -> Result<(), AllocError>
    ensures { OnOk result (into.new.items ≡ into.old.items ++ labels_text labels.now) }
{
    into.push(b'(')?;
    let mut started = false;
    for label in labels.as_slice() {
        append_comma(started, into)?;
        append_label(label.as_str(), into)?;
        started = true;
    }
    into.push(b')')?;
    Ok(())
}

/// The text of the pattern that is kept under a number; under a number that isn't there, none. It takes no memory.
#[tactic(auto, using(crate::proofs::Lists::text_is))]
pub fn pattern_text<'p>(patterns: &'p Patterns<'_>, id: PatternId) -> &'p str
    ensures { result.now ≡ pattern_text patterns.now id }
{
    if id.0 as usize >= patterns.len() {
        return "";
    }
    patterns.text(id)
}

fn append_kind(
    kind: &RuleKind,
    patterns: &Patterns<'_>,
    into: &mut Vec<u8>,
) -> Result<(), AllocError>
    ensures { OnOk result (into.new.items ≡ into.old.items ++ kind_text patterns.now kind.now) }
{
    match kind {
        RuleKind::Eq(text) => {
            into.extend_from_slice(b"=")?;
            append_quoted(text.as_str(), into)
        }
        RuleKind::Ne(text) => {
            into.extend_from_slice(b"!=")?;
            append_quoted(text.as_str(), into)
        }
        RuleKind::Re(id) => {
            into.extend_from_slice(b"=~")?;
            append_quoted(pattern_text(patterns, *id), into)
        }
        RuleKind::Nre(id) => {
            into.extend_from_slice(b"!~")?;
            append_quoted(pattern_text(patterns, *id), into)
        }
    }
}

fn append_rule(rule: &Rule, patterns: &Patterns<'_>, into: &mut Vec<u8>) -> Result<(), AllocError>
    ensures { OnOk result (into.new.items ≡ into.old.items ++ rule_text patterns.now rule.now) }
{
    append_label(rule.label.as_str(), into)?;
    append_kind(&rule.kind, patterns, into)
}

/// Appends rules in braces. The only error is want of memory; then a part may be appended.
pub fn append_rules_in_braces(
    rules: &[Rule],
    patterns: &Patterns<'_>,
    into: &mut Vec<u8>,
) -> Result<(), AllocError>
    ensures { OnOk result (into.new.items ≡ into.old.items ++ braced_rules patterns.now rules.now) }
{
    into.push(b'{')?;
    let mut started = false;
    for rule in rules {
        append_comma(started, into)?;
        append_rule(rule, patterns, into)?;
        started = true;
    }
    into.push(b'}')?;
    Ok(())
}

fn is_bare_name(text: &str) -> bool
    ensures { result ≡ is_bare_name text.now }
{
    is_name(true, text) && !(is_number_word(text) || word_of(text.as_bytes()).is_some())
}

fn is_on_metric(rule: &Rule) -> bool
    ensures { result ≡ is_on_metric rule.now }
{
    rule.label.as_str() == METRIC_NAME
}

fn is_any_on_metric(rules: &[Rule]) -> bool
    ensures { result ≡ list_any is_on_metric rules.now }
{
    rules.iter().any(|rule| is_on_metric(rule))
}

/// The text that a label has to be equal to.
fn equal_text(kind: &RuleKind) -> Option<&str>
    ensures { option_map (λ s. s.now) result ≡ equal_text kind.now }
{
    match kind {
        RuleKind::Eq(text) => Some(text.as_str()),
        _ => None,
    }
}

fn name_if(alone: bool, name: Option<&str>) -> Option<&str>
    ensures { option_map (λ s. s.now) result ≡ name_if alone (option_map (λ s. s.now) name.entry) }
{
    match name {
        Some(text) if alone && is_bare_name(text) => Some(text),
        _ => None,
    }
}

/// The name of the metric, where it can stand before the braces.
fn front_name(rules: &[Rule]) -> Option<&str>
    ensures { option_map (λ s. s.now) result ≡ front_name rules.now }
{
    match rules {
        [] => None,
        [first, others @ ..] => name_if(
            is_on_metric(first) && !is_any_on_metric(others),
            equal_text(&first.kind),
        ),
    }
}

/// Appends the rules behind the first one, in braces unless there are none.
fn append_others(
    rules: &[Rule],
    patterns: &Patterns<'_>,
    into: &mut Vec<u8>,
) -> Result<(), AllocError>
    ensures { OnOk result (into.new.items ≡ into.old.items ++ braces_unless_none patterns.now (behind_first rules.now)) }
{
    match rules {
        [] | [_] => Ok(()),
        [_, others @ ..] => append_rules_in_braces(others, patterns, into),
    }
}

/// Appends the rules of a selector: a metric's name and the other rules in braces, or all rules in braces. The only error is want
/// of memory; then a part may be appended.
pub(crate) fn append_rules(
    rules: &[Rule],
    patterns: &Patterns<'_>,
    into: &mut Vec<u8>,
) -> Result<(), AllocError>
    ensures { OnOk result (into.new.items ≡ into.old.items ++ rules_text patterns.now rules.now) }
{
    match front_name(rules) {
        Some(name) => {
            into.extend_from_slice(name.as_bytes())?;
            append_others(rules, patterns, into)
        }
        None => append_rules_in_braces(rules, patterns, into),
    }
}
