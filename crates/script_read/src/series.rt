//! The series at the front of a line: a metric's name, labels in braces, or both.
ghost use Rattle.script_read.specs.Lines.{from_blank};
ghost use Rattle.script_read.specs.Outcomes.{Says, then_give};
ghost use Rattle.script_read.specs.Series.{if_last, is_comma, is_sign, label_at, labels_inside, labels_named, labels_put, labels_with, opened, part_put, pair_put, series_at, series_bare, series_open, spelling, value_at, without_empty_end};
ghost use Rattle.script_read.specs.Views.{series_read};
ghost use Rattle.std.specs.List.{list_all, slice_split};
ghost use Rattle.std.specs.Prelude.{◌≡◌, ◌<◌, ◌≤◌, ◌^◌, ◌==◌, ◌&&◌, [], ◌∷◌, true, not, length, is_none, option_map, position, IfSome, MatchOption};
ghost use Rattle.promql_lex.specs.declared.token.Token.{Token};

use crate::fault::LineFault;
use crate::line::skip_blanks;
use crate::quote::{before, find_outside, without_comment};
use crate::word::{metric_name, split_name, text_in};
use label_set::{Labels, METRIC_NAME};
use promql_lex::{Token, TokenKind, tokens};
use std::alloc::Global;
use std::cmp;

/// The labels of a series, and the text behind it.
#[derive(Debug, Drop)]
pub struct SeriesRead<'a> {
    pub labels: Labels,
    pub behind: &'a [u8],
}

/// The labels with one more pair.
fn put(mut labels: Labels, name: &str, value: &str) -> Result<Labels, LineFault>
    ensures { Says result (labels_put labels name.now value.now) }
{
    labels.put(name, value)?;
    Ok(labels)
}

/// The bytes of a token.
fn spelling<'a>(text: &'a [u8], token: &Token) -> &'a [u8]
    ensures { result.now ≡ spelling text.now token.now }
{
    let at = cmp::min(token.at as usize, text.len());
    let rest = text.split_at(at).1;
    let size = cmp::min(token.end.saturating_sub(token.at) as usize, rest.len());
    rest.split_at(size).0
}

/// Whether a token is the sign of one byte.
fn is_sign(text: &[u8], token: &Token, byte: u8) -> bool
    ensures { result ≡ is_sign text.now byte token.now }
{
    match token.kind {
        TokenKind::Sign => spelling(text, token) == [byte].as_slice(),
        _ => false,
    }
}

fn has_no_colon(name: &[u8]) -> bool
    ensures { result ≡ list_all (λ byte. not (byte == 58)) name.now }
{
    name.iter().all(|byte| *byte != b':')
}

/// The name of a label: a name without a colon, a word, or a quoted name.
fn label_in<'a>(text: &'a [u8], token: &'a Token) -> Result<&'a str, LineFault>
    ensures { then_give result (λ name. name.now) ≡ label_at text.now token.now }
{
    match &token.kind {
        TokenKind::Quoted(name) => Ok(name.as_str()),
        TokenKind::Word => text_in(spelling(text, token)),
        TokenKind::Name => {
            let name = spelling(text, token);
            if has_no_colon(name) {
                text_in(name)
            } else {
                Err(LineFault::Malformed)
            }
        }
        _ => Err(LineFault::Malformed),
    }
}

/// What a quoted value stands for.
fn value_in(token: &Token) -> Result<&str, LineFault>
    ensures { then_give result (λ value. value.now) ≡ value_at token.now }
{
    match &token.kind {
        TokenKind::Quoted(value) => Ok(value.as_str()),
        _ => Err(LineFault::Malformed),
    }
}

/// The labels, where nothing stands behind what said them.
fn if_last(rest: &[Token], labels: Labels) -> Result<Labels, LineFault>
    ensures { result ≡ if_last rest.now labels }
{
    if rest.is_empty() {
        Ok(labels)
    } else {
        Err(LineFault::Malformed)
    }
}

/// The labels with the pair of a label, `=` and a value, and nothing behind them.
fn put_pair(labels: Labels, text: &[u8], part: &[Token]) -> Result<Labels, LineFault>
    ensures { Says result (pair_put text.now labels part.now) }
{
    let [label, sign, value, rest @ ..] = part else {
        return Err(LineFault::Malformed);
    };
    let name = label_in(text, label)?;
    if !is_sign(text, sign, b'=') {
        return Err(LineFault::Malformed);
    }
    let more = put(labels, name, value_in(value)?)?;
    if_last(rest, more)
}

/// The labels with what a part of the braces says; the first one may be the metric's name in quotes.
fn put_part(labels: Labels, text: &[u8], first: bool, part: &[Token]) -> Result<Labels, LineFault>
    ensures { Says result (part_put text.now first labels part.now) }
{
    match part {
        [name] => {
            if first {
                put(labels, METRIC_NAME, value_in(name)?)
            } else {
                Err(LineFault::Malformed)
            }
        }
        _ => put_pair(labels, text, part),
    }
}

fn comma_place(text: &[u8], tokens: &[Token]) -> Option<usize>
    ensures place { result ≡ position (is_comma text.now) tokens.now }
    ensures within { IfSome result (λ place. place < length tokens.now) }
{
    tokens.iter().position(|token| is_sign(text, token, b','))
}

/// The tokens up to the first comma, and those behind it, if there is one.
fn cut_part<'a>(text: &[u8], tokens: &'a [Token]) -> (&'a [Token], Option<&'a [Token]>)
    ensures { MatchOption result.1
        (slice_split (is_comma text.now) tokens.now ≡ result.0.now ∷ [])
        (λ rest. (slice_split (is_comma text.now) tokens.now ≡ result.0.now ∷ slice_split (is_comma text.now) rest.now)
        × (length rest.now < length tokens.now)) }
{
    match comma_place(text, tokens) {
        Some(end) => (tokens.split_at(end).0, Some(tokens.split_at(end + 1).1)),
        None => (tokens, None),
    }
}

/// Whether nothing stands in the last part.
fn is_empty_end(part: &[Token], rest: Option<&[Token]>) -> bool
    ensures { result ≡ ((length part.now == 0) && is_none rest.entry) }
{
    part.is_empty() && rest.is_none()
}

/// The labels with what each part of the braces says, but for an empty last one.
fn put_parts(mut labels: Labels, text: &[u8], tokens: &[Token]) -> Result<Labels, LineFault>
    ensures { Says result (labels_with text.now true labels (without_empty_end (slice_split (is_comma text.now) tokens.now))) }
{
    let mut left = Some(tokens);
    let mut first = true;
    while let Some(tokens) = left {
        let (part, rest) = cut_part(text, tokens);
        if is_empty_end(part, rest) {
            return Ok(labels);
        }
        labels = put_part(labels, text, first, part)?;
        first = false;
        left = rest;
    }
    Ok(labels)
}

/// The labels of a metric's name, which may be left out.
fn labels_named(alloc: Global, name: &[u8]) -> Result<Labels, LineFault>
    ensures { Says result (labels_named name.now) }
{
    let labels = Labels::empty(alloc);
    if name.is_empty() {
        return Ok(labels);
    }
    match metric_name(name) {
        Some(name) => put(labels, METRIC_NAME, name),
        None => Err(LineFault::Malformed),
    }
}

/// The labels of a name and of what stands in braces.
fn labels_inside(alloc: Global, name: &[u8], inside: &[u8]) -> Result<Labels, LineFault>
    requires { length inside.now < 2 ^ 32 }
    ensures { Says result (labels_inside name.now inside.now) }
{
    let named = labels_named(alloc, name)?;
    let inside = text_in(inside)?;
    let tokens = tokens(alloc, inside)?;
    put_parts(named, inside.as_bytes(), tokens.as_slice())
}

/// A series whose braces are open: they are closed by the first `}` outside quotes and comments.
fn series_open<'a>(alloc: Global, name: &[u8], text: &'a [u8]) -> Result<SeriesRead<'a>, LineFault>
    requires { length text.now < 2 ^ 32 }
    ensures { Says (then_give result series_read) (series_open name.now text.now) }
{
    let uncommented = without_comment(text);
    let close = find_outside(uncommented, b'}');
    let labels = labels_inside(alloc, name, before(uncommented, close))?;
    match close {
        Some(place) => Ok(SeriesRead {
            labels,
            behind: text.split_at(place + 1).1,
        }),
        None => Err(LineFault::Malformed),
    }
}

/// A metric's name alone.
fn series_bare<'a>(
    alloc: Global,
    name: &[u8],
    behind: &'a [u8],
) -> Result<SeriesRead<'a>, LineFault>
    ensures { Says (then_give result series_read) (series_bare name.now behind.now) }
{
    if name.is_empty() {
        return Err(LineFault::Malformed);
    }
    let labels = labels_named(alloc, name)?;
    Ok(SeriesRead { labels, behind })
}

/// The text inside braces, if one is opened, with blanks before it.
fn opened(text: &[u8]) -> Option<&[u8]>
    ensures is { option_map (λ inside. inside.now) result ≡ opened (from_blank text.now) }
    ensures shorter { IfSome result (λ inside. length inside.now ≤ length text.now) }
{
    match skip_blanks(text) {
        [b'{', inside @ ..] => Some(inside),
        _ => None,
    }
}

/// The series at the front of a text. `BadLabels` comes exactly where the first fault is a label that the labels refuse,
/// `Malformed` where it is another; the only other error is want of memory.
pub fn read_series<'a>(alloc: Global, text: &'a [u8]) -> Result<SeriesRead<'a>, LineFault>
    requires { length text.now < 2 ^ 32 }
    ensures { Says (then_give result series_read) (series_at text.now) }
{
    let (name, behind) = split_name(text);
    match opened(behind) {
        Some(inside) => series_open(alloc, name, inside),
        None => series_bare(alloc, name, behind),
    }
}
