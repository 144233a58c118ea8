//! Labels, lists of them, and groupings.
ghost use Rattle.promql_parts.specs.Labels.{grouping_at, grouping_begun, grouping_behind, grouping_word, has_colon, judged, label_at, label_of, labels_at, labels_turn};
ghost use Rattle.promql_parts.specs.Reads.{Gives, all_turns};
ghost use Rattle.std.specs.Prelude.{◌≡◌, ◌<◌, ◌≤◌, [], None, Some, length, IfOk, IsTrue, MatchOption, OnSome};

use crate::lexeme::{Lexeme, LexemeKind, Sign};
use crate::reads::{Read, after, begins, item_behind, refused, refused_at};
use crate::taken::Taken;
use holders::{Items, Text};
use label_set::Grouping;
use promql_ast::QueryRefusal;
use promql_lex::{LexFault, Word};
use std::alloc::Global;

fn has_colon(name: &str) -> bool
    ensures { result ≡ has_colon name.now }
{
    name.as_bytes().iter().any(|byte| *byte == b':')
}

/// The label that a lexeme is: a name without a colon, a word or a string.
pub fn label_of(kind: &LexemeKind) -> Option<&Text>
    ensures { MatchOption result (label_of kind.now ≡ None) (λ label. label_of kind.now ≡ Some label.now) }
{
    match kind {
        LexemeKind::Name(name) => {
            if has_colon(name.as_str()) {
                None
            } else {
                Some(name)
            }
        }
        LexemeKind::Word(_, spelling) => Some(spelling),
        LexemeKind::Quoted(text) => Some(text),
        _ => None,
    }
}

/// A label that isn't empty and isn't among those that are taken, on its allocator.
fn judged(taken: &Taken, at: u32, label: &Text) -> Result<Text, LexFault>
    ensures { Gives (λ label. label) result (judged taken.now at label.now) }
{
    if label.as_str().is_empty() {
        return Err(LexFault::Refused(QueryRefusal::BadLabelName(at)));
    }
    if taken.has(label) {
        return Err(LexFault::Refused(QueryRefusal::LabelTwice(at)));
    }
    Ok(label.copy()?)
}

fn label_at<'a>(taken: &Taken, end: u32, lexemes: &'a [Lexeme]) -> Read<'a, Text>
    ensures is { Gives (λ read. (read.0, read.1.now)) result (label_at taken.now end lexemes.now) }
    ensures shorter { IfOk result (λ read. length read.1.now < length lexemes.now) }
{
    match lexemes {
        [] => Err(refused_at(end, lexemes)),
        [lexeme, ..] => match label_of(&lexeme.kind) {
            None => Err(refused(lexeme)),
            Some(label) => Ok((judged(taken, lexeme.at, label)?, lexemes.split_at(1).1)),
        },
    }
}

#[tactic(auto, unfolding(crate::specs::Labels::labels_turn))]
fn labels_turn<'a>(
    taken: &Taken,
    end: u32,
    sofar: Items<Text>,
    lexemes: &'a [Lexeme],
) -> Result<(bool, Items<Text>, &'a [Lexeme]), LexFault>
    ensures is { Gives (λ next. (next.0, next.1, next.2.now)) result (labels_turn taken.now end sofar lexemes.now) }
    ensures shorter { IfOk result (λ next. (length next.2.now ≤ length lexemes.now) × (IsTrue next.0 → length next.2.now < length lexemes.now)) }
{
    if begins(Sign::RightParen, lexemes) {
        return Ok((false, sofar, lexemes));
    }
    let (label, behind) = label_at(taken, end, lexemes)?;
    let (more, rest) = item_behind(end, Sign::RightParen, behind)?;
    let mut labels = sofar;
    labels.push(label)?;
    Ok((more, labels, rest))
}

/// The labels up to the closing parenthesis.
fn listed_labels<'a>(
    alloc: Global,
    taken: &Taken,
    end: u32,
    lexemes: &'a [Lexeme],
) -> Read<'a, Items<Text>>
    ensures is { Gives (λ read. (read.0, read.1.now)) result (all_turns (labels_turn taken.now end) [] lexemes.now) }
    ensures shorter { IfOk result (λ read. length read.1.now ≤ length lexemes.now) }
{
    let mut labels = Items::new(alloc);
    let mut rest = lexemes;
    loop {
        let (more, next, behind) = labels_turn(taken, end, labels, rest)?;
        if !more {
            return Ok((next, behind));
        }
        labels = next;
        rest = behind;
    }
}

/// Labels in parentheses, none of which is among those that are taken.
#[tactic(auto, unfolding(crate::specs::Labels::labels_at))]
pub fn labels_at<'a>(
    alloc: Global,
    taken: &Taken,
    end: u32,
    lexemes: &'a [Lexeme],
) -> Read<'a, Items<Text>>
    ensures is { Gives (λ read. (read.0, read.1.now)) result (labels_at taken.now end lexemes.now) }
    ensures shorter { IfOk result (λ read. length read.1.now < length lexemes.now) }
{
    let inside = after(end, Sign::LeftParen, lexemes)?;
    let (labels, behind) = listed_labels(alloc, taken, end, inside)?;
    let rest = after(end, Sign::RightParen, behind)?;
    Ok((labels, rest))
}

fn grouping_word(kind: &LexemeKind) -> Option<bool>
    ensures { result ≡ grouping_word kind.now }
{
    match kind {
        LexemeKind::Word(Word::By, _) => Some(false),
        LexemeKind::Word(Word::Without, _) => Some(true),
        _ => None,
    }
}

/// Whether a grouping stands at the front, and whether that leaves labels out.
pub fn grouping_begun(lexemes: &[Lexeme]) -> Option<bool>
    ensures is { result ≡ grouping_begun lexemes.now }
    ensures some { OnSome result (0 < length lexemes.now) }
{
    match lexemes {
        [] => None,
        [lexeme, ..] => grouping_word(&lexeme.kind),
    }
}

/// The grouping whose word stands at the front.
#[tactic(auto, unfolding(crate::specs::Labels::grouping_at))]
pub fn grouping_at<'a>(
    alloc: Global,
    without: bool,
    end: u32,
    lexemes: &'a [Lexeme],
) -> Read<'a, Grouping>
    requires { 0 < length lexemes.now }
    ensures is { Gives (λ read. (read.0, read.1.now)) result (grouping_at without end lexemes.now) }
    ensures shorter { IfOk result (λ read. length read.1.now < length lexemes.now) }
{
    let (names, rest) = labels_at(alloc, &Taken::none(alloc), end, lexemes.split_at(1).1)?;
    Ok((Grouping { without, names }, rest))
}

/// A grouping, if one stands at the front; else that of all rows.
pub fn grouping_behind<'a>(alloc: Global, end: u32, lexemes: &'a [Lexeme]) -> Read<'a, Grouping>
    ensures is { Gives (λ read. (read.0, read.1.now)) result (grouping_behind end lexemes.now) }
    ensures shorter { IfOk result (λ read. length read.1.now ≤ length lexemes.now) }
{
    match grouping_begun(lexemes) {
        None => Ok((
            Grouping {
                without: false,
                names: Items::new(alloc),
            },
            lexemes,
        )),
        Some(without) => grouping_at(alloc, without, end, lexemes),
    }
}
