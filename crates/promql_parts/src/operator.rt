//! Binary operators, and how their sides are matched.
ghost use Rattle.promql_parts.specs.Operators.{extra_at, flag_at, group_at, group_begun, group_kind, group_word, is_comparison, is_flag, is_set_operator, listed_at, matching_at, matching_begun, matching_word, op_at, op_of, operator_of, pairing_at};
ghost use Rattle.promql_parts.specs.Reads.{Gives};
ghost use Rattle.std.specs.Prelude.{◌≡◌, ◌<◌, ◌≤◌, length, IfOk, OnSome};

use crate::labels::labels_at;
use crate::lexeme::{Lexeme, LexemeKind, Sign};
use crate::reads::{Read, begins, refused, refused_at};
use crate::taken::Taken;
use func_table::SetOp;
use holders::{Items, Text};
use label_set::{Card, Pairing};
use promql_lex::Word;
use std::alloc::Global;
use xfrac::{ArithOp, CompareOp};

/// A binary operator.
#[derive(Clone, Copy, Debug, PartialEq, Eq)]
pub enum BinaryOp {
    Arith(ArithOp),
    Compare(CompareOp),
    Set(SetOp),
}

/// What stands between an operator and its right side: whether `bool` does, and how the sides are matched.
#[derive(Debug, Drop, PartialEq, Eq)]
pub struct Matching {
    pub flag: bool,
    pub pairing: Pairing,
}

/// The level and the operator. A lower level binds tighter.
fn operator_of(kind: &LexemeKind) -> Option<(u32, BinaryOp)>
    ensures { result ≡ operator_of kind.now }
{
    match kind {
        LexemeKind::Sign(Sign::Caret) => Some((0, BinaryOp::Arith(ArithOp::Pow))),
        LexemeKind::Sign(Sign::Star) => Some((1, BinaryOp::Arith(ArithOp::Mul))),
        LexemeKind::Sign(Sign::Slash) => Some((1, BinaryOp::Arith(ArithOp::Div))),
        LexemeKind::Sign(Sign::Percent) => Some((1, BinaryOp::Arith(ArithOp::Rem))),
        LexemeKind::Sign(Sign::Plus) => Some((2, BinaryOp::Arith(ArithOp::Add))),
        LexemeKind::Sign(Sign::Minus) => Some((2, BinaryOp::Arith(ArithOp::Sub))),
        LexemeKind::Sign(Sign::EqualTwice) => Some((3, BinaryOp::Compare(CompareOp::Eq))),
        LexemeKind::Sign(Sign::Unequal) => Some((3, BinaryOp::Compare(CompareOp::Ne))),
        LexemeKind::Sign(Sign::Less) => Some((3, BinaryOp::Compare(CompareOp::Lt))),
        LexemeKind::Sign(Sign::LessEqual) => Some((3, BinaryOp::Compare(CompareOp::Le))),
        LexemeKind::Sign(Sign::Greater) => Some((3, BinaryOp::Compare(CompareOp::Gt))),
        LexemeKind::Sign(Sign::GreaterEqual) => Some((3, BinaryOp::Compare(CompareOp::Ge))),
        LexemeKind::Word(Word::And, _) => Some((4, BinaryOp::Set(SetOp::And))),
        LexemeKind::Word(Word::Unless, _) => Some((4, BinaryOp::Set(SetOp::Unless))),
        LexemeKind::Word(Word::Or, _) => Some((5, BinaryOp::Set(SetOp::Or))),
        _ => None,
    }
}

fn op_of(level: u32, kind: &LexemeKind) -> Option<BinaryOp>
    ensures { result ≡ op_of level kind.now }
{
    match operator_of(kind) {
        None => None,
        Some((other, op)) => { if other == level { Some(op) } else { None } }
    }
}

/// The operator of a level that stands at the front.
pub fn op_at(level: u32, lexemes: &[Lexeme]) -> Option<BinaryOp>
    ensures is { result ≡ op_at level lexemes.now }
    ensures some { OnSome result (0 < length lexemes.now) }
{
    match lexemes {
        [] => None,
        [lexeme, ..] => op_of(level, &lexeme.kind),
    }
}

fn is_comparison(op: BinaryOp) -> bool
    ensures { result ≡ is_comparison op }
{
    match op {
        BinaryOp::Compare(_) => true,
        _ => false,
    }
}

fn is_set_operator(op: BinaryOp) -> bool
    ensures { result ≡ is_set_operator op }
{
    match op {
        BinaryOp::Set(_) => true,
        _ => false,
    }
}

fn is_flag(kind: &LexemeKind) -> bool
    ensures { result ≡ is_flag kind.now }
{
    match kind {
        LexemeKind::Word(Word::Bool, _) => true,
        _ => false,
    }
}

/// Whether `bool` stands at the front, which it may behind a comparison alone.
fn flag_at<'a>(op: BinaryOp, end: u32, lexemes: &'a [Lexeme]) -> Read<'a, bool>
    ensures is { Gives (λ read. (read.0, read.1.now)) result (flag_at op end lexemes.now) }
    ensures shorter { IfOk result (λ read. length read.1.now ≤ length lexemes.now) }
{
    match lexemes {
        [] => Ok((false, lexemes)),
        [lexeme, ..] => {
            if !is_flag(&lexeme.kind) {
                Ok((false, lexemes))
            } else if is_comparison(op) {
                Ok((true, lexemes.split_at(1).1))
            } else {
                Err(refused(lexeme))
            }
        }
    }
}

fn matching_word(kind: &LexemeKind) -> Option<bool>
    ensures { result ≡ matching_word kind.now }
{
    match kind {
        LexemeKind::Word(Word::On, _) => Some(true),
        LexemeKind::Word(Word::Ignoring, _) => Some(false),
        _ => None,
    }
}

fn matching_begun(lexemes: &[Lexeme]) -> Option<bool>
    ensures is { result ≡ matching_begun lexemes.now }
    ensures some { OnSome result (0 < length lexemes.now) }
{
    match lexemes {
        [] => None,
        [lexeme, ..] => matching_word(&lexeme.kind),
    }
}

fn group_word(kind: &LexemeKind) -> Option<Card>
    ensures { result ≡ group_word kind.now }
{
    match kind {
        LexemeKind::Word(Word::GroupLeft, _) => Some(Card::GroupLeft),
        LexemeKind::Word(Word::GroupRight, _) => Some(Card::GroupRight),
        _ => None,
    }
}

fn group_begun(lexemes: &[Lexeme]) -> Option<Card>
    ensures is { result ≡ group_begun lexemes.now }
    ensures some { OnSome result (0 < length lexemes.now) }
{
    match lexemes {
        [] => None,
        [lexeme, ..] => group_word(&lexeme.kind),
    }
}

/// The labels of a group, if they are there, none of which is among those that are taken.
#[tactic(auto, unfolding(crate::specs::Operators::extra_at))]
fn extra_at<'a>(
    alloc: Global,
    taken: &Taken,
    end: u32,
    lexemes: &'a [Lexeme],
) -> Read<'a, Items<Text>>
    ensures is { Gives (λ read. (read.0, read.1.now)) result (extra_at taken.now end lexemes.now) }
    ensures shorter { IfOk result (λ read. length read.1.now ≤ length lexemes.now) }
{
    if begins(Sign::LeftParen, lexemes) {
        labels_at(alloc, taken, end, lexemes)
    } else {
        Ok((Items::new(alloc), lexemes))
    }
}

/// The matching of a group, from behind its word.
#[tactic(auto, unfolding(crate::specs::Operators::group_at))]
fn group_at<'a>(
    alloc: Global,
    on: bool,
    names: Items<Text>,
    card: Card,
    end: u32,
    lexemes: &'a [Lexeme],
) -> Read<'a, Pairing>
    ensures is { Gives (λ read. (read.0, read.1.now)) result (group_at on names card end lexemes.now) }
    ensures shorter { IfOk result (λ read. length read.1.now ≤ length lexemes.now) }
{
    let taken = if on { names.as_slice() } else { &[] };
    let (extra, rest) = extra_at(alloc, &Taken::of(alloc, taken)?, end, lexemes)?;
    Ok((
        Pairing {
            on,
            names,
            card,
            extra,
        },
        rest,
    ))
}

/// What may stand behind the labels of a matching: a group, but behind a set operator.
fn group_behind<'a>(
    alloc: Global,
    op: BinaryOp,
    on: bool,
    names: Items<Text>,
    end: u32,
    lexemes: &'a [Lexeme],
) -> Read<'a, Pairing>
    ensures is { Gives (λ read. (read.0, read.1.now)) result (group_kind op on names (group_begun lexemes.now) end lexemes.now) }
    ensures shorter { IfOk result (λ read. length read.1.now ≤ length lexemes.now) }
{
    match group_begun(lexemes) {
        None => Ok((
            Pairing {
                on,
                names,
                card: Card::OneToOne,
                extra: Items::new(alloc),
            },
            lexemes,
        )),
        Some(card) => {
            if is_set_operator(op) {
                Err(refused_at(end, lexemes))
            } else {
                group_at(alloc, on, names, card, end, lexemes.split_at(1).1)
            }
        }
    }
}

/// The matching from behind `on` or `ignoring`.
#[tactic(auto, unfolding(crate::specs::Operators::listed_at))]
fn listed_at<'a>(
    alloc: Global,
    op: BinaryOp,
    on: bool,
    end: u32,
    lexemes: &'a [Lexeme],
) -> Read<'a, Pairing>
    ensures is { Gives (λ read. (read.0, read.1.now)) result (listed_at op on end lexemes.now) }
    ensures shorter { IfOk result (λ read. length read.1.now ≤ length lexemes.now) }
{
    let (names, rest) = labels_at(alloc, &Taken::none(alloc), end, lexemes)?;
    group_behind(alloc, op, on, names, end, rest)
}

/// How the sides are matched: by `on`, by `ignoring`, or by all labels.
fn pairing_at<'a>(alloc: Global, op: BinaryOp, end: u32, lexemes: &'a [Lexeme]) -> Read<'a, Pairing>
    ensures is { Gives (λ read. (read.0, read.1.now)) result (pairing_at op end lexemes.now) }
    ensures shorter { IfOk result (λ read. length read.1.now ≤ length lexemes.now) }
{
    match matching_begun(lexemes) {
        None => Ok((
            Pairing {
                on: false,
                names: Items::new(alloc),
                card: Card::OneToOne,
                extra: Items::new(alloc),
            },
            lexemes,
        )),
        Some(on) => listed_at(alloc, op, on, end, lexemes.split_at(1).1),
    }
}

/// What stands between an operator and its right side.
#[tactic(auto, unfolding(crate::specs::Operators::matching_at))]
pub fn matching_at<'a>(
    alloc: Global,
    op: BinaryOp,
    end: u32,
    lexemes: &'a [Lexeme],
) -> Read<'a, Matching>
    ensures is { Gives (λ read. (read.0, read.1.now)) result (matching_at op end lexemes.now) }
    ensures shorter { IfOk result (λ read. length read.1.now ≤ length lexemes.now) }
{
    let (flag, behind) = flag_at(op, end, lexemes)?;
    let (pairing, rest) = pairing_at(alloc, op, end, behind)?;
    Ok((Matching { flag, pairing }, rest))
}
