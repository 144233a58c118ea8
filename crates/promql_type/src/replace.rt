//! The patterns of `label_replace` calls.
ghost use Rattle.promql_type.specs.Judging.{all_replacements, judged, pattern_of};
ghost use Rattle.promql_type.specs.Answers.{MayFault};
ghost use Rattle.promql_type.specs.Replacements.{AreKept, AreTaken, HasCause, IsFirstRefused};
ghost use Rattle.match_rule.specs.Gains.{Gains};
ghost use Rattle.match_rule.specs.Patterns.{is_readable, with_pattern};
ghost use Rattle.std.specs.Prelude.{◌≡◌, ◌≤◌, ◌++◌, true, Some, length, map, slice_get, IfOk, IfErr, OnOk, OnErr};

use crate::judge::literal_at;
use crate::typed_tree::TypeFault;
use func_table::Func;
use holders::{Items, Text};
use label_set::PatternId;
use match_rule::{PatternRefusal, Patterns};
use promql_ast::{Expr, Node, QueryRefusal};
use std::alloc::{AllocError, Global};

/// The pattern of a `label_replace` call: the place of the call's first byte and that of the pattern's string, both counted
/// from 0, and the string's text.
#[derive(Debug, Drop, PartialEq, Eq)]
pub struct Replacement {
    pub at: u32,
    pub place: u32,
    pub text: Text,
}

/// The number of the pattern of the call at a place.
#[derive(Clone, Copy, Debug, PartialEq, Eq)]
pub struct Placed {
    pub at: u32,
    pub id: PatternId,
}

/// Puts the patterns of a tree behind those that are there, in the order of the text. The only error is want of memory.
#[cycle(collecting)]
pub fn collect(alloc: Global, e: &Expr, into: &mut Items<Replacement>) -> Result<(), AllocError>
    ensures { OnOk result (into.new ≡ into.old ++ (judged e.now).replacements) }
{
    match &e.node {
        Node::Number(_) | Node::Words(_) | Node::Select(_) | Node::Range(_, _) => Ok(()),
        Node::Paren(inner) => collect(alloc, inner.get(), into),
        Node::Negate(inner) => collect(alloc, inner.get(), into),
        Node::Subquery { inner, .. } => collect(alloc, inner.get(), into),
        Node::Call(function, arguments) => {
            collect_all(alloc, arguments.as_slice(), into)?;
            collect_own(alloc, *function, arguments.as_slice(), e.at, into)
        }
        Node::Aggregate(_, _, arguments) => collect_all(alloc, arguments.as_slice(), into),
        Node::Pair(_, left, right, _) => {
            collect(alloc, left.get(), into)?;
            collect(alloc, right.get(), into)
        }
        Node::Set(_, left, right, _) => {
            collect(alloc, left.get(), into)?;
            collect(alloc, right.get(), into)
        }
    }
}

#[cycle(collecting)]
fn collect_all(
    alloc: Global,
    arguments: &[Expr],
    into: &mut Items<Replacement>,
) -> Result<(), AllocError>
    ensures { OnOk result (into.new ≡ into.old ++ all_replacements (map judged arguments.now)) }
{
    for e in arguments {
        collect(alloc, e, into)?;
    }
    Ok(())
}

/// Puts the pattern of a call at a place behind those that are there, if it has one.
fn collect_own(
    alloc: Global,
    function: Func,
    arguments: &[Expr],
    at: u32,
    into: &mut Items<Replacement>,
) -> Result<(), AllocError>
    ensures { OnOk result (into.new ≡ into.old ++ pattern_of function (map judged arguments.now) at) }
{
    match function {
        Func::LabelReplace => match literal_at(arguments, 4) {
            Some(pattern) => into.push(Replacement {
                at,
                place: pattern.at,
                text: Text::of(alloc, pattern.text)?,
            }),
            None => Ok(()),
        },
        _ => Ok(()),
    }
}

/// Keeps the pattern of a call. After an error the patterns are as they were.
fn keep(kept: &mut Patterns, wanted: &Replacement) -> Result<PatternId, TypeFault>
    ensures there { IfOk result (λ id. slice_get kept.new id.0 ≡ Some (true, wanted.now.text)) }
    ensures ok { OnOk result (kept.new ≡ with_pattern (true, wanted.now.text) kept.old) }
    ensures readable { OnOk result (is_readable true wanted.now.text ≡ true) }
    ensures most { OnOk result (length kept.new ≤ 32) }
    ensures err { OnErr result (kept.new ≡ kept.old) }
    ensures refused { IfErr result (MayFault (HasCause kept.old wanted.now)) }
    ensures gains { Gains kept.old kept.new }
{
    match kept.whole(wanted.text.as_str()) {
        Ok(id) => Ok(id),
        Err(PatternRefusal::BadPattern) => {
            Err(TypeFault::Refused(QueryRefusal::BadPattern(wanted.place)))
        }
        Err(PatternRefusal::TooManyPatterns) => {
            Err(TypeFault::Refused(QueryRefusal::TooManyPatterns(wanted.place)))
        }
        Err(PatternRefusal::Memory) => Err(TypeFault::Memory),
    }
}

/// Keeps the patterns of calls in order, up to the first that is refused, and answers their numbers. After an error those
/// before it stay.
pub fn build(
    alloc: Global,
    wanted: &[Replacement],
    kept: &mut Patterns,
) -> Result<Items<Placed>, TypeFault>
    ensures ok { OnOk result (AreTaken kept.old wanted.now kept.new) }
    ensures placed { IfOk result (AreKept kept.new wanted.now) }
    ensures refused { IfErr result (MayFault (IsFirstRefused kept.old wanted.now kept.new)) }
    ensures gains { Gains kept.old kept.new }
{
    let mut placed = Items::new(alloc);
    for r in wanted {
        let id = match keep(kept, r) {
            Ok(id) => id,
            Err(fault) => return Err(fault),
        };
        placed.push(Placed { at: r.at, id })?;
    }
    Ok(placed)
}
