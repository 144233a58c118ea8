//! The canonical text of a tree.
ghost use Rattle.func_table.specs.Naming.{aggregate_name, function_name};
ghost use Rattle.promql_print.specs.Canonical.{blank, canonical};
ghost use Rattle.promql_print.specs.Labels.{in_parens};
ghost use Rattle.promql_print.specs.Operators.{grouping_words, tells_grouping};
ghost use Rattle.std.specs.Prelude.{◌≡◌, ◌++◌, map, IfOk, OnErr, OnOk};

use crate::labels::append_comma;
use crate::operators::{
    append_grouping, append_pair_operator, append_set_operator, tells_grouping,
};
use crate::times::{append_number, append_range, append_select, append_steps};
use func_table::{Aggregate, aggregate_name, name};
use holders::Items;
use label_set::{Grouping, append_quoted};
use match_rule::Patterns;
use promql_ast::{Expr, Node};
use std::alloc::{AllocError, Global};

/// Prints the canonical text of a tree at the end of a list of bytes. The tree's patterns are those that are kept under their
/// numbers; of one that isn't kept the text is empty. The only error is want of memory; then the list is as it was.
pub fn print(e: &Expr, patterns: &Patterns<'_>, into: &mut Vec<u8>) -> Result<(), AllocError>
    ensures ok { OnOk result (into.new.items ≡ into.old.items ++ canonical patterns.now e.now) }
    ensures err { OnErr result (into.new.items ≡ into.old.items) }
{
    let text = printed(*into.allocator(), e, patterns)?;
    into.extend_from_slice(text.as_slice())
}

fn printed(alloc: Global, e: &Expr, patterns: &Patterns<'_>) -> Result<Vec<u8>, AllocError>
    ensures { IfOk result (λ text. text.items ≡ canonical patterns.now e.now) }
{
    let mut text = Vec::new(alloc);
    append(e, patterns, &mut text)?;
    Ok(text)
}

/// Appends a blank, where something is told before the arguments.
fn append_blank(told: bool, into: &mut Vec<u8>) -> Result<(), AllocError>
    ensures { OnOk result (into.new.items ≡ into.old.items ++ blank told) }
{
    if told {
        into.extend_from_slice(b" ")
    } else {
        Ok(())
    }
}

/// Appends what stands before an aggregation's arguments.
fn append_aggregate(f: Aggregate, grouping: &Grouping, into: &mut Vec<u8>) -> Result<(), AllocError>
    ensures { OnOk result (into.new.items ≡ into.old.items ++ (aggregate_name f ++ (grouping_words grouping.now ++ blank (tells_grouping grouping.now)))) }
{
    into.extend_from_slice(aggregate_name(&f).as_bytes())?;
    append_grouping(grouping, into)?;
    append_blank(tells_grouping(grouping), into)
}

#[cycle(prints)]
fn append(e: &Expr, patterns: &Patterns<'_>, into: &mut Vec<u8>) -> Result<(), AllocError>
    ensures { OnOk result (into.new.items ≡ into.old.items ++ canonical patterns.now e.now) }
{
    match &e.node {
        Node::Number(value) => append_number(value, into),
        Node::Words(text) => append_quoted(text.as_str(), into),
        Node::Paren(inner) => {
            into.extend_from_slice(b"(")?;
            append(inner.get(), patterns, into)?;
            into.extend_from_slice(b")")
        }
        Node::Negate(inner) => {
            into.extend_from_slice(b"-")?;
            append(inner.get(), patterns, into)
        }
        Node::Select(selector) => append_select(
            selector.rules.as_slice(),
            &selector.moment,
            patterns,
            into,
        ),
        Node::Range(selector, range) => append_range(
            selector.rules.as_slice(),
            *range,
            &selector.moment,
            patterns,
            into,
        ),
        Node::Subquery {
            inner,
            range,
            step,
            moment,
        } => {
            append(inner.get(), patterns, into)?;
            append_steps(*range, *step, moment, into)
        }
        Node::Call(f, arguments) => {
            into.extend_from_slice(name(f).as_bytes())?;
            append_arguments(arguments, patterns, into)
        }
        Node::Aggregate(f, grouping, arguments) => {
            append_aggregate(*f, grouping, into)?;
            append_arguments(arguments, patterns, into)
        }
        Node::Pair(op, left, right, pairing) => {
            append(left.get(), patterns, into)?;
            into.extend_from_slice(b" ")?;
            append_pair_operator(*op, pairing, into)?;
            into.extend_from_slice(b" ")?;
            append(right.get(), patterns, into)
        }
        Node::Set(op, left, right, pairing) => {
            append(left.get(), patterns, into)?;
            into.extend_from_slice(b" ")?;
            append_set_operator(*op, pairing, into)?;
            into.extend_from_slice(b" ")?;
            append(right.get(), patterns, into)
        }
    }
}

/// Appends the arguments of a call or an aggregation in parentheses.
#[cycle(prints)]
fn append_arguments(
    arguments: &Items<Expr>,
    patterns: &Patterns<'_>,
    into: &mut Vec<u8>,
) -> Result<(), AllocError>
    ensures { OnOk result (into.new.items ≡ into.old.items ++ in_parens (map (canonical patterns.now) arguments.now)) }
{
    into.push(b'(')?;
    let mut started = false;
    for argument in arguments.as_slice() {
        append_comma(started, into)?;
        append(argument, patterns, into)?;
        started = true;
    }
    into.push(b')')?;
    Ok(())
}
