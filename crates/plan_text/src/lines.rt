//! The lines of a plan.
ghost use Rattle.plan_text.specs.PlanLines.{all_lines, lines_of, told};
ghost use Rattle.std.specs.Prelude.{◌≡◌, ◌++◌, [], codes, map, IfOk, OnErr, OnOk};

use crate::words::{append_words, takes_scalar_first};
use holders::Items;
use logical_plan::{Plan, PlanNode};
use match_rule::Patterns;
use std::alloc::{AllocError, Global};

/// Writes the lines that explain a plan at the end of a list of bytes: one for each node, each ending with a line feed, and those of
/// its children below it behind two blanks more. The plan's patterns are those that are kept under their numbers; of one that isn't
/// kept the text is empty. The only error is want of memory; then the list is as it was.
pub fn write(p: &Plan, patterns: &Patterns<'_>, into: &mut Vec<u8>) -> Result<(), AllocError>
    ensures ok { OnOk result (into.new.items ≡ into.old.items ++ lines_of patterns.now p.now []) }
    ensures err { OnErr result (into.new.items ≡ into.old.items) }
{
    let lines = written(*into.allocator(), p, patterns)?;
    into.extend_from_slice(lines.as_slice())
}

fn written(alloc: Global, p: &Plan, patterns: &Patterns<'_>) -> Result<Vec<u8>, AllocError>
    ensures { IfOk result (λ lines. lines.items ≡ lines_of patterns.now p.now []) }
{
    let mut lines = Vec::new(alloc);
    append_lines(p, patterns, &[], &mut lines)?;
    Ok(lines)
}

/// What stands before the words of a node's children.
fn deeper(alloc: Global, front: &[u8]) -> Result<Vec<u8>, AllocError>
    ensures { IfOk result (λ below. below.items ≡ front.now ++ codes "  ") }
{
    let mut below = Vec::new(alloc);
    below.extend_from_slice(front)?;
    below.extend_from_slice(b"  ")?;
    Ok(below)
}

#[cycle(writes)]
fn append_lines(
    p: &Plan,
    patterns: &Patterns<'_>,
    front: &[u8],
    into: &mut Vec<u8>,
) -> Result<(), AllocError>
    ensures { OnOk result (into.new.items ≡ into.old.items ++ lines_of patterns.now p.now front.now) }
{
    into.extend_from_slice(front)?;
    append_words(&p.node, patterns, into)?;
    into.extend_from_slice(b"\n")?;
    let below = deeper(*into.allocator(), front)?;
    append_below(&p.node, patterns, below.as_slice(), into)
}

/// Appends the lines of a node's children, in the order of the query.
#[cycle(writes)]
fn append_below(
    node: &PlanNode,
    patterns: &Patterns<'_>,
    front: &[u8],
    into: &mut Vec<u8>,
) -> Result<(), AllocError>
    ensures { OnOk result (into.new.items ≡ into.old.items ++ (told patterns.now node.now).below front.now) }
{
    match node {
        PlanNode::Number(_) | PlanNode::Time => Ok(()),
        PlanNode::Select { .. } | PlanNode::Range { .. } | PlanNode::Gather { .. } => Ok(()),
        PlanNode::Element(_, inner, arguments) => {
            append_lines(inner.get(), patterns, front, into)?;
            append_all(arguments, patterns, front, into)
        }
        PlanNode::Window(f, inner, arguments) => {
            if takes_scalar_first(*f) {
                append_all(arguments, patterns, front, into)?;
                append_lines(inner.get(), patterns, front, into)
            } else {
                append_lines(inner.get(), patterns, front, into)?;
                append_all(arguments, patterns, front, into)
            }
        }
        PlanNode::Subquery { inner, .. }
        | PlanNode::Stamp(inner)
        | PlanNode::Absent { inner, .. }
        | PlanNode::Relabel(_, inner)
        | PlanNode::Sort { inner, .. }
        | PlanNode::ScalarOf(inner)
        | PlanNode::VectorOf(inner)
        | PlanNode::Filter { base: inner, .. }
        | PlanNode::Once(inner) => append_lines(inner.get(), patterns, front, into),
        PlanNode::Group(_, _, arguments, _) => append_all(arguments, patterns, front, into),
        PlanNode::Buckets(a, b) | PlanNode::Ratio { sum: a, count: b } => {
            append_lines(a.get(), patterns, front, into)?;
            append_lines(b.get(), patterns, front, into)
        }
        PlanNode::Pair(_, a, b, _) => {
            append_lines(a.get(), patterns, front, into)?;
            append_lines(b.get(), patterns, front, into)
        }
        PlanNode::Set(_, a, b, _) => {
            append_lines(a.get(), patterns, front, into)?;
            append_lines(b.get(), patterns, front, into)
        }
    }
}

/// Appends the lines of plans.
#[cycle(writes)]
fn append_all(
    plans: &Items<Plan>,
    patterns: &Patterns<'_>,
    front: &[u8],
    into: &mut Vec<u8>,
) -> Result<(), AllocError>
    ensures { OnOk result (into.new.items ≡ into.old.items ++ all_lines (map (lines_of patterns.now) plans.now) front.now) }
{
    for p in plans.as_slice() {
        append_lines(p, patterns, front, into)?;
    }
    Ok(())
}
