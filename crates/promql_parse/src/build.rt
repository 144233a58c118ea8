//! Trees as they are made. A tree of more than 128 nodes on its longest path is cut, since the rest of the text is still
//! read.
ghost use Rattle.promql_parse.specs.Build.{add, aggregate, binary, bracketed, call, is_plain, is_selector, leaf, may_fix, may_offset, moment_of, negate, no_arguments, node_of, operand_built, other, over, paren, part_built, plain, ranged, selected, stepped, takes_modifiers, with_offset, with_time};
ghost use Rattle.std.specs.Prelude.{◌≡◌, IfOk};

use func_table::{Aggregate, Func};
use holders::{Boxed, Items};
use label_set::{Grouping, Rule};
use promql_ast::{Expr, Fixed, Moment, Node, Selector};
use promql_parts::{BinaryOp, Brackets, Matching};
use std::alloc::{AllocError, Global};
use ticks::Ms;
use xfrac::PairOp;

/// The most nodes on a path.
const MOST_DEEP: u32 = 128;

/// A tree with the number of nodes on its longest path, unless these are more than 128.
#[derive(Drop)]
pub enum Built {
    Whole(Expr, u32),
    Deep,
}

/// Arguments, with the number of nodes on their longest path.
#[derive(Drop)]
pub enum Arguments {
    Whole(Items<Expr>, u32),
    Deep,
}

/// What an operand is: a selector by its rules, with a range or without, a subquery by what it is over, its range and its
/// step, or anything else. Modifiers stand behind the first three alone.
#[derive(Drop)]
pub enum Part {
    Selector(Items<Rule>),
    Range(Items<Rule>, Ms),
    Subquery(Built, Ms, Ms),
    Other(Built),
}

/// An operand with the place of its first byte, and the modifiers that stand behind it.
#[derive(Drop)]
pub struct Operand {
    pub at: u32,
    pub part: Part,
    pub offset: Option<Ms>,
    pub fixed: Option<Fixed>,
}

fn over(depth: u32, at: u32, node: Node) -> Built
    ensures { result ≡ over depth at node }
{
    if depth < MOST_DEEP {
        Built::Whole(Expr { at, node }, depth + 1)
    } else {
        Built::Deep
    }
}

/// The tree of one node at a place. It takes no memory.
pub fn leaf(at: u32, node: Node) -> Built
    ensures { result ≡ leaf at node }
{
    Built::Whole(Expr { at, node }, 1)
}

/// A tree in parentheses that open at a place. The only error is want of memory.
pub fn paren(alloc: Global, at: u32, inner: Built) -> Result<Built, AllocError>
    ensures { IfOk result (λ built. built ≡ paren at inner) }
{
    match inner {
        Built::Deep => Ok(Built::Deep),
        Built::Whole(e, depth) => Ok(over(depth, at, Node::Paren(Boxed::new(alloc, e)?))),
    }
}

/// The negative of a tree, of a sign at a place. The only error is want of memory.
pub fn negate(alloc: Global, at: u32, inner: Built) -> Result<Built, AllocError>
    ensures { IfOk result (λ built. built ≡ negate at inner) }
{
    match inner {
        Built::Deep => Ok(Built::Deep),
        Built::Whole(e, depth) => Ok(over(depth, at, Node::Negate(Boxed::new(alloc, e)?))),
    }
}

/// The node of an operator between its sides.
fn node_of(op: BinaryOp, matching: Matching, left: Boxed<Expr>, right: Boxed<Expr>) -> Node
    ensures { result ≡ node_of op matching left right }
{
    let Matching { flag, pairing } = matching;
    match op {
        BinaryOp::Arith(op) => Node::Pair(PairOp::Arith(op), left, right, pairing),
        BinaryOp::Compare(op) => {
            let op = if flag {
                PairOp::Flag(op)
            } else {
                PairOp::Filter(op)
            };
            Node::Pair(op, left, right, pairing)
        }
        BinaryOp::Set(op) => Node::Set(op, left, right, pairing),
    }
}

/// An operator between two sides with so many nodes on their longest path, which begins where the left one does.
fn between(
    alloc: Global,
    depth: u32,
    op: BinaryOp,
    matching: Matching,
    left: Expr,
    right: Expr,
) -> Result<Built, AllocError>
    ensures { IfOk result (λ built. built ≡ over depth left.at (node_of op matching left right)) }
{
    let at = left.at;
    let left = Boxed::new(alloc, left)?;
    let right = Boxed::new(alloc, right)?;
    Ok(over(depth, at, node_of(op, matching, left, right)))
}

/// An operator between two trees, which begins where the left one does. The only error is want of memory.
pub fn binary(
    alloc: Global,
    op: BinaryOp,
    matching: Matching,
    left: Built,
    right: Built,
) -> Result<Built, AllocError>
    ensures { IfOk result (λ built. built ≡ binary op matching left right) }
{
    match (left, right) {
        (Built::Whole(l, a), Built::Whole(r, b)) => between(alloc, a.max(b), op, matching, l, r),
        _ => Ok(Built::Deep),
    }
}

/// No arguments. It takes no memory.
pub fn no_arguments(alloc: Global) -> Arguments
    ensures { result ≡ no_arguments }
{
    Arguments::Whole(Items::new(alloc), 0)
}

/// Arguments with one more. The only error is want of memory.
pub fn add(arguments: Arguments, argument: Built) -> Result<Arguments, AllocError>
    ensures { IfOk result (λ more. more ≡ add arguments argument) }
{
    match (arguments, argument) {
        (Arguments::Whole(mut items, a), Built::Whole(e, b)) => {
            items.push(e)?;
            Ok(Arguments::Whole(items, a.max(b)))
        }
        _ => Ok(Arguments::Deep),
    }
}

/// A call of a function at a place. It takes no memory.
pub fn call(at: u32, function: Func, arguments: Arguments) -> Built
    ensures { result ≡ call at function arguments }
{
    match arguments {
        Arguments::Deep => Built::Deep,
        Arguments::Whole(items, depth) => over(depth, at, Node::Call(function, items)),
    }
}

/// An aggregation at a place, by a grouping. It takes no memory.
pub fn aggregate(at: u32, function: Aggregate, grouping: Grouping, arguments: Arguments) -> Built
    ensures { result ≡ aggregate at function grouping arguments }
{
    match arguments {
        Arguments::Deep => Built::Deep,
        Arguments::Whole(items, depth) => over(
            depth,
            at,
            Node::Aggregate(function, grouping, items),
        ),
    }
}

/// An operand without modifiers.
pub fn plain(at: u32, part: Part) -> Operand
    ensures { result ≡ plain at part }
{
    Operand {
        at,
        part,
        offset: None,
        fixed: None,
    }
}

/// An operand that takes no modifiers.
pub fn other(at: u32, built: Built) -> Operand
    ensures { result ≡ other at built }
{
    plain(at, Part::Other(built))
}

/// A selector without modifiers.
pub fn selected(at: u32, rules: Items<Rule>) -> Operand
    ensures { result ≡ selected at rules }
{
    plain(at, Part::Selector(rules))
}

fn is_selector(part: &Part) -> bool
    ensures { result ≡ is_selector part.now }
{
    match part {
        Part::Selector(_) => true,
        _ => false,
    }
}

/// Whether a range may stand behind an operand: it is a selector without modifiers.
pub fn is_plain(operand: &Operand) -> bool
    ensures { result ≡ is_plain operand.now }
{
    is_selector(&operand.part) && operand.offset.is_none() && operand.fixed.is_none()
}

fn takes_modifiers(part: &Part) -> bool
    ensures { result ≡ takes_modifiers part.now }
{
    match part {
        Part::Other(_) => false,
        _ => true,
    }
}

/// Whether an offset may stand behind an operand.
pub fn may_offset(operand: &Operand) -> bool
    ensures { result ≡ may_offset operand.now }
{
    takes_modifiers(&operand.part) && operand.offset.is_none()
}

/// Whether a fixed time may stand behind an operand.
pub fn may_fix(operand: &Operand) -> bool
    ensures { result ≡ may_fix operand.now }
{
    takes_modifiers(&operand.part) && operand.fixed.is_none()
}

/// A subquery over an expression.
fn stepped(
    alloc: Global,
    at: u32,
    inner: Built,
    range: Ms,
    step: Ms,
    moment: Moment,
) -> Result<Built, AllocError>
    ensures { IfOk result (λ built. built ≡ stepped at inner range step moment) }
{
    match inner {
        Built::Deep => Ok(Built::Deep),
        Built::Whole(e, depth) => {
            let inner = Boxed::new(alloc, e)?;
            let node = Node::Subquery {
                inner,
                range,
                step,
                moment,
            };
            Ok(over(depth, at, node))
        }
    }
}

fn part_built(alloc: Global, at: u32, part: Part, moment: Moment) -> Result<Built, AllocError>
    ensures { IfOk result (λ built. built ≡ part_built at part moment) }
{
    match part {
        Part::Selector(rules) => Ok(leaf(at, Node::Select(Selector { rules, moment }))),
        Part::Range(rules, range) => {
            Ok(leaf(at, Node::Range(Selector { rules, moment }, range)))
        }
        Part::Subquery(inner, range, step) => stepped(alloc, at, inner, range, step, moment),
        Part::Other(built) => Ok(built),
    }
}

fn moment_of(offset: Option<Ms>, fixed: Option<Fixed>) -> Moment
    ensures { result ≡ moment_of offset fixed }
{
    let offset = match offset {
        None => Ms(0),
        Some(offset) => offset,
    };
    Moment {
        fixed,
        offset,
        closed: false,
    }
}

/// The tree of an operand.
pub fn operand_built(alloc: Global, operand: Operand) -> Result<Built, AllocError>
    ensures { IfOk result (λ built. built ≡ operand_built operand) }
{
    let Operand {
        at,
        part,
        offset,
        fixed,
    } = operand;
    part_built(alloc, at, part, moment_of(offset, fixed))
}

fn ranged(part: Part, range: Ms) -> Part
    ensures { result ≡ ranged part range }
{
    match part {
        Part::Selector(rules) => Part::Range(rules, range),
        other => other,
    }
}

/// An operand with brackets behind it.
pub fn bracketed(alloc: Global, operand: Operand, brackets: Brackets) -> Result<Operand, AllocError>
    ensures { IfOk result (λ o. o ≡ bracketed operand brackets) }
{
    let at = operand.at;
    match brackets {
        Brackets::Range(range) => {
            let Operand { part, .. } = operand;
            Ok(plain(at, ranged(part, range)))
        }
        Brackets::Steps(range, step) => {
            let inner = operand_built(alloc, operand)?;
            Ok(plain(at, Part::Subquery(inner, range, step)))
        }
    }
}

/// An operand with its offset.
pub fn with_offset(operand: Operand, offset: Ms) -> Operand
    ensures { result ≡ with_offset operand offset }
{
    let Operand {
        at,
        part,
        fixed,
        ..
    } = operand;
    Operand {
        at,
        part,
        offset: Some(offset),
        fixed,
    }
}

/// An operand with its fixed time.
pub fn with_time(operand: Operand, time: Fixed) -> Operand
    ensures { result ≡ with_time operand time }
{
    let Operand {
        at,
        part,
        offset,
        ..
    } = operand;
    Operand {
        at,
        part,
        offset,
        fixed: Some(time),
    }
}
