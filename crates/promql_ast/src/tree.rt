ghost use Rattle.promql_ast.specs.Depth.{depth, greatest};
ghost use Rattle.std.specs.Prelude.{◌≡◌, ◌-◌, ◌^◌, map, min, IfOk};

use func_table::{Aggregate, Func, SetOp};
use holders::{Boxed, Items, Text};
use label_set::{Grouping, Pairing, Rule};
use std::alloc::AllocError;
use ticks::Ms;
use xfrac::{PairOp, XFrac};

/// A time that doesn't move with the instant: one in milliseconds, or the start or the end of the query's grid.
#[derive(Clone, Copy, Debug, PartialEq, Eq)]
pub enum Fixed {
    At(Ms),
    Start,
    End,
}

/// The moment that samples are taken at: the instant or a fixed time, less the offset in milliseconds. Where it is closed,
/// the window that ends there has its left edge too, as in Prometheus 2.
#[derive(Clone, Copy, Debug, PartialEq, Eq)]
pub struct Moment {
    pub fixed: Option<Fixed>,
    pub offset: Ms,
    pub closed: bool,
}

/// The series that pass all rules, which stand in the order of the text, at a moment.
#[derive(Debug, Drop, PartialEq, Eq)]
pub struct Selector {
    pub rules: Items<Rule>,
    pub moment: Moment,
}

impl Selector {
    /// An equal value, on the allocators of this one. The only error is want of memory.
    pub fn copy(&self) -> Result<Selector, AllocError>
        ensures { IfOk result (λ s. s ≡ self.now) }
    {
        Ok(Selector {
            rules: self.rules.copy()?,
            moment: self.moment,
        })
    }
}

impl Clone for Selector {
    ghost is_clone = { λ s t. t ≡ s };

    fn clone(&self) -> Result<Selector, AllocError> {
        self.copy()
    }
}

/// An expression: a node, and the place of its first byte in the text, counted from 0.
#[cycle(tree)]
#[derive(PartialEq, Eq, Drop)]
pub struct Expr {
    pub at: u32,
    pub node: Node,
}

/// What an expression is, by the grammar of the Prometheus querying documentation. Durations are in milliseconds.
#[cycle(tree)]
#[derive(PartialEq, Eq, Drop)]
pub enum Node {
    /// A number.
    Number(XFrac),
    /// A string.
    Words(Text),
    /// An expression in parentheses.
    Paren(Boxed<Expr>),
    /// An expression behind the sign minus.
    Negate(Boxed<Expr>),
    /// An instant vector.
    Select(Selector),
    /// A range vector of this length.
    Range(Selector, Ms),
    /// The values of an expression at the multiples of `step` in a range.
    Subquery {
        inner: Boxed<Expr>,
        range: Ms,
        step: Ms,
        moment: Moment,
    },
    /// A function of its arguments.
    Call(Func, Items<Expr>),
    /// An aggregation of its arguments.
    Aggregate(Aggregate, Grouping, Items<Expr>),
    /// An arithmetic operation or a comparison.
    Pair(PairOp, Boxed<Expr>, Boxed<Expr>, Pairing),
    /// A set operation.
    Set(SetOp, Boxed<Expr>, Boxed<Expr>, Pairing),
}

impl Expr {
    /// An equal tree, on the allocators of this one. The only error is want of memory.
    #[cycle(copies)]
    pub fn copy(&self) -> Result<Expr, AllocError>
        ensures { IfOk result (λ e. e ≡ self.now) }
    {
        let node = match &self.node {
            Node::Number(value) => Node::Number(*value),
            Node::Words(text) => Node::Words(text.copy()?),
            Node::Paren(inner) => Node::Paren(copied(inner)?),
            Node::Negate(inner) => Node::Negate(copied(inner)?),
            Node::Select(selector) => Node::Select(selector.copy()?),
            Node::Range(selector, range) => Node::Range(selector.copy()?, *range),
            Node::Subquery {
                inner,
                range,
                step,
                moment,
            } => Node::Subquery {
                inner: copied(inner)?,
                range: *range,
                step: *step,
                moment: *moment,
            },
            Node::Call(function, arguments) => Node::Call(*function, all_copied(arguments)?),
            Node::Aggregate(function, grouping, arguments) => Node::Aggregate(
                *function,
                grouping.copy()?,
                all_copied(arguments)?,
            ),
            Node::Pair(op, left, right, pairing) => Node::Pair(
                *op,
                copied(left)?,
                copied(right)?,
                pairing.copy()?,
            ),
            Node::Set(op, left, right, pairing) => Node::Set(
                *op,
                copied(left)?,
                copied(right)?,
                pairing.copy()?,
            ),
        };
        Ok(Expr { at: self.at, node })
    }

    /// The depth of the tree: how many nodes stand on its longest path. A count stands still at 2^64 - 1. It takes no
    /// memory.
    #[cycle(depths)]
    pub fn depth(&self) -> u64
        ensures { result ≡ min (depth self.now) (2 ^ 64 - 1) }
    {
        match &self.node {
            Node::Number(_) | Node::Words(_) | Node::Select(_) | Node::Range(_, _) => 1,
            Node::Paren(inner) | Node::Negate(inner) => inner.get().depth().saturating_add(1),
            Node::Subquery { inner, .. } => inner.get().depth().saturating_add(1),
            Node::Call(_, arguments) => greatest_depth(arguments).saturating_add(1),
            Node::Aggregate(_, _, arguments) => greatest_depth(arguments).saturating_add(1),
            Node::Pair(_, left, right, _) => left
                .get()
                .depth()
                .max(right.get().depth())
                .saturating_add(1),
            Node::Set(_, left, right, _) => left
                .get()
                .depth()
                .max(right.get().depth())
                .saturating_add(1),
        }
    }
}

#[cycle(copies)]
fn copied(e: &Boxed<Expr>) -> Result<Boxed<Expr>, AllocError>
    ensures { IfOk result (λ copy. copy ≡ e.now) }
{
    let copy = e.get().copy()?;
    Boxed::new(e.allocator(), copy)
}

#[cycle(copies)]
fn all_copied(expressions: &Items<Expr>) -> Result<Items<Expr>, AllocError>
    ensures { IfOk result (λ copies. copies ≡ expressions.now) }
{
    let mut copies = Items::new(expressions.allocator());
    for e in expressions.as_slice() {
        copies.push(e.copy()?)?;
    }
    Ok(copies)
}

#[cycle(depths)]
fn greatest_depth(expressions: &Items<Expr>) -> u64
    ensures { result ≡ min (greatest (map depth expressions.now)) (2 ^ 64 - 1) }
{
    let mut most: u64 = 0;
    for e in expressions.as_slice() {
        most = most.max(e.depth());
    }
    most
}
