//! Trees whose moments are all closed on the left, or all open.
ghost use Rattle.promql_ast.specs.Edged.{EdgedTreesStay, EdgesAreSet, LastEdgeCounts, edged, edged_moment, edged_selector};
ghost use Rattle.std.specs.Prelude.{◌≡◌, map, IfOk};

use crate::tree::{Expr, Moment, Node, Selector};
use holders::{Boxed, Items};
use std::alloc::AllocError;

impl Moment {
    /// The moment with a window that is closed on the left, or open. It takes no memory.
    pub fn edged(self, closed: bool) -> Moment
        ensures { result ≡ edged_moment closed self }
    {
        Moment {
            fixed: self.fixed,
            offset: self.offset,
            closed,
        }
    }
}

impl Selector {
    /// The selector with windows that are closed on the left, or open. It takes no memory.
    pub fn edged(self, closed: bool) -> Selector
        ensures { result ≡ edged_selector closed self }
    {
        let Selector { rules, moment } = self;
        Selector {
            rules,
            moment: moment.edged(closed),
        }
    }
}

impl Expr {
    /// The tree with each of its moments closed on the left, or each open: those of selectors and of subqueries, wherever they
    /// stand. Nothing else changes. The only error is want of memory; then the tree is dropped.
    #[cycle(edging)]
    pub fn edged(self, closed: bool) -> Result<Expr, AllocError>
        ensures { IfOk result (λ e. e ≡ edged closed self) }
    {
        let Expr { at, node } = self;
        let node = match node {
            Node::Number(value) => Node::Number(value),
            Node::Words(text) => Node::Words(text),
            Node::Paren(inner) => Node::Paren(boxed_edged(inner, closed)?),
            Node::Negate(inner) => Node::Negate(boxed_edged(inner, closed)?),
            Node::Select(selector) => Node::Select(selector.edged(closed)),
            Node::Range(selector, range) => Node::Range(selector.edged(closed), range),
            Node::Subquery {
                inner,
                range,
                step,
                moment,
            } => Node::Subquery {
                inner: boxed_edged(inner, closed)?,
                range,
                step,
                moment: moment.edged(closed),
            },
            Node::Call(function, arguments) => Node::Call(function, all_edged(arguments, closed)?),
            Node::Aggregate(function, grouping, arguments) => Node::Aggregate(
                function,
                grouping,
                all_edged(arguments, closed)?,
            ),
            Node::Pair(op, left, right, pairing) => Node::Pair(
                op,
                boxed_edged(left, closed)?,
                boxed_edged(right, closed)?,
                pairing,
            ),
            Node::Set(op, left, right, pairing) => Node::Set(
                op,
                boxed_edged(left, closed)?,
                boxed_edged(right, closed)?,
                pairing,
            ),
        };
        Ok(Expr { at, node })
    }
}

#[cycle(edging)]
fn boxed_edged(e: Boxed<Expr>, closed: bool) -> Result<Boxed<Expr>, AllocError>
    ensures { IfOk result (λ boxed. boxed ≡ edged closed e) }
{
    let alloc = e.allocator();
    let tree = e.into_inner().edged(closed)?;
    Boxed::new(alloc, tree)
}

#[cycle(edging)]
fn all_edged(expressions: Items<Expr>, closed: bool) -> Result<Items<Expr>, AllocError>
    ensures { IfOk result (λ trees. trees ≡ map (edged closed) expressions) }
{
    let mut trees = Items::new(expressions.allocator());
    for e in expressions.into_vec() {
        trees.push(e.edged(closed)?)?;
    }
    Ok(trees)
}

/// A law, with nothing to run: once an edge is set, all moments of the tree have it.
pub fn edges_are_set()
    ensures { EdgesAreSet }
{}

/// A law, with nothing to run: a tree whose moments all have an edge stays as it is where that edge is set.
pub fn edged_trees_stay()
    ensures { EdgedTreesStay }
{}

/// A law, with nothing to run: the last of two edges that are set counts.
pub fn last_edge_counts()
    ensures { LastEdgeCounts }
{}
