//! The typed tree.
ghost use Rattle.promql_ast.specs.declared.tree.Node.TheVariants.{Aggregate as Aggregated, Call, Negate, Pair, Paren, Subquery};
ghost use Rattle.promql_type.specs.declared.kind.Kind.TheVariants.{Windows};
ghost use Rattle.promql_type.specs.declared.signature.Callee.TheVariants.{Aggregation, Function};
ghost use Rattle.promql_type.specs.Kinds.{both};
ghost use Rattle.promql_type.specs.Settled.{kind_of, settled, settled_pairing};
ghost use Rattle.promql_type.specs.Signatures.{signature};
ghost use Rattle.std.specs.Prelude.{◌≡◌, map, IfOk};

use crate::kind::{Kind, both};
use crate::rules::is_scalar;
use crate::signature::{Callee, signature};
use func_table::{Aggregate, Func};
use holders::{Boxed, Items};
use label_set::{Card, Grouping, Pairing};
use promql_ast::{Expr, Moment, Node};
use std::alloc::{AllocError, Global};
use ticks::Ms;
use xfrac::PairOp;

/// A typed tree, and what it gives.
#[derive(Drop)]
pub struct Settled {
    pub tree: Expr,
    pub gives: Kind,
}

/// The pairing between two kinds.
fn settled_pairing(alloc: Global, left: Kind, right: Kind, pairing: Pairing) -> Pairing
    ensures { result ≡ settled_pairing left right pairing }
{
    if (is_scalar(left) || is_scalar(right)) && pairing.names.as_slice().is_empty() {
        return Pairing {
            on: false,
            names: Items::new(alloc),
            card: Card::OneToOne,
            extra: Items::new(alloc),
        };
    }
    pairing
}

/// A typed tree in parentheses, and what it gives.
fn settled_paren(alloc: Global, inner: Settled) -> Result<(Node, Kind), AllocError>
    ensures { IfOk result (λ r. r ≡ (Paren inner.tree, inner.gives)) }
{
    Ok((Node::Paren(Boxed::new(alloc, inner.tree)?), inner.gives))
}

/// A sign before a typed tree, and what it gives.
fn settled_sign(alloc: Global, inner: Settled) -> Result<(Node, Kind), AllocError>
    ensures { IfOk result (λ r. r ≡ (Negate inner.tree, both inner.gives inner.gives)) }
{
    let gives = both(inner.gives, inner.gives);
    Ok((Node::Negate(Boxed::new(alloc, inner.tree)?), gives))
}

/// A subquery over a typed tree, and what it gives.
fn settled_subquery(
    alloc: Global,
    inner: Settled,
    range: Ms,
    step: Ms,
    moment: Moment,
) -> Result<(Node, Kind), AllocError>
    ensures { IfOk result (λ r. r ≡ (Subquery inner.tree range step moment, Windows)) }
{
    let inner = Boxed::new(alloc, inner.tree)?;
    let node = Node::Subquery {
        inner,
        range,
        step,
        moment,
    };
    Ok((node, Kind::Windows))
}

/// A call of typed trees, and what it gives.
fn settled_call(function: Func, arguments: Items<Expr>) -> (Node, Kind)
    ensures { result ≡ (Call function arguments, (signature (Function function)).gives) }
{
    let gives = signature(Callee::Function(function)).gives;
    (Node::Call(function, arguments), gives)
}

/// An aggregation of typed trees, and what it gives.
fn settled_aggregation(
    aggregate: Aggregate,
    grouping: Grouping,
    arguments: Items<Expr>,
) -> (Node, Kind)
    ensures { result ≡ (Aggregated aggregate grouping arguments, (signature (Aggregation aggregate)).gives) }
{
    let gives = signature(Callee::Aggregation(aggregate)).gives;
    (Node::Aggregate(aggregate, grouping, arguments), gives)
}

/// An operator between typed trees, and what it gives.
fn settled_pair(
    alloc: Global,
    op: PairOp,
    left: Settled,
    right: Settled,
    pairing: Pairing,
) -> Result<(Node, Kind), AllocError>
    ensures { IfOk result (λ r. r ≡ (Pair op left.tree right.tree (settled_pairing left.gives right.gives pairing), both left.gives right.gives)) }
{
    let pairing = settled_pairing(alloc, left.gives, right.gives, pairing);
    let gives = both(left.gives, right.gives);
    let left = Boxed::new(alloc, left.tree)?;
    let right = Boxed::new(alloc, right.tree)?;
    Ok((Node::Pair(op, left, right, pairing), gives))
}

/// The typed tree of a tree, and what it gives. The only error is want of memory.
#[cycle(settling)]
pub fn settle(alloc: Global, e: Expr) -> Result<Settled, AllocError>
    ensures tree { IfOk result (λ s. s.tree ≡ settled e) }
    ensures gives { IfOk result (λ s. s.gives ≡ kind_of s.tree) }
{
    let Expr { at, node } = e;
    let (node, gives) = match node {
        Node::Number(value) => (Node::Number(value), Kind::Scalar),
        Node::Words(text) => (Node::Words(text), Kind::Words),
        Node::Select(selector) => (Node::Select(selector), Kind::Vector),
        Node::Range(selector, range) => (Node::Range(selector, range), Kind::Windows),
        Node::Paren(inner) => settled_paren(alloc, settle(alloc, inner.into_inner())?)?,
        Node::Negate(inner) => settled_sign(alloc, settle(alloc, inner.into_inner())?)?,
        Node::Subquery {
            inner,
            range,
            step,
            moment,
        } => {
            let inner = settle(alloc, inner.into_inner())?;
            settled_subquery(alloc, inner, range, step, moment)?
        }
        Node::Call(function, arguments) => settled_call(function, settle_all(alloc, arguments)?),
        Node::Aggregate(aggregate, grouping, arguments) => {
            settled_aggregation(aggregate, grouping, settle_all(alloc, arguments)?)
        }
        Node::Pair(op, left, right, pairing) => {
            let left = settle(alloc, left.into_inner())?;
            let right = settle(alloc, right.into_inner())?;
            settled_pair(alloc, op, left, right, pairing)?
        }
        Node::Set(op, left, right, pairing) => {
            let left = Boxed::new(alloc, settle(alloc, left.into_inner())?.tree)?;
            let right = Boxed::new(alloc, settle(alloc, right.into_inner())?.tree)?;
            (Node::Set(op, left, right, pairing), Kind::Vector)
        }
    };
    Ok(Settled {
        tree: Expr { at, node },
        gives,
    })
}

#[cycle(settling)]
fn settle_all(alloc: Global, arguments: Items<Expr>) -> Result<Items<Expr>, AllocError>
    ensures { IfOk result (λ trees. trees ≡ map settled arguments) }
{
    let mut trees = Items::new(alloc);
    for e in arguments.into_vec() {
        trees.push(settle(alloc, e)?.tree)?;
    }
    Ok(trees)
}
