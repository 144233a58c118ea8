//! The type of a tree, and the refusal that is answered of it.
ghost use Rattle.promql_type.specs.Judging.{arguments_refusals, call_refusals, judged, literal_at, strings_refusals};
ghost use Rattle.promql_type.specs.Kinds.{both};
ghost use Rattle.promql_type.specs.Refusals.{least, lesser};
ghost use Rattle.promql_type.specs.Rules.{argument_refusals, operand_refusals, pair_refusals, set_refusals};
ghost use Rattle.promql_type.specs.Signatures.{signature};
ghost use Rattle.promql_type.specs.declared.kind.Kind.TheVariants.{Vector, Windows};
ghost use Rattle.std.specs.Prelude.{◌≡◌, map, Some};

use crate::kind::{Kind, Operand, both};
use crate::least::lesser;
use crate::literal::Literal;
use crate::rules::{
    argument_refusal, count_refusal, label_refusal, operand_refusal, pair_refusal, set_refusal,
    template_refusal,
};
use crate::signature::{Callee, argument, signature};
use func_table::{Aggregate, Func};
use label_set::Pairing;
use promql_ast::{Expr, Node, QueryRefusal};
use xfrac::PairOp;

/// Where a tree begins and what it gives, and the least of its refusals.
#[derive(Drop)]
pub struct Judged {
    pub operand: Operand,
    pub least: Option<QueryRefusal>,
}

/// The string that a tree is, parentheses dropped.
pub fn literal(e: &Expr) -> Option<Literal<'_>>
    ensures { result ≡ (judged e.now).literal }
{
    match &e.node {
        Node::Words(text) => Some(Literal {
            at: e.at,
            text: text.as_str(),
        }),
        Node::Paren(inner) => literal(inner.get()),
        _ => None,
    }
}

/// The string that the argument of a number, counted from 0, is.
pub fn literal_at(arguments: &[Expr], number: usize) -> Option<Literal<'_>>
    ensures { result ≡ literal_at (map judged arguments.now) number }
{
    match arguments.get(number) {
        Some(e) => literal(e),
        None => None,
    }
}

#[tactic(auto, using(crate::proofs::Leasts::least_append))]
/// The refusal of what the strings of a call say.
fn strings_refusal(callee: Callee, arguments: &[Expr]) -> Option<QueryRefusal>
    ensures { result ≡ least (strings_refusals callee (map judged arguments.now)) }
{
    match callee {
        Callee::Function(Func::LabelReplace) => {
            let target = label_refusal(literal_at(arguments, 1));
            lesser(target, template_refusal(literal_at(arguments, 2)))
        }
        Callee::Function(Func::LabelJoin) => label_refusal(literal_at(arguments, 1)),
        Callee::Aggregation(Aggregate::CountValues) => label_refusal(literal_at(arguments, 0)),
        _ => None,
    }
}

/// What a node at a place gives, and its least refusal.
const fn placed(at: u32, gives: Kind, least: Option<QueryRefusal>) -> Judged
    ensures { result ≡ record { operand = record { at = at; gives = gives }; least = least } }
{
    Judged {
        operand: Operand { at, gives },
        least,
    }
}

/// A sign before an operand.
fn judged_sign(inner: Judged, at: u32) -> Judged
    ensures operand { result.operand ≡ record { at = at; gives = both inner.operand.gives inner.operand.gives } }
    ensures least { result.least ≡ lesser inner.least (least (operand_refusals inner.operand)) }
{
    let gives = both(inner.operand.gives, inner.operand.gives);
    placed(
        at,
        gives,
        lesser(inner.least, operand_refusal(inner.operand)),
    )
}

/// A subquery over an operand.
fn judged_subquery(inner: Judged, at: u32) -> Judged
    ensures operand { result.operand ≡ record { at = at; gives = Windows } }
    ensures least { result.least ≡ lesser inner.least (least (argument_refusals (Some Vector) inner.operand)) }
{
    let wrong = argument_refusal(Some(Kind::Vector), inner.operand);
    placed(at, Kind::Windows, lesser(inner.least, wrong))
}

/// An arithmetic or a comparison operator between two operands.
fn judged_pair(op: PairOp, pairing: &Pairing, left: Judged, right: Judged, at: u32) -> Judged
    ensures operand { result.operand ≡ record { at = at; gives = both left.operand.gives right.operand.gives } }
    ensures least { result.least
        ≡ lesser (lesser left.least right.least) (least (pair_refusals op pairing.now left.operand right.operand at)) }
{
    let own = pair_refusal(op, pairing, left.operand, right.operand, at);
    let gives = both(left.operand.gives, right.operand.gives);
    placed(at, gives, lesser(lesser(left.least, right.least), own))
}

/// A set operator between two operands.
fn judged_set(pairing: &Pairing, left: Judged, right: Judged, at: u32) -> Judged
    ensures operand { result.operand ≡ record { at = at; gives = Vector } }
    ensures least { result.least ≡ lesser (lesser left.least right.least) (least (set_refusals pairing.now left.operand right.operand at)) }
{
    let own = set_refusal(pairing, left.operand, right.operand, at);
    placed(
        at,
        Kind::Vector,
        lesser(lesser(left.least, right.least), own),
    )
}

/// The type of a tree, and the least of its refusals. It takes no memory.
#[tactic(auto, using(crate::proofs::Judged::least_negate, crate::proofs::Judged::least_subquery, crate::proofs::Judged::least_call, crate::proofs::Judged::least_aggregate, crate::proofs::Judged::least_pair, crate::proofs::Judged::least_set))]
#[cycle(judging)]
pub fn judge(e: &Expr) -> Judged
    ensures operand { result.operand ≡ (judged e.now).operand }
    ensures least { result.least ≡ least (judged e.now).refusals }
{
    match &e.node {
        Node::Number(_) => placed(e.at, Kind::Scalar, None),
        Node::Words(_) => placed(e.at, Kind::Words, None),
        Node::Select(_) => placed(e.at, Kind::Vector, None),
        Node::Range(_, _) => placed(e.at, Kind::Windows, None),
        Node::Paren(inner) => {
            let inner = judge(inner.get());
            placed(e.at, inner.operand.gives, inner.least)
        }
        Node::Negate(inner) => judged_sign(judge(inner.get()), e.at),
        Node::Subquery { inner, .. } => judged_subquery(judge(inner.get()), e.at),
        Node::Call(function, arguments) => {
            judge_call(Callee::Function(*function), arguments.as_slice(), e.at)
        }
        Node::Aggregate(aggregate, _, arguments) => {
            judge_call(Callee::Aggregation(*aggregate), arguments.as_slice(), e.at)
        }
        Node::Pair(op, left, right, pairing) => {
            let left = judge(left.get());
            judged_pair(*op, pairing, left, judge(right.get()), e.at)
        }
        Node::Set(_, left, right, pairing) => {
            let left = judge(left.get());
            judged_set(pairing, left, judge(right.get()), e.at)
        }
    }
}

#[tactic(auto, using(crate::proofs::Leasts::least_append))]
#[cycle(judging)]
fn judge_call(callee: Callee, arguments: &[Expr], at: u32) -> Judged
    ensures operand { result.operand ≡ record { at = at; gives = (signature callee).gives } }
    ensures least { result.least ≡ least (call_refusals callee (map judged arguments.now) at) }
{
    let count = count_refusal(callee, arguments.len(), at);
    let inner = judge_arguments(callee, arguments);
    let strings = strings_refusal(callee, arguments);
    placed(
        at,
        signature(callee).gives,
        lesser(count, lesser(inner, strings)),
    )
}

/// The least refusal of arguments and of their kinds.
#[tactic(auto, using(crate::proofs::Leasts::least_append))]
#[cycle(judging)]
fn judge_arguments(callee: Callee, arguments: &[Expr]) -> Option<QueryRefusal>
    ensures { result ≡ least (arguments_refusals (signature callee) 0 (map judged arguments.now)) }
{
    let mut least = None;
    for (number, e) in arguments.iter().enumerate() {
        let judged = judge(e);
        let wrong = argument_refusal(argument(callee, number), judged.operand);
        least = lesser(least, lesser(judged.least, wrong));
    }
    least
}
