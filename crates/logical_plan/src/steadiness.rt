//! What decides where a part of a plan is computed once.
ghost use Rattle.logical_plan.specs.Onces.{Onced, once_of};
ghost use Rattle.logical_plan.specs.Steadiness.{all_of, both as both_of, constant as constant_of, is_once, is_selector_first, is_steady as is_steady_of, is_still_call as is_still_call_of, is_table as is_table_of, known_part as known_part_of, selected as selected_at, still_if as still_where};
ghost use Rattle.promql_meaning.specs.Steadiness.{has_fixed as is_fixed, steady_window};
ghost use Rattle.std.specs.Prelude.{◌≡◌, false, map};

use crate::nodes::{Plan, PlanNode};
use func_table::{Element, Func, Window};
use promql_ast::{Expr, Moment, Node};
use step_table::PartKind;

/// What a part of a plan is: whether it gives numbers or a vector, and no windows; whether it has a selector; whether each of
/// its selectors and subqueries has a fixed time, or stands in a subquery of it that has one; whether nothing in it reads the
/// instant; and whether its rows are its samples' own times. An expression is known by the same, and whether it is a selector.
#[derive(Clone, Copy, Debug, PartialEq, Eq)]
pub struct Facts {
    pub table: bool,
    pub selects: bool,
    pub fixed: bool,
    pub still: bool,
    pub own: bool,
}

const fn constant() -> Facts
    ensures { result ≡ constant_of }
{
    Facts {
        table: true,
        selects: false,
        fixed: true,
        still: true,
        own: false,
    }
}

fn has_fixed(moment: &Moment) -> bool
    ensures { result ≡ is_fixed moment.now.fixed }
{
    match moment.fixed {
        Some(_) => true,
        None => false,
    }
}

fn selected(moment: &Moment, table: bool, own: bool) -> Facts
    ensures { result ≡ record (selected_at moment.now) { table = table; own = own } }
{
    Facts {
        table,
        selects: true,
        fixed: has_fixed(moment),
        still: true,
        own,
    }
}

const fn both(a: Facts, b: Facts) -> Facts
    ensures { result ≡ both_of a b }
{
    Facts {
        table: true,
        selects: a.selects || b.selects,
        fixed: a.fixed && b.fixed,
        still: a.still && b.still,
        own: false,
    }
}

const fn still_if(still: bool, facts: Facts) -> Facts
    ensures { result ≡ still_where still facts }
{
    Facts {
        table: facts.table,
        selects: facts.selects,
        fixed: facts.fixed,
        still: still && facts.still,
        own: facts.own,
    }
}

fn is_still(f: Window) -> bool
    ensures { result ≡ steady_window f }
{
    match f {
        Window::PredictLinear => false,
        _ => true,
    }
}

fn is_steady(facts: Facts) -> bool
    ensures { result ≡ is_steady_of facts }
{
    facts.fixed && facts.still
}

/// Whether a part of a plan is computed once, where no part above it is.
pub fn is_once(facts: Facts) -> bool
    ensures { result ≡ is_once facts }
{
    facts.table && facts.selects && is_steady(facts)
}

/// What a plan is. It takes no memory.
#[cycle(knowing)]
pub fn known(p: &Plan) -> Facts
    ensures { result ≡ (once_of p.now).facts }
{
    match &p.node {
        PlanNode::Number(_) => constant(),
        PlanNode::Time => still_if(false, constant()),
        PlanNode::Select {
            moment,
            stamped,
            ..
        } => selected(moment, true, *stamped),
        PlanNode::Range { moment, .. } => selected(moment, false, false),
        PlanNode::Subquery { inner, moment, .. } => {
            let inner = known(inner.get());
            Facts {
                table: false,
                selects: inner.selects,
                fixed: has_fixed(moment),
                still: inner.still,
                own: false,
            }
        }
        PlanNode::Element(_, inner, arguments) => {
            all_known(both(constant(), known(inner.get())), arguments.as_slice())
        }
        PlanNode::Stamp(inner) => {
            let inner = known(inner.get());
            still_if(inner.own, both(constant(), inner))
        }
        PlanNode::Window(f, inner, arguments) => {
            let first = both(constant(), known(inner.get()));
            still_if(is_still(*f), all_known(first, arguments.as_slice()))
        }
        PlanNode::Absent { inner, .. }
        | PlanNode::Relabel(_, inner)
        | PlanNode::Sort { inner, .. }
        | PlanNode::ScalarOf(inner)
        | PlanNode::VectorOf(inner) => both(constant(), known(inner.get())),
        PlanNode::Group(_, _, arguments, _) => all_known(constant(), arguments.as_slice()),
        PlanNode::Buckets(a, b) | PlanNode::Ratio { sum: a, count: b } => {
            both(known(a.get()), known(b.get()))
        }
        PlanNode::Pair(_, a, b, _) => both(known(a.get()), known(b.get())),
        PlanNode::Set(_, a, b, _) => both(known(a.get()), known(b.get())),
        PlanNode::Filter { base, .. } => {
            let base = known(base.get());
            Facts {
                table: base.table,
                selects: base.selects,
                fixed: base.fixed,
                still: base.still,
                own: false,
            }
        }
        PlanNode::Once(inner) => known(inner.get()),
        PlanNode::Gather { expr, kind, .. } => gathered(known_part(expr), kind),
    }
}

#[cycle(knowing)]
fn all_known(first: Facts, plans: &[Plan]) -> Facts
    ensures { result ≡ all_of first (map (λ (o : Onced). o.facts) (map once_of plans.now)) }
{
    let mut found = first;
    for p in plans {
        found = both(found, known(p));
    }
    found
}

fn is_table(kind: &PartKind) -> bool
    ensures { result ≡ is_table_of kind.now }
{
    match kind {
        PartKind::Windows => false,
        PartKind::Rows | PartKind::Partial(_, _) => true,
    }
}

/// What a part is that engines are asked for, of what its expression is.
fn gathered(facts: Facts, kind: &PartKind) -> Facts
    ensures { result ≡ record facts { table = is_table_of kind.now; own = false } }
{
    Facts {
        table: is_table(kind),
        selects: facts.selects,
        fixed: facts.fixed,
        still: facts.still,
        own: false,
    }
}

/// What an expression is. It takes no memory.
#[cycle(asking)]
fn known_part(e: &Expr) -> Facts
    ensures { result ≡ known_part_of e.now }
{
    match &e.node {
        Node::Number(_) | Node::Words(_) => constant(),
        Node::Paren(inner) => known_part(inner.get()),
        Node::Negate(inner) => both(constant(), known_part(inner.get())),
        Node::Select(selector) => selected(&selector.moment, true, true),
        Node::Range(selector, _) => selected(&selector.moment, false, false),
        Node::Subquery { inner, moment, .. } => {
            let inner = known_part(inner.get());
            Facts {
                table: false,
                selects: inner.selects,
                fixed: has_fixed(moment),
                still: inner.still,
                own: false,
            }
        }
        Node::Call(f, arguments) => {
            let still = is_still_call(*f, arguments.as_slice());
            still_if(still, all_parts_known(arguments.as_slice()))
        }
        Node::Aggregate(_, _, arguments) => all_parts_known(arguments.as_slice()),
        Node::Pair(_, a, b, _) => both(known_part(a.get()), known_part(b.get())),
        Node::Set(_, a, b, _) => both(known_part(a.get()), known_part(b.get())),
    }
}

#[cycle(asking)]
fn all_parts_known(parts: &[Expr]) -> Facts
    ensures { result ≡ all_of constant_of (map known_part_of parts.now) }
{
    let mut found = constant();
    for e in parts {
        found = both(found, known_part(e));
    }
    found
}

/// Whether a call doesn't read the instant.
#[cycle(asking)]
fn is_still_call(f: Func, arguments: &[Expr]) -> bool
    ensures { result ≡ is_still_call_of f (map known_part_of arguments.now) }
{
    match f {
        Func::Element(Element::Calendar(_)) => !arguments.is_empty(),
        Func::Window(f) => is_still(f),
        Func::Time => false,
        Func::Timestamp => is_selector_first(arguments),
        _ => true,
    }
}

#[cycle(asking)]
fn is_selector_first(arguments: &[Expr]) -> bool
    ensures { result ≡ is_selector_first (map known_part_of arguments.now) }
{
    match arguments.get(0) {
        Some(e) => known_part(e).own,
        None => false,
    }
}
