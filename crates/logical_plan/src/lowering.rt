//! The plan of a tree, node by node.
ghost use Rattle.std.specs.Prelude.{◌≡◌, ◌∷◌, [], map, drop, slice_get, IfOk};
ghost use Rattle.logical_plan.specs.Lowering.{absent_over_node as node_of_absent_over, call_node, element_node, group_node, instant_or, join_node, low, minus_node as minus_of, nothing_node as node_of_nothing, pattern_or, plan_at, planned as planned_at, plans_of, replace_node, rules_or, selects_or, stamp_node, window_node, windows_or, all_words as words_of_all};
ghost use Rattle.promql_meaning.specs.Absences.{absent_labels as labels_of_absent};
ghost use Rattle.promql_type.specs.TypedTrees.{pattern_at, placed_of};

use crate::nodes::{Plan, PlanNode};
use crate::parts::{
    first_gives_scalar, first_gives_windows, first_rules, first_selector, words, words_in,
};
use func_table::{Aggregate, Element, Func, Window};
use holders::{Boxed, Items, Text};
use label_set::{Grouping, PatternId, Relabel};
use promql_ast::{Expr, Node, Selector};
use promql_type::Typed;
use std::alloc::{AllocError, Global};
use step_rules::absent_labels;
use xfrac::whole;

/// A node at a place.
fn planned(at: u32, node: PlanNode) -> Plan
    ensures { result ≡ planned_at at node }
{
    Plan { at, node }
}

fn boxed(alloc: Global, at: u32, node: PlanNode) -> Result<Boxed<Plan>, AllocError>
    ensures { IfOk result (λ p. p ≡ planned_at at node) }
{
    Boxed::new(alloc, planned(at, node))
}

/// A node that gives no rows.
fn nothing_node(alloc: Global, at: u32) -> Result<PlanNode, AllocError>
    ensures { IfOk result (λ n. n ≡ node_of_nothing at) }
{
    let row = boxed(alloc, at, PlanNode::Number(whole(0)))?;
    let mut arguments = Items::new(alloc);
    arguments.push(planned(at, PlanNode::Number(whole(0))))?;
    arguments.push(planned(at, PlanNode::VectorOf(row)))?;
    let by = Grouping {
        without: false,
        names: Items::new(alloc),
    };
    Ok(PlanNode::Group(Aggregate::TopK, by, arguments, Text::of(alloc, "")?))
}

/// The plan of a part of a typed tree.
#[cycle(lowering)]
pub fn lower_part(alloc: Global, typed: &Typed, e: &Expr) -> Result<Plan, AllocError>
    ensures { IfOk result (λ p. p ≡ (low e.now).plan (placed_of typed.now)) }
{
    let at = e.at;
    match &e.node {
        Node::Number(value) => Ok(planned(at, PlanNode::Number(*value))),
        Node::Words(_) => Ok(planned(at, nothing_node(alloc, at)?)),
        Node::Paren(inner) => lower_part(alloc, typed, inner.get()),
        Node::Negate(inner) => {
            let inner = lower_boxed(alloc, typed, inner)?;
            let arguments = Items::new(alloc);
            Ok(planned(at, PlanNode::Element(Element::Neg, inner, arguments)))
        }
        Node::Select(selector) => Ok(planned(at, select_node(selector, false)?)),
        Node::Range(selector, range) => {
            let rules = selector.rules.copy()?;
            let node = PlanNode::Range {
                rules,
                moment: selector.moment,
                range: *range,
            };
            Ok(planned(at, node))
        }
        Node::Subquery {
            inner,
            range,
            step,
            moment,
        } => {
            let inner = lower_boxed(alloc, typed, inner)?;
            let node = PlanNode::Subquery {
                inner,
                range: *range,
                step: *step,
                moment: *moment,
            };
            Ok(planned(at, node))
        }
        Node::Call(f, arguments) => {
            let node = lower_call(alloc, typed, *f, at, arguments.as_slice())?;
            Ok(planned(at, node))
        }
        Node::Aggregate(f, by, arguments) => {
            let node = lower_group(alloc, typed, *f, by, at, arguments.as_slice())?;
            Ok(planned(at, node))
        }
        Node::Pair(op, left, right, pairing) => {
            let left = lower_boxed(alloc, typed, left)?;
            let right = lower_boxed(alloc, typed, right)?;
            Ok(planned(at, PlanNode::Pair(*op, left, right, pairing.copy()?)))
        }
        Node::Set(op, left, right, pairing) => {
            let left = lower_boxed(alloc, typed, left)?;
            let right = lower_boxed(alloc, typed, right)?;
            Ok(planned(at, PlanNode::Set(*op, left, right, pairing.copy()?)))
        }
    }
}

fn select_node(selector: &Selector, stamped: bool) -> Result<PlanNode, AllocError>
    ensures { IfOk result (λ n. n ≡ PlanNode.Select selector.now.rules selector.now.moment stamped) }
{
    let rules = selector.rules.copy()?;
    Ok(PlanNode::Select {
        rules,
        moment: selector.moment,
        stamped,
    })
}

#[cycle(lowering)]
fn lower_boxed(alloc: Global, typed: &Typed, e: &Boxed<Expr>) -> Result<Boxed<Plan>, AllocError>
    ensures { IfOk result (λ p. p ≡ (low e.now).plan (placed_of typed.now)) }
{
    Boxed::new(alloc, lower_part(alloc, typed, e.get())?)
}

#[cycle(lowering)]
fn lower_all(alloc: Global, typed: &Typed, all: &[Expr]) -> Result<Items<Plan>, AllocError>
    ensures { IfOk result (λ plans. plans ≡ plans_of (placed_of typed.now) (map low all.now)) }
{
    let mut plans = Items::new(alloc);
    for e in all {
        plans.push(lower_part(alloc, typed, e)?)?;
    }
    Ok(plans)
}

/// The plans of all arguments but the first.
#[cycle(lowering)]
fn lower_rest(alloc: Global, typed: &Typed, all: &[Expr]) -> Result<Items<Plan>, AllocError>
    ensures { IfOk result (λ plans. plans ≡ plans_of (placed_of typed.now) (drop 1 (map low all.now))) }
{
    let mut plans = Items::new(alloc);
    for i in 1..all.len() {
        plans.push(lower_part(alloc, typed, &all[i])?)?;
    }
    Ok(plans)
}

/// The plan of an argument; a missing one gives no rows.
#[cycle(lowering)]
fn lower_at(
    alloc: Global,
    typed: &Typed,
    at: u32,
    all: &[Expr],
    i: usize,
) -> Result<Boxed<Plan>, AllocError>
    ensures { IfOk result (λ p. p ≡ plan_at at (placed_of typed.now) (map low all.now) i) }
{
    match all.get(i) {
        Some(e) => Boxed::new(alloc, lower_part(alloc, typed, e)?),
        None => boxed(alloc, at, nothing_node(alloc, at)?),
    }
}

/// The plan of one argument, as a list.
#[cycle(lowering)]
fn lower_one(
    alloc: Global,
    typed: &Typed,
    at: u32,
    all: &[Expr],
    i: usize,
) -> Result<Items<Plan>, AllocError>
    ensures { IfOk result (λ plans. plans ≡ plan_at at (placed_of typed.now) (map low all.now) i ∷ []) }
{
    let plan = lower_at(alloc, typed, at, all, i)?;
    let mut plans = Items::new(alloc);
    plans.push(plan.into_inner())?;
    Ok(plans)
}

#[cycle(lowering)]
fn lower_call(
    alloc: Global,
    typed: &Typed,
    f: Func,
    at: u32,
    all: &[Expr],
) -> Result<PlanNode, AllocError>
    ensures { IfOk result (λ n. n ≡ call_node f at (map low all.now) (placed_of typed.now)) }
{
    match f {
        Func::Element(f) => lower_element(alloc, typed, f, at, all),
        Func::Window(f) => lower_window(alloc, typed, f, at, all),
        Func::Absent => {
            let labels = absent_labels(alloc, first_rules(all))?;
            let inner = lower_at(alloc, typed, at, all, 0)?;
            Ok(PlanNode::Absent { labels, inner })
        }
        Func::AbsentOver => lower_absent_over(alloc, typed, at, all),
        Func::HistogramQuantile => {
            let quantile = lower_at(alloc, typed, at, all, 0)?;
            let inner = lower_at(alloc, typed, at, all, 1)?;
            Ok(PlanNode::Buckets(quantile, inner))
        }
        Func::LabelJoin => lower_join(alloc, typed, at, all),
        Func::LabelReplace => lower_replace(alloc, typed, at, all),
        Func::Scalar => Ok(PlanNode::ScalarOf(lower_at(alloc, typed, at, all, 0)?)),
        Func::Sort => {
            let inner = lower_at(alloc, typed, at, all, 0)?;
            Ok(PlanNode::Sort { down: false, inner })
        }
        Func::SortDesc => {
            let inner = lower_at(alloc, typed, at, all, 0)?;
            Ok(PlanNode::Sort { down: true, inner })
        }
        Func::Time => Ok(PlanNode::Time),
        Func::Timestamp => lower_stamp(alloc, typed, at, all),
        Func::Vector => Ok(PlanNode::VectorOf(lower_at(alloc, typed, at, all, 0)?)),
    }
}

/// Minus as a function, of a scalar or of anything else.
fn minus_node(
    alloc: Global,
    scalar: bool,
    at: u32,
    inner: Boxed<Plan>,
) -> Result<PlanNode, AllocError>
    ensures { IfOk result (λ n. n ≡ minus_of scalar at inner) }
{
    let minus = PlanNode::Element(Element::Neg, inner, Items::new(alloc));
    if scalar {
        return Ok(PlanNode::VectorOf(boxed(alloc, at, minus)?));
    }
    Ok(minus)
}

#[cycle(lowering)]
fn lower_element(
    alloc: Global,
    typed: &Typed,
    f: Element,
    at: u32,
    all: &[Expr],
) -> Result<PlanNode, AllocError>
    ensures { IfOk result (λ n. n ≡ element_node f at (map low all.now) (placed_of typed.now)) }
{
    match f {
        Element::Neg => {
            let inner = lower_at(alloc, typed, at, all, 0)?;
            minus_node(alloc, first_gives_scalar(all), at, inner)
        }
        Element::Calendar(part) => {
            let inner = lower_instant(alloc, typed, at, all)?;
            let rest = lower_rest(alloc, typed, all)?;
            Ok(PlanNode::Element(Element::Calendar(part), inner, rest))
        }
        f => {
            let inner = lower_at(alloc, typed, at, all, 0)?;
            Ok(PlanNode::Element(f, inner, lower_rest(alloc, typed, all)?))
        }
    }
}

/// The plan of the first argument; where there is none, that of `vector(time())`.
#[cycle(lowering)]
fn lower_instant(
    alloc: Global,
    typed: &Typed,
    at: u32,
    all: &[Expr],
) -> Result<Boxed<Plan>, AllocError>
    ensures { IfOk result (λ p. p ≡ instant_or at (placed_of typed.now) (slice_get (map low all.now) 0)) }
{
    match all.get(0) {
        Some(e) => Boxed::new(alloc, lower_part(alloc, typed, e)?),
        None => {
            let time = boxed(alloc, at, PlanNode::Time)?;
            boxed(alloc, at, PlanNode::VectorOf(time))
        }
    }
}

#[cycle(lowering)]
fn lower_window(
    alloc: Global,
    typed: &Typed,
    f: Window,
    at: u32,
    all: &[Expr],
) -> Result<PlanNode, AllocError>
    ensures { IfOk result (λ n. n ≡ window_node f at (map low all.now) (placed_of typed.now)) }
{
    match f {
        Window::PredictLinear => {
            let inner = lower_at(alloc, typed, at, all, 0)?;
            let more = lower_one(alloc, typed, at, all, 1)?;
            Ok(PlanNode::Window(Window::PredictLinear, inner, more))
        }
        Window::QuantileOver => {
            let more = lower_one(alloc, typed, at, all, 0)?;
            let inner = lower_at(alloc, typed, at, all, 1)?;
            Ok(PlanNode::Window(Window::QuantileOver, inner, more))
        }
        f => {
            let inner = lower_at(alloc, typed, at, all, 0)?;
            Ok(PlanNode::Window(f, inner, Items::new(alloc)))
        }
    }
}

/// `absent_over_time`, over the last value of each window.
#[cycle(lowering)]
fn lower_absent_over(
    alloc: Global,
    typed: &Typed,
    at: u32,
    all: &[Expr],
) -> Result<PlanNode, AllocError>
    ensures { IfOk result (λ n. n ≡ node_of_absent_over (windows_or (slice_get (map low all.now) 0)) (labels_of_absent (rules_or (slice_get (map low all.now) 0))) at (plan_at at (placed_of typed.now) (map low all.now) 0)) }
{
    let labels = absent_labels(alloc, first_rules(all))?;
    let inner = lower_at(alloc, typed, at, all, 0)?;
    if !first_gives_windows(all) {
        return Ok(PlanNode::Absent { labels, inner });
    }
    let last = PlanNode::Window(Window::LastOver, inner, Items::new(alloc));
    let inner = boxed(alloc, at, last)?;
    Ok(PlanNode::Absent { labels, inner })
}

#[cycle(lowering)]
fn lower_stamp(alloc: Global, typed: &Typed, at: u32, all: &[Expr]) -> Result<PlanNode, AllocError>
    ensures { IfOk result (λ n. n ≡ stamp_node (selects_or (slice_get (map low all.now) 0)) (plan_at at (placed_of typed.now) (map low all.now) 0)) }
{
    match first_selector(all) {
        Some((own, selector)) => {
            let times = boxed(alloc, own, select_node(selector, true)?)?;
            Ok(PlanNode::Stamp(times))
        }
        None => Ok(PlanNode::Stamp(lower_at(alloc, typed, at, all, 0)?)),
    }
}

/// The number of the pattern of the label_replace call at a place.
fn pattern_of(typed: &Typed, at: u32) -> PatternId
    ensures { result ≡ pattern_or (pattern_at (placed_of typed.now) at) }
{
    match typed.pattern(at) {
        Some(id) => id,
        None => PatternId(0),
    }
}

#[cycle(lowering)]
fn lower_replace(
    alloc: Global,
    typed: &Typed,
    at: u32,
    all: &[Expr],
) -> Result<PlanNode, AllocError>
    ensures { IfOk result (λ n. n ≡ replace_node at (map low all.now) (placed_of typed.now)) }
{
    let rule = Relabel::Replace {
        target: Text::of(alloc, words_in(all, 1))?,
        template: Text::of(alloc, words_in(all, 2))?,
        source: Text::of(alloc, words_in(all, 3))?,
        pattern: pattern_of(typed, at),
    };
    let inner = lower_at(alloc, typed, at, all, 0)?;
    Ok(PlanNode::Relabel(rule, inner))
}

/// The strings that the arguments from the fourth on are.
fn sources_of(alloc: Global, all: &[Expr]) -> Result<Items<Text>, AllocError>
    ensures { IfOk result (λ texts. texts ≡ words_of_all (drop 3 (map low all.now))) }
{
    let mut sources = Items::new(alloc);
    for i in 3..all.len() {
        sources.push(Text::of(alloc, words(&all[i]))?)?;
    }
    Ok(sources)
}

#[cycle(lowering)]
fn lower_join(alloc: Global, typed: &Typed, at: u32, all: &[Expr]) -> Result<PlanNode, AllocError>
    ensures { IfOk result (λ n. n ≡ join_node at (map low all.now) (placed_of typed.now)) }
{
    let rule = Relabel::Join {
        target: Text::of(alloc, words_in(all, 1))?,
        separator: Text::of(alloc, words_in(all, 2))?,
        sources: sources_of(alloc, all)?,
    };
    let inner = lower_at(alloc, typed, at, all, 0)?;
    Ok(PlanNode::Relabel(rule, inner))
}

#[cycle(lowering)]
fn lower_group(
    alloc: Global,
    typed: &Typed,
    f: Aggregate,
    by: &Grouping,
    at: u32,
    all: &[Expr],
) -> Result<PlanNode, AllocError>
    ensures { IfOk result (λ n. n ≡ group_node f by.now at (map low all.now) (placed_of typed.now)) }
{
    match f {
        Aggregate::CountValues => {
            let vector = lower_one(alloc, typed, at, all, 1)?;
            let label = Text::of(alloc, words_in(all, 0))?;
            Ok(PlanNode::Group(Aggregate::CountValues, by.copy()?, vector, label))
        }
        f => {
            let plans = lower_all(alloc, typed, all)?;
            Ok(PlanNode::Group(f, by.copy()?, plans, Text::of(alloc, "")?))
        }
    }
}
