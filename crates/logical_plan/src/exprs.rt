//! The expression of a plan, which an engine is asked for.
ghost use Rattle.logical_plan.specs.PartExprs.{IsAskable, IsRangeSelector, IsTaken, element_expression, expressed, expression_of, group_arguments, relabel_expression, sort_function, window_expression, worded};
ghost use Rattle.logical_plan.specs.PlanMeaning.{plan_meaning};
ghost use Rattle.logical_plan.specs.PlanRules.{pattern_text, selector_of};
ghost use Rattle.logical_plan.specs.Shown.{shown};
ghost use Rattle.func_table.specs.declared.table.Func.TheVariants.{HistogramQuantile, LabelJoin};
ghost use Rattle.promql_ast.specs.declared.tree.Node.TheVariants.{Aggregate as Aggregated, Call as Called, Pair as Paired, Paren, Range as Ranging, Select as Selecting, Set as Combined};
ghost use Rattle.promql_meaning.specs.Meaning.{meaning};
ghost use Rattle.promql_meaning.specs.Selecting.{Asked};
ghost use Rattle.std.specs.Prelude.{◌≡◌, ◌∷◌, ◌++◌, ◌⊎◌, [], ℕ, ℤ, map, IfOk};

use crate::nodes::{Plan, PlanNode};
use func_table::{Aggregate, Element, Func, SetOp, Window};
use holders::{Boxed, Items, Text};
use label_set::{Grouping, Pairing, PatternId, Relabel, Rule};
use match_rule::Patterns;
use promql_ast::{Expr, Moment, Node, Selector};
use std::alloc::{AllocError, Global};
use ticks::Ms;
use xfrac::PairOp;

/// The expression of a plan, which an engine is asked for: a node for each of its nodes, at their places, and the text of each
/// pattern. It means what the plan means, rows, notes and marks, on every list of samples, at every instant and under every grid, and
/// it is a range selector or an expression that `check` takes with these patterns. That holds of a valid plan without Absent, Filter,
/// Ratio, Once and Gather nodes that is no subquery itself and whose patterns are kept. The only error is want of memory. (This project's
/// own.)
pub fn part_expr(alloc: Global, p: &Plan, patterns: &Patterns<'_>) -> Result<Expr, AllocError>
    ensures expr { IfOk result (λ e. e ≡ expression_of patterns.now p.now) }
    ensures means { IfOk result (λ e. (longest latest : ℕ) (asked : Asked) (t : ℤ) → asked.kept ≡ patterns.now → IsAskable longest latest patterns.now p.now → shown (meaning asked e t) ≡ plan_meaning asked p.now t) }
    ensures taken { IfOk result (λ e. (longest latest : ℕ) → IsAskable longest latest patterns.now p.now → IsRangeSelector e ⊎ IsTaken patterns.now e) }
{
    let e = expression(alloc, p, patterns)?;
    Ok(e)
}

/// A node at a place.
fn at_place(at: u32, node: Node) -> Expr
    ensures { result ≡ expressed at node }
{
    Expr { at, node }
}

/// A string at a place.
fn string(alloc: Global, at: u32, text: &str) -> Result<Expr, AllocError>
    ensures { IfOk result (λ e. e ≡ worded at text.now) }
{
    Ok(at_place(at, Node::Words(Text::of(alloc, text)?)))
}

/// The series that pass all rules, at a moment.
fn selector(rules: &Items<Rule>, moment: Moment) -> Result<Selector, AllocError>
    ensures { IfOk result (λ s. s ≡ selector_of rules.now moment) }
{
    let rules = rules.copy()?;
    Ok(Selector { rules, moment })
}

/// The text of the pattern of a number; of a number that no pattern has it is empty.
fn pattern_text<'a>(patterns: &'a Patterns<'_>, id: PatternId) -> &'a str
    ensures { result.now ≡ pattern_text patterns.now id }
{
    if (id.0 as usize) < patterns.len() {
        patterns.text(id)
    } else {
        ""
    }
}

const fn sort_function(down: bool) -> Func
    ensures { result ≡ sort_function down }
{
    if down { Func::SortDesc } else { Func::Sort }
}

#[cycle(expressing)]
fn expression(alloc: Global, p: &Plan, patterns: &Patterns<'_>) -> Result<Expr, AllocError>
    ensures { IfOk result (λ e. e ≡ expression_of patterns.now p.now) }
{
    let at = p.at;
    match &p.node {
        PlanNode::Number(value) => Ok(at_place(at, Node::Number(*value))),
        PlanNode::Time => Ok(at_place(at, Node::Call(Func::Time, Items::new(alloc)))),
        PlanNode::Select { rules, moment, .. } => instant_selector(at, rules, *moment),
        PlanNode::Range {
            rules,
            moment,
            range,
        } => range_selector(at, rules, *moment, *range),
        PlanNode::Subquery {
            inner,
            range,
            step,
            moment,
        } => {
            let inner = boxed(alloc, inner, patterns)?;
            let node = Node::Subquery {
                inner,
                range: *range,
                step: *step,
                moment: *moment,
            };
            Ok(at_place(at, node))
        }
        PlanNode::Element(f, inner, more) => {
            let more = all(alloc, more, patterns)?;
            element_over(alloc, at, *f, inner, more, patterns)
        }
        PlanNode::Stamp(inner) => call_over(alloc, at, Func::Timestamp, inner, patterns),
        PlanNode::Window(f, inner, more) => {
            let more = all(alloc, more, patterns)?;
            window_over(alloc, at, *f, inner, more, patterns)
        }
        PlanNode::Buckets(quantile, inner) => {
            let inner = expression(alloc, inner.get(), patterns)?;
            buckets_over(alloc, at, quantile, inner, patterns)
        }
        PlanNode::Relabel(rule, inner) => relabel_over(alloc, at, rule, inner, patterns),
        PlanNode::Sort { down, inner } => {
            call_over(alloc, at, sort_function(*down), inner, patterns)
        }
        PlanNode::ScalarOf(inner) => call_over(alloc, at, Func::Scalar, inner, patterns),
        PlanNode::VectorOf(inner) => call_over(alloc, at, Func::Vector, inner, patterns),
        PlanNode::Group(f, by, plans, label) => {
            group(alloc, at, *f, by, all(alloc, plans, patterns)?, label)
        }
        PlanNode::Pair(op, left, right, pairing) => {
            let right = boxed(alloc, right, patterns)?;
            pair_over(alloc, at, *op, left, right, pairing, patterns)
        }
        PlanNode::Set(op, left, right, pairing) => {
            let right = boxed(alloc, right, patterns)?;
            set_over(alloc, at, *op, left, right, pairing, patterns)
        }
        PlanNode::Absent { inner, .. }
        | PlanNode::Filter { base: inner, .. }
        | PlanNode::Ratio { sum: inner, .. }
        | PlanNode::Once(inner) => in_parentheses(alloc, at, inner, patterns),
        PlanNode::Gather { expr, .. } => copy_in_parentheses(alloc, at, expr),
    }
}

#[cycle(expressing)]
fn element_over(
    alloc: Global,
    at: u32,
    f: Element,
    inner: &Boxed<Plan>,
    more: Items<Expr>,
    patterns: &Patterns<'_>,
) -> Result<Expr, AllocError>
    ensures { IfOk result (λ e. e ≡ expressed at (element_expression f (expression_of patterns.now inner.now) more)) }
{
    let first = expression(alloc, inner.get(), patterns)?;
    element(alloc, at, f, first, more)
}

#[cycle(expressing)]
fn window_over(
    alloc: Global,
    at: u32,
    f: Window,
    inner: &Boxed<Plan>,
    more: Items<Expr>,
    patterns: &Patterns<'_>,
) -> Result<Expr, AllocError>
    ensures { IfOk result (λ e. e ≡ expressed at (window_expression f (expression_of patterns.now inner.now) more)) }
{
    let windows = expression(alloc, inner.get(), patterns)?;
    window(at, f, windows, more)
}

#[cycle(expressing)]
fn buckets_over(
    alloc: Global,
    at: u32,
    quantile: &Boxed<Plan>,
    inner: Expr,
    patterns: &Patterns<'_>,
) -> Result<Expr, AllocError>
    ensures { IfOk result (λ e. e ≡ expressed at (Called HistogramQuantile (expression_of patterns.now quantile.now ∷ inner ∷ []))) }
{
    let quantile = expression(alloc, quantile.get(), patterns)?;
    buckets(alloc, at, quantile, inner)
}

#[cycle(expressing)]
fn pair_over(
    alloc: Global,
    at: u32,
    op: PairOp,
    left: &Boxed<Plan>,
    right: Boxed<Expr>,
    pairing: &Pairing,
    patterns: &Patterns<'_>,
) -> Result<Expr, AllocError>
    ensures { IfOk result (λ e. e ≡ expressed at (Paired op (expression_of patterns.now left.now) right pairing.now)) }
{
    let left = boxed(alloc, left, patterns)?;
    pair(at, op, left, right, pairing)
}

#[cycle(expressing)]
fn set_over(
    alloc: Global,
    at: u32,
    op: SetOp,
    left: &Boxed<Plan>,
    right: Boxed<Expr>,
    pairing: &Pairing,
    patterns: &Patterns<'_>,
) -> Result<Expr, AllocError>
    ensures { IfOk result (λ e. e ≡ expressed at (Combined op (expression_of patterns.now left.now) right pairing.now)) }
{
    let left = boxed(alloc, left, patterns)?;
    set(at, op, left, right, pairing)
}

/// A call of a function of one argument.
#[cycle(expressing)]
fn call_over(
    alloc: Global,
    at: u32,
    f: Func,
    inner: &Boxed<Plan>,
    patterns: &Patterns<'_>,
) -> Result<Expr, AllocError>
    ensures { IfOk result (λ e. e ≡ expressed at (Called f (expression_of patterns.now inner.now ∷ []))) }
{
    let first = expression(alloc, inner.get(), patterns)?;
    call(alloc, at, f, first)
}

/// A change of labels as a call.
#[cycle(expressing)]
fn relabel_over(
    alloc: Global,
    at: u32,
    rule: &Relabel,
    inner: &Boxed<Plan>,
    patterns: &Patterns<'_>,
) -> Result<Expr, AllocError>
    ensures { IfOk result (λ e. e ≡ expressed at (relabel_expression patterns.now rule.now at (expression_of patterns.now inner.now))) }
{
    let first = expression(alloc, inner.get(), patterns)?;
    relabelled(alloc, at, rule, first, patterns)
}

#[cycle(expressing)]
fn in_parentheses(
    alloc: Global,
    at: u32,
    inner: &Boxed<Plan>,
    patterns: &Patterns<'_>,
) -> Result<Expr, AllocError>
    ensures { IfOk result (λ e. e ≡ expressed at (Paren (expression_of patterns.now inner.now))) }
{
    let inner = boxed(alloc, inner, patterns)?;
    Ok(at_place(at, Node::Paren(inner)))
}

fn copy_in_parentheses(alloc: Global, at: u32, e: &Expr) -> Result<Expr, AllocError>
    ensures { IfOk result (λ copy. copy ≡ expressed at (Paren e.now)) }
{
    let inner = Boxed::new(alloc, e.copy()?)?;
    Ok(at_place(at, Node::Paren(inner)))
}

fn instant_selector(at: u32, rules: &Items<Rule>, moment: Moment) -> Result<Expr, AllocError>
    ensures { IfOk result (λ e. e ≡ expressed at (Selecting (selector_of rules.now moment))) }
{
    let selector = selector(rules, moment)?;
    Ok(at_place(at, Node::Select(selector)))
}

fn range_selector(
    at: u32,
    rules: &Items<Rule>,
    moment: Moment,
    range: Ms,
) -> Result<Expr, AllocError>
    ensures { IfOk result (λ e. e ≡ expressed at (Ranging (selector_of rules.now moment) range)) }
{
    let selector = selector(rules, moment)?;
    Ok(at_place(at, Node::Range(selector, range)))
}

/// An arithmetic operation or a comparison.
fn pair(
    at: u32,
    op: PairOp,
    left: Boxed<Expr>,
    right: Boxed<Expr>,
    pairing: &Pairing,
) -> Result<Expr, AllocError>
    ensures { IfOk result (λ e. e ≡ expressed at (Paired op left right pairing.now)) }
{
    let pairing = pairing.copy()?;
    Ok(at_place(at, Node::Pair(op, left, right, pairing)))
}

/// A set operation.
fn set(
    at: u32,
    op: SetOp,
    left: Boxed<Expr>,
    right: Boxed<Expr>,
    pairing: &Pairing,
) -> Result<Expr, AllocError>
    ensures { IfOk result (λ e. e ≡ expressed at (Combined op left right pairing.now)) }
{
    let pairing = pairing.copy()?;
    Ok(at_place(at, Node::Set(op, left, right, pairing)))
}

#[cycle(expressing)]
fn boxed(alloc: Global, p: &Boxed<Plan>, patterns: &Patterns<'_>) -> Result<Boxed<Expr>, AllocError>
    ensures { IfOk result (λ e. e ≡ expression_of patterns.now p.now) }
{
    Boxed::new(alloc, expression(alloc, p.get(), patterns)?)
}

/// The expressions of plans.
#[cycle(expressing)]
fn all(
    alloc: Global,
    plans: &Items<Plan>,
    patterns: &Patterns<'_>,
) -> Result<Items<Expr>, AllocError>
    ensures { IfOk result (λ es. es ≡ map (expression_of patterns.now) plans.now) }
{
    let mut es = Items::new(alloc);
    for p in plans.as_slice() {
        es.push(expression(alloc, p, patterns)?)?;
    }
    Ok(es)
}

/// A call of a function of one argument.
fn call(alloc: Global, at: u32, f: Func, first: Expr) -> Result<Expr, AllocError>
    ensures { IfOk result (λ e. e ≡ expressed at (Called f (first ∷ []))) }
{
    let mut arguments = Items::new(alloc);
    arguments.push(first)?;
    Ok(at_place(at, Node::Call(f, arguments)))
}

fn buckets(alloc: Global, at: u32, quantile: Expr, inner: Expr) -> Result<Expr, AllocError>
    ensures { IfOk result (λ e. e ≡ expressed at (Called HistogramQuantile (quantile ∷ inner ∷ []))) }
{
    let mut arguments = Items::new(alloc);
    arguments.push(quantile)?;
    arguments.push(inner)?;
    Ok(at_place(at, Node::Call(Func::HistogramQuantile, arguments)))
}

/// An expression in front of others.
fn in_front(first: Expr, mut more: Items<Expr>) -> Result<Items<Expr>, AllocError>
    ensures { IfOk result (λ es. es ≡ first ∷ more) }
{
    more.insert(0, first)?;
    Ok(more)
}

/// Minus, or a call of another function.
fn element(
    alloc: Global,
    at: u32,
    f: Element,
    first: Expr,
    more: Items<Expr>,
) -> Result<Expr, AllocError>
    ensures { IfOk result (λ e. e ≡ expressed at (element_expression f first more)) }
{
    match f {
        Element::Neg => Ok(at_place(at, Node::Negate(Boxed::new(alloc, first)?))),
        f => {
            let arguments = in_front(first, more)?;
            Ok(at_place(at, Node::Call(Func::Element(f), arguments)))
        }
    }
}

/// A call of a function of windows; the scalar of quantile_over_time stands before them.
fn window(at: u32, f: Window, windows: Expr, mut more: Items<Expr>) -> Result<Expr, AllocError>
    ensures { IfOk result (λ e. e ≡ expressed at (window_expression f windows more)) }
{
    match f {
        Window::QuantileOver => {
            more.push(windows)?;
            Ok(at_place(at, Node::Call(Func::Window(Window::QuantileOver), more)))
        }
        f => {
            let arguments = in_front(windows, more)?;
            Ok(at_place(at, Node::Call(Func::Window(f), arguments)))
        }
    }
}

/// A change of labels as a call, whose strings stand at its own place.
fn relabelled(
    alloc: Global,
    at: u32,
    rule: &Relabel,
    first: Expr,
    patterns: &Patterns<'_>,
) -> Result<Expr, AllocError>
    ensures { IfOk result (λ e. e ≡ expressed at (relabel_expression patterns.now rule.now at first)) }
{
    match rule {
        Relabel::Replace {
            target,
            template,
            source,
            pattern,
        } => {
            let mut arguments = Items::new(alloc);
            arguments.push(first)?;
            arguments.push(string(alloc, at, target.as_str())?)?;
            arguments.push(string(alloc, at, template.as_str())?)?;
            arguments.push(string(alloc, at, source.as_str())?)?;
            arguments.push(string(alloc, at, pattern_text(patterns, *pattern))?)?;
            Ok(at_place(at, Node::Call(Func::LabelReplace, arguments)))
        }
        Relabel::Join {
            target,
            separator,
            sources,
        } => joined(alloc, at, target, separator, sources, first),
        Relabel::Filter(_) => Ok(at_place(at, Node::Paren(Boxed::new(alloc, first)?))),
    }
}

/// A call of label_join.
fn joined(
    alloc: Global,
    at: u32,
    target: &Text,
    separator: &Text,
    sources: &Items<Text>,
    first: Expr,
) -> Result<Expr, AllocError>
    ensures { IfOk result (λ e. e ≡ expressed at (Called LabelJoin (first ∷ worded at target.now ∷ worded at separator.now ∷ map (worded at) sources.now))) }
{
    let mut arguments = Items::new(alloc);
    arguments.push(first)?;
    arguments.push(string(alloc, at, target.as_str())?)?;
    arguments.push(string(alloc, at, separator.as_str())?)?;
    for source in sources.as_slice() {
        arguments.push(string(alloc, at, source.as_str())?)?;
    }
    Ok(at_place(at, Node::Call(Func::LabelJoin, arguments)))
}

/// An aggregation; the label of count_values is its first argument.
fn group(
    alloc: Global,
    at: u32,
    f: Aggregate,
    by: &Grouping,
    arguments: Items<Expr>,
    label: &Text,
) -> Result<Expr, AllocError>
    ensures { IfOk result (λ e. e ≡ expressed at (Aggregated f by.now (group_arguments f at arguments label.now))) }
{
    match f {
        Aggregate::CountValues => {
            let all = in_front(string(alloc, at, label.as_str())?, arguments)?;
            Ok(at_place(at, Node::Aggregate(Aggregate::CountValues, by.copy()?, all)))
        }
        f => Ok(at_place(at, Node::Aggregate(f, by.copy()?, arguments))),
    }
}
