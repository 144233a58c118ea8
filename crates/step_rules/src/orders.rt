//! The order in which the series of an answer stand.
ghost use Rattle.step_rules.specs.Ranked.{IsRanked, order_of, ranked_below, ranked_order};
ghost use Rattle.promql_meaning.specs.NumberOrder.{tidy_order};
ghost use Rattle.promql_meaning.specs.Orders.{aggregate_order, call_order, in_order, root_order, value_of_series};
ghost use Rattle.std.specs.List.{All};
ghost use Rattle.std.specs.Option.{option_map};
ghost use Rattle.std.specs.Prelude.{◌≡◌, [], Some, true, false, fold, map, IfOk};
ghost use Rattle.window_fn.specs.Aggregates.{inserted};
ghost use Rattle.xfrac.specs.Laws.{IsNumber};

use func_table::{Aggregate, Func};
use label_set::{Grouping, Items, Labels};
use promql_ast::{Expr, Node};
use promql_meaning::{ResultSeries, value_order};
use std::alloc::{AllocError, Global};
use std::cmp::Ordering;
use xfrac::XFrac;
use xfrac::laws::{is_number, order_is_total};

/// By value up or down, within the groups of a grouping.
#[derive(Drop)]
pub struct ByValue {
    pub down: bool,
    pub by: Grouping,
}

/// The order that the root of an expression asks for, parentheses dropped. The only error is want of memory.
pub fn root_order(alloc: Global, e: &Expr) -> Result<Option<ByValue>, AllocError>
    ensures { IfOk result (λ order. option_map order_of order ≡ root_order e.now) }
{
    match &e.node {
        Node::Paren(inner) => root_order(alloc, inner.get()),
        Node::Call(f, _) => Ok(call_order(alloc, *f)),
        Node::Aggregate(f, by, _) => aggregate_order(*f, by),
        _ => Ok(None),
    }
}

/// The order of sort and sort_desc.
fn call_order(alloc: Global, f: Func) -> Option<ByValue>
    ensures { option_map order_of result ≡ call_order f }
{
    let by = Grouping {
        without: false,
        names: Items::new(alloc),
    };
    match f {
        Func::Sort => Some(ByValue { down: false, by }),
        Func::SortDesc => Some(ByValue { down: true, by }),
        _ => None,
    }
}

/// The order of topk and bottomk.
fn aggregate_order(f: Aggregate, by: &Grouping) -> Result<Option<ByValue>, AllocError>
    ensures { IfOk result (λ order. option_map order_of order ≡ aggregate_order f by.now) }
{
    match f {
        Aggregate::TopK => Ok(Some(ByValue {
            down: true,
            by: by.copy()?,
        })),
        Aggregate::BottomK => Ok(Some(ByValue {
            down: false,
            by: by.copy()?,
        })),
        _ => Ok(None),
    }
}

/// The series sorted in an order; without one they stay as they are. The only error is want of memory.
pub fn in_order(
    alloc: Global,
    order: Option<ByValue>,
    series: Items<ResultSeries>,
) -> Result<Items<ResultSeries>, AllocError>
    ensures { IfOk result (λ sorted. sorted ≡ in_order (option_map order_of order) series) }
{
    match order {
        None => Ok(series),
        Some(order) => by_value(alloc, &order, series),
    }
}

/// A series beside the labels of its group.
#[derive(Drop)]
pub(crate) struct Ranked {
    pub group: Labels,
    pub series: ResultSeries,
}

fn by_value(
    alloc: Global,
    order: &ByValue,
    series: Items<ResultSeries>,
) -> Result<Items<ResultSeries>, AllocError>
    ensures { IfOk result (λ sorted. sorted ≡ in_order (Some (order_of order.now)) series) }
{
    let ranked = grouped(alloc, &order.by, series)?;
    let sorted = sorted(ranked, order.down)?;
    series_in(alloc, sorted)
}

/// The series alone.
fn series_in(alloc: Global, ranked: Vec<Ranked>) -> Result<Items<ResultSeries>, AllocError>
    ensures { IfOk result (λ series. series ≡ map (λ r. r.series) ranked.items) }
{
    let mut series = Items::new(alloc);
    for one in ranked {
        series.push(one.series)?;
    }
    Ok(series)
}

/// Each series beside the labels of its group.
fn grouped(
    alloc: Global,
    by: &Grouping,
    series: Items<ResultSeries>,
) -> Result<Vec<Ranked>, AllocError>
    ensures series { IfOk result (λ ranked. map (λ r. r.series) ranked.items ≡ series) }
    ensures ranked { IfOk result (λ ranked. All (IsRanked by.now) ranked.items) }
{
    let mut ranked = Vec::new(alloc);
    for series in series.into_vec() {
        ranked.push(in_group(by, series)?)?;
    }
    Ok(ranked)
}

fn in_group(by: &Grouping, series: ResultSeries) -> Result<Ranked, AllocError>
    ensures series { IfOk result (λ r. r.series ≡ series) }
    ensures ranked { IfOk result (IsRanked by.now) }
{
    is_valued(&series);
    let group = series.labels.signature(!by.without, &by.names)?;
    Ok(Ranked { group, series })
}

/// The value of a series is a number of the type.
fn is_valued(series: &ResultSeries)
    ensures { IsNumber (value_of_series series.now) }
{
    is_number(&value_of(series));
}

/// Each direction has a comparison of its own, since a sort is known to be by one order alone where that takes nothing from
/// outside.
#[tactic(auto, using(crate::proofs::Sorting::same_direction))]
fn sorted(ranked: Vec<Ranked>, down: bool) -> Result<Vec<Ranked>, AllocError>
    ensures { IfOk result (λ sorted. sorted.items ≡ fold (inserted (ranked_below down)) [] ranked.items) }
{
    if down {
        from_greatest(ranked)
    } else {
        from_least(ranked)
    }
}

fn from_greatest(ranked: Vec<Ranked>) -> Result<Vec<Ranked>, AllocError>
    ensures { IfOk result (λ sorted. sorted.items ≡ fold (inserted (ranked_below true)) [] ranked.items) }
{
    let mut sorted = ranked;
    order_is_total();
    sorted.sort_by(|a, b| series_order(true, a, b))?;
    Ok(sorted)
}

fn from_least(ranked: Vec<Ranked>) -> Result<Vec<Ranked>, AllocError>
    ensures { IfOk result (λ sorted. sorted.items ≡ fold (inserted (ranked_below false)) [] ranked.items) }
{
    let mut sorted = ranked;
    order_is_total();
    sorted.sort_by(|a, b| series_order(false, a, b))?;
    Ok(sorted)
}

/// Groups by their labels, in a group by value, and equal values by labels.
fn series_order(down: bool, a: &Ranked, b: &Ranked) -> Ordering
    ensures { result ≡ ranked_order down a.now b.now }
{
    let values = tidy_order(down, &value_of(&a.series), &value_of(&b.series));
    a.group
        .cmp(&b.group)
        .then(values.then(a.series.labels.cmp(&b.series.labels)))
}

/// Up or down; NaN comes last in both.
fn tidy_order(down: bool, a: &XFrac, b: &XFrac) -> Ordering
    ensures { result ≡ tidy_order down a.now b.now }
{
    is_number(a);
    is_number(b);
    value_order(down, a, b)
}

/// The value of a series of an instant, which has one point.
fn value_of(series: &ResultSeries) -> XFrac
    ensures { result ≡ value_of_series series.now }
{
    match series.points.as_slice() {
        [] => XFrac::NaN,
        [point, ..] => point.value,
    }
}
