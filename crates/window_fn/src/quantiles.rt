//! The quantile of a list of values. (Prometheus querying, "Aggregation operators".)
ghost use Rattle.std.specs.Prelude.{◌≡◌, ◌<◌, length, false, Ok, Err, IfOk, OnOk};
ghost use Rattle.std.specs.List.{All};
ghost use Rattle.xfrac.specs.Arithmetic.{whole_number};
ghost use Rattle.xfrac.specs.Forming.{floor_of};
ghost use Rattle.xfrac.specs.Kinds.{is_not_a_number};
ghost use Rattle.xfrac.specs.Laws.{IsNumber};
ghost use Rattle.xfrac.specs.Order.{compares};
ghost use Rattle.window_fn.specs.Aggregates.{ascending, at_rank, interpolated, low_share, nan_first, place_of, quantile_of, weighed, weighed_at};

use crate::WindowFault;
use crate::aggregates::is_nan;
use std::alloc::{AllocError, Global};
use std::cmp::Ordering;
use xfrac::laws::{is_number, lowest_terms_are_lowest, order_is_total};
use xfrac::{ArithOp, CompareOp, NumFault, XFrac, arith, cmp_total, compare, floor, parts, whole};

/// The quantile `phi` of the values: NaN at NaN, -Inf below 0, +Inf above 1, else between the two values, sorted with
/// NaN least, that the rank phi * (n - 1) lies between. `Overflow` comes exactly where an operation overflows. It sorts
/// a copy of the values, so it may be `Memory`.
pub fn quantile(alloc: Global, phi: &XFrac, values: &[XFrac]) -> Result<XFrac, WindowFault>
    requires { 0 < length values.now }
    ensures value { IfOk result (λ v. quantile_of phi.now values.now ≡ Ok v) }
    ensures overflow { result ≡ Err WindowFault.Overflow → quantile_of phi.now values.now ≡ Err NumFault.Overflow }
{
    if is_nan(phi) {
        return Ok(XFrac::NaN);
    }
    if compare(CompareOp::Lt, phi, &whole(0)) {
        return Ok(XFrac::NegInf);
    }
    if compare(CompareOp::Gt, phi, &whole(1)) {
        return Ok(XFrac::PosInf);
    }
    let sorted = ascending(alloc, values)?;
    Ok(interpolated(phi, sorted.as_slice())?)
}

/// The values sorted, NaN before all others. The only error is want of memory.
fn ascending(alloc: Global, values: &[XFrac]) -> Result<Vec<XFrac>, AllocError>
    ensures items { IfOk result (λ sorted. sorted.items ≡ ascending values.now) }
    ensures len { IfOk result (λ sorted. length sorted.items ≡ length values.now) }
{
    let mut sorted = copied(alloc, values)?;
    order_is_total();
    sorted.sort_unstable_by(|a, b| {
        is_number(a);
        is_number(b);
        nan_first(a, b)
    });
    Ok(sorted)
}

fn copied(alloc: Global, values: &[XFrac]) -> Result<Vec<XFrac>, AllocError>
    ensures items { IfOk result (λ copy. copy.items ≡ values.now) }
    ensures numbers { OnOk result (All IsNumber values.now) }
{
    let mut copy = Vec::with_capacity(alloc, values.len())?;
    for value in values {
        is_number(value);
        copy.push(*value)?;
    }
    Ok(copy)
}

/// NaN before all others, and these by their order.
fn nan_first(a: &XFrac, b: &XFrac) -> Ordering
    ensures { result ≡ nan_first a.now b.now }
{
    match (is_nan(a), is_nan(b)) {
        (true, true) => Ordering::Equal,
        (true, false) => Ordering::Less,
        (false, true) => Ordering::Greater,
        (false, false) => cmp_total(a, b),
    }
}

/// The quantile of sorted values, at the rank q * (n - 1).
#[tactic(auto, unfolding(crate::specs::Aggregates::interpolated))]
fn interpolated(q: &XFrac, sorted: &[XFrac]) -> Result<XFrac, NumFault>
    requires some { 0 < length sorted.now }
    requires from_zero { compares CompareOp.Lt q.now (whole_number 0) ≡ false }
    requires to_one { compares CompareOp.Gt q.now (whole_number 1) ≡ false }
    requires number { is_not_a_number q.now ≡ false }
    ensures { result ≡ interpolated q.now sorted.now }
{
    is_number(q);
    lowest_terms_are_lowest();
    let rank = arith(ArithOp::Mul, q, &whole((sorted.len() - 1) as i64))?;
    at_rank(&rank, sorted)
}

/// The value at a rank among sorted values, by how far the rank is above its floor.
#[tactic(auto, unfolding(crate::specs::Aggregates::at_rank))]
fn at_rank(rank: &XFrac, sorted: &[XFrac]) -> Result<XFrac, NumFault>
    requires { place_of (floor_of rank.now) < length sorted.now }
    ensures { result ≡ at_rank rank.now sorted.now }
{
    let below = floor(rank);
    let weight = arith(ArithOp::Sub, rank, &below)?;
    weighed_at(sorted, place_of(&below) as usize, &weight)
}

/// Between the value at a place of sorted values and the next one.
fn weighed_at(sorted: &[XFrac], i: usize, weight: &XFrac) -> Result<XFrac, NumFault>
    requires { i < length sorted.now }
    ensures { result ≡ weighed_at sorted.now i weight.now }
{
    let next = if i + 1 < sorted.len() { i + 1 } else { i };
    weighed(&sorted[i], &sorted[next], weight)
}

/// low * (1 - weight) + high * weight.
#[tactic(auto, unfolding(crate::specs::Aggregates::weighed))]
fn weighed(low: &XFrac, high: &XFrac, weight: &XFrac) -> Result<XFrac, NumFault>
    ensures { result ≡ weighed low.now high.now weight.now }
{
    let below = low_share(low, weight)?;
    let above = arith(ArithOp::Mul, high, weight)?;
    arith(ArithOp::Add, &below, &above)
}

/// low * (1 - weight).
#[tactic(auto, unfolding(crate::specs::Aggregates::low_share))]
fn low_share(low: &XFrac, weight: &XFrac) -> Result<XFrac, NumFault>
    ensures { result ≡ low_share low.now weight.now }
{
    let rest = arith(ArithOp::Sub, &whole(1), weight)?;
    arith(ArithOp::Mul, low, &rest)
}

/// The magnitude of a number that is whole.
fn place_of(v: &XFrac) -> u128
    ensures { result ≡ place_of v.now }
{
    match v {
        XFrac::Fin(f) => parts(f).0.unsigned_abs(),
        _ => 0,
    }
}
