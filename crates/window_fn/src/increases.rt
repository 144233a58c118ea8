//! rate, increase and delta: the change over a window, carried on to the window's edges.
ghost use Rattle.std.specs.Prelude.{◌≡◌, ◌<◌, ◌≤◌, ◌-ℤ◌, ◌++◌, ◌∷◌, [], List, Ok, length, true, if◌then◌else◌};
ghost use Rattle.std.specs.List.{All};
ghost use Rattle.ticks.specs.Walks.{IsTime};
ghost use Rattle.window_fn.specs.Aggregates.{total};
ghost use Rattle.window_fn.specs.Increases.{at_most, carried, change, covered, eleven_tenths, extrapolated, increase, layout_of, mean_gap, parts_of_change, rate, start_way, way_back, way_to_edge, way_to_zero};
ghost use Rattle.window_fn.specs.Totals.{HasRoom, IsSumOf};
ghost use Rattle.window_fn.specs.Windows.{IsFrame, IsInFrame};
ghost use Rattle.xfrac.specs.Arithmetic.{arithmetic, whole_number};
ghost use Rattle.xfrac.specs.Order.{compares};
ghost use Rattle.xfrac.specs.declared.value.XFrac.{XFrac};
ghost use Rattle.xfrac.specs.declared.value.XFrac.TheVariants.{Fin};

use crate::WindowFrame;
use crate::points::{between, in_seconds, start_of, time_at};
use crate::sums::{Sum, no_sum, sum_of, with_value};
use ticks::Ms;
use xfrac::{ArithOp, CompareOp, NumFault, XFrac, arith, compare, neg, of, whole};

/// How the samples lie in their window, in milliseconds: the way from the first to the last, the mean gap between two,
/// and the ways from the window's start to the first and from the last to its end.
#[derive(Clone, Copy, Debug, PartialEq, Eq)]
pub struct Layout {
    sampled: XFrac,
    gap: XFrac,
    to_start: XFrac,
    to_end: XFrac,
}

/// A counter's increase over the range of a window, by seconds of the range.
#[tactic(auto, unfolding(crate::specs::Increases::rate))]
pub fn rate(times: &[Ms], values: &[XFrac], frame: &WindowFrame) -> Result<XFrac, NumFault>
    requires same { length times.now ≡ length values.now }
    requires two { 2 ≤ length values.now }
    requires frame { IsFrame frame.now }
    requires times { All (IsInFrame frame.now) times.now }
    ensures { result ≡ rate times.now values.now frame.now }
{
    let increase = increase(true, times, values, frame)?;
    let range = in_seconds(&whole(frame.range.0))?;
    arith(ArithOp::Div, &increase, &range)
}

/// The change over the samples of a window, carried on to its edges; of a counter, the resets are made good.
#[tactic(auto, unfolding(crate::specs::Increases::increase))]
pub fn increase(
    is_counter: bool,
    times: &[Ms],
    values: &[XFrac],
    frame: &WindowFrame,
) -> Result<XFrac, NumFault>
    requires same { length times.now ≡ length values.now }
    requires two { 2 ≤ length values.now }
    requires frame { IsFrame frame.now }
    requires times { All (IsInFrame frame.now) times.now }
    ensures { result ≡ increase is_counter times.now values.now frame.now }
{
    let change = change(is_counter, values)?;
    let layout = layout_of(times, frame)?;
    carried(is_counter, &layout, &values[0], &change)
}

fn change(is_counter: bool, values: &[XFrac]) -> Result<XFrac, NumFault>
    requires { 2 ≤ length values.now }
    ensures { result ≡ change is_counter values.now }
{
    if is_counter {
        counter_change(values)
    } else {
        arith(ArithOp::Sub, &values[values.len() - 1], &values[0])
    }
}

/// The change of a counter: what it stood at before each reset is added.
fn counter_change(values: &[XFrac]) -> Result<XFrac, NumFault>
    requires { 2 ≤ length values.now }
    ensures { result ≡ total (parts_of_change true values.now) }
{
    let mut sum = with_value(no_sum(), &values[values.len() - 1]);
    sum = with_value(sum, &neg(&values[0]));
    for i in 1..values.len() {
        sum = with_loss(sum, &values[i - 1], &values[i]);
    }
    sum_of(&sum)
}

/// The sum with what a counter stood at, where it is reset to the next value.
fn with_loss(sum: Sum, before: &XFrac, value: &XFrac) -> Sum
    requires { HasRoom sum }
    ensures { (xs : List XFrac) → IsSumOf sum xs → IsSumOf result (xs ++ (if compares CompareOp.Lt value.now before.now then before.now ∷ [] else [])) }
{
    if compare(CompareOp::Lt, value, before) {
        with_value(sum, before)
    } else {
        sum
    }
}

/// How the samples of a window lie in it, in milliseconds. `Overflow` comes exactly where an operation of it overflows.
#[tactic(auto, unfolding(crate::specs::Increases::layout_of))]
pub fn layout_of(times: &[Ms], frame: &WindowFrame) -> Result<Layout, NumFault>
    requires two { 2 ≤ length times.now }
    requires frame { IsFrame frame.now }
    requires times { All (IsInFrame frame.now) times.now }
    ensures { result ≡ layout_of times.now frame.now }
{
    let begun = time_at(times, 0, frame);
    let ended = time_at(times, times.len() - 1, frame);
    let gap = mean_gap(times, &between(begun, ended))?;
    Ok(Layout {
        sampled: between(begun, ended),
        gap,
        to_start: between(start_of(frame), begun),
        to_end: between(ended, frame.moment),
    })
}

/// The way from the first sample to the last, by how many gaps there are.
fn mean_gap(times: &[Ms], sampled: &XFrac) -> Result<XFrac, NumFault>
    requires { 2 ≤ length times.now }
    ensures { result ≡ mean_gap times.now sampled.now }
{
    arith(ArithOp::Div, sampled, &whole((times.len() - 1) as i64))
}

/// The change from the first sample of a window to its last, carried on over the ways to both edges; a counter that rises
/// is carried back no further than to where it was 0. `Overflow` comes exactly where an operation of it overflows.
#[tactic(auto, unfolding(crate::specs::Increases::carried))]
pub fn carried(
    is_counter: bool,
    layout: &Layout,
    first: &XFrac,
    change: &XFrac,
) -> Result<XFrac, NumFault>
    ensures { result ≡ carried is_counter layout.now first.now change.now }
{
    let far = far_for(&layout.gap);
    let to_start = start_way(is_counter, layout, &far, first, change)?;
    let to_end = way_to_edge(&layout.to_end, &layout.gap, &far)?;
    extrapolated(change, &layout.sampled, &to_start, &to_end)
}

/// From where on a way counts as far: 1.1 mean gaps.
fn far_for(gap: &XFrac) -> Result<XFrac, NumFault>
    ensures { result ≡ arithmetic ArithOp.Mul gap.now eleven_tenths }
{
    arith(ArithOp::Mul, gap, &eleven_tenths())
}

/// The way to the window's start that the change is carried back over.
#[tactic(auto, unfolding(crate::specs::Increases::start_way))]
fn start_way(
    is_counter: bool,
    layout: &Layout,
    far: &Result<XFrac, NumFault>,
    first: &XFrac,
    change: &XFrac,
) -> Result<XFrac, NumFault>
    requires { far.now ≡ arithmetic ArithOp.Mul layout.now.gap eleven_tenths }
    ensures { result ≡ start_way is_counter layout.now first.now change.now }
{
    let way = way_to_edge(&layout.to_start, &layout.gap, far)?;
    way_back(is_counter, &way, &layout.sampled, first, change)
}

/// A way at or above the least that counts as far becomes half a gap.
fn edge_way(way: &XFrac, gap: &XFrac, least: &XFrac) -> Result<XFrac, NumFault>
    ensures { result ≡ (if compares CompareOp.Ge way.now least.now then arithmetic ArithOp.Div gap.now (whole_number 2) else Ok way.now) }
{
    if compare(CompareOp::Ge, way, least) {
        arith(ArithOp::Div, gap, &whole(2))
    } else {
        Ok(*way)
    }
}

/// How far a series is carried on to an edge, where it is known from where on a way counts as far.
#[tactic(auto, unfolding(crate::specs::Increases::way_to_edge))]
fn way_to_edge(way: &XFrac, gap: &XFrac, far: &Result<XFrac, NumFault>) -> Result<XFrac, NumFault>
    requires { far.now ≡ arithmetic ArithOp.Mul gap.now eleven_tenths }
    ensures { result ≡ way_to_edge way.now gap.now }
{
    match far {
        Ok(least) => edge_way(way, gap, least),
        Err(fault) => Err(*fault),
    }
}

#[tactic(auto, using(crate::proofs::Tenths::eleven_tenths_are_formed))]
fn eleven_tenths() -> XFrac
    ensures { result ≡ eleven_tenths }
{
    of(11, 10).unwrap()
}

/// The way back, for a counter that rises from at least 0 no further than to where it was 0.
fn way_back(
    is_counter: bool,
    way: &XFrac,
    sampled: &XFrac,
    first: &XFrac,
    change: &XFrac,
) -> Result<XFrac, NumFault>
    ensures { result ≡ way_back is_counter way.now sampled.now first.now change.now }
{
    if is_counter
        && compare(CompareOp::Gt, change, &whole(0))
        && compare(CompareOp::Ge, first, &whole(0))
    {
        at_most(way, way_to_zero(sampled, first, change))
    } else {
        Ok(*way)
    }
}

#[tactic(auto, unfolding(crate::specs::Increases::at_most))]
fn at_most(way: &XFrac, limit: Result<XFrac, NumFault>) -> Result<XFrac, NumFault>
    ensures { result ≡ at_most way.now limit }
{
    let most = limit?;
    Ok(if compare(CompareOp::Gt, way, &most) {
        most
    } else {
        *way
    })
}

/// The way back at which a counter that rises by `change` in the way sampled was 0.
#[tactic(auto, unfolding(crate::specs::Increases::way_to_zero))]
fn way_to_zero(sampled: &XFrac, first: &XFrac, change: &XFrac) -> Result<XFrac, NumFault>
    ensures { result ≡ way_to_zero sampled.now first.now change.now }
{
    let share = arith(ArithOp::Div, first, change)?;
    arith(ArithOp::Mul, sampled, &share)
}

/// The change times the whole way to the way sampled.
#[tactic(auto, unfolding(crate::specs::Increases::extrapolated))]
fn extrapolated(
    change: &XFrac,
    sampled: &XFrac,
    to_start: &XFrac,
    to_end: &XFrac,
) -> Result<XFrac, NumFault>
    ensures { result ≡ extrapolated change.now sampled.now to_start.now to_end.now }
{
    let all = covered(sampled, to_start, to_end)?;
    let factor = arith(ArithOp::Div, &all, sampled)?;
    arith(ArithOp::Mul, change, &factor)
}

#[tactic(auto, unfolding(crate::specs::Increases::covered))]
fn covered(sampled: &XFrac, to_start: &XFrac, to_end: &XFrac) -> Result<XFrac, NumFault>
    ensures { result ≡ covered sampled.now to_start.now to_end.now }
{
    let longer = arith(ArithOp::Add, sampled, to_start)?;
    arith(ArithOp::Add, &longer, to_end)
}
