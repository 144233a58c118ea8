//! rate and increase of a counter of which its losses are kept. (The rules are those of functions over windows.)
ghost use Rattle.op_running.specs.Kept.{IsLossOf};
ghost use Rattle.promql_meaning.specs.Ranges.{window_value};
ghost use Rattle.std.specs.List.{All};
ghost use Rattle.std.specs.Prelude.{◌≡◌, ◌<◌, ◌≤◌, length, true};
ghost use Rattle.func_table.specs.declared.table.Window.TheVariants as window;
ghost use Rattle.window_fn.specs.Increases.{change, increase as increase_of, rate as rate_of};
ghost use Rattle.window_fn.specs.Windows.{IsFrame, IsInFrame};
ghost use Rattle.xfrac.specs.declared.value.XFrac.{XFrac};

use crate::losses::Loss;
use crate::totals::{Total, added_two, both, sum_of};
use ticks::Ms;
use window_fn::{WindowFrame, carried, in_seconds, layout_of};
use xfrac::{ArithOp, NumFault, XFrac, arith, neg, whole};

/// What a counter's rate is by the seconds of the range; no row of one sample.
pub(crate) fn rate_row(
    loss: &Loss,
    times: &[Ms],
    values: &[XFrac],
    frame: &WindowFrame,
) -> Result<Option<XFrac>, NumFault>
    requires kept { IsLossOf loss.now values.now }
    requires same { length times.now ≡ length values.now }
    requires some { 0 < length values.now }
    requires frame { IsFrame frame.now }
    requires times { All (IsInFrame frame.now) times.now }
    ensures { (arg : XFrac) → result ≡ window_value window.Rate frame.now arg times.now values.now }
{
    if values.len() < 2 {
        return Ok(None);
    }
    match rate(loss, times, values, frame) {
        Ok(value) => Ok(Some(value)),
        Err(_) => Err(NumFault::Overflow),
    }
}

/// What a counter's increase is; no row of one sample.
pub(crate) fn increase_row(
    loss: &Loss,
    times: &[Ms],
    values: &[XFrac],
    frame: &WindowFrame,
) -> Result<Option<XFrac>, NumFault>
    requires kept { IsLossOf loss.now values.now }
    requires same { length times.now ≡ length values.now }
    requires some { 0 < length values.now }
    requires frame { IsFrame frame.now }
    requires times { All (IsInFrame frame.now) times.now }
    ensures { (arg : XFrac) → result ≡ window_value window.Increase frame.now arg times.now values.now }
{
    if values.len() < 2 {
        return Ok(None);
    }
    match increase(loss, times, values, frame) {
        Ok(value) => Ok(Some(value)),
        Err(_) => Err(NumFault::Overflow),
    }
}

/// A counter's increase over the range of a window, by seconds of the range.
#[tactic(auto, unfolding(window_fn::specs::Increases::rate))]
fn rate(loss: &Loss, times: &[Ms], values: &[XFrac], frame: &WindowFrame) -> Result<XFrac, NumFault>
    requires kept { IsLossOf loss.now values.now }
    requires same { length times.now ≡ length values.now }
    requires two { 2 ≤ length values.now }
    requires frame { IsFrame frame.now }
    requires times { All (IsInFrame frame.now) times.now }
    ensures { result ≡ rate_of times.now values.now frame.now }
{
    let increase = increase(loss, times, values, frame)?;
    let range = in_seconds(&whole(frame.range.0))?;
    arith(ArithOp::Div, &increase, &range)
}

/// The change of a counter over the samples of a window, carried on to its edges.
#[tactic(auto, unfolding(window_fn::specs::Increases::increase))]
fn increase(
    loss: &Loss,
    times: &[Ms],
    values: &[XFrac],
    frame: &WindowFrame,
) -> Result<XFrac, NumFault>
    requires kept { IsLossOf loss.now values.now }
    requires same { length times.now ≡ length values.now }
    requires two { 2 ≤ length values.now }
    requires frame { IsFrame frame.now }
    requires times { All (IsInFrame frame.now) times.now }
    ensures { result ≡ increase_of true times.now values.now frame.now }
{
    let change = counter_change(loss, values)?;
    let layout = layout_of(times, frame)?;
    carried(true, &layout, &values[0], &change)
}

/// The change of a counter: what it stood at before each reset is added.
fn counter_change(loss: &Loss, values: &[XFrac]) -> Result<XFrac, NumFault>
    requires kept { IsLossOf loss.now values.now }
    requires two { 2 ≤ length values.now }
    ensures { result ≡ change true values.now }
{
    let plain = added_two(&values[values.len() - 1], &neg(&values[0]));
    sum_of(&Total {
        sum: both(&plain, &loss.lost),
    })
}
