//! irate, idelta, changes and resets: how values change from one sample to the next.
ghost use Rattle.std.specs.Prelude.{◌≡◌, ◌<◌, ◌≤◌, count_by, length};
ghost use Rattle.window_fn.specs.Points.{neighbours};
ghost use Rattle.xfrac.specs.Order.{compares};
ghost use Rattle.std.specs.List.{All};
ghost use Rattle.window_fn.specs.Steps.{changes, differ, instant_rate, last_difference, last_rise, resets};
ghost use Rattle.window_fn.specs.Windows.{IsFrame, IsInFrame};

use crate::WindowFrame;
use crate::aggregates::is_nan;
use crate::points::{between, in_seconds, time_at};
use ticks::Ms;
use xfrac::{ArithOp, CompareOp, NumFault, XFrac, arith, compare, whole};

/// A counter's last rise by the seconds between the last two samples.
#[tactic(auto, unfolding(crate::specs::Steps::instant_rate))]
pub fn instant_rate(times: &[Ms], values: &[XFrac], frame: &WindowFrame) -> Result<XFrac, NumFault>
    requires same { length times.now ≡ length values.now }
    requires two { 2 ≤ length values.now }
    requires frame { IsFrame frame.now }
    requires times { All (IsInFrame frame.now) times.now }
    ensures { result ≡ instant_rate times.now values.now }
{
    let rise = last_rise(values)?;
    let before = time_at(times, times.len() - 2, frame);
    let last = time_at(times, times.len() - 1, frame);
    let span = in_seconds(&between(before, last))?;
    arith(ArithOp::Div, &rise, &span)
}

/// How far a counter rose at the last sample: after a reset from 0 on.
fn last_rise(values: &[XFrac]) -> Result<XFrac, NumFault>
    requires { 2 ≤ length values.now }
    ensures { result ≡ last_rise values.now }
{
    let last = values[values.len() - 1];
    if compare(CompareOp::Lt, &last, &values[values.len() - 2]) {
        Ok(last)
    } else {
        last_difference(values)
    }
}

/// The last value less the one before it.
pub fn last_difference(values: &[XFrac]) -> Result<XFrac, NumFault>
    requires { 2 ≤ length values.now }
    ensures { result ≡ last_difference values.now }
{
    arith(
        ArithOp::Sub,
        &values[values.len() - 1],
        &values[values.len() - 2],
    )
}

/// How often a value differs from the next one.
pub fn changes(values: &[XFrac]) -> XFrac
    requires { 0 < length values.now }
    ensures { result ≡ changes values.now }
{
    whole(changes_among(values) as i64)
}

fn changes_among(values: &[XFrac]) -> usize
    requires { 0 < length values.now }
    ensures value { result ≡ count_by (λ p. differ p.0 p.1) (neighbours values.now) }
    ensures few { result < length values.now }
{
    let next = values.split_at(1).1;
    values.iter().zip(next).filter(|p| differ(p.0, p.1)).count()
}

/// Two values differ; NaN doesn't differ from NaN.
fn differ(a: &XFrac, b: &XFrac) -> bool
    ensures { result ≡ differ a.now b.now }
{
    compare(CompareOp::Ne, a, b) && !(is_nan(a) && is_nan(b))
}

/// How often the next value is below a value.
pub fn resets(values: &[XFrac]) -> XFrac
    requires { 0 < length values.now }
    ensures { result ≡ resets values.now }
{
    whole(resets_among(values) as i64)
}

fn resets_among(values: &[XFrac]) -> usize
    requires { 0 < length values.now }
    ensures value { result ≡ count_by (λ p. compares CompareOp.Lt p.1 p.0) (neighbours values.now) }
    ensures few { result < length values.now }
{
    let next = values.split_at(1).1;
    values
        .iter()
        .zip(next)
        .filter(|p| compare(CompareOp::Lt, p.1, p.0))
        .count()
}
