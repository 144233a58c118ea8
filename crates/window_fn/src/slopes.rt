//! deriv and predict_linear: the line through the samples of a window by least squares.
ghost use Rattle.std.specs.Prelude.{◌≡◌, ◌<◌, ◌≤◌, ◌++◌, ◌∷◌, [], List, length};
ghost use Rattle.std.specs.List.{All, list_all};
ghost use Rattle.ticks.specs.Walks.{IsTime};
ghost use Rattle.window_fn.specs.Slopes.{both, cross, derivative, extended_line, intercept_of, is_finite, moments_of, prediction, rise_in, slope_by_seconds, slope_of, spans, value_after};
ghost use Rattle.window_fn.specs.Fits.{AreSumsOf, HaveRoom};
ghost use Rattle.window_fn.specs.Windows.{IsFrame, IsInFrame};
ghost use Rattle.xfrac.specs.declared.value.XFrac.{XFrac};

use crate::WindowFrame;
use crate::aggregates::count;
use crate::points::{between, time_at};
use crate::sums::{Sum, no_sum, sum_of, with_answer, with_value};
use ticks::Ms;
use xfrac::{ArithOp, NumFault, XFrac, arith, whole};

/// The sums of x, y, x * y and x * x over the points (x, y).
#[derive(Clone, Copy, Debug, PartialEq, Eq)]
pub struct Moments {
    x: XFrac,
    y: XFrac,
    xy: XFrac,
    xx: XFrac,
}

/// The slope by seconds of the line through the samples; NaN where a value isn't finite.
pub fn derivative(times: &[Ms], values: &[XFrac], frame: &WindowFrame) -> Result<XFrac, NumFault>
    requires same { length times.now ≡ length values.now }
    requires two { 2 ≤ length values.now }
    requires frame { IsFrame frame.now }
    requires times { All (IsInFrame frame.now) times.now }
    ensures { result ≡ derivative times.now values.now }
{
    if are_finite(values) {
        slope_by_seconds(times, values, frame)
    } else {
        Ok(XFrac::NaN)
    }
}

/// The value so many seconds after the instant, on the line through the samples; NaN where a value isn't finite.
pub fn prediction(
    times: &[Ms],
    values: &[XFrac],
    frame: &WindowFrame,
    seconds: &XFrac,
) -> Result<XFrac, NumFault>
    requires same { length times.now ≡ length values.now }
    requires two { 2 ≤ length values.now }
    requires frame { IsFrame frame.now }
    requires times { All (IsInFrame frame.now) times.now }
    ensures { result ≡ prediction frame.now.eval.0 times.now values.now seconds.now }
{
    if are_finite(values) {
        extended_line(times, values, frame, seconds)
    } else {
        Ok(XFrac::NaN)
    }
}

fn are_finite(values: &[XFrac]) -> bool
    ensures { result ≡ list_all is_finite values.now }
{
    values.iter().all(|v| is_finite(v))
}

/// Whether a number is a fraction: no infinity and not NaN.
pub fn is_finite(v: &XFrac) -> bool
    ensures { result ≡ is_finite v.now }
{
    matches!(v, XFrac::Fin(_))
}

#[tactic(auto, unfolding(crate::specs::Slopes::slope_by_seconds))]
fn slope_by_seconds(times: &[Ms], values: &[XFrac], frame: &WindowFrame) -> Result<XFrac, NumFault>
    requires same { length times.now ≡ length values.now }
    requires two { 2 ≤ length values.now }
    requires frame { IsFrame frame.now }
    requires times { All (IsInFrame frame.now) times.now }
    ensures { result ≡ slope_by_seconds times.now values.now }
{
    let sums = moments_over(time_at(times, 0, frame), times, values, frame)?;
    let slope = slope_of(&count(values), &sums)?;
    arith(ArithOp::Mul, &slope, &whole(1000))
}

#[tactic(auto, unfolding(crate::specs::Slopes::extended_line))]
fn extended_line(
    times: &[Ms],
    values: &[XFrac],
    frame: &WindowFrame,
    seconds: &XFrac,
) -> Result<XFrac, NumFault>
    requires same { length times.now ≡ length values.now }
    requires two { 2 ≤ length values.now }
    requires frame { IsFrame frame.now }
    requires times { All (IsInFrame frame.now) times.now }
    ensures { result ≡ extended_line frame.now.eval.0 times.now values.now seconds.now }
{
    let sums = moments_over(frame.eval, times, values, frame)?;
    let slope = slope_of(&count(values), &sums)?;
    value_after(&count(values), &sums, &slope, seconds)
}

/// The sums of four lists at once: of x, y, x * y and x * x.
#[derive(Clone, Copy, Debug, PartialEq, Eq)]
pub struct Sums {
    x: Sum,
    y: Sum,
    xy: Sum,
    xx: Sum,
}

/// The sums over the samples, x in milliseconds after the origin.
fn moments_over(
    origin: Ms,
    times: &[Ms],
    values: &[XFrac],
    frame: &WindowFrame,
) -> Result<Moments, NumFault>
    requires same { length times.now ≡ length values.now }
    requires origin { IsTime origin.0 }
    requires frame { IsFrame frame.now }
    requires times { All (IsInFrame frame.now) times.now }
    ensures { result ≡ moments_of (spans origin.0 times.now) values.now }
{
    let mut sums = Sums {
        x: no_sum(),
        y: no_sum(),
        xy: no_sum(),
        xx: no_sum(),
    };
    for i in 0..values.len() {
        let x = between(origin, time_at(times, i, frame));
        sums = with_point(sums, &x, &values[i]);
    }
    moments_of(&sums)
}

/// The sums with one more point.
fn with_point(sums: Sums, x: &XFrac, y: &XFrac) -> Sums
    requires { HaveRoom sums }
    ensures { (xs ys : List XFrac) → length xs ≡ length ys → AreSumsOf sums xs ys → AreSumsOf result (xs ++ x.now ∷ []) (ys ++ y.now ∷ []) }
{
    Sums {
        x: with_value(sums.x, x),
        y: with_value(sums.y, y),
        xy: with_answer(sums.xy, arith(ArithOp::Mul, x, y)),
        xx: with_answer(sums.xx, arith(ArithOp::Mul, x, x)),
    }
}

#[tactic(auto, unfolding(crate::specs::Slopes::moments_of))]
fn moments_of(sums: &Sums) -> Result<Moments, NumFault>
    ensures { (xs ys : List XFrac) → AreSumsOf sums.now xs ys → result ≡ moments_of xs ys }
{
    let (x, y) = both(sum_of(&sums.x), sum_of(&sums.y))?;
    let (xy, xx) = both(sum_of(&sums.xy), sum_of(&sums.xx))?;
    Ok(Moments { x, y, xy, xx })
}

/// Two answers, where both are there; else the first fault.
fn both(a: Result<XFrac, NumFault>, b: Result<XFrac, NumFault>) -> Result<(XFrac, XFrac), NumFault>
    ensures { result ≡ both a b }
{
    Ok((a?, b?))
}

/// k * p - a * b.
#[tactic(auto, unfolding(crate::specs::Slopes::cross))]
fn cross(k: &XFrac, p: &XFrac, a: &XFrac, b: &XFrac) -> Result<XFrac, NumFault>
    ensures { result ≡ cross k.now p.now a.now b.now }
{
    let scaled = arith(ArithOp::Mul, k, p)?;
    let product = arith(ArithOp::Mul, a, b)?;
    arith(ArithOp::Sub, &scaled, &product)
}

/// The slope by milliseconds of the line through k points.
#[tactic(auto, unfolding(crate::specs::Slopes::slope_of))]
fn slope_of(k: &XFrac, sums: &Moments) -> Result<XFrac, NumFault>
    ensures { result ≡ slope_of k.now sums.now }
{
    let joint = cross(k, &sums.xy, &sums.x, &sums.y)?;
    let spread = cross(k, &sums.xx, &sums.x, &sums.x)?;
    arith(ArithOp::Div, &joint, &spread)
}

/// The value of the line through k points at the origin.
#[tactic(auto, unfolding(crate::specs::Slopes::intercept_of))]
fn intercept(k: &XFrac, sums: &Moments, slope: &XFrac) -> Result<XFrac, NumFault>
    ensures { result ≡ intercept_of k.now sums.now slope.now }
{
    let fall = arith(ArithOp::Mul, slope, &sums.x)?;
    let rest = arith(ArithOp::Sub, &sums.y, &fall)?;
    arith(ArithOp::Div, &rest, k)
}

/// How far a line of this slope by milliseconds rises in so many seconds.
#[tactic(auto, unfolding(crate::specs::Slopes::rise_in))]
fn rise_in(slope: &XFrac, seconds: &XFrac) -> Result<XFrac, NumFault>
    ensures { result ≡ rise_in slope.now seconds.now }
{
    let by_second = arith(ArithOp::Mul, slope, &whole(1000))?;
    arith(ArithOp::Mul, &by_second, seconds)
}

/// The line's value so many seconds after the origin.
#[tactic(auto, unfolding(crate::specs::Slopes::value_after))]
fn value_after(k: &XFrac, sums: &Moments, slope: &XFrac, seconds: &XFrac) -> Result<XFrac, NumFault>
    ensures { result ≡ value_after k.now sums.now slope.now seconds.now }
{
    let intercept = intercept(k, sums, slope)?;
    let rise = rise_in(slope, seconds)?;
    arith(ArithOp::Add, &intercept, &rise)
}
