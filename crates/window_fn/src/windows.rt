//! A function over the samples in a window.
ghost use Rattle.std.specs.Prelude.{◌≡◌, ◌<◌, ◌≤◌, ◌↔◌, IsTrue, IfOk, length, Ok, Err, None};
ghost use Rattle.std.specs.List.{All};
ghost use Rattle.window_fn.specs.Windows.{IsFrame, IsInFrame, has_no_row, over_of, value_over, wants_two};

use crate::aggregates::{average, count, greatest, least, total, variance};
use crate::increases::{increase, rate};
use crate::quantiles::quantile;
use crate::slopes::{derivative, prediction};
use crate::steps::{changes, instant_rate, last_difference, resets};
use crate::{WindowFault, WindowFrame};
use func_table::Window;
use std::alloc::Global;
use ticks::Ms;
use xfrac::{NumFault, XFrac, whole};

/// What a function gives of the samples of a window, in rising time: a value, or no row, exactly where it tells how the
/// values change and there is only one. `arg` is how many seconds `PredictLinear` looks ahead, or the quantile that
/// `QuantileOver` gives; the others don't read it. `Overflow` comes exactly where an operation of the function
/// overflows, `Memory` from `QuantileOver` alone.
pub fn over(
    alloc: Global,
    f: Window,
    times: &[Ms],
    values: &[XFrac],
    frame: &WindowFrame,
    arg: &XFrac,
) -> Result<Option<XFrac>, WindowFault>
    requires same { length times.now ≡ length values.now }
    requires some { 0 < length values.now }
    requires frame { IsFrame frame.now }
    requires times { All (IsInFrame frame.now) times.now }
    ensures value { IfOk result (λ row. over_of f times.now values.now frame.now arg.now ≡ Ok row) }
    ensures no_row { (result ≡ Ok None) ↔ IsTrue (has_no_row f values.now) }
    ensures overflow { result ≡ Err WindowFault.Overflow
        → over_of f times.now values.now frame.now arg.now ≡ Err NumFault.Overflow }
    ensures memory { result ≡ Err WindowFault.Memory → f ≡ Window.QuantileOver }
{
    if wants_two(f) && values.len() < 2 {
        return Ok(None);
    }
    match f {
        Window::QuantileOver => Ok(Some(quantile(alloc, arg, values)?)),
        _ => Ok(Some(value_over(f, times, values, frame, arg)?)),
    }
}

/// The functions that tell how the values change, for which one sample is too few.
fn wants_two(f: Window) -> bool
    ensures { result ≡ wants_two f }
{
    matches!(
        f,
        Window::Rate
            | Window::Increase
            | Window::Delta
            | Window::Irate
            | Window::Idelta
            | Window::Deriv
            | Window::PredictLinear
    )
}

/// The value of a function but `QuantileOver`, of as many samples as it wants.
fn value_over(
    f: Window,
    times: &[Ms],
    values: &[XFrac],
    frame: &WindowFrame,
    arg: &XFrac,
) -> Result<XFrac, NumFault>
    requires sorts { f ≡ Window.QuantileOver → ⊥ }
    requires same { length times.now ≡ length values.now }
    requires some { 0 < length values.now }
    requires enough { IsTrue (wants_two f) → 2 ≤ length values.now }
    requires frame { IsFrame frame.now }
    requires times { All (IsInFrame frame.now) times.now }
    ensures { result ≡ value_over f times.now values.now frame.now arg.now }
{
    match f {
        Window::Rate => rate(times, values, frame),
        Window::Increase => increase(true, times, values, frame),
        Window::Delta => increase(false, times, values, frame),
        Window::Irate => instant_rate(times, values, frame),
        Window::Idelta => last_difference(values),
        Window::Deriv => derivative(times, values, frame),
        Window::PredictLinear => prediction(times, values, frame, arg),
        Window::Changes => Ok(changes(values)),
        Window::Resets => Ok(resets(values)),
        Window::AvgOver => average(values),
        Window::MinOver => Ok(least(values)),
        Window::MaxOver => Ok(greatest(values)),
        Window::SumOver => total(values),
        Window::CountOver => Ok(count(values)),
        Window::StdvarOver => variance(values),
        Window::LastOver | Window::QuantileOver => Ok(values[values.len() - 1]),
        Window::PresentOver => Ok(whole(1)),
    }
}
