//! The times of a window, in milliseconds.
ghost use Rattle.std.specs.Prelude.{◌≡◌, ◌<◌, ◌-ℤ◌, ◌≤ℤ◌, length};
ghost use Rattle.std.specs.List.{All};
ghost use Rattle.ticks.specs.Walks.{IsTime};
ghost use Rattle.window_fn.specs.Points.{in_seconds, milliseconds, time_at};
ghost use Rattle.window_fn.specs.Windows.{IsFrame, IsInFrame};

use crate::WindowFrame;
use ticks::Ms;
use xfrac::{ArithOp, NumFault, XFrac, arith, whole};

/// The time at a place of the window.
pub fn time_at(times: &[Ms], i: usize, frame: &WindowFrame) -> Ms
    requires within { i < length times.now }
    requires frame { IsFrame frame.now }
    requires times { All (IsInFrame frame.now) times.now }
    ensures value { result.0 ≡ time_at times.now i }
    ensures time { IsTime result.0 }
{
    times[i]
}

/// The time that the window's range begins at.
pub fn start_of(frame: &WindowFrame) -> Ms
    requires { IsFrame frame.now }
    ensures value { result.0 ≡ frame.now.moment.0 -ℤ frame.now.range.0 }
    ensures time { IsTime result.0 }
{
    Ms(frame.moment.0 - frame.range.0)
}

/// The span between two times.
pub fn between(begun: Ms, ended: Ms) -> XFrac
    requires begun { IsTime begun.0 }
    requires ended { IsTime ended.0 }
    ensures { result ≡ milliseconds (ended.0 -ℤ begun.0) }
{
    whole(ended.0 - begun.0)
}

/// A span of milliseconds in seconds.
pub fn in_seconds(span: &XFrac) -> Result<XFrac, NumFault>
    ensures { result ≡ in_seconds span.now }
{
    arith(ArithOp::Div, span, &whole(1000))
}
