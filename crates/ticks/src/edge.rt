ghost use Rattle.std.specs.Prelude.{◌≡◌, ◌<ℤ◌, ℤ, ◌↔◌};
ghost use Rattle.ticks.specs.Edges.{ClosedHasItsEdge, IsFrom, before};
ghost use Rattle.ticks.specs.Walks.{IsTime};

use crate::Ms;

/// The last millisecond before a window that begins at an edge: the edge, or where the window is closed on the left the
/// millisecond before it. It takes no memory.
pub fn last_before(edge: Ms, closed: bool) -> Ms
    requires { IsTime edge.0 }
    ensures last { result.0 ≡ before closed edge.0 }
    ensures window { (t : ℤ) → IsFrom closed edge.0 t ↔ (result.0 <ℤ t) }
{
    if closed { Ms(edge.0 - 1) } else { edge }
}

/// A law, with nothing to run: a window that is closed on the left has the times of the open one, and its left edge.
pub fn closed_windows_have_their_edge()
    ensures { ClosedHasItsEdge }
{}
