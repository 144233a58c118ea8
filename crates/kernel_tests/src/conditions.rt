//! The conditions of kernels on instants, as checks.
ghost use Rattle.kernel_tests.specs.Instants.{IsNear, RiseFrom};
ghost use Rattle.std.specs.Prelude.{IsTrue, neg_ℤ, pos, ◌^◌};

use ticks::Ms;

/// The farthest time from 0 that rows have.
const FAR: i64 = 1_000_000_000_000_000;

/// Whether a time is near 0.
pub fn is_near(t: i64) -> bool
    ensures { IsTrue result → IsNear t }
{
    -FAR <= t && t <= FAR
}

/// Whether instants rise and are near 0.
pub fn rise(at: &[Ms]) -> bool
    ensures { IsTrue result → RiseFrom (neg_ℤ (pos (2 ^ 60))) at.now }
{
    let mut last = Ms(-(1 << 60));
    for t in at {
        if t.0 <= last.0 || !is_near(t.0) {
            return false;
        }
        last = *t;
    }
    true
}
