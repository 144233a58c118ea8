use std::alloc::AllocError;
use thiserror::Error;
use ticks::Ms;
use xfrac::NumFault;

/// The window that a function is asked over, in milliseconds: the instant of the evaluation, the moment that the window
/// ends at, and its range.
#[derive(Clone, Copy, Debug, PartialEq, Eq)]
pub struct WindowFrame {
    pub eval: Ms,
    pub moment: Ms,
    pub range: Ms,
}

/// Why a function over a window has no value.
#[derive(Clone, Copy, Debug, PartialEq, Eq, Error)]
pub enum WindowFault {
    /// A number that is formed on the way to the result is outside the limits.
    #[error("overflow")]
    Overflow = 1,
    /// There was no memory for sorted values.
    #[error("out of memory")]
    Memory,
}

impl From<NumFault> for WindowFault {
    ghost use Rattle.std.specs.Prelude.{◌≡◌};
    ghost use Rattle.window_fn.specs.declared.frame.WindowFault.TheVariants.{Overflow};

    ghost from_gives = { λ _ e. e ≡ Overflow };

    /// No power is taken, so the fault of a number is its overflow.
    fn from(_: NumFault) -> Self {
        WindowFault::Overflow
    }
}

impl From<AllocError> for WindowFault {
    ghost use Rattle.std.specs.Prelude.{◌≡◌};
    ghost use Rattle.window_fn.specs.declared.frame.WindowFault.TheVariants.{Memory};

    ghost from_gives = { λ _ e. e ≡ Memory };

    fn from(_: AllocError) -> Self {
        WindowFault::Memory
    }
}
