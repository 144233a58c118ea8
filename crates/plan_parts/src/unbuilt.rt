use std::alloc::{AllocError, AllocFailed};
use thiserror::Error;

/// Why no tree is built.
#[derive(Clone, Copy, Debug, PartialEq, Eq, Error)]
pub enum Unbuilt {
    /// The plan isn't valid, its patterns aren't kept, it leads beyond the times, or it has a part that has no kernel.
    #[error("no tree of kernels for this plan")]
    Invalid,
    /// Memory ran out.
    #[error("out of memory")]
    Memory,
}

impl From<AllocError> for Unbuilt {
    ghost use Rattle.plan_parts.specs.declared.unbuilt.Unbuilt.TheVariants.{Memory};
    ghost use Rattle.std.specs.Prelude.{◌≡◌};

    ghost from_gives = { λ _ e. e ≡ Memory };

    fn from(_: AllocError) -> Unbuilt {
        Unbuilt::Memory
    }
}

impl<T: Drop> From<AllocFailed<T>> for Unbuilt {
    ghost use Rattle.plan_parts.specs.declared.unbuilt.Unbuilt.TheVariants.{Memory};
    ghost use Rattle.std.specs.Prelude.{◌≡◌};

    ghost from_gives = { λ _ e. e ≡ Memory };

    fn from(_: AllocFailed<T>) -> Unbuilt {
        Unbuilt::Memory
    }
}
