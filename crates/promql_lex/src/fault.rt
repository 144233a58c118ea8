ghost use Rattle.std.specs.Prelude.{◌≡◌, IfOk};

use promql_ast::QueryRefusal;
use std::alloc::{AllocError, AllocFailed};
use thiserror::Error;

/// Why a text has no tree: it is refused, or memory ran out.
#[derive(Debug, Drop, PartialEq, Eq, Error)]
pub enum LexFault {
    #[error("refused")]
    Refused(QueryRefusal),
    #[error("out of memory")]
    Memory,
}

impl LexFault {
    /// An equal fault, on the allocator of this one. The only error is want of memory.
    pub fn copy(&self) -> Result<LexFault, AllocError>
        ensures { IfOk result (λ f. f ≡ self.now) }
    {
        match self {
            LexFault::Refused(refusal) => Ok(LexFault::Refused(refusal.copy()?)),
            LexFault::Memory => Ok(LexFault::Memory),
        }
    }
}

impl From<AllocError> for LexFault {
    ghost use Rattle.promql_lex.specs.declared.fault.LexFault.TheVariants.{Memory};
    ghost use Rattle.std.specs.Prelude.{◌≡◌};

    ghost from_gives = { λ _ e. e ≡ Memory };

    fn from(_: AllocError) -> LexFault {
        LexFault::Memory
    }
}

impl<T: Drop> From<AllocFailed<T>> for LexFault {
    ghost use Rattle.promql_lex.specs.declared.fault.LexFault.TheVariants.{Memory};
    ghost use Rattle.std.specs.Prelude.{◌≡◌};

    ghost from_gives = { λ _ e. e ≡ Memory };

    fn from(_: AllocFailed<T>) -> LexFault {
        LexFault::Memory
    }
}
