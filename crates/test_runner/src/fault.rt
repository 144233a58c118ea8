//! Why a script isn't run to its end.
use edge_io::SinkFail;
use exchange::RunFault;
use std::alloc::{AllocError, AllocFailed};
use thiserror::Error;
use xfrac::Held;

/// Why a load is refused, with the line of the first refused sample, counted from 1.
#[derive(Clone, Copy, Debug, PartialEq, Eq, Error)]
pub enum LoadRefusal {
    /// The sample `given` by the line differs from the one that is `kept` at its time.
    #[error("line {line} has another value at the time of a sample")]
    Conflict { line: u32, kept: Held, given: Held },
    /// The series of the line has the labels of no declared engine.
    #[error("line {line} has a series of no engine")]
    Unplaced { line: u32 },
    /// A sample of the line is the 2,000,001st.
    #[error("line {line} has a sample too many")]
    TooManySamples { line: u32 },
    /// The series of the line is the 100,001st.
    #[error("line {line} has a series too many")]
    TooManySeries { line: u32 },
}

/// Why a script isn't run to its end.
#[derive(Clone, Copy, Debug, PartialEq, Eq, Error)]
pub enum RunnerFault {
    /// The store refuses a load. Nothing of the script was run.
    #[error("a load is refused")]
    Refused(LoadRefusal),
    /// A sample's value or time, on this line, is outside the limits. Nothing of the script was run.
    #[error("line {0} has a number outside the limits")]
    Range(u32),
    /// An engine failed.
    #[error("an engine failed")]
    Run(RunFault),
    /// A write failed.
    #[error("a write failed")]
    Write,
    /// There is no memory left.
    #[error("out of memory")]
    Memory,
}

impl From<SinkFail> for RunnerFault {
    ghost use Rattle.std.specs.Prelude.{◌≡◌};
    ghost use Rattle.test_runner.specs.Running.{cut_by};

    ghost from_gives = { λ cause e. e ≡ cut_by cause };

    fn from(cause: SinkFail) -> RunnerFault {
        match cause {
            SinkFail::Failed => RunnerFault::Write,
            SinkFail::Memory => RunnerFault::Memory,
        }
    }
}

impl From<AllocError> for RunnerFault {
    ghost use Rattle.std.specs.Prelude.{◌≡◌};
    ghost use Rattle.test_runner.specs.declared.fault.RunnerFault.TheVariants.{Memory};

    ghost from_gives = { λ _ e. e ≡ Memory };

    fn from(_: AllocError) -> RunnerFault {
        RunnerFault::Memory
    }
}

impl<T: Drop> From<AllocFailed<T>> for RunnerFault {
    ghost use Rattle.std.specs.Prelude.{◌≡◌};
    ghost use Rattle.test_runner.specs.declared.fault.RunnerFault.TheVariants.{Memory};

    ghost from_gives = { λ _ e. e ≡ Memory };

    fn from(_: AllocFailed<T>) -> RunnerFault {
        RunnerFault::Memory
    }
}
