//! Why a file isn't run, and why a run is cut off.
ghost use Rattle.promql_tool.specs.Boxes.{cut_of, lost_with};
ghost use Rattle.std.specs.Prelude.{◌≡◌};

use edge_io::SinkFail;
use exchange::RunFault;
use remote_api::Stray;
use script_read::ScriptRefusal;
use std::alloc::{AllocError, AllocFailed};
use test_runner::LoadRefusal;
use thiserror::Error;

/// Why a file is refused: what it says, or what its loads say.
#[derive(Clone, Copy, Debug, PartialEq, Eq, Error)]
pub enum Refusal {
    /// It is no script.
    #[error("the script is refused")]
    Script(ScriptRefusal),
    /// A sample's value or time, on this line, is outside the limits.
    #[error("line {0} has a number outside the limits")]
    Range(u32),
    /// A load of it is refused.
    #[error("a load is refused")]
    Load(LoadRefusal),
}

/// Why a file isn't run.
#[derive(Clone, Copy, Debug, PartialEq, Eq)]
pub enum Stop {
    /// It couldn't be fetched.
    Gone,
    /// Its bytes are refused.
    Refused(Refusal),
}

/// An engine that was lost: the place of its box as the run began, counted from 0, and what it gave last that was refused. It failed
/// where there is none.
#[derive(Clone, Copy, Debug, PartialEq, Eq)]
pub struct Lost {
    pub engine: u32,
    pub stray: Option<Stray>,
}

/// Why a run is cut off before its last line.
#[derive(Clone, Copy, Debug, PartialEq, Eq)]
pub enum Cut {
    /// A write failed.
    Write,
    /// There is no memory left.
    Memory,
    /// An engine was lost.
    Lost(Lost),
}

impl Cut {
    /// An engine that was lost.
    pub fn losing(engine: u32, stray: Option<Stray>) -> Cut
        ensures { result ≡ lost_with engine stray }
    {
        Cut::Lost(Lost { engine, stray })
    }

    /// What an engine's fault cuts off.
    pub fn of(fault: RunFault) -> Cut
        ensures { result ≡ cut_of fault }
    {
        match fault {
            RunFault::EngineFault { engine } => Cut::losing(engine, None),
            RunFault::OutOfStep {
                engine,
                expected,
                got,
            } => Cut::losing(engine, Some(Stray::OutOfStep { expected, got })),
            RunFault::WrongCell { engine, at } => {
                Cut::losing(engine, Some(Stray::WrongCell { at }))
            }
            RunFault::Memory => Cut::Memory,
        }
    }
}

impl From<SinkFail> for Cut {
    ghost use Rattle.promql_tool.specs.Boxes.{cut_by};
    ghost use Rattle.std.specs.Prelude.{◌≡◌};

    ghost from_gives = { λ cause e. e ≡ cut_by cause };

    fn from(cause: SinkFail) -> Cut {
        match cause {
            SinkFail::Failed => Cut::Write,
            SinkFail::Memory => Cut::Memory,
        }
    }
}

impl From<AllocError> for Cut {
    ghost use Rattle.promql_tool.specs.declared.fault.Cut.TheVariants.{Memory};
    ghost use Rattle.std.specs.Prelude.{◌≡◌};

    ghost from_gives = { λ _ e. e ≡ Memory };

    fn from(_: AllocError) -> Cut {
        Cut::Memory
    }
}

impl<T: Drop> From<AllocFailed<T>> for Cut {
    ghost use Rattle.promql_tool.specs.declared.fault.Cut.TheVariants.{Memory};
    ghost use Rattle.std.specs.Prelude.{◌≡◌};

    ghost from_gives = { λ _ e. e ≡ Memory };

    fn from(_: AllocFailed<T>) -> Cut {
        Cut::Memory
    }
}
