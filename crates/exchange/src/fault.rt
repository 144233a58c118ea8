ghost use Rattle.exchange.specs.Faults.{fault_of};
ghost use Rattle.std.specs.Prelude.{◌≡◌};

use op_gather::GatherRefusal;
use thiserror::Error;
use ticks::Ms;

/// Why the gathers of a tree can't go on. Engines are counted from 0, and instants are in milliseconds.
#[derive(Clone, Copy, Debug, PartialEq, Eq, Error)]
pub enum RunFault {
    /// The engine failed.
    #[error("an engine failed")]
    EngineFault {
        engine: u32,
    },
    /// The engine gave a step that isn't its next instant, or no step, or its end where another instant was to come.
    #[error("an engine is out of step")]
    OutOfStep {
        engine: u32,
        expected: Option<Ms>,
        got: Option<Ms>,
    },
    /// The engine gave a cell of another kind than was asked, or labels that stand twice in the step at this instant.
    #[error("an engine gave a wrong cell")]
    WrongCell {
        engine: u32,
        at: Ms,
    },
    /// Memory ran out.
    #[error("out of memory")]
    Memory,
}

impl RunFault {
    /// What is told of an engine whose delivery was refused.
    pub(crate) fn of(engine: u32, refusal: GatherRefusal) -> RunFault
        ensures { result ≡ fault_of engine refusal }
    {
        match refusal {
            GatherRefusal::OutOfStep { expected, got } => RunFault::OutOfStep {
                engine,
                expected,
                got,
            },
            GatherRefusal::WrongCell { at } => RunFault::WrongCell { engine, at },
            GatherRefusal::Memory => RunFault::Memory,
        }
    }
}
