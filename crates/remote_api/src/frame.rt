ghost use Rattle.std.specs.Prelude.{◌≡◌, [], IfOk};

use label_set::Items;
use std::alloc::{AllocError, Global};
use step_table::StepCells;
use ticks::Ms;

/// The steps of one delivery, in the order of their instants.
#[derive(Debug, Drop, PartialEq, Eq)]
pub struct Frame {
    pub steps: Items<StepCells>,
}

impl Frame {
    /// A frame without steps. It takes no memory.
    pub fn new(alloc: Global) -> Frame
        ensures { result.steps ≡ [] }
    {
        Frame {
            steps: Items::new(alloc),
        }
    }

    /// An equal value, on the allocators of this one. The only error is want of memory.
    pub fn copy(&self) -> Result<Frame, AllocError>
        ensures { IfOk result (λ f. f ≡ self.now) }
    {
        Ok(Frame {
            steps: self.steps.copy()?,
        })
    }
}

impl Clone for Frame {
    ghost is_clone = { λ s t. t ≡ s };

    fn clone(&self) -> Result<Frame, AllocError> {
        self.copy()
    }
}

/// Why a delivery isn't what was asked for, with instants in milliseconds.
#[derive(Clone, Copy, Debug, PartialEq, Eq)]
pub enum Stray {
    /// At the instant that was to come stands another step, or none; where none was to come, one stands.
    OutOfStep {
        expected: Option<Ms>,
        got: Option<Ms>,
    },
    /// The step at this instant has a cell of another kind, or labels that stand twice.
    WrongCell {
        at: Ms,
    },
}
