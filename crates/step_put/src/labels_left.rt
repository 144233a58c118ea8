ghost use Rattle.std.specs.Prelude.{◌≡◌, IfOk};
ghost use Rattle.step_put.specs.Placed.{left_of};

use label_set::{Items, Labels, Text};
use std::alloc::{AllocError, Global};
use step_table::without_name;

/// What is left of labels.
#[derive(Debug, Drop)]
pub enum Left {
    /// All of them.
    All,
    /// All but the metric's name.
    Nameless,
    /// Those that rows are grouped or matched by: with `on` the labels of these names, and else the others but the metric's
    /// name.
    Signature { on: bool, names: Items<Text> },
}

impl Left {
    /// What is left of these labels. The only error is want of memory.
    pub fn of(&self, alloc: Global, labels: &Labels) -> Result<Labels, AllocError>
        ensures { IfOk result (λ l. l ≡ left_of self.now labels.now) }
    {
        match self {
            Left::All => labels.copy(),
            Left::Nameless => without_name(alloc, labels),
            Left::Signature { on, names } => labels.signature(*on, names),
        }
    }
}
