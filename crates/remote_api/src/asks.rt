ghost use Rattle.std.specs.Prelude.{◌≡◌, IfOk};

use promql_ast::Expr;
use std::alloc::AllocError;
use step_table::PartKind;
use ticks::{Ms, Walk, WalkMoment};

/// A part of a plan that engines are asked for: an expression, and what kind of cells it is to give.
#[derive(Drop)]
pub struct Part {
    pub expr: Expr,
    pub kind: PartKind,
}

impl Part {
    /// An equal value, on the allocators of this one. The only error is want of memory.
    pub fn copy(&self) -> Result<Part, AllocError>
        ensures { IfOk result (λ p. p ≡ self.now) }
    {
        Ok(Part {
            expr: self.expr.copy()?,
            kind: self.kind.copy()?,
        })
    }
}

/// What the steps that are delivered have to be: cells of a kind at the instants of a walk, one after another. A window ends at
/// the moment that belongs to its instant and is `range` milliseconds long; neither is read for another kind.
#[derive(Debug, Drop, PartialEq, Eq)]
pub struct Ask {
    pub walk: Walk,
    pub kind: PartKind,
    pub moment: WalkMoment,
    pub range: Ms,
}

impl Ask {
    /// An equal value, on the allocators of this one. The only error is want of memory.
    pub fn copy(&self) -> Result<Ask, AllocError>
        ensures { IfOk result (λ a. a ≡ self.now) }
    {
        Ok(Ask {
            walk: self.walk.copy()?,
            kind: self.kind.copy()?,
            moment: self.moment,
            range: self.range,
        })
    }
}
