ghost use Rattle.std.specs.Prelude.{◌≡◌, IfOk};

use crate::marks::Marks;
use func_table::Aggregate;
use label_set::{Grouping, Items, Labels};
use std::alloc::AllocError;
use ticks::Ms;
use xfrac::{SumAcc, XFrac};

/// What a part of a plan gives under some labels at one instant, before it is finished.
#[derive(Debug, Drop, PartialEq, Eq)]
pub enum Cell {
    /// The value of a row.
    Value(XFrac),
    /// The samples of a window, in rising time: times in milliseconds, and as many values.
    Window {
        times: Items<Ms>,
        values: Items<XFrac>,
    },
    /// A sum that is not finished.
    Sum(SumAcc),
    /// How many rows.
    Count(u64),
}

impl Cell {
    /// An equal value, on the allocators of this one. The only error is want of memory.
    pub fn copy(&self) -> Result<Cell, AllocError>
        ensures { IfOk result (λ c. c ≡ self.now) }
    {
        match self {
            Cell::Value(value) => Ok(Cell::Value(*value)),
            Cell::Window { times, values } => Ok(Cell::Window {
                times: times.copy()?,
                values: values.copy()?,
            }),
            Cell::Sum(sum) => Ok(Cell::Sum(*sum)),
            Cell::Count(count) => Ok(Cell::Count(*count)),
        }
    }
}

impl Clone for Cell {
    ghost is_clone = { λ s t. t ≡ s };

    fn clone(&self) -> Result<Cell, AllocError> {
        self.copy()
    }
}

/// A cell under its labels.
#[derive(Debug, Drop, PartialEq, Eq)]
pub struct CellRow {
    pub labels: Labels,
    pub cell: Cell,
}

impl CellRow {
    /// An equal value, on the allocators of this one. The only error is want of memory.
    pub fn copy(&self) -> Result<CellRow, AllocError>
        ensures { IfOk result (λ r. r ≡ self.now) }
    {
        Ok(CellRow {
            labels: self.labels.copy()?,
            cell: self.cell.copy()?,
        })
    }
}

impl Clone for CellRow {
    ghost is_clone = { λ s t. t ≡ s };

    fn clone(&self) -> Result<CellRow, AllocError> {
        self.copy()
    }
}

/// What a part of a plan gives at one instant, in milliseconds.
#[derive(Debug, Drop, PartialEq, Eq)]
pub struct StepCells {
    pub at: Ms,
    pub rows: Items<CellRow>,
    pub marks: Marks,
}

impl StepCells {
    /// An equal value, on the allocators of this one. The only error is want of memory.
    pub fn copy(&self) -> Result<StepCells, AllocError>
        ensures { IfOk result (λ s. s ≡ self.now) }
    {
        Ok(StepCells {
            at: self.at,
            rows: self.rows.copy()?,
            marks: self.marks.copy()?,
        })
    }
}

impl Clone for StepCells {
    ghost is_clone = { λ s t. t ≡ s };

    fn clone(&self) -> Result<StepCells, AllocError> {
        self.copy()
    }
}

/// What kind of cells a part of a plan gives: values of rows, windows, or what an aggregation makes of each group before
/// it is finished.
#[derive(Debug, Drop, PartialEq, Eq)]
pub enum PartKind {
    Rows,
    Windows,
    Partial(Aggregate, Grouping),
}

impl PartKind {
    /// An equal value, on the allocators of this one. The only error is want of memory.
    pub fn copy(&self) -> Result<PartKind, AllocError>
        ensures { IfOk result (λ k. k ≡ self.now) }
    {
        match self {
            PartKind::Rows => Ok(PartKind::Rows),
            PartKind::Windows => Ok(PartKind::Windows),
            PartKind::Partial(aggregate, grouping) => {
                Ok(PartKind::Partial(*aggregate, grouping.copy()?))
            }
        }
    }
}

impl Clone for PartKind {
    ghost is_clone = { λ s t. t ≡ s };

    fn clone(&self) -> Result<PartKind, AllocError> {
        self.copy()
    }
}
