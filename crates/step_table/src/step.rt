ghost use Rattle.std.specs.Prelude.{◌≡◌, ◌↔◌, IfOk, IsTrue};
ghost use Rattle.step_table.specs.Sets.{step_of_rows};

use crate::marks::Marks;
use label_set::{Items, Labels};
use std::alloc::AllocError;
use xfrac::XFrac;

/// A value under its labels.
#[derive(Debug, Drop, PartialEq, Eq)]
pub struct Row {
    pub labels: Labels,
    pub value: XFrac,
}

impl Row {
    /// Whether the two have the same labels and the same value.
    pub fn is_same(&self, other: &Row) -> bool
        ensures { IsTrue result ↔ (self.now ≡ other.now) }
    {
        self.labels.is_same(&other.labels) && self.value == other.value
    }

    /// An equal value, on the allocators of this one. The only error is want of memory.
    pub fn copy(&self) -> Result<Row, AllocError>
        ensures { IfOk result (λ r. r ≡ self.now) }
    {
        Ok(Row {
            labels: self.labels.copy()?,
            value: self.value,
        })
    }
}

impl Clone for Row {
    ghost is_clone = { λ s t. t ≡ s };

    fn clone(&self) -> Result<Row, AllocError> {
        self.copy()
    }
}

/// Rows in the order of their labels, no two with equal labels.
#[derive(Debug, Drop, PartialEq, Eq)]
pub struct Table {
    pub rows: Items<Row>,
}

impl Table {
    /// Whether the two have the same rows. It takes no memory.
    pub fn is_same(&self, other: &Table) -> bool
        ensures { IsTrue result ↔ (self.now ≡ other.now) }
    {
        are_same_rows(self.rows.as_slice(), other.rows.as_slice())
    }

    /// An equal value, on the allocators of this one. The only error is want of memory.
    pub fn copy(&self) -> Result<Table, AllocError>
        ensures { IfOk result (λ t. t ≡ self.now) }
    {
        Ok(Table {
            rows: self.rows.copy()?,
        })
    }
}

impl Clone for Table {
    ghost is_clone = { λ s t. t ≡ s };

    fn clone(&self) -> Result<Table, AllocError> {
        self.copy()
    }
}

fn are_same_rows(a: &[Row], b: &[Row]) -> bool
    ensures same { IsTrue result → a.now ≡ b.now }
    ensures complete { a.now ≡ b.now → IsTrue result }
{
    if a.len() != b.len() {
        return false;
    }
    for i in 0..a.len() {
        if !a[i].is_same(&b[i]) {
            return false;
        }
    }
    true
}

/// What an expression gives at one instant.
#[derive(Debug, Drop, PartialEq, Eq)]
pub struct Step {
    pub table: Table,
    pub marks: Marks,
}

impl Step {
    /// Whether the two have the same rows, marks and notes. It takes no memory.
    pub fn is_same(&self, other: &Step) -> bool
        ensures { IsTrue result ↔ (self.now ≡ other.now) }
    {
        self.table.is_same(&other.table) && self.marks.is_same(&other.marks)
    }

    /// An equal value, on the allocators of this one. The only error is want of memory.
    pub fn copy(&self) -> Result<Step, AllocError>
        ensures { IfOk result (λ s. s ≡ self.now) }
    {
        Ok(Step {
            table: self.table.copy()?,
            marks: self.marks.copy()?,
        })
    }
}

impl Clone for Step {
    ghost is_clone = { λ s t. t ≡ s };

    fn clone(&self) -> Result<Step, AllocError> {
        self.copy()
    }
}

/// A table of these rows, with these marks.
pub fn step_of_rows(rows: Items<Row>, marks: Marks) -> Step
    ensures { result ≡ step_of_rows rows marks }
{
    Step {
        table: Table { rows },
        marks,
    }
}
