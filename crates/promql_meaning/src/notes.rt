ghost use Rattle.promql_meaning.specs.Outcomes.{is_outside as is_outside_unit, range_notes, range_notes_of, with_notes};
ghost use Rattle.std.specs.Prelude.{◌≡◌, IfOk};

use label_set::Items;
use std::alloc::{AllocError, Global};
use step_table::{Marks, Note, as_set};
use xfrac::{CompareOp, XFrac, compare, is_nan, whole};

/// The marks and notes, with the notes of a list in any order. The only error is want of memory.
pub fn with_notes(alloc: Global, marks: Marks, notes: Items<Note>) -> Result<Marks, AllocError>
    ensures { IfOk result (λ m. m ≡ with_notes marks notes) }
{
    let mut marks = marks;
    let more = Marks {
        fatal: Items::new(alloc),
        notes: as_set(alloc, notes)?,
    };
    marks.unite(&more)?;
    Ok(marks)
}

/// Whether a quantile is NaN, below 0 or above 1.
pub fn is_outside(q: &XFrac) -> bool
    ensures { result ≡ is_outside_unit q.now }
{
    is_nan(q) || compare(CompareOp::Lt, q, &whole(0)) || compare(CompareOp::Gt, q, &whole(1))
}

/// The note of a quantile outside 0 to 1. The only error is want of memory.
pub fn range_notes(alloc: Global, q: &XFrac) -> Result<Items<Note>, AllocError>
    ensures { IfOk result (λ notes. notes ≡ range_notes q.now) }
{
    let mut notes = Items::new(alloc);
    if is_outside(q) {
        notes.push(Note::QuantileRange(*q))?;
    }
    Ok(notes)
}

/// The same where something is there to have a quantile of. The only error is want of memory.
pub fn range_notes_of<T>(alloc: Global, q: &XFrac, all: &[T]) -> Result<Items<Note>, AllocError>
    ensures { IfOk result (λ notes. notes ≡ range_notes_of q.now all.now) }
{
    if all.is_empty() {
        return Ok(Items::new(alloc));
    }
    range_notes(alloc, q)
}
