ghost use Rattle.promql_meaning.specs.Givens.{barren, no_marks, step_of, unstamped};
ghost use Rattle.std.specs.Prelude.{◌≡◌, map, IfOk};

use label_set::{Items, Labels, Rule, Text};
use std::alloc::{AllocError, Global};
use step_table::{Marks, Row, Step, WindowRow, step_of_rows};
use ticks::Ms;
use xfrac::XFrac;

/// A row of an instant selector, with the time of its sample in milliseconds.
#[derive(Drop)]
pub struct Stamped {
    pub labels: Labels,
    pub at: Ms,
    pub value: XFrac,
}

/// What an instant selector gives at one instant: its rules in the order of the text, and a row for each series that
/// passes them and has a sample, in the order of labels.
#[derive(Drop)]
pub struct Selection {
    pub rules: Items<Rule>,
    pub rows: Items<Stamped>,
}

/// The windows of one instant, in the order of labels: the times and values of the samples in the `range` milliseconds up to
/// `moment`, at least one in each. A range selector has its rules in the order of the text, a subquery has none.
#[derive(Drop)]
pub struct Windows {
    pub moment: Ms,
    pub range: Ms,
    pub rules: Items<Rule>,
    pub rows: Items<WindowRow>,
    pub marks: Marks,
}

/// What an expression gives at one instant, by its type.
#[derive(Drop)]
pub enum Given {
    /// A table of one row without labels, or of none where that row is lost to a fatal mark.
    Scalar(Step),
    /// A vector.
    Vector(Step),
    /// The vector of an instant selector.
    Selected(Selection),
    /// A range vector.
    Windows(Windows),
    /// A string.
    Words(Text),
}

impl Given {
    /// The step of a scalar or a vector; windows and words have no rows. The only error is want of memory.
    pub fn into_step(self, alloc: Global) -> Result<Step, AllocError>
        ensures { IfOk result (λ step. step ≡ step_of self) }
    {
        match self {
            Given::Scalar(step) => Ok(step),
            Given::Vector(step) => Ok(step),
            Given::Selected(selection) => {
                let rows = unstamped(alloc, selection.rows)?;
                Ok(step_of_rows(rows, no_marks(alloc)))
            }
            Given::Windows(_) => Ok(barren(alloc, no_marks(alloc))),
            Given::Words(_) => Ok(barren(alloc, no_marks(alloc))),
        }
    }
}

/// The rows of a selector without the times of their samples.
fn unstamped(alloc: Global, stamped: Items<Stamped>) -> Result<Items<Row>, AllocError>
    ensures { IfOk result (λ rows. rows ≡ map unstamped stamped) }
{
    let mut rows = Items::new(alloc);
    for row in stamped.into_vec() {
        let Stamped { labels, value, .. } = row;
        rows.push(Row { labels, value })?;
    }
    Ok(rows)
}

/// No mark and no note.
pub fn no_marks(alloc: Global) -> Marks
    ensures { result ≡ no_marks }
{
    Marks {
        fatal: Items::new(alloc),
        notes: Items::new(alloc),
    }
}

/// No rows, with these marks.
pub fn barren(alloc: Global, marks: Marks) -> Step
    ensures { result ≡ barren marks }
{
    step_of_rows(Items::new(alloc), marks)
}
