//! Steps of engines as texts, and the frames that they are cut into.
use func_table::Aggregate;
use label_set::{Grouping, Items};
use remote_api::Frame;
use std::alloc::Global;
use std::test::Fail;
use step_table::{Cell, CellRow, PartKind, Row, Step, StepCells};
use ticks::Ms;
use written_steps::steps;
use xfrac::{SumAcc, XFrac, parts};

fn aggregate(word: &str) -> Result<Aggregate, Fail> {
    match word {
        "sum" => Ok(Aggregate::Sum),
        "avg" => Ok(Aggregate::Avg),
        "min" => Ok(Aggregate::Min),
        "max" => Ok(Aggregate::Max),
        "count" => Ok(Aggregate::Count),
        "group" => Ok(Aggregate::Group),
        _ => Err("no such kind of cells")?,
    }
}

/// The kind of cells that a word names: `rows`, `windows`, or an aggregation.
pub fn kind(alloc: Global, word: &str) -> Result<PartKind, Fail> {
    if word == "rows" {
        return Ok(PartKind::Rows);
    }
    if word == "windows" {
        return Ok(PartKind::Windows);
    }
    let names = Items::new(alloc);
    let without = false;
    Ok(PartKind::Partial(aggregate(word)?, Grouping { without, names }))
}

fn count(value: &XFrac) -> Result<Cell, Fail> {
    match value {
        XFrac::Fin(f) => Ok(Cell::Count(u64::try_from(parts(f).0)?)),
        _ => Err("no count")?,
    }
}

fn sum(value: &XFrac) -> Result<Cell, Fail> {
    let mut sum = SumAcc::new();
    sum.add(value)?;
    Ok(Cell::Sum(sum))
}

/// A window of two samples of one value, at an instant and 5 milliseconds before it.
fn window(alloc: Global, at: Ms, value: &XFrac) -> Result<Cell, Fail> {
    let mut times = Items::new(alloc);
    times.push(Ms(at.0.checked_sub(5).ok_or("no such instant")?))?;
    times.push(at)?;
    let mut values = Items::new(alloc);
    values.push(*value)?;
    values.push(*value)?;
    Ok(Cell::Window { times, values })
}

/// A cell of a kind: the value that is written, the sum of it alone, so many rows, or a window of it.
fn cell(alloc: Global, kind: &PartKind, at: Ms, value: &XFrac) -> Result<Cell, Fail> {
    match kind {
        PartKind::Rows => Ok(Cell::Value(*value)),
        PartKind::Windows => window(alloc, at, value),
        PartKind::Partial(f, _) => match f {
            Aggregate::Sum | Aggregate::Avg => sum(value),
            Aggregate::Count | Aggregate::Group => count(value),
            _ => Ok(Cell::Value(*value)),
        },
    }
}

fn cell_rows(alloc: Global, kind: &PartKind, at: Ms, rows: &[Row]) -> Result<Items<CellRow>, Fail> {
    let mut cells = Items::new(alloc);
    for row in rows {
        let labels = row.labels.copy()?;
        let cell = cell(alloc, kind, at, &row.value)?;
        cells.push(CellRow { labels, cell })?;
    }
    Ok(cells)
}

/// The cells of a written step.
fn cells(alloc: Global, kind: &PartKind, at: Ms, step: &Step) -> Result<StepCells, Fail> {
    Ok(StepCells {
        at,
        rows: cell_rows(alloc, kind, at, step.table.rows.as_slice())?,
        marks: step.marks.copy()?,
    })
}

/// The cells of written steps, in their order.
pub fn all_cells(alloc: Global, kind: &PartKind, text: &str) -> Result<Items<StepCells>, Fail> {
    let steps = steps(alloc, text)?;
    let mut all = Items::new(alloc);
    for (at, step) in steps.as_slice() {
        all.push(cells(alloc, kind, *at, step)?)?;
    }
    Ok(all)
}

/// The steps that an engine has still to deliver, the next one last, in frames of up to so many; and whether its end was delivered.
#[derive(Drop)]
pub struct Source {
    left: Vec<StepCells>,
    size: u32,
    pub has_ended: bool,
}

impl Source {
    /// The written steps of a kind.
    pub fn read(alloc: Global, kind: &PartKind, text: &str, size: u32) -> Result<Source, Fail> {
        let mut left = all_cells(alloc, kind, text)?.into_vec();
        left.reverse();
        Ok(Source {
            left,
            size,
            has_ended: false,
        })
    }

    /// Whether no step is left.
    pub fn is_empty(&self) -> bool {
        self.left.is_empty()
    }

    /// The next frame.
    pub fn next(&mut self, alloc: Global) -> Result<Frame, Fail> {
        let mut frame = Frame::new(alloc);
        for _ in 0..self.size {
            if let Some(step) = self.left.pop() {
                frame.steps.push(step)?;
            }
        }
        Ok(frame)
    }
}
