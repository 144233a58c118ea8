ghost use Rattle.std.specs.Prelude.{◌≡◌, ◌<◌, length, IsTrue, OnOk};

use crate::shown::number;
use func_table::Aggregate;
use op_aggregate::{Grouped, is_partial};
use std::alloc::Global;
use std::test::Fail;
use step_batch::Batch;
use step_table::{CellRow, Row, Step, StepCells};
use ticks::Ms;
use written_steps::{Case, Feed, aggregate, buffer_of, grouping, line_that_differs};

// Each line is an aggregation with its grouping, steps that are fed, and the cells that are owed in the order of labels, written as
// steps: the value of a sum, the mean of an average, the least or greatest value, or how many rows there are.
const LINES: &str =
    "sum by x > 10 a,x=1:1;a,x=2:2;b,x=1:3 | 20 - | 30 a,x=2:5 | 40 b,x=3:1/2;a,x=1:-4;c,x=3:1/3 > 10 ,x=1:4;,x=2:2 | 20 - | 30 ,x=2:5 | 40 ,x=1:-4;,x=3:5/6
sum by > 10 a:1/2;b:1/3;c:-1/6 | 20 a:2;b:-2 | 30 -!O > 10 :2/3 | 20 :0 | 30 -!O
sum by x > 10 a,x=1:big;b,x=1:1;a,x=2:2 | 20 a,x=1:big | 30 a,x=1:big;a,x=2:1;b,x=1:big | 40 a,x=1:big;b,x=1:-1;a,x=2:7 > 10 ,x=2:2!O | 20 ,x=1:big | 30 ,x=2:1!O | 40 ,x=2:7!O
sum by x > 10 a,x=1:nan;b,x=1:1;a,x=2:inf;b,x=2:1;a,x=3:inf;b,x=3:-inf | 20 a,x=1:-inf;b,x=1:5 | 30 a,x=1:1!I | 40 a,x=1:big;b,x=1:1;c,x=1:nan;a,x=2:3!I > 10 ,x=1:nan;,x=2:inf;,x=3:nan | 20 ,x=1:-inf | 30 ,x=1:1!I | 40 ,x=2:3!O!I
sum by x > 10 a,x=2:1;b,x=1:2;c,x=2:3 | 20 b,x=1:5;c,x=2:7 | 30 c,x=2:1;a,x=3:2;b,x=1:4 > 10 ,x=1:2;,x=2:4 | 20 ,x=1:5;,x=2:7 | 30 ,x=1:4;,x=2:1;,x=3:2
sum by __name__ > 10 b:1;a,x=1:2;a,x=2:3;,x=1:4 | 20 a:1 | 30 ,x=2:1 > 10 :4;a:5;b:1 | 20 a:1 | 30 :1
sum without x > 10 a,x=1,y=1:1;b,x=2,y=1:2;a,y=2:4;a,x=1:8 | 20 - | 30 b,y=2:1;b,y=1:2 > 10 :8;,y=1:3;,y=2:4 | 20 - | 30 ,y=1:2;,y=2:1
avg by x > 10 a,x=1:1;a,x=2:2;b,x=1:4 | 20 - | 30 a,x=1:1/2;b,x=1:1/3 | 40 c,x=3:7 > 10 ,x=1:5/2;,x=2:2 | 20 - | 30 ,x=1:5/12 | 40 ,x=3:7
avg by x > 10 a,x=1:big;b,x=1:1;a,x=2:4;b,x=2:6 | 20 a,x=1:1/1000000000000000000000000000000;b,x=1:0;a,x=2:1 | 30 a,x=1:1/1000000000000000000000000000000;b,x=1:1/3;a,x=2:1 > 10 ,x=2:5!O | 20 ,x=1:1/1000000000000000000000000000000;,x=2:1 | 30 ,x=2:1!O
avg by > 10 a:nan;b:1 | 20 a:inf;b:1 | 30 a:inf;b:-inf | 40 a:-inf > 10 :nan | 20 :inf | 30 :nan | 40 :-inf
avg without x > 10 a,x=1,y=1:1;b,x=2,y=1:2;a,x=1:8!C | 20 a,y=2:1/2 | 30 - | 40 b,y=1:3;a,x=3:1;a,x=4:2 > 10 :8;,y=1:3/2!C | 20 ,y=2:1/2 | 30 - | 40 :3/2;,y=1:3
min by x > 10 a,x=1:nan;b,x=1:3;c,x=1:-1;a,x=2:nan | 20 a,x=1:inf;b,x=1:-inf;c,x=2:inf | 30 a,x=1:big;b,x=1:2 > 10 ,x=1:-1;,x=2:nan | 20 ,x=1:-inf;,x=2:inf | 30 ,x=1:2
min without x > 10 - | 20 a,x=1:3;a,x=2:1/2;b,y=1:7 | 30 a,x=1:3!O | 40 b,y=2:big;a,y=1:nan;c,y=2:inf > 10 - | 20 :1/2;,y=1:7 | 30 :3!O | 40 ,y=1:nan;,y=2:big
max by x > 10 a,x=1:nan;b,x=1:3;c,x=1:-1;a,x=2:nan | 20 a,x=1:inf;b,x=1:-inf;c,x=2:-inf | 30 a,x=1:2;b,x=1:big > 10 ,x=1:3;,x=2:nan | 20 ,x=1:inf;,x=2:-inf | 30 ,x=1:big
max without x > 10 - | 20 a,x=1:3;a,x=2:1/2;b,y=1:-7 | 30 a,x=1:-3!I | 40 b,y=2:-2/3;a,y=1:nan;c,y=2:-3/4 > 10 - | 20 :3;,y=1:-7 | 30 :-3!I | 40 ,y=1:nan;,y=2:-2/3
count by x > 10 a,x=1:nan;b,x=1:3;a,x=2:inf | 20 - | 30 b,x=3:1 | 40 a,x=2:-inf;b,x=1:3;c,x=2:-inf > 10 ,x=1:2;,x=2:1 | 20 - | 30 ,x=3:1 | 40 ,x=1:1;,x=2:2
count by > 10 a:big;b:big;c:-inf | 20 a:1!C | 30 - > 10 :3 | 20 :1!C | 30 -
count without x > 10 a,x=1:5;a,x=2:5;b,y=1:5 | 20 a,x=1:5 | 30 a,x=2:5;b,x=2:5 > 10 :2;,y=1:1 | 20 :1 | 30 :2
group by x > 10 a,x=1:nan;b,x=1:3;a,x=2:inf | 20 - | 30 b,x=3:7 > 10 ,x=1:2;,x=2:1 | 20 - | 30 ,x=3:1
group without x > 10 a,x=1:big;b,x=2:big | 20 a,y=1:-inf | 30 -!O | 40 a,y=2:1;b,x=1:1 > 10 :2 | 20 ,y=1:1 | 30 -!O | 40 :1;,y=2:1";

/// A kernel that gives cells.
#[derive(Drop)]
struct Partial {
    f: Aggregate,
    kernel: Grouped,
    ghost gives_cells: { IsTrue kernel.partial },
}

impl Partial {
    /// A kernel of an aggregation with its grouping.
    fn new(alloc: Global, rule: &str) -> Result<Partial, Fail> {
        let (word, by) = rule.split_once(' ').ok_or("no grouping")?;
        let f = aggregate(word)?;
        if !is_partial(f) {
            return Err("an aggregation that engines aren't asked for")?;
        }
        let kernel = Grouped::new(alloc, f, grouping(alloc, by)?, true)?;
        Ok(Partial { f, kernel })
    }
}

fn is_row(f: Aggregate, row: &CellRow, wanted: &Row) -> Result<bool, Fail> {
    let number = number(f, &row.cell)?;
    Ok(row.labels.is_same(&wanted.labels) && number == wanted.value)
}

fn are_rows(f: Aggregate, rows: &[CellRow], wanted: &[Row]) -> Result<bool, Fail> {
    for i in 0..wanted.len() {
        if i >= rows.len() || !is_row(f, &rows[i], &wanted[i])? {
            return Ok(false);
        }
    }
    Ok(rows.len() == wanted.len())
}

/// Whether cells, in their order, are those that are written as a step.
fn are_cells(f: Aggregate, cells: &StepCells, at: Ms, wanted: &Step) -> Result<bool, Fail> {
    if cells.at.0 != at.0 || !cells.marks.is_same(&wanted.marks) {
        return Ok(false);
    }
    are_rows(f, cells.rows.as_slice(), wanted.table.rows.as_slice())
}

/// Whether a kernel owes the wanted cells of steps.
fn are_owed(partial: &Partial, count: usize, wanted: &[(Ms, Step)]) -> Result<bool, Fail>
    requires { count ≡ length partial.now.kernel.owed }
{
    for i in 0..count {
        let cells = partial.kernel.cells(i)?;
        if i >= wanted.len() || !are_cells(partial.f, &cells, wanted[i].0, &wanted[i].1)? {
            return Ok(false);
        }
    }
    Ok(wanted.len() == count)
}

fn feed(partial: &mut Partial, rows: &Batch<'_>) -> Result<(), Fail>
    ensures { OnOk result (length partial.new.kernel.owed ≡ length rows.now.steps) }
{
    partial.kernel.feed(rows)?;
    Ok(())
}

fn is_made(alloc: Global, partial: &mut Partial, fed: &Feed<'_>) -> Result<bool, Fail> {
    let rows = buffer_of(alloc, fed.rows)?;
    let rows = rows.lend();
    feed(partial, &rows)?;
    are_owed(partial, rows.len(), fed.wanted)
}

fn holds(alloc: Global, size: usize, line: &str) -> Result<bool, Fail> {
    let (rule, text) = line.split_once(" > ").ok_or("no rule")?;
    let case = Case::read(alloc, text)?;
    let mut partial = Partial::new(alloc, rule)?;
    case.holds(size, |fed| is_made(alloc, &mut partial, fed))
}

/// The first line that doesn't hold in batches of so many steps.
fn differing(alloc: Global, size: usize) -> Result<&'static str, Fail> {
    line_that_differs(LINES, |line| holds(alloc, size, line))
}

#[test]
fn partial_kernels_owe_cells_in_turn(rt: HostRuntime) -> Result<(), Fail> {
    assert_eq!(rt; differing(rt.alloc(), 1)?, "none");
    Ok(())
}

#[test]
fn partial_kernels_owe_cells_of_three_steps(rt: HostRuntime) -> Result<(), Fail> {
    assert_eq!(rt; differing(rt.alloc(), 3)?, "none");
    Ok(())
}
