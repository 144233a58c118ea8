ghost use Rattle.promql_meaning.specs.Elements.{mapped};
ghost use Rattle.std.specs.Prelude.{◌≡◌, IfOk};

use func_table::Element;
use label_set::Items;
use std::alloc::{AllocError, Global};
use step_table::{Outcome, Step, settled, taken, without_name};
use value_fn::element;
use xfrac::XFrac;

/// An element function of each row, which loses its name. `first` is what `Round` rounds to or a bound, `second` the upper
/// bound of `Clamp`; the other functions read neither. A row whose function has a fault is left out with the fault's mark;
/// of the others, rows that share their labels are all left out, with a mark of these labels. The only error is want of
/// memory. (Prometheus querying, "Functions".)
pub fn map_rows(
    alloc: Global,
    t: &Step,
    f: Element,
    first: &XFrac,
    second: &XFrac,
) -> Result<Step, AllocError>
    ensures { IfOk result (λ step. step ≡ mapped f first.now second.now t.now) }
{
    let mut outcomes = Items::new(alloc);
    for row in t.table.rows.as_slice() {
        outcomes.push(Outcome {
            labels: without_name(alloc, &row.labels)?,
            value: element(f, &row.value, first, second),
        })?;
    }
    settled(alloc, taken(alloc, t.marks.copy()?, outcomes)?)
}
