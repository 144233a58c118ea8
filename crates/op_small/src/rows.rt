//! Rules that make a row of each row.
ghost use Rattle.op_small.specs.Rules.{each_at, each_of, small_at, value_of};
ghost use Rattle.op_small.specs.declared.rule.SmallRule.TheVariants.{Vector};
ghost use Rattle.std.specs.Prelude.{◌≡◌, map, OnOk};
ghost use Rattle.step_batch.specs.Lent.{stages};
ghost use Rattle.step_put.specs.declared.labels_left.Left.TheVariants.{All as all_labels};

use std::alloc::AllocError;
use step_batch::laws::lent_steps_are_tables;
use step_batch::{Batch, Slot};
use step_put::{OutcomeBuffer, PlacedOutcome};
use step_rules::seconds_of;
use step_table::order_laws::rows_ignore_order;
use ticks::Ms;
use xfrac::{NumFault, XFrac};

/// Puts of each step its rows with their values, or with the instant in seconds.
pub(crate) fn put_rows(
    buffer: &mut OutcomeBuffer,
    made: &mut Vec<PlacedOutcome>,
    own: bool,
    rows: &Batch<'_>,
) -> Result<(), AllocError>
    ensures left { buffer.new.left ≡ buffer.old.left }
    ensures lent { OnOk result (stages buffer.new.lent ≡ map (each_at buffer.old.left own) (stages rows.now)) }
{
    lent_steps_are_tables();
    rows_ignore_order();
    buffer.begin_feed(rows.labels())?;
    for i in 0..rows.len() {
        let t = rows.at(i);
        make_all(made, own, t, rows.slots(i))?;
        buffer.put(t, rows.marks(i), made.as_slice())?;
    }
    Ok(())
}

/// Puts the rows of each step as they are.
pub(crate) fn put_copies(
    buffer: &mut OutcomeBuffer,
    made: &mut Vec<PlacedOutcome>,
    rows: &Batch<'_>,
) -> Result<(), AllocError>
    requires { buffer.old.left ≡ all_labels }
    ensures left { buffer.new.left ≡ buffer.old.left }
    ensures lent { OnOk result (stages buffer.new.lent ≡ map (small_at Vector) (stages rows.now)) }
{
    lent_steps_are_tables();
    put_rows(buffer, made, true, rows)?;
    Ok(())
}

/// What is made of each slot, in the place of what was made before.
fn make_all(
    made: &mut Vec<PlacedOutcome>,
    own: bool,
    t: Ms,
    slots: &[Slot],
) -> Result<(), AllocError>
    ensures { OnOk result (made.new.items ≡ map (each_of own t.0) slots.now) }
{
    made.clear();
    for slot in slots {
        made.push(PlacedOutcome {
            place: slot.place,
            value: value_of_row(own, t, slot.value),
        })?;
    }
    Ok(())
}

fn value_of_row(own: bool, t: Ms, value: XFrac) -> Result<Option<XFrac>, NumFault>
    ensures { result ≡ value_of own t.0 value }
{
    if own { Ok(Some(value)) } else { seconds_of(t) }
}
