//! Rules that make one row at most, under labels of their own.
ghost use Rattle.op_small.specs.Rules.{absent_value as value_under, bare, names_under, rule_of, small_at, value_at as number_at, value_of_slots};
ghost use Rattle.op_small.specs.declared.rule.SmallRule.TheVariants.{Absent, Scalar};
ghost use Rattle.std.specs.Prelude.{◌≡◌, ◌∷◌, [], map, OnOk};
ghost use Rattle.step_batch.specs.Lent.{stages};
ghost use Rattle.step_batch.specs.LentWindows.{TimesRise};
ghost use Rattle.step_put.specs.declared.labels_left.Left.TheVariants.{All as all_labels};

use label_set::Labels;
use promql_meaning::no_marks;
use std::alloc::{AllocError, Global};
use std::slice;
use step_batch::laws::lent_steps_are_tables;
use step_batch::{Batch, Slot};
use step_put::{OutcomeBuffer, PlacedOutcome};
use step_rules::seconds_of;
use step_table::laws::steps_are_well_formed;
use ticks::Ms;
use xfrac::{NumFault, XFrac, whole};

/// Puts a number at each instant, or where there is none the instant in seconds.
pub(crate) fn put_instants(
    alloc: Global,
    buffer: &mut OutcomeBuffer,
    number: &Option<XFrac>,
    at: &[Ms],
) -> Result<(), AllocError>
    requires rising { TimesRise at.now }
    requires left { buffer.old.left ≡ all_labels }
    ensures left { buffer.new.left ≡ buffer.old.left }
    ensures lent { OnOk result (stages buffer.new.lent ≡ map (small_at (rule_of number.now)) (bare at.now)) }
{
    steps_are_well_formed();
    let none = Labels::empty(alloc);
    buffer.begin_feed(slice::from_ref(&none))?;
    let marks = no_marks(alloc);
    for t in at {
        let value = value_at(number, *t);
        buffer.put(*t, &marks, &[PlacedOutcome { place: 0, value }])?;
    }
    Ok(())
}

fn value_at(number: &Option<XFrac>, t: Ms) -> Result<Option<XFrac>, NumFault>
    ensures { result ≡ number_at number.now t.0 }
{
    match number {
        Some(value) => Ok(Some(*value)),
        None => seconds_of(t),
    }
}

/// Puts of each step the value of its one row, else NaN, as a scalar.
pub(crate) fn put_scalars(
    alloc: Global,
    buffer: &mut OutcomeBuffer,
    rows: &Batch<'_>,
) -> Result<(), AllocError>
    requires { buffer.old.left ≡ all_labels }
    ensures left { buffer.new.left ≡ buffer.old.left }
    ensures lent { OnOk result (stages buffer.new.lent ≡ map (small_at Scalar) (stages rows.now)) }
{
    steps_are_well_formed();
    lent_steps_are_tables();
    let none = Labels::empty(alloc);
    buffer.begin_feed(slice::from_ref(&none))?;
    for i in 0..rows.len() {
        let t = rows.at(i);
        let value = Ok(Some(value_of_one(rows.slots(i))));
        buffer.put(t, rows.marks(i), &[PlacedOutcome { place: 0, value }])?;
    }
    Ok(())
}

fn value_of_one(slots: &[Slot]) -> XFrac
    ensures { result ≡ value_of_slots slots.now }
{
    match slots {
        [slot] => slot.value,
        _ => XFrac::NaN,
    }
}

/// Puts of each step one row 1 where it has none.
pub(crate) fn put_absences(
    alloc: Global,
    buffer: &mut OutcomeBuffer,
    under: &Option<Labels>,
    rows: &Batch<'_>,
) -> Result<(), AllocError>
    requires { buffer.old.left ≡ all_labels }
    ensures left { buffer.new.left ≡ buffer.old.left }
    ensures lent { OnOk result (stages buffer.new.lent ≡ map (small_at (Absent under.now)) (stages rows.now)) }
{
    steps_are_well_formed();
    lent_steps_are_tables();
    begin_under(alloc, buffer, under)?;
    for i in 0..rows.len() {
        let t = rows.at(i);
        let value = absent_value(under, rows.slots(i));
        buffer.put(t, rows.marks(i), &[PlacedOutcome { place: 0, value }])?;
    }
    Ok(())
}

/// Takes all steps out; the labels of what is absent are those of the row to come.
fn begin_under(
    alloc: Global,
    buffer: &mut OutcomeBuffer,
    under: &Option<Labels>,
) -> Result<(), AllocError>
    ensures left { buffer.new.left ≡ buffer.old.left }
    ensures fed { OnOk result (buffer.new.fed ≡ names_under under.now ∷ []) }
    ensures steps { buffer.new.lent.steps ≡ [] }
{
    match under {
        Some(labels) => buffer.begin_feed(slice::from_ref(labels)),
        None => {
            let none = Labels::empty(alloc);
            buffer.begin_feed(slice::from_ref(&none))
        }
    }
}

fn absent_value(under: &Option<Labels>, slots: &[Slot]) -> Result<Option<XFrac>, NumFault>
    ensures { result ≡ value_under under.now slots.now }
{
    match slots {
        [_, ..] => Ok(None),
        [] => match under {
            Some(_) => Ok(Some(whole(1))),
            None => Err(NumFault::Overflow),
        },
    }
}
