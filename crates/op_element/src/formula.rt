ghost use Rattle.op_element.specs.Rules.{left_by as left_by_rule, reads_first as takes_first, reads_second as takes_second, slot_read, value_made as made_of, all_marks as marks_of_all, marks_read as marks_with, slots_placed};
ghost use Rattle.promql_meaning.specs.Givens.{both};
ghost use Rattle.promql_meaning.specs.Meaning.{zero_number};
ghost use Rattle.std.specs.Prelude.{◌≡◌, [], Some, IfOk, OnOk};

use func_table::Element;
use std::alloc::AllocError;
use step_batch::Slot;
use step_put::{Left, PlacedOutcome};
use step_rules::operated_with;
use step_table::{Marks, drops_name};
use value_fn::element;
use xfrac::{NumFault, PairOp, XFrac, whole};

/// An element function, or an operator between a vector and a scalar, which is the left operand where `scalar_left` says
/// so. (Prometheus querying, "Functions" and "Operators".)
#[derive(Clone, Copy, Debug)]
pub enum ElementRule {
    /// `first` is what `Round` rounds to or a bound, `second` the upper bound of `Clamp`; the other functions read
    /// neither.
    Apply(Element),
    /// The scalar is `first`, on either side; `second` isn't read.
    WithScalar { op: PairOp, scalar_left: bool },
}

/// What a rule leaves of the labels of rows.
pub(crate) fn left_by(rule: ElementRule) -> Left
    ensures { result ≡ left_by_rule rule }
{
    match rule {
        ElementRule::Apply(_) => Left::Nameless,
        ElementRule::WithScalar { op, .. } if drops_name(op) => Left::Nameless,
        ElementRule::WithScalar { .. } => Left::All,
    }
}

pub(crate) fn reads_first(rule: ElementRule) -> bool
    ensures { result ≡ takes_first rule }
{
    match rule {
        ElementRule::Apply(f) => match f {
            Element::Round | Element::Clamp | Element::ClampMin | Element::ClampMax => true,
            _ => false,
        },
        ElementRule::WithScalar { .. } => true,
    }
}

pub(crate) fn reads_second(rule: ElementRule) -> bool
    ensures { result ≡ takes_second rule }
{
    match rule {
        ElementRule::Apply(f) => match f {
            Element::Clamp => true,
            _ => false,
        },
        ElementRule::WithScalar { .. } => false,
    }
}

/// The value of a scalar that is read, unless its row is lost; of one that isn't read 0.
fn value_read(reads: bool, slots: &[Slot]) -> Option<XFrac>
    ensures { result ≡ slot_read reads slots.now }
{
    if !reads {
        return Some(whole(0));
    }
    match slots {
        [] => None,
        [slot, ..] => Some(slot.value),
    }
}

/// The values of the scalars that a rule takes, unless a row is lost.
pub(crate) fn scalars(rule: ElementRule, first: &[Slot], second: &[Slot]) -> Option<(XFrac, XFrac)>
    ensures { result ≡ both (slot_read (takes_first rule) first.now) (slot_read (takes_second rule) second.now) }
{
    match (
        value_read(reads_first(rule), first),
        value_read(reads_second(rule), second),
    ) {
        (Some(first), Some(second)) => Some((first, second)),
        _ => None,
    }
}

/// Marks and notes with those of a scalar that is read.
fn marks_read(reads: bool, marks: Marks, more: &Marks) -> Result<Marks, AllocError>
    ensures { IfOk result (λ m. m ≡ marks_with reads marks more.now) }
{
    let mut marks = marks;
    if reads {
        marks.unite(more)?;
    }
    Ok(marks)
}

/// The marks and notes of a step with those of the scalars that a rule takes.
pub(crate) fn all_marks(
    rule: ElementRule,
    first: &Marks,
    second: &Marks,
    marks: &Marks,
) -> Result<Marks, AllocError>
    ensures { IfOk result (λ m. m ≡ marks_of_all rule first.now second.now marks.now) }
{
    let marks = marks_read(reads_first(rule), marks.copy()?, first)?;
    marks_read(reads_second(rule), marks, second)
}

/// What a rule makes of a value.
fn value_made(
    rule: ElementRule,
    first: &XFrac,
    second: &XFrac,
    value: &XFrac,
) -> Result<Option<XFrac>, NumFault>
    ensures { result ≡ made_of rule (first.now, second.now) value.now }
{
    match rule {
        ElementRule::Apply(f) => element(f, value, first, second),
        ElementRule::WithScalar { op, scalar_left } => {
            operated_with(op, scalar_left, first, value)
        }
    }
}

/// Takes what a rule makes of the rows of a step, in place of what was there.
pub(crate) fn fill(
    placed: &mut Vec<PlacedOutcome>,
    rule: ElementRule,
    scalars: Option<(XFrac, XFrac)>,
    slots: &[Slot],
) -> Result<(), AllocError>
    ensures { OnOk result (placed.new.items ≡ slots_placed rule scalars slots.now) }
{
    placed.clear();
    match scalars {
        None => Ok(()),
        Some((first, second)) => push_all(placed, rule, &first, &second, slots),
    }
}

fn push_all(
    placed: &mut Vec<PlacedOutcome>,
    rule: ElementRule,
    first: &XFrac,
    second: &XFrac,
    slots: &[Slot],
) -> Result<(), AllocError>
    requires { placed.old.items ≡ [] }
    ensures { OnOk result (placed.new.items ≡ slots_placed rule (Some (first.now, second.now)) slots.now) }
{
    for slot in slots {
        placed.push(PlacedOutcome {
            place: slot.place,
            value: value_made(rule, first, second, &slot.value),
        })?;
    }
    Ok(())
}
