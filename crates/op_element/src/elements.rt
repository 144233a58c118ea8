ghost use Rattle.op_element.specs.Rules.{IsScalar, element_at, elements, left_by as left_by_rule, reads_first as takes_first, reads_second as takes_second};
ghost use Rattle.std.specs.Option.{option_map};
ghost use Rattle.std.specs.Prelude.{◌≡◌, ◌<◌, ◌<ℤ◌, ◌++◌, ◌∷◌, [], Some, length, slice_get, IfOk, IsTrue, OnOk};
ghost use Rattle.step_batch.specs.Lent.{IsLater, stages};

use crate::formula::{ElementRule, all_marks, fill, left_by, scalars};
use std::alloc::{AllocError, Global};
use std::marker::Model;
use step_batch::Batch;
use step_batch::laws::lent_steps_are_tables;
use step_put::{OutcomeBuffer, PlacedOutcome};
use step_table::order_laws::rows_ignore_order;

/// A kernel of an element function, or of an operator between a vector and a scalar. `placed` is what was made of the rows
/// of the last step, whose memory is kept.
#[derive(Drop)]
pub struct ElementRows {
    rule: ElementRule,
    placed: Vec<PlacedOutcome>,
    rows: OutcomeBuffer,
}

impl Model for ElementRows {
    ghost use Rattle.op_element.specs.Rules.{Elements, left_by};
    ghost use Rattle.std.specs.Prelude.{◌≡◌};

    ghost Value = { Elements };

    ghost view = { λ k. record { rule = k.rule; lent = k.rows.lent } };

    ghost invariant = { λ k. k.rows.left ≡ left_by k.rule };
}

impl ElementRows {
    /// A kernel that was fed nothing. Like the other kernels it may answer want of memory.
    pub fn new(alloc: Global, rule: ElementRule) -> Result<ElementRows, AllocError>
        ensures rule { IfOk result (λ k. k.rule ≡ rule) }
        ensures lent { IfOk result (λ k. stages k.lent ≡ []) }
    {
        Ok(ElementRows {
            rule,
            placed: Vec::new(alloc),
            rows: OutcomeBuffer::new(alloc, left_by(rule)),
        })
    }

    /// Takes what is fed in the place of what was fed before: steps, and beside each the scalars that the rule takes. In
    /// the place of one that it doesn't take any steps may stand, as many. The only error is want of memory; then a next
    /// feed may follow all the same.
    pub fn feed(
        &mut self,
        rows: &Batch<'_>,
        first: &Batch<'_>,
        second: &Batch<'_>,
    ) -> Result<(), AllocError>
        requires firsts { length first.now.steps ≡ length rows.now.steps }
        requires seconds { length second.now.steps ≡ length rows.now.steps }
        requires first_scalar { IsTrue (takes_first self.old.rule) → IsScalar first.now }
        requires second_scalar { IsTrue (takes_second self.old.rule) → IsScalar second.now }
        ensures rule { self.new.rule ≡ self.old.rule }
        ensures lent { OnOk result (stages self.new.lent ≡ elements self.old.rule (stages first.now) (stages second.now) (stages rows.now)) }
    {
        self.rows.begin_feed(rows.labels())?;
        put_all(
            self.rule,
            &mut self.placed,
            &mut self.rows,
            rows,
            first,
            second,
        )
    }

    /// Lends the steps that were made of what was fed last. It takes no memory.
    pub fn lend(&self) -> Batch<'_>
        ensures { result ≡ self.now.lent }
    {
        self.rows.lend()
    }
}

/// Whether each step has at most one row, as those of a scalar have. It takes no memory.
pub fn is_scalar(batch: &Batch<'_>) -> bool
    ensures { IsTrue result → IsScalar batch.now }
{
    for i in 0..batch.len() {
        if batch.slots(i).len() > 1 {
            return false;
        }
    }
    true
}

/// Puts what a rule makes of steps.
fn put_all(
    rule: ElementRule,
    placed: &mut Vec<PlacedOutcome>,
    made: &mut OutcomeBuffer,
    rows: &Batch<'_>,
    first: &Batch<'_>,
    second: &Batch<'_>,
) -> Result<(), AllocError>
    requires firsts { length first.now.steps ≡ length rows.now.steps }
    requires seconds { length second.now.steps ≡ length rows.now.steps }
    requires first_scalar { IsTrue (takes_first rule) → IsScalar first.now }
    requires second_scalar { IsTrue (takes_second rule) → IsScalar second.now }
    requires left { made.old.left ≡ left_by_rule rule }
    requires fed { made.old.fed ≡ rows.now.labels }
    requires empty { made.old.lent.steps ≡ [] }
    ensures left { made.new.left ≡ made.old.left }
    ensures lent { OnOk result (stages made.new.lent ≡ elements rule (stages first.now) (stages second.now) (stages rows.now)) }
{
    for i in 0..rows.len() {
        put_one(rule, placed, made, rows, first, second, i)?;
    }
    Ok(())
}

/// Puts what a rule makes of the step at a place.
fn put_one(
    rule: ElementRule,
    placed: &mut Vec<PlacedOutcome>,
    made: &mut OutcomeBuffer,
    rows: &Batch<'_>,
    first: &Batch<'_>,
    second: &Batch<'_>,
    i: usize,
) -> Result<(), AllocError>
    requires here { i < length rows.now.steps }
    requires firsts { i < length first.now.steps }
    requires seconds { i < length second.now.steps }
    requires first_scalar { IsTrue (takes_first rule) → IsScalar first.now }
    requires second_scalar { IsTrue (takes_second rule) → IsScalar second.now }
    requires left { made.old.left ≡ left_by_rule rule }
    requires fed { made.old.fed ≡ rows.now.labels }
    requires later { (t : _) → option_map (λ s. s.at) (slice_get rows.now.steps i) ≡ Some t → IsLater made.old.lent t }
    ensures left { made.new.left ≡ made.old.left }
    ensures fed { made.new.fed ≡ made.old.fed }
    ensures later { OnOk result ((t u : _) → option_map (λ s. s.at) (slice_get rows.now.steps i) ≡ Some t → t.0 <ℤ u.0 → IsLater made.new.lent u) }
    ensures lent { OnOk result ((f g s : _) → slice_get (stages first.now) i ≡ Some f → slice_get (stages second.now) i ≡ Some g → slice_get (stages rows.now) i ≡ Some s
        → stages made.new.lent ≡ stages made.old.lent ++ element_at rule f g s ∷ []) }
{
    lent_steps_are_tables();
    rows_ignore_order();
    let t = rows.at(i);
    let values = rows.slots(i);
    let ones = first.slots(i);
    let others = second.slots(i);
    let _ = rows.labels();
    let marks = all_marks(rule, first.marks(i), second.marks(i), rows.marks(i))?;
    let scalars = scalars(rule, ones, others);
    fill(placed, rule, scalars, values)?;
    made.put(t, &marks, placed.as_slice())?;
    Ok(())
}
