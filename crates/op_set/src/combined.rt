ghost use Rattle.op_set.specs.Combining.{all_combined, combined_at};
ghost use Rattle.op_set.specs.Sides.{AreNamed};
ghost use Rattle.std.specs.Option.{option_map};
ghost use Rattle.std.specs.Prelude.{◌≡◌, ◌<◌, ◌<ℤ◌, ◌++◌, ◌∷◌, [], Some, length, slice_get, IfOk, OnOk};
ghost use Rattle.step_batch.specs.Lent.{IsFreeFrom, IsLater, stages, step_of};
ghost use Rattle.step_table.specs.Unions.{united};

use crate::choose::keep;
use crate::rising::{put_rows, rise};
use crate::sides::Naming;
use func_table::SetOp;
use label_set::Pairing;
use std::alloc::{AllocError, Global};
use std::marker::Model;
use step_batch::laws::lent_steps_are_tables;
use step_batch::{Batch, Slot, StepBuffer};
use step_table::Marks;
use step_table::laws::steps_are_well_formed;
use step_table::order_laws::{rows_ignore_order, sides_ignore_order};
use ticks::Ms;

/// A kernel of a set operator between two vectors. The signature of labels and their place among those that are lent are made
/// once for each labels that are fed, and kept over feeds as long as the labels at that place of the side stay equal.
#[derive(Drop)]
pub struct Combined {
    names: Naming,
    marked: Vec<bool>,
    kept: Vec<Slot>,
    made: StepBuffer,
}

impl Model for Combined {
    ghost use Rattle.op_set.specs.Combining.{Combining};
    ghost use Rattle.op_set.specs.Sides.{AreNamed};

    ghost Value = { Combining };

    ghost view = { λ k. record { op = k.names.op; pairing = k.names.pairing; lent = k.made } };

    ghost invariant = { λ k. AreNamed k.names k.made.labels };
}

impl Combined {
    /// A kernel that was fed nothing. Like the other kernels it may answer want of memory.
    pub fn new(alloc: Global, op: SetOp, pairing: Pairing) -> Result<Combined, AllocError>
        ensures op { IfOk result (λ k. k.op ≡ op) }
        ensures pairing { IfOk result (λ k. k.pairing ≡ pairing) }
        ensures lent { IfOk result (λ k. stages k.lent ≡ []) }
    {
        Ok(Combined {
            names: Naming::new(alloc, op, pairing)?,
            marked: Vec::new(alloc),
            kept: Vec::new(alloc),
            made: StepBuffer::new(alloc),
        })
    }

    /// Takes what is fed in the place of what was fed before: as many steps of the left side and of the right side, which are
    /// of the same instants. The only error is want of memory; then a next feed may follow all the same.
    pub fn feed(&mut self, left: &Batch<'_>, right: &Batch<'_>) -> Result<(), AllocError>
        requires { length right.now.steps ≡ length left.now.steps }
        ensures op { self.new.op ≡ self.old.op }
        ensures pairing { self.new.pairing ≡ self.old.pairing }
        ensures lent { OnOk result (stages self.new.lent ≡ all_combined self.old.op self.old.pairing (stages left.now) (stages right.now)) }
    {
        self.names
            .renew(&mut self.made, left.labels(), right.labels())?;
        self.marked.resize(self.names.count(), false)?;
        put_all(
            &self.names,
            &mut self.made,
            self.marked.as_mut_slice(),
            &mut self.kept,
            left,
            right,
        )
    }

    /// Lends the steps that were made of what was fed last. It takes no memory.
    pub fn lend(&self) -> Batch<'_>
        ensures { result ≡ self.now.lent }
    {
        self.made.lend()
    }
}

/// Puts what the operator makes of steps.
fn put_all(
    names: &Naming,
    made: &mut StepBuffer,
    marked: &mut [bool],
    kept: &mut Vec<Slot>,
    left: &Batch<'_>,
    right: &Batch<'_>,
) -> Result<(), AllocError>
    requires steps { length right.now.steps ≡ length left.now.steps }
    requires named { AreNamed names.now made.old.labels }
    requires left { names.now.left.signed.fed ≡ left.now.labels }
    requires right { names.now.right.signed.fed ≡ right.now.labels }
    requires count { length marked.old ≡ length names.now.signatures.labels }
    requires empty { made.old.steps ≡ [] }
    ensures labels { made.new.labels ≡ made.old.labels }
    ensures lent { OnOk result (stages made.new ≡ all_combined names.now.op names.now.pairing (stages left.now) (stages right.now)) }
{
    for i in 0..left.len() {
        put_one(names, made, marked, kept, left, right, i)?;
    }
    Ok(())
}

/// Puts what the operator makes of the steps at a place.
fn put_one(
    names: &Naming,
    made: &mut StepBuffer,
    marked: &mut [bool],
    kept: &mut Vec<Slot>,
    left: &Batch<'_>,
    right: &Batch<'_>,
    i: usize,
) -> Result<(), AllocError>
    requires here { i < length left.now.steps }
    requires there { i < length right.now.steps }
    requires named { AreNamed names.now made.old.labels }
    requires left { names.now.left.signed.fed ≡ left.now.labels }
    requires right { names.now.right.signed.fed ≡ right.now.labels }
    requires count { length marked.old ≡ length names.now.signatures.labels }
    requires later { (t : _) → option_map (λ s. s.at) (slice_get left.now.steps i) ≡ Some t → IsLater made.old t }
    ensures labels { made.new.labels ≡ made.old.labels }
    ensures count { length marked.new ≡ length marked.old }
    ensures later { OnOk result ((t u : _) → option_map (λ s. s.at) (slice_get left.now.steps i) ≡ Some t → t.0 <ℤ u.0 → IsLater made.new u) }
    ensures lent { OnOk result ((l r : _) → slice_get (stages left.now) i ≡ Some l → slice_get (stages right.now) i ≡ Some r
        → stages made.new ≡ stages made.old ++ combined_at names.now.op names.now.pairing l r ∷ []) }
{
    lent_steps_are_tables();
    steps_are_well_formed();
    rows_ignore_order();
    sides_ignore_order();
    let _ = names.signatures.lend().labels();
    let _ = made.lend().labels();
    let _ = left.labels();
    let _ = right.labels();
    let t = left.at(i);
    let lefts = left.slots(i);
    let rights = right.slots(i);
    begin(made, t, left.marks(i), right.marks(i))?;
    keep(names, marked, kept, lefts, rights)?;
    rise(kept);
    put_rows(made, kept.as_slice())?;
    Ok(())
}

/// Begins a step with the marks and notes of both sides.
fn begin(made: &mut StepBuffer, at: Ms, left: &Marks, right: &Marks) -> Result<(), AllocError>
    requires { IsLater made.old at }
    ensures labels { made.new.labels ≡ made.old.labels }
    ensures begun { OnOk result (IsFreeFrom 0 made.new) }
    ensures later { OnOk result ((u : _) → at.0 <ℤ u.0 → IsLater made.new u) }
    ensures lent { OnOk result (stages made.new ≡ stages made.old ++ record { at = at; step = step_of [] (united left.now right.now) } ∷ []) }
{
    made.begin(at)?;
    made.unite(left)?;
    made.unite(right)?;
    Ok(())
}
