ghost use Rattle.op_match.specs.Joins.{AreTogether, joined, joined_at};
ghost use Rattle.op_match.specs.Places.{IsMade, IsMatching, IsReady, Stays, many_of, one_of, rows_in};
ghost use Rattle.std.specs.Option.{option_map};
ghost use Rattle.std.specs.Prelude.{◌≡◌, ◌↔◌, ◌<◌, ◌<ℤ◌, ◌++◌, ◌∷◌, [], Some, length, slice_get, IfOk, IsTrue, OnOk};
ghost use Rattle.step_batch.specs.Lent.{IsLater, stages};

use crate::meeting::{Found, OneSide, meet};
use crate::putting::{put_slots, put_whole, whole_step};
use crate::renewal::{Matching, renew};
use label_set::{Items, Pairing};
use std::alloc::{AllocError, Global};
use std::marker::Model;
use std::mem;
use step_batch::laws::lent_steps_are_tables;
use step_batch::{Batch, StepBuffer};
use step_table::laws::steps_are_well_formed;
use step_table::order_laws::{rows_ignore_order, sides_ignore_order};
use ticks::Ms;
use xfrac::PairOp;

/// A kernel of an operator between two vectors. Signatures are made once for the labels at a place, and the labels of a
/// pair once for the places of its rows; both are kept as long as the labels that are fed there stay.
#[derive(Drop)]
pub struct Joined {
    alloc: Global,
    matching: Matching,
    one_side: OneSide,
    found: Found,
    rows: StepBuffer,
}

impl Model for Joined {
    ghost use Rattle.op_match.specs.Joins.{Joins};
    ghost use Rattle.op_match.specs.Places.{IsMatching};

    ghost Value = { Joins };

    ghost view = { λ j. record { op = j.matching.op; pairing = j.matching.pairing; lent = j.rows } };

    ghost invariant = { λ j. IsMatching j.matching j.rows.labels };
}

impl Joined {
    /// A kernel that was fed nothing. Like the other kernels it may answer want of memory.
    pub fn new(alloc: Global, op: PairOp, pairing: Pairing) -> Result<Joined, AllocError>
        ensures op { IfOk result (λ j. j.op ≡ op) }
        ensures pairing { IfOk result (λ j. j.pairing ≡ pairing) }
        ensures lent { IfOk result (λ j. stages j.lent ≡ []) }
    {
        Ok(Joined {
            alloc,
            matching: Matching {
                op,
                pairing,
                signatures: StepBuffer::new(alloc),
                many: Items::new(alloc),
                ones: Items::new(alloc),
                kept: Items::new(alloc),
            },
            one_side: OneSide {
                numbers: Vec::new(alloc),
                at: Vec::new(alloc),
            },
            found: Found {
                slots: Vec::new(alloc),
                numbers: Vec::new(alloc),
                fatal: Items::new(alloc),
            },
            rows: StepBuffer::new(alloc),
        })
    }

    /// Takes what is fed in the place of what was fed before: steps of the left and of the right side at the same instants.
    /// The only error is want of memory; then a next feed may follow all the same.
    pub fn feed(&mut self, left: &Batch<'_>, right: &Batch<'_>) -> Result<(), AllocError>
        requires { AreTogether left.now right.now }
        ensures op { self.new.op ≡ self.old.op }
        ensures pairing { self.new.pairing ≡ self.old.pairing }
        ensures lent { OnOk result (stages self.new.lent ≡ joined self.old.op self.old.pairing (stages left.now) (stages right.now)) }
    {
        renew(
            self.alloc,
            &mut self.matching,
            &mut self.rows,
            left.labels(),
            right.labels(),
        )?;
        join_all(
            self.alloc,
            &mut self.matching,
            &mut self.one_side,
            &mut self.found,
            &mut self.rows,
            left,
            right,
        )
    }

    /// Lends the steps that were made of what was fed last. It takes no memory.
    pub fn lend(&self) -> Batch<'_>
        ensures { result ≡ self.now.lent }
    {
        self.rows.lend()
    }
}

/// Whether two batches have the same instants, as `feed` asks. It takes no memory.
pub fn are_together(left: &Batch<'_>, right: &Batch<'_>) -> bool
    ensures { IsTrue result → AreTogether left.now right.now }
{
    if left.len() != right.len() {
        return false;
    }
    for i in 0..left.len() {
        if !is_same(left.at(i), right.at(i)) {
            return false;
        }
    }
    true
}

fn is_same(a: Ms, b: Ms) -> bool
    ensures { IsTrue result ↔ (a.0 ≡ b.0) }
{
    a.0 == b.0
}

/// Puts what an operator makes of the steps, one after another.
fn join_all(
    alloc: Global,
    matching: &mut Matching,
    one_side: &mut OneSide,
    found: &mut Found,
    rows: &mut StepBuffer,
    left: &Batch<'_>,
    right: &Batch<'_>,
) -> Result<(), AllocError>
    requires together { AreTogether left.now right.now }
    requires matching { IsMatching matching.old rows.old.labels }
    requires ready { IsReady matching.old (many_of matching.old.pairing.card left.now.labels right.now.labels) (one_of matching.old.pairing.card left.now.labels right.now.labels) }
    requires empty { rows.old.steps ≡ [] }
    ensures op { matching.new.op ≡ matching.old.op }
    ensures pairing { matching.new.pairing ≡ matching.old.pairing }
    ensures matching { IsMatching matching.new rows.new.labels }
    ensures lent { OnOk result (stages rows.new ≡ joined matching.old.op matching.old.pairing (stages left.now) (stages right.now)) }
{
    for i in 0..left.len() {
        join_one(alloc, matching, one_side, found, rows, left, right, i)?;
    }
    Ok(())
}

/// Puts what an operator makes of the steps at a place. Steps are made whole only where something fails.
fn join_one(
    alloc: Global,
    matching: &mut Matching,
    one_side: &mut OneSide,
    found: &mut Found,
    rows: &mut StepBuffer,
    left: &Batch<'_>,
    right: &Batch<'_>,
    i: usize,
) -> Result<(), AllocError>
    requires left_there { i < length left.now.steps }
    requires right_there { i < length right.now.steps }
    requires matching { IsMatching matching.old rows.old.labels }
    requires ready { IsReady matching.old (many_of matching.old.pairing.card left.now.labels right.now.labels) (one_of matching.old.pairing.card left.now.labels right.now.labels) }
    requires later { (t : _) → option_map (λ s. s.at) (slice_get left.now.steps i) ≡ Some t → IsLater rows.old t }
    ensures op { matching.new.op ≡ matching.old.op }
    ensures pairing { matching.new.pairing ≡ matching.old.pairing }
    ensures matching { IsMatching matching.new rows.new.labels }
    ensures ready { IsReady matching.new (many_of matching.old.pairing.card left.now.labels right.now.labels) (one_of matching.old.pairing.card left.now.labels right.now.labels) }
    ensures later { OnOk result ((t u : _) → option_map (λ s. s.at) (slice_get left.now.steps i) ≡ Some t → t.0 <ℤ u.0 → IsLater rows.new u) }
    ensures lent { OnOk result ((l r : _) → slice_get (stages left.now) i ≡ Some l → slice_get (stages right.now) i ≡ Some r
        → stages rows.new ≡ stages rows.old ++ joined_at matching.old.op matching.old.pairing l r ∷ []) }
{
    let clear = meet(
        alloc,
        matching,
        one_side,
        found,
        rows,
        left.slots(i),
        right.slots(i),
    )?;
    put_met(
        alloc,
        matching.op,
        &matching.pairing,
        clear,
        found,
        rows,
        left,
        right,
        i,
    )?;
    Ok(())
}

/// Puts what was found of the steps at a place, or makes them whole where they aren't clear.
fn put_met(
    alloc: Global,
    op: PairOp,
    p: &Pairing,
    clear: bool,
    found: &mut Found,
    rows: &mut StepBuffer,
    left: &Batch<'_>,
    right: &Batch<'_>,
    i: usize,
) -> Result<(), AllocError>
    requires left_there { i < length left.now.steps }
    requires right_there { i < length right.now.steps }
    requires made { IsTrue clear → (xs ys : _) → option_map (λ s. s.slots) (slice_get left.now.steps i) ≡ Some xs → option_map (λ s. s.slots) (slice_get right.now.steps i) ≡ Some ys
        → IsMade op p.now rows.old.labels (rows_in left.now.labels xs) (rows_in right.now.labels ys) found.old.slots.items found.old.fatal }
    requires later { (t : _) → option_map (λ s. s.at) (slice_get left.now.steps i) ≡ Some t → IsLater rows.old t }
    ensures stays { Stays rows.old.labels rows.new.labels }
    ensures later { OnOk result ((t u : _) → option_map (λ s. s.at) (slice_get left.now.steps i) ≡ Some t → t.0 <ℤ u.0 → IsLater rows.new u) }
    ensures lent { OnOk result ((l r : _) → slice_get (stages left.now) i ≡ Some l → slice_get (stages right.now) i ≡ Some r → stages rows.new ≡ stages rows.old ++ joined_at op p.now l r ∷ []) }
{
    lent_steps_are_tables();
    rows_ignore_order();
    sides_ignore_order();
    steps_are_well_formed();
    let at = left.at(i);
    let left_slots = left.slots(i);
    let right_slots = right.slots(i);
    let left_marks = left.marks(i);
    let right_marks = right.marks(i);
    let left_labels = left.labels();
    let right_labels = right.labels();
    if !clear {
        let l = whole_step(alloc, left_labels, left_slots, left_marks)?;
        let r = whole_step(alloc, right_labels, right_slots, right_marks)?;
        put_whole(alloc, rows, op, p, at, &l, &r)?;
        return Ok(());
    }
    let mut marks = left_marks.copy()?;
    marks.unite(right_marks)?;
    let _ = rows.lend().labels();
    let fatal = mem::replace(&mut found.fatal, Items::new(alloc));
    put_slots(alloc, rows, at, &marks, fatal, found.slots.as_slice())?;
    Ok(())
}
