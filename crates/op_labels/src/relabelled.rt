ghost use Rattle.label_set.specs.declared.rules.Relabel.TheVariants as relabel;
ghost use Rattle.op_labels.specs.Rules.{AreMade, HasPatterns, IsFilter, IsMadeBy, fated, filtered_windows, relabelled_at, relabellings, slots_placed};
ghost use Rattle.std.specs.Option.{option_map, option_to_list};
ghost use Rattle.std.specs.Prelude.{◌≡◌, ◌<◌, ◌<ℤ◌, ◌++◌, ◌∷◌, [], Some, length, slice_get, IfOk, OnOk};
ghost use Rattle.step_batch.specs.Lent.{IsLater, SlotsRise, stages};
ghost use Rattle.step_put.specs.declared.labels_left.Left.TheVariants as kind;

use crate::change::{Change, Fate, change_of, fate_at};
use crate::kept_labels::KeptLabels;
use crate::passing_windows::pass_all;
use label_set::Relabel;
use match_rule::Patterns;
use std::alloc::{AllocError, Global};
use std::marker::Model;
use step_batch::laws::lent_steps_are_tables;
use step_batch::{Batch, Slot, WindowBuffer, Windows};
use step_put::{Left, OutcomeBuffer, PlacedOutcome};
use step_table::order_laws::rows_ignore_order;
use ticks::Ms;
use xfrac::{NumFault, XFrac};

/// A kernel of label_replace, of label_join, or of the rows or the windows whose labels pass all rules. New labels are made and
/// patterns asked once for each labels that are fed, and what was made is kept over feeds while the labels at that place stay
/// equal. `placed` is what was made of the rows of the last step, whose memory is kept.
#[derive(Drop)]
pub struct Relabelled {
    alloc: Global,
    change: Change,
    kept: KeptLabels,
    placed: Vec<PlacedOutcome>,
    rows: OutcomeBuffer,
    windows: WindowBuffer,
}

impl Model for Relabelled {
    ghost use Rattle.op_labels.specs.Rules.{Relabelling, relabel_of};
    ghost use Rattle.std.specs.Prelude.{◌≡◌};
    ghost use Rattle.step_put.specs.declared.labels_left.Left.TheVariants as kind;

    ghost Value = { Relabelling };

    ghost view = { λ k. record { rule = relabel_of k.change; fed = k.kept.fed.items; made = k.kept.made.items; fates = k.kept.fates.items; lent = k.rows.lent; windows = k.windows } };

    ghost invariant = { λ k. k.rows.left ≡ kind.All };
}

impl Relabelled {
    /// A kernel that was fed nothing. Like the other kernels it may answer want of memory.
    pub fn new(alloc: Global, rule: Relabel) -> Result<Relabelled, AllocError>
        ensures rule { IfOk result (λ k. k.rule ≡ rule) }
        ensures made { IfOk result (λ k. (patterns : _) → IsMadeBy patterns k) }
        ensures lent { IfOk result (λ k. stages k.lent ≡ []) }
        ensures windows { IfOk result (λ k. k.windows.rows ≡ []) }
    {
        Ok(Relabelled {
            alloc,
            change: change_of(rule),
            kept: KeptLabels::new(alloc),
            placed: Vec::new(alloc),
            rows: OutcomeBuffer::new(alloc, Left::All),
            windows: WindowBuffer::new(alloc, Ms(0)),
        })
    }

    /// Takes steps in the place of what was fed before. The patterns have those that the rule names, and each feed gets the
    /// same ones. The only error is want of memory; then a next feed may follow all the same.
    pub fn feed(&mut self, rows: &Batch<'_>, patterns: &mut Patterns<'_>) -> Result<(), AllocError>
        requires patterns { HasPatterns patterns.old self.old.rule }
        requires made { IsMadeBy patterns.old self.old }
        ensures rule { self.new.rule ≡ self.old.rule }
        ensures made { IsMadeBy patterns.old self.new }
        ensures same { patterns.new ≡ patterns.old }
        ensures lent { OnOk result (stages self.new.lent ≡ relabellings patterns.old self.old.rule (stages rows.now)) }
    {
        self.kept
            .renew(self.alloc, &self.change, patterns, rows.labels())?;
        self.rows.begin_feed(self.kept.made.as_slice())?;
        put_all(
            &mut self.placed,
            &mut self.rows,
            self.kept.fates.as_slice(),
            rows,
        )
    }

    /// Lends the steps that were made of what was fed last. It takes no memory.
    pub fn lend(&self) -> Batch<'_>
        ensures { result ≡ self.now.lent }
    {
        self.rows.lend()
    }

    /// Takes the windows of an instant in the place of those that were fed before; the steps that it lends stay. The patterns are
    /// those of `feed`. Windows that pass are copied, since they are lent when what was fed is gone. The only error is want of
    /// memory; then a next feed may follow all the same.
    pub fn feed_windows(
        &mut self,
        windows: &Windows<'_>,
        patterns: &mut Patterns<'_>,
    ) -> Result<(), AllocError>
        requires filter { IsFilter self.old.rule }
        requires patterns { HasPatterns patterns.old self.old.rule }
        requires made { IsMadeBy patterns.old self.old }
        ensures rule { self.new.rule ≡ self.old.rule }
        ensures made { IsMadeBy patterns.old self.new }
        ensures same { patterns.new ≡ patterns.old }
        ensures lent { self.new.lent ≡ self.old.lent }
        ensures windows { OnOk result ((rules : _) → self.old.rule ≡ relabel.Filter rules → self.new.windows ≡ filtered_windows patterns.old rules windows.now) }
    {
        self.kept
            .renew_by_windows(self.alloc, &self.change, patterns, windows)?;
        pass_all(&mut self.windows, self.kept.fates.as_slice(), windows)
    }

    /// Lends the windows that were fed last and whose labels pass; none before the first ones. It takes no memory.
    pub fn lend_windows(&self) -> Windows<'_>
        ensures { result ≡ self.now.windows }
    {
        self.windows.lend()
    }
}

/// Puts what is made of steps: the labels that were made of those that are fed were taken, and `fates` says what becomes of
/// their rows.
fn put_all(
    placed: &mut Vec<PlacedOutcome>,
    made: &mut OutcomeBuffer,
    fates: &[Fate],
    rows: &Batch<'_>,
) -> Result<(), AllocError>
    requires fates { length fates.now ≡ length rows.now.labels }
    requires fed { length made.old.fed ≡ length rows.now.labels }
    requires left { made.old.left ≡ kind.All }
    requires empty { made.old.lent.steps ≡ [] }
    ensures left { made.new.left ≡ made.old.left }
    ensures lent { OnOk result ((kept rule : _) → AreMade kept rule rows.now.labels made.old.fed fates.now → stages made.new.lent ≡ relabellings kept rule (stages rows.now)) }
{
    for i in 0..rows.len() {
        put_one(placed, made, fates, rows, i)?;
    }
    Ok(())
}

/// Puts what is made of the step at a place.
fn put_one(
    placed: &mut Vec<PlacedOutcome>,
    made: &mut OutcomeBuffer,
    fates: &[Fate],
    rows: &Batch<'_>,
    i: usize,
) -> Result<(), AllocError>
    requires here { i < length rows.now.steps }
    requires fates { length fates.now ≡ length rows.now.labels }
    requires fed { length made.old.fed ≡ length rows.now.labels }
    requires left { made.old.left ≡ kind.All }
    requires later { (t : _) → option_map (λ s. s.at) (slice_get rows.now.steps i) ≡ Some t → IsLater made.old.lent t }
    ensures left { made.new.left ≡ made.old.left }
    ensures fed { made.new.fed ≡ made.old.fed }
    ensures later { OnOk result ((t u : _) → option_map (λ s. s.at) (slice_get rows.now.steps i) ≡ Some t → t.0 <ℤ u.0 → IsLater made.new.lent u) }
    ensures lent { OnOk result ((kept rule s : _) → AreMade kept rule rows.now.labels made.old.fed fates.now → slice_get (stages rows.now) i ≡ Some s
        → stages made.new.lent ≡ stages made.old.lent ++ relabelled_at kept rule s ∷ []) }
{
    lent_steps_are_tables();
    rows_ignore_order();
    let t = rows.at(i);
    let slots = rows.slots(i);
    let marks = rows.marks(i);
    let _ = rows.labels();
    fill(placed, fates, slots)?;
    made.put(t, marks, placed.as_slice())?;
    Ok(())
}

/// Takes what becomes of the rows of a step, in the place of what was there.
fn fill(placed: &mut Vec<PlacedOutcome>, fates: &[Fate], slots: &[Slot]) -> Result<(), AllocError>
    requires { SlotsRise 0 (length fates.now) slots.now }
    ensures { OnOk result (placed.new.items ≡ slots_placed fates.now slots.now) }
{
    placed.clear();
    for slot in slots {
        let fate = fate_at(fates, slot.place);
        place(placed, fate, slot)?;
    }
    Ok(())
}

/// Takes what becomes of a row.
fn place(placed: &mut Vec<PlacedOutcome>, fate: Fate, slot: &Slot) -> Result<(), AllocError>
    ensures { OnOk result (placed.new.items ≡ placed.old.items ++ option_to_list (fated fate slot.now)) }
{
    match fate {
        Fate::Stays => push(placed, slot.place, Ok(Some(slot.value))),
        Fate::Beyond => push(placed, slot.place, Err(NumFault::Overflow)),
        Fate::Out => Ok(()),
    }
}

fn push(
    placed: &mut Vec<PlacedOutcome>,
    place: usize,
    value: Result<Option<XFrac>, NumFault>,
) -> Result<(), AllocError>
    ensures { OnOk result (placed.new.items ≡ placed.old.items ++ record { place = place; value = value } ∷ []) }
{
    placed.push(PlacedOutcome { place, value })?;
    Ok(())
}
