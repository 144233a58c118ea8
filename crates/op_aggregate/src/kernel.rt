ghost use Rattle.op_aggregate.specs.Places.{AreTallied};
ghost use Rattle.op_aggregate.specs.OwedCells.{cells_at};
ghost use Rattle.op_aggregate.specs.Rules.{aggregated_at, aggregations, is_grouped as makes_groups, owed_cells};
ghost use Rattle.promql_meaning.specs.Ranks.{kept_labels};
ghost use Rattle.std.specs.Option.{option_map};
ghost use Rattle.std.specs.Prelude.{◌≡◌, ◌<◌, ◌<ℤ◌, ◌++◌, ◌∷◌, [], Some, true, false, length, map, slice_get, if◌then◌else◌, IfOk, IsTrue, OnOk};
ghost use Rattle.step_batch.specs.Lent.{IsLater, stages};
ghost use Rattle.step_cells.specs.Owed.{is_partial as asks_engines};
ghost use Rattle.step_put.specs.Puts.{AreAt};

use crate::groups::Groups;
use crate::laws::aggregates_ignore_order;
use crate::owed::{Owed, step_cells};
use crate::putting::put_groups;
use func_table::Aggregate;
use label_set::Grouping;
use std::alloc::{AllocError, Global};
use std::marker::Model;
use step_batch::laws::lent_steps_are_tables;
use step_batch::{Batch, StepBuffer};
use step_cells::laws::cells_ignore_order;
use step_put::{Left, Placing};
use step_table::StepCells;
use step_table::laws::steps_are_well_formed;
use step_table::order_laws::rows_ignore_order;

/// A kernel of an aggregation that makes one value of a group. The places of groups are kept over feeds, and the memory of
/// groups and steps. A partial one gives the cells of groups as well.
#[derive(Drop)]
pub struct Grouped {
    alloc: Global,
    by: Grouping,
    placing: Placing,
    groups: Groups,
    buffer: StepBuffer,
    owed: Owed,
}

impl Model for Grouped {
    ghost use Rattle.op_aggregate.specs.OwedCells.{cells_at};
    ghost use Rattle.op_aggregate.specs.Rules.{Aggregating, is_grouped as makes_groups};
    ghost use Rattle.std.specs.Prelude.{◌≡◌, map, not, IsTrue};
    ghost use Rattle.step_put.specs.Placed.{IsPlaced};
    ghost use Rattle.step_put.specs.declared.labels_left.Left.TheVariants.{Signature};

    ghost Value = { Aggregating };

    ghost view = { λ k. record { f = k.groups.f; by = k.by; lent = k.buffer; partial = k.owed.wanted; owed = map (cells_at k.buffer.labels) k.owed.steps.items } };

    ghost invariant = { λ k. (k.placing.left ≡ Signature (not k.by.without) k.by.names) × IsPlaced k.buffer k.placing × IsTrue (makes_groups k.groups.f) };
}

/// Whether an aggregation makes one value of a group and takes no parameter, as `Grouped::new` asks of one that isn't partial:
/// those but `TopK`, `BottomK`, `Quantile` and `CountValues`. It takes no memory.
pub fn is_grouped(f: Aggregate) -> bool
    ensures { result ≡ makes_groups f }
{
    match f {
        Aggregate::TopK | Aggregate::BottomK | Aggregate::Quantile | Aggregate::CountValues =>
            false,
        _ => true,
    }
}

/// Whether an aggregation is asked of engines, as `Grouped::new` asks of a partial one: `Sum`, `Avg`, `Min`, `Max`, `Count` and
/// `Group`. It takes no memory.
pub fn is_partial(f: Aggregate) -> bool
    ensures { result ≡ asks_engines f }
{
    match f {
        Aggregate::Sum | Aggregate::Avg => true,
        Aggregate::Min | Aggregate::Max => true,
        Aggregate::Count | Aggregate::Group => true,
        _ => false,
    }
}

impl Grouped {
    /// A kernel that was fed nothing; a partial one gives the cells of groups as well. The only error is want of memory.
    pub fn new(
        alloc: Global,
        f: Aggregate,
        by: Grouping,
        partial: bool,
    ) -> Result<Grouped, AllocError>
        requires { IsTrue (if partial then asks_engines f else makes_groups f) }
        ensures f { IfOk result (λ k. k.f ≡ f) }
        ensures by { IfOk result (λ k. k.by ≡ by) }
        ensures lent { IfOk result (λ k. stages k.lent ≡ []) }
        ensures partial { IfOk result (λ k. k.partial ≡ partial) }
    {
        let left = Left::Signature {
            on: !by.without,
            names: by.names.copy()?,
        };
        Ok(Grouped {
            alloc,
            by,
            placing: Placing::new(alloc, left),
            groups: Groups::new(alloc, f),
            buffer: StepBuffer::new(alloc),
            owed: Owed {
                wanted: partial,
                steps: Vec::new(alloc),
            },
        })
    }

    /// Takes steps in the place of what was fed before. The only error is want of memory; then a next feed may follow all
    /// the same.
    pub fn feed(&mut self, rows: &Batch<'_>) -> Result<(), AllocError>
        ensures f { self.new.f ≡ self.old.f }
        ensures by { self.new.by ≡ self.old.by }
        ensures lent { OnOk result (stages self.new.lent ≡ aggregations self.old.f self.old.by (stages rows.now)) }
        ensures partial { self.new.partial ≡ self.old.partial }
        ensures owed { OnOk result (self.new.owed ≡ owed_cells self.old.partial self.old.f self.old.by (stages rows.now)) }
    {
        self.owed.steps.clear();
        self.placing.renew(&mut self.buffer, rows.labels())?;
        renew_groups(&mut self.groups, &self.buffer)?;
        put_all(
            self.alloc,
            &mut self.groups,
            &mut self.buffer,
            &mut self.owed,
            self.placing.places(),
            rows,
        )
    }

    /// Lends the steps that were made of what was fed last. It takes no memory.
    pub fn lend(&self) -> Batch<'_>
        ensures { result ≡ self.now.lent }
    {
        self.buffer.lend()
    }

    /// The cells of the groups of the step at a place among those that are lent, in the order of labels: what an engine owes of
    /// the step that was fed there. The only error is want of memory.
    pub fn cells(&self, i: usize) -> Result<StepCells, AllocError>
        requires { i < length self.now.owed }
        ensures { IfOk result (λ cells. slice_get self.now.owed i ≡ Some cells) }
    {
        let lent = self.buffer.lend();
        step_cells(self.alloc, lent.labels(), &self.owed.steps[i])
    }
}

/// Makes as many groups as a buffer has labels, without rows.
fn renew_groups(groups: &mut Groups, buffer: &StepBuffer) -> Result<(), AllocError>
    ensures f { groups.new.f ≡ groups.old.f }
    ensures many { OnOk result (length groups.new.all.items ≡ length buffer.now.labels) }
    ensures empty { OnOk result (AreTallied [] groups.new) }
{
    let lent = buffer.lend();
    groups.renew(lent.labels().len())
}

/// Puts what is made of steps. The labels of groups stand in the buffer, their places in a list by the places of the labels that
/// are fed.
fn put_all(
    alloc: Global,
    groups: &mut Groups,
    buffer: &mut StepBuffer,
    owed: &mut Owed,
    places: &[usize],
    rows: &Batch<'_>,
) -> Result<(), AllocError>
    requires grouped { IsTrue (makes_groups groups.old.f) }
    requires many { length groups.old.all.items ≡ length buffer.old.labels }
    requires empty { AreTallied [] groups.old }
    requires placed { (by : _) × AreAt buffer.old.labels (map (kept_labels by) rows.now.labels) places.now }
    requires steps { buffer.old.steps ≡ [] }
    requires none { owed.old.steps.items ≡ [] }
    ensures f { groups.new.f ≡ groups.old.f }
    ensures labels { buffer.new.labels ≡ buffer.old.labels }
    ensures lent { OnOk result ((by : _) → AreAt buffer.old.labels (map (kept_labels by) rows.now.labels) places.now
        → stages buffer.new ≡ aggregations groups.old.f by (stages rows.now)) }
    ensures wanted { owed.new.wanted ≡ owed.old.wanted }
    ensures owed { OnOk result ((by : _) → AreAt buffer.old.labels (map (kept_labels by) rows.now.labels) places.now
        → map (cells_at buffer.old.labels) owed.new.steps.items ≡ owed_cells owed.old.wanted groups.old.f by (stages rows.now)) }
{
    for i in 0..rows.len() {
        put_one(alloc, groups, buffer, owed, places, rows, i)?;
    }
    Ok(())
}

/// Puts what is made of the step at a place among those that are fed.
fn put_one(
    alloc: Global,
    groups: &mut Groups,
    buffer: &mut StepBuffer,
    owed: &mut Owed,
    places: &[usize],
    rows: &Batch<'_>,
    i: usize,
) -> Result<(), AllocError>
    requires here { i < length rows.now.steps }
    requires grouped { IsTrue (makes_groups groups.old.f) }
    requires many { length groups.old.all.items ≡ length buffer.old.labels }
    requires empty { AreTallied [] groups.old }
    requires placed { (by : _) × AreAt buffer.old.labels (map (kept_labels by) rows.now.labels) places.now }
    requires later { (t : _) → option_map (λ s. s.at) (slice_get rows.now.steps i) ≡ Some t → IsLater buffer.old t }
    ensures f { groups.new.f ≡ groups.old.f }
    ensures many { length groups.new.all.items ≡ length groups.old.all.items }
    ensures empty { OnOk result (AreTallied [] groups.new) }
    ensures labels { buffer.new.labels ≡ buffer.old.labels }
    ensures later { OnOk result ((t u : _) → option_map (λ s. s.at) (slice_get rows.now.steps i) ≡ Some t → t.0 <ℤ u.0 → IsLater buffer.new u) }
    ensures lent { OnOk result ((by s : _) → AreAt buffer.old.labels (map (kept_labels by) rows.now.labels) places.now → slice_get (stages rows.now) i ≡ Some s
        → stages buffer.new ≡ stages buffer.old ++ aggregated_at groups.old.f by s ∷ []) }
    ensures wanted { owed.new.wanted ≡ owed.old.wanted }
    ensures owed { OnOk result ((by s : _) → AreAt buffer.old.labels (map (kept_labels by) rows.now.labels) places.now → slice_get (stages rows.now) i ≡ Some s
        → map (cells_at buffer.old.labels) owed.new.steps.items ≡ map (cells_at buffer.old.labels) owed.old.steps.items ++ owed_cells owed.old.wanted groups.old.f by (s ∷ [])) }
{
    lent_steps_are_tables();
    rows_ignore_order();
    steps_are_well_formed();
    aggregates_ignore_order();
    cells_ignore_order();
    let at = rows.at(i);
    let slots = rows.slots(i);
    let marks = rows.marks(i);
    let _ = rows.labels();
    let _ = buffer.lend().labels();
    groups.take(places, slots)?;
    groups.sort();
    put_groups(alloc, buffer, at, marks, groups)?;
    owed.keep(alloc, at, marks, groups)?;
    groups.empty();
    Ok(())
}
