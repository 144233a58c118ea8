//! The quantile of each group.
ghost use Rattle.label_set.specs.LabelEquality.{labels_eq};
ghost use Rattle.op_rank.specs.Entries.{AreNumberEntries};
ghost use Rattle.op_rank.specs.Quantiles.{AreMade, AreSplit, GroupsRise, is_end_at, made_until, marks_noted as marks_of_noted, quantile_at, value_asked as value_of_slots};
ghost use Rattle.op_rank.specs.Groups.{left_by};
ghost use Rattle.op_rank.specs.Rules.{IsScalar, made_of_each};
ghost use Rattle.promql_meaning.specs.Ranks.{kept_labels};
ghost use Rattle.std.specs.List.{All, IsDistinct};
ghost use Rattle.std.specs.List.Sorted.{IsPermutation};
ghost use Rattle.std.specs.Option.{option_map};
ghost use Rattle.std.specs.Prelude.{◌≡◌, ◌++◌, ◌∷◌, ◌<◌, ◌<ℤ◌, ◌==◌, [], Some, length, map, slice_get, IfOk, OnOk};
ghost use Rattle.step_batch.specs.Lent.{IsLater, SlotsRise, stages};
ghost use Rattle.step_put.specs.Puts.{AreAt};
ghost use Rattle.step_put.specs.declared.labels_left.Left.TheVariants as kind;
ghost use Rattle.step_table.specs.Operators.{some_value as value_or_fault};
ghost use Rattle.window_fn.specs.Aggregates.{quantile_of};

use crate::entries::{Entry, list};
use crate::groups::Groups;
use label_set::Grouping;
use promql_meaning::{range_notes_of, with_notes};
use std::alloc::{AllocError, Global};
use std::marker::Model;
use step_batch::laws::lent_steps_are_tables;
use step_batch::{Batch, Slot};
use step_put::{Left, OutcomeBuffer, PlacedOutcome};
use step_table::Marks;
use step_table::laws::steps_are_well_formed;
use step_table::order_laws::rows_ignore_order;
use window_fn::laws::order_doesnt_matter;
use window_fn::{WindowFault, quantile};
use xfrac::{NumFault, XFrac};

/// The quantile of each group, as a parameter asks for.
#[derive(Drop)]
pub(crate) struct Quantiles {
    alloc: Global,
    groups: Groups,
    split: Split,
    rows: OutcomeBuffer,
}

impl Model for Quantiles {
    ghost use Rattle.op_rank.specs.Rules.{GroupedSteps};
    ghost use Rattle.std.specs.Prelude.{◌≡◌};
    ghost use Rattle.step_put.specs.declared.labels_left.Left.TheVariants as kind;

    ghost Value = { GroupedSteps };

    ghost view = { λ f. record { left = f.groups.left; lent = f.rows.lent } };

    ghost invariant = { λ f. f.rows.left ≡ kind.All };
}

impl Quantiles {
    pub(crate) fn new(alloc: Global, by: &Grouping) -> Result<Quantiles, AllocError>
        ensures { IfOk result (λ f. f ≡ record { left = left_by by.now; lent = record { labels = []; steps = [] } }) }
    {
        Ok(Quantiles {
            alloc,
            groups: Groups::new(alloc, by)?,
            split: Split::new(alloc),
            rows: OutcomeBuffer::new(alloc, Left::All),
        })
    }

    /// Takes steps, each beside its parameter, in the place of what was fed before. The only error is want of memory; then
    /// a next feed may follow all the same.
    pub(crate) fn feed(&mut self, rows: &Batch<'_>, arg: &Batch<'_>) -> Result<(), AllocError>
        requires args { length arg.now.steps ≡ length rows.now.steps }
        requires scalar { IsScalar arg.now }
        ensures left { self.new.left ≡ self.old.left }
        ensures lent { OnOk result ((by : _) → self.old.left ≡ left_by by → stages self.new.lent ≡ made_of_each (quantile_at by) (stages arg.now) (stages rows.now)) }
    {
        self.groups.renew(rows.labels())?;
        self.rows.begin_feed(self.groups.lend().labels())?;
        put_all(
            self.alloc,
            self.groups.places(),
            &mut self.split,
            &mut self.rows,
            rows,
            arg,
        )
    }

    /// Lends the steps that were made of what was fed last. It takes no memory.
    pub(crate) fn lend(&self) -> Batch<'_>
        ensures { result ≡ self.now.lent }
    {
        self.rows.lend()
    }
}

/// Puts the quantiles of steps.
fn put_all(
    alloc: Global,
    groups: &[usize],
    split: &mut Split,
    made: &mut OutcomeBuffer,
    rows: &Batch<'_>,
    arg: &Batch<'_>,
) -> Result<(), AllocError>
    requires args { length arg.now.steps ≡ length rows.now.steps }
    requires scalar { IsScalar arg.now }
    requires count { length groups.now ≡ length rows.now.labels }
    requires within { All (λ place. place < length made.old.fed) groups.now }
    requires distinct { IsDistinct labels_eq made.old.fed }
    requires left { made.old.left ≡ kind.All }
    requires empty { made.old.lent.steps ≡ [] }
    ensures left { made.new.left ≡ made.old.left }
    ensures lent { OnOk result ((by : _) → AreAt made.old.fed (map (kept_labels by) rows.now.labels) groups.now
        → stages made.new.lent ≡ made_of_each (quantile_at by) (stages arg.now) (stages rows.now)) }
{
    for i in 0..rows.len() {
        put_one(alloc, groups, split, made, rows, arg, i)?;
    }
    Ok(())
}

/// Puts the quantiles of the step at a place.
fn put_one(
    alloc: Global,
    groups: &[usize],
    split: &mut Split,
    made: &mut OutcomeBuffer,
    rows: &Batch<'_>,
    arg: &Batch<'_>,
    i: usize,
) -> Result<(), AllocError>
    requires here { i < length rows.now.steps }
    requires args { i < length arg.now.steps }
    requires scalar { IsScalar arg.now }
    requires count { length groups.now ≡ length rows.now.labels }
    requires within { All (λ place. place < length made.old.fed) groups.now }
    requires distinct { IsDistinct labels_eq made.old.fed }
    requires left { made.old.left ≡ kind.All }
    requires later { (t : _) → option_map (λ s. s.at) (slice_get rows.now.steps i) ≡ Some t → IsLater made.old.lent t }
    ensures left { made.new.left ≡ made.old.left }
    ensures fed { made.new.fed ≡ made.old.fed }
    ensures later { OnOk result ((t u : _) → option_map (λ s. s.at) (slice_get rows.now.steps i) ≡ Some t → t.0 <ℤ u.0 → IsLater made.new.lent u) }
    ensures lent { OnOk result ((by p s : _) → AreAt made.old.fed (map (kept_labels by) rows.now.labels) groups.now → slice_get (stages arg.now) i ≡ Some p → slice_get (stages rows.now) i ≡ Some s
        → stages made.new.lent ≡ stages made.old.lent ++ quantile_at by p s ∷ []) }
{
    lent_steps_are_tables();
    rows_ignore_order();
    steps_are_well_formed();
    order_doesnt_matter();
    let at = rows.at(i);
    let slots = rows.slots(i);
    let parameter = arg.slots(i);
    let _ = rows.labels();
    let q = value_asked(parameter);
    let mut both = rows.marks(i).copy()?;
    both.unite(arg.marks(i))?;
    let marks = marks_noted(alloc, &q, slots, both)?;
    split.fill(alloc, &q, groups, slots)?;
    made.put(at, &marks, split.placed.as_slice())?;
    Ok(())
}

/// The quantile that is asked for, unless the parameter has lost its value.
fn value_asked(slots: &[Slot]) -> Option<XFrac>
    ensures { result ≡ value_of_slots slots.now }
{
    match slots {
        [] => None,
        [slot, ..] => Some(slot.value),
    }
}

/// The marks and notes, with a note of a quantile outside 0 to 1 where there are rows.
fn marks_noted(
    alloc: Global,
    q: &Option<XFrac>,
    slots: &[Slot],
    marks: Marks,
) -> Result<Marks, AllocError>
    ensures { IfOk result (λ m. m ≡ marks_of_noted q.now slots.now marks) }
{
    match q {
        None => Ok(marks),
        Some(q) => with_notes(alloc, marks, range_notes_of(alloc, q, slots)?),
    }
}

/// The memory that is kept for the groups of a step.
#[derive(Drop)]
struct Split {
    entries: Vec<Entry>,
    values: Vec<XFrac>,
    placed: Vec<PlacedOutcome>,
}

impl Split {
    fn new(alloc: Global) -> Split {
        Split {
            entries: Vec::new(alloc),
            values: Vec::new(alloc),
            placed: Vec::new(alloc),
        }
    }

    /// Takes the quantile of each group as it is asked for, in the place of those that were taken; where none is, nothing.
    /// The only error is want of memory.
    fn fill(
        &mut self,
        alloc: Global,
        q: &Option<XFrac>,
        groups: &[usize],
        slots: &[Slot],
    ) -> Result<(), AllocError>
        requires { SlotsRise 0 (length groups.now) slots.now }
        ensures { OnOk result (AreMade q.now groups.now slots.now self.new.placed.items) }
    {
        match q {
            None => {
                self.placed.clear();
                Ok(())
            }
            Some(q) => self.take(alloc, q, groups, slots),
        }
    }

    fn take(
        &mut self,
        alloc: Global,
        q: &XFrac,
        groups: &[usize],
        slots: &[Slot],
    ) -> Result<(), AllocError>
        requires { SlotsRise 0 (length groups.now) slots.now }
        ensures { OnOk result (AreSplit q.now groups.now slots.now self.new.placed.items) }
    {
        list(&mut self.entries, groups, slots)?;
        sort(&mut self.entries);
        self.placed.clear();
        put_groups(
            alloc,
            &mut self.placed,
            &mut self.values,
            q,
            self.entries.as_slice(),
        )?;
        Ok(())
    }
}

/// Sorts entries by their groups.
fn sort(entries: &mut Vec<Entry>)
    requires { AreNumberEntries entries.old.items }
    ensures moved { IsPermutation entries.old.items entries.new.items }
    ensures rise { GroupsRise entries.new.items }
    ensures numbers { AreNumberEntries entries.new.items }
{
    entries.sort_unstable_by_key(|e| e.group);
}

/// Puts the quantile of each group, behind what is there.
fn put_groups(
    alloc: Global,
    placed: &mut Vec<PlacedOutcome>,
    values: &mut Vec<XFrac>,
    q: &XFrac,
    entries: &[Entry],
) -> Result<(), AllocError>
    requires empty { placed.old.items ≡ [] }
    requires rise { GroupsRise entries.now }
    ensures { OnOk result (placed.new.items ≡ made_until q.now (length entries.now) entries.now) }
{
    values.clear();
    for i in 0..entries.len() {
        let entry = &entries[i];
        values.push(entry.value)?;
        if !is_last(entries, i) {
            continue;
        }
        put_group(alloc, placed, values, q, entry.group)?;
    }
    Ok(())
}

/// Whether the entry at a place is the last of its group, where groups stand together.
fn is_last(entries: &[Entry], i: usize) -> bool
    requires { i < length entries.now }
    ensures { result ≡ is_end_at i entries.now }
{
    if i + 1 == entries.len() {
        return true;
    }
    !is_of_group(&entries[i + 1], &entries[i])
}

fn is_of_group(a: &Entry, b: &Entry) -> bool
    ensures { result ≡ (a.now.group == b.now.group) }
{
    a.group == b.group
}

/// Puts the quantile of the values of a group, and takes them out.
fn put_group(
    alloc: Global,
    placed: &mut Vec<PlacedOutcome>,
    values: &mut Vec<XFrac>,
    q: &XFrac,
    group: usize,
) -> Result<(), AllocError>
    requires { 0 < length values.old.items }
    ensures placed { OnOk result (placed.new.items ≡ placed.old.items ++ record { place = group; value = value_or_fault (quantile_of q.now values.old.items) } ∷ []) }
    ensures values { OnOk result (values.new.items ≡ []) }
{
    let value = value_of(alloc, q, values.as_slice())?;
    placed.push(PlacedOutcome {
        place: group,
        value,
    })?;
    values.clear();
    Ok(())
}

fn value_of(
    alloc: Global,
    q: &XFrac,
    values: &[XFrac],
) -> Result<Result<Option<XFrac>, NumFault>, AllocError>
    requires { 0 < length values.now }
    ensures { IfOk result (λ value. value ≡ value_or_fault (quantile_of q.now values.now)) }
{
    match quantile(alloc, q, values) {
        Ok(value) => Ok(Ok(Some(value))),
        Err(WindowFault::Overflow) => Ok(Err(NumFault::Overflow)),
        Err(WindowFault::Memory) => Err(AllocError),
    }
}
