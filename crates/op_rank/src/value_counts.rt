//! How many rows of each group have each value.
ghost use Rattle.op_rank.specs.Entries.{entry_of};
ghost use Rattle.op_rank.specs.Groups.{left_by};
ghost use Rattle.op_rank.specs.Rules.{made_of_each};
ghost use Rattle.op_rank.specs.ValueCounts.{AreTallied, CountsRise, IsCounted, IsCounting, counted_at, counted_beside, counts_under, has_lost, is_lost, is_next as next_is, labels_of as labels_of_entry, overflow_if, rolled_out, rows_in, rows_in_runs, runs_under, slots_counted, values_counted};
ghost use Rattle.std.specs.List.{All, AllByRecursion};
ghost use Rattle.std.specs.List.Sorted.{IsPermutation};
ghost use Rattle.std.specs.Option.{option_map};
ghost use Rattle.std.specs.Prelude.{◌≡◌, ◌++◌, ◌∷◌, ◌+◌, ◌<◌, ◌≤◌, ◌^◌, ◌<ℤ◌, ◌||◌, [], Some, drop, length, map, slice_get, IfOk, IsTrue, OnOk};
ghost use Rattle.step_batch.specs.Lent.{IsFreeFrom, IsLater, SlotsRise, entries_of, stages, step_of};
ghost use Rattle.step_table.specs.Unions.{united};

use crate::entries::{Entry, list};
use crate::groups::Groups;
use crate::value_labels::{Counting, is_left_out, labels_of};
use label_set::{Grouping, Items};
use promql_meaning::value_order;
use std::alloc::{AllocError, Global};
use std::marker::Model;
use step_batch::laws::{free_places_are_free, lent_steps_are_tables};
use step_batch::{Batch, Slot, StepBuffer};
use step_table::order_laws::rows_ignore_order;
use step_table::{Mark, Marks};
use ticks::Ms;
use xfrac::whole_count;

/// How many rows have the values of each group, under labels with these values.
#[derive(Drop)]
pub(crate) struct ValueCounts {
    alloc: Global,
    groups: Groups,
    tally: Tally,
    rows: StepBuffer,
}

impl Model for ValueCounts {
    ghost use Rattle.op_rank.specs.Rules.{GroupedSteps};

    ghost Value = { GroupedSteps };

    ghost view = { λ v. record { left = v.groups.left; lent = v.rows } };
}

impl ValueCounts {
    pub(crate) fn new(alloc: Global, by: &Grouping) -> Result<ValueCounts, AllocError>
        ensures { IfOk result (λ v. v ≡ record { left = left_by by.now; lent = record { labels = []; steps = [] } }) }
    {
        Ok(ValueCounts {
            alloc,
            groups: Groups::new(alloc, by)?,
            tally: Tally::new(alloc),
            rows: StepBuffer::new(alloc),
        })
    }

    /// Takes steps in the place of what was fed before. The only error is want of memory; then a next feed may follow all
    /// the same.
    pub(crate) fn feed(
        &mut self,
        by: &Grouping,
        label: &str,
        rows: &Batch<'_>,
    ) -> Result<(), AllocError>
        ensures left { self.new.left ≡ self.old.left }
        ensures lent { OnOk result ((arg : _) → length arg.steps ≡ length rows.now.steps → self.old.left ≡ left_by by.now
            → stages self.new.lent ≡ made_of_each (counted_beside by.now label.now) (stages arg) (stages rows.now)) }
    {
        self.groups.renew(rows.labels())?;
        self.rows.begin_feed();
        let groups = self.groups.lend();
        let counting = Counting {
            places: self.groups.places(),
            groups: groups.labels(),
            label,
            is_set: !is_left_out(by, label),
        };
        put_all(self.alloc, &counting, &mut self.tally, &mut self.rows, rows)
    }

    /// Lends the steps that were made of what was fed last. It takes no memory.
    pub(crate) fn lend(&self) -> Batch<'_>
        ensures { result ≡ self.now.lent }
    {
        self.rows.lend()
    }
}

/// Puts the counts of steps.
fn put_all(
    alloc: Global,
    counting: &Counting<'_>,
    tally: &mut Tally,
    made: &mut StepBuffer,
    rows: &Batch<'_>,
) -> Result<(), AllocError>
    requires count { length counting.now.places.now ≡ length rows.now.labels }
    requires within { All (λ place. place < length counting.now.groups.now) counting.now.places.now }
    requires empty { made.old.steps ≡ [] }
    ensures lent { OnOk result ((by : _) → IsCounting by rows.now.labels counting.now → stages made.new ≡ values_counted by counting.now.label.now (stages rows.now)) }
{
    for i in 0..rows.len() {
        put_one(alloc, counting, tally, made, rows, i)?;
    }
    Ok(())
}

/// Puts the counts of the step at a place.
fn put_one(
    alloc: Global,
    counting: &Counting<'_>,
    tally: &mut Tally,
    made: &mut StepBuffer,
    rows: &Batch<'_>,
    i: usize,
) -> Result<(), AllocError>
    requires here { i < length rows.now.steps }
    requires count { length counting.now.places.now ≡ length rows.now.labels }
    requires within { All (λ place. place < length counting.now.groups.now) counting.now.places.now }
    requires later { (t : _) → option_map (λ s. s.at) (slice_get rows.now.steps i) ≡ Some t → IsLater made.old t }
    ensures later { OnOk result ((t u : _) → option_map (λ s. s.at) (slice_get rows.now.steps i) ≡ Some t → t.0 <ℤ u.0 → IsLater made.new u) }
    ensures lent { OnOk result ((by s : _) → IsCounting by rows.now.labels counting.now → slice_get (stages rows.now) i ≡ Some s
        → stages made.new ≡ stages made.old ++ counted_at by counting.now.label.now s ∷ []) }
{
    lent_steps_are_tables();
    rows_ignore_order();
    let at = rows.at(i);
    let slots = rows.slots(i);
    let _ = rows.labels();
    let lost = tally.take(alloc, counting, made, slots)?;
    let _ = made.lend().labels();
    put_counted(
        alloc,
        made,
        at,
        rows.marks(i),
        tally.counts.as_slice(),
        lost,
    )?;
    Ok(())
}

/// Equal values of one group that stand together, and how many rows they are of.
#[derive(Clone, Copy, Debug)]
pub(crate) struct Run {
    pub entry: Entry,
    pub rows: u64,
}

/// How many rows are counted under the labels at a place.
#[derive(Clone, Copy, Debug)]
pub(crate) struct Count {
    pub place: usize,
    pub rows: u64,
}

/// The memory that is kept for the values of a step.
#[derive(Drop)]
struct Tally {
    entries: Vec<Entry>,
    runs: Vec<Run>,
    counts: Vec<Count>,
}

impl Tally {
    fn new(alloc: Global) -> Tally {
        Tally {
            entries: Vec::new(alloc),
            runs: Vec::new(alloc),
            counts: Vec::new(alloc),
        }
    }

    /// Takes the values of a step, in the place of those that were taken, and answers whether some are lost to the limits of
    /// labels. Labels that are new go into the buffer. The only error is want of memory.
    fn take(
        &mut self,
        alloc: Global,
        counting: &Counting<'_>,
        made: &mut StepBuffer,
        slots: &[Slot],
    ) -> Result<bool, AllocError>
        requires slots { SlotsRise 0 (length counting.now.places.now) slots.now }
        requires within { All (λ place. place < length counting.now.groups.now) counting.now.places.now }
        ensures steps { made.new.steps ≡ made.old.steps }
        ensures stages { OnOk result (stages made.new ≡ stages made.old) }
        ensures tallied { IfOk result (λ lost. AreTallied counting.now slots.now made.new.labels self.new.counts.items lost) }
    {
        list(&mut self.entries, counting.places, slots)?;
        sort_values(&mut self.entries);
        find_runs(&mut self.runs, self.entries.as_slice())?;
        let lost = count_runs(
            alloc,
            counting,
            made,
            &mut self.counts,
            self.runs.as_slice(),
        )?;
        sort_counts(&mut self.counts);
        Ok(lost)
    }
}

/// Brings equal values of a group together.
fn sort_values(entries: &mut Vec<Entry>)
    ensures { IsPermutation entries.old.items entries.new.items }
{
    entries.sort_unstable_by(|a, b| {
        a.group
            .cmp(&b.group)
            .then(value_order(false, &a.value, &b.value))
    });
}

/// Finds the runs of equal values, in the place of those that were found.
fn find_runs(runs: &mut Vec<Run>, entries: &[Entry]) -> Result<(), AllocError>
    ensures all { OnOk result (rolled_out runs.new.items ≡ entries.now) }
    ensures some { OnOk result (AllByRecursion (λ r. 0 < r.rows) runs.new.items) }
    ensures few { OnOk result (rows_in_runs runs.new.items < 2 ^ 64) }
{
    runs.clear();
    let mut rows: u64 = 0;
    for i in 0..entries.len() {
        let entry = entries[i];
        rows += 1;
        if is_repeated(entries, i) {
            continue;
        }
        runs.push(Run { entry, rows })?;
        rows = 0;
    }
    Ok(())
}

/// Whether the entry at a place stands again behind it.
fn is_repeated(entries: &[Entry], i: usize) -> bool
    requires { i < length entries.now }
    ensures there { IsTrue result → i + 1 < length entries.now }
    ensures same { IsTrue result → slice_get entries.now (i + 1) ≡ slice_get entries.now i }
{
    i + 1 < entries.len() && is_same(&entries[i + 1], &entries[i])
}

fn is_same(a: &Entry, b: &Entry) -> bool
    ensures { IsTrue result → a.now ≡ b.now }
{
    a.group == b.group && a.value == b.value
}

/// Counts runs under the places of their labels, in the place of what was counted, and answers whether some are lost.
fn count_runs(
    alloc: Global,
    counting: &Counting<'_>,
    made: &mut StepBuffer,
    counts: &mut Vec<Count>,
    runs: &[Run],
) -> Result<bool, AllocError>
    requires { AllByRecursion (λ r. r.entry.group < length counting.now.groups.now) runs.now }
    ensures steps { made.new.steps ≡ made.old.steps }
    ensures stages { OnOk result (stages made.new ≡ stages made.old) }
    ensures counts { OnOk result (counts_under made.new.labels counts.new.items ≡ runs_under counting.now runs.now) }
    ensures within { OnOk result (AllByRecursion (λ n. n.place < length made.new.labels) counts.new.items) }
    ensures few { OnOk result (rows_in counts.new.items ≤ rows_in_runs runs.now) }
    ensures lost { IfOk result (λ lost. lost ≡ has_lost counting.now runs.now) }
{
    counts.clear();
    let mut lost = false;
    for run in runs {
        let missed = count_run(alloc, counting, made, counts, run)?;
        lost = either(lost, missed);
    }
    Ok(lost)
}

/// Counts a run under the place of its labels, and answers whether it is lost since it has none.
fn count_run(
    alloc: Global,
    counting: &Counting<'_>,
    made: &mut StepBuffer,
    counts: &mut Vec<Count>,
    run: &Run,
) -> Result<bool, AllocError>
    requires { run.now.entry.group < length counting.now.groups.now }
    ensures steps { made.new.steps ≡ made.old.steps }
    ensures stages { OnOk result (stages made.new ≡ stages made.old) }
    ensures kept { (j : _) (names : _) → slice_get made.old.labels j ≡ Some names → slice_get made.new.labels j ≡ Some names }
    ensures counted { OnOk result (IsCounted made.new.labels (labels_of_entry counting.now run.now.entry) run.now.rows counts.old.items counts.new.items) }
    ensures lost { IfOk result (λ lost. lost ≡ is_lost counting.now run.now) }
{
    match labels_of(alloc, counting, &run.entry)? {
        Some(labels) => {
            let place = made.place(&labels)?;
            counts.push(Count {
                place,
                rows: run.rows,
            })?;
            Ok(false)
        }
        None => Ok(true),
    }
}

fn either(a: bool, b: bool) -> bool
    ensures { result ≡ (a || b) }
{
    a || b
}

/// Puts counts into the order of their places.
fn sort_counts(counts: &mut Vec<Count>)
    ensures moved { IsPermutation counts.old.items counts.new.items }
    ensures rise { CountsRise counts.new.items }
{
    counts.sort_unstable_by_key(|count| count.place);
}

/// Puts a step of counts, which are in the order of their places, with Overflow where some are lost.
fn put_counted(
    alloc: Global,
    buffer: &mut StepBuffer,
    at: Ms,
    marks: &Marks,
    counts: &[Count],
    lost: bool,
) -> Result<(), AllocError>
    requires later { IsLater buffer.old at }
    requires rising { SlotsRise 0 (length buffer.old.labels) (slots_counted 0 counts.now) }
    requires few { rows_in counts.now < 2 ^ 64 }
    ensures later { OnOk result ((u : _) → at.0 <ℤ u.0 → IsLater buffer.new u) }
    ensures lent { OnOk result (stages buffer.new ≡ stages buffer.old
        ++ record { at = at; step = step_of (entries_of buffer.old.labels (slots_counted 0 counts.now)) (united marks.now (record { fatal = overflow_if lost; notes = [] })) } ∷ []) }
{
    buffer.begin(at)?;
    buffer.unite(marks)?;
    put_counts(buffer, counts)?;
    let more = lost_marks(alloc, lost)?;
    buffer.unite(&more)?;
    Ok(())
}

/// Puts for each place how many rows are counted there into the last step.
fn put_counts(buffer: &mut StepBuffer, counts: &[Count]) -> Result<(), AllocError>
    requires begun { IsFreeFrom 0 buffer.old }
    requires rising { SlotsRise 0 (length buffer.old.labels) (slots_counted 0 counts.now) }
    requires few { rows_in counts.now < 2 ^ 64 }
    ensures begun { OnOk result (0 < length buffer.new.steps) }
    ensures later { OnOk result ((u : _) → IsLater buffer.old u → IsLater buffer.new u) }
    ensures lent { OnOk result ((front at marks : _) → stages buffer.old ≡ front ++ record { at = at; step = step_of [] marks } ∷ []
        → stages buffer.new ≡ front ++ record { at = at; step = step_of (entries_of buffer.old.labels (slots_counted 0 counts.now)) marks } ∷ []) }
{
    free_places_are_free();
    let mut rows: u64 = 0;
    for i in 0..counts.len() {
        let count = counts[i];
        rows += count.rows;
        if is_at(counts, i + 1, count.place) {
            continue;
        }
        buffer.put(count.place, whole_count(rows as u128))?;
        rows = 0;
    }
    Ok(())
}

/// Whether the count at an index is there and is of this place.
fn is_at(counts: &[Count], i: usize, place: usize) -> bool
    ensures { result ≡ next_is (drop i counts.now) place }
{
    i < counts.len() && counts[i].place == place
}

/// The mark of values that are lost, if some are; none takes no memory.
fn lost_marks(alloc: Global, lost: bool) -> Result<Marks, AllocError>
    ensures { IfOk result (λ marks. marks ≡ record { fatal = overflow_if lost; notes = [] }) }
{
    let mut fatal = Items::new(alloc);
    if lost {
        fatal.push(Mark::Overflow)?;
    }
    Ok(Marks {
        fatal,
        notes: Items::new(alloc),
    })
}
