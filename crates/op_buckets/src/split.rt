//! The buckets of each histogram of a step.
ghost use Rattle.op_buckets.specs.SlotOrders.{IsOrder, slots_in};
ghost use Rattle.op_buckets.specs.Splits.{AreMade, AreNumberEntries, AreSplit, GroupsRise, IsNumberEntry, bound_at, entry_of, entry_with, is_end_at, made_until, note_at, noted_until, text_note};
ghost use Rattle.promql_meaning.specs.Buckets.{bucket_label, fixed_note, histogram_quantile as quantile_of_buckets};
ghost use Rattle.label_set.specs.Labels.{value_of};
ghost use Rattle.std.specs.List.{AllByRecursion, filter_map};
ghost use Rattle.std.specs.List.Sorted.{IsPermutation};
ghost use Rattle.std.specs.Option.{option_map, option_to_list};
ghost use Rattle.std.specs.Prelude.{◌≡◌, ◌++◌, ◌∷◌, ◌<◌, ◌==◌, [], None, Some, length, slice_get, slice_index_or, if◌then◌else◌, IfOk, OnOk};
ghost use Rattle.step_batch.specs.Lent.{SlotsRise};
ghost use Rattle.step_table.specs.Operators.{some_value as value_or_fault};

use crate::kept_labels::{BUCKET_LABEL, KeptLabels};
use crate::order::{Order, SlotKey, bound_there, group_there, slot_there};
use label_set::{Items, Labels, Text};
use promql_meaning::{Bucket, range_notes, with_notes};
use std::alloc::{AllocError, Global};
use std::mem;
use step_batch::Slot;
use step_put::PlacedOutcome;
use step_rules::histogram_quantile;
use step_table::{Marks, Note, some_value};
use xfrac::XFrac;
use xfrac::laws::is_number;

/// A bucket beside the place of its histogram.
#[derive(Clone, Copy)]
pub(crate) struct Entry {
    pub group: usize,
    pub bucket: Bucket,
}

/// The order of the slots of a step, and the memory that is kept for its histograms.
#[derive(Drop)]
pub(crate) struct Split {
    order: Order,
    pub entries: Vec<Entry>,
    pub placed: Vec<PlacedOutcome>,
}

impl Split {
    pub(crate) fn new(alloc: Global) -> Split {
        Split {
            order: Order::new(alloc),
            entries: Vec::new(alloc),
            placed: Vec::new(alloc),
        }
    }

    /// Begins a feed, at whose places other histograms and bounds may stand than before. It takes no memory.
    pub(crate) fn begin_feed(&mut self) {
        self.order.forget();
    }

    /// Takes the quantile of each histogram as it is asked for, in the place of those that were taken, where none is nothing,
    /// and answers the marks and notes with those that came. The only error is want of memory.
    pub(crate) fn fill(
        &mut self,
        alloc: Global,
        q: &Option<XFrac>,
        groups: &[usize],
        kept: &KeptLabels,
        slots: &[Slot],
        marks: Marks,
    ) -> Result<Marks, AllocError>
        requires groups { SlotsRise 0 (length groups.now) slots.now }
        requires bounds { SlotsRise 0 (length kept.now.bounds.items) slots.now }
        requires fed { SlotsRise 0 (length kept.now.fed.items) slots.now }
        ensures { IfOk result (λ noted. AreMade q.now groups.now kept.now.fed.items kept.now.bounds.items slots.now marks self.new.placed.items noted) }
    {
        match q {
            None => {
                self.placed.clear();
                Ok(marks)
            }
            Some(q) => self.take(alloc, q, groups, kept, slots, marks),
        }
    }

    fn take(
        &mut self,
        alloc: Global,
        q: &XFrac,
        groups: &[usize],
        kept: &KeptLabels,
        slots: &[Slot],
        marks: Marks,
    ) -> Result<Marks, AllocError>
        requires groups { SlotsRise 0 (length groups.now) slots.now }
        requires bounds { SlotsRise 0 (length kept.now.bounds.items) slots.now }
        requires fed { SlotsRise 0 (length kept.now.fed.items) slots.now }
        ensures { IfOk result (λ noted. AreSplit q.now groups.now kept.now.fed.items kept.now.bounds.items slots.now marks self.new.placed.items noted) }
    {
        let bounds = kept.bounds.as_slice();
        self.order.renew(groups, bounds, slots)?;
        list_by_histogram(&mut self.entries, &self.order, groups, bounds, slots)?;
        self.placed.clear();
        let fixed = put_groups(alloc, &mut self.placed, q, self.entries.as_slice())?;
        let bad = bad_bounds(alloc, kept.fed.as_slice(), bounds, slots)?;
        let marks = with_notes(alloc, marks, range_notes(alloc, q)?)?;
        let marks = with_notes(alloc, marks, bad)?;
        with_notes(alloc, marks, fixed)
    }
}

// ---- rows as buckets

/// Lists the buckets beside the places of their histograms, which don't fall, in the place of what was listed.
fn list_by_histogram(
    entries: &mut Vec<Entry>,
    order: &Order,
    groups: &[usize],
    bounds: &[Option<XFrac>],
    slots: &[Slot],
) -> Result<(), AllocError>
    requires groups { SlotsRise 0 (length groups.now) slots.now }
    requires bounds { SlotsRise 0 (length bounds.now) slots.now }
    requires count { length order.now.keys.items ≡ length slots.now }
    ensures moved { OnOk result (IsPermutation (filter_map (entry_of groups.now bounds.now) slots.now) entries.new.items) }
    ensures rise { OnOk result (GroupsRise entries.new.items) }
    ensures numbers { OnOk result (AreNumberEntries entries.new.items) }
{
    list(entries, order.keys.as_slice(), groups, bounds, slots)?;
    sort(entries);
    Ok(())
}

/// Lists the buckets beside the places of their histograms, in an order of their slots, in the place of what was listed.
fn list(
    entries: &mut Vec<Entry>,
    keys: &[SlotKey],
    groups: &[usize],
    bounds: &[Option<XFrac>],
    slots: &[Slot],
) -> Result<(), AllocError>
    requires groups { SlotsRise 0 (length groups.now) slots.now }
    requires bounds { SlotsRise 0 (length bounds.now) slots.now }
    requires all { IsOrder (slots_in keys.now) }
    requires count { length keys.now ≡ length slots.now }
    ensures moved { OnOk result (IsPermutation (filter_map (entry_of groups.now bounds.now) slots.now) entries.new.items) }
    ensures numbers { OnOk result (AreNumberEntries entries.new.items) }
{
    entries.clear();
    for key in keys {
        let slot = slot_there(slots, key.slot);
        let group = group_there(groups, slot.place);
        let bound = bound_there(bounds, slot.place);
        list_one(entries, group, &slot.value, bound)?;
    }
    Ok(())
}

fn list_one(
    entries: &mut Vec<Entry>,
    group: usize,
    count: &XFrac,
    bound: Option<XFrac>,
) -> Result<(), AllocError>
    ensures list { OnOk result (entries.new.items ≡ entries.old.items ++ option_to_list (option_map (entry_with group count.now) bound)) }
    ensures numbers { OnOk result (AreNumberEntries (option_to_list (option_map (entry_with group count.now) bound))) }
{
    match bound {
        Some(bound) => push(entries, group, count, &bound),
        None => Ok(()),
    }
}

fn push(
    entries: &mut Vec<Entry>,
    group: usize,
    count: &XFrac,
    bound: &XFrac,
) -> Result<(), AllocError>
    ensures list { OnOk result (entries.new.items ≡ entries.old.items ++ entry_with group count.now bound.now ∷ []) }
    ensures numbers { IsNumberEntry (entry_with group count.now bound.now) }
{
    is_number(bound);
    is_number(count);
    entries.push(Entry {
        group,
        bucket: Bucket {
            bound: *bound,
            count: *count,
        },
    })?;
    Ok(())
}

/// The notes of the rows whose bound is no number.
fn bad_bounds(
    alloc: Global,
    fed: &[Labels],
    bounds: &[Option<XFrac>],
    slots: &[Slot],
) -> Result<Items<Note>, AllocError>
    requires fed { SlotsRise 0 (length fed.now) slots.now }
    requires bounds { SlotsRise 0 (length bounds.now) slots.now }
    ensures { IfOk result (λ notes. notes ≡ filter_map (note_at fed.now bounds.now) slots.now) }
{
    let mut notes = Items::new(alloc);
    for slot in slots {
        let bound = bound_there(bounds, slot.place);
        note(alloc, &mut notes, text_there(fed, slot.place), &bound)?;
    }
    Ok(notes)
}

fn text_there(fed: &[Labels], place: usize) -> &str
    requires { place < length fed.now }
    ensures { result.now ≡ value_of (slice_index_or fed.now place []) bucket_label }
{
    fed[place].get(BUCKET_LABEL)
}

/// Adds the note of a bound that is no number.
fn note(
    alloc: Global,
    notes: &mut Items<Note>,
    text: &str,
    bound: &Option<XFrac>,
) -> Result<(), AllocError>
    ensures { OnOk result (notes.new ≡ notes.old ++ option_to_list (text_note text.now bound.now)) }
{
    match bound {
        Some(_) => Ok(()),
        None => notes.push(Note::BadBucket(Text::of(alloc, text)?)),
    }
}

// ---- histograms

/// Sorts buckets by their histograms. Listed in the order of slots they stand so already, and none is moved.
fn sort(entries: &mut Vec<Entry>)
    requires { AreNumberEntries entries.old.items }
    ensures moved { IsPermutation entries.old.items entries.new.items }
    ensures rise { GroupsRise entries.new.items }
    ensures numbers { AreNumberEntries entries.new.items }
{
    entries.sort_unstable_by_key(|e| e.group);
}

/// Puts the quantile of each histogram behind what is there, and answers the notes of those whose counts were raised.
fn put_groups(
    alloc: Global,
    placed: &mut Vec<PlacedOutcome>,
    q: &XFrac,
    entries: &[Entry],
) -> Result<Items<Note>, AllocError>
    requires empty { placed.old.items ≡ [] }
    requires rise { GroupsRise entries.now }
    ensures placed { OnOk result (placed.new.items ≡ made_until q.now (length entries.now) entries.now) }
    ensures notes { IfOk result (λ notes. notes ≡ noted_until q.now (length entries.now) entries.now) }
{
    let mut notes = Items::new(alloc);
    let mut buckets = Items::new(alloc);
    for i in 0..entries.len() {
        let entry = &entries[i];
        buckets.push(entry.bucket)?;
        if !is_last(entries, i) {
            continue;
        }
        put_group(alloc, placed, &mut notes, &mut buckets, q, entry.group)?;
    }
    Ok(notes)
}

/// Whether the entry at a place is the last of its histogram, where those of one stand together.
fn is_last(entries: &[Entry], i: usize) -> bool
    requires { i < length entries.now }
    ensures { result ≡ is_end_at i entries.now }
{
    if i + 1 == entries.len() {
        return true;
    }
    !is_of_group(&entries[i + 1], &entries[i])
}

fn is_of_group(a: &Entry, b: &Entry) -> bool
    ensures { result ≡ (a.now.group == b.now.group) }
{
    a.group == b.group
}

/// Puts the quantile of the buckets of a histogram, and takes them out.
fn put_group(
    alloc: Global,
    placed: &mut Vec<PlacedOutcome>,
    notes: &mut Items<Note>,
    buckets: &mut Items<Bucket>,
    q: &XFrac,
    group: usize,
) -> Result<(), AllocError>
    ensures placed { OnOk result (placed.new.items ≡ placed.old.items ++ record { place = group; value = value_or_fault (quantile_of_buckets q.now buckets.old) } ∷ []) }
    ensures notes { OnOk result (notes.new ≡ notes.old ++ option_to_list (fixed_note q.now ([], buckets.old))) }
    ensures buckets { OnOk result (buckets.new ≡ []) }
{
    let all = mem::replace(buckets, Items::new(alloc));
    let quantile = histogram_quantile(alloc, q, all)?;
    push_fixed(notes, quantile.fixed)?;
    placed.push(PlacedOutcome {
        place: group,
        value: some_value(quantile.value),
    })?;
    Ok(())
}

fn push_fixed(notes: &mut Items<Note>, fixed: bool) -> Result<(), AllocError>
    ensures { OnOk result (notes.new ≡ notes.old ++ option_to_list (if fixed then Some Note.FixedBuckets else None)) }
{
    if fixed {
        notes.push(Note::FixedBuckets)
    } else {
        Ok(())
    }
}
