//! The first of each group among the rows of a step, by value.
ghost use Rattle.op_rank.specs.Best.{AreBest, Keeps};
ghost use Rattle.op_rank.specs.Contenders.{AreApart, AreNumbers, as_made, before, chosen, contender_of, contenders_in, has_at, is_in_some, kept_in, marked, number_at as number_of};
ghost use Rattle.std.specs.List.{All, AllByRecursion};
ghost use Rattle.std.specs.Prelude.{◌≡◌, ◌||◌, ◌++◌, ◌<◌, ◌≤◌, [], ℕ, false, length, map, replicate, slice_index_or, OnOk};
ghost use Rattle.step_batch.specs.Lent.{SlotsRise};

use crate::best::{Best, Contender, Wanted};
use std::alloc::{AllocError, Global};
use step_batch::Slot;
use step_put::PlacedOutcome;
use xfrac::laws::{is_number, order_is_total};

/// How slots are ranked: beside each place its group, of so many, and the rank of its labels, and from the greatest value down,
/// or up.
#[derive(Clone, Copy)]
pub(crate) struct Ranking<'a> {
    pub groups: &'a [usize],
    pub group_count: usize,
    pub ranks: &'a [usize],
    pub down: bool,
}

/// The memory that is kept for choosing among the rows of a step: the best of each group, and which slots are taken.
#[derive(Drop)]
pub(crate) struct Choice {
    best: Vec<Best>,
    is_taken: Vec<bool>,
    pub placed: Vec<PlacedOutcome>,
}

impl Choice {
    pub(crate) fn new(alloc: Global) -> Choice {
        Choice {
            best: Vec::new(alloc),
            is_taken: Vec::new(alloc),
            placed: Vec::new(alloc),
        }
    }

    /// Takes the first `count` slots of each group, by value and then by rank, in the place of those that were taken. The
    /// only error is want of memory.
    pub(crate) fn choose(
        &mut self,
        alloc: Global,
        ranking: &Ranking<'_>,
        slots: &[Slot],
        count: u64,
    ) -> Result<(), AllocError>
        requires groups { SlotsRise 0 (length ranking.now.groups.now) slots.now }
        requires within { All (λ group. group < ranking.now.group_count) ranking.now.groups.now }
        requires ranks { length ranking.now.ranks.now ≡ length ranking.now.groups.now }
        requires apart { AreApart ranking.now.ranks.now }
        ensures { OnOk result (self.new.placed.items ≡ map as_made (chosen ranking.now.down ranking.now.groups.now ranking.now.ranks.now count slots.now)) }
    {
        order_is_total();
        self.placed.clear();
        if count == 0 {
            return Ok(());
        }
        let wanted = Wanted {
            down: ranking.down,
            count,
        };
        empty_all(&mut self.best);
        make_room(alloc, &mut self.best, ranking.group_count)?;
        offer_all(&mut self.best, ranking, wanted, slots)?;
        settle_all(&mut self.best, wanted);
        mark_none(&mut self.is_taken, slots.len())?;
        mark_all(&mut self.is_taken, self.best.as_slice());
        put_taken(&mut self.placed, self.is_taken.as_slice(), slots)?;
        Ok(())
    }
}

/// Empties what is kept of each group.
fn empty_all(best: &mut Vec<Best>)
    ensures { AllByRecursion (λ b. b.kept.items ≡ []) best.new.items }
{
    for i in 0..best.len() {
        best[i].clear();
    }
}

/// Makes room for so many groups at least; those that are new are empty.
fn make_room(alloc: Global, best: &mut Vec<Best>, count: usize) -> Result<(), AllocError>
    requires { AllByRecursion (λ b. b.kept.items ≡ []) best.old.items }
    ensures many { OnOk result (count ≤ length best.new.items) }
    ensures empty { OnOk result (AllByRecursion (λ b. b.kept.items ≡ []) best.new.items) }
{
    for _group in best.len()..count {
        best.push(Best::new(alloc))?;
    }
    Ok(())
}

/// Offers each slot to its group.
fn offer_all(
    best: &mut Vec<Best>,
    ranking: &Ranking<'_>,
    wanted: Wanted,
    slots: &[Slot],
) -> Result<(), AllocError>
    requires some { 0 < wanted.count }
    requires groups { SlotsRise 0 (length ranking.now.groups.now) slots.now }
    requires within { All (λ group. group < length best.old.items) ranking.now.groups.now }
    requires ranks { length ranking.now.ranks.now ≡ length ranking.now.groups.now }
    requires empty { AllByRecursion (λ b. b.kept.items ≡ []) best.old.items }
    ensures len { length best.new.items ≡ length best.old.items }
    ensures numbers { OnOk result (AreNumbers slots.now) }
    ensures keeps { OnOk result ((group : ℕ) → Keeps (before wanted.down) wanted.count (contenders_in ranking.now.groups.now ranking.now.ranks.now group 0 slots.now) (kept_in best.new.items group)) }
{
    for i in 0..slots.len() {
        let slot = &slots[i];
        is_number(&slot.value);
        let group = number_at(ranking.groups, slot);
        let rank = number_at(ranking.ranks, slot);
        best[group].offer(
            wanted,
            Contender {
                at: i,
                value: slot.value,
                rank,
            },
        )?;
    }
    Ok(())
}

/// Drops those of each group that aren't among its best.
fn settle_all(best: &mut Vec<Best>, wanted: Wanted)
    requires { 0 < wanted.count }
    ensures len { length best.new.items ≡ length best.old.items }
    ensures best { (group : ℕ) (all : _) → Keeps (before wanted.down) wanted.count all (kept_in best.old.items group) → AreBest (before wanted.down) wanted.count all (kept_in best.new.items group) }
{
    for i in 0..best.len() {
        best[i].settle(wanted);
    }
}

pub(crate) fn number_at(numbers: &[usize], slot: &Slot) -> usize
    requires { slot.now.place < length numbers.now }
    ensures { result ≡ number_of numbers.now slot.now }
{
    numbers[slot.place]
}

/// So many marks, none of them set, in the place of those that were there.
fn mark_none(is_taken: &mut Vec<bool>, count: usize) -> Result<(), AllocError>
    ensures { OnOk result (is_taken.new.items ≡ replicate count false) }
{
    is_taken.clear();
    is_taken.resize(count, false)?;
    Ok(())
}

/// Marks the slots of those that are kept of each group.
fn mark_all(is_taken: &mut Vec<bool>, best: &[Best])
    requires within { AllByRecursion (λ b. AllByRecursion (λ c. c.at < length is_taken.old.items) b.kept.items) best.now }
    ensures len { length is_taken.new.items ≡ length is_taken.old.items }
    ensures marks { (k : ℕ) → slice_index_or is_taken.new.items k false ≡ (slice_index_or is_taken.old.items k false || is_in_some k best.now) }
{
    for some in best {
        mark(is_taken, some.kept.as_slice());
    }
}

fn mark(is_taken: &mut Vec<bool>, some: &[Contender])
    requires within { AllByRecursion (λ c. c.at < length is_taken.old.items) some.now }
    ensures len { length is_taken.new.items ≡ length is_taken.old.items }
    ensures marks { (k : ℕ) → slice_index_or is_taken.new.items k false ≡ (slice_index_or is_taken.old.items k false || has_at k some.now) }
{
    for one in some {
        is_taken[one.at] = true;
    }
}

/// Puts the slots that are marked behind others.
fn put_taken(
    placed: &mut Vec<PlacedOutcome>,
    is_taken: &[bool],
    slots: &[Slot],
) -> Result<(), AllocError>
    requires { length is_taken.now ≡ length slots.now }
    ensures { OnOk result (placed.new.items ≡ placed.old.items ++ map as_made (marked is_taken.now slots.now)) }
{
    for i in 0..slots.len() {
        if !is_taken[i] {
            continue;
        }
        let slot = &slots[i];
        placed.push(PlacedOutcome {
            place: slot.place,
            value: Ok(Some(slot.value)),
        })?;
    }
    Ok(())
}
