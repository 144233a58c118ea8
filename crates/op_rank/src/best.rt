//! The best contenders of a group, which are kept while contenders come.
ghost use Rattle.op_rank.specs.Best.{AreBest, HoldsBest, Keeps};
ghost use Rattle.op_rank.specs.Contenders.{before, contender_order as order_of_contenders};
ghost use Rattle.std.specs.List.Sorted.{IsPermutation, IsSortedBy};
ghost use Rattle.std.specs.Prelude.{◌≡◌, ◌≤◌, ◌<◌, ◌-◌, ◌++◌, ◌∷◌, [], true, false, length, slice_get, IsTrue, OnOk, Some};

use promql_meaning::value_order;
use std::alloc::{AllocError, Global};
use std::cmp::Ordering;
use xfrac::XFrac;
use xfrac::laws::{is_number, order_is_total};

/// A row of a step: which of its slots it has, its value and the rank of its labels.
#[derive(Clone, Copy, Debug)]
pub(crate) struct Contender {
    pub at: usize,
    pub value: XFrac,
    pub rank: usize,
}

/// From the greatest value down, or up, and how many of a group are wanted.
#[derive(Clone, Copy, Debug)]
pub(crate) struct Wanted {
    pub down: bool,
    pub count: u64,
}

/// Those that are kept of the contenders of a group. Once as many as are wanted have come, the last of these stands at their
/// end, and what doesn't come before it isn't kept; and where there are twice as many they are cut to the best.
#[derive(Drop)]
pub(crate) struct Best {
    pub kept: Vec<Contender>,
}

impl Best {
    /// No contenders. It takes no memory.
    pub(crate) fn new(alloc: Global) -> Best
        ensures { result.kept.items ≡ [] }
    {
        Best {
            kept: Vec::new(alloc),
        }
    }

    /// Drops all contenders, and keeps their memory.
    pub(crate) fn clear(&mut self)
        ensures { self.new.kept.items ≡ [] }
    {
        self.kept.clear();
    }

    /// Takes one contender more. The only error is want of memory.
    pub(crate) fn offer(&mut self, wanted: Wanted, one: Contender) -> Result<(), AllocError>
        requires { 0 < wanted.count }
        ensures { OnOk result ((all : _) → Keeps (before wanted.down) wanted.count all self.old.kept.items
            → Keeps (before wanted.down) wanted.count (all ++ one ∷ []) self.new.kept.items) }
    {
        order_is_total();
        if is_behind(self.kept.as_slice(), wanted, &one) {
            return Ok(());
        }
        self.kept.push(one)?;
        if !is_time(self.kept.len(), wanted.count) {
            return Ok(());
        }
        cut(&mut self.kept, wanted);
        Ok(())
    }

    /// Drops those that aren't among the best of all that came.
    pub(crate) fn settle(&mut self, wanted: Wanted)
        requires { 0 < wanted.count }
        ensures { (all : _) → HoldsBest (before wanted.down) wanted.count all self.old.kept.items
            → AreBest (before wanted.down) wanted.count all self.new.kept.items }
    {
        if are_few(self.kept.len(), wanted.count) {
            return;
        }
        cut(&mut self.kept, wanted);
    }
}

/// Whether as many are kept as are wanted, and a contender doesn't come before the last of these.
fn is_behind(kept: &[Contender], wanted: Wanted, one: &Contender) -> bool
    requires { 0 < wanted.count }
    ensures many { IsTrue result → wanted.count ≤ length kept.now }
    ensures behind { (last : _) → IsTrue result → slice_get kept.now (wanted.count - 1) ≡ Some last → before wanted.down one.now last ≡ false }
{
    if (kept.len() as u64) < wanted.count {
        return false;
    }
    let place = wanted.count as usize - 1;
    let last = &kept[place];
    !comes_before(wanted.down, one, last)
}

/// Whether there are no more than are wanted.
fn are_few(len: usize, count: u64) -> bool
    ensures few { IsTrue result → len ≤ count }
    ensures many { result ≡ false → count ≤ len }
{
    len as u64 <= count
}

/// Whether so many are kept that they are cut.
fn is_time(len: usize, count: u64) -> bool
    ensures time { IsTrue result → count ≤ len }
    ensures first { len ≡ count → IsTrue result }
{
    let len = len as u64;
    len == count || len / 2 == count
}

/// Cuts contenders to the best, the last of these at their end.
fn cut(kept: &mut Vec<Contender>, wanted: Wanted)
    requires some { 0 < wanted.count }
    requires many { wanted.count ≤ length kept.old.items }
    ensures count { length kept.new.items ≡ wanted.count }
    ensures keeps { (all : _) → HoldsBest (before wanted.down) wanted.count all kept.old.items → Keeps (before wanted.down) wanted.count all kept.new.items }
{
    order_is_total();
    sort(kept, wanted.down);
    kept.truncate(wanted.count as usize);
}

/// Sorts contenders. Each direction has a comparison of its own, since a sort is known to be by one order alone where that
/// takes nothing from outside.
fn sort(kept: &mut Vec<Contender>, down: bool)
    ensures moved { IsPermutation kept.old.items kept.new.items }
    ensures sorted { IsSortedBy (before down) kept.new.items }
{
    if down {
        sort_from_greatest(kept);
    } else {
        sort_from_least(kept);
    }
}

fn sort_from_greatest(kept: &mut Vec<Contender>)
    ensures moved { IsPermutation kept.old.items kept.new.items }
    ensures sorted { IsSortedBy (before true) kept.new.items }
{
    order_is_total();
    kept.sort_unstable_by(|a, b| {
        is_number(&a.value);
        is_number(&b.value);
        contender_order(true, a, b)
    });
}

fn sort_from_least(kept: &mut Vec<Contender>)
    ensures moved { IsPermutation kept.old.items kept.new.items }
    ensures sorted { IsSortedBy (before false) kept.new.items }
{
    order_is_total();
    kept.sort_unstable_by(|a, b| {
        is_number(&a.value);
        is_number(&b.value);
        contender_order(false, a, b)
    });
}

fn comes_before(down: bool, a: &Contender, b: &Contender) -> bool
    ensures { result ≡ before down a.now b.now }
{
    is_number(&a.value);
    is_number(&b.value);
    contender_order(down, a, b).is_lt()
}

/// By value, those of equal values by rank.
fn contender_order(down: bool, a: &Contender, b: &Contender) -> Ordering
    ensures { result ≡ order_of_contenders down a.now b.now }
{
    value_order(down, &a.value, &b.value).then(a.rank.cmp(&b.rank))
}
