ghost use Rattle.std.specs.Prelude.{◌≡◌, ◌++◌, [], ◌∷◌, true, List, IfOk, OnOk, OnErr};
ghost use Rattle.std.specs.Set.{sorted_merge};
ghost use Rattle.step_table.specs.Unions.{set_of, union, united, with_fatal};

use crate::marks::{Mark, Marks};
use label_set::Items;
use std::alloc::{AllocError, Global};
use std::cmp::Ordering;
use std::collections::BTreeSet;

impl Marks {
    /// Adds the other's marks and notes. The only error is want of memory; then nothing is changed.
    pub fn unite(&mut self, other: &Marks) -> Result<(), AllocError>
        ensures ok { OnOk result (self.new ≡ united self.old other.now) }
        ensures err { OnErr result (self.new ≡ self.old) }
    {
        let fatal = joined(&self.fatal, &other.fatal)?;
        let notes = joined(&self.notes, &other.notes)?;
        self.fatal = fatal;
        self.notes = notes;
        Ok(())
    }

    /// Adds the fatal marks of a list in any order. The only error is want of memory; then nothing is changed.
    pub(crate) fn add_fatal(&mut self, alloc: Global, fatal: Items<Mark>) -> Result<(), AllocError>
        ensures ok { OnOk result (self.new ≡ with_fatal self.old fatal) }
        ensures err { OnErr result (self.new ≡ self.old) }
    {
        let marks = Marks {
            fatal: as_set(alloc, fatal)?,
            notes: Items::new(alloc),
        };
        self.unite(&marks)
    }
}

/// The items of two sets. The one that is taken from has to hold no memory where it is empty.
fn joined<T: Ord + Clone + Drop>(items: &Items<T>, more: &Items<T>) -> Result<Items<T>, AllocError>
    requires { (x y : T) → T.is_clone x y → y ≡ x }
    ensures { IfOk result (λ all. all ≡ union T.cmp items.now more.now) }
{
    let items = items.copy()?.into_vec();
    let mut all = Items::new(*items.allocator());
    let mut rest = more.as_slice();
    for item in items {
        rest = push_below(&mut all, rest, &item)?;
        all.push(item)?;
    }
    push_all(&mut all, rest)?;
    Ok(all)
}

/// Pushes copies of the items at the front that are below `bound`, and answers those that are above it.
fn push_below<'a, T: Ord + Clone + Drop>(
    all: &mut Items<T>,
    items: &'a [T],
    bound: &T,
) -> Result<&'a [T], AllocError>
    requires { (x y : T) → T.is_clone x y → y ≡ x }
    ensures { IfOk result (λ rest. (xs : List T) → all.new ++ bound.now ∷ sorted_merge T.cmp true xs rest.now
        ≡ all.old ++ sorted_merge T.cmp true (bound.now ∷ xs) items.now) }
{
    let mut rest = items;
    while let [item, ..] = rest {
        match bound.cmp(item) {
            Ordering::Less => return Ok(rest),
            Ordering::Equal => return Ok(rest.split_at(1).1),
            Ordering::Greater => {
                all.push(item.clone()?)?;
                rest = rest.split_at(1).1;
            }
        }
    }
    Ok(rest)
}

fn push_all<T: Clone + Drop>(all: &mut Items<T>, items: &[T]) -> Result<(), AllocError>
    requires { (x y : T) → T.is_clone x y → y ≡ x }
    ensures { OnOk result (all.new ≡ all.old ++ items.now) }
{
    for item in items {
        all.push(item.clone()?)?;
    }
    Ok(())
}

/// The items of a list as a set: in order, and each once. The only error is want of memory.
pub fn as_set<T: Ord + Drop>(alloc: Global, items: Items<T>) -> Result<Items<T>, AllocError>
    ensures { IfOk result (λ set. set ≡ set_of T.cmp items) }
{
    let mut set = BTreeSet::new(alloc);
    for item in items.into_vec() {
        set.insert(item)?;
    }
    in_order(alloc, set)
}

fn in_order<T: Ord + Drop>(alloc: Global, set: BTreeSet<T>) -> Result<Items<T>, AllocError>
    ensures { IfOk result (λ list. list ≡ set.keys) }
{
    let mut list = Items::new(alloc);
    for item in set {
        list.push(item)?;
    }
    Ok(list)
}
