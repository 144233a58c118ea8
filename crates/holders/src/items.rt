ghost use Rattle.std.specs.Cmp.Lexicographic.{lists_equiv, lists_per, pointwise};
ghost use Rattle.std.specs.Prelude.{◌≡◌, ◌<◌, ◌≤◌, ◌++◌, [], ◌∷◌, Some, length, insert, remove, slice_get, slice_set, IfOk, OnOk, OnErr, MatchOption};

use std::alloc::{AllocError, Global};
use std::marker::Model;
use std::mem;

/// A list, which contracts see as the list of its items. It keeps the allocator that it was made with.
#[derive(Debug, Drop)]
pub struct Items<T> {
    items: Vec<T>,
}

impl<T> Model for Items<T> {
    ghost use Rattle.std.specs.Coded.{coded_list};
    ghost use Rattle.std.specs.Prelude.{List};

    ghost Value = { List T };

    ghost coded = { coded_list T.code };

    ghost view = { λ it. it.items.items };
}

impl<T> Items<T> {
    /// The empty list. It takes no memory.
    pub fn new(alloc: Global) -> Items<T>
        ensures { result ≡ [] }
    {
        Items {
            items: Vec::new(alloc),
        }
    }

    /// The empty list, with room for so many items. The only error is want of memory.
    pub fn with_capacity(alloc: Global, most: usize) -> Result<Items<T>, AllocError>
        ensures { IfOk result (λ it. it ≡ []) }
    {
        Ok(Items {
            items: Vec::with_capacity(alloc, most)?,
        })
    }

    /// The items of std's list, in order. It takes no memory.
    pub fn from_vec(items: Vec<T>) -> Items<T>
        ensures { result ≡ items.items }
    {
        Items { items }
    }

    /// The allocator that the list was made with. Contracts see the list as its items alone, so that no clause can say which
    /// one that is.
    pub fn allocator(&self) -> Global {
        *self.items.allocator()
    }

    /// The items in order.
    pub fn as_slice(&self) -> &[T]
        ensures { result.now ≡ self.now }
    {
        self.items.as_slice()
    }

    /// Puts the item at place `i`, counted from 0, and answers the one that stood there. It takes no memory.
    pub fn replace(&mut self, i: usize, item: T) -> T
        requires { i < length self.old }
        ensures was { slice_get self.old i ≡ Some result }
        ensures now { self.new ≡ slice_set self.old i item }
    {
        mem::replace(&mut self.items[i], item)
    }

    /// Takes out the item at place `i`, counted from 0; later items move up. It takes no memory.
    pub fn remove(&mut self, i: usize) -> T
        requires { i < length self.old }
        ensures was { slice_get self.old i ≡ Some result }
        ensures now { self.new ≡ remove self.old i }
    {
        self.items.remove(i)
    }

    /// Takes out the last item. There is none exactly where the list is empty. It takes no memory.
    pub fn pop(&mut self) -> Option<T>
        ensures { MatchOption result ((self.old ≡ []) × (self.new ≡ [])) (λ last. self.old ≡ self.new ++ last ∷ []) }
    {
        self.items.pop()
    }

    /// The items as std's list, for a loop that takes them one by one.
    pub fn into_vec(self) -> Vec<T>
        ensures { result.items ≡ self }
    {
        let Items { items } = self;
        items
    }
}

impl<T: Drop> Items<T> {
    /// Puts the item at the end. The only error is want of memory; then the item is dropped and the list is as it was.
    pub fn push(&mut self, item: T) -> Result<(), AllocError>
        ensures ok { OnOk result (self.new ≡ self.old ++ item ∷ []) }
        ensures err { OnErr result (self.new ≡ self.old) }
    {
        self.items.push(item)?;
        Ok(())
    }

    /// Puts the item at place `i`, counted from 0, before the later ones. The only error is want of memory; then the
    /// item is dropped and the list is as it was.
    pub fn insert(&mut self, i: usize, item: T) -> Result<(), AllocError>
        requires { i ≤ length self.old }
        ensures ok { OnOk result (self.new ≡ insert self.old i item) }
        ensures err { OnErr result (self.new ≡ self.old) }
    {
        self.items.insert(i, item)?;
        Ok(())
    }
}

impl<T: Clone + Drop> Items<T> {
    /// An equal list, on the allocator of this one, of items whose clones equal them. The only error is want of memory.
    pub fn copy(&self) -> Result<Items<T>, AllocError>
        requires { (x y : T) → T.is_clone x y → y ≡ x }
        ensures { IfOk result (λ it. it ≡ self.now) }
    {
        Ok(Items {
            items: Vec::from_clones(self.allocator(), self.items.as_slice())?,
        })
    }

    /// Puts copies of the items at the end, where clones equal what they copy. The only error is want of memory; then
    /// the list is as it was.
    pub fn extend_from_slice(&mut self, more: &[T]) -> Result<(), AllocError>
        requires { (x y : T) → T.is_clone x y → y ≡ x }
        ensures ok { OnOk result (self.new ≡ self.old ++ more.now) }
        ensures err { OnErr result (self.new ≡ self.old) }
    {
        self.items.extend_from_slice(more)
    }
}

/// A list's clone has a clone of each item, in order.
impl<T: Clone + Drop> Clone for Items<T> {
    ghost use Rattle.std.specs.List.{AllZip};
    ghost use Rattle.std.specs.Prelude.{◌≡◌, length};

    ghost is_clone = { λ s t. AllZip T.is_clone s t × (length t ≡ length s) };

    fn clone(&self) -> Result<Items<T>, AllocError> {
        Ok(Items {
            items: self.items.clone()?,
        })
    }
}

impl<T: PartialEq> PartialEq for Items<T> {
    ghost eq = { pointwise T.eq };

    ghost laws = { lists_per T.laws };

    fn eq(&self, other: &Self) -> bool {
        self.items == other.items
    }
}

impl<T: Eq> Eq for Items<T> {
    ghost laws = { lists_equiv T.Eq.laws };
}
