ghost use Rattle.sample_store.specs.Values.{whole_held};
ghost use Rattle.std.specs.Prelude.{◌≡◌, ◌<◌, ◌≤◌, [], Some, drop, insert, length, map, slice_get, take, IfOk, IfSome, OnErr, OnOk};

use crate::column::Column;
use std::alloc::{AllocError, Global};
use std::marker::Model;
use xfrac::{Held, XFrac, parts, whole};

/// Whole numbers of 64 bits as such, or any held values as they are.
#[derive(Drop)]
enum Kept {
    Wholes(Column<i64>),
    Mixed(Column<Held>),
}

/// What samples hold, in a column of whole numbers of 64 bits as long as each is one, and from then on in one that takes any.
/// Contracts see the list of what is held.
#[derive(Drop)]
pub struct Values {
    kept: Kept,
}

impl Model for Values {
    ghost use Rattle.sample_store.specs.Values.{kept_values};
    ghost use Rattle.std.specs.Prelude.{List};
    ghost use Rattle.xfrac.specs.declared.value.Held.{Held};

    ghost Value = { List Held };

    ghost view = { λ v. kept_values v.kept };
}

impl Values {
    /// No values. It takes no memory.
    pub fn new(alloc: Global) -> Values
        ensures { result ≡ [] }
    {
        Values {
            kept: Kept::Wholes(Column::new(alloc)),
        }
    }

    /// The value at place `i`, counted from 0. It takes no memory.
    pub fn held(&self, i: usize) -> Held
        requires { i < length self.now }
        ensures { slice_get self.now i ≡ Some result }
    {
        match &self.kept {
            Kept::Wholes(numbers) => Held::Value(whole(numbers.as_slice()[i])),
            Kept::Mixed(values) => values.as_slice()[i],
        }
    }

    /// Puts a value at place `i`, counted from 0, before the later ones. The only error is want of memory; then the list is as
    /// it was.
    pub fn insert(&mut self, i: usize, held: &Held) -> Result<(), AllocError>
        requires { i ≤ length self.old }
        ensures ok { OnOk result (self.new ≡ insert self.old i held.now) }
        ensures err { OnErr result (self.new ≡ self.old) }
    {
        // The check finds the type of a number only where a body takes one out.
        let given = match *held {
            Held::Value(number) => Held::Value(number),
            Held::Stale => Held::Stale,
        };
        match &mut self.kept {
            Kept::Wholes(numbers) => match whole_of(held) {
                Some(n) => numbers.insert(i, n),
                None => {
                    let mut values = widened(numbers)?;
                    values.insert(i, given)?;
                    self.kept = Kept::Mixed(values);
                    Ok(())
                }
            },
            Kept::Mixed(values) => values.insert(i, given),
        }
    }

    /// Makes room for so many more values of the kind that is kept. The only error is want of memory.
    pub fn make_room(&mut self, more: usize) -> Result<(), AllocError>
        ensures { self.new ≡ self.old }
    {
        match &mut self.kept {
            Kept::Wholes(numbers) => numbers.make_room(more),
            Kept::Mixed(values) => values.make_room(more),
        }
    }

    /// The values from place `n` on, as whole numbers where each is one. The only error is want of memory.
    #[tactic(auto, using(crate::proofs::Widths::map_dropped, crate::proofs::Widths::length_mapped))]
    pub fn rest(&self, n: usize) -> Result<Values, AllocError>
        requires { n ≤ length self.now }
        ensures { IfOk result (λ v. v ≡ drop n self.now) }
    {
        match &self.kept {
            Kept::Wholes(numbers) => Ok(Values {
                kept: Kept::Wholes(numbers.rest(n)?),
            }),
            Kept::Mixed(values) => rest_of(values, n),
        }
    }

    /// Keeps the first `n` values, the same way, and gives back the memory of the others. It takes no memory.
    #[tactic(auto, using(crate::proofs::Widths::map_taken))]
    pub fn cut(&mut self, n: usize)
        ensures { self.new ≡ take n self.old }
    {
        match &mut self.kept {
            Kept::Wholes(numbers) => numbers.cut(n),
            Kept::Mixed(values) => values.cut(n),
        }
    }
}

/// The whole number of 64 bits that is held, if one is.
fn whole_of(held: &Held) -> Option<i64>
    ensures { IfSome result (λ n. held.now ≡ whole_held n) }
{
    let Held::Value(XFrac::Fin(number)) = held else {
        return None;
    };
    let (n, d) = parts(number);
    if d != 1 {
        return None;
    }
    match i64::try_from(n) {
        Ok(n) => Some(n),
        Err(_) => None,
    }
}

/// Whole numbers as held values, with room for one more. The only error is want of memory.
fn widened(wholes: &Column<i64>) -> Result<Column<Held>, AllocError>
    ensures { IfOk result (λ c. c ≡ map whole_held wholes.now) }
{
    let numbers = wholes.as_slice();
    let mut values: Column<Held> = Column::new(wholes.allocator());
    values.make_room(numbers.len() + 1)?;
    for n in numbers {
        values.push(Held::Value(whole(*n)))?;
    }
    Ok(values)
}

/// Values from place `n` on, as whole numbers where each is one. The only error is want of memory.
fn rest_of(values: &Column<Held>, n: usize) -> Result<Values, AllocError>
    requires { n ≤ length values.now }
    ensures { IfOk result (λ v. v ≡ drop n values.now) }
{
    let later = values.as_slice().split_at(n).1;
    match narrowed(values.allocator(), later)? {
        Some(numbers) => Ok(Values {
            kept: Kept::Wholes(numbers),
        }),
        None => Ok(Values {
            kept: Kept::Mixed(values.rest(n)?),
        }),
    }
}

/// The whole numbers of 64 bits that are held, where each value is one. The only error is want of memory.
fn narrowed(alloc: Global, values: &[Held]) -> Result<Option<Column<i64>>, AllocError>
    ensures { IfOk result (λ o. IfSome o (λ c. map whole_held c ≡ values.now)) }
{
    let mut numbers: Column<i64> = Column::new(alloc);
    numbers.make_room(values.len())?;
    for held in values {
        match whole_of(held) {
            Some(n) => numbers.push(n)?,
            None => return Ok(None),
        }
    }
    Ok(Some(numbers))
}
