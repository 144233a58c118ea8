//! What is kept of the values of a group as they come.
ghost use Rattle.op_aggregate.specs.OwedCells.{cell_of};
ghost use Rattle.op_aggregate.specs.Tallies.{HasNumbers, HasRoom, SumHasNumbers, SumHasRoom, count_or_one as count_made, group_of, group_value, held, sum_or_mean as sum_made, tally_of};
ghost use Rattle.std.specs.List.{All};
ghost use Rattle.std.specs.Prelude.{◌≡◌, ◌+◌, ◌<◌, ◌^◌, ◌++◌, ◌∷◌, [], OnOk};
ghost use Rattle.window_fn.specs.Aggregates.{greater as greater_of, lesser as lesser_of};
ghost use Rattle.xfrac.specs.Kinds.{is_not_a_number};
ghost use Rattle.xfrac.specs.Laws.{IsNumber};

use func_table::Aggregate;
use label_set::Items;
use std::alloc::{AllocError, Global};
use step_table::Cell;
use window_fn::aggregates::variance;
use xfrac::laws::{is_number, part_overflows_whole};
use xfrac::{CompareOp, SumAcc, XFrac, compare, whole, whole_count};

/// What is kept of the values of a group, by what is made of them.
#[derive(Drop)]
pub(crate) enum Tally {
    /// Nothing.
    Rows,
    /// Their sum, until it overflows. `SumAcc` adds a whole number without seeking a common divisor, over whatever
    /// denominator the sum has by then.
    Sum(Option<SumAcc>),
    /// The least of them.
    Least(XFrac),
    /// The greatest of them.
    Greatest(XFrac),
    /// All of them.
    Values(Items<XFrac>),
}

impl Tally {
    /// Of no values. It takes no memory.
    fn new(alloc: Global, f: Aggregate) -> Tally
        ensures { result ≡ tally_of f [] }
    {
        match f {
            Aggregate::Sum | Aggregate::Avg => Tally::Sum(Some(SumAcc::new())),
            Aggregate::Min => Tally::Least(XFrac::NaN),
            Aggregate::Max => Tally::Greatest(XFrac::NaN),
            Aggregate::Stdvar => Tally::Values(Items::new(alloc)),
            _ => Tally::Rows,
        }
    }

    /// Takes one value more. The only error is want of memory.
    fn add(&mut self, value: &XFrac) -> Result<(), AllocError>
        requires { HasRoom self.old }
        ensures { OnOk result ((f : _) (xs : _) → All IsNumber xs → self.old ≡ tally_of f xs → self.new ≡ tally_of f (xs ++ value.now ∷ [])) }
    {
        match self {
            Tally::Rows => {}
            Tally::Sum(sum) => *sum = with_value(*sum, value),
            Tally::Least(least) => *least = lesser(least, value),
            Tally::Greatest(most) => *most = greater(most, value),
            Tally::Values(values) => values.push(*value)?,
        }
        Ok(())
    }
}

/// The rows of a group that have come: how many, and what is kept of their values.
#[derive(Drop)]
pub(crate) struct Group {
    pub rows: u64,
    pub tally: Tally,
}

impl Group {
    /// No rows. It takes no memory.
    pub(crate) fn new(alloc: Global, f: Aggregate) -> Group
        ensures { result ≡ group_of f [] }
    {
        Group {
            rows: 0,
            tally: Tally::new(alloc, f),
        }
    }

    /// Takes one row more. The only error is want of memory.
    pub(crate) fn add(&mut self, value: &XFrac) -> Result<(), AllocError>
        requires few { self.old.rows + 1 < 2 ^ 64 }
        requires room { HasRoom self.old.tally }
        ensures { OnOk result ((f : _) (xs : _) → All IsNumber xs → self.old ≡ group_of f xs → self.new ≡ group_of f (xs ++ value.now ∷ [])) }
    {
        self.rows += 1;
        self.tally.add(value)
    }

    /// What an aggregation makes of the rows; nothing where it overflows.
    pub(crate) fn value(&self, f: Aggregate) -> Option<XFrac>
        requires { HasNumbers self.now.tally }
        ensures { result ≡ group_value f self.now }
    {
        match &self.tally {
            Tally::Rows => Some(count_or_one(f, self.rows)),
            Tally::Sum(sum) => sum_or_mean(f, sum),
            Tally::Least(least) => Some(*least),
            Tally::Greatest(most) => Some(*most),
            Tally::Values(values) => variance(values.as_slice()).ok(),
        }
    }

    /// The cell of the rows, which isn't finished; there is none where their sum overflows, nor where all values are kept.
    pub(crate) fn cell(&self) -> Option<Cell>
        ensures { result ≡ cell_of self.now }
    {
        match &self.tally {
            Tally::Rows => Some(Cell::Count(self.rows)),
            Tally::Sum(Some(sum)) => Some(Cell::Sum(*sum)),
            Tally::Least(value) => Some(Cell::Value(*value)),
            Tally::Greatest(value) => Some(Cell::Value(*value)),
            Tally::Sum(None) => None,
            Tally::Values(_) => None,
        }
    }
}

/// How many rows there are; 1 for `Group`.
fn count_or_one(f: Aggregate, rows: u64) -> XFrac
    ensures { result ≡ count_made f rows }
{
    match f {
        Aggregate::Group => whole(1),
        _ => whole_count(rows as u128),
    }
}

/// The sum; for `Avg` the mean.
fn sum_or_mean(f: Aggregate, sum: &Option<SumAcc>) -> Option<XFrac>
    requires { SumHasNumbers sum.now }
    ensures { result ≡ sum_made f sum.now }
{
    let sum = (*sum)?;
    match f {
        Aggregate::Avg => sum.mean().ok(),
        _ => Some(sum.value()),
    }
}

/// The sum with one more number. There is none from the first overflow on, since no later number mends it.
fn with_value(sum: Option<SumAcc>, value: &XFrac) -> Option<SumAcc>
    requires { SumHasRoom sum }
    ensures { (xs : _) → All IsNumber xs → sum ≡ held xs → result ≡ held (xs ++ value.now ∷ []) }
{
    part_overflows_whole();
    is_number(value);
    let mut sum = sum?;
    match sum.add(value) {
        Ok(()) => Some(sum),
        Err(_) => None,
    }
}

fn is_nan(v: &XFrac) -> bool
    ensures { result ≡ is_not_a_number v.now }
{
    matches!(v, XFrac::NaN)
}

/// Of two values the greater; NaN gives way to any other.
fn greater(most: &XFrac, value: &XFrac) -> XFrac
    ensures { result ≡ greater_of most.now value.now }
{
    if is_nan(most) || compare(CompareOp::Gt, value, most) {
        *value
    } else {
        *most
    }
}

/// Of two values the lesser; NaN gives way to any other.
fn lesser(least: &XFrac, value: &XFrac) -> XFrac
    ensures { result ≡ lesser_of least.now value.now }
{
    if is_nan(least) || compare(CompareOp::Lt, value, least) {
        *value
    } else {
        *least
    }
}
