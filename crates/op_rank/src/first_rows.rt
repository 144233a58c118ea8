//! The first rows of each group by value.
ghost use Rattle.op_rank.specs.Contenders.{AreRanks};
ghost use Rattle.op_rank.specs.Groups.{IsGrouped, left_by};
ghost use Rattle.op_rank.specs.Rules.{IsScalar, count_asked as count_of_slots, first_at, made_of_each, marks_asked as marks_of_asked};
ghost use Rattle.promql_meaning.specs.Ranks.{if_within as within_most, rank_count as count_of};
ghost use Rattle.std.specs.List.{All};
ghost use Rattle.std.specs.Option.{option_map};
ghost use Rattle.std.specs.Prelude.{◌≡◌, ◌<◌, ◌<ℤ◌, ◌++◌, ◌∷◌, [], Some, length, slice_get, IfOk, OnOk};
ghost use Rattle.step_batch.specs.Lent.{IsLater, stages};
ghost use Rattle.step_put.specs.declared.labels_left.Left.TheVariants.{All as AllLabels};
ghost use Rattle.step_table.specs.Unions.{united, with_fatal};
ghost use Rattle.step_table.specs.declared.marks.Mark.TheVariants.{Overflow};

use crate::contenders::{Choice, Ranking};
use crate::groups::Groups;
use crate::label_order::LabelOrder;
use label_set::{Grouping, Items};
use std::alloc::{AllocError, Global};
use std::marker::Model;
use step_batch::laws::lent_steps_are_tables;
use step_batch::{Batch, Slot};
use step_put::{Left, OutcomeBuffer};
use step_table::order_laws::rows_ignore_order;
use step_table::{Mark, Marks};
use xfrac::{XFrac, parts};

/// The most rows that may be asked for: 2^63 - 1.
const MOST_ROWS: u128 = 9_223_372_036_854_775_807;

/// The first rows of each group, as many as a parameter asks for.
#[derive(Drop)]
pub(crate) struct FirstRows {
    alloc: Global,
    groups: Groups,
    order: LabelOrder,
    choice: Choice,
    rows: OutcomeBuffer,
}

impl Model for FirstRows {
    ghost use Rattle.op_rank.specs.Rules.{GroupedSteps};
    ghost use Rattle.std.specs.Prelude.{◌≡◌};
    ghost use Rattle.step_put.specs.declared.labels_left.Left.TheVariants.{All};

    ghost Value = { GroupedSteps };

    ghost view = { λ f. record { left = f.groups.left; lent = f.rows.lent } };

    ghost invariant = { λ f. f.rows.left ≡ All };
}

impl FirstRows {
    pub(crate) fn new(alloc: Global, by: &Grouping) -> Result<FirstRows, AllocError>
        ensures { IfOk result (λ f. f ≡ record { left = left_by by.now; lent = record { labels = []; steps = [] } }) }
    {
        Ok(FirstRows {
            alloc,
            groups: Groups::new(alloc, by)?,
            order: LabelOrder::new(alloc),
            choice: Choice::new(alloc),
            rows: OutcomeBuffer::new(alloc, Left::All),
        })
    }

    /// Takes steps, each beside its parameter, in the place of what was fed before: from the greatest value down, or up. The
    /// only error is want of memory; then a next feed may follow all the same.
    pub(crate) fn feed(
        &mut self,
        down: bool,
        rows: &Batch<'_>,
        arg: &Batch<'_>,
    ) -> Result<(), AllocError>
        requires args { length arg.now.steps ≡ length rows.now.steps }
        requires scalar { IsScalar arg.now }
        ensures left { self.new.left ≡ self.old.left }
        ensures lent { OnOk result ((by : _) → self.old.left ≡ left_by by → stages self.new.lent ≡ made_of_each (first_at down by) (stages arg.now) (stages rows.now)) }
    {
        let labels = rows.labels();
        self.groups.renew(labels)?;
        self.order.renew(self.alloc, labels)?;
        self.rows.begin_feed(labels)?;
        let ranking = Ranking {
            groups: self.groups.places(),
            group_count: self.groups.count(),
            ranks: self.order.ranks.as_slice(),
            down,
        };
        put_all(
            self.alloc,
            &ranking,
            &mut self.choice,
            &mut self.rows,
            rows,
            arg,
        )
    }

    /// Lends the steps that were made of what was fed last. It takes no memory.
    pub(crate) fn lend(&self) -> Batch<'_>
        ensures { result ≡ self.now.lent }
    {
        self.rows.lend()
    }
}

/// Puts the first rows of steps.
fn put_all(
    alloc: Global,
    ranking: &Ranking<'_>,
    choice: &mut Choice,
    made: &mut OutcomeBuffer,
    rows: &Batch<'_>,
    arg: &Batch<'_>,
) -> Result<(), AllocError>
    requires args { length arg.now.steps ≡ length rows.now.steps }
    requires scalar { IsScalar arg.now }
    requires ranks { AreRanks rows.now.labels ranking.now.ranks.now }
    requires groups { length ranking.now.groups.now ≡ length rows.now.labels }
    requires within { All (λ group. group < ranking.now.group_count) ranking.now.groups.now }
    requires left { made.old.left ≡ AllLabels }
    requires fed { made.old.fed ≡ rows.now.labels }
    requires empty { made.old.lent.steps ≡ [] }
    ensures left { made.new.left ≡ made.old.left }
    ensures lent { OnOk result ((by : _) → IsGrouped by rows.now.labels ranking.now.groups.now
        → stages made.new.lent ≡ made_of_each (first_at ranking.now.down by) (stages arg.now) (stages rows.now)) }
{
    for i in 0..rows.len() {
        put_one(alloc, ranking, choice, made, rows, arg, i)?;
    }
    Ok(())
}

/// Puts the first rows of the step at a place.
fn put_one(
    alloc: Global,
    ranking: &Ranking<'_>,
    choice: &mut Choice,
    made: &mut OutcomeBuffer,
    rows: &Batch<'_>,
    arg: &Batch<'_>,
    i: usize,
) -> Result<(), AllocError>
    requires here { i < length rows.now.steps }
    requires args { i < length arg.now.steps }
    requires scalar { IsScalar arg.now }
    requires ranks { AreRanks rows.now.labels ranking.now.ranks.now }
    requires groups { length ranking.now.groups.now ≡ length rows.now.labels }
    requires within { All (λ group. group < ranking.now.group_count) ranking.now.groups.now }
    requires left { made.old.left ≡ AllLabels }
    requires fed { made.old.fed ≡ rows.now.labels }
    requires later { (t : _) → option_map (λ s. s.at) (slice_get rows.now.steps i) ≡ Some t → IsLater made.old.lent t }
    ensures left { made.new.left ≡ made.old.left }
    ensures fed { made.new.fed ≡ made.old.fed }
    ensures later { OnOk result ((t u : _) → option_map (λ s. s.at) (slice_get rows.now.steps i) ≡ Some t → t.0 <ℤ u.0 → IsLater made.new.lent u) }
    ensures lent { OnOk result ((by p s : _) → IsGrouped by rows.now.labels ranking.now.groups.now → slice_get (stages arg.now) i ≡ Some p → slice_get (stages rows.now) i ≡ Some s
        → stages made.new.lent ≡ stages made.old.lent ++ first_at ranking.now.down by p s ∷ []) }
{
    lent_steps_are_tables();
    rows_ignore_order();
    let at = rows.at(i);
    let slots = rows.slots(i);
    let parameter = arg.slots(i);
    let _ = rows.labels();
    let count = count_asked(parameter);
    let marks = marks_asked(alloc, count, rows.marks(i), arg.marks(i))?;
    choice.choose(alloc, ranking, slots, count.unwrap_or(0))?;
    made.put(at, &marks, choice.placed.as_slice())?;
    Ok(())
}

/// How many rows a parameter asks for: none where it has lost its value; nothing where it is NaN, or above 2^63 - 1 when it is
/// cut to a whole number.
fn count_asked(slots: &[Slot]) -> Option<u64>
    ensures { result ≡ count_of_slots slots.now }
{
    match slots {
        [] => Some(0),
        [slot, ..] => rank_count(&slot.value),
    }
}

fn rank_count(arg: &XFrac) -> Option<u64>
    ensures { result ≡ count_of arg.now }
{
    match arg {
        XFrac::Fin(fraction) => {
            let (n, d) = parts(fraction);
            if n < 0 {
                Some(0)
            } else {
                if_within(n.unsigned_abs() / d.unsigned_abs())
            }
        }
        XFrac::NegInf => Some(0),
        XFrac::PosInf | XFrac::NaN => None,
    }
}

fn if_within(n: u128) -> Option<u64>
    ensures { result ≡ within_most n }
{
    if n <= MOST_ROWS { Some(n as u64) } else { None }
}

/// The marks and notes of a step and of its parameter, with Overflow where that asks for no number of rows.
fn marks_asked(
    alloc: Global,
    count: Option<u64>,
    own: &Marks,
    more: &Marks,
) -> Result<Marks, AllocError>
    ensures { IfOk result (λ m. m ≡ marks_of_asked count (united own.now more.now)) }
{
    let mut marks = own.copy()?;
    marks.unite(more)?;
    match count {
        Some(_) => Ok(marks),
        None => with_overflow(alloc, marks),
    }
}

fn with_overflow(alloc: Global, marks: Marks) -> Result<Marks, AllocError>
    ensures { IfOk result (λ m. m ≡ with_fatal marks (Overflow ∷ [])) }
{
    let mut fatal = Items::new(alloc);
    fatal.push(Mark::Overflow)?;
    let mut marks = marks;
    marks.unite(&Marks {
        fatal,
        notes: Items::new(alloc),
    })?;
    Ok(marks)
}
