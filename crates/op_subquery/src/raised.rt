//! The marks and notes of the steps in a window.
ghost use Rattle.op_subquery.specs.Kept.{instants_of, later};
ghost use Rattle.op_subquery.specs.Raised.{AreRaised, raised_all, without_early};
ghost use Rattle.std.specs.List.{AllByRecursion};
ghost use Rattle.std.specs.Map.{keys_of};
ghost use Rattle.std.specs.Prelude.{◌≡◌, ◌++◌, ◌∷◌, [], int_lt, IfOk, OnOk};
ghost use Rattle.promql_meaning.specs.Givens.{no_marks};
ghost use Rattle.step_table.specs.Timed.{marks_of_steps};
ghost use Rattle.step_table.specs.WellFormed.{AreSets};
ghost use Rattle.ticks.specs.Listed.{AreRising};

use label_set::Items;
use std::alloc::{AllocError, Global};
use std::collections::BTreeMap;
use std::marker::Model;
use step_table::laws::unions_are_sets;
use step_table::{Mark, Marks, Note};
use ticks::Ms;

/// Marks and notes, each beside the last instant at which it was raised: as long as that instant lies in the window, it stands.
#[derive(Drop)]
pub(crate) struct RaisedMarks {
    alloc: Global,
    fatal: BTreeMap<Mark, Ms>,
    notes: BTreeMap<Note, Ms>,
}

impl Model for RaisedMarks {
    ghost use Rattle.op_subquery.specs.Raised.{Raised};

    ghost Value = { Raised };

    ghost view = { λ m. record { fatal = m.fatal.entries; notes = m.notes.entries } };
}

impl RaisedMarks {
    pub(crate) fn new(alloc: Global) -> RaisedMarks
        ensures { result ≡ record { fatal = []; notes = [] } }
    {
        RaisedMarks {
            alloc,
            fatal: BTreeMap::new(alloc),
            notes: BTreeMap::new(alloc),
        }
    }

    /// Adds the marks and notes of a later instant. The only error is want of memory.
    pub(crate) fn add(&mut self, at: Ms, marks: &Marks) -> Result<(), AllocError>
        ensures { OnOk result ((steps : _) (s : _) → s.at ≡ at → s.step.marks ≡ marks.now → AreRaised self.old steps → AreRaised self.new (steps ++ s ∷ [])) }
    {
        raise(&mut self.fatal, marks.fatal.as_slice(), at)?;
        raise(&mut self.notes, marks.notes.as_slice(), at)?;
        Ok(())
    }

    /// Lets those go that were last raised no later than an edge. It takes no memory.
    pub(crate) fn forget(&mut self, edge: Ms)
        ensures { (steps : _) → AreRising (instants_of steps) → AreRaised self.old steps → AreRaised self.new (later edge.0 steps) }
    {
        forget_early(&mut self.fatal, edge);
        forget_early(&mut self.notes, edge);
    }

    /// Those that stand. The only error is want of memory; none take no memory.
    pub(crate) fn marks(&self) -> Result<Marks, AllocError>
        ensures { IfOk result (λ marks. (steps : _) → AllByRecursion (λ s. AreSets s.step.marks) steps → AreRaised self.now steps → marks ≡ marks_of_steps no_marks steps) }
    {
        unions_are_sets();
        Ok(Marks {
            fatal: raised(self.alloc, &self.fatal)?,
            notes: raised(self.alloc, &self.notes)?,
        })
    }
}

/// Sets the last instant of some marks.
fn raise<K: Ord + Clone + Drop>(
    last: &mut BTreeMap<K, Ms>,
    marks: &[K],
    at: Ms,
) -> Result<(), AllocError>
    requires { (x y : K) → K.is_clone x y → y ≡ x }
    ensures { OnOk result (last.new.entries ≡ raised_all K.cmp last.old.entries marks.now at) }
{
    for mark in marks {
        last.insert(mark.clone()?, at)?;
    }
    Ok(())
}

/// Takes the marks out whose last instant is no later than an edge.
fn forget_early<K: Ord + Drop>(last: &mut BTreeMap<K, Ms>, edge: Ms)
    ensures { last.new.entries ≡ without_early edge.0 last.old.entries }
{
    last.retain(
        |_mark: &K, at: &mut Ms| -> bool
            ensures { (result ≡ int_lt edge.0 at.old.0) × (at.new ≡ at.old) }
        { edge.0 < at.0 },
    );
}

/// All marks, in their order.
fn raised<K: Ord + Clone + Drop>(
    alloc: Global,
    last: &BTreeMap<K, Ms>,
) -> Result<Items<K>, AllocError>
    requires { (x y : K) → K.is_clone x y → y ≡ x }
    ensures { IfOk result (λ marks. marks ≡ keys_of last.now.entries) }
{
    let mut marks = Items::new(alloc);
    for mark in last.keys() {
        marks.push(mark.clone()?)?;
    }
    Ok(marks)
}
