//! What several engines deliver, joined step by step.
ghost use Rattle.op_gather.specs.Histories.{Refuses, Stands, is_ready, refusal_of, refusal_of_fault, steps_at};
ghost use Rattle.op_gather.specs.Joined.{AreInside, LendsJoined};
ghost use Rattle.op_gather.specs.Queues.{ended as ended_of, fed, has_room, nothing_of};
ghost use Rattle.remote_api.specs.Strays.{AsksInTimes, early_end, stray_of};
ghost use Rattle.std.specs.Prelude.{◌≡◌, ◌++◌, ◌<◌, ◌+◌, ℕ, List, [], Some, false, true, IfOk, OnErr, OnOk, drop, length, replicate, slice_get, slice_set};
ghost use Rattle.step_table.specs.declared.cells.PartKind.TheVariants as part;
ghost use Rattle.step_table.specs.declared.cells.StepCells.{StepCells};
ghost use Rattle.ticks.specs.Listed.{IsListed};
ghost use Rattle.ticks.specs.declared.moment.Ms.{Ms};

use crate::joined::join;
use crate::queue::{Queue, end, have_heads, keep, pop_all};
use label_set::Items;
use remote_api::{Ask, CheckFault, Frame, Stray};
use std::alloc::{AllocError, Global};
use std::marker::Model;
use std::mem;
use step_batch::{Batch, StepBuffer, WindowBuffer, Windows};
use step_table::PartKind;
use thiserror::Error;
use ticks::{Ms, Walk, WalkMoment, walks_are_listed};

/// Why a delivery isn't taken, with instants in milliseconds.
#[derive(Clone, Copy, Debug, PartialEq, Eq, Error)]
pub enum GatherRefusal {
    /// A step that isn't the engine's next instant, or no step, or the engine's end, where another instant is to come.
    #[error("out of step")]
    OutOfStep {
        expected: Option<Ms>,
        got: Option<Ms>,
    },
    /// A cell of another kind than is asked, or labels that stand twice in the step at this instant.
    #[error("wrong cell")]
    WrongCell {
        at: Ms,
    },
    /// Memory ran out.
    #[error("out of memory")]
    Memory,
}

impl GatherRefusal {
    fn of(fault: CheckFault) -> GatherRefusal
        ensures { result ≡ refusal_of_fault fault }
    {
        match fault {
            CheckFault::Strayed(stray) => GatherRefusal::strayed(stray),
            CheckFault::Memory => GatherRefusal::Memory,
        }
    }

    fn strayed(stray: Stray) -> GatherRefusal
        ensures { result ≡ refusal_of stray }
    {
        match stray {
            Stray::OutOfStep { expected, got } => GatherRefusal::OutOfStep { expected, got },
            Stray::WrongCell { at } => GatherRefusal::WrongCell { at },
        }
    }
}

/// The cells that several engines deliver for the instants of a walk, in whatever order their frames come: it keeps at most four frames
/// of each engine, and joins the steps at an instant once it has one of each engine. After an error of `feed`, `finish` or `take` it is
/// spent and may only be dropped. Contracts see what is kept of each engine, and what is lent.
#[derive(Drop)]
pub struct Gather {
    ask: Ask,
    next: Option<Ms>,
    queues: Items<Queue>,
    buffer: StepBuffer,
    windows: WindowBuffer,
    spent: bool,
}

impl Model for Gather {
    ghost use Rattle.op_gather.specs.Histories.{Gathering, IsSound};
    ghost use Rattle.std.specs.Coded.{codes};
    ghost use Rattle.ticks.specs.contracts.walk.Walk.{the_row};

    ghost Value = { Gathering };

    ghost coded = { Prim.hlevel (codes, the_row.coded) };

    ghost view = { λ g. record { ask = g.ask; next = g.next; queues = g.queues; lent = g.buffer; windows = g.windows; spent = g.spent } };

    ghost invariant = { λ g. IsSound g.ask g.queues };
}

impl Gather {
    /// A gather of so many engines that have delivered nothing. `moment` and `range`, in milliseconds, are those of windows, and aren't
    /// read for another kind. The only error is want of memory.
    pub fn new(
        alloc: Global,
        engines: u32,
        walk: &Walk,
        kind: &PartKind,
        moment: &WalkMoment,
        range: Ms,
    ) -> Result<Gather, AllocError>
        requires { AsksInTimes (record { walk = walk.now; kind = kind.now; moment = moment.now; range = range }) }
        ensures ask { IfOk result (λ g. g.ask ≡ record { walk = walk.now; kind = kind.now; moment = moment.now; range = range }) }
        ensures going { IfOk result (λ g. g.spent ≡ false) }
        ensures stands { IfOk result (λ g. (all : List Ms) → IsListed walk.now all → Stands g all (replicate engines []) 0) }
    {
        walks_are_listed();
        let first = walk.first();
        let ask = ask_of(walk, kind, moment, range)?;
        let queues = fresh(alloc, engines, first)?;
        Ok(Gather {
            ask,
            next: first,
            queues,
            buffer: StepBuffer::new(alloc),
            windows: WindowBuffer::new(alloc, Ms(0)),
            spent: false,
        })
    }

    /// Whether an error has spent it. It takes no memory.
    pub fn is_spent(&self) -> bool
        ensures { result ≡ self.now.spent }
    {
        self.spent
    }

    /// How many engines it joins. It takes no memory.
    pub fn engines(&self) -> usize
        ensures { result ≡ length self.now.queues }
    {
        self.queues.as_slice().len()
    }

    /// Whether an engine, counted from 0, hasn't ended, and fewer than four of its frames are kept. It takes no memory.
    pub fn room(&self, engine: u32) -> bool
        requires { engine < length self.now.queues }
        ensures { (q : _) → slice_get self.now.queues engine ≡ Some q → result ≡ has_room q }
    {
        let queues = self.queues.as_slice();
        let queue = &queues[engine as usize];
        queue.has_room()
    }

    /// Whether an instant of the walk is left, and the next step of each engine is kept. It takes no memory.
    pub fn ready(&self) -> bool
        ensures { result ≡ is_ready self.now }
    {
        self.next.is_some() && have_heads(self.queues.as_slice())
    }

    /// Takes a frame of an engine that has room. It is refused where it isn't what the engine has to deliver next, and nothing of it is
    /// kept then.
    pub fn feed(&mut self, engine: u32, frame: Frame) -> Result<(), GatherRefusal>
        requires going { self.old.spent ≡ false }
        requires inside { engine < length self.old.queues }
        requires room { (q : _) → slice_get self.old.queues engine ≡ Some q → has_room q ≡ true }
        ensures exact { (all : List Ms) (dones : List (List StepCells)) (taken : ℕ) (done : List StepCells) → Stands self.old all dones taken → slice_get dones engine ≡ Some done
            → Refuses (stray_of self.old.ask (drop (length done) all) frame.steps) result }
        ensures stands { (all : List Ms) (dones : List (List StepCells)) (taken : ℕ) (done : List StepCells) → Stands self.old all dones taken → slice_get dones engine ≡ Some done
            → OnOk result (Stands self.new all (slice_set dones engine (done ++ frame.steps)) taken) }
        ensures kept { (q : _) → slice_get self.old.queues engine ≡ Some q → OnOk result ((behind : _) × (self.new.queues ≡ slice_set self.old.queues engine (fed q frame.steps behind))) }
        ensures nothing { OnErr result (self.new.queues ≡ self.old.queues) }
        ensures going { OnOk result (self.new.spent ≡ false) }
        ensures spent { OnErr result (self.new.spent ≡ true) }
        ensures ask { self.new.ask ≡ self.old.ask }
        ensures lent { self.new.lent ≡ self.old.lent }
        ensures windows { self.new.windows ≡ self.old.windows }
    {
        let alloc = self.queues.allocator();
        self.spent = true;
        let next = next_of(self.queues.as_slice(), engine as usize);
        match frame.check(alloc, &self.ask, next) {
            Ok(behind) => match keep(alloc, &mut self.queues, engine as usize, frame, behind) {
                Ok(()) => {}
                Err(AllocError) => return Err(GatherRefusal::Memory),
            },
            Err(fault) => return Err(GatherRefusal::of(fault)),
        }
        self.spent = false;
        Ok(())
    }

    /// Takes the end of an engine, which is refused while an instant of the walk is still to come of it. It takes no memory.
    pub fn finish(&mut self, engine: u32) -> Result<(), GatherRefusal>
        requires going { self.old.spent ≡ false }
        requires inside { engine < length self.old.queues }
        ensures exact { (all : List Ms) (dones : List (List StepCells)) (taken : ℕ) (done : List StepCells) → Stands self.old all dones taken → slice_get dones engine ≡ Some done
            → Refuses (early_end (drop (length done) all)) result }
        ensures stands { (all : List Ms) (dones : List (List StepCells)) (taken : ℕ) → Stands self.old all dones taken → OnOk result (Stands self.new all dones taken) }
        ensures kept { (q : _) → slice_get self.old.queues engine ≡ Some q → OnOk result (self.new.queues ≡ slice_set self.old.queues engine (ended_of q)) }
        ensures nothing { OnErr result (self.new.queues ≡ self.old.queues) }
        ensures going { OnOk result (self.new.spent ≡ false) }
        ensures spent { OnErr result (self.new.spent ≡ true) }
        ensures ask { self.new.ask ≡ self.old.ask }
        ensures lent { self.new.lent ≡ self.old.lent }
        ensures windows { self.new.windows ≡ self.old.windows }
    {
        let alloc = self.queues.allocator();
        let next = next_of(self.queues.as_slice(), engine as usize);
        if next.is_some() {
            self.spent = true;
            return Err(GatherRefusal::OutOfStep {
                expected: next,
                got: None,
            });
        }
        end(alloc, &mut self.queues, engine as usize);
        Ok(())
    }

    /// Joins the next step of each engine into what is lent, in the place of the step before. The only error is want of memory.
    pub fn take(&mut self) -> Result<(), AllocError>
        requires going { self.old.spent ≡ false }
        requires ready { is_ready self.old ≡ true }
        ensures joined { (all : List Ms) (dones : List (List StepCells)) (taken : ℕ) (t : Ms) → Stands self.old all dones taken → slice_get all taken ≡ Some t
            → OnOk result (LendsJoined self.old.ask.kind t (steps_at taken dones) self.new.lent self.new.windows) }
        ensures inside { (all : List Ms) (dones : List (List StepCells)) (taken : ℕ) → Stands self.old all dones taken → self.old.ask.kind ≡ part.Windows → OnOk result (AreInside self.old.ask self.new.windows) }
        ensures stands { (all : List Ms) (dones : List (List StepCells)) (taken : ℕ) → Stands self.old all dones taken → OnOk result (Stands self.new all dones (taken + 1)) }
        ensures going { OnOk result (self.new.spent ≡ false) }
        ensures spent { OnErr result (self.new.spent ≡ true) }
        ensures ask { self.new.ask ≡ self.old.ask }
    {
        walks_are_listed();
        let alloc = self.queues.allocator();
        self.spent = true;
        let Some(at) = self.next else { unreachable!() };
        let queues = mem::replace(&mut self.queues, Items::new(alloc));
        let (heads, rest) = pop_all(alloc, queues)?;
        self.queues = rest;
        join(
            alloc,
            &self.ask,
            at,
            heads,
            &mut self.buffer,
            &mut self.windows,
        )?;
        self.next = self.ask.walk.after(at);
        self.spent = false;
        Ok(())
    }

    /// Lends the step that was taken last, of rows or of an aggregation; none before the first one. It takes no memory.
    pub fn lend(&self) -> Batch<'_>
        ensures { result ≡ self.now.lent }
    {
        self.buffer.lend()
    }

    /// Lends the windows that were taken last; none before the first ones, or where others than windows are asked. It takes no memory.
    pub fn lend_windows(&self) -> Windows<'_>
        ensures { result ≡ self.now.windows }
    {
        self.windows.lend()
    }
}

/// What is asked of the engines. The only error is want of memory.
fn ask_of(walk: &Walk, kind: &PartKind, moment: &WalkMoment, range: Ms) -> Result<Ask, AllocError>
    ensures { IfOk result (λ ask. ask ≡ record { walk = walk.now; kind = kind.now; moment = moment.now; range = range }) }
{
    Ok(Ask {
        walk: walk.copy()?,
        kind: kind.copy()?,
        moment: *moment,
        range,
    })
}

/// So many engines of which nothing is kept. The only error is want of memory.
fn fresh(alloc: Global, engines: u32, first: Option<Ms>) -> Result<Items<Queue>, AllocError>
    ensures { IfOk result (λ qs. qs ≡ replicate engines (nothing_of first)) }
{
    let mut queues = Items::new(alloc);
    for i in 0..engines {
        queues.push(Queue::new(alloc, first))?;
    }
    Ok(queues)
}

/// The instant that an engine delivers next.
fn next_of(queues: &[Queue], i: usize) -> Option<Ms>
    requires { i < length queues.now }
    ensures { (q : _) → slice_get queues.now i ≡ Some q → result ≡ q.next }
{
    queues[i].next
}
