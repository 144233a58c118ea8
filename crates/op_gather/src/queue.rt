//! What is kept of one engine.
ghost use Rattle.op_gather.specs.Queues.{ended, fed, has_room, head_of, nothing_of, popped};
ghost use Rattle.remote_api.specs.Strays.{is_empty};
ghost use Rattle.std.specs.List.{filter_map, list_all};
ghost use Rattle.std.specs.Prelude.{◌≡◌, ◌<◌, ◌∷◌, [], Some, false, is_some, length, map, slice_get, slice_set, IfOk, MatchOption, OnErr, OnOk};

use label_set::Items;
use remote_api::Frame;
use std::alloc::{AllocError, Global};
use std::marker::Model;
use step_table::StepCells;
use ticks::Ms;

/// The steps that are kept of a frame, the next one last. Contracts see them in the order of their instants.
#[derive(Drop)]
pub(crate) struct Kept {
    turned: Vec<StepCells>,
}

impl Model for Kept {
    ghost use Rattle.std.specs.Coded.{coded_list};
    ghost use Rattle.std.specs.Prelude.{List, reverse};
    ghost use Rattle.step_table.specs.declared.cells.StepCells.{StepCells};

    ghost Value = { List StepCells };

    ghost view = { λ k. reverse k.turned.items };
}

impl Kept {
    /// The steps of a frame. It takes no memory.
    fn of(frame: Frame) -> Kept
        ensures { result ≡ frame.steps }
    {
        let Frame { steps } = frame;
        let mut turned = steps.into_vec();
        turned.reverse();
        Kept { turned }
    }

    /// No steps. It takes no memory.
    fn none(alloc: Global) -> Kept
        ensures { result ≡ [] }
    {
        Kept {
            turned: Vec::new(alloc),
        }
    }

    /// Takes the next step out.
    fn pop(&mut self) -> Option<StepCells>
        ensures { MatchOption result ((self.old ≡ []) × (self.new ≡ [])) (λ step. self.old ≡ step ∷ self.new) }
    {
        self.turned.pop()
    }

    fn is_empty(&self) -> bool
        ensures { result ≡ is_empty self.now }
    {
        self.turned.is_empty()
    }
}

/// What is kept of one engine: its frames, of which each has a step; the instant of the step that it delivers next, in milliseconds;
/// and whether it has ended.
#[derive(Drop)]
pub(crate) struct Queue {
    pub frames: Items<Kept>,
    pub next: Option<Ms>,
    pub ended: bool,
}

impl Queue {
    /// Nothing of an engine that delivers this instant first. It takes no memory.
    pub(crate) fn new(alloc: Global, first: Option<Ms>) -> Queue
        ensures { result ≡ nothing_of first }
    {
        Queue {
            frames: Items::new(alloc),
            next: first,
            ended: false,
        }
    }

    /// Whether the engine hasn't ended, and fewer than four of its frames are kept.
    pub(crate) fn has_room(&self) -> bool
        ensures { result ≡ has_room self.now }
    {
        !self.ended && self.frames.as_slice().len() < 4
    }

    /// Whether the engine's next step is kept.
    pub(crate) fn has_head(&self) -> bool
        ensures { result ≡ is_some (head_of self.now) }
    {
        match self.frames.as_slice() {
            [] => false,
            [frame, ..] => !frame.is_empty(),
        }
    }

    /// Keeps a frame behind the others, with the instant behind it. The only error is want of memory; then nothing is changed.
    pub(crate) fn keep(&mut self, frame: Frame, behind: Option<Ms>) -> Result<(), AllocError>
        ensures ok { OnOk result (self.new ≡ fed self.old frame.steps behind) }
        ensures err { OnErr result (self.new ≡ self.old) }
    {
        self.frames.push(Kept::of(frame))?;
        self.next = behind;
        Ok(())
    }

    /// Takes the next step out, where it is kept.
    fn pop(&mut self, alloc: Global) -> Option<StepCells>
        ensures head { result ≡ head_of self.old }
        ensures rest { self.new ≡ popped self.old }
    {
        if self.frames.as_slice().is_empty() {
            return None;
        }
        let mut frame = self.frames.replace(0, Kept::none(alloc));
        let step = frame.pop();
        if frame.is_empty() {
            self.frames.remove(0);
        } else {
            self.frames.replace(0, frame);
        }
        step
    }
}

/// Takes the next step of each engine out, and answers these steps and what is left. The only error is want of memory.
pub(crate) fn pop_all(
    alloc: Global,
    queues: Items<Queue>,
) -> Result<(Items<StepCells>, Items<Queue>), AllocError>
    ensures heads { IfOk result (λ r. r.0 ≡ filter_map head_of queues) }
    ensures rest { IfOk result (λ r. r.1 ≡ map popped queues) }
{
    let mut heads = Items::new(alloc);
    let mut rest = Items::new(alloc);
    for queue in queues.into_vec() {
        let mut queue = queue;
        if let Some(step) = queue.pop(alloc) {
            heads.push(step)?;
        }
        rest.push(queue)?;
    }
    Ok((heads, rest))
}

/// Whether the next step of each engine is kept.
pub(crate) fn have_heads(queues: &[Queue]) -> bool
    ensures { result ≡ list_all (λ q. is_some (head_of q)) queues.now }
{
    for queue in queues {
        if !queue.has_head() {
            return false;
        }
    }
    true
}

/// Keeps a frame of an engine, with the instant behind it. The only error is want of memory; then nothing is changed.
pub(crate) fn keep(
    alloc: Global,
    queues: &mut Items<Queue>,
    i: usize,
    frame: Frame,
    behind: Option<Ms>,
) -> Result<(), AllocError>
    requires { i < length queues.old }
    ensures ok { (q : _) → slice_get queues.old i ≡ Some q → OnOk result (queues.new ≡ slice_set queues.old i (fed q frame.steps behind)) }
    ensures err { OnErr result (queues.new ≡ queues.old) }
{
    let mut queue = queues.replace(i, Queue::new(alloc, None));
    match queue.keep(frame, behind) {
        Ok(()) => {
            queues.replace(i, queue);
            Ok(())
        }
        Err(AllocError) => {
            queues.replace(i, queue);
            Err(AllocError)
        }
    }
}

/// Notes that an engine has ended. It takes no memory.
pub(crate) fn end(alloc: Global, queues: &mut Items<Queue>, i: usize)
    requires { i < length queues.old }
    ensures { (q : _) → slice_get queues.old i ≡ Some q → queues.new ≡ slice_set queues.old i (ended q) }
{
    let mut queue = queues.replace(i, Queue::new(alloc, None));
    queue.ended = true;
    queues.replace(i, queue);
}
