//! Pulls, until the wanted gather has the next step of each of its engines.
ghost use Rattle.exchange.specs.Calls.{AskStays, Each, Grows, HasSameAsks, IsCalled};
ghost use Rattle.exchange.specs.Faults.{Blames, Faulted, IsAskedAt};
ghost use Rattle.exchange.specs.Standing.{AllTell, GivesSteps, Going, IsApartFrom, PlaceStands, Progress, gone_on, rooms};
ghost use Rattle.exchange.specs.declared.place.Asking.{Asking};
ghost use Rattle.op_gather.specs.Histories.{is_ready, steps_at};
ghost use Rattle.op_gather.specs.Joined.{AreInside, LendsJoined};
ghost use Rattle.op_gather.specs.Queues.{has_room};
ghost use Rattle.remote_api.specs.Seen.{EngineSeen, HasPulled, KeepsStrays, MayPull};
ghost use Rattle.std.specs.Prelude.{◌≡◌, ◌<◌, ◌≤◌, ◌^◌, ℕ, List, [], Some, true, IfOk, OnOk, length, map, slice_get};
ghost use Rattle.step_table.specs.declared.cells.PartKind.TheVariants as part;
ghost use Rattle.step_table.specs.declared.cells.StepCells.{StepCells};
ghost use Rattle.ticks.specs.declared.moment.Ms.{Ms};

use crate::fault::RunFault;
use crate::place::{Asking, Place, asking_at};
use label_set::Items;
use match_rule::Patterns;
use op_gather::Gather;
use op_gather::laws::room_is_left;
use remote_api::{Courier, Engine, EngineFail, Frame, Pulled};
use std::alloc::{AllocError, Global};

fn pull_box(
    engine: &mut Box<dyn Engine>,
    place: usize,
    most: u32,
    patterns: &mut Patterns<'_>,
    frame: &mut Frame,
) -> Result<Pulled, EngineFail>
    requires may { MayPull place patterns.old (seen engine.old) }
    requires some { 1 ≤ most }
    requires empty { frame.old.steps ≡ [] }
    ensures same { patterns.new ≡ patterns.old }
    ensures pulled { HasPulled place most frame.new.steps result (seen engine.old) (seen engine.new) }
{
    engine.pull(place, most, patterns, frame)
}

/// A pull of an ask of one engine out of the list.
fn pull_at(
    engines: &mut [Box<dyn Engine>],
    at: Asking,
    most: u32,
    patterns: &mut Patterns<'_>,
    frame: &mut Frame,
) -> Result<Pulled, EngineFail>
    requires inside { at.engine < length engines.old }
    requires may { (e : EngineSeen) → slice_get (map (λ b. seen b) engines.old) at.engine ≡ Some e → MayPull at.place patterns.old e }
    requires some { 1 ≤ most }
    requires empty { frame.old.steps ≡ [] }
    ensures same { patterns.new ≡ patterns.old }
    ensures pulled { IsCalled at.engine (HasPulled at.place most frame.new.steps result) (map (λ b. seen b) engines.old) (map (λ b. seen b) engines.new) }
    ensures len { length engines.new ≡ length engines.old }
{
    pull_box(
        &mut engines[at.engine as usize],
        at.place,
        most,
        patterns,
        frame,
    )
}

/// One event: the engine of the k-th ask of a gather delivers a frame, or ends, or fails.
fn turn(
    place: &mut Place,
    k: usize,
    most: u32,
    engines: &mut [Box<dyn Engine>],
    patterns: &mut Patterns<'_>,
) -> Result<(), RunFault>
    requires some { 1 ≤ most }
    requires stands { (p : Progress) × PlaceStands patterns.old (map (λ b. seen b) engines.old) place.old p }
    requires room { slice_get (map has_room place.old.gather.queues) k ≡ Some true }
    ensures stands { (p : Progress) → PlaceStands patterns.old (map (λ b. seen b) engines.old) place.old p → OnOk result (PlaceStands patterns.old (map (λ b. seen b) engines.new) place.new p) }
    ensures alone { (b : Asking) → IsApartFrom place.old.asks b → OnOk result (AskStays b (map (λ b. seen b) engines.old) (map (λ b. seen b) engines.new)) }
    ensures calm { OnOk result (Each KeepsStrays (map (λ b. seen b) engines.old) (map (λ b. seen b) engines.new)) }
    ensures asked { OnOk result (Each HasSameAsks (map (λ b. seen b) engines.old) (map (λ b. seen b) engines.new)) }
    ensures grown { Each Grows (map (λ b. seen b) engines.old) (map (λ b. seen b) engines.new) }
    ensures fault { Faulted result (map (λ b. seen b) engines.old) (map (λ b. seen b) engines.new) }
    ensures blame { Blames (IsAskedAt place.old.asks) result }
    ensures less { OnOk result (rooms place.new.gather.queues < rooms place.old.gather.queues) }
    ensures asks { place.new.asks ≡ place.old.asks }
    ensures same_ask { place.new.gather.ask ≡ place.old.gather.ask }
    ensures same { patterns.new ≡ patterns.old }
    ensures len { length engines.new ≡ length engines.old }
{
    let alloc = place.asks.allocator();
    let at = asking_at(&place.asks, k);
    let mut frame = Frame::new(alloc);
    match pull_at(engines, at, most, patterns, &mut frame) {
        Err(EngineFail::Failed) => Err(RunFault::EngineFault { engine: at.engine }),
        Err(EngineFail::Memory) => Err(RunFault::Memory),
        Ok(Pulled::End) => match place.gather.finish(k as u32) {
            Ok(()) => Ok(()),
            Err(refusal) => Err(RunFault::of(at.engine, refusal)),
        },
        Ok(Pulled::Frame) => match place.gather.feed(k as u32, frame) {
            Ok(()) => Ok(()),
            Err(refusal) => Err(RunFault::of(at.engine, refusal)),
        },
    }
}

/// Which of its engines a gather has room for.
fn live_of(alloc: Global, gather: &Gather) -> Result<Vec<bool>, AllocError>
    requires { length gather.now.queues < 2 ^ 32 }
    ensures { IfOk result (λ live. live.items ≡ map has_room gather.now.queues) }
{
    let mut live = Items::new(alloc);
    for k in 0..gather.engines() {
        live.push(gather.room(k as u32))?;
    }
    Ok(live.into_vec())
}

/// Pulls until the next step of each engine of a gather is kept.
fn fill<C: Courier>(
    place: &mut Place,
    most: u32,
    engines: &mut [Box<dyn Engine>],
    patterns: &mut Patterns<'_>,
    courier: &mut C,
) -> Result<(), RunFault>
    requires some { 1 ≤ most }
    requires stands { (p : Progress) × PlaceStands patterns.old (map (λ b. seen b) engines.old) place.old p × Going p }
    ensures stands { (p : Progress) → PlaceStands patterns.old (map (λ b. seen b) engines.old) place.old p → OnOk result (PlaceStands patterns.old (map (λ b. seen b) engines.new) place.new p) }
    ensures ready { OnOk result (is_ready place.new.gather ≡ true) }
    ensures idle { is_ready place.old.gather ≡ true → engines.new ≡ engines.old }
    ensures unasked { is_ready place.old.gather ≡ true → courier.new ≡ courier.old }
    ensures alone { (b : Asking) → IsApartFrom place.old.asks b → OnOk result (AskStays b (map (λ b. seen b) engines.old) (map (λ b. seen b) engines.new)) }
    ensures calm { OnOk result (Each KeepsStrays (map (λ b. seen b) engines.old) (map (λ b. seen b) engines.new)) }
    ensures asked { OnOk result (Each HasSameAsks (map (λ b. seen b) engines.old) (map (λ b. seen b) engines.new)) }
    ensures grown { Each Grows (map (λ b. seen b) engines.old) (map (λ b. seen b) engines.new) }
    ensures fault { Faulted result (map (λ b. seen b) engines.old) (map (λ b. seen b) engines.new) }
    ensures blame { Blames (IsAskedAt place.old.asks) result }
    ensures asks { place.new.asks ≡ place.old.asks }
    ensures same_ask { place.new.gather.ask ≡ place.old.gather.ask }
    ensures same { patterns.new ≡ patterns.old }
    ensures len { length engines.new ≡ length engines.old }
{
    room_is_left();
    let alloc = place.asks.allocator();
    while !place.gather.ready() {
        let live = match live_of(alloc, &place.gather) {
            Ok(live) => live,
            Err(AllocError) => return Err(RunFault::Memory),
        };
        let k = courier.pick(&live);
        match turn(place, k, most, engines, patterns) {
            Ok(()) => {}
            Err(fault) => return Err(fault),
        }
    }
    Ok(())
}

/// Pulls until a gather is ready, and takes its next step.
pub(crate) fn advance_place<C: Courier>(
    place: &mut Place,
    most: u32,
    engines: &mut [Box<dyn Engine>],
    patterns: &mut Patterns<'_>,
    courier: &mut C,
) -> Result<(), RunFault>
    requires some { 1 ≤ most }
    requires stands { (p : Progress) × PlaceStands patterns.old (map (λ b. seen b) engines.old) place.old p × Going p }
    ensures stands { (p : Progress) → PlaceStands patterns.old (map (λ b. seen b) engines.old) place.old p → OnOk result (PlaceStands patterns.old (map (λ b. seen b) engines.new) place.new (gone_on p)) }
    ensures lent { (p : Progress) (t : Ms) → PlaceStands patterns.old (map (λ b. seen b) engines.old) place.old p → slice_get p.all p.taken ≡ Some t
        → OnOk result ((steps : List StepCells) × GivesSteps (map (λ b. seen b) engines.old) place.old.asks p steps × LendsJoined p.kind t steps place.new.gather.lent place.new.gather.windows) }
    ensures told { (p : Progress) (t : Ms) → PlaceStands patterns.old (map (λ b. seen b) engines.old) place.old p → slice_get p.all p.taken ≡ Some t → AllTell place.old.asks (map (λ b. seen b) engines.old)
        → OnOk result (LendsJoined p.kind t (steps_at p.taken p.owed) place.new.gather.lent place.new.gather.windows) }
    ensures inside { place.new.gather.ask.kind ≡ part.Windows → OnOk result (AreInside place.new.gather.ask place.new.gather.windows) }
    ensures idle { is_ready place.old.gather ≡ true → engines.new ≡ engines.old }
    ensures unasked { is_ready place.old.gather ≡ true → courier.new ≡ courier.old }
    ensures alone { (b : Asking) → IsApartFrom place.old.asks b → OnOk result (AskStays b (map (λ b. seen b) engines.old) (map (λ b. seen b) engines.new)) }
    ensures calm { OnOk result (Each KeepsStrays (map (λ b. seen b) engines.old) (map (λ b. seen b) engines.new)) }
    ensures asked { OnOk result (Each HasSameAsks (map (λ b. seen b) engines.old) (map (λ b. seen b) engines.new)) }
    ensures grown { Each Grows (map (λ b. seen b) engines.old) (map (λ b. seen b) engines.new) }
    ensures fault { Faulted result (map (λ b. seen b) engines.old) (map (λ b. seen b) engines.new) }
    ensures blame { Blames (IsAskedAt place.old.asks) result }
    ensures asks { place.new.asks ≡ place.old.asks }
    ensures same_ask { place.new.gather.ask ≡ place.old.gather.ask }
    ensures same { patterns.new ≡ patterns.old }
    ensures len { length engines.new ≡ length engines.old }
{
    match fill(place, most, engines, patterns, courier) {
        Ok(()) => {}
        Err(fault) => return Err(fault),
    }
    match place.gather.take() {
        Ok(()) => Ok(()),
        Err(AllocError) => Err(RunFault::Memory),
    }
}
