//! The next steps of an ask.
ghost use Rattle.engine_local.specs.Local.{IsAllowed, asked_of, seen_ask, times_of};
ghost use Rattle.promql_meaning.specs.Meaning.{meaning};
ghost use Rattle.remote_api.specs.Seen.{GivesOwed};
ghost use Rattle.remote_api.specs.Strays.{is_well, wrong_cell};
ghost use Rattle.remote_api.specs.declared.engine.Pulled.TheVariants as pulled;
ghost use Rattle.std.specs.Prelude.{◌≡◌, ◌+◌, ◌≤◌, None, length, slice_get, true, IfOk, IsSome};
ghost use Rattle.step_cells.specs.Owed.{cells};
ghost use Rattle.ticks.specs.Walks.{IsInstant};

use crate::cells::cells_of;
use crate::own::OwnAsk;
use label_set::Items;
use match_rule::Patterns;
use plain_eval::{checked_patterns_are_kept, given};
use promql_meaning::laws::{meanings_are_well_formed, walk_moments_are_moments};
use sample_store::Store;
use std::alloc::{AllocError, Global};
use std::marker::Brand;
use std::sync::ledger::{Blank, Ledger};
use step_table::StepCells;
use ticks::{Ms, Work, walks_are_listed};

/// The next steps of an ask, and the instant behind them in its walk; there is none behind the last one.
#[derive(Drop)]
pub(crate) struct Front {
    pub steps: Items<StepCells>,
    pub next: Option<Ms>,
}

/// The next steps of an ask, one at least and at most so many. The only error is want of memory.
pub(crate) fn next_steps(
    alloc: Global,
    store: &Store,
    one: &OwnAsk,
    most: u32,
    patterns: &mut Patterns<'_>,
) -> Result<Front, AllocError>
    requires allowed { IsAllowed one.now }
    requires kept { one.now.kept ≡ patterns.old }
    requires left { IsSome one.now.next }
    requires some { 1 ≤ most }
    ensures owed { IfOk result (λ front. GivesOwed most pulled.Frame front.steps (seen_ask store.now one.now)) }
    ensures behind { IfOk result (λ front. front.next ≡ slice_get (times_of one.now) (one.now.given + length front.steps)) }
    ensures well { IfOk result (λ front. wrong_cell one.now.ask front.steps ≡ None) }
    ensures same { patterns.new ≡ patterns.old }
{
    steps_from::<Brand>(alloc, store, one, most, patterns, Blank::new(3))
}

/// The same steps, whose reads are counted apart from all else.
fn steps_from<W: Ledger>(
    alloc: Global,
    store: &Store,
    one: &OwnAsk,
    most: u32,
    patterns: &mut Patterns<'_>,
    blank: Blank,
) -> Result<Front, AllocError>
    requires name { blank.name ≡ W.name }
    requires parts { blank.parts ≡ W.parts }
    requires three { blank.parts ≡ 3 }
    requires allowed { IsAllowed one.now }
    requires kept { one.now.kept ≡ patterns.old }
    requires left { IsSome one.now.next }
    requires some { 1 ≤ most }
    ensures owed { IfOk result (λ front. GivesOwed most pulled.Frame front.steps (seen_ask store.now one.now)) }
    ensures behind { IfOk result (λ front. front.next ≡ slice_get (times_of one.now) (one.now.given + length front.steps)) }
    ensures well { IfOk result (λ front. wrong_cell one.now.ask front.steps ≡ None) }
    ensures same { patterns.new ≡ patterns.old }
{
    walks_are_listed();
    let mut work = Work::<W>::new(blank);
    let mut steps = Items::new(alloc);
    let mut next = one.next;
    while steps.as_slice().len() < most as usize {
        let Some(t) = next else {
            return Ok(Front { steps, next });
        };
        let step = step_at(alloc, store, one, t, patterns, &mut work)?;
        steps.push(step)?;
        next = one.ask.walk.after(t);
    }
    Ok(Front { steps, next })
}

/// The step of an ask at an instant of its walk. The only error is want of memory.
fn step_at<W: Ledger>(
    alloc: Global,
    store: &Store,
    one: &OwnAsk,
    t: Ms,
    patterns: &mut Patterns<'_>,
    work: &mut Work<W>,
) -> Result<StepCells, AllocError>
    requires allowed { IsAllowed one.now }
    requires kept { one.now.kept ≡ patterns.old }
    requires here { IsInstant one.now.ask.walk t.0 }
    ensures owed { IfOk result (λ step. step ≡ cells one.now.part.kind t (meaning (asked_of store.now one.now) one.now.part.expr t.0)) }
    ensures well { IfOk result (λ step. is_well one.now.ask step ≡ true) }
    ensures same { patterns.new ≡ patterns.old }
{
    checked_patterns_are_kept();
    meanings_are_well_formed();
    walk_moments_are_moments();
    // Where their number is told, it is told too that the samples of each series rise.
    let _ = store.series();
    let given = given(alloc, &one.part.expr, store, patterns, t, &one.span, work)?;
    cells_of(alloc, &one.part.kind, t, given)
}
