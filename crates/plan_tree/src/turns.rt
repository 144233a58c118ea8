//! The instants of a tree's turns.
ghost use Rattle.exchange.specs.declared.fault.RunFault.TheVariants as run;
ghost use Rattle.plan_tree.specs.Feeds.{fed_on};
ghost use Rattle.plan_tree.specs.Chains.{Chain, IsComing};
ghost use Rattle.std.specs.Prelude.{◌≡◌, ◌<◌, ◌≤◌, [], None, length, IfErr, IfOk};
ghost use Rattle.ticks.specs.Walks.{LeadsToTimes};

use exchange::RunFault;
use holders::Items;
use std::alloc::{AllocError, Global};
use ticks::{Ms, Walk};

/// The first and the last of the instants that a tree was fed.
#[derive(Clone, Copy, Debug, PartialEq, Eq)]
pub struct Fed {
    pub first: Ms,
    pub last: Ms,
}

/// What was fed together with more instants, of which there is one at least.
pub(crate) fn fed_with(fed: Option<Fed>, at: &[Ms]) -> Option<Fed>
    requires { 0 < length at.now }
    ensures { result ≡ fed_on fed at.now }
{
    let last = at[at.len() - 1];
    match fed {
        None => Some(Fed { first: at[0], last }),
        Some(fed) => Some(Fed {
            first: fed.first,
            last,
        }),
    }
}

/// The walk's next instant behind those that were fed.
fn next_of(walk: &Walk, fed: Option<Fed>) -> Option<Ms>
    requires { LeadsToTimes walk.now }
    ensures { IsComing walk.now fed result }
{
    match fed {
        None => walk.first(),
        Some(fed) => walk.after(fed.last),
    }
}

/// The walk's next instants behind those that were fed, at most so many. The only error is want of memory.
pub(crate) fn instants(
    alloc: Global,
    walk: &Walk,
    fed: Option<Fed>,
    most: usize,
) -> Result<Items<Ms>, AllocError>
    requires { LeadsToTimes walk.now }
    ensures chain { IfOk result (λ at. Chain walk.now fed at) }
    ensures few { IfOk result (λ at. length at ≤ most) }
    ensures none { IfOk result (λ at. at ≡ [] → 0 < most → IsComing walk.now fed None) }
{
    let mut at = Items::new(alloc);
    let mut end = fed;
    while at.as_slice().len() < most {
        match next_of(walk, end) {
            None => return Ok(at),
            Some(t) => {
                at.push(t)?;
                end = fed_with(end, &[t]);
            }
        }
    }
    Ok(at)
}

/// The same, as a part of a run.
pub(crate) fn next_instants(
    alloc: Global,
    walk: &Walk,
    fed: Option<Fed>,
    most: usize,
) -> Result<Items<Ms>, RunFault>
    requires { LeadsToTimes walk.now }
    ensures chain { IfOk result (λ at. Chain walk.now fed at) }
    ensures few { IfOk result (λ at. length at ≤ most) }
    ensures none { IfOk result (λ at. at ≡ [] → 0 < most → IsComing walk.now fed None) }
    ensures memory { IfErr result (λ fault. fault ≡ run.Memory) }
{
    match instants(alloc, walk, fed, most) {
        Ok(at) => Ok(at),
        Err(AllocError) => Err(RunFault::Memory),
    }
}
