//! One selector of each kind.
ghost use Rattle.opt_selects.specs.Bases.{HaveSameBases, has_alike, is_alike};
ghost use Rattle.std.specs.Prelude.{◌≡◌, true, IfOk};

use crate::bases::{same_moment, same_range};
use crate::found::Found;
use crate::keyed::Keyed;
use holders::Items;
use plan_rewrite::is_part;
use std::alloc::{AllocError, Global};
use std::collections::BTreeMap;

/// Places in a list of selectors, under the numbers of the rules of those that stand there. They only say which selectors may be
/// alike: nothing else rests on them.
type Places = BTreeMap<u64, Items<usize>>;

fn is_alike(a: &Found, b: &Found) -> bool
    ensures { result ≡ is_alike a.now b.now }
{
    same_moment(&a.moment, &b.moment)
        && same_range(a.range, b.range)
        && is_part(a.rules.as_slice(), b.rules.as_slice())
        && is_part(b.rules.as_slice(), a.rules.as_slice())
}

/// Whether one of the selectors at some places is alike.
fn has_alike(found: &[Keyed], places: &[usize], one: &Keyed) -> bool
    ensures { result ≡ true → has_alike found.now one.now ≡ true }
{
    for place in places {
        let Some(a) = found.get(*place) else {
            continue;
        };
        if is_alike(a.found(), one.found()) {
            return true;
        }
    }
    false
}

/// The places under a number.
fn places_of(places: &Places, number: u64) -> &[usize] {
    match places.get(&number) {
        None => &[],
        Some(places) => places.as_slice(),
    }
}

/// Adds a place under a number. The only error is want of memory.
fn add_place(
    alloc: Global,
    places: &mut Places,
    number: u64,
    place: usize,
) -> Result<(), AllocError> {
    if let Some(places) = places.get_mut(&number) {
        return places.push(place);
    }
    let mut first = Items::new(alloc);
    first.push(place)?;
    places.insert(number, first)?;
    Ok(())
}

/// The first selector of each kind: whatever the rules, the first one that is a base for them is among these. The only error is
/// want of memory.
pub(crate) fn first_of_each(alloc: Global, found: Vec<Keyed>) -> Result<Vec<Keyed>, AllocError>
    ensures { IfOk result (λ kept. HaveSameBases kept.items found.items) }
{
    let mut places = Places::new(alloc);
    let mut kept = Vec::new(alloc);
    for one in found {
        let number = one.number();
        if has_alike(kept.as_slice(), places_of(&places, number), &one) {
            continue;
        }
        add_place(alloc, &mut places, number, kept.len())?;
        kept.push(one)?;
    }
    Ok(kept)
}
