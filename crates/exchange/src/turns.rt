//! The order of asks: by the first bytes of what is asked, those of equal first bytes as they were added.
ghost use Rattle.exchange.specs.InOrder.{IsAskOrder, begins_at, in_turn, turn_key};
ghost use Rattle.exchange.specs.declared.request.Request.{Request};
ghost use Rattle.std.specs.List.{filter_map};
ghost use Rattle.std.specs.Prelude.{◌≡◌, ◌<◌, None, Some, IfOk, length, map, replicate, slice_get};

use crate::place::Place;
use crate::request::Request;
use label_set::Items;
use std::alloc::{AllocError, Global};
use std::collections::BTreeSet;

/// The places of all requests, in the order in which these are asked for. The only error is want of memory.
pub(crate) fn order_of(alloc: Global, requests: &[Request]) -> Result<Items<usize>, AllocError>
    ensures { IfOk result (λ order. IsAskOrder requests.now order) }
{
    let turns = turns_of(alloc, requests)?;
    places_in(alloc, turns)
}

/// The first byte of each request beside its place. The only error is want of memory.
fn turns_of(alloc: Global, requests: &[Request]) -> Result<BTreeSet<(u32, usize)>, AllocError>
    ensures { IfOk result (λ turns. turns.keys ≡ map turn_key (in_turn requests.now)) }
{
    let mut turns = BTreeSet::new(alloc);
    for k in 0..requests.len() {
        turns.insert((first_byte(requests, k), k))?;
    }
    Ok(turns)
}

/// The request at a place, counted from 0.
pub(crate) fn request_at(requests: &[Request], k: usize) -> &Request
    requires { k < length requests.now }
    ensures { slice_get requests.now k ≡ Some result.now }
{
    &requests[k]
}

/// The place at which the j-th ask's request stands, both counted from 0.
pub(crate) fn place_in(order: &[usize], j: usize) -> usize
    requires { j < length order.now }
    ensures { slice_get order.now j ≡ Some result }
{
    order[j]
}

/// The first byte of a request's expression in the query.
fn first_byte(requests: &[Request], k: usize) -> u32
    requires { k < length requests.now }
    ensures { (r : Request) → slice_get requests.now k ≡ Some r → result ≡ begins_at r }
{
    requests[k].part.expr.at
}

/// The places that stand beside first bytes, in their order. The only error is want of memory.
fn places_in(alloc: Global, turns: BTreeSet<(u32, usize)>) -> Result<Items<usize>, AllocError>
    ensures { IfOk result (λ order. order ≡ map (λ t. t.1) turns.keys) }
{
    let mut order = Items::new(alloc);
    for turn in turns {
        order.push(turn.1)?;
    }
    Ok(order)
}

/// So many slots in which nothing stands. The only error is want of memory.
pub(crate) fn empty_slots(alloc: Global, many: usize) -> Result<Items<Option<Place>>, AllocError>
    ensures { IfOk result (λ slots. slots ≡ replicate many None) }
{
    let mut slots = Items::new(alloc);
    for i in 0..many {
        slots.push(None)?;
    }
    Ok(slots)
}

/// What stands in slots. The only error is want of memory.
pub(crate) fn standing_in(
    alloc: Global,
    slots: Items<Option<Place>>,
) -> Result<Items<Place>, AllocError>
    ensures { IfOk result (λ places. places ≡ filter_map (λ slot. slot) slots) }
{
    let mut places = Items::new(alloc);
    for slot in slots.into_vec() {
        match slot {
            Some(place) => places.push(place)?,
            None => {}
        }
    }
    Ok(places)
}
