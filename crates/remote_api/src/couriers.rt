//! Who picks the engine that is pulled next.
ghost use Rattle.remote_api.specs.Couriers.{IsFirstLive, IsListedPick, IsNextLive, NoneLive};
ghost use Rattle.std.specs.Prelude.{◌≡◌, ◌+◌, ◌<◌, ℕ, true, Some, length, slice_get, IfNone, IfSome};

use label_set::Items;
use std::marker::Model;

/// Picks the engine that is pulled next, out of those that may be pulled. It takes no memory and can't fail.
pub trait Courier {
    /// A place, counted from 0, that is live.
    fn pick(&mut self, live: &[bool]) -> usize
        requires { (i : ℕ) × (slice_get live.now i ≡ Some true) }
        ensures { slice_get live.now result ≡ Some true };
}

/// Picks the lowest live place.
#[derive(Clone, Copy, Debug, Drop)]
pub struct InOrder {}

impl InOrder {
    /// It takes no memory.
    pub fn new() -> InOrder {
        InOrder {}
    }
}

impl Courier for InOrder {
    fn pick(&mut self, live: &[bool]) -> usize
        requires { (i : ℕ) × (slice_get live.now i ≡ Some true) }
        ensures live { slice_get live.now result ≡ Some true }
        ensures lowest { IsFirstLive live.now 0 result }
    {
        lowest_live(live)
    }
}

/// Picks each live place in turn. Contracts see the place from which it goes on.
#[derive(Drop)]
pub struct Turns {
    from: usize,
}

impl Model for Turns {
    ghost use Rattle.std.specs.Prelude.{ℕ};

    ghost Value = { ℕ };

    ghost view = { λ t. t.from };
}

impl Turns {
    /// It begins with the first place. It takes no memory.
    pub fn new() -> Turns
        ensures { result ≡ 0 }
    {
        Turns { from: 0 }
    }
}

impl Courier for Turns {
    fn pick(&mut self, live: &[bool]) -> usize
        requires { (i : ℕ) × (slice_get live.now i ≡ Some true) }
        ensures live { slice_get live.now result ≡ Some true }
        ensures next { IsNextLive live.now self.old result }
        ensures turn { self.new ≡ result + 1 }
    {
        let place = next_live(live, self.from);
        self.from = place + 1;
        place
    }
}

/// Picks by a list of numbers, each taken as the next live place from that number on, and behind the last place from the first one
/// on; once the list has ended it picks the lowest live place. Contracts see the numbers that are left.
#[derive(Drop)]
pub struct Listed {
    picks: Items<u32>,
    used: usize,
}

impl Model for Listed {
    ghost use Rattle.std.specs.Prelude.{ℕ, List, drop};

    ghost Value = { List ℕ };

    ghost view = { λ l. drop l.used l.picks };
}

impl Listed {
    /// All numbers are left. It takes no memory.
    pub fn of(picks: Items<u32>) -> Listed
        ensures { result ≡ picks }
    {
        Listed { picks, used: 0 }
    }
}

impl Courier for Listed {
    fn pick(&mut self, live: &[bool]) -> usize
        requires { (i : ℕ) × (slice_get live.now i ≡ Some true) }
        ensures live { slice_get live.now result ≡ Some true }
        ensures listed { IsListedPick live.now result self.old self.new }
    {
        match self.picks.as_slice().split_at_checked(self.used) {
            Some((_, [number, ..])) => {
                let from = *number as usize;
                self.used += 1;
                next_live(live, from)
            }
            _ => lowest_live(live),
        }
    }
}

/// The next live place from one on; behind the last place from the first one on.
fn next_live(live: &[bool], from: usize) -> usize
    requires { (i : ℕ) × (slice_get live.now i ≡ Some true) }
    ensures live { slice_get live.now result ≡ Some true }
    ensures next { IsNextLive live.now from result }
    ensures within { result < length live.now }
{
    match first_live(live, from) {
        Some(place) => place,
        None => lowest_live(live),
    }
}

fn lowest_live(live: &[bool]) -> usize
    requires { (i : ℕ) × (slice_get live.now i ≡ Some true) }
    ensures live { slice_get live.now result ≡ Some true }
    ensures lowest { IsFirstLive live.now 0 result }
    ensures within { result < length live.now }
{
    match first_live(live, 0) {
        Some(place) => place,
        None => unreachable!(),
    }
}

/// The first live place from one on.
fn first_live(live: &[bool], from: usize) -> Option<usize>
    ensures first { IfSome result (λ place. IsFirstLive live.now from place) }
    ensures within { IfSome result (λ place. place < length live.now) }
    ensures none { IfNone result (NoneLive live.now from) }
{
    for place in from..live.len() {
        if live[place] {
            return Some(place);
        }
    }
    None
}
