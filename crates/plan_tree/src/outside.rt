//! What stands outside of a tree: the exchange of its gathers, the engines, and the courier that picks among these.
ghost use Rattle.exchange.specs.declared.place.Place.{Place};
ghost use Rattle.plan_tree.specs.Counting.{fetched_by};
ghost use Rattle.plan_tree.specs.Feeding.{CanFeed, HasFed, HasRun};
ghost use Rattle.plan_tree.specs.Feeds.{fed_on};
ghost use Rattle.plan_tree.specs.Gathering.{CanTake, HasTaken};
ghost use Rattle.plan_tree.specs.Nodes.{shape_of};
ghost use Rattle.plan_tree.specs.Spending.{FeedSpends};
ghost use Rattle.remote_api.specs.Seen.{EngineSeen};
ghost use Rattle.std.specs.Borrow.{GName};
ghost use Rattle.std.specs.Prelude.{◌≡◌, ◌+◌, ℕ, List, OnOk, map, slice_get};
ghost use Rattle.ticks.specs.declared.moment.Ms.{Ms};

use crate::gathering::take_next;
use crate::node::Node;
use crate::turns::Fed;
use exchange::{Exchange, RunFault};
use match_rule::Patterns;
use remote_api::{Courier, Engine};
use sample_store::Store;
use std::sync::ledger::Ledger;
use ticks::{Ms, Work};

/// What the gathers of a tree take from. It is a trait since functions that call one another can't be given a list of engines.
pub trait Outside {
    /// The gathers, each beside its asks.
    ghost places: { Self → List Place };
    /// What is seen of the engines.
    ghost engines: { Self → List EngineSeen };
    /// Which references it keeps, which stay the same.
    ghost names: { Self → GName × GName };

    /// Takes what the gather at a place gives at its next instant, a step or windows, which its exchange lends then. A fault is that of
    /// `Exchange::advance`; after one the exchange may only be dropped.
    fn take(&mut self, place: usize, patterns: &mut Patterns<'_>) -> Result<(), RunFault>
        requires { (t : Ms) × CanTake patterns.old (engines self.old) (places self.old) place t }
        ensures taken { OnOk result ((t : Ms) (c : CanTake patterns.old (engines self.old) (places self.old) place t)
            → HasTaken c.place c.taken c.all c.known patterns.old (engines self.new) (places self.new) place t) }
        ensures others { (k : ℕ) → (k ≡ place → ⊥) → slice_get (places self.new) k ≡ slice_get (places self.old) k }
        ensures names { names self.new ≡ names self.old }
        ensures run { HasRun result (engines self.old) (engines self.new) }
        ensures same { patterns.new ≡ patterns.old };

    /// The exchange. It takes no memory.
    fn exchange(&self) -> &Exchange
        ensures { result.now.places ≡ places self.now };
}

/// The exchange of a tree, the engines that it was opened with, and a courier.
#[derive(Drop)]
struct Running<'a, C> {
    exchange: &'a mut Exchange,
    engines: &'a mut [Box<dyn Engine>],
    courier: &'a mut C,
}

impl<'a, C: Courier> Outside for Running<'a, C> {
    ghost places = { λ r. r.exchange.now.places };

    ghost engines = { λ r. map (λ b. (Engine-box b).seen b.value) r.engines.now };

    ghost names = { λ r. (r.exchange.ghost_name, r.engines.ghost_name) };

    fn take(&mut self, place: usize, patterns: &mut Patterns<'_>) -> Result<(), RunFault> {
        take_next(self.exchange, place, self.engines, patterns, self.courier)
    }

    fn exchange(&self) -> &Exchange {
        self.exchange
    }
}

/// Feeds a tree more instants, over an exchange and its engines, as `Node::feed` does.
pub(crate) fn feed_over<C: Courier, W: Ledger>(
    node: &mut Node,
    store: &Store,
    fed: Option<Fed>,
    at: &[Ms],
    exchange: &mut Exchange,
    engines: &mut [Box<dyn Engine>],
    patterns: &mut Patterns<'_>,
    courier: &mut C,
    work: &mut Work<W>,
) -> Result<(), RunFault>
    requires { CanFeed store.now patterns.old (map (λ b. seen b) engines.old) exchange.old.places fed at.now node.old }
    ensures shape { shape_of node.new ≡ shape_of node.old }
    ensures same { patterns.new ≡ patterns.old }
    ensures fed { OnOk result (HasFed store.now patterns.old (map (λ b. seen b) engines.old) (map (λ b. seen b) engines.new) exchange.old.places exchange.new.places fed at.now node.old node.new) }
    ensures run { HasRun result (map (λ b. seen b) engines.old) (map (λ b. seen b) engines.new) }
    ensures spent { FeedSpends store.now fed (fed_on fed at.now) result node.old node.new work.old work.new }
    ensures counted { OnOk result (work.new.fetched + fetched_by store.now fed node.old ≡ work.old.fetched + fetched_by store.now (fed_on fed at.now) node.new) }
{
    let mut outside = Running {
        exchange,
        engines,
        courier,
    };
    node.feed(store, fed, at, &mut outside, patterns, work)
}
