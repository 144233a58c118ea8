//! The gathers of one tree.
ghost use Rattle.exchange.specs.Asked.{AreAsked, AreOwed, MayOpen};
ghost use Rattle.exchange.specs.Calls.{AskStays, Each, Grows, HasSameAsks};
ghost use Rattle.exchange.specs.Faults.{Blames, Faulted, IsAskedAt, IsAskedFor, IsNoStray};
ghost use Rattle.exchange.specs.InOrder.{in_order_of_asks};
ghost use Rattle.exchange.specs.Opened.{AskTheirEngines, AskTheirRequests};
ghost use Rattle.exchange.specs.Requests.{AreRising};
ghost use Rattle.exchange.specs.Standing.{AllStand, AllTell, GivesSteps, IsApartFrom, LendsAt, MayAdvance, Progress, gone_on};
ghost use Rattle.exchange.specs.declared.place.Asking.{Asking};
ghost use Rattle.exchange.specs.declared.place.Place.{Place};
ghost use Rattle.op_gather.specs.Histories.{is_ready, steps_at};
ghost use Rattle.op_gather.specs.Joined.{AreInside};
ghost use Rattle.remote_api.specs.Seen.{KeepsStrays};
ghost use Rattle.remote_api.specs.Strays.{AsksInTimes};
ghost use Rattle.std.specs.Prelude.{◌≡◌, ◌++◌, ◌<◌, ◌≤◌, ◌↔◌, ◌∷◌, ℕ, List, [], Some, IfOk, IsTrue, OnErr, OnOk, length, map, slice_get, slice_set, true};
ghost use Rattle.step_table.specs.declared.cells.PartKind.TheVariants as part;
ghost use Rattle.step_table.specs.declared.cells.StepCells.{StepCells};
ghost use Rattle.ticks.specs.declared.moment.Ms.{Ms};

use crate::asking::open_places;
use crate::fault::RunFault;
use crate::place::Place;
use crate::pulling::advance_place;
use crate::request::Request;
use label_set::Items;
use match_rule::Patterns;
use remote_api::{Courier, Engine, Part};
use std::alloc::{AllocError, Global};
use std::marker::Model;
use step_batch::{Batch, Windows};
use ticks::{Grid, Ms, Walk, WalkMoment, walks_are_listed};

/// The gathers of one tree of operators, in the order in which their parts were added. Parts are added, then all asks are made at
/// once, then each gather takes its steps one by one. After an error of `open` or `advance` it is spent and may only be dropped.
/// Contracts see what was added, and each gather beside its asks.
#[derive(Drop)]
pub struct Exchange {
    most: u32,
    requests: Items<Request>,
    places: Vec<Place>,
}

impl Model for Exchange {
    ghost use Rattle.exchange.specs.Exchanging.{Exchanging};
    ghost use Rattle.exchange.specs.Requests.{IsRequest};
    ghost use Rattle.promql_ast.specs.contracts.tree.Node as node;
    ghost use Rattle.std.specs.Coded.{codes};
    ghost use Rattle.std.specs.List.{AllByRecursion};
    ghost use Rattle.std.specs.Prelude.{◌≤◌};
    ghost use Rattle.ticks.specs.contracts.walk.Walk as walk;

    ghost Value = { Exchanging };

    ghost coded = { Prim.hlevel (codes, node.the_row.coded, walk.the_row.coded) };

    ghost view = { λ x. record { most = x.most; requests = x.requests; places = x.places.items } };

    ghost invariant = { λ x. (1 ≤ x.most) × AllByRecursion IsRequest x.requests };
}

impl Exchange {
    /// No gathers. A pull asks for up to `most` steps. It takes no memory.
    pub fn new(alloc: Global, most: u32) -> Exchange
        requires { 1 ≤ most }
        ensures { result ≡ record { most = most; requests = []; places = [] } }
    {
        Exchange {
            most,
            requests: Items::new(alloc),
            places: Vec::new(alloc),
        }
    }

    /// Adds a part that the engines under these rising numbers, counted from 0, are to be asked for at the instants of a walk, and
    /// answers its place, counted from 0. `moment` and `range`, in milliseconds, are those of windows, and aren't read for another
    /// kind. The only error is want of memory; then nothing is added.
    pub fn add(
        &mut self,
        part: Part,
        walk: Walk,
        moment: WalkMoment,
        range: Ms,
        asked: Items<u32>,
    ) -> Result<usize, AllocError>
        requires times { AsksInTimes (record { walk = walk; kind = part.kind; moment = moment; range = range }) }
        requires rising { AreRising asked }
        ensures place { IfOk result (λ k. k ≡ length self.old.requests) }
        ensures added { OnOk result (self.new ≡ record { most = self.old.most; requests = self.old.requests ++ record { part = part; walk = walk; moment = moment; range = range; engines = asked } ∷ []; places = self.old.places }) }
        ensures unchanged { OnErr result (self.new ≡ self.old) }
    {
        let place = self.requests.as_slice().len();
        self.requests.push(Request {
            part,
            walk,
            moment,
            range,
            engines: asked,
        })?;
        Ok(place)
    }

    /// Whether nothing was added.
    pub fn is_empty(&self) -> bool
        ensures { IsTrue result ↔ (self.now.requests ≡ []) }
    {
        self.requests.as_slice().is_empty()
    }

    /// Makes all asks: the parts in the order of their first bytes in the query, those of equal first bytes as they were added, and
    /// of each its engines in their order. It is called once, after the last `add`. The patterns stay as they are. An engine that
    /// fails is told, and no other fault than that and want of memory; after either the exchange is spent.
    pub fn open(
        &mut self,
        span: &Grid,
        engines: &mut [Box<dyn Engine>],
        patterns: &mut Patterns<'_>,
    ) -> Result<(), RunFault>
        requires { MayOpen span.now patterns.old (map (λ b. seen b) engines.old) self.old }
        ensures owed { (ps : List Progress) × AreOwed span.now patterns.old (map (λ b. seen b) engines.old) self.old.requests ps }
        ensures stand { (ps : List Progress) → AreOwed span.now patterns.old (map (λ b. seen b) engines.old) self.old.requests ps → OnOk result (AllStand patterns.old (map (λ b. seen b) engines.new) self.new.places ps) }
        ensures asked { OnOk result (AreAsked span.now patterns.old (in_order_of_asks self.old.requests) (map (λ b. seen b) engines.old) (map (λ b. seen b) engines.new)) }
        ensures asks { OnOk result (AskTheirEngines self.old.requests self.new.places) }
        ensures gathers { OnOk result (AskTheirRequests self.old.requests self.new.places) }
        ensures calm { Each KeepsStrays (map (λ b. seen b) engines.old) (map (λ b. seen b) engines.new) }
        ensures grown { Each Grows (map (λ b. seen b) engines.old) (map (λ b. seen b) engines.new) }
        ensures fault { Faulted result (map (λ b. seen b) engines.old) (map (λ b. seen b) engines.new) }
        ensures blame { Blames (IsAskedFor self.old.requests) result }
        ensures no_stray { IsNoStray result }
        ensures requests { self.new.requests ≡ self.old.requests }
        ensures most { self.new.most ≡ self.old.most }
        ensures same { patterns.new ≡ patterns.old }
        ensures len { length engines.new ≡ length engines.old }
    {
        walks_are_listed();
        let alloc = self.requests.allocator();
        match open_places(alloc, self.requests.as_slice(), span, engines, patterns) {
            Ok(places) => {
                self.places = places.into_vec();
                Ok(())
            }
            Err(fault) => Err(fault),
        }
    }

    /// Pulls until the gather at a place has the next step of each of its engines, and takes it; where it has them already, or asks no
    /// engine, nothing is pulled and the courier isn't asked. After `Ok` that place lends what these steps are joined to, and every other
    /// place what it lent before. An engine that fails or strays is told; after an error the exchange is spent.
    pub fn advance<C: Courier>(
        &mut self,
        gather: usize,
        engines: &mut [Box<dyn Engine>],
        patterns: &mut Patterns<'_>,
        courier: &mut C,
    ) -> Result<(), RunFault>
        requires { MayAdvance gather patterns.old (map (λ b. seen b) engines.old) self.old.places }
        ensures stand { (ps : List Progress) (p : Progress) → AllStand patterns.old (map (λ b. seen b) engines.old) self.old.places ps → slice_get ps gather ≡ Some p → OnOk result (AllStand patterns.old (map (λ b. seen b) engines.new) self.new.places (slice_set ps gather (gone_on p))) }
        ensures lent { (ps : List Progress) (p : Progress) (place : Place) (t : Ms) → AllStand patterns.old (map (λ b. seen b) engines.old) self.old.places ps → slice_get ps gather ≡ Some p → slice_get self.old.places gather ≡ Some place → slice_get p.all p.taken ≡ Some t
            → OnOk result ((steps : List StepCells) × GivesSteps (map (λ b. seen b) engines.old) place.asks p steps × LendsAt self.new.places gather p.kind t steps) }
        ensures told { (ps : List Progress) (p : Progress) (place : Place) (t : Ms) → AllStand patterns.old (map (λ b. seen b) engines.old) self.old.places ps → slice_get ps gather ≡ Some p → slice_get self.old.places gather ≡ Some place → slice_get p.all p.taken ≡ Some t → AllTell place.asks (map (λ b. seen b) engines.old)
            → OnOk result (LendsAt self.new.places gather p.kind t (steps_at p.taken p.owed)) }
        ensures inside { (one : Place) → slice_get self.new.places gather ≡ Some one → one.gather.ask.kind ≡ part.Windows → OnOk result (AreInside one.gather.ask one.gather.windows) }
        ensures others { (k : ℕ) → (k ≡ gather → ⊥) → slice_get self.new.places k ≡ slice_get self.old.places k }
        ensures asks { (place one : Place) → slice_get self.old.places gather ≡ Some place → slice_get self.new.places gather ≡ Some one → one.asks ≡ place.asks }
        ensures same_ask { (k : ℕ) (place one : Place) → slice_get self.old.places k ≡ Some place → slice_get self.new.places k ≡ Some one → one.gather.ask ≡ place.gather.ask }
        ensures idle { (place : Place) → slice_get self.old.places gather ≡ Some place → is_ready place.gather ≡ true → engines.new ≡ engines.old }
        ensures unasked { (place : Place) → slice_get self.old.places gather ≡ Some place → is_ready place.gather ≡ true → courier.new ≡ courier.old }
        ensures alone { (place : Place) (b : Asking) → slice_get self.old.places gather ≡ Some place → IsApartFrom place.asks b → OnOk result (AskStays b (map (λ b. seen b) engines.old) (map (λ b. seen b) engines.new)) }
        ensures calm { OnOk result (Each KeepsStrays (map (λ b. seen b) engines.old) (map (λ b. seen b) engines.new)) }
        ensures asked { OnOk result (Each HasSameAsks (map (λ b. seen b) engines.old) (map (λ b. seen b) engines.new)) }
        ensures grown { Each Grows (map (λ b. seen b) engines.old) (map (λ b. seen b) engines.new) }
        ensures fault { Faulted result (map (λ b. seen b) engines.old) (map (λ b. seen b) engines.new) }
        ensures blame { (place : Place) → slice_get self.old.places gather ≡ Some place → Blames (IsAskedAt place.asks) result }
        ensures requests { self.new.requests ≡ self.old.requests }
        ensures most { self.new.most ≡ self.old.most }
        ensures same { patterns.new ≡ patterns.old }
        ensures len { length engines.new ≡ length engines.old }
    {
        let most = self.most;
        let place = &mut self.places[gather];
        advance_place(place, most, engines, patterns, courier)
    }

    /// Lends the step that the gather at a place has taken last, of rows or of an aggregation; none before the first one. It takes no
    /// memory.
    pub fn lend(&self, gather: usize) -> Batch<'_>
        requires { gather < length self.now.places }
        ensures { (place : Place) → slice_get self.now.places gather ≡ Some place → result ≡ place.gather.lent }
    {
        self.places[gather].gather.lend()
    }

    /// Lends the windows that the gather at a place has taken last; none before the first ones, or where others than windows are asked.
    /// It takes no memory.
    pub fn lend_windows(&self, gather: usize) -> Windows<'_>
        requires { gather < length self.now.places }
        ensures { (place : Place) → slice_get self.now.places gather ≡ Some place → result ≡ place.gather.windows }
    {
        self.places[gather].gather.lend_windows()
    }
}
