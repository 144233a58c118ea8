//! Asks of engines.
ghost use Rattle.exchange.specs.Asked.{AreAsked, MayRequest};
ghost use Rattle.exchange.specs.Calls.{Each, Grows, IsCalled};
ghost use Rattle.exchange.specs.Faults.{Blames, Faulted, IsAskedFor, IsIn, IsNoStray};
ghost use Rattle.exchange.specs.InOrder.{AreInSlots, IsAskOrder, in_order_of_asks};
ghost use Rattle.exchange.specs.Opened.{AreBehind, AreOpened, AskedOnce, IsOpened, engines_of};
ghost use Rattle.exchange.specs.Requests.{IsRequest, ask_of};
ghost use Rattle.exchange.specs.Standing.{AreApart};
ghost use Rattle.exchange.specs.declared.place.Place.{Place};
ghost use Rattle.exchange.specs.declared.request.Request.{Request};
ghost use Rattle.op_gather.specs.Histories.{Stands};
ghost use Rattle.remote_api.specs.Seen.{EngineSeen, HasAsked, KeepsStrays, MayAsk};
ghost use Rattle.remote_api.specs.Strays.{AsksInTimes};
ghost use Rattle.std.specs.List.{AllByRecursion};
ghost use Rattle.std.specs.Prelude.{◌≡◌, ◌<◌, ◌^◌, ℕ, List, [], Some, false, IfOk, OnOk, length, map, replicate, slice_get};
ghost use Rattle.ticks.specs.Listed.{IsListed};
ghost use Rattle.ticks.specs.declared.moment.Ms.{Ms};

use crate::fault::RunFault;
use crate::place::{Asking, Place};
use crate::request::Request;
use crate::turns::{empty_slots, order_of, place_in, request_at, standing_in};
use label_set::Items;
use match_rule::Patterns;
use op_gather::Gather;
use remote_api::{Engine, EngineFail};
use std::alloc::{AllocError, Global};
use ticks::Grid;

fn ask_box(
    engine: &mut Box<dyn Engine>,
    request: &Request,
    span: &Grid,
    patterns: &mut Patterns<'_>,
) -> Result<usize, EngineFail>
    requires { MayAsk request.now.part request.now.walk span.now patterns.old (seen engine.old) }
    ensures same { patterns.new ≡ patterns.old }
    ensures asked { HasAsked request.now.part request.now.walk span.now patterns.old result (seen engine.old) (seen engine.new) }
{
    engine.ask(&request.part, &request.walk, span, patterns)
}

/// An ask of one engine out of the list.
fn ask_at(
    engines: &mut [Box<dyn Engine>],
    i: u32,
    request: &Request,
    span: &Grid,
    patterns: &mut Patterns<'_>,
) -> Result<usize, EngineFail>
    requires inside { i < length engines.old }
    requires may { (e : EngineSeen) → slice_get (map (λ b. seen b) engines.old) i ≡ Some e → MayAsk request.now.part request.now.walk span.now patterns.old e }
    ensures same { patterns.new ≡ patterns.old }
    ensures asked { IsCalled i (HasAsked request.now.part request.now.walk span.now patterns.old result) (map (λ b. seen b) engines.old) (map (λ b. seen b) engines.new) }
    ensures len { length engines.new ≡ length engines.old }
{
    ask_box(&mut engines[i as usize], request, span, patterns)
}

/// The number at a place of a list, counted from 0.
fn number_at(numbers: &Items<u32>, k: usize) -> u32
    requires { k < length numbers.now }
    ensures { slice_get numbers.now k ≡ Some result }
{
    numbers.as_slice()[k]
}

fn size_of(numbers: &Items<u32>) -> usize
    ensures { result ≡ length numbers.now }
{
    numbers.as_slice().len()
}

/// Asks the engines of a request, in their order.
fn ask_engines(
    alloc: Global,
    request: &Request,
    span: &Grid,
    engines: &mut [Box<dyn Engine>],
    patterns: &mut Patterns<'_>,
) -> Result<Items<Asking>, RunFault>
    requires request { IsRequest request.now }
    requires may { MayRequest span.now patterns.old request.now }
    requires inside { (k i : ℕ) → slice_get request.now.engines k ≡ Some i → i < length engines.old }
    requires going { (i : ℕ) (e : EngineSeen) → slice_get (map (λ b. seen b) engines.old) i ≡ Some e → e.spent ≡ false }
    ensures numbers { IfOk result (λ asks. engines_of asks ≡ request.now.engines) }
    ensures behind { IfOk result (λ asks. AreBehind (map (λ b. seen b) engines.old) asks) }
    ensures asked { OnOk result (AskedOnce span.now patterns.old request.now request.now.engines (map (λ b. seen b) engines.old) (map (λ b. seen b) engines.new)) }
    ensures calm { Each KeepsStrays (map (λ b. seen b) engines.old) (map (λ b. seen b) engines.new) }
    ensures grown { Each Grows (map (λ b. seen b) engines.old) (map (λ b. seen b) engines.new) }
    ensures fault { Faulted result (map (λ b. seen b) engines.old) (map (λ b. seen b) engines.new) }
    ensures blame { Blames (IsIn request.now.engines) result }
    ensures no_stray { IsNoStray result }
    ensures same { patterns.new ≡ patterns.old }
    ensures len { length engines.new ≡ length engines.old }
{
    let mut asks = Items::new(alloc);
    for k in 0..size_of(&request.engines) {
        let engine = number_at(&request.engines, k);
        match ask_at(engines, engine, request, span, patterns) {
            Ok(place) => match asks.push(Asking { engine, place }) {
                Ok(()) => {}
                Err(AllocError) => return Err(RunFault::Memory),
            },
            Err(EngineFail::Failed) => return Err(RunFault::EngineFault { engine }),
            Err(EngineFail::Memory) => return Err(RunFault::Memory),
        }
    }
    Ok(asks)
}

/// How many engines are asked. No gather has room for 2^32 or more.
fn count_of(numbers: &Items<u32>) -> Result<u32, AllocError>
    ensures { IfOk result (λ n. n ≡ length numbers.now) }
{
    let count = size_of(numbers);
    if count < 1 << 32 {
        Ok(count as u32)
    } else {
        Err(AllocError)
    }
}

/// A gather of as many engines as are asked for a request.
fn gather_of(alloc: Global, request: &Request) -> Result<Gather, AllocError>
    requires { AsksInTimes (ask_of request.now) }
    ensures ask { IfOk result (λ g. g.ask ≡ ask_of request.now) }
    ensures going { IfOk result (λ g. g.spent ≡ false) }
    ensures few { OnOk result (length request.now.engines < 2 ^ 32) }
    ensures fresh { IfOk result (λ g. (all : List Ms) → IsListed request.now.walk all → Stands g all (replicate (length request.now.engines) []) 0) }
{
    let count = count_of(&request.engines)?;
    Gather::new(
        alloc,
        count,
        &request.walk,
        &request.part.kind,
        &request.moment,
        request.range,
    )
}

/// Asks the engines of a request: its gather, of which nothing was taken.
fn open_place(
    alloc: Global,
    request: &Request,
    span: &Grid,
    engines: &mut [Box<dyn Engine>],
    patterns: &mut Patterns<'_>,
) -> Result<Place, RunFault>
    requires request { IsRequest request.now }
    requires may { MayRequest span.now patterns.old request.now }
    requires inside { (k i : ℕ) → slice_get request.now.engines k ≡ Some i → i < length engines.old }
    requires going { (i : ℕ) (e : EngineSeen) → slice_get (map (λ b. seen b) engines.old) i ≡ Some e → e.spent ≡ false }
    ensures opened { IfOk result (λ place. IsOpened span.now patterns.old (map (λ b. seen b) engines.old) (map (λ b. seen b) engines.new) request.now place) }
    ensures behind { IfOk result (λ place. AreBehind (map (λ b. seen b) engines.old) place.asks) }
    ensures asked { OnOk result (AskedOnce span.now patterns.old request.now request.now.engines (map (λ b. seen b) engines.old) (map (λ b. seen b) engines.new)) }
    ensures calm { Each KeepsStrays (map (λ b. seen b) engines.old) (map (λ b. seen b) engines.new) }
    ensures grown { Each Grows (map (λ b. seen b) engines.old) (map (λ b. seen b) engines.new) }
    ensures fault { Faulted result (map (λ b. seen b) engines.old) (map (λ b. seen b) engines.new) }
    ensures blame { Blames (IsIn request.now.engines) result }
    ensures no_stray { IsNoStray result }
    ensures same { patterns.new ≡ patterns.old }
    ensures len { length engines.new ≡ length engines.old }
{
    let gather = match gather_of(alloc, request) {
        Ok(gather) => gather,
        Err(AllocError) => return Err(RunFault::Memory),
    };
    match ask_engines(alloc, request, span, engines, patterns) {
        Ok(asks) => Ok(Place { gather, asks }),
        Err(fault) => Err(fault),
    }
}

/// Asks the engines of all requests in the order of asks, and puts into the slot of each its gather, of which nothing was taken.
fn ask_in_order(
    alloc: Global,
    requests: &[Request],
    order: &[usize],
    slots: &mut Items<Option<Place>>,
    span: &Grid,
    engines: &mut [Box<dyn Engine>],
    patterns: &mut Patterns<'_>,
) -> Result<(), RunFault>
    requires requests { AllByRecursion IsRequest requests.now }
    requires may { (k : ℕ) (r : Request) → slice_get requests.now k ≡ Some r → MayRequest span.now patterns.old r }
    requires inside { (k j i : ℕ) (r : Request) → slice_get requests.now k ≡ Some r → slice_get r.engines j ≡ Some i → i < length engines.old }
    requires unasked { (i : ℕ) (e : EngineSeen) → slice_get (map (λ b. seen b) engines.old) i ≡ Some e → (e.asks ≡ []) × (e.spent ≡ false) }
    requires order { IsAskOrder requests.now order.now }
    requires slots { length slots.old ≡ length requests.now }
    ensures size { length slots.new ≡ length slots.old }
    ensures opened { OnOk result ((made : List Place) × AreOpened span.now patterns.old (map (λ b. seen b) engines.old) (map (λ b. seen b) engines.new) (in_order_of_asks requests.now) made × AreApart made × AreInSlots order.now made slots.new) }
    ensures asked { OnOk result (AreAsked span.now patterns.old (in_order_of_asks requests.now) (map (λ b. seen b) engines.old) (map (λ b. seen b) engines.new)) }
    ensures calm { Each KeepsStrays (map (λ b. seen b) engines.old) (map (λ b. seen b) engines.new) }
    ensures grown { Each Grows (map (λ b. seen b) engines.old) (map (λ b. seen b) engines.new) }
    ensures fault { Faulted result (map (λ b. seen b) engines.old) (map (λ b. seen b) engines.new) }
    ensures blame { Blames (IsAskedFor requests.now) result }
    ensures no_stray { IsNoStray result }
    ensures same { patterns.new ≡ patterns.old }
    ensures len { length engines.new ≡ length engines.old }
{
    for j in 0..order.len() {
        let k = place_in(order, j);
        let request = request_at(requests, k);
        match open_place(alloc, request, span, engines, patterns) {
            Ok(place) => {
                slots.replace(k, Some(place));
            }
            Err(fault) => return Err(fault),
        }
    }
    Ok(())
}

/// Asks the engines of all requests in the order of asks: a gather of each, of which nothing was taken, in the order of the requests.
pub(crate) fn open_places(
    alloc: Global,
    requests: &[Request],
    span: &Grid,
    engines: &mut [Box<dyn Engine>],
    patterns: &mut Patterns<'_>,
) -> Result<Items<Place>, RunFault>
    requires requests { AllByRecursion IsRequest requests.now }
    requires may { (k : ℕ) (r : Request) → slice_get requests.now k ≡ Some r → MayRequest span.now patterns.old r }
    requires inside { (k j i : ℕ) (r : Request) → slice_get requests.now k ≡ Some r → slice_get r.engines j ≡ Some i → i < length engines.old }
    requires unasked { (i : ℕ) (e : EngineSeen) → slice_get (map (λ b. seen b) engines.old) i ≡ Some e → (e.asks ≡ []) × (e.spent ≡ false) }
    ensures size { IfOk result (λ places. length places ≡ length requests.now) }
    ensures opened { IfOk result (λ places. AreOpened span.now patterns.old (map (λ b. seen b) engines.old) (map (λ b. seen b) engines.new) requests.now places) }
    ensures apart { IfOk result (λ places. AreApart places) }
    ensures asked { OnOk result (AreAsked span.now patterns.old (in_order_of_asks requests.now) (map (λ b. seen b) engines.old) (map (λ b. seen b) engines.new)) }
    ensures calm { Each KeepsStrays (map (λ b. seen b) engines.old) (map (λ b. seen b) engines.new) }
    ensures grown { Each Grows (map (λ b. seen b) engines.old) (map (λ b. seen b) engines.new) }
    ensures fault { Faulted result (map (λ b. seen b) engines.old) (map (λ b. seen b) engines.new) }
    ensures blame { Blames (IsAskedFor requests.now) result }
    ensures no_stray { IsNoStray result }
    ensures same { patterns.new ≡ patterns.old }
    ensures len { length engines.new ≡ length engines.old }
{
    let order = match order_of(alloc, requests) {
        Ok(order) => order,
        Err(AllocError) => return Err(RunFault::Memory),
    };
    let mut slots = match empty_slots(alloc, requests.len()) {
        Ok(slots) => slots,
        Err(AllocError) => return Err(RunFault::Memory),
    };
    match ask_in_order(
        alloc,
        requests,
        order.as_slice(),
        &mut slots,
        span,
        engines,
        patterns,
    ) {
        Ok(()) => {}
        Err(fault) => return Err(fault),
    }
    match standing_in(alloc, slots) {
        Ok(places) => Ok(places),
        Err(AllocError) => Err(RunFault::Memory),
    }
}
