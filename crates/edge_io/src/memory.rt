ghost use Rattle.std.specs.Prelude.{◌≡◌, ◌≤◌, ◌↔◌, ◌+◌, ◌-◌, ◌^◌, [], ◌++◌, None, Some, length, min, option_map, IfOk, OnErr, IsTrue, IsFalse, IsErrOf};
ghost use Rattle.edge_io.specs.Causes.{HasCause, counted};
ghost use Rattle.edge_io.specs.Held.{after_fetch, bytes_at, fetch_fails, is_listed, NoneTwice};
ghost use Rattle.edge_io.specs.Told.{Tells, IsEmptyUnlessWhole};

use crate::{Fetch, Fetched, Library, Sink, SinkFail};
use holders::{Items, Text};
use std::alloc::Global;
use std::marker::Model;

/// The numbers of the calls that are to fail, counted from 1, and how many calls and faults there were. Both counts
/// stand still at 2^64 - 1.
#[derive(Drop)]
struct Plan {
    fails: Items<u32>,
    calls: u64,
    faults: u64,
}

impl Plan {
    fn of(fails: Items<u32>) -> Plan
        ensures fails { result.fails ≡ fails }
        ensures calls { result.calls ≡ 0 }
        ensures faults { result.faults ≡ 0 }
    {
        Plan {
            fails,
            calls: 0,
            faults: 0,
        }
    }

    /// Counts a call, and answers whether it is one that is to fail.
    fn next_fails(&mut self) -> bool
        ensures calls { self.new ≡ record self.old { calls = counted self.old.calls } }
        ensures listed { result ≡ is_listed self.old.fails self.new.calls }
    {
        self.calls = self.calls.saturating_add(1);
        let call = self.calls;
        self.fails.as_slice().iter().any(|n| u64::from(*n) == call)
    }

    /// Counts a fault.
    fn add_fault(&mut self)
        ensures faults { self.new ≡ record self.old { faults = counted self.old.faults } }
        ensures later { self.old.faults ≤ self.new.faults }
    {
        self.faults = self.faults.saturating_add(1);
    }
}

/// Files in memory, which contracts see as their paths and bytes, the numbers of the fetches that fail, counted from 1,
/// and the counts of fetches and of faults.
#[derive(Drop)]
pub struct MemLibrary {
    paths: Items<Text>,
    bytes: Items<Items<u8>>,
    plan: Plan,
}

impl Model for MemLibrary {
    ghost use Rattle.edge_io.specs.Held.{Files};

    ghost Value = { Files };

    ghost view = { λ m. record { paths = m.paths; bytes = m.bytes; failing = m.plan.fails; calls = m.plan.calls; faults = m.plan.faults } };
}

impl MemLibrary {
    /// A library of the files with these paths and, at the same places, these bytes. Those of its fetches fail whose
    /// numbers are among `fails`, counted from 1, and those of other paths.
    pub fn of(paths: Items<Text>, bytes: Items<Items<u8>>, fails: Items<u32>) -> MemLibrary
        requires lengths { length paths ≡ length bytes }
        requires once { NoneTwice paths }
        ensures paths { result.paths ≡ paths }
        ensures bytes { result.bytes ≡ bytes }
        ensures failing { result.failing ≡ fails }
        ensures calls { result.calls ≡ 0 }
        ensures faults { result.faults ≡ 0 }
    {
        MemLibrary {
            paths,
            bytes,
            plan: Plan::of(fails),
        }
    }
}

/// The bytes that stand at the place of the path.
fn find_file<'a>(paths: &[Text], bytes: &'a [Items<u8>], path: &str) -> Option<&'a Items<u8>>
    ensures { option_map (λ found. found.now) result ≡ bytes_at paths.now bytes.now path.now }
{
    for (i, held) in paths.iter().enumerate() {
        if held.as_str() == path {
            return bytes.get(i);
        }
    }
    None
}

impl Library for MemLibrary {
    ghost told = { λ m. Some (bytes_at m.paths m.bytes) };

    ghost faults = { λ m. m.faults };

    ghost sound = { λ m. m.failing ≡ [] };

    ghost fetches = { λ before path now. now ≡ after_fetch before path };

    /// As every library's, and exact: a fetch fails where its number is listed or its path isn't there, and counts as a
    /// call, and as a fault exactly where it fails.
    fn fetch(&mut self, path: &str, limit: usize, into: &mut Vec<u8>) -> Result<Fetched, Fetch>
        requires { into.old.items ≡ [] }
        ensures after { self.new ≡ after_fetch self.old path.now }
        ensures failed { IsTrue (fetch_fails self.old path.now) ↔ IsErrOf result Fetch.Failed }
        ensures cause { HasCause self.old.faults self.new.faults (IsErrOf result Fetch.Failed) }
        ensures empty { IsEmptyUnlessWhole result into.new.items }
        ensures tells { Tells (bytes_at self.old.paths self.old.bytes path.now) limit result into.new.items }
    {
        if self.plan.next_fails() {
            self.plan.add_fault();
            return Err(Fetch::Failed);
        }
        let Some(bytes) = find_file(self.paths.as_slice(), self.bytes.as_slice(), path) else {
            self.plan.add_fault();
            return Err(Fetch::Failed);
        };
        let bytes = bytes.as_slice();
        if bytes.len() > limit {
            return Ok(Fetched::PastLimit);
        }
        match into.extend_from_slice(bytes) {
            Ok(()) => Ok(Fetched::Whole),
            Err(_) => Err(Fetch::Memory),
        }
    }
}

/// Bytes in memory, which contracts see as those taken so far, the numbers of the writes that fail, counted from 1, and
/// the counts of writes and of faults.
#[derive(Drop)]
pub struct MemSink {
    bytes: Vec<u8>,
    plan: Plan,
}

impl Model for MemSink {
    ghost use Rattle.edge_io.specs.Held.{Taken};

    ghost Value = { Taken };

    ghost view = { λ m. record { bytes = m.bytes.items; failing = m.plan.fails; calls = m.plan.calls; faults = m.plan.faults } };
}

impl MemSink {
    /// A sink that has taken nothing yet. Those of its writes fail whose numbers are among `fails`, counted from 1.
    pub fn of(alloc: Global, fails: Items<u32>) -> MemSink
        ensures bytes { result.bytes ≡ [] }
        ensures failing { result.failing ≡ fails }
        ensures calls { result.calls ≡ 0 }
        ensures faults { result.faults ≡ 0 }
    {
        MemSink {
            bytes: Vec::new(alloc),
            plan: Plan::of(fails),
        }
    }

    /// The bytes taken so far.
    pub fn written(&self) -> &[u8]
        ensures { result.now ≡ self.now.bytes }
    {
        &self.bytes
    }
}

impl Sink for MemSink {
    ghost written = { λ m. Some m.bytes };

    ghost faults = { λ m. m.faults };

    ghost sound = { λ m. m.failing ≡ [] };

    /// As every sink's, and exact: a piece is taken whole, a write fails where its number is listed, and a fault is
    /// counted exactly where it fails.
    fn write(&mut self, piece: &[u8]) -> Result<usize, SinkFail>
        ensures whole { IfOk result (λ n. n ≡ length piece.now) }
        ensures took { IfOk result (λ _. self.new.bytes ≡ self.old.bytes ++ piece.now) }
        ensures nothing { OnErr result (self.new.bytes ≡ self.old.bytes) }
        ensures failing { self.new.failing ≡ self.old.failing }
        ensures calls { self.new.calls ≡ counted self.old.calls }
        ensures cause { HasCause self.old.faults self.new.faults (IsErrOf result SinkFail.Failed) }
        ensures listed { IsTrue (is_listed self.old.failing self.new.calls) ↔ IsErrOf result SinkFail.Failed }
        ensures fault { IsErrOf result SinkFail.Failed → self.new.faults ≡ counted self.old.faults }
        ensures no_fault { ¬ IsErrOf result SinkFail.Failed → self.new.faults ≡ self.old.faults }
    {
        if self.plan.next_fails() {
            self.plan.add_fault();
            return Err(SinkFail::Failed);
        }
        self.bytes.extend_from_slice(piece)?;
        Ok(piece.len())
    }
}
