ghost use Rattle.sample_store.specs.Counts.{Counted, raised, seen};
ghost use Rattle.std.specs.List.{AllByRecursion};
ghost use Rattle.std.specs.Prelude.{◌≡◌, ◌<◌, ◌≤◌, ◌+◌, ◌^◌, ℕ, [], ◌∷◌, Some, insert, length, slice_get, OnErr, OnOk};

use std::alloc::{AllocError, Global};
use std::marker::Model;

/// How many samples there are, and how many lie before each chunk but the first. Contracts see the numbers.
#[derive(Drop)]
pub struct Counts {
    /// Up to the edge, how many samples lie before a chunk; behind it, how many lie from the chunk on. So a further sample
    /// right before the edge changes only the total, and samples that come in order move the edge little.
    kept: Vec<u32>,
    edge: usize,
    total: u32,
}

impl Model for Counts {
    ghost use Rattle.sample_store.specs.Counts.{AreKept, Counted, seen};

    ghost Value = { Counted };

    ghost view = { λ c. record { total = c.total; starts = seen c.edge c.total c.kept.items } };

    ghost invariant = { λ c. AreKept c.edge c.total c.kept.items };
}

impl Counts {
    /// No samples, in one chunk at most. It takes no memory.
    pub fn new(alloc: Global) -> Counts
        ensures { result ≡ record { total = 0; starts = [] } }
    {
        Counts {
            kept: Vec::new(alloc),
            edge: 0,
            total: 0,
        }
    }

    /// How many samples there are.
    pub fn total(&self) -> u32
        ensures { result ≡ self.now.total }
    {
        self.total
    }

    /// How many samples lie before a chunk.
    #[tactic(auto, using(crate::proofs::Turns::get_front, crate::proofs::Turns::get_back, crate::proofs::Turns::length_seen))]
    pub fn before(&self, k: usize) -> u32
        requires { k ≤ length self.now.starts }
        ensures { slice_get (0 ∷ self.now.starts) k ≡ Some result }
    {
        if k == 0 {
            return 0;
        }
        let kept = self.kept[k - 1];
        if k <= self.edge {
            return kept;
        }
        self.total - kept
    }

    /// Counts more samples in a chunk. It takes no memory.
    #[tactic(auto, using(crate::proofs::Turns::raised_seen, crate::proofs::Turns::few_more, crate::proofs::Turns::length_seen))]
    pub fn raise(&mut self, k: usize, more: u32)
        requires there { k ≤ length self.old.starts }
        requires few { self.old.total + more < 2 ^ 32 }
        ensures { self.new ≡ record { total = self.old.total + more; starts = raised k more self.old.starts } }
    {
        turn(&mut self.kept, self.edge, k, self.total);
        self.edge = k;
        self.total += more;
    }

    /// Puts in a chunk behind another, with so many samples before it. The only error is want of memory; then the counts
    /// are as they were.
    #[tactic(auto, using(crate::proofs::Turns::inserted_seen, crate::proofs::Turns::few_insert, crate::proofs::Turns::length_seen))]
    pub fn insert(&mut self, k: usize, before: u32) -> Result<(), AllocError>
        requires there { k ≤ length self.old.starts }
        requires within { before ≤ self.old.total }
        ensures ok { OnOk result (self.new ≡ record { total = self.old.total; starts = insert self.old.starts k before }) }
        ensures err { OnErr result (self.new ≡ self.old) }
    {
        turn(&mut self.kept, self.edge, k, self.total);
        self.edge = k;
        self.kept.insert(k, self.total - before)?;
        Ok(())
    }
}

/// Keeps numbers for another edge.
fn turn(kept: &mut Vec<u32>, edge: usize, to: usize, total: u32)
    requires from { edge ≤ length kept.old.items }
    requires within { to ≤ length kept.old.items }
    requires few { AllByRecursion (λ (n : ℕ). n ≤ total) kept.old.items }
    ensures same { seen to total kept.new.items ≡ seen edge total kept.old.items }
    ensures many { length kept.new.items ≡ length kept.old.items }
    ensures few { AllByRecursion (λ (n : ℕ). n ≤ total) kept.new.items }
{
    if edge < to {
        turn_up(kept, edge, to, total);
    } else {
        turn_down(kept, edge, to, total);
    }
}

/// Keeps numbers as they are that were kept as what is left to a total, up to a later edge.
#[tactic(auto, using(crate::proofs::Turns::all_set, crate::proofs::Turns::length_set))]
fn turn_up(kept: &mut Vec<u32>, edge: usize, to: usize, total: u32)
    requires order { edge ≤ to }
    requires within { to ≤ length kept.old.items }
    requires few { AllByRecursion (λ (n : ℕ). n ≤ total) kept.old.items }
    ensures same { seen to total kept.new.items ≡ seen edge total kept.old.items }
    ensures many { length kept.new.items ≡ length kept.old.items }
    ensures few { AllByRecursion (λ (n : ℕ). n ≤ total) kept.new.items }
{
    for j in edge..to {
        let left = total - kept[j];
        kept[j] = left;
    }
}

/// Keeps numbers as what is left to a total that were kept as they are, from an earlier edge on.
#[tactic(auto, using(crate::proofs::Turns::all_set, crate::proofs::Turns::length_set))]
fn turn_down(kept: &mut Vec<u32>, edge: usize, to: usize, total: u32)
    requires order { to ≤ edge }
    requires within { edge ≤ length kept.old.items }
    requires few { AllByRecursion (λ (n : ℕ). n ≤ total) kept.old.items }
    ensures same { seen to total kept.new.items ≡ seen edge total kept.old.items }
    ensures many { length kept.new.items ≡ length kept.old.items }
    ensures few { AllByRecursion (λ (n : ℕ). n ≤ total) kept.new.items }
{
    let mut j = edge;
    while to < j {
        j -= 1;
        let left = total - kept[j];
        kept[j] = left;
    }
}
