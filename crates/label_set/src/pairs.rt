ghost use Rattle.label_set.specs.LabelEquality.{labels_eq, labels_hash};
ghost use Rattle.label_set.specs.Labels.{labels_cmp};
ghost use Rattle.std.specs.List.{fold};
ghost use Rattle.std.specs.Prelude.{◌≡◌, ◌<◌, ◌≤◌, ◌++◌, ℕ, List, [], ◌∷◌, Some, insert, length, remove, slice_get, slice_range, slice_set, IfOk, OnOk, OnErr};

use crate::spans::PairSpans;
use std::alloc::{AllocError, Global};
use std::cmp::Ordering;
use std::hash::{Hash, Hasher};
use std::marker::Model;

/// Where a pair stands in a text, in bytes: its name begins at `start`, its value at `middle`, and both end at `end`.
#[derive(Clone, Copy, Debug, Default)]
pub struct Span {
    pub start: usize,
    pub middle: usize,
    pub end: usize,
}

/// Pairs of a name and a value: one text, and where each pair stands in it, which takes memory of its own only where the
/// pairs are more than a few. Contracts see the list of the pairs. They keep the allocator that they were made with.
#[derive(Debug, Drop)]
pub struct Pairs {
    text: String,
    spans: PairSpans,
}

impl Model for Pairs {
    ghost use Rattle.std.specs.Prelude.{ℕ, List, map, string_bytes};
    ghost use Rattle.std.specs.List.{All};

    ghost Value = { List (List ℕ × List ℕ) };

    ghost use Rattle.label_set.specs.Spans.{IsSpanIn, pair_in};

    ghost view = { λ p. map (pair_in (string_bytes p.text)) p.spans };

    ghost invariant = { λ p. All (IsSpanIn (string_bytes p.text)) p.spans };
}

impl Pairs {
    /// No pairs. It takes no memory.
    pub fn new(alloc: Global) -> Pairs
        ensures { result ≡ [] }
    {
        Pairs {
            text: String::new(alloc),
            spans: PairSpans::new(alloc),
        }
    }

    /// No pairs, with as much room as these take, on their allocator. The only error is want of memory.
    pub fn blank(&self) -> Result<Pairs, AllocError>
        ensures { IfOk result (λ ps. ps ≡ []) }
    {
        let text = String::with_capacity(self.allocator(), self.text.as_str().len())?;
        let spans = PairSpans::with_capacity(self.allocator(), self.len())?;
        Ok(Pairs { text, spans })
    }

    /// The allocator that the pairs were made with.
    pub fn allocator(&self) -> Global {
        self.spans.allocator()
    }

    /// How many pairs there are.
    pub fn len(&self) -> usize
        ensures { result ≡ length self.now }
    {
        self.spans.as_slice().len()
    }

    /// The name and the value at place `i`, counted from 0.
    pub fn pair(&self, i: usize) -> (&str, &str)
        requires { i < length self.now }
        ensures { slice_get self.now i ≡ Some (result.0.now, result.1.now) }
    {
        let text = self.text.as_str();
        let span = self.spans.as_slice()[i];
        (&text[span.start..span.middle], &text[span.middle..span.end])
    }

    /// Puts a pair at place `i`, counted from 0, before the later ones. The only error is want of memory; then the pairs
    /// are as they were.
    pub fn insert(&mut self, i: usize, name: &str, value: &str) -> Result<(), AllocError>
        requires { i ≤ length self.old }
        ensures ok { OnOk result (self.new ≡ insert self.old i (name.now, value.now)) }
        ensures err { OnErr result (self.new ≡ self.old) }
    {
        let start = self.text.as_str().len();
        self.text.push_str(name)?;
        let middle = self.text.as_str().len();
        self.text.push_str(value)?;
        let end = self.text.as_str().len();
        let span = Span { start, middle, end };
        self.spans.insert(i, span)?;
        Ok(())
    }

    /// Puts a pair at the end. The only error is want of memory; then the pairs are as they were.
    pub fn push(&mut self, name: &str, value: &str) -> Result<(), AllocError>
        ensures ok { OnOk result (self.new ≡ self.old ++ (name.now, value.now) ∷ []) }
        ensures err { OnErr result (self.new ≡ self.old) }
    {
        let last = self.len();
        self.insert(last, name, value)
    }

    /// Puts the pairs from place `from` up to `to` of others at the end. The only error is want of memory; then some of
    /// them may have been put.
    pub fn extend(&mut self, others: &Pairs, from: usize, to: usize) -> Result<(), AllocError>
        requires ordered { from ≤ to }
        requires within { to ≤ length others.now }
        ensures { OnOk result (self.new ≡ self.old ++ slice_range others.now from to) }
    {
        for i in from..to {
            let (name, value) = others.pair(i);
            self.push(name, value)?;
        }
        Ok(())
    }

    /// The pairs but for the one at place `i`, counted from 0, on the allocator of these. The only error is want of
    /// memory.
    pub fn without(&self, i: usize) -> Result<Pairs, AllocError>
        requires { i < length self.now }
        ensures { IfOk result (λ ps. ps ≡ remove self.now i) }
    {
        let end = self.len();
        let mut pairs = Pairs::new(self.allocator());
        pairs.extend(self, 0, i)?;
        pairs.extend(self, i + 1, end)?;
        Ok(pairs)
    }

    /// The pairs with another value at place `i`, counted from 0, on the allocator of these. The only error is want of
    /// memory.
    pub fn with_value(&self, i: usize, value: &str) -> Result<Pairs, AllocError>
        requires { i < length self.now }
        ensures { IfOk result (λ ps. (p : List ℕ × List ℕ) → slice_get self.now i ≡ Some p → ps ≡ slice_set self.now i (p.0, value.now)) }
    {
        let end = self.len();
        let mut pairs = Pairs::new(self.allocator());
        pairs.extend(self, 0, i)?;
        pairs.push(self.pair(i).0, value)?;
        pairs.extend(self, i + 1, end)?;
        Ok(pairs)
    }

    /// Lets these pairs go, and has others in their place.
    pub fn give_way_to(&mut self, others: Pairs)
        ensures { self.new ≡ others }
    {
        *self = others;
    }

    /// Equal pairs, on the allocator of these. The only error is want of memory.
    pub fn copy(&self) -> Result<Pairs, AllocError>
        ensures { IfOk result (λ p. p ≡ self.now) }
    {
        Ok(Pairs {
            text: self.text.clone()?,
            spans: self.spans.copy()?,
        })
    }

    /// Whether the pairs are the same texts.
    pub fn is_equal(&self, other: &Pairs) -> bool
        ensures { result ≡ labels_eq self.now other.now }
    {
        if self.len() != other.len() {
            return false;
        }
        for i in 0..self.len() {
            let same = self.pair(i) == other.pair(i);
            if !same {
                return false;
            }
        }
        true
    }

    /// The order of the pairs: pair by pair, and pairs before those that they begin.
    pub fn compare(&self, other: &Pairs) -> Ordering
        ensures { result ≡ labels_cmp self.now other.now }
    {
        let both = self.len().min(other.len());
        for i in 0..both {
            let order = self.pair(i).cmp(&other.pair(i));
            if order.is_ne() {
                return order;
            }
        }
        self.len().cmp(&other.len())
    }

    /// Feeds a hasher the number of the pairs and then each name and value.
    pub fn feed<H: Hasher>(&self, state: &mut H)
        ensures { state.new ≡ fold H.write state.old (labels_hash self.now) }
    {
        state.write_usize(self.len());
        for i in 0..self.len() {
            self.pair(i).hash(state);
        }
    }
}
