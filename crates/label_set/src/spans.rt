ghost use Rattle.std.specs.Prelude.{◌≡◌, ◌≤◌, [], length, insert, IfOk, OnOk, OnErr};

use crate::pairs::Span;
use smallvec::SmallVec;
use std::alloc::{AllocError, Global};
use std::marker::Model;

/// How many spans take no memory of their own: most labels have no more pairs.
const FEW: usize = 4;

/// Where pairs stand in a text, in order. Contracts see the list. It keeps the allocator that it was made with.
#[derive(Debug, Drop)]
pub struct PairSpans {
    spans: SmallVec<Span, FEW>,
}

impl Model for PairSpans {
    ghost use Rattle.label_set.specs.declared.pairs.Span.{Span};
    ghost use Rattle.std.specs.Prelude.{List};

    ghost Value = { List Span };

    ghost view = { λ s. s.spans.items };
}

impl PairSpans {
    /// No spans. It takes no memory.
    pub fn new(alloc: Global) -> PairSpans
        ensures { result ≡ [] }
    {
        PairSpans {
            spans: SmallVec::new(alloc),
        }
    }

    /// No spans, with room for so many. The only error is want of memory.
    pub fn with_capacity(alloc: Global, most: usize) -> Result<PairSpans, AllocError>
        ensures { IfOk result (λ s. s ≡ []) }
    {
        Ok(PairSpans {
            spans: SmallVec::with_capacity(alloc, most)?,
        })
    }

    /// The allocator that the spans were made with.
    pub fn allocator(&self) -> Global {
        *self.spans.allocator()
    }

    /// The spans in order.
    pub fn as_slice(&self) -> &[Span]
        ensures { result.now ≡ self.now }
    {
        self.spans.as_slice()
    }

    /// Puts a span at place `i`, counted from 0, before the later ones. The only error is want of memory; then the spans are
    /// as they were.
    pub fn insert(&mut self, i: usize, span: Span) -> Result<(), AllocError>
        requires { i ≤ length self.old }
        ensures ok { OnOk result (self.new ≡ insert self.old i span) }
        ensures err { OnErr result (self.new ≡ self.old) }
    {
        self.spans.insert(i, span)?;
        Ok(())
    }

    /// Equal spans, on the allocator of these. The only error is want of memory.
    pub fn copy(&self) -> Result<PairSpans, AllocError>
        ensures { IfOk result (λ s. s ≡ self.now) }
    {
        Ok(PairSpans {
            spans: SmallVec::from_slice(self.allocator(), self.as_slice())?,
        })
    }
}
