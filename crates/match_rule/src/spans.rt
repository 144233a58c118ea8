ghost use Rattle.std.specs.Prelude.{◌≡◌, ◌<◌, [], Some, length, slice_get};

use std::alloc::Global;
use std::marker::Model;

/// What the groups of a match span: for each group, group 0 first, its first byte and the byte after its last, or nothing
/// where the group took no part. Contracts see the list of them.
#[derive(Debug, Drop)]
pub struct Spans {
    spans: Vec<Option<(usize, usize)>>,
}

impl Model for Spans {
    ghost use Rattle.std.specs.Prelude.{ℕ, List, Option};

    ghost Value = { List (Option (ℕ × ℕ)) };

    ghost view = { λ s. s.spans.items };
}

impl Spans {
    /// No spans. It takes no memory.
    pub fn new(alloc: Global) -> Spans
        ensures { result ≡ [] }
    {
        Spans {
            spans: Vec::new(alloc),
        }
    }

    /// The number of groups, group 0 included.
    pub fn len(&self) -> usize
        ensures { result ≡ length self.now }
    {
        self.spans.len()
    }

    /// What group `i` spans, or None where it took no part.
    pub fn get(&self, i: usize) -> Option<(usize, usize)>
        requires { i < length self.now }
        ensures { slice_get self.now i ≡ Some result }
    {
        self.spans[i]
    }

    pub(crate) fn replace(&mut self, spans: Vec<Option<(usize, usize)>>)
        ensures { self.new ≡ spans.items }
    {
        self.spans = spans;
    }
}
