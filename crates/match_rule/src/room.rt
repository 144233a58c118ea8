ghost use Rattle.std.specs.Prelude.{◌≡◌, IfOk};

use crate::built::Built;
use std::alloc::{AllocError, Global};
use std::cell::OnceCell;
use std::marker::Model;

/// The most patterns that are kept.
pub(crate) const MOST_PATTERNS: usize = 32;

/// Where the regular expressions of 32 patterns lie, so that what searches for them can borrow them. It serves one
/// `Patterns` at a time and outlives it. A place takes little room before a regular expression is there.
#[derive(Drop)]
pub struct PatternRoom {
    places: Vec<OnceCell<Box<Built>>>,
}

/// Contracts see how many places there are.
impl Model for PatternRoom {
    ghost use Rattle.std.specs.Prelude.{ℕ, length};

    ghost Value = { ℕ };

    ghost view = { λ r. length r.places.items };
}

impl PatternRoom {
    /// Empty places for the most patterns that are kept. The only error is want of memory.
    pub fn new(alloc: Global) -> Result<PatternRoom, AllocError>
        ensures places { IfOk result (λ room. room ≡ 32) }
    {
        let mut places = Vec::with_capacity(alloc, MOST_PATTERNS)?;
        for _ in 0..MOST_PATTERNS {
            places.push(OnceCell::new())?;
        }
        Ok(PatternRoom { places })
    }

    /// Empties each place.
    pub(crate) fn clear(&mut self)
        ensures places { self.new ≡ self.old }
    {
        for place in self.places.iter_mut() {
            place.take();
        }
    }

    /// A place that is empty.
    pub(crate) fn free(&self) -> Option<&OnceCell<Box<Built>>> {
        self.places.iter().find(|place| place.get().is_none())
    }
}
