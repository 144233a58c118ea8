//! The patterns that are kept when an ask is made.
ghost use Rattle.std.specs.Prelude.{◌≡◌, ◌<◌, Some, length, slice_get, IfOk};

use label_set::{Items, PatternId, Text};
use match_rule::Patterns;
use std::alloc::{AllocError, Global};

/// A copy of patterns, each with the flag whether it has to match a whole value. The only error is want of memory.
pub(crate) fn copied(
    alloc: Global,
    patterns: &Patterns<'_>,
) -> Result<Items<(bool, Text)>, AllocError>
    ensures { IfOk result (λ kept. kept ≡ patterns.now) }
{
    let mut kept = Items::new(alloc);
    for number in 0..patterns.len() {
        kept.push(pattern_at(alloc, patterns, number as u32)?)?;
    }
    Ok(kept)
}

/// The pattern under a number. The only error is want of memory.
#[tactic(auto, using(crate::proofs::Kept::pair_of))]
fn pattern_at(
    alloc: Global,
    patterns: &Patterns<'_>,
    number: u32,
) -> Result<(bool, Text), AllocError>
    requires { number < length patterns.now }
    ensures { IfOk result (λ p. slice_get patterns.now number ≡ Some p) }
{
    let text = Text::of(alloc, patterns.text(PatternId(number)))?;
    Ok((patterns.is_whole(PatternId(number)), text))
}
