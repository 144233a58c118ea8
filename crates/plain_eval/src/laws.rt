//! Laws of what the evaluation asks for. The functions do nothing: each stands for what its contract says.
ghost use Rattle.plain_eval.specs.Checked.{CheckedPatternsAreKept, KeptPatternsStay};

/// After a check the patterns of a typed tree's label_replace calls are kept, as `at` and `range` ask.
pub fn checked_patterns_are_kept()
    ensures { CheckedPatternsAreKept }
{}

/// Patterns of a tree that are kept stay so where further ones are kept.
pub fn kept_patterns_stay()
    ensures { KeptPatternsStay }
{}
