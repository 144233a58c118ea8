ghost use Rattle.std.specs.Prelude.{◌≡◌, ℕ, ℤ, pos, ◌<◌, ◌^◌, ◌↔◌, List, Some};
ghost use Rattle.ticks.specs.Durations.{IsDuration, duration_in};
ghost use Rattle.ticks.specs.Grids.{IsInRange, IsNumbered, IsOnGrid};
ghost use Rattle.ticks.specs.Listed.{EachWalkIsListed, FirstIsHead, ListsAreOne, NextIsBehind};
ghost use Rattle.ticks.specs.Near.{GridsAreNear, InstantsAreTimes, SubqueriesStayNear};
ghost use Rattle.ticks.specs.Spellings.{spelling};

/// A law, with nothing to run: the spelling of a duration that isn't negative is read as that duration.
pub fn spellings_are_durations()
    ensures { (n : ℕ) → n < 2 ^ 63 → IsDuration (spelling (pos n)) n }
{}

/// A law, with nothing to run: `duration_in` finds exactly the milliseconds of the duration that a text spells.
pub fn durations_are_found()
    ensures { (text : List ℕ) (n : ℕ) → (duration_in text ≡ Some n) ↔ IsDuration text n }
{}

/// A law, with nothing to run: the instants of a grid are its start and `k` steps, for each `k` below their number.
pub fn instants_are_numbered()
    ensures { (start end step : ℤ) → IsInRange start end step → (t : ℤ) → IsOnGrid start end step t ↔ IsNumbered start end step t }
{}

/// A law, with nothing to run: each walk that leads to times has exactly one rising list of its instants, and `first` and
/// `after` go through that list.
pub fn walks_are_listed()
    ensures one { EachWalkIsListed }
    ensures no_other { ListsAreOne }
    ensures first { FirstIsHead }
    ensures next { NextIsBehind }
{}

/// A law, with nothing to run: each instant of a walk that leads to times is a time, a grid is near the time 0, and a walk over
/// the multiples in ranges whose moments are near leads to times.
pub fn walks_keep_to_times()
    ensures times { InstantsAreTimes }
    ensures grids { GridsAreNear }
    ensures subqueries { SubqueriesStayNear }
{}
