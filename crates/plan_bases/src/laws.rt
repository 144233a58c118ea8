//! Laws of what filters test. The functions do nothing: each stands for what its contract says.
ghost use Rattle.plan_bases.specs.Looks.{FiltersTestWithinTheRarest, FiltersTestWithinTheirSelector, MergedSelectorsTestNoMore};

/// A filter over a selector tests each series that it stands over once for each of its rules at most, and no more series than a selector
/// with the rules of both looks at.
pub fn filters_test_the_fewest()
    ensures within { FiltersTestWithinTheirSelector }
    ensures rarest { FiltersTestWithinTheRarest }
{}

/// A selector and a filter over it test no more series than that selector and one with the rules of both.
pub fn merged_selectors_test_no_more()
    ensures { MergedSelectorsTestNoMore }
{}
