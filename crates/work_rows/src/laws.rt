//! Rows of counts. Each sample stands on a minute, the first one at time 0, whatever its value.
ghost use Rattle.work_rows.specs.Rows.{FixedEndsFetchFour, MatchingRulesFetchTwo, SlidingSumsFetchEachSampleOnce, SumsSeekOnce, UnmatchedRulesFetchEleven};
ghost use Rattle.work_rows.specs.Tests.{EqualSelectorsAreSelectedOnce, MergedSelectorsTestThree, WrittenSelectorsTestThree};

/// `sum_over_time(x[10m])` over an hour of samples, at each of its minutes: each of the 61 samples is fetched once.
pub fn sliding_sums_fetch_each_sample_once()
    ensures { SlidingSumsFetchEachSampleOnce }
{}

/// `sum(x)` over the same samples, each seventh minute up to the hour: the 57 samples up to the last instant, and one search.
pub fn sums_seek_once()
    ensures { SumsSeekOnce }
{}

/// `x @ end() offset 1m` from 0 to 4 minutes: the four samples up to minute 3, however many instants there are.
pub fn fixed_ends_fetch_four()
    ensures { FixedEndsFetchFour }
{}

/// `a{x="1"} * b` over ten series of each, a sample each: eleven.
pub fn unmatched_rules_fetch_eleven()
    ensures { UnmatchedRulesFetchEleven }
{}

/// `a{x="1"} * b{x="1"}`, as the rules of a side are given to the other: two.
pub fn matching_rules_fetch_two()
    ensures { MatchingRulesFetchTwo }
{}

/// `sum(metric{a="b",c="d"}) / scalar(sum(metric{a="b"}))` as it is written, where no series but these two has the name or `c="d"`: one
/// series for the first selector and two for the second.
pub fn written_selectors_test_three()
    ensures { WrittenSelectorsTestThree }
{}

/// The same with a filter of one rule over the second selector in place of the first: two series for the selector, once, and for the filter
/// the one that has `c="d"`, which is fewer than the two that it stands over.
pub fn merged_selectors_test_three()
    ensures { MergedSelectorsTestThree }
{}

/// `metric{a="b"} + metric{a="b"}`: the two series, once.
pub fn equal_selectors_are_selected_once()
    ensures { EqualSelectorsAreSelectedOnce }
{}
