//! Laws of bounds. The functions do nothing: each stands for what its contract says.
ghost use Rattle.plan_work.specs.PlanLaws.{BesidesAddUp, FiltersCostNoMore, InnerTimesAreListed, LeavesCostAsSelectors, NoSelectorCostsNothing, OncesCostOnce, OversCostTheSame, RangesCostAsSelectors, SpansRise, SubqueriesCostInside, ThreesAddUp, WindowsAddUp};
ghost use Rattle.plan_work.specs.TreeBounds.{BesidesStay, GathersStay, GivenWindowsStay, NumbersStay, OnceTreesStay, OversNumbersStay, OversStay, SamesStay, SelectorsStay, SpendingStays, SubqueriesStay, ThreesStay, WindowsStay};

use promql_meaning::laws::{multiples_are_all, walk_moments_are_moments};

/// A leaf over the series that a selector chooses costs what the selector does.
pub fn leaves_cost_as_selectors()
    ensures { LeavesCostAsSelectors }
{
    walk_moments_are_moments();
}

/// A node over one child costs what that does, a node over two or three what all of them do, a number or the time nothing, a function of
/// windows what these and its arguments do, a subquery what its inner expression does at the inner instants, and a part that is computed
/// once what it does at the first instant.
pub fn nodes_add_up()
    ensures none { NoSelectorCostsNothing }
    ensures over { OversCostTheSame }
    ensures beside { BesidesAddUp }
    ensures three { ThreesAddUp }
    ensures window { WindowsAddUp }
    ensures subquery { SubqueriesCostInside }
    ensures once { OncesCostOnce }
{}

/// The selector of a range costs what the range does, and with the rules of a filter over it no more.
pub fn range_selectors_cost()
    ensures range { RangesCostAsSelectors }
    ensures filter { FiltersCostNoMore }
{}

/// A longer span costs no less.
pub fn spans_rise()
    ensures { SpansRise }
{}

/// The inner instants of a subquery, as its bound has them, are those of its walk.
pub fn inner_times_are_listed()
    ensures { InnerTimesAreListed }
{
    multiples_are_all();
    walk_moments_are_moments();
}

/// The tree of a node stays within the bound of its plan at the instants of a walk, if those of its children stay within theirs: of
/// numbers, gathers and selectors, of nodes over one, two and three children, of functions of windows, over series, over
/// windows that engines give and over subqueries, and of what is computed once.
pub fn trees_stay_within()
    ensures number { NumbersStay }
    ensures gather { GathersStay }
    ensures selector { SelectorsStay }
    ensures over { OversStay }
    ensures same { SamesStay }
    ensures over_number { OversNumbersStay }
    ensures beside { BesidesStay }
    ensures three { ThreesStay }
    ensures window { WindowsStay }
    ensures given { GivenWindowsStay }
    ensures subquery { SubqueriesStay }
    ensures once { OnceTreesStay }
{
    walk_moments_are_moments();
    inner_times_are_listed();
}

/// What a tree spends that stays within the bound of a plan is within that bound.
pub fn spending_stays_within()
    ensures { SpendingStays }
{}
