//! Laws of meanings that users rely on. The functions do nothing: each stands for what its contract says.
ghost use Rattle.promql_meaning.specs.Filters.{MoreRulesFilterRows, MoreRulesFilterWindows};
ghost use Rattle.promql_meaning.specs.Laws.{FixedSelectorStays, MeaningIsWellFormed, MinusTwice, MultiplesAreAll, OffsetIsEarlier, RanksArePart, SumOfEachRow, SumsOfSums};
ghost use Rattle.promql_meaning.specs.LimitLaws.{AbsentLabelsAreWithin};
ghost use Rattle.promql_meaning.specs.RankLaws.{LeftOutAreBehind, RanksAreFew};
ghost use Rattle.promql_meaning.specs.ResultLaws.{FirstStopIsFirst, NoStopIsNone, NotesStand, OrderRearranges, OrderRises};
ghost use Rattle.promql_meaning.specs.LeftEdges.{ClosedHasTheEdge};
ghost use Rattle.promql_meaning.specs.Steadiness.{MeaningStays};
ghost use Rattle.promql_meaning.specs.Reaches.{NeedsAreMet};
ghost use Rattle.promql_meaning.specs.WalkMoments.{WalkMomentIsMoment};

use step_table::laws::{steps_are_well_formed, unions_are_sets};
use xfrac::laws::{
    joined_sums_stand_for_both, lcm_is_least, order_is_total, part_overflows_whole,
    sum_ignores_order,
};

/// The sum by a grouping that keeps all labels of each row is each row.
pub fn sum_of_each_row()
    ensures { SumOfEachRow }
{
    joined_sums_stand_for_both();
}

/// Where the values of a vector have a sum, it is the sum of their sums by any grouping.
pub fn sums_of_sums()
    ensures { SumsOfSums }
{
    joined_sums_stand_for_both();
    sum_ignores_order();
    part_overflows_whole();
    lcm_is_least();
}

/// Minus twice gives the rows without their names, where no two of them then share labels.
pub fn minus_twice()
    ensures { MinusTwice }
{}

/// `topk` and `bottomk` give a part of the vector.
pub fn ranks_are_part()
    ensures { RanksArePart }
{}

/// A selector under `@` means the same at each instant.
pub fn fixed_selector_stays()
    ensures { FixedSelectorStays }
{}

/// A selector with an offset means what it means without it, that much earlier.
pub fn offset_is_earlier()
    ensures { OffsetIsEarlier }
{}

/// The points of a subquery are the multiples of its step in its range, whose left edge is taken where it is closed.
pub fn multiples_are_all()
    ensures { MultiplesAreAll }
{}

/// The evaluation of a tree whose lengths, offsets and fixed times lie within limits leads to times alone.
pub fn needs_are_met()
    ensures { NeedsAreMet }
{}

/// Each step of a meaning is well formed: rows by their labels, no two with equal labels, and notes and marks as sets.
pub fn meanings_are_well_formed()
    ensures { MeaningIsWellFormed }
{
    steps_are_well_formed();
    unions_are_sets();
}

/// An expression whose selectors and subqueries have fixed times means the same at each instant.
pub fn fixed_meanings_stay()
    ensures { MeaningStays }
{}

/// The stop of an evaluation is that of the first instant at which it ends, and there is none exactly where no instant ends it.
pub fn first_stop_is_first()
    ensures first { FirstStopIsFirst }
    ensures none { NoStopIsNone }
{}

/// A note stands in an answer exactly where an instant has it.
pub fn notes_stand()
    ensures { NotesStand }
{
    unions_are_sets();
}

/// The series of an answer by value are those by labels, rearranged, and none comes before the one in front of it.
pub fn order_rises()
    ensures rearranged { OrderRearranges }
    ensures rises { OrderRises }
{
    order_is_total();
}

/// A selector of more rules gives the rows and the windows of a selector that pass the further rules.
pub fn more_rules_filter()
    ensures rows { MoreRulesFilterRows }
    ensures windows { MoreRulesFilterWindows }
{}

/// topk and bottomk keep at most k rows of each group, and a row that they leave out has k rows of its group before it.
pub fn ranks_are_few()
    ensures few { RanksAreFew }
    ensures left_out { LeftOutAreBehind }
{
    order_is_total();
}

/// The samples of a window that is closed on the left are the one on its edge, if there is one, and then those of the open one.
pub fn closed_windows_have_the_edge()
    ensures { ClosedHasTheEdge }
{}

/// The moment of a walk with the fixed time and the offset of an expression is the moment of its meaning.
pub fn walk_moments_are_moments()
    ensures { WalkMomentIsMoment }
{}

/// The labels of what is absent are those that the rules tell; there are none exactly where these would pass a limit of labels.
pub fn absent_labels_are_within()
    ensures { AbsentLabelsAreWithin }
{}
