//! Laws of the cells that engines owe. The functions do nothing: each stands for what its contract says.
ghost use Rattle.step_cells.specs.CellLaws.{CellIgnoresOrder, CountsAreAdded, OneEngineAgrees, OneEnginesRows, OneEnginesWindows, OwedIsSound, PartialsAgree, PartialsIgnoreOrder, RowsIgnoreOrder, RowsOfTwoAreLeftOut, SharedRowsAreLeftOut, SharedWindowsAreLeftOut, WindowsIgnoreOrder, WindowsOfTwoAreLeftOut};

use step_table::laws::unions_are_sets;
use window_fn::laws::{order_doesnt_matter, order_of_any_size_doesnt_matter};
use xfrac::laws::{
    joined_sums_stand_for_both, lcm_is_least, numbers_are_lowest, order_is_total,
    order_of_any_size, sums_of_any_size,
};

/// The cells of a partial aggregation, joined, agree with the aggregation of all rows, where engines share no labels, and so do
/// those of one engine alone: of fractions in lowest terms, whatever their size. Two steps agree where they are equal or both have the mark Overflow.
pub fn partials_agree()
    ensures engines { PartialsAgree }
    ensures one { OneEngineAgrees }
{
    joined_sums_stand_for_both();
    sums_of_any_size();
    lcm_is_least();
    numbers_are_lowest();
    order_is_total();
    order_of_any_size();
    order_of_any_size_doesnt_matter();
    unions_are_sets();
}

/// Counts that are merged are added as whole numbers, and never overflow.
pub fn counts_are_added()
    ensures { CountsAreAdded }
{}

/// Rows or windows of one engine are left as they are.
pub fn one_engine_is_itself()
    ensures rows { OneEnginesRows }
    ensures windows { OneEnginesWindows }
{}

/// Rows and windows whose labels are given several times are left out, with the mark SameLabelset of these labels; so are those
/// that two engines give.
pub fn shared_labels_are_left_out()
    ensures rows { SharedRowsAreLeftOut }
    ensures windows { SharedWindowsAreLeftOut }
    ensures rows_of_two { RowsOfTwoAreLeftOut }
    ensures windows_of_two { WindowsOfTwoAreLeftOut }
{
    unions_are_sets();
}

/// What is joined doesn't depend on the order of engines: rows and windows where their marks are sets, an aggregation's cells where
/// they are sound as well. Those that an engine owes of numbers are.
pub fn engines_order_doesnt_matter()
    ensures rows { RowsIgnoreOrder }
    ensures windows { WindowsIgnoreOrder }
    ensures partials { PartialsIgnoreOrder }
    ensures sound { OwedIsSound }
{
    joined_sums_stand_for_both();
    sums_of_any_size();
    lcm_is_least();
    numbers_are_lowest();
    order_of_any_size_doesnt_matter();
    unions_are_sets();
}

/// The cell of a group doesn't depend on the order of its values.
pub fn cells_ignore_order()
    ensures { CellIgnoresOrder }
{
    joined_sums_stand_for_both();
    sums_of_any_size();
    lcm_is_least();
    numbers_are_lowest();
    order_doesnt_matter();
}
