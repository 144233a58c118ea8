//! Laws of the order of rows, on which users rely that go over rows in an order of their own. The functions do nothing: each
//! stands for what its contract says.
ghost use Rattle.step_table.specs.Shuffles.{CombinedIgnoresOrder, GroupsHaveAll, GroupsIgnoreOrder, MarksIgnoreOrder, NotesIgnoreOrder, OrIgnoresOrder, OutcomesIgnoreOrder, PairMarksIgnoreOrder, PairRowsIgnoreOrder, PairedIgnoresOrder, SettledIgnoresOrder, ShuffledIsPermutation, TableIsOneOrder};

/// A set of marks or notes doesn't depend on the order of its list.
pub fn sets_ignore_order()
    ensures marks { MarksIgnoreOrder }
    ensures notes { NotesIgnoreOrder }
{}

/// The groups of rows have all of them, whatever their order is: the same labels, and under each the same rows in another
/// order, which is what a permutation is.
pub fn groups_ignore_order()
    ensures groups { GroupsIgnoreOrder }
    ensures all { GroupsHaveAll }
    ensures permutation { ShuffledIsPermutation }
{}

/// What comes of rows doesn't depend on their order; a table has them in one order alone.
pub fn rows_ignore_order()
    ensures outcomes { OutcomesIgnoreOrder }
    ensures settled { SettledIgnoresOrder }
    ensures table { TableIsOneOrder }
{}

/// Nor does what an operator between vectors gives depend on the order of rows on either side.
pub fn sides_ignore_order()
    ensures rows { PairRowsIgnoreOrder }
    ensures marks { PairMarksIgnoreOrder }
    ensures paired { PairedIgnoresOrder }
    ensures combined { CombinedIgnoresOrder }
    ensures either { OrIgnoresOrder }
{}
