//! Laws of steps that users rely on. The functions do nothing: each stands for what its contract says.
ghost use Rattle.step_table.specs.LabelLimits.{PairLabelsAreWithin};
ghost use Rattle.step_table.specs.Laws.{AndUnlessPart, CombinedIsWellFormed, GroupListTakesOver, OrOfItself, PairedIsWellFormed, PlusExchangesPairs, PlusExchangesRows, PlusIsExchanged, PlusKeepsSignature, SettledIsWellFormed, TakenHasSets, TakenIsTable, UnionHasMarks, UnionHasNotes, UnionIsSet};

use xfrac::laws::sum_ignores_order;

/// A union of notes and marks is a set, and has what either has.
pub fn unions_are_sets()
    ensures set { UnionIsSet }
    ensures marks { UnionHasMarks }
    ensures notes { UnionHasNotes }
{}

/// Every call keeps steps well formed: rows by their labels, no two with equal labels, and notes and marks as sets.
pub fn steps_are_well_formed()
    ensures settled { SettledIsWellFormed }
    ensures taken { TakenHasSets }
    ensures table { TakenIsTable }
    ensures paired { PairedIsWellFormed }
    ensures combined { CombinedIsWellFormed }
{}

/// `and` and `unless` part the left rows.
pub fn and_unless_part()
    ensures { AndUnlessPart }
{}

/// `or` of a vector with itself is the vector.
pub fn or_of_itself()
    ensures { OrOfItself }
{}

/// One to one, a sum of two vectors without marks is the same with its sides exchanged, and so is that of two rows with
/// equal signatures; its labels are those that both keep.
pub fn plus_is_exchanged()
    ensures labels { PlusKeepsSignature }
    ensures pairs { PlusExchangesPairs }
    ensures rows { PlusExchangesRows }
    ensures steps { PlusIsExchanged }
{
    sum_ignores_order();
}

/// The labels of a grouped pair are the one side's under the names of the group list, and else the many side's.
pub fn group_list_is_taken_over()
    ensures { GroupListTakesOver }
{}

/// The labels of a pair are its whole set of labels; there are none exactly where that would pass a limit of labels.
pub fn pair_labels_are_within()
    ensures { PairLabelsAreWithin }
{}
