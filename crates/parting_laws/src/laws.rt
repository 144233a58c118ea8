//! Laws of engines that hold a part of the samples each. The functions do nothing: each stands for what its contract says.
ghost use Rattle.parting_laws.specs.Agreeing.{AgreeingEndAlike};
ghost use Rattle.parting_laws.specs.Gathers.{AllRowsAreGathered, GroupsAreGathered, RowsAreGathered, UnaskedGivesNothing, WindowsAreGathered};
ghost use Rattle.parting_laws.specs.LocalLaws.{ConstantsStay, ElementsAreParted, HistogramsAreParted, LabelJoinsAreParted, LeftScalarsAreParted, ParensAreParted, QuantilesAreParted, RangesAreParted, ReplacementsAreParted, RightScalarsAreParted, SelectionsDecide, SelectorsAreParted, SignsAreParted, SortsAreParted, SubqueriesAreParted, TimestampsAreParted, WindowFunctionsAreParted};
ghost use Rattle.parting_laws.specs.Locals.{LocalsAreParted};
ghost use Rattle.parting_laws.specs.PartLaws.{EnginesHoldParts, EnginesIgnoreName, MembersArePart, NoEngineHasNone, NothingIsParted, OneTakes, PutsStayParted, RangeGivesNothing, RangesJoin, SelectedArePart, SelectorGivesNothing, SelectorsJoin, StampsArePart, TimestampGivesNothing, TimestampsJoin, WindowsArePart};

use promql_meaning::laws::meanings_are_well_formed;
use step_cells::laws::partials_agree;
use step_table::laws::{steps_are_well_formed, unions_are_sets};

/// Where samples are parted over engines, each engine holds the part that has its declared labels, which tell nothing of the metric's
/// name; without engines there are no samples.
pub fn engines_hold_parts()
    ensures held { EnginesHoldParts }
    ensures names { EnginesIgnoreName }
    ensures none { NoEngineHasNone }
{}

/// Of engines whose labels may be declared one at most takes any labels. Samples are parted where engines have them as members; no
/// samples are parted over engines that hold none, and samples stay parted where some are put at the engine whose labels they have.
pub fn puts_stay_parted()
    ensures one { OneTakes }
    ensures members { MembersArePart }
    ensures nothing { NothingIsParted }
    ensures puts { PutsStayParted }
{}

/// Over a part of the samples a selector gives that part of its newest samples, that part of their times, and a range selector that
/// part of its windows.
pub fn selectors_are_parted()
    ensures rows { SelectedArePart }
    ensures times { StampsArePart }
    ensures windows { WindowsArePart }
{}

/// Where samples are parted over engines, what the engines give of a selector, of the timestamp of a selector, or of a range selector
/// is joined to what it gives over all samples, notes and marks as well.
pub fn selectors_join()
    ensures rows { SelectorsJoin }
    ensures times { TimestampsJoin }
    ensures windows { RangesJoin }
{
    unions_are_sets();
    steps_are_well_formed();
    meanings_are_well_formed();
}

/// Over no samples a selector, the timestamp of a selector and a range selector give nothing, which is what no cells come to.
pub fn no_samples_give_nothing()
    ensures rows { SelectorGivesNothing }
    ensures times { TimestampGivesNothing }
    ensures windows { RangeGivesNothing }
{}

/// An expression means the same over two lists of samples of which each of its selectors selects the same series; so one in which no
/// selector stands means the same over any samples.
pub fn selections_decide()
    ensures selections { SelectionsDecide }
    ensures constants { ConstantsStay }
{}

/// What a selector gives is parted as the samples are, and so are the windows of a range selector; parentheses change nothing.
pub fn leaves_are_parted()
    ensures selectors { SelectorsAreParted }
    ensures ranges { RangesAreParted }
    ensures parens { ParensAreParted }
{}

/// A sign or an element function of a parted expression is parted, where no selector stands in the other arguments.
pub fn elements_are_parted()
    ensures signs { SignsAreParted }
    ensures functions { ElementsAreParted }
{
    unions_are_sets();
}

/// An operator between a parted expression and a constant scalar is parted.
pub fn scalar_sides_are_parted()
    ensures right { RightScalarsAreParted }
    ensures left { LeftScalarsAreParted }
{
    unions_are_sets();
}

/// Sorted, or in the place of its values its times, a parted expression is parted.
pub fn sorts_and_times_are_parted()
    ensures sorts { SortsAreParted }
    ensures times { TimestampsAreParted }
{
    unions_are_sets();
}

/// A function of parted windows is parted, where no selector stands in its other argument.
pub fn window_functions_are_parted()
    ensures functions { WindowFunctionsAreParted }
    ensures quantiles { QuantilesAreParted }
{
    unions_are_sets();
}

/// The windows of a subquery of a parted expression are parted.
pub fn subqueries_are_parted()
    ensures { SubqueriesAreParted }
{
    unions_are_sets();
}

/// With a label made anew, where samples aren't parted by that one, a parted expression is parted.
pub fn labels_made_anew_are_parted()
    ensures replacements { ReplacementsAreParted }
    ensures joins { LabelJoinsAreParted }
{
    unions_are_sets();
}

/// Quantiles of the histograms of a parted expression are parted, where samples aren't parted by the label of bounds.
pub fn histograms_are_parted()
    ensures { HistogramsAreParted }
{
    unions_are_sets();
}

/// What a local expression gives is parted as the samples are.
pub fn locals_are_parted()
    ensures { LocalsAreParted }
{
    unions_are_sets();
}

/// Where samples are parted over engines, an engine that need not be asked for an expression has nothing to give of it; and what the
/// others give of a parted expression, of an aggregation over one, or of a range selector, is what it means over all samples, whether
/// those that need not be asked are left out or not.
pub fn engines_give_the_whole()
    ensures unasked { UnaskedGivesNothing }
    ensures rows { RowsAreGathered }
    ensures groups { GroupsAreGathered }
    ensures windows { WindowsAreGathered }
    ensures all { AllRowsAreGathered }
{
    unions_are_sets();
    meanings_are_well_formed();
    partials_agree();
}

/// Evaluations whose steps agree at each instant come to the same: Overflow is the least mark.
pub fn agreeing_steps_end_alike()
    ensures { AgreeingEndAlike }
{}
