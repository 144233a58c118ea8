//! Laws of trees. The functions do nothing: each stands for what its contract says.
ghost use Rattle.plan_tree.specs.Counting.{FreshTreesHaveFetchedNothing};
ghost use Rattle.plan_tree.specs.RunLaws.{CallsFollow, NoCallHasGone};
ghost use Rattle.plan_tree.specs.Laws.{EachTreeHasOneBound, FreshTreesBegin, MarksAreSets, PlainTreesBegin, ScalarsHaveOneRow, SpendingIsBounded, TurnsAreTheWalk};

use step_kernels::laws::{marks_stay_sets, scalars_stay};
use ticks::walks_are_listed;

/// A scalar has one row at most at each instant.
pub fn scalars_have_one_row()
    ensures { ScalarsHaveOneRow }
{
    scalars_stay();
}

/// The marks and notes of what a tree gives are sets, where those of its gathers are.
pub fn marks_are_sets()
    ensures { MarksAreSets }
{
    marks_stay_sets();
}

/// The instants of a tree's turns are those of its walk, each once, in their order and none left out.
pub fn turns_are_the_walk()
    ensures { TurnsAreTheWalk }
{
    walks_are_listed();
}

/// A tree whose subqueries' walks lead to times has a bound, and only one.
pub fn each_tree_has_one_bound()
    ensures { EachTreeHasOneBound }
{
    walks_are_listed();
}

/// What the leaves of a tree may have read when it was fed the first instants of a walk is within the bound over the walk.
pub fn spending_is_bounded()
    ensures { SpendingIsBounded }
{
    turns_are_the_walk();
}

/// A tree that was fed nothing has spent nothing, whatever the counters are.
pub fn fresh_trees_begin()
    ensures { FreshTreesBegin }
{}

/// The leaves of a tree that was fed nothing were given nothing.
pub fn fresh_trees_have_fetched_nothing()
    ensures { FreshTreesHaveFetchedNothing }
{}

/// A tree without gathers, which was fed nothing, may go on whatever engines there are.
pub fn plain_trees_begin()
    ensures { PlainTreesBegin }
{}

/// Turns one after another make of engines what one turn does: none holds anything else, faults haven't fallen, and a fault is answered
/// only of an engine that has failed or strayed since the first.
pub fn turns_follow()
    ensures none { NoCallHasGone }
    ensures follow { CallsFollow }
{}
