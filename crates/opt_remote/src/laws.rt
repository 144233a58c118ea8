//! Laws of plans whose selectors engines are asked for. The functions do nothing: each stands for what its contract says.
ghost use Rattle.opt_remote.specs.Laws.{AllAreAsked, AllEnginesRise, GatheredPlansAreServed, NoSelectorIsLeft, OncesAreKept, SelectorsKeepMeaning, StoresAreNotRead, TypesAreKept, ValidityIsKept};

use logical_plan::plans_mean_their_trees;
use parting_laws::laws::{
    engines_give_the_whole, leaves_are_parted, selectors_join, sorts_and_times_are_parted,
};

/// Where the samples of a query are parted over its engines, each selector that all of them are asked for means what it meant, rows,
/// notes and marks.
pub fn gathered_selectors_keep_meaning()
    ensures { SelectorsKeepMeaning }
{
    plans_mean_their_trees();
    leaves_are_parted();
    sorts_and_times_are_parted();
    selectors_join();
    engines_give_the_whole();
}

/// Of a typed plan no selector is left beside the parts that engines are asked for; and where each part was a selector of which these
/// engines are asked, as it is where there was none, each of the new plan is one.
pub fn selectors_are_gathered()
    ensures none_left { NoSelectorIsLeft }
    ensures all_asked { AllAreAsked }
{}

/// A typed plan stays typed, and gives a scalar, a vector or windows as it did; a valid plan stays valid; and what stands under its
/// Once nodes stays the same at each instant.
pub fn gathered_plans_are_kept()
    ensures types { TypesAreKept }
    ensures validity { ValidityIsKept }
    ensures onces { OncesAreKept }
{}

/// Kernels serve a plan that they served over engines still where its selectors became parts, if these engines are asked in the order
/// of their numbers, as all of some are.
pub fn gathered_plans_are_served()
    ensures served { GatheredPlansAreServed }
    ensures rising { AllEnginesRise }
{}

/// A plan in which no selector is left means the same whatever samples stand in the store.
pub fn stores_are_not_read()
    ensures { StoresAreNotRead }
{}
