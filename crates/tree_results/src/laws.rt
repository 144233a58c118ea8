//! A law of grids. The function does nothing: it stands for what its contract says.
ghost use Rattle.tree_results.specs.Drained.{GridsAreListed};

use ticks::instants_are_numbered;

/// The instants of a grid at which a query has its steps are those of the grid's walk, each once and in their order.
pub fn grids_are_listed()
    ensures { GridsAreListed }
{
    instants_are_numbered();
}
