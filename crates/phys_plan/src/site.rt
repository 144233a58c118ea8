use plan_bases::Bases;
use std::alloc::Global;
use ticks::Grid;

/// What a tree is made over: the series of a plan's selectors, and a grid, whose start and end `@ start()` and `@ end()` stand for.
#[derive(Drop)]
pub(crate) struct Site<'a> {
    pub(crate) alloc: Global,
    pub(crate) bases: &'a Bases<'a>,
    pub(crate) span: &'a Grid,
}
