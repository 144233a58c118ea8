use holders::{Items, Text};
use label_set::Labels;
use ticks::Grid;

/// Which rewrites of plans are chosen.
#[derive(Clone, Copy, Debug)]
pub struct Optimisers {
    /// The rules of each selector are ordered.
    pub sort: bool,
    /// The sides of an arithmetic operator hand each other their rules.
    pub propagate: bool,
    /// A selector stands over another one that has a part of its rules.
    pub merge: bool,
    /// Sorts that order nothing that is seen go.
    pub trim: bool,
    /// An average is a sum divided by a count.
    pub avg: bool,
    /// Parts of a query are computed where their samples are. Without engines it changes nothing.
    pub remote: bool,
}

/// What is chosen for all evaluations.
#[derive(Clone, Copy, Debug)]
pub struct Choices {
    /// Each window has its left edge too, as under `--edges v2`.
    pub closed: bool,
    /// The most instants that are computed at once, from 1 to 1,024.
    pub batch: u32,
    /// The rewrites that a plan goes through.
    pub optimisers: Optimisers,
}

/// What the words of the program ask for. `engines` is what `--engines` declares, of which the k-th labels are for the k-th box of
/// engines; without the option it is empty.
#[derive(Debug, Drop)]
pub enum Asked {
    /// To judge the evaluations of these scripts, in this order.
    Test {
        choices: Choices,
        engines: Items<Labels>,
        files: Items<Text>,
    },
    /// To answer an expression over the samples that a script loads, at the instants of a grid. `instant` tells that
    /// it is an instant query, whose grid is one instant.
    Query {
        choices: Choices,
        engines: Items<Labels>,
        grid: Grid,
        instant: bool,
        file: Text,
        expr: Text,
    },
    /// To judge the evaluations of a script that is made of so many series.
    Workload {
        choices: Choices,
        engines: Items<Labels>,
        count: u32,
    },
    /// To print an expression in its canonical form.
    Format {
        expr: Text,
    },
    /// To print the plan of an expression behind the rewrites that are chosen, over these engines.
    Explain {
        optimisers: Optimisers,
        engines: Items<Labels>,
        expr: Text,
    },
}
