//! What is chosen for an evaluation.
ghost use Rattle.query_engine.specs.Planning.{choices_of};
ghost use Rattle.std.specs.Prelude.{◌≡◌};

use plan_rewrites::Choices;

/// What is chosen for an evaluation. Only the edge changes answers. (The rewrites are those of thanos-io/promql-engine.)
#[derive(Clone, Copy, Debug, PartialEq, Eq)]
pub struct Options {
    /// The rules of each selector are ordered.
    pub sort: bool,
    /// The sides of an arithmetic operator hand each other their rules.
    pub propagate: bool,
    /// A selector stands over another one that has a part of its rules.
    pub merge: bool,
    /// Sorts that order nothing that is seen go.
    pub trim: bool,
    /// An average is a sum divided by a count.
    pub avg: bool,
    /// Parts of a query are computed where their samples are. Without engines it changes nothing.
    pub remote: bool,
    /// The most instants that are computed at once, from 1 to 1,024.
    pub batch: u32,
    /// Each window has its left edge too, those of selectors and those of subqueries, as in Prometheus 2.
    pub closed: bool,
}

impl Options {
    /// The rewrites that are chosen.
    pub(crate) fn choices(&self) -> Choices
        ensures { result ≡ choices_of self.now }
    {
        Choices {
            sort: self.sort,
            propagate: self.propagate,
            merge: self.merge,
            trim: self.trim,
            avg: self.avg,
        }
    }
}
