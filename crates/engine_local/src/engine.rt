//! The engine.
ghost use Rattle.engine_local.specs.Local.{seen_of};
ghost use Rattle.std.specs.Prelude.{◌≡◌, [], None, false};

use crate::asks::add_ask;
use crate::own::OwnAsk;
use crate::pulling::{Front, next_steps};
use label_set::Labels;
use match_rule::Patterns;
use remote_api::{Engine, EngineFail, Frame, Part, Pulled};
use sample_store::Store;
use std::alloc::{AllocError, Global};
use std::marker::Model;
use ticks::{Grid, Ms, Walk, walks_are_listed, walks_keep_to_times};
use xfrac::Held;

/// An engine over samples of its own. It tells all that it holds, gives just what it owes, and never fails; the only error is want of
/// memory.
#[derive(Drop)]
pub struct LocalEngine {
    alloc: Global,
    store: Store,
    declared: Option<Labels>,
    asks: Vec<OwnAsk>,
    spent: bool,
}

impl Model for LocalEngine {
    ghost use Rattle.engine_local.specs.Local.{AreAllowed, Local};
    ghost use Rattle.promql_ast.specs.contracts.tree.Expr as expr;
    ghost use Rattle.promql_ast.specs.contracts.tree.Node as node;
    ghost use Rattle.std.specs.Coded.{codes};
    ghost use Rattle.ticks.specs.contracts.walk.Walk as walk;

    ghost Value = { Local };

    ghost coded = { Prim.hlevel (codes, expr.the_row.coded, node.the_row.coded, walk.the_row.coded) };

    ghost view = { λ e. record { samples = e.store; declared = e.declared; asks = e.asks.items; spent = e.spent } };

    ghost invariant = { λ e. AreAllowed e.asks.items };
}

impl LocalEngine {
    /// An engine without samples, to which no labels are declared and of which nothing was asked. It takes no memory.
    pub fn new(alloc: Global) -> LocalEngine
        ensures samples { result.samples ≡ [] }
        ensures declared { result.declared ≡ None }
        ensures asks { result.asks ≡ [] }
        ensures going { result.spent ≡ false }
    {
        LocalEngine {
            alloc,
            store: Store::new(alloc),
            declared: None,
            asks: Vec::new(alloc),
            spent: false,
        }
    }
}

impl Engine for LocalEngine {
    ghost seen = { seen_of };

    #[tactic(none)]
    fn declare(&mut self, labels: &Labels) -> Result<(), EngineFail> {
        match labels.copy() {
            Ok(labels) => {
                self.declared = Some(labels);
                Ok(())
            }
            Err(AllocError) => Err(EngineFail::Memory),
        }
    }

    #[tactic(none)]
    fn load(&mut self, labels: &Labels, at: Ms, held: &Held) -> Result<(), EngineFail> {
        match self.store.append(labels, at, held) {
            Ok(()) => {}
            Err(_) => return Err(EngineFail::Memory),
        }
        Ok(())
    }

    #[tactic(none)]
    fn clear(&mut self) {
        self.store.clear();
    }

    #[tactic(none)]
    fn begin(&mut self) {
        self.asks.clear();
        self.spent = false;
    }

    #[tactic(none)]
    fn ask(
        &mut self,
        part: &Part,
        walk: &Walk,
        span: &Grid,
        patterns: &mut Patterns<'_>,
    ) -> Result<usize, EngineFail> {
        walks_are_listed();
        match add_ask(&mut self.asks, self.alloc, part, walk, span, patterns) {
            Ok(place) => Ok(place),
            Err(AllocError) => {
                self.spent = true;
                Err(EngineFail::Memory)
            }
        }
    }

    #[tactic(none)]
    fn pull(
        &mut self,
        ask: usize,
        most: u32,
        patterns: &mut Patterns<'_>,
        frame: &mut Frame,
    ) -> Result<Pulled, EngineFail> {
        walks_are_listed();
        walks_keep_to_times();
        if self.asks[ask].next.is_none() {
            return Ok(Pulled::End);
        }
        match next_steps(self.alloc, &self.store, &self.asks[ask], most, patterns) {
            Ok(front) => {
                let Front { steps, next } = front;
                self.asks[ask].go_on(steps.as_slice().len(), next);
                *frame = Frame { steps };
                Ok(Pulled::Frame)
            }
            Err(AllocError) => {
                self.spent = true;
                Err(EngineFail::Memory)
            }
        }
    }
}
