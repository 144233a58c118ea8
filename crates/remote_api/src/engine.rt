//! Engines behind a trait.
ghost use Rattle.remote_api.specs.Seen.{EngineSeen, HasAsked, HasDeclared, HasLoaded, HasPulled, IsBegun, IsCleared, MayAsk, MayDeclare, MayLoad, MayPull};
ghost use Rattle.std.specs.Prelude.{◌≡◌, ◌≤◌, []};

use crate::asks::Part;
use crate::frame::Frame;
use label_set::Labels;
use match_rule::Patterns;
use thiserror::Error;
use ticks::{Grid, Ms, Walk};
use xfrac::Held;

/// Why an engine didn't do what it was called for.
#[derive(Clone, Copy, Debug, PartialEq, Eq, Error)]
pub enum EngineFail {
    /// The engine failed, which counts as a fault.
    #[error("the engine failed")]
    Failed,
    /// Memory ran out.
    #[error("out of memory")]
    Memory,
}

/// What came of a pull.
#[derive(Clone, Copy, Debug, PartialEq, Eq)]
pub enum Pulled {
    /// Steps, which are in the frame now.
    Frame,
    /// None, and none will come.
    End,
}

/// Holds a part of the samples, and evaluates over them what it is asked. What an engine gives comes by pulls: a pull gives some of
/// the next steps of one ask. An engine may tell what it holds; then it gives just what it owes.
pub trait Engine: Drop {
    /// What is seen of an engine: what it holds, where it tells; its asks since `begin`; and its counts of faults and strays, which
    /// stand still at 2^64 - 1.
    ghost seen: { Self → EngineSeen };

    /// Declares labels that all series of this engine have. After an error none are declared.
    fn declare(&mut self, labels: &Labels) -> Result<(), EngineFail>
        requires { MayDeclare (seen self.old) }
        ensures { HasDeclared labels.now result (seen self.old) (seen self.new) };

    /// Adds a sample at a time in milliseconds; an equal one is taken twice. After an error it isn't there.
    fn load(&mut self, labels: &Labels, at: Ms, held: &Held) -> Result<(), EngineFail>
        requires { MayLoad labels.now at held.now (seen self.old) }
        ensures { HasLoaded labels.now at held.now result (seen self.old) (seen self.new) };

    /// Drops all samples. It takes no memory and can't fail.
    fn clear(&mut self)
        requires { (seen self.old).asks ≡ [] }
        ensures { IsCleared (seen self.old) (seen self.new) };

    /// Forgets all asks. It takes no memory and can't fail.
    fn begin(&mut self)
        ensures { IsBegun (seen self.old) (seen self.new) };

    /// Asks for the cells of a part at the instants of a walk, in a query over a grid, and answers the place of the ask, counted
    /// from 0. The patterns stay as they are. After `Memory` neither `ask` nor `pull` may be called until `begin`.
    fn ask(
        &mut self,
        part: &Part,
        walk: &Walk,
        span: &Grid,
        patterns: &mut Patterns<'_>,
    ) -> Result<usize, EngineFail>
        requires { MayAsk part.now walk.now span.now patterns.old (seen self.old) }
        ensures same { patterns.new ≡ patterns.old }
        ensures asked { HasAsked part.now walk.now span.now patterns.old result (seen self.old) (seen self.new) };

    /// Moves one to `most` of the next steps of an ask into an empty frame, or answers that none is left; the patterns are those of
    /// the ask, and stay as they are. After `Memory` neither `ask` nor `pull` may be called until `begin`.
    fn pull(
        &mut self,
        ask: usize,
        most: u32,
        patterns: &mut Patterns<'_>,
        frame: &mut Frame,
    ) -> Result<Pulled, EngineFail>
        requires may { MayPull ask patterns.old (seen self.old) }
        requires some { 1 ≤ most }
        requires empty { frame.old.steps ≡ [] }
        ensures same { patterns.new ≡ patterns.old }
        ensures pulled { HasPulled ask most frame.new.steps result (seen self.old) (seen self.new) };
}
