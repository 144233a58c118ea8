ghost use Rattle.std.specs.Prelude.{◌≡◌, ◌<◌, ◌≤◌, ℕ, List, length, take, Option, IfOk, OnOk, OnErr, IsErrOf};
ghost use Rattle.edge_io.specs.Causes.{HasCause};
ghost use Rattle.edge_io.specs.Written.{appended, WroteFront};
ghost use Rattle.edge_io.specs.declared.sink.SinkFail.TheVariants.{Failed, Memory};

use std::alloc::AllocError;
use thiserror::Error;

/// Why a sink took nothing.
#[derive(Clone, Copy, Debug, PartialEq, Eq, Error)]
pub enum SinkFail {
    /// The write failed.
    #[error("the write failed")]
    Failed,
    /// There is no memory left for the bytes.
    #[error("out of memory")]
    Memory,
}

impl From<AllocError> for SinkFail {
    ghost from_gives = { λ _ e. e ≡ Memory };

    fn from(_: AllocError) -> Self {
        SinkFail::Memory
    }
}

/// Where the report goes. A sink may tell the bytes that it has taken.
pub trait Sink {
    /// The bytes taken so far, where the sink tells them.
    ghost written: { Self → Option (List ℕ) };

    /// How often a write has failed, a count that stands still at 2^64 - 1.
    ghost faults: { Self → ℕ };

    /// No write fails.
    ghost sound: { Self → Type 0 };

    /// Takes bytes from the front of the piece and answers how many, at least one where there are any. Nothing is
    /// taken after `Failed`, which counts as a fault, and after `Memory`, where there is none left.
    fn write(&mut self, piece: &[u8]) -> Result<usize, SinkFail>
        ensures within { IfOk result (λ n. n ≤ length piece.now) }
        ensures some { IfOk result (λ n. 0 < length piece.now → 0 < n) }
        ensures took { IfOk result (λ n. written self.new ≡ appended (written self.old) (take n piece.now)) }
        ensures nothing { OnErr result (written self.new ≡ written self.old) }
        ensures cause { HasCause (faults self.old) (faults self.new) (IsErrOf result Failed) }
        ensures sound { sound self.old → sound self.new }
        ensures never { sound self.old → IsErrOf result Failed → ⊥ };
}

/// Writes a whole piece: what the sink didn't take of it is written next, until nothing is left. After `Failed`, which
/// comes only from the sink, and after `Memory` the sink has taken a front of the piece.
pub fn write_all<S: Sink>(sink: &mut S, piece: &[u8]) -> Result<(), SinkFail>
    ensures ok { OnOk result (S.written sink.new ≡ appended (S.written sink.old) piece.now) }
    ensures err { OnErr result (WroteFront (S.written sink.old) (S.written sink.new) piece.now) }
    ensures cause { HasCause (S.faults sink.old) (S.faults sink.new) (IsErrOf result SinkFail.Failed) }
    ensures sound { S.sound sink.old → S.sound sink.new }
    ensures never { S.sound sink.old → IsErrOf result SinkFail.Failed → ⊥ }
{
    let mut done = 0;
    while done < piece.len() {
        let (_, rest) = piece.split_at(done);
        done += sink.write(rest)?;
    }
    Ok(())
}
