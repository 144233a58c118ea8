ghost use Rattle.std.specs.Prelude.{◌≡◌, ℕ, List, [], Option, None, IfSome, IsErrOf};
ghost use Rattle.edge_io.specs.Causes.{HasCause};
ghost use Rattle.edge_io.specs.Told.{Tells, IsEmptyUnlessWhole};
ghost use Rattle.edge_io.specs.declared.library.Fetch.TheVariants.{Failed};

use thiserror::Error;

/// How much of a file came.
#[derive(Clone, Copy, Debug, PartialEq, Eq)]
pub enum Fetched {
    /// All of its bytes.
    Whole,
    /// None, since it has more bytes than the limit.
    PastLimit,
}

/// Why a file didn't come.
#[derive(Clone, Copy, Debug, PartialEq, Eq, Error)]
pub enum Fetch {
    /// The library has no such file, or failed to read it.
    #[error("the file can't be read")]
    Failed,
    /// There is no memory left for its bytes.
    #[error("out of memory")]
    Memory,
}

/// Files by their paths. A library may tell what it has; then a fetch answers just that.
pub trait Library {
    /// The bytes of each path, where the library tells them.
    ghost told: { Self → Option (List ℕ → Option (List ℕ)) };

    /// How often a fetch has failed, a count that stands still at 2^64 - 1.
    ghost faults: { Self → ℕ };

    /// No path that is there fails.
    ghost sound: { Self → Type 0 };

    /// What a fetch of a path may make of the library: its state before, the path, and its state after. It is known only
    /// by its fetches, so whoever was handed a library has no other way from one state to another.
    ghost fetches: { Self → List ℕ → Self → Type 0 };

    /// Puts the bytes of the file at a path into an empty list, if it has at most `limit` bytes. The list stays empty
    /// after every other answer: `PastLimit` where the file has more bytes, `Failed` where it isn't there or can't be
    /// read, which counts as a fault, and `Memory` where there is none left.
    fn fetch(&mut self, path: &str, limit: usize, into: &mut Vec<u8>) -> Result<Fetched, Fetch>
        requires { into.old.items ≡ [] }
        ensures fetched { fetches self.old path.now self.new }
        ensures told { told self.new ≡ told self.old }
        ensures sound { sound self.old → sound self.new }
        ensures cause { HasCause (faults self.old) (faults self.new) (IsErrOf result Failed) }
        ensures empty { IsEmptyUnlessWhole result into.new.items }
        ensures tells { IfSome (told self.old) (λ files. Tells (files path.now) limit result into.new.items) }

        // A sound library that tells fails exactly where the path isn't there.
        ensures there { IfSome (told self.old) (λ files. sound self.old → IsErrOf result Failed → files path.now ≡ None) }
        ensures missing { IfSome (told self.old) (λ files. files path.now ≡ None → IsErrOf result Failed) };
}
