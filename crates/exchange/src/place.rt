ghost use Rattle.std.specs.Prelude.{◌≡◌, ◌<◌, Some, length, slice_get};

use label_set::Items;
use op_gather::Gather;

/// An ask that was made of an engine: the engine, counted from 0, and the ask's place in the engine's list.
#[derive(Clone, Copy, Debug, PartialEq, Eq)]
pub(crate) struct Asking {
    pub engine: u32,
    pub place: usize,
}

/// A gather, and the asks whose steps it joins.
#[derive(Drop)]
pub(crate) struct Place {
    pub gather: Gather,
    pub asks: Items<Asking>,
}

/// The ask at a place of a list, counted from 0.
pub(crate) fn asking_at(asks: &Items<Asking>, k: usize) -> Asking
    requires { k < length asks.now }
    ensures { slice_get asks.now k ≡ Some result }
{
    asks.as_slice()[k]
}
