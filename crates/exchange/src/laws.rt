//! Laws of an exchange. The functions do nothing: each stands for what its contract says.
ghost use Rattle.exchange.specs.InOrder.{AsksAreInOrder};
ghost use Rattle.exchange.specs.Laws.{NothingIsLeft};

/// Once all instants of a gather were taken, an engine that tells what it holds has no step left to give of its ask.
pub fn nothing_is_left()
    ensures { NothingIsLeft }
{}

/// What is asked for first begins first in the query, and what begins together is asked for as it was added.
pub fn asks_are_in_order()
    ensures { AsksAreInOrder }
{}
