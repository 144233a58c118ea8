//! Laws of a gather. The functions do nothing: each stands for what its contract says.
ghost use Rattle.op_gather.specs.Joins.{SetsStay};
ghost use Rattle.op_gather.specs.Laws.{NoEngineGivesNothing, RoomIsLeft};

/// While an instant is left whose step isn't kept of each engine, some engine has room, so that there is one to pull.
pub fn room_is_left()
    ensures { RoomIsLeft }
{}

/// Where no engine is asked, each instant that is left is ready at once, and what is lent there has no row, window, mark or note.
pub fn no_engine_gives_nothing()
    ensures { NoEngineGivesNothing }
{}

/// Marks and notes that are sets, as those of an engine that gives what it owes, are joined as they are.
pub fn sets_stay()
    ensures { SetsStay }
{}
