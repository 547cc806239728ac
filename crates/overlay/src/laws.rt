//! Laws of transactions that are done to a map.
ghost use Rattle.overlay.specs.Laws.{TrainsDecide, UnnamedKeep};
ghost use Rattle.overlay.specs.Settling.{RoomForAll};

/// Transactions that are the same list for each train make one map, in whatever order the trains come.
pub fn trains_decide()
    ensures { TrainsDecide }
{}

/// A train that no transaction names keeps its schedules.
pub fn unnamed_keep()
    ensures { UnnamedKeep }
{}

/// Where each of some transactions may be done, a store that they are tried on has all of them done.
pub fn room_for_all()
    ensures { RoomForAll }
{}
