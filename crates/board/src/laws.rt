// Laws of boards.
ghost use Rattle.board.specs.Lines.{SameCandidatesSameBoard, BoardIsOne, LinesOfTrainAlone, InForceHides, CancelledHides};
ghost use Rattle.board.specs.Strikes.{UnnamedLinesStay};

/// The same candidates, the same board: by any two rules that say which days a schedule covers, in any two maps.
pub fn same_candidates_same_board()
    ensures { SameCandidatesSameBoard }
{}

/// The rules of a board leave no choice of its lines.
pub fn board_is_one()
    ensures { BoardIsOne }
{}

/// The lines of a train depend on the schedules of that train alone.
pub fn lines_of_train_alone()
    ensures { LinesOfTrainAlone }
{}

/// An overlay in force with no public departure at a station leaves its train without lines there.
pub fn in_force_hides()
    ensures { InForceHides }
{}

/// A train whose schedule in force is a cancellation has no lines.
pub fn cancelled_hides()
    ensures { CancelledHides }
{}

/// Where two maps differ in the schedules of some trains only, their boards differ in the lines of these trains only.
pub fn unnamed_lines_stay()
    ensures { UnnamedLinesStay }
{}
