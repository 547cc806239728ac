// Worked cases, in one table.
ghost use Rattle.running.specs.Worked.{Worked};

/// What some dates, ends, UIDs and times come to, where rows with an end or a time that is none are refused, and which schedules of a
/// train are in force in a worked week, and where some of them have no end.
pub fn worked_cases()
    ensures { Worked }
{}
