//! Worked command lines.
ghost use Rattle.command_line.specs.Worked.{Worked};

/// What some command lines ask for, and which faults wrong ones have.
pub fn worked_lines()
    ensures { Worked }
{}
