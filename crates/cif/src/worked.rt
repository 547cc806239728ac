// Worked cases of rows.
ghost use Rattle.cif.specs.Worked.{Worked};

/// The refusals are numbered from 1 to 18; BS rows are read or refused by their transaction, first day and end; and rows with a time
/// that is none are refused with 5 at its column.
pub fn worked_cases()
    ensures { Worked }
{}
