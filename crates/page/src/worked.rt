// Worked cases, in one table.
ghost use Rattle.page.specs.Worked.{Worked};

/// The worked cases of fields, rows and trains, the row of an example line, headings by local name
/// and TIPLOC, which lines are shown, and a whole page.
pub fn worked_cases()
    ensures { Worked }
{}
