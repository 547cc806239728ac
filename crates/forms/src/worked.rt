// Worked cases of the forms.
ghost use Rattle.forms.specs.Laws.{Worked};

/// What some dates, ends, UIDs and times come to.
pub fn worked_cases()
    ensures { Worked }
{}
