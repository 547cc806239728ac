// Until when a train runs.
ghost use Rattle.std.specs.Prelude.{◌≡◌};
ghost use Rattle.forms.specs.Ends.{lasts};

/// Until when a train runs: to a last day, or until further notice.
#[derive(Clone, Copy, Debug, PartialEq, Eq)]
pub enum End {
    /// It has a last day, told as a day number: 1 January 1960 is 0.
    Day(u16),
    /// It has no end.
    Never,
}

impl End {
    /// Whether it lasts to a day, a day number: its last day is that day or a later one, or it has no end.
    pub fn lasts(self, day: u16) -> bool
        ensures { result ≡ lasts self day }
    {
        match self {
            End::Day(last) => day <= last,
            End::Never => true,
        }
    }
}
