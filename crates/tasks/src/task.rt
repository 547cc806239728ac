//! The tasks, with what each is given.
ghost use Rattle.std.specs.Prelude.{◌≡◌, option_map};
ghost use Rattle.forms.specs.Forms.{date_in};

use crate::store::StoreKind;
use forms::numbers::date;

/// A board that is asked for, over a store of so many slots.
#[derive(Clone, Copy)]
pub struct Wanted<'a> {
    /// Which store it is over.
    pub store: StoreKind,
    /// How many slots the store has, at most 65,536.
    pub slots: usize,
    /// The word for its station.
    pub station: &'a str,
    /// The word for its date, as YYMMDD.
    pub date: &'a str,
}

impl<'a> Wanted<'a> {
    /// The number of the day that is wanted, counted from 1 January 1960, if its date of YYMMDD
    /// names one.
    pub fn day(&self) -> Option<u32>
        ensures { result ≡ option_map (λ day. day.0) (date_in self.now.date.now) }
    {
        date(self.date.as_bytes()).map(|(day, _)| u32::from(day))
    }
}

/// The page of a board that is asked for.
#[derive(Clone, Copy)]
pub struct WantedPage<'a> {
    /// The local name that heads it, of no byte where none is given.
    pub name: &'a str,
    /// The minute from which on it shows departures, 60 × HH + MM of its word, at most 6,039.
    pub minute: u32,
    /// The word for that minute, as HH:MM.
    pub at: &'a str,
    /// The name of the file that it is written to as a picture, if one is given.
    pub svg: Option<&'a str>,
}

/// What is done over one store, with the names of the files.
#[derive(Drop)]
pub enum Work<'a> {
    /// The schedules of the files are put into it, and a board is printed.
    Board(Vec<&'a str>),
    /// The same, and the board is turned so many times.
    Turns(u64, Vec<&'a str>),
    /// The schedules of the files are put into it, and the page of a board is written so many
    /// times.
    Pages(u64, Vec<&'a str>),
    /// The schedules of the base are put into it, if one is named, and the extracts of the files
    /// are taken and abandoned.
    Extracts(Option<&'a str>, Vec<&'a str>),
    /// The extracts of the files are taken and confirmed, and a board is printed.
    Run(Vec<&'a str>),
    /// The extracts of the files are taken and confirmed, and the page of a board is printed.
    Glass(WantedPage<'a>, Vec<&'a str>),
}

/// A task with the names of its files.
#[derive(Drop)]
pub enum Task<'a> {
    /// Tells what each row of the files holds.
    Rows(Vec<&'a str>),
    /// Does the calls of the scripts.
    Replay(Vec<&'a str>),
    /// Puts the schedules of the files into both stores, each with so many slots, at most 65,536.
    Stores(usize, Vec<&'a str>),
    /// Works over one store.
    OverStore(Wanted<'a>, Work<'a>),
}
