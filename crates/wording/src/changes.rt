//! Keys, schedules and transactions, in plain words.
ghost use Rattle.std.specs.Prelude.{Some};
ghost use Rattle.wording.specs.Changes.{key_text, to_text, record_text, change_text};

use crate::words::{DaysRun, NO_END, Text, Uid};
use forms::end::End;
use schedule::key::Key;
use schedule::record::Record;
use schedule::transaction::Change;
use std::fmt;
use std::fmt::{Display, Formatter};

/// Displays the key of a schedule: the UID, the STP letter, and the number of the first day.
#[derive(Clone, Copy)]
pub struct KeyWords(pub Key);

impl Display for KeyWords {
    ghost output = { λ words. Some (key_text words.0) };

    fn fmt<W: fmt::Write>(&self, f: &mut Formatter<W>) -> fmt::Result {
        let key = self.0;
        let uid = Uid(key.uid);
        let letter = key.stp.letter() as char;
        let day = key.from;
        write!(f, "{uid} {letter} day {day}")
    }
}

// The number of the last day, or that there is none.
#[derive(Clone, Copy)]
struct To(End);

impl Display for To {
    ghost output = { λ to. Some (to_text to.0) };

    fn fmt<W: fmt::Write>(&self, f: &mut Formatter<W>) -> fmt::Result {
        match self.0 {
            End::Day(last) => write!(f, "to day {last}"),
            End::Never => f.write_str(NO_END),
        }
    }
}

/// Displays a schedule on one line: its key, the number of its last day or that it has none, the days run, identity,
/// operator and destination, and how many calls it has.
#[derive(Clone, Copy)]
pub struct RecordWords<'a>(pub &'a Record);

impl Display for RecordWords<'_> {
    ghost output = { λ words. Some (record_text words.0.now) };

    fn fmt<W: fmt::Write>(&self, f: &mut Formatter<W>) -> fmt::Result {
        let key = KeyWords(self.0.key);
        let end = To(self.0.to);
        let days = DaysRun(&self.0.days);
        let train = Text(&self.0.train);
        let operator = Text(&self.0.operator);
        let destination = Text(&self.0.destination);
        let calls = self.0.count;
        write!(f, "{key} {end}, runs {days}, identity \"{train}\"")?;
        write!(
            f,
            ", operator \"{operator}\", destination \"{destination}\", calls {calls}"
        )
    }
}

/// Displays a transaction on one line: `new` or `revised` and the schedule, or `deleted` and the
/// key.
#[derive(Clone, Copy)]
pub struct ChangeWords<'a>(pub &'a Change);

impl Display for ChangeWords<'_> {
    ghost output = { λ words. Some (change_text words.0.now) };

    fn fmt<W: fmt::Write>(&self, f: &mut Formatter<W>) -> fmt::Result {
        match self.0 {
            Change::New(fields) => {
                let words = RecordWords(fields);
                write!(f, "new {words}")
            }
            Change::Revise(fields) => {
                let words = RecordWords(fields);
                write!(f, "revised {words}")
            }
            Change::Delete(key) => {
                let words = KeyWords(*key);
                write!(f, "deleted {words}")
            }
        }
    }
}
