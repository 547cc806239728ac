// A record that was found to be a schedule.
ghost use Rattle.std.specs.Prelude.{◌≡◌, true, IsTrue, Some, codes};
ghost use Rattle.schedule.specs.Records.{is_schedule, blank_record};

use crate::key::Key;
use crate::record::{CALLS, Record};
use cif::content::Location;
use forms::end::End;
use forms::letters::Stp;
use std::error::Error;
use std::fmt;

/// A schedule has the properties of every schedule that exists. It is passed by value or written whole, and never lies in a
/// slot. docs/schedules.md has the rules.
#[derive(Clone, Copy, Debug, PartialEq, Eq)]
pub struct Schedule {
    pub(crate) fields: Record,
    ghost valid: { IsTrue (is_schedule fields) },
}

impl Schedule {
    ghost use Rattle.std.specs.Bool.{OnTrue, OnFalse};
    ghost use Rattle.schedule.specs.Schedules.{record_of};

    /// A schedule to be written over: a permanent one of day 0 that never runs, without calls, and blank.
    pub fn blank() -> Schedule
        ensures { record_of result ≡ blank_record }
    {
        let filler = Location {
            tiploc: *b"       ",
            suffix: b' ',
            arrival: None,
            departure: None,
            platform: *b"   ",
        };
        let fields = Record {
            key: Key {
                uid: 0,
                from: 0,
                stp: Stp::Permanent,
            },
            to: End::Day(0),
            days: [false; 7],
            train: *b"    ",
            operator: *b"  ",
            destination: *b"       ",
            calls: [filler; CALLS],
            count: 0,
        };
        Schedule { fields }
    }

    /// The record that holds the schedule, where it lies.
    pub fn record(&self) -> &Record
        ensures { result.now ≡ record_of self.now }
    {
        &self.fields
    }

    /// Becomes the schedule that a record holds, if it holds one, and says whether it does.
    pub fn set(&mut self, fields: &Record) -> bool
        ensures told { result ≡ is_schedule fields.now }
        ensures set { OnTrue result (record_of self.new ≡ fields.now) }
        ensures unchanged { OnFalse result (self.new ≡ self.old) }
    {
        if !fields.is_schedule() {
            return false;
        }
        self.fields = *fields;
        true
    }
}

// The record that holds a schedule.
impl From<Schedule> for Record {
    ghost use Rattle.schedule.specs.Schedules.{record_of};

    ghost from_gives = { λ s r. r ≡ record_of s };

    fn from(schedule: Schedule) -> Record {
        schedule.fields
    }
}

/// A record that was found to be no schedule.
#[derive(Clone, Copy, Debug, PartialEq, Eq)]
pub struct NotASchedule;

impl fmt::Display for NotASchedule {
    ghost output = { λ _. Some (codes "the record is not that of a schedule") };

    fn fmt<W: fmt::Write>(&self, f: &mut fmt::Formatter<W>) -> fmt::Result {
        f.write_str("the record is not that of a schedule")
    }
}

impl Error for NotASchedule {}
