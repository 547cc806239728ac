//! What rows hold, in plain words.
ghost use Rattle.std.specs.Prelude.{◌≡◌, Some};
ghost use Rattle.std.specs.Fmt.{DisplaysOnOk};
ghost use Rattle.wording.specs.Rows.{train_text, day_text, end_text, time_text, coverage_text, header_text, kind_text, verb_text, schedule_text, running_text, told_text, location_text, unread_text, content_text};

use crate::words::{DaysRun, NO_END, Text, Uid, WEEKDAYS};
use cif::content::{Action, BasicSchedule, Content, Header, Location, Running};
use cif::identity::Identity;
use forms::end::End;
use forms::letters::{Coverage, Stp};
use std::fmt;
use std::fmt::{Display, Formatter};

// A train, by its UID and the UID's number.
#[derive(Clone, Copy)]
struct Train(u32);

impl Display for Train {
    ghost output = { λ train. Some (train_text train.0) };

    fn fmt<W: fmt::Write>(&self, f: &mut Formatter<W>) -> fmt::Result {
        let uid = Uid(self.0);
        let n = self.0;
        write!(f, "{uid} (number {n})")
    }
}

// A day by its number and weekday.
#[derive(Clone, Copy)]
struct Day((u16, u8));

impl Display for Day {
    ghost output = { λ day. Some (day_text day.0) };

    fn fmt<W: fmt::Write>(&self, f: &mut Formatter<W>) -> fmt::Result {
        let (number, weekday) = self.0;
        let name = WEEKDAYS.get(weekday as usize).unwrap_or(&"Sunday");
        write!(f, "day {number} ({name})")
    }
}

// The last day, by its number and weekday, or that there is none.
#[derive(Clone, Copy)]
struct Until(End);

impl Display for Until {
    ghost output = { λ until. Some (end_text until.0) };

    fn fmt<W: fmt::Write>(&self, f: &mut Formatter<W>) -> fmt::Result {
        match self.0 {
            End::Day(last) => {
                let day = Day((last, calendar::weekday(last)));
                write!(f, "to {day}")
            }
            End::Never => f.write_str(NO_END),
        }
    }
}

// A public time with its word, or that there is none.
#[derive(Clone, Copy)]
struct Time(&'static str, &'static str, Option<u16>);

impl Display for Time {
    ghost output = { λ time. Some (time_text time.0.now time.1.now time.2) };

    fn fmt<W: fmt::Write>(&self, f: &mut Formatter<W>) -> fmt::Result {
        match self.2 {
            Some(minute) => {
                let verb = self.0;
                let hours = minute / 60;
                let minutes = minute % 60;
                write!(f, "{verb} {hours:02}:{minutes:02}")
            }
            None => {
                let noun = self.1;
                write!(f, "no public {noun}")
            }
        }
    }
}

// The kind of schedule that an STP letter stands for.
fn kind(stp: Stp) -> &'static str
    ensures { result.now ≡ kind_text stp }
{
    match stp {
        Stp::Cancellation => "cancellation",
        Stp::ShortTerm => "new short-term train",
        Stp::Overlay => "overlay",
        Stp::Permanent => "permanent",
    }
}

// How much of the timetable an extract covers.
fn coverage(coverage: Coverage) -> &'static str
    ensures { result.now ≡ coverage_text coverage }
{
    match coverage {
        Coverage::Full => "full",
        Coverage::Update => "update",
    }
}

// What is done with a schedule.
fn verb(action: &Action) -> &'static str
    ensures { result.now ≡ verb_text action.now }
{
    match action {
        Action::New(_) => "new",
        Action::Revise(_) => "revised",
        Action::Delete => "deleted",
    }
}

// A header, by its references and how much it covers.
#[derive(Clone, Copy)]
struct HeaderWords<'a>(&'a Header);

impl Display for HeaderWords<'_> {
    ghost output = { λ words. Some (header_text words.0.now) };

    fn fmt<W: fmt::Write>(&self, f: &mut Formatter<W>) -> fmt::Result {
        let current = Text(&self.0.current);
        let last = Text(&self.0.last);
        let coverage = coverage(self.0.coverage);
        write!(
            f,
            "header: current reference \"{current}\", last reference \"{last}\", {coverage}"
        )
    }
}

// A BS row.
#[derive(Clone, Copy)]
struct ScheduleWords<'a>(&'a BasicSchedule);

impl Display for ScheduleWords<'_> {
    ghost output = { λ words. Some (schedule_text words.0.now) };

    fn fmt<W: fmt::Write>(&self, f: &mut Formatter<W>) -> fmt::Result {
        let verb = verb(&self.0.action);
        let train = Train(self.0.uid);
        let kind = kind(self.0.stp);
        let from = Day(self.0.from);
        write!(f, "{verb} schedule: train {train}, {kind}, from {from}")?;
        match &self.0.action {
            Action::New(running) | Action::Revise(running) => write_running(f, running),
            Action::Delete => Ok(()),
        }
    }
}

// How a train runs, behind its first day.
fn write_running<W: fmt::Write>(f: &mut Formatter<W>, running: &Running) -> fmt::Result
    ensures { DisplaysOnOk W.write_str_gives f.old result (Some (running_text running.now)) f.new }
{
    let end = Until(running.to);
    let days = DaysRun(&running.days);
    let train = Text(&running.train);
    write!(f, " {end}, runs {days}, identity \"{train}\"")
}

// A time after a comma, where there is one to tell.
fn write_time<W: fmt::Write>(f: &mut Formatter<W>, told: bool, time: Time) -> fmt::Result
    ensures { DisplaysOnOk W.write_str_gives f.old result
        (Some (told_text told (time_text time.0.now time.1.now time.2))) f.new }
{
    if told {
        write!(f, ", {time}")?;
    }
    Ok(())
}

// A place, with the words of its public times.
fn write_location<W: fmt::Write>(
    f: &mut Formatter<W>,
    role: &str,
    at: &Location,
    arrives: bool,
    departs: bool,
) -> fmt::Result
    ensures { DisplaysOnOk W.write_str_gives f.old result
        (Some (location_text role.now at.now arrives departs)) f.new }
{
    let tiploc = Text(&at.tiploc);
    let suffix = at.suffix as char;
    let platform = Text(&at.platform);
    write!(f, "{role} \"{tiploc}\", suffix \"{suffix}\"")?;
    write_time(f, arrives, Time("arrives", "arrival", at.arrival))?;
    write_time(f, departs, Time("departs", "departure", at.departure))?;
    write!(f, ", platform \"{platform}\"")
}

// What a row is of which no field is read.
fn unread(identity: Identity) -> &'static str
    ensures { result.now ≡ unread_text identity }
{
    match identity {
        Identity::ChangeEnRoute => "change on the way",
        Identity::TiplocInsert => "location inserted",
        Identity::TiplocAmend => "location amended",
        Identity::TiplocDelete => "location deleted",
        Identity::Association => "association",
        _ => "end of the extract",
    }
}

/// Displays what a row holds: the letters of its identity, and then its fields, or that no field is
/// read.
#[derive(Clone, Copy)]
pub struct Words<'a>(pub &'a Content);

impl Display for Words<'_> {
    ghost output = { λ words. Some (content_text words.0.now) };

    fn fmt<W: fmt::Write>(&self, f: &mut Formatter<W>) -> fmt::Result {
        match self.0 {
            Content::Header(header) => {
                let words = HeaderWords(header);
                write!(f, "HD {words}")
            }
            Content::Schedule(schedule) => {
                let words = ScheduleWords(schedule);
                write!(f, "BS {words}")
            }
            Content::Operator(operator) => {
                let operator = Text(operator);
                write!(f, "BX operator \"{operator}\"")
            }
            Content::Origin(at) => write_location(f, "LO origin", at, false, true),
            Content::Intermediate(at) => write_location(f, "LI call at", at, true, true),
            Content::Terminus(at) => write_location(f, "LT destination", at, true, false),
            Content::Unread(identity) => {
                let letters = <[u8; 2]>::from(*identity);
                let name = Text(&letters);
                let words = unread(*identity);
                write!(f, "{name} {words}: no field is read")
            }
        }
    }
}
