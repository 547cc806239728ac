//! Texts, UIDs, days, faults and stages, in plain words.
ghost use Rattle.std.specs.Prelude.{◌≡◌, Some};
ghost use Rattle.wording.specs.Texts.{text_of, uid_text, days_text, fault_text};
ghost use Rattle.wording.specs.Words.{stage_named};

use cif::refusal::RowFault;
use extract::stage::Stage;
use std::fmt;
use std::fmt::{Display, Formatter};

// The weekdays in order, from 0.
pub(crate) const WEEKDAYS: [&str; 7] = [
    "Monday",
    "Tuesday",
    "Wednesday",
    "Thursday",
    "Friday",
    "Saturday",
    "Sunday",
];

// How a schedule with no end runs.
pub(crate) const NO_END: &str = "until further notice";

/// Displays bytes, each as the character of its number, so that bytes of ASCII are written as they
/// stand.
#[derive(Clone, Copy)]
pub struct Text<'a>(pub &'a [u8]);

impl Display for Text<'_> {
    ghost output = { λ text. Some (text_of text.0.now) };

    fn fmt<W: fmt::Write>(&self, f: &mut Formatter<W>) -> fmt::Result {
        for b in self.0 {
            f.write_char(*b as char)?;
        }
        Ok(())
    }
}

/// Displays a UID by its number: a letter, `A` for the numbers below 100,000, `B` for the next
/// 100,000 and so on, and five digits. From 2,600,000 on, which no UID has, the letters begin
/// again.
#[derive(Clone, Copy)]
pub struct Uid(pub u32);

impl Display for Uid {
    ghost output = { λ uid. Some (uid_text uid.0) };

    fn fmt<W: fmt::Write>(&self, f: &mut Formatter<W>) -> fmt::Result {
        let letter = (b'A' + (self.0 / 100_000 % 26) as u8) as char;
        let digits = self.0 % 100_000;
        write!(f, "{letter}{digits:05}")
    }
}

/// Displays the days of the week on which a train runs, Monday first: the first three letters of
/// each with a blank between two, or `on no day`.
#[derive(Clone, Copy)]
pub struct DaysRun<'a>(pub &'a [bool; 7]);

impl Display for DaysRun<'_> {
    ghost output = { λ days. Some (days_text days.0.now) };

    fn fmt<W: fmt::Write>(&self, f: &mut Formatter<W>) -> fmt::Result {
        let mut none = true;
        for (name, runs) in WEEKDAYS.iter().zip(self.0) {
            if *runs {
                let between = if none { "" } else { " " };
                write!(f, "{between}{name:.3}")?;
                none = false;
            }
        }
        if none {
            f.write_str("on no day")?;
        }
        Ok(())
    }
}

/// Displays a fault of a row: the number of its refusal, its column, counted from 1 or 0 for none,
/// and the row's identity.
#[derive(Clone, Copy)]
pub struct FaultWords<'a>(pub &'a RowFault);

impl Display for FaultWords<'_> {
    ghost output = { λ words. Some (fault_text words.0.now) };

    fn fmt<W: fmt::Write>(&self, f: &mut Formatter<W>) -> fmt::Result {
        let number = self.0.fault.refusal.number();
        let column = self.0.fault.column;
        let identity = Text(&self.0.identity);
        write!(
            f,
            "refused {number}, column {column}, identity \"{identity}\""
        )
    }
}

/// The name of a stage in small letters. No two stages have the same.
pub fn stage_name(stage: Stage) -> &'static str
    ensures { stage_named result.now ≡ Some stage }
{
    match stage {
        Stage::Idle => "idle",
        Stage::Between => "between",
        Stage::Begun => "begun",
        Stage::Extra => "extra",
        Stage::Running => "running",
        Stage::Changed => "changed",
        Stage::Complete => "complete",
    }
}
