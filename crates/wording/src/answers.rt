//! What calls answer, in plain words.
ghost use Rattle.std.specs.Prelude.{Some};
ghost use Rattle.wording.specs.Answers.{refused_text, line_text, answer_text};

use crate::words::{FaultWords, Text};
use board::line::Line;
use controller::answer::Answer;
use controller::fault::ExtractFault;
use std::fmt;
use std::fmt::{Display, Formatter};

/// Displays why a call was turned away: the fault, the number of the row, which is 0 where the call
/// was given none, and the words for the refusal.
#[derive(Clone, Copy)]
pub struct RefusedWords<'a>(pub &'a ExtractFault);

impl Display for RefusedWords<'_> {
    ghost output = { λ words. Some (refused_text words.0.now) };

    fn fmt<W: fmt::Write>(&self, f: &mut Formatter<W>) -> fmt::Result {
        let words = FaultWords(&self.0.fault);
        let place = self.0.row;
        let refusal = self.0.fault.fault.refusal;
        write!(f, "{words}, row {place}: {refusal}")
    }
}

/// Displays a line of a board: its departure as hours and minutes, two digits each, then
/// destination, platform, operator and identity.
#[derive(Clone, Copy)]
pub struct LineWords<'a>(pub &'a Line);

impl Display for LineWords<'_> {
    ghost output = { λ words. Some (line_text words.0.now) };

    fn fmt<W: fmt::Write>(&self, f: &mut Formatter<W>) -> fmt::Result {
        let hours = self.0.key.minute / 60;
        let minutes = self.0.key.minute % 60;
        let destination = Text(&self.0.destination);
        let platform = Text(&self.0.platform);
        let operator = Text(&self.0.operator);
        let train = Text(&self.0.train);
        write!(
            f,
            "{hours:02}:{minutes:02} {destination} platform {platform} operator {operator} identity {train}"
        )
    }
}

/// Displays the answer to a call: `done`, why it was refused, the line that was told or `none`, or
/// the tally.
#[derive(Clone, Copy)]
pub struct AnswerWords<'a>(pub &'a Answer);

impl Display for AnswerWords<'_> {
    ghost output = { λ words. Some (answer_text words.0.now) };

    fn fmt<W: fmt::Write>(&self, f: &mut Formatter<W>) -> fmt::Result {
        match self.0 {
            Answer::Done => f.write_str("done"),
            Answer::Refused(fault) => {
                let words = RefusedWords(fault);
                write!(f, "{words}")
            }
            Answer::Told(Some(line)) => {
                let words = LineWords(line);
                write!(f, "{words}")
            }
            Answer::Told(None) => f.write_str("none"),
            Answer::Tally(tally) => write!(f, "{tally}"),
        }
    }
}
