// The lines of one train.
ghost use Rattle.std.specs.Prelude.{◌≡◌, ℕ, ◌+◌, ◌*◌, ◌<◌, ◌≤◌, Bool, true, List, length, slice_get};
ghost use Rattle.ordered.specs.Tables.{items, room, RestKept};
ghost use Rattle.schedule.specs.Records.{visits, kept_calls};
ghost use Rattle.timetable.specs.Timetables.{not_before};
ghost use Rattle.running.specs.Walking.{first_of, IsFirst};
ghost use Rattle.board.specs.declared.line.Line.{Line};
ghost use Rattle.board.specs.Lines.{line_at, BoardOf};
ghost use Rattle.board.specs.Filling.{calls_there, Added, Fresh, Trained, AllLines, Grown};

use crate::display::StationDay;
use crate::line::{Line, LineKey};
use forms::letters::Stp;
use ordered::ordered::Ordered;
use ordered::slots::Slots;
use running::force::{Walk, first_of};
use schedule::check::is_at;
use schedule::key::Key;
use schedule::record::Record;
use timetable::Timetable;

// The line of the call at a place, if it has one.
fn line_at(fields: &Record, place: u8, station: &[u8; 7]) -> Option<Line>
    ensures { result ≡ line_at station.now fields.now place }
{
    let call = fields.calls.get(place as usize)?;
    if !is_at(call, station) {
        return None;
    }
    let minute = call.departure?;
    let key = LineKey {
        minute,
        uid: fields.key.uid,
        place,
    };
    let platform = call.platform;
    let destination = fields.destination;
    let train = fields.train;
    let operator = fields.operator;
    Some(Line {
        key,
        platform,
        destination,
        train,
        operator,
    })
}

// Adds the line of the call at a place, if it has one.
fn add_call(lines: &mut Slots<'_, Line>, fields: &Record, place: u8, station: &[u8; 7])
    requires room { calls_there station.now (slice_get fields.now.calls place) ≡ true
        → length (items lines.old) < room lines.old }
    ensures added { (xs : List Line) → Added station.now fields.now place xs (items lines.old)
        → Fresh xs fields.now.key.uid
        → Added station.now fields.now (place + 1) xs (items lines.new) }
    ensures grown { Grown lines.old lines.new }
{
    if let Some(line) = line_at(fields, place, station) {
        lines.push(line);
    }
}

// Adds the lines of a schedule's calls at a station.
pub(crate) fn add_calls(lines: &mut Slots<'_, Line>, fields: &Record, station: &[u8; 7])
    requires count { fields.now.count ≤ 48 }
    requires room { length (items lines.old) + visits station.now (kept_calls fields.now)
        ≤ room lines.old }
    requires fresh { Fresh (items lines.old) fields.now.key.uid }
    ensures added { Added station.now fields.now fields.now.count (items lines.old)
        (items lines.new) }
    ensures grown { Grown lines.old lines.new }
{
    for place in 0..fields.count {
        add_call(lines, fields, place, station);
    }
}

// Adds the lines of a train, of which the first key is given: those of its schedule in force, unless there is none or it is a
// cancellation. Answers the first key of the next train.
fn add_train<T: Timetable>(
    timetable: &mut T,
    lines: &mut Slots<'_, Line>,
    first: Key,
    shown: &StationDay,
    walk: &mut Walk,
) -> Option<Key>
    requires room { length (items lines.old) + 2 ≤ room lines.old }
    requires fresh { Fresh (items lines.old) first.uid }
    requires first { IsFirst (T.meaning timetable.old).map first }
    ensures trained { Trained
        (T.meaning timetable.old).map shown.now.station shown.now.day first.uid
        (items lines.old) (items lines.new) }
    ensures next { result ≡ not_before (T.meaning timetable.old).map (first_of (first.uid + 1)) }
    ensures grown { Grown lines.old lines.new }
    ensures same { timetable.new ≡ timetable.old }
{
    let next = walk.train(timetable, first, shown.day);
    if let Some(schedule) = &walk.best {
        let fields = schedule.record();
        match fields.key.stp {
            Stp::Cancellation => {}
            _ => add_calls(lines, fields, &shown.station),
        }
    }
    next
}

// Gathers the lines of a station and day in any order, train by train.
fn gather_lines<T: Timetable>(timetable: &mut T, lines: &mut Slots<'_, Line>, shown: &StationDay)
    requires room { 2 * length (T.meaning timetable.old).map ≤ room lines.old }
    ensures lines { AllLines (T.meaning timetable.old).map shown.now.station shown.now.day
        (items lines.new) }
    ensures few { length (items lines.new) ≤ 2 * length (T.meaning timetable.old).map }
    ensures rest { RestKept lines.old lines.new }
    ensures same { timetable.new ≡ timetable.old }
{
    lines.len = 0;
    let mut walk = Walk::new();
    let mut next = timetable.not_before(first_of(0));
    while let Some(first) = next {
        next = add_train(timetable, lines, first, shown, &mut walk);
    }
}

// Sets the lines to those of a station and day.
pub(crate) fn set_lines<T: Timetable>(
    timetable: &mut T,
    lines: &mut Ordered<'_, Line>,
    shown: &StationDay,
)
    requires room { 2 * length (T.meaning timetable.old).map ≤ room lines.old.elements }
    ensures board { BoardOf (T.meaning timetable.old).map shown.now.station shown.now.day
        (items lines.new.elements) }
    ensures few { length (items lines.new.elements) ≤ 2 * length (T.meaning timetable.old).map }
    ensures rest { RestKept lines.old.elements lines.new.elements }
    ensures same { timetable.new ≡ timetable.old }
{
    gather_lines(timetable, &mut lines.elements, shown);
    lines.elements.sort();
}
