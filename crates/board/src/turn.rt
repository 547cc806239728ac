// What a board can be asked to do.
ghost use Rattle.std.specs.Prelude.{◌≡◌, ◌*◌, ◌≤◌, [], length, Some, None, OnOk, OnErr, slice_get};
ghost use Rattle.cif.specs.Refusals.{uppermost, fault_of};
ghost use Rattle.board.specs.Boards.{shown_of, lines_of, slots_of, HasSlots, SlotsKept};
ghost use Rattle.board.specs.Lines.{BoardOf};
ghost use Rattle.board.specs.Turning.{shown_for, turn_lines};

use crate::display::{Board, StationDay};
use crate::fill::set_lines;
use crate::line::Line;
use calendar::LAST_DAY;
use cif::refusal::{ColumnFault, Refusal};
use forms::places::tiploc;
use ordered::mapped::Mapped;
use ordered::ordered::Ordered;
use timetable::{Store, Timetable};

impl StationDay {
    // The station and day that are asked for, where there are such.
    fn new(station: &[u8], day: u32) -> Option<StationDay>
        ensures { result ≡ shown_for station.now day }
    {
        let station = tiploc(station)?;
        match u16::try_from(day) {
            Ok(day) if day <= LAST_DAY => Some(StationDay { station, day }),
            _ => None,
        }
    }
}

impl Board<'_> {
    /// A board over line slots, whatever they hold, with no station and no lines.
    pub fn new<'b>(slots: &'b mut [Line]) -> Board<'b>
        ensures shown { shown_of result ≡ None }
        ensures lines { lines_of result ≡ [] }
        ensures slots { slots_of result ≡ length slots.old }
        ensures lent { HasSlots slots.entry result }
    {
        let lines = Ordered::new(slots);
        Board { lines, shown: None }
    }

    /// The lines that it shows, in order.
    pub fn lines(&self) -> &[Line]
        ensures { result.now ≡ lines_of self.now }
    {
        self.lines.elements.as_slice()
    }

    /// The line at a place counted from 0, or none past the lines.
    pub fn tell(&mut self, place: usize) -> Option<Line>
        ensures value { result ≡ slice_get (lines_of self.old) place }
        ensures same { self.new ≡ self.old }
    {
        self.lines.nth(place)
    }

    /// Sets the station, a seven-byte TIPLOC, and the day, a day number up to 36,524, and the lines to those that the store's map
    /// gives for them. Anything else is refused with 14, and a board with fewer line slots than twice the capacity with 15.
    pub fn turn<S: Store>(
        &mut self,
        store: &mut S,
        station: &[u8],
        day: u32,
    ) -> Result<(), ColumnFault>
        ensures told { fault_of result
            ≡ uppermost
            (turn_lines station.now day (slots_of self.old) (S.meaning store.old).capacity) }
        ensures board { OnOk result
            (BoardOf (S.meaning store.old).map station.now day (lines_of self.new)) }
        ensures few { OnOk result
            (length (lines_of self.new) ≤ 2 * length (S.meaning store.old).map) }
        ensures set { OnOk result
            (shown_of self.new ≡ Some (record { station = station.now; day = day })) }
        ensures slots { SlotsKept self.old self.new }
        ensures unchanged { OnErr result (self.new ≡ self.old) }
        ensures same { store.new ≡ store.old }
    {
        let shown = StationDay::new(station, day).ok_or(Refusal::NoSuchBoard.at(0))?;
        self.suits(store)?;
        set_lines(store, &mut self.lines, &shown);
        self.shown = Some(shown);
        Ok(())
    }
}
