// The page of a board.
ghost use Rattle.std.specs.Prelude.{◌≡◌, ◌+◌, ◌*◌, ◌≤◌, true, ◌++◌, length, take, drop, OnOk, OnErr};
ghost use Rattle.cif.specs.Refusals.{uppermost, fault_of};
ghost use Rattle.maps.specs.Maps.{ascending};
ghost use Rattle.board.specs.Boards.{shown_of, lines_of};
ghost use Rattle.board.specs.Lines.{line_before, line_key};
ghost use Rattle.page.specs.Headings.{heading_of};
ghost use Rattle.page.specs.Pages.{first_ten, tiploc_of, page_of, page_for, page_lines};
ghost use Rattle.page.specs.Laws.{HeadingFrom, LaidOut, ShownFrom};

use crate::heading::heading;
use crate::rows::{COLUMNS, heading_row, line_row};
use board::display::Board;
use board::line::Line;
use cif::refusal::{ColumnFault, Refusal};
use cif::whole::is_printable;

/// How many lines a page shows at the most, one in each row below its heading.
pub const LINES: usize = 10;

/// How many bytes a page has: the row of its heading and those of its lines.
pub const PAGE_LENGTH: usize = (1 + LINES) * COLUMNS;

/// The last minute of a day.
pub const LAST_MINUTE: u32 = 1_439;

// Whether a page can be written: it has as many bytes as a page, the minute is one of a day, and each
// byte of the name is printable.
fn check(length: usize, minute: u32, name: &[u8]) -> Result<(), ColumnFault>
    ensures { fault_of result ≡ uppermost (page_lines name.now minute length) }
{
    if length != PAGE_LENGTH {
        return Err(Refusal::PageLength.at(0));
    }
    if minute > LAST_MINUTE {
        return Err(Refusal::NoSuchMinute.at(0));
    }
    if !name.iter().all(|b| is_printable(*b)) {
        return Err(Refusal::BadNameByte.at(0));
    }
    Ok(())
}

// The first ten lines that depart at or after a minute, of lines in order.
fn first_ten(lines: &[Line], minute: u32) -> &[Line]
    requires { ascending line_before line_key lines.now ≡ true }
    ensures { result.now ≡ first_ten minute lines.now }
{
    let first = lines.partition_point(|line| u32::from(line.key.minute) < minute);
    let later = &lines[first..];
    &later[..later.len().min(LINES)]
}

// Writes a row of a page, counted from 0.
fn write_row(page: &mut [u8], row: usize, bytes: &[u8; COLUMNS])
    requires { (row + 1) * COLUMNS ≤ length page.old }
    ensures { page.new ≡ take (row * COLUMNS) page.old ++ bytes.now
        ++ drop ((row + 1) * COLUMNS) page.old }
{
    page[row * COLUMNS..(row + 1) * COLUMNS].copy_from_slice(bytes);
}

// Writes the page of a heading and lines.
fn write_rows(page: &mut [u8], heading: &[u8], lines: &[Line])
    requires bytes { length page.old ≡ PAGE_LENGTH }
    requires lines { length lines.now ≤ LINES }
    ensures { page.new ≡ page_of heading.now lines.now }
{
    page.fill(b' ');
    write_row(page, 0, &heading_row(heading));
    for (place, line) in lines.iter().enumerate() {
        write_row(page, place + 1, &line_row(line));
    }
}

/// Writes the page of a board into 264 bytes, 11 rows of 24 characters, nothing between rows: the
/// heading, from the local name or the board's TIPLOC, and the first ten lines of the board that
/// depart at or after a minute of the day. docs/page.md has the columns. It is refused with 16 where
/// the page is not of 264 bytes, with 17 where the minute is above 1,439, and with 18 where a byte of
/// the name is outside 32 to 126; the page then stays as it was.
pub fn write_page(
    board: &Board<'_>,
    page: &mut [u8],
    name: &[u8],
    minute: u32,
) -> Result<(), ColumnFault>
    ensures told { fault_of result ≡ uppermost (page_lines name.now minute (length page.old)) }
    ensures page { OnOk result
        (page.new ≡ page_for (shown_of board.now) (lines_of board.now) name.now minute) }
    ensures places { OnOk result
        (LaidOut (heading_of name.now (tiploc_of (shown_of board.now)))
        (first_ten minute (lines_of board.now)) page.new) }
    ensures heading { HeadingFrom name.now (tiploc_of (shown_of board.now))
        (heading_of name.now (tiploc_of (shown_of board.now))) }
    ensures shown { ShownFrom minute (lines_of board.now) (first_ten minute (lines_of board.now)) }
    ensures unchanged { OnErr result (page.new ≡ page.old) }
{
    check(page.len(), minute, name)?;
    let station = match board.shown() {
        Some(shown) => shown.station,
        None => [b' '; 7],
    };
    write_rows(
        page,
        heading(name, &station),
        first_ten(board.lines(), minute),
    );
    Ok(())
}
