// The rows of a page.
ghost use Rattle.std.specs.Prelude.{◌≡◌, ◌+◌, ◌≤◌, ◌<◌, ◌++◌, length, take, drop};
ghost use Rattle.page.specs.Rows.{two_digits, row_of, line_fields, heading_fields};

use board::line::Line;

/// How many characters a row has.
pub const COLUMNS: usize = 24;

// A number in two digits. The minute of a line may be any of 16 bits, and then its hours are up to 1,092.
fn two_digits(number: u16) -> [u8; 2]
    requires { number ≤ 1092 }
    ensures { result ≡ two_digits number }
{
    [b'0' + (number / 10) as u8, b'0' + (number % 10) as u8]
}

// Puts a text into a row, from a place on that counts from 0.
fn put(row: &mut [u8; COLUMNS], place: usize, text: &[u8])
    requires { place + length text.now ≤ COLUMNS }
    ensures { row.new ≡ take place row.old ++ text.now ++ drop (place + length text.now) row.old }
{
    row[place..place + text.len()].copy_from_slice(text);
}

/// The row of a line.
pub(crate) fn line_row(line: &Line) -> [u8; COLUMNS]
    ensures { result ≡ row_of (line_fields line.now) }
{
    let mut row = [b' '; COLUMNS];
    put(&mut row, 0, &two_digits(line.key.minute / 60));
    put(&mut row, 2, &two_digits(line.key.minute % 60));
    put(&mut row, 5, &line.destination);
    put(&mut row, 13, &line.platform);
    put(&mut row, 17, &line.operator);
    put(&mut row, 20, &line.train);
    row
}

/// The row of a heading, which is cut at 24.
pub(crate) fn heading_row(heading: &[u8]) -> [u8; COLUMNS]
    ensures { result ≡ row_of (heading_fields heading.now) }
{
    let mut row = [b' '; COLUMNS];
    put(&mut row, 0, &heading[..heading.len().min(COLUMNS)]);
    row
}
