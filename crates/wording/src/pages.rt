//! A page as text: in a frame, and as a picture.
ghost use Rattle.std.specs.Prelude.{◌+◌, ◌/◌, ◌%◌, ◌^◌, ◌<◌, Some};
ghost use Rattle.std.specs.Fmt.{DisplaysOnOk};
ghost use Rattle.wording.specs.Pages.{frame_text, character_text, cell_text, picture_text};

use crate::words::Text;
use page::rows::COLUMNS;
use std::fmt;
use std::fmt::{Display, Formatter};

// What stands above the rows of a frame and below them.
const BORDER: &str = "+------------------------+";

// What stands above the characters of a picture.
const HEAD: &str =
    r##"<svg xmlns="http://www.w3.org/2000/svg" width="416" height="340" viewBox="0 0 416 340">
<defs><pattern id="cell" x="16" y="16" width="16" height="28" patternUnits="userSpaceOnUse"><rect width="15" height="26" rx="2" fill="#1c1a17"/></pattern></defs>
<rect width="416" height="340" rx="8" fill="#0b0a09"/>
<rect x="16" y="16" width="384" height="308" fill="url(#cell)"/>
<g fill="#ffb000" font-family="monospace" font-size="20" text-anchor="middle">
"##;

// What stands below them.
const FOOT: &str = "</g>\n</svg>\n";

/// Displays a page in a frame of 24 columns: a border, a line for each row, and the border again,
/// with no line feed behind it. Bytes are written as by `Text`. A page has 264 bytes; of other bytes
/// the last row is what is left.
#[derive(Clone, Copy)]
pub struct FrameWords<'a>(pub &'a [u8]);

impl Display for FrameWords<'_> {
    ghost output = { λ words. Some (frame_text words.0.now) };

    fn fmt<W: fmt::Write>(&self, f: &mut Formatter<W>) -> fmt::Result {
        writeln!(f, "{BORDER}")?;
        for row in self.0.chunks(COLUMNS) {
            let row = Text(row);
            writeln!(f, "|{row}|")?;
        }
        f.write_str(BORDER)
    }
}

// A character of a picture, by its byte.
#[derive(Clone, Copy)]
struct Character(u8);

impl Display for Character {
    ghost output = { λ character. Some (character_text character.0) };

    fn fmt<W: fmt::Write>(&self, f: &mut Formatter<W>) -> fmt::Result {
        match self.0 {
            b'&' => f.write_str("&amp;"),
            b'<' => f.write_str("&lt;"),
            b'>' => f.write_str("&gt;"),
            byte => f.write_char(byte as char),
        }
    }
}

// Draws the byte at a place of a page, counted from 0, where it is no blank.
fn write_cell<W: fmt::Write>(f: &mut Formatter<W>, place: usize, byte: u8) -> fmt::Result
    requires { place < 2 ^ 63 }
    ensures { DisplaysOnOk W.write_str_gives f.old result
        (Some (cell_text (place % 24 + 1) (place / 24 + 1) byte)) f.new }
{
    if byte == b' ' {
        return Ok(());
    }
    let x = 16 * (place % COLUMNS + 1) + 8;
    let y = 28 * (place / COLUMNS + 1) + 8;
    let character = Character(byte);
    writeln!(f, "<text x=\"{x}\" y=\"{y}\">{character}</text>")
}

/// Displays a page as a picture, an SVG of 416 by 340 with a cell for each character. Each line of
/// it ends with a line feed. Bytes are written as by `Text`, but for `&`, `<` and `>`, which are
/// named.
#[derive(Clone, Copy)]
pub struct PictureWords<'a>(pub &'a [u8]);

impl Display for PictureWords<'_> {
    ghost output = { λ words. Some (picture_text words.0.now) };

    fn fmt<W: fmt::Write>(&self, f: &mut Formatter<W>) -> fmt::Result {
        f.write_str(HEAD)?;
        for (place, byte) in self.0.iter().enumerate() {
            write_cell(f, place, *byte)?;
        }
        f.write_str(FOOT)
    }
}
