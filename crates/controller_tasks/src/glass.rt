//! The page of a board, in a frame and as a picture.
use crate::follow::Followed;
use list_tasks::error::{TaskError, write_file};
use tasks::WantedPage;
use timetable::Store;
use wording::answers::RefusedWords;
use wording::pages::{FrameWords, PictureWords};

// Writes a page to a file as a picture, and says so.
fn write_picture(rt: &HostRuntime, file: &str, page: &[u8]) -> Result<(), TaskError> {
    let picture = PictureWords(page);
    let text = format!(in rt.alloc(); "{picture}")?;
    write_file(rt, file, text.as_bytes())?;
    println!(rt; "picture {file}")?;
    Ok(())
}

/// Prints a page in its frame.
pub(crate) fn print_frame(rt: &HostRuntime, page: &[u8]) -> anyhow::Result<()> {
    let frame = FrameWords(page);
    println!(rt; "{frame}")?;
    Ok(())
}

/// Prints the page of a board, or why it is refused. A page that is not refused is written to the
/// file that is named for a picture, if one is.
pub fn print_page<S: Store + Drop>(
    rt: &HostRuntime,
    followed: &Followed<'_, '_, S>,
    wanted: &WantedPage,
) -> Result<(), TaskError> {
    let at = wanted.at;
    let page = match followed.page(wanted) {
        Ok(page) => page,
        Err(fault) => {
            let words = RefusedWords(&fault);
            println!(rt; "page from {at}: {words}")?;
            return Ok(());
        }
    };
    println!(rt; "page from {at}: done")?;
    print_frame(rt, &page)?;
    match wanted.svg {
        Some(file) => write_picture(rt, file, &page),
        None => Ok(()),
    }
}
