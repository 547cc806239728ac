// Laws of pages.
ghost use Rattle.page.specs.Laws.{PageIsLaidOut, PageIsOne, MinuteIsRead};

/// Each byte of the page of a heading and lines is the byte of a field in its columns, or a blank.
pub fn page_is_laid_out()
    ensures { PageIsLaidOut }
{}

/// What stands where on a page, which lines it shows and what its heading is leave no choice: pages,
/// lines and headings that keep to the same rules are the same.
pub fn page_is_one()
    ensures { PageIsOne }
{}

/// The hour and the minute of a row are read back as that minute.
pub fn minute_is_read()
    ensures { MinuteIsRead }
{}
