// The heading of a page.
ghost use Rattle.std.specs.Prelude.{◌≡◌};
ghost use Rattle.page.specs.Headings.{without_first_blanks, without_last_blanks, trimmed, heading_of};
ghost use Rattle.page.specs.Laws.{HeadingFrom};

// A text without the blanks that it begins with.
fn without_first_blanks(text: &[u8]) -> &[u8]
    ensures { result.now ≡ without_first_blanks text.now }
{
    let mut rest = text;
    while let [b' ', behind @ ..] = rest {
        rest = behind;
    }
    rest
}

// A text without the blanks that it ends with.
fn without_last_blanks(text: &[u8]) -> &[u8]
    ensures { result.now ≡ without_last_blanks text.now }
{
    let mut rest = text;
    while let [before @ .., b' '] = rest {
        rest = before;
    }
    rest
}

// A text trimmed of blanks at both ends.
fn trimmed(text: &[u8]) -> &[u8]
    ensures { result.now ≡ trimmed text.now }
{
    without_last_blanks(without_first_blanks(text))
}

/// The heading of a page, not yet cut: the local name, any bytes, trimmed of blanks at both ends, or
/// the trimmed TIPLOC where the name has only blanks or no byte. docs/page.md says what it is for.
pub fn heading<'a>(name: &'a [u8], tiploc: &'a [u8]) -> &'a [u8]
    ensures value { result.now ≡ heading_of name.now tiploc.now }
    ensures trimmed { HeadingFrom name.now tiploc.now result.now }
{
    match trimmed(name) {
        [] => trimmed(tiploc),
        name => name,
    }
}
