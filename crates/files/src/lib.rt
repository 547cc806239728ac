//! Files of rows: a row ends at a line feed, or at the end of the file.
#![tactic(auto)]

ghost use Rattle.std.specs.Prelude.{◌≡◌, ◌+◌, ◌<◌, ◌≤◌, length, take, drop, MatchOption};
ghost use Rattle.std.specs.Iterator.{at_most};
ghost use Rattle.files.specs.Files.{first_row, other_rows};
ghost use Rattle.files.specs.Rows.{rest_of};

// How long the first row of a file is.
fn row_length(bytes: &[u8]) -> usize
    ensures within { result ≤ length bytes.now }
    ensures row { take result bytes.now ≡ first_row bytes.now }
    ensures rest { drop (result + 1) bytes.now ≡ other_rows bytes.now }
{
    bytes
        .iter()
        .position(|b| *b == b'\n')
        .unwrap_or(bytes.len())
}

/// The first row of a file, without its line feed, and the rest of the file.
pub fn split_row(bytes: &[u8]) -> (&[u8], &[u8])
    ensures row { result.0.now ≡ first_row bytes.now }
    ensures rest { result.1.now ≡ other_rows bytes.now }
    ensures falls { 0 < length bytes.now → length result.1.now < length bytes.now }
{
    let n = row_length(bytes);
    if n < bytes.len() {
        (&bytes[0..n], &bytes[n + 1..])
    } else {
        (bytes, &[])
    }
}

/// The rows of a file from its first on, each without its line feed.
#[derive(Clone, Drop)]
pub struct Rows<'a> {
    rest: &'a [u8],
}

impl<'a> Rows<'a> {
    /// The rows of a file, none of which was handed out yet.
    pub fn new(bytes: &'a [u8]) -> Rows<'a>
        ensures { rest_of result ≡ bytes.now }
    {
        Rows { rest: bytes }
    }
}

// Each row is the first of what is left, and a file without a byte left has no more rows.
impl<'a> Iterator for Rows<'a> {
    type Item = &'a [u8];

    ghost next_gives = { λ s r t. MatchOption r ((length (rest_of s) ≡ 0) × (t ≡ s)) (λ row.
        (0 < length (rest_of s)) × (row.now ≡ first_row (rest_of s))
        × (rest_of t ≡ other_rows (rest_of s))) };

    ghost remaining = { λ s. at_most (length (rest_of s)) };

    fn next(&mut self) -> Option<&'a [u8]> {
        if self.rest.is_empty() {
            return None;
        }
        let (row, rest) = split_row(self.rest);
        self.rest = rest;
        Some(row)
    }
}
