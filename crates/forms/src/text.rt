// Fields that are text of a given width.
ghost use Rattle.std.specs.Prelude.{◌≡◌, Bool};
ghost use Rattle.std.specs.List.{list_all};
ghost use Rattle.forms.specs.Bytes.{allows};
ghost use Rattle.forms.specs.Forms.{text_in, days_run_in, reference_in, last_reference_in};

/// The bytes that a text may have.
#[derive(Clone, Copy, Debug, PartialEq, Eq)]
pub enum Alphabet {
    /// `A` to `Z`.
    Letters,
    /// `0` to `9`.
    Digits,
    /// `0` and `1`.
    Flags,
    /// `A` to `Z` and `0` to `9`.
    Names,
    /// `A` to `Z`, `0` to `9` and the blank.
    Labels,
    /// The blank alone.
    Blanks,
}

impl Alphabet {
    // Whether a byte is of this alphabet.
    pub(crate) fn has(self, b: u8) -> bool
        ensures { result ≡ allows self b }
    {
        match self {
            Alphabet::Letters => matches!(b, b'A'..=b'Z'),
            Alphabet::Digits => matches!(b, b'0'..=b'9'),
            Alphabet::Flags => matches!(b, b'0' | b'1'),
            Alphabet::Names => matches!(b, b'A'..=b'Z' | b'0'..=b'9'),
            Alphabet::Labels => matches!(b, b'A'..=b'Z' | b'0'..=b'9' | b' '),
            Alphabet::Blanks => b == b' ',
        }
    }

    // Whether all bytes are of this alphabet.
    pub(crate) fn has_all(self, bytes: &[u8]) -> bool
        ensures { result ≡ list_all (allows self) bytes.now }
    {
        bytes.iter().all(|b| self.has(*b))
    }
}

/// The bytes themselves, where there are just N and all are of the alphabet. Any others lack the form.
pub fn text<const N: usize>(alphabet: Alphabet, bytes: &[u8]) -> Option<[u8; N]>
    ensures { result ≡ text_in N alphabet bytes.now }
{
    if !alphabet.has_all(bytes) {
        return None;
    }
    <[u8; N]>::try_from(bytes).ok()
}

/// A file reference, as it stands: seven letters or digits. Any other bytes lack the form.
pub fn reference(bytes: &[u8]) -> Option<[u8; 7]>
    ensures { result ≡ reference_in bytes.now }
{
    text::<7>(Alphabet::Names, bytes)
}

/// The last file reference, as it stands: a file reference, or seven blanks. Any other bytes lack the form.
pub fn last_reference(bytes: &[u8]) -> Option<[u8; 7]>
    ensures { result ≡ last_reference_in bytes.now }
{
    match text(Alphabet::Blanks, bytes) {
        Some(blanks) => Some(blanks),
        None => text(Alphabet::Names, bytes),
    }
}

/// Whether a train runs on each day of the week, Monday first: seven bytes, `1` where it runs and `0` where it does not. Any
/// other bytes lack the form.
pub fn days_run(bytes: &[u8]) -> Option<[bool; 7]>
    ensures { result ≡ days_run_in bytes.now }
{
    let flags: [u8; 7] = text(Alphabet::Flags, bytes)?;
    Some(flags.map(|flag| flag == b'1'))
}
