// Fields that name a place.
ghost use Rattle.std.specs.Prelude.{◌≡◌, ◌≤◌, Bool};
ghost use Rattle.forms.specs.Forms.{names_then_blanks, tiploc_in, suffix_in};
ghost use Rattle.forms.specs.Laws.{TiplocByPlaces};

use crate::text::Alphabet;

// Whether the bytes are letters and digits, and after them only blanks.
fn names_then_blanks(bytes: &[u8]) -> bool
    ensures { result ≡ names_then_blanks bytes.now }
{
    bytes
        .iter()
        .skip_while(|b| Alphabet::Names.has(**b))
        .all(|b| Alphabet::Blanks.has(*b))
}

/// A TIPLOC, as it stands: one to seven letters or digits, then blanks up to seven bytes. Any other bytes lack the form.
pub fn tiploc(bytes: &[u8]) -> Option<[u8; 7]>
    ensures { result ≡ tiploc_in bytes.now }
{
    let code = <[u8; 7]>::try_from(bytes).ok()?;
    if Alphabet::Names.has(code[0]) && names_then_blanks(bytes) {
        Some(code)
    } else {
        None
    }
}

/// A suffix, as it stands: a blank or a digit. Any other byte lacks the form.
pub fn suffix(b: u8) -> Option<u8>
    ensures { result ≡ suffix_in b }
{
    match b {
        b' ' | b'0'..=b'9' => Some(b),
        _ => None,
    }
}

/// A TIPLOC is one to seven letters or digits and then blanks, place by place.
pub fn tiploc_by_places()
    ensures { TiplocByPlaces }
{}
