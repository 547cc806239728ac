// Fields that are written in digits.
ghost use Rattle.std.specs.Prelude.{◌≡◌, ℕ, ◌+◌, ◌-◌, ◌*◌, ◌^◌, ◌<◌, ◌≤◌, length, IfSome};
ghost use Rattle.forms.specs.Forms.{number_in, uid_in, years_on, date_in, time_in};
ghost use Rattle.forms.specs.Ends.{end_in};

use crate::end::End;
use crate::text::Alphabet;

/// How many UID numbers there are: each UID's number is below this.
pub const UIDS: u32 = 2_600_000;

// The number that up to nine digits write.
fn number(bytes: &[u8]) -> Option<u32>
    requires { length bytes.now ≤ 9 }
    ensures reads { result ≡ number_in bytes.now }
    ensures below { IfSome result (λ n. n < 10 ^ length bytes.now) }
{
    let mut n: u32 = 0;
    for b in bytes {
        if !Alphabet::Digits.has(*b) {
            return None;
        }
        n = n * 10 + (*b - b'0') as u32;
    }
    Some(n)
}

/// The number of a UID, which is six bytes, a letter and five digits: the letter's place, from 0, times 100,000, plus the
/// digits' number. Any other bytes lack the form.
pub fn uid(bytes: &[u8]) -> Option<u32>
    ensures value { result ≡ uid_in bytes.now }
    ensures below { IfSome result (λ n. n < UIDS) }
{
    if bytes.len() != 6 || !Alphabet::Letters.has(bytes[0]) {
        return None;
    }
    let n = number(&bytes[1..6])?;
    Some((bytes[0] - b'A') as u32 * 100_000 + n)
}

// The years since 1960 that a YY of 60 to 99 and 00 to 59 means.
fn years_on(yy: u32) -> u32
    requires { yy < 100 }
    ensures { result ≡ years_on yy }
{
    if yy < 60 { yy + 40 } else { yy - 60 }
}

/// The day number (1 January 1960 is 0) and the weekday (Monday is 0) of a date, which is six bytes, YYMMDD. YY from 60 to 99
/// means 1960 to 1999, and 00 to 59 means 2000 to 2059. Bytes that name no day of the calendar lack the form.
pub fn date(bytes: &[u8]) -> Option<(u16, u8)>
    ensures { result ≡ date_in bytes.now }
{
    if bytes.len() != 6 {
        return None;
    }
    let yy = number(&bytes[0..2])?;
    let month = number(&bytes[2..4])?;
    let day = number(&bytes[4..6])?;
    calendar::date(years_on(yy), month, day)
}

/// The end that six bytes tell: 999999 is no end, and a date is a last day. Any other bytes lack the form.
pub fn end(bytes: &[u8]) -> Option<End>
    ensures { result ≡ end_in bytes.now }
{
    if bytes == b"999999".as_slice() {
        return Some(End::Never);
    }
    let (last, _) = date(bytes)?;
    Some(End::Day(last))
}

/// The minute of the day of a public time, which is four bytes, HHMM from 0000 to 2359; 0000 means that there is no public time.
/// Any other bytes lack the form.
pub fn time(bytes: &[u8]) -> Option<Option<u16>>
    ensures { result ≡ time_in bytes.now }
{
    if bytes.len() != 4 {
        return None;
    }
    let hours = number(&bytes[0..2])?;
    let minutes = number(&bytes[2..4])?;
    if hours >= 24 || minutes >= 60 {
        return None;
    }
    if hours == 0 && minutes == 0 {
        return Some(None);
    }
    Some(Some((60 * hours + minutes) as u16))
}
