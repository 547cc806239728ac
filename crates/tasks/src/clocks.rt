//! The time from which on a page shows departures, by its word.
ghost use Rattle.std.specs.Prelude.{◌≡◌, ◌<◌, ◌≤◌, IfSome};
ghost use Rattle.tasks.specs.Clocks.{clock_in, number_of};

// The number that two digits write, if both are digits.
fn number_of(tens: u8, ones: u8) -> Option<u32>
    ensures reads { result ≡ number_of tens ones }
    ensures below { IfSome result (λ n. n < 100) }
{
    match (tens, ones) {
        (b'0'..=b'9', b'0'..=b'9') => Some(10 * u32::from(tens - b'0') + u32::from(ones - b'0')),
        _ => None,
    }
}

/// The minute that a word HH:MM names, 60 × HH + MM. HH and MM are any two decimal digits each, so
/// it is at most 6,039. Any other word names none.
pub fn clock(word: &str) -> Option<u32>
    ensures reads { result ≡ clock_in word.now }
    ensures most { IfSome result (λ minute. minute ≤ 6039) }
{
    let bytes = word.as_bytes();
    if bytes.len() != 5 || bytes[2] != b':' {
        return None;
    }
    let hours = number_of(bytes[0], bytes[1])?;
    let minutes = number_of(bytes[3], bytes[4])?;
    Some(60 * hours + minutes)
}
