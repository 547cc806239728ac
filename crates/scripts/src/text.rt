//! What texts and digits stand for.
ghost use Rattle.std.specs.Prelude.{◌≡◌, ◌<◌, ◌≤◌, length, option_map, IfOk, IfSome};
ghost use Rattle.scripts.specs.Lines.{word_in, behind_word};
ghost use Rattle.scripts.specs.Texts.{hex_value, first_byte_of, bytes_of, number_up_to};

use std::alloc::{AllocError, Global};

// The value of a hexadecimal digit.
fn hex_digit(digit: u8) -> Option<u8>
    ensures value { result ≡ hex_value digit }
    ensures below { IfSome result (λ value. value < 16) }
{
    match digit {
        b'0'..=b'9' => Some(digit - b'0'),
        b'a'..=b'f' => Some(digit - b'a' + 10),
        b'A'..=b'F' => Some(digit - b'A' + 10),
        _ => None,
    }
}

// The first byte that a text stands for, and the text behind it. A `\` and two hexadecimal digits
// stand for one byte.
fn first_byte_of(text: &[u8]) -> Option<(u8, &[u8])>
    ensures first { option_map (λ first. (first.0, first.1.now)) result ≡ first_byte_of text.now }
    ensures shorter { IfSome result (λ first. length first.1.now < length text.now) }
{
    match text {
        [b'\\', high, low, rest @ ..] => Some((16 * hex_digit(*high)? + hex_digit(*low)?, rest)),
        [b'\\', ..] | [] => None,
        [byte, rest @ ..] => Some((*byte, rest)),
    }
}

// The bytes that a text stands for, or none where a `\` has no two hexadecimal digits behind it.
pub(crate) fn bytes_of(alloc: Global, text: &[u8]) -> Result<Option<Vec<u8>>, AllocError>
    ensures { IfOk result (λ bytes. option_map (λ v. v.items) bytes ≡ bytes_of text.now) }
{
    let mut bytes = Vec::new(alloc);
    let mut rest = text;
    while !rest.is_empty() {
        let Some((byte, others)) = first_byte_of(rest) else {
            return Ok(None);
        };
        bytes.push(byte)?;
        rest = others;
    }
    Ok(Some(bytes))
}

// The number that digits write, one at least and nothing else, if it is not above a limit.
pub(crate) fn number_up_to(most: u64, digits: &[u8]) -> Option<u64>
    ensures value { result ≡ number_up_to most digits.now }
    ensures within { IfSome result (λ number. number ≤ most) }
{
    if digits.is_empty() {
        return None;
    }
    let mut number: u128 = 0;
    for digit in digits {
        if !digit.is_ascii_digit() {
            return None;
        }
        number = number * 10 + u128::from(*digit - b'0');
        if number > u128::from(most) {
            return None;
        }
    }
    Some(number as u64)
}

// What stands before the first blank, and what stands behind it where there is one.
pub(crate) fn split_blank(line: &[u8]) -> (&[u8], Option<&[u8]>)
    ensures word { result.0.now ≡ word_in line.now }
    ensures behind { option_map (λ rest. rest.now) result.1 ≡ behind_word line.now }
{
    match line.iter().position(|b| *b == b' ') {
        Some(n) => (&line[..n], Some(&line[n + 1..])),
        None => (line, None),
    }
}
