//! The numbers of a text.
ghost use Rattle.std.specs.Prelude.{◌≡◌, length};
ghost use Rattle.text.specs.Turns.{mode_after_white, grown, turn_of};
ghost use Rattle.text.specs.Storing.{settled, stored};
ghost use Rattle.text.specs.Numbers.{Reads};

use crate::bytes::is_white;
use crate::modes::{Digits, Mode, Turn};
use crate::types::{Flaw, What};

// This and the next three are inlined: as calls of their own, for each byte of a text, they make `read_numbers` two to five
// times as slow.
#[inline(always)]
fn after_white(byte: u8) -> Mode
    ensures { result ≡ mode_after_white byte }
{
    if byte == b'\n' {
        Mode::LineStart
    } else {
        Mode::Gap
    }
}

// One more byte of a token. The first byte that is wrong decides what the token lacks.
#[inline(always)]
fn grow(digits: Digits, byte: u8) -> Result<Turn, Flaw>
    ensures { result ≡ grown digits byte }
{
    let lacks = |what| Flaw {
        at: digits.from,
        what,
    };
    let digit = char::from(byte)
        .to_digit(10)
        .ok_or_else(|| lacks(What::NoNumber))?;
    // in 64 bits, where no sum is lost; it is faster than a product and a sum that are checked in 32
    let value = u64::from(digits.value) * 10 + u64::from(digit);
    let value = u32::try_from(value).map_err(|_| lacks(What::TooLarge))?;
    Ok(Turn::Goes(Mode::Number(Digits { value, ..digits })))
}

// What the byte at the offset `at` makes of the mode.
#[inline(always)]
fn turn_of(mode: Mode, at: usize, byte: u8) -> Result<Turn, Flaw>
    ensures { result ≡ turn_of mode at byte }
{
    match mode {
        Mode::Comment if byte == b'\n' => Ok(Turn::Goes(Mode::LineStart)),
        Mode::Comment => Ok(Turn::Goes(Mode::Comment)),
        Mode::LineStart if byte == b'#' => Ok(Turn::Goes(Mode::Comment)),
        Mode::Number(digits) if is_white(byte) => Ok(Turn::Ends(digits, after_white(byte))),
        Mode::Number(digits) => grow(digits, byte),
        _ if is_white(byte) => Ok(Turn::Goes(after_white(byte))),
        _ => grow(Digits { from: at, value: 0 }, byte),
    }
}

// Stores the number that ends, if one does: how many numbers there are then, and how the reader goes on.
#[inline(always)]
fn settle(turn: Turn, out: &mut [u32], count: usize) -> Result<(usize, Mode), Flaw>
    ensures answer { result ≡ settled turn count (length out.old) }
    ensures store { out.new ≡ stored turn count out.old }
{
    match turn {
        Turn::Goes(mode) => Ok((count, mode)),
        Turn::Ends(number, mode) => {
            if count >= out.len() {
                return Err(Flaw {
                    at: number.from,
                    what: What::TooMany,
                });
            }
            out[count] = number.value;
            Ok((count + 1, mode))
        }
    }
}

/// Reads the numbers of `text` into the front of `out`: how many they are, or the first flaw.
/// A line whose first byte is `#` is passed over.
pub fn read_numbers(text: &[u8], out: &mut [u32]) -> Result<usize, Flaw>
    ensures { Reads text.now out.old out.new result }
{
    let mut mode = Mode::LineStart;
    // Nothing is allocated: the numbers stand in front of what is lent, and the answer counts them.
    let mut count = 0;
    for (at, byte) in text.iter().enumerate() {
        let turn = turn_of(mode, at, *byte)?;
        (count, mode) = settle(turn, out, count)?;
    }
    // The end of the text ends a number, as a line feed would.
    let last = turn_of(mode, text.len(), b'\n')?;
    let (count, _) = settle(last, out, count)?;
    Ok(count)
}
