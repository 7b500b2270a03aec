//! Parts of a text, quoted in a message.
ghost use Rattle.std.specs.Prelude.{◌≡◌, take};
ghost use Rattle.listing.specs.Quotes.{visible_of};

use std::fmt;

/// A part of a text, which is shown in quotes: its first 40 bytes, since it may be long, and a question mark for what a
/// terminal might take for a command.
#[derive(Clone, Copy)]
pub struct Quoted<'a>(pub &'a [u8]);

// A byte that can be shown, or a question mark for it.
fn visible(byte: u8) -> char
    ensures { result ≡ visible_of byte }
{
    if byte.is_ascii_graphic() {
        char::from(byte)
    } else {
        '?'
    }
}

// The bytes of a part that are shown.
fn front(part: &[u8]) -> &[u8]
    ensures { result.now ≡ take 40 part.now }
{
    &part[..usize::min(40, part.len())]
}

impl fmt::Display for Quoted<'_> {
    ghost use Rattle.std.specs.Prelude.{Some};
    ghost use Rattle.listing.specs.Quotes.{quoted};

    ghost output = { λ q. Some (quoted q.0.now) };

    fn fmt<W: fmt::Write>(&self, f: &mut fmt::Formatter<W>) -> fmt::Result {
        f.write_str("'")?;
        for byte in front(self.0) {
            f.write_char(visible(*byte))?;
        }
        f.write_str("'")
    }
}
