//! Where a token stands in a text, for messages.
ghost use Rattle.std.specs.Prelude.{◌≡◌, take, drop};
ghost use Rattle.text.specs.Places.{place_of};
ghost use Rattle.text.specs.Tokens.{word};

use crate::bytes::is_white;
use crate::types::Place;

/// The line and the column of the byte at `at`; past the end, those of the end.
pub fn place(text: &[u8], at: usize) -> Place
    ensures { result ≡ place_of (take at text.now) }
{
    let front = &text[..at.min(text.len())];
    let line = 1 + front.iter().filter(|b| **b == b'\n').count();
    let column = 1 + front.iter().rev().take_while(|b| **b != b'\n').count();
    Place { line, column }
}

/// The token that begins at `from`: empty at white space and past the end.
pub fn token(text: &[u8], from: usize) -> &[u8]
    ensures { result.now ≡ word (drop from text.now) }
{
    let rest = &text[from.min(text.len())..];
    let end = rest.iter().position(|b| is_white(*b)).unwrap_or(rest.len());
    &rest[..end]
}
