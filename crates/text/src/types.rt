//! What the readers answer with.
use std::fmt;

/// What a token lacks. The first byte at which it goes wrong decides.
#[derive(Clone, Copy, PartialEq, Eq, Debug)]
pub enum What {
    /// A byte of the token is no digit.
    NoNumber,
    /// The digits so far reach 2^32.
    TooLarge,
    /// The token is a number, one more than there is room for.
    TooMany,
}

/// What is wrong with a text, and the offset of the token that is wrong.
#[derive(Clone, Copy, PartialEq, Eq, Debug)]
pub struct Flaw {
    pub at: usize,
    pub what: What,
}

/// A place in a text, as an editor shows it: both count from 1.
#[derive(Clone, Copy, PartialEq, Eq, Debug)]
pub struct Place {
    pub line: usize,
    pub column: usize,
}

impl fmt::Display for Place {
    ghost use Rattle.std.specs.Prelude.{Some};
    ghost use Rattle.text.specs.Places.{place_text};

    ghost output = { λ p. Some (place_text p) };

    fn fmt<W: fmt::Write>(&self, f: &mut fmt::Formatter<W>) -> fmt::Result {
        let Place { line, column } = *self;
        write!(f, "line {line}, column {column}")
    }
}
