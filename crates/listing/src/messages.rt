//! What a person is told of a refusal: where it is, and what is wrong there.
ghost use Rattle.std.specs.Prelude.{◌≡◌, min, ◌++◌, length, OnOk};
ghost use Rattle.listing.specs.Messages.{number_at, refusal_text, refusal_line};
ghost use Rattle.listing.specs.Shown.{message_text};

use crate::quotes::Quoted;
use crate::refusal::Refusal;
use programs::step::Fault;
use std::alloc::AllocError;
use std::error::Error;
use std::fmt;
use std::io::Write;
use text::numbers::read_numbers;
use text::places::{place, token};
use text::types::{Place, What};

/// What is wrong with the token of a number.
#[derive(Clone, Copy, PartialEq, Eq, Debug)]
pub struct TokenFault<'a> {
    pub what: What,
    pub token: &'a [u8],
}

/// Why numbers are no program, with the number that is wrong.
#[derive(Clone, Copy, PartialEq, Eq, Debug)]
pub struct ProgramFault {
    pub fault: Fault,
    pub number: u32,
}

/// What a person is told of a refusal.
#[derive(Clone, Copy, PartialEq, Eq, Debug)]
pub enum Message<'a> {
    Memory,
    Number(Place, TokenFault<'a>),
    Program(Place, ProgramFault),
    /// A line of names by its key, how many names it has, and how many it should have.
    Names {
        key: &'a str,
        names: usize,
        count: u32,
    },
}

impl fmt::Display for TokenFault<'_> {
    ghost use Rattle.std.specs.Prelude.{Some};
    ghost use Rattle.listing.specs.Shown.{token_fault_text};

    ghost output = { λ t. Some (token_fault_text t) };

    fn fmt<W: fmt::Write>(&self, f: &mut fmt::Formatter<W>) -> fmt::Result {
        match self.what {
            What::NoNumber => {
                let token = Quoted(self.token);
                write!(f, "{token} is no number")
            }
            What::TooLarge => write!(f, "a number must be below 4294967296"),
            What::TooMany => write!(f, "more numbers than any program has"),
        }
    }
}

impl fmt::Display for ProgramFault {
    ghost use Rattle.std.specs.Prelude.{Some};
    ghost use Rattle.listing.specs.Shown.{program_fault_text};

    ghost output = { λ p. Some (program_fault_text p) };

    fn fmt<W: fmt::Write>(&self, f: &mut fmt::Formatter<W>) -> fmt::Result {
        let number = self.number;
        match self.fault {
            Fault::Ends => write!(f, "the numbers end before the program does"),
            Fault::Words => write!(f, "a program has 1 to 16 words, not {number}"),
            Fault::Points => write!(f, "a program has 1 to 256 points, not {number}"),
            Fault::Steps => write!(f, "a program has at most 1024 steps, not {number}"),
            Fault::Point => write!(f, "there is no point {number}"),
            Fault::Kind => write!(f, "there is no kind of step {number}"),
            Fault::Word => write!(f, "there is no word {number}"),
            Fault::Longer => write!(f, "the program ends before the number {number}"),
        }
    }
}

impl fmt::Display for Message<'_> {
    ghost use Rattle.std.specs.Prelude.{Some};

    ghost output = { λ m. Some (message_text m) };

    fn fmt<W: fmt::Write>(&self, f: &mut fmt::Formatter<W>) -> fmt::Result {
        match *self {
            Message::Memory => write!(f, "out of memory"),
            Message::Number(place, fault) => write!(f, "{place}: {fault}"),
            Message::Program(place, fault) => write!(f, "{place}: no program: {fault}"),
            Message::Names { key, names, count } => {
                write!(f, "the line '# {key}' has {names} names, not {count}")
            }
        }
    }
}

impl Error for Message<'_> {}

// Where number `i` of the text begins, or the text's end if it has none: with room for the numbers before it, that is where
// the reader stops.
fn number_offset(text: &[u8], words: &mut [u32], i: usize) -> usize
    ensures { result ≡ number_at text.now (min i (length words.old)) }
{
    let before = i.min(words.len());
    match read_numbers(text, &mut words[0..before]) {
        Ok(_) => text.len(),
        Err(flaw) => flaw.at,
    }
}

/// What is wrong with the text, and where; `words` holds its numbers, and is written again.
// The room for the numbers is lent at each call, so that nothing is allocated here.
pub fn explain<'a>(text: &'a [u8], words: &mut [u32], refusal: Refusal) -> Message<'a>
    ensures { message_text result ≡ refusal_text text.now words.old refusal }
{
    match refusal {
        Refusal::Memory => Message::Memory,
        Refusal::Number(flaw) => Message::Number(
            place(text, flaw.at),
            TokenFault {
                what: flaw.what,
                token: token(text, flaw.at),
            },
        ),
        Refusal::Program(wrong) => {
            let number = words.get(wrong.at).copied().unwrap_or(0);
            let at = number_offset(text, words, wrong.at);
            Message::Program(
                place(text, at),
                ProgramFault {
                    fault: wrong.fault,
                    number,
                },
            )
        }
        Refusal::WordNames(names) => Message::Names {
            key: "words",
            names,
            count: words.first().copied().unwrap_or(0),
        },
        Refusal::PointNames(names) => Message::Names {
            key: "points",
            names,
            count: words.get(1).copied().unwrap_or(0),
        },
    }
}

/// Writes what is wrong with the text, and where, as a line behind what `out` holds; `words` holds its numbers, and is
/// written again.
pub fn push_refusal(
    out: &mut Vec<u8>,
    text: &[u8],
    words: &mut [u32],
    refusal: Refusal,
) -> Result<(), AllocError>
    ensures { OnOk result (out.new.items ≡ out.old.items ++ refusal_line text.now words.old refusal) }
{
    let message = explain(text, words, refusal);
    // what is written to is a vector, so that only memory can fail
    writeln!(out, "{message}").map_err(|_| AllocError)
}
