//! Sums of words, as `3 x - y + 40`.
ghost use Rattle.std.specs.Prelude.{◌≡◌, true, ◌++◌, OnOk};
ghost use Rattle.listing.specs.Names.{line_of};
ghost use Rattle.listing.specs.Sums.{size, sign, with_term, with_terms, with_sum};

use crate::names::WordNames;
use std::io::Write;
use std::{fmt, io};

// Half of 2^32: a factor above it stands for the negative number that it is modulo 2^32.
const HALF: u32 = 0x8000_0000;

// A factor or a number as it stands in a sum; `first` says that no term stands before it.
#[derive(Clone, Copy)]
struct Signed {
    first: bool,
    value: u32,
}

impl Signed {
    // What stands between the term before, if there is one, and this one.
    fn sign(self) -> &'static str
        ensures { result.now ≡ sign self.first self.value }
    {
        match (self.first, self.value > HALF) {
            (true, true) => "-",
            (true, false) => "",
            (false, true) => " - ",
            (false, false) => " + ",
        }
    }

    // The number without its sign.
    fn size(self) -> u32
        ensures { result ≡ size self.value }
    {
        if self.value > HALF {
            self.value.wrapping_neg()
        } else {
            self.value
        }
    }
}

// The factor of a word. A factor 1 is not written.
#[derive(Clone, Copy)]
struct Factor(Signed);

impl fmt::Display for Factor {
    ghost use Rattle.std.specs.Prelude.{Some};
    ghost use Rattle.listing.specs.Sums.{factor_text};

    ghost output = { λ c. Some (factor_text c.0.first c.0.value) };

    fn fmt<W: fmt::Write>(&self, f: &mut fmt::Formatter<W>) -> fmt::Result {
        let (sign, size) = (self.0.sign(), self.0.size());
        if size == 1 {
            write!(f, "{sign}")
        } else {
            write!(f, "{sign}{size} ")
        }
    }
}

// The number behind the terms: 0 only where there is no term.
#[derive(Clone, Copy)]
struct Number(Signed);

impl fmt::Display for Number {
    ghost use Rattle.std.specs.Prelude.{Some};
    ghost use Rattle.listing.specs.Sums.{number_text};

    ghost output = { λ c. Some (number_text c.0.first c.0.value) };

    fn fmt<W: fmt::Write>(&self, f: &mut fmt::Formatter<W>) -> fmt::Result {
        if self.0.value == 0 && !self.0.first {
            return Ok(());
        }
        let (sign, size) = (self.0.sign(), self.0.size());
        write!(f, "{sign}{size}")
    }
}

// So many times the word number `i`.
fn write_term(out: &mut Vec<u8>, names: WordNames, i: usize, factor: Factor) -> io::Result<()>
    ensures { OnOk result (out.new.items ≡ with_term (line_of names.entry.line) factor.0.first i factor.0.value out.old.items) }
{
    write!(out, "{factor}")?;
    names.write(out, i)
}

// The terms of a sum, and then its number.
fn write_terms(out: &mut Vec<u8>, names: WordNames, number: u32, factors: &[u32]) -> io::Result<()>
    ensures { OnOk result (out.new.items ≡ with_terms (line_of names.entry.line) number true 0 factors.now out.old.items) }
{
    let mut first = true;
    for (i, c) in factors.iter().enumerate() {
        if *c != 0 {
            let factor = Signed { first, value: *c };
            write_term(out, names, i, Factor(factor))?;
            first = false;
        }
    }
    let last = Number(Signed {
        first,
        value: number,
    });
    write!(out, "{last}")
}

/// The sum of a number and so much of each word: the number first, then a factor for each word.
// What is written to and the names stay apart, as in `write_points`.
pub fn write_sum(out: &mut Vec<u8>, names: WordNames, numbers: &[u32]) -> io::Result<()>
    ensures { OnOk result (out.new.items ≡ with_sum (line_of names.entry.line) numbers.now out.old.items) }
{
    match numbers {
        [] => Ok(()),
        [number, factors @ ..] => write_terms(out, names, *number, factors),
    }
}
