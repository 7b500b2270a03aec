//! The names of words and points.
ghost use Rattle.std.specs.Prelude.{◌≡◌, codes, OnOk};
ghost use Rattle.listing.specs.Names.{with_name, line_of, FitSays, word_names, point_names};

use std::io;
use std::io::Write;
use text::lines::names;
use text::names::{count_names, name};

/// The names on a line, where there is one. What has no name is named by the letter and its number.
#[derive(Clone, Copy)]
pub struct Names<'a, const LETTER: u8> {
    pub line: Option<&'a [u8]>,
}

pub type WordNames<'a> = Names<'a, b'x'>;

pub type PointNames<'a> = Names<'a, b'p'>;

impl<const LETTER: u8> Names<'_, LETTER> {
    /// Whether there are so many names, if there is a line of them; if not, how many there are.
    pub fn fit(self, count: usize) -> Result<(), usize>
        ensures { FitSays (line_of self.entry.line) count result }
    {
        match self.line.map(count_names) {
            Some(names) if names != count => Err(names),
            _ => Ok(()),
        }
    }

    /// Writes the name number `i`. It may be any bytes, so that it is written as such, and can't be shown by `Display`.
    pub fn write(self, out: &mut Vec<u8>, i: usize) -> io::Result<()>
        ensures { OnOk result (out.new.items ≡ with_name (line_of self.entry.line) LETTER i out.old.items) }
    {
        match self.line.and_then(|line| name(line, i)) {
            Some(name) => out.write_all(name),
            None => {
                out.write_all(&[LETTER])?;
                write!(out, "{i}")
            }
        }
    }
}

/// The names of the words and of the points of a program.
#[derive(Clone, Copy)]
pub struct Naming<'a> {
    pub words: WordNames<'a>,
    pub points: PointNames<'a>,
}

impl<'a> Naming<'a> {
    /// The names that stand on the lines of a text that are for names.
    pub fn of(text: &'a [u8]) -> Naming<'a>
        ensures words { line_of result.words.line ≡ word_names text.now }
        ensures points { line_of result.points.line ≡ point_names text.now }
    {
        Naming {
            words: Names {
                line: names(text, b"words"),
            },
            points: Names {
                line: names(text, b"points"),
            },
        }
    }
}
