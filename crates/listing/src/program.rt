//! A program as it lies in its words.
ghost use Rattle.listing.specs.Laid.{IsLaid, AreSteps};

use programs::reader::read_step;
use programs::step::{Header, Step};

/// A program: its words, and how large it is.
// No Model: its view would be the program as a function of the words, a second definition of what words are a program.
#[derive(Clone, Copy)]
pub struct Program<'a> {
    pub words: &'a [u32],
    pub header: Header,
    ghost laid: { IsLaid words.now header },
}

impl<'a> Program<'a> {
    ghost use Rattle.listing.specs.Program.{LaidIn, AreLeft};
    ghost use Rattle.programs.specs.Programs.{Program as ProgramOf};

    /// Its steps, one after the other.
    pub fn steps(self) -> Steps<'a>
        ensures { (p : ProgramOf) → LaidIn p self.entry → AreLeft p.steps result }
    {
        Steps {
            words: &self.words[3..],
            header: self.header,
        }
    }
}

/// The steps of a program that are left, as words.
#[derive(Clone, Copy)]
pub struct Steps<'a> {
    words: &'a [u32],
    header: Header,
    ghost laid: { AreSteps words.now header },
}

impl<'a> Iterator for Steps<'a> {
    type Item = Step<'a>;

    ghost use Rattle.std.specs.Prelude.{length};
    ghost use Rattle.std.specs.Iterator.{at_most};
    ghost use Rattle.listing.specs.Program.{TakesFirst};

    ghost next_gives = { TakesFirst };

    ghost remaining = { λ s. at_most (length s.words.now) };

    fn next(&mut self) -> Option<Step<'a>> {
        if self.words.is_empty() {
            return None;
        }
        let (step, n) = read_step(self.words, self.header.words, self.header.points).unwrap();
        self.words = &self.words[n..];
        Some(step)
    }
}
