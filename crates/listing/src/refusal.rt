//! Why a text is refused.
use programs::step::Wrong;
use text::types::Flaw;

/// A text that holds no program with fitting names, or for which memory did not suffice.
#[derive(Clone, Copy, PartialEq, Eq, Debug)]
pub enum Refusal {
    /// No memory is left.
    Memory,
    /// A number of the text is wrong.
    Number(Flaw),
    /// The numbers are no program.
    Program(Wrong),
    /// So many names stand on the line of names of the words, and the program has not that many words.
    WordNames(usize),
    /// The same of the points. Two cases, since the report promises different things of them.
    PointNames(usize),
}

impl From<Flaw> for Refusal {
    ghost use Rattle.std.specs.Prelude.{◌≡◌};
    ghost use Rattle.listing.specs.declared.refusal.Refusal.TheVariants.{Number};

    ghost from_gives = { λ flaw r. r ≡ Number flaw };

    fn from(flaw: Flaw) -> Refusal {
        Refusal::Number(flaw)
    }
}

impl From<Wrong> for Refusal {
    ghost use Rattle.std.specs.Prelude.{◌≡◌};
    ghost use Rattle.listing.specs.declared.refusal.Refusal.TheVariants.{Program};

    ghost from_gives = { λ wrong r. r ≡ Program wrong };

    fn from(wrong: Wrong) -> Refusal {
        Refusal::Program(wrong)
    }
}
