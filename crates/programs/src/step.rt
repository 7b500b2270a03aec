//! What the reader of programs takes and answers.
ghost use Rattle.std.specs.Prelude.{◌≡◌, ◌+◌, ◌^◌, ◌<◌};

/// What a step does: a word becomes a number and so much of each word, a word becomes anything, or nothing changes. The
/// slice of `Set` is a part of the program's words: the number, then a factor for each word.
#[derive(Clone, Copy, PartialEq, Eq, Debug)]
pub enum Action<'a> {
    Set(usize, &'a [u32]),
    Any(usize),
    Skip,
}

/// A step from a point to a point.
#[derive(Clone, Copy, PartialEq, Eq, Debug)]
pub struct Step<'a> {
    pub from: usize,
    pub to: usize,
    pub action: Action<'a>,
}

/// How large a program may be.
#[derive(Clone, Copy, PartialEq, Eq, Debug)]
pub struct Limits {
    pub words: usize,
    pub points: usize,
    pub steps: usize,
}

/// The limits of the base.
pub const BASE: Limits = Limits {
    words: 16,
    points: 256,
    steps: 1024,
};

/// How many words, points and steps a program has.
// Fields as `Limits` has, and another type: how large a program is can't be given for how large it may be.
#[derive(Clone, Copy, PartialEq, Eq, Debug)]
pub struct Header {
    pub words: usize,
    pub points: usize,
    pub steps: usize,
}

/// Why words are no program.
#[derive(Clone, Copy, PartialEq, Eq, Debug)]
pub enum Fault {
    /// The words end before the program does.
    Ends,
    /// The number of words is out of its limits.
    Words,
    /// The number of points is out of its limits.
    Points,
    /// The number of steps is out of its limits.
    Steps,
    /// A step names a point that is not there.
    Point,
    /// A step has a kind other than 0, 1 and 2.
    Kind,
    /// A step names a word that is not there.
    Word,
    /// Words stand behind the last step.
    Longer,
}

/// The index of the first word that no program has there, and why it has not.
// `Flaw` of text has this form too, for bytes; no crate lies below both.
#[derive(Clone, Copy, PartialEq, Eq, Debug)]
pub struct Wrong {
    pub at: usize,
    pub fault: Fault,
}

impl Wrong {
    // What is wrong with words that begin at the word `at` of others, told by its place among those.
    pub(crate) fn behind(self, at: usize) -> Wrong
        requires { at + self.at < 2 ^ 64 }
        ensures place { result.at ≡ at + self.at }
        ensures same { result.fault ≡ self.fault }
    {
        Wrong {
            at: at + self.at,
            ..self
        }
    }
}
