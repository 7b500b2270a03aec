//! Rows by value.

/// How many places a row by value has: that of the number, and 16 words.
pub const PLACES: usize = 17;

/// A row by value.
// An array of 17 in a struct is the project's form for it (docs/DECISIONS.md); a shorter row has words that do not count.
#[derive(Clone, Copy, Debug, PartialEq, Eq)]
pub struct Row {
    pub words: [u32; PLACES],
}

/// Which rows of a table changed: those of the first `count` places, which go down.
// A value to be copied, which an `ArrayVec` is not.
#[derive(Clone, Copy, Debug, PartialEq, Eq)]
pub struct Changes {
    pub count: usize,
    pub places: [usize; PLACES],
}
