//! Where the reader of numbers stands, and what a byte makes of that.

/// The digits of a token so far: where it began, and their value.
#[derive(Clone, Copy)]
pub struct Digits {
    pub from: usize,
    pub value: u32,
}

#[derive(Clone, Copy)]
pub enum Mode {
    /// No byte of the line is read yet, so that a `#` makes it a comment.
    LineStart,
    Gap,
    Comment,
    Number(Digits),
}

#[derive(Clone, Copy)]
pub enum Turn {
    Goes(Mode),
    /// A number ends.
    Ends(Digits, Mode),
}
