//! What is told of a text that holds a program's words.
ghost use Rattle.std.specs.Prelude.{length};
ghost use Rattle.listing.specs.Report.{TextSays, StepsSay};

use crate::names::Naming;
use crate::points::write_points;
use crate::program::Program;
use crate::refusal::Refusal;
use programs::reader::read_program;
use programs::step::BASE;
use text::numbers::read_numbers;

// The program that the text holds, in the room for its numbers.
fn read_text<'a>(text: &[u8], words: &'a mut [u32]) -> Result<Program<'a>, Refusal>
    ensures { TextSays text.now (length words.old) result }
{
    let count = read_numbers(text, words)?;
    let words = &words[..count];
    let header = read_program(BASE, words, &mut [])?;
    Ok(Program { words, header })
}

/// The steps of the program that the text holds, point by point, behind what `out` holds; `words` is room for its numbers.
pub fn tell_steps(text: &[u8], words: &mut [u32], out: &mut Vec<u8>) -> Result<(), Refusal>
    ensures { StepsSay (length words.old) text.now out.old.items out.new.items result }
{
    let program = read_text(text, words)?;
    let naming = Naming::of(text);
    naming
        .words
        .fit(program.header.words)
        .map_err(Refusal::WordNames)?;
    naming
        .points
        .fit(program.header.points)
        .map_err(Refusal::PointNames)?;
    // what is written to is a vector, so that only memory can fail
    write_points(out, naming, program).map_err(|_| Refusal::Memory)
}
