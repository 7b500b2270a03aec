//! Steps, as `-> loop : x := x + 2`.
ghost use Rattle.std.specs.Prelude.{◌≡◌, OnOk};
ghost use Rattle.listing.specs.Naming.{word_line, point_line};
ghost use Rattle.listing.specs.Names.{line_of};
ghost use Rattle.listing.specs.Steps.{with_target, with_action, with_step};
ghost use Rattle.programs.specs.Reading.{action_of, step_of};

use crate::names::{Naming, WordNames};
use crate::sums::write_sum;
use programs::step::{Action, Step};
use std::io;
use std::io::Write;

// The word that becomes something, behind a colon.
fn write_target(out: &mut Vec<u8>, names: WordNames, word: usize) -> io::Result<()>
    ensures { OnOk result (out.new.items ≡ with_target (line_of names.entry.line) word out.old.items) }
{
    write!(out, " : ")?;
    names.write(out, word)?;
    write!(out, " := ")
}

// What a step does; nothing where it changes nothing.
fn write_action(out: &mut Vec<u8>, names: WordNames, action: Action) -> io::Result<()>
    ensures { OnOk result (out.new.items ≡ with_action (line_of names.entry.line) (action_of action.entry) out.old.items) }
{
    match action {
        Action::Set(word, numbers) => {
            write_target(out, names, word)?;
            write_sum(out, names, numbers)
        }
        Action::Any(word) => {
            write_target(out, names, word)?;
            write!(out, "?")
        }
        Action::Skip => Ok(()),
    }
}

/// A step on a line of its own, without the point that it starts from.
pub fn write_step(out: &mut Vec<u8>, naming: Naming, step: Step) -> io::Result<()>
    ensures { OnOk result (out.new.items ≡ with_step (word_line naming.entry) (point_line naming.entry) (step_of step.entry) out.old.items) }
{
    write!(out, "  -> ")?;
    naming.points.write(out, step.to)?;
    write_action(out, naming.words, step.action)?;
    writeln!(out)
}
