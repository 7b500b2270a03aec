//! The steps of a program, point by point.
ghost use Rattle.std.specs.Prelude.{◌≡◌, true, OnOk};
ghost use Rattle.listing.specs.Naming.{word_line, point_line};
ghost use Rattle.listing.specs.Program.{LaidIn};
ghost use Rattle.listing.specs.Steps.{with_steps, with_points};
ghost use Rattle.programs.specs.Programs.{Program as ProgramOf};

use crate::names::Naming;
use crate::program::Program;
use crate::steps::write_step;
use std::io;
use std::io::Write;

// The steps that start from a point.
fn write_steps(out: &mut Vec<u8>, naming: Naming, program: Program, point: usize) -> io::Result<()>
    ensures { (p : ProgramOf) → LaidIn p program.entry → OnOk result (out.new.items ≡ with_steps (word_line naming.entry) (point_line naming.entry) point true p.steps out.old.items) }
{
    let mut first = true;
    for step in program.steps() {
        if step.from == point {
            write_step(out, naming, step)?;
            first = false;
        }
    }
    if first {
        writeln!(out, "  no steps")?;
    }
    Ok(())
}

/// Each point by its name, and below it the steps that start from it.
// What is written to, and the names, are no struct of their own: it would hold a `&mut`, and each call would have to promise
// that the names stay.
pub fn write_points(out: &mut Vec<u8>, naming: Naming, program: Program) -> io::Result<()>
    ensures { (p : ProgramOf) → LaidIn p program.entry → OnOk result (out.new.items ≡ with_points (word_line naming.entry) (point_line naming.entry) p.steps p.points 0 out.old.items) }
{
    for point in 0..program.header.points {
        naming.points.write(out, point)?;
        writeln!(out)?;
        write_steps(out, naming, program, point)?;
    }
    Ok(())
}
