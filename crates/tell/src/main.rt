//! Reads a program's words as text from standard input, and prints each point of the program with its steps; or says on
//! standard error what is wrong and where, and ends with status 1.

#![tactic(auto)]

use anyhow::{Result, ensure};
use listing::messages::push_refusal;
use listing::report::tell_steps;
use std::io;
use std::io::{Read, Write};
use std::process::ExitCode;

// The largest text, and as many numbers as such a text can hold: 1.5 MiB together. The reader of numbers writes into words
// that it is lent, so that there is room for all of them beforehand.
const TEXT_BYTES: usize = 524_288;

const NUMBERS: usize = 262_144;

// The text on standard input: at most one byte more than a text may have, so that a longer one is noticed.
fn read_text(rt: &HostRuntime) -> io::Result<Vec<u8>> {
    let mut text = Vec::with_capacity(rt.alloc(), TEXT_BYTES + 1)?;
    rt.stdin()
        .take(TEXT_BYTES as u64 + 1)
        .read_to_end(&mut text)?;
    Ok(text)
}

// Tells the program, or says why not. What is said of a text that is refused is written as the bytes that `push_refusal`
// promises: an `anyhow::Error` promises of a text that it keeps it, or some of it and dots.
fn run(rt: &HostRuntime) -> Result<ExitCode> {
    let text = read_text(rt)?;
    ensure!(
        text.len() <= TEXT_BYTES,
        "the text has more than {TEXT_BYTES} bytes"
    );
    // as an error of io, which is shown as `out of memory`
    let mut words = vec![in rt.alloc(); 0u32; NUMBERS].map_err(io::Error::from)?;
    let mut out = Vec::new(rt.alloc());
    if let Err(refusal) = tell_steps(&text, &mut words, &mut out) {
        let mut message = Vec::new(rt.alloc());
        push_refusal(&mut message, &text, &mut words, refusal).map_err(io::Error::from)?;
        rt.stderr().write_all(&message)?;
        return Ok(ExitCode::FAILURE);
    }
    rt.stdout().write_all(&out)?;
    Ok(ExitCode::SUCCESS)
}

// An error that `main` returned would be told by the runtime in its own words.
fn main(rt: HostRuntime) -> ExitCode {
    run(&rt).unwrap_or_else(|error| {
        let _ = eprintln!(rt; "{error}");
        ExitCode::FAILURE
    })
}
