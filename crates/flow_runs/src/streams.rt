// A program's standard streams, and what is told of its words and its faults, with the statuses.

use crate::OutOfMemory;
use crate::fault::{Fault, fault_line};
use clap::Error;
use clap::error::ErrorKind;
use std::io;
use std::io::Write;
use std::process::ExitCode;

/// Tells a line on standard error; where no memory was left to make it, fixed words. The status is 1.
pub fn tell_line(rt: &HostRuntime, program: &str, line: Result<Vec<u8>, OutOfMemory>) -> ExitCode {
    let mut errors = rt.stderr();
    let _ = match line {
        Ok(line) => errors.write_all(&line),
        Err(_) => tell_bytes(&mut errors, program, b": out of memory\n"),
    };
    ExitCode::FAILURE
}

// Tells the program's name and fixed bytes behind it, with no need of memory.
fn tell_bytes<W: Write>(errors: &mut W, program: &str, bytes: &[u8]) -> io::Result<()> {
    errors.write_all(program.as_bytes())?;
    errors.write_all(bytes)
}

/// Tells help on standard output, with status 0, and what is wrong with the words on standard error, with status 2. A word that is
/// no option of the program is told where the program reads from. Status 1 is told where memory or standard output failed.
pub fn tell_words(rt: &HostRuntime, program: &str, error: &Error) -> ExitCode {
    if error.kind() == ErrorKind::OutOfMemory {
        return tell_line(
            rt,
            program,
            fault_line(rt.alloc(), program, &Fault::OutOfMemory),
        );
    }
    let told = error.print(rt);
    if error.exit_code() != 0 {
        if error.kind() == ErrorKind::UnknownArgument {
            let mut errors = rt.stderr();
            let _ = errors.write_all(b"\nThe program is read from standard input: ");
            let _ = tell_bytes(&mut errors, program, b" < FILE\n");
        }
        return ExitCode::from(2);
    }
    match told {
        Ok(()) => ExitCode::SUCCESS,
        Err(_) => tell_line(rt, program, fault_line(rt.alloc(), program, &Fault::Write)),
    }
}

/// Tells why the words could not be had: a word is no text, with status 2, or memory was refused, with status 1.
pub fn tell_no_words(rt: &HostRuntime, program: &str, error: &io::Error) -> ExitCode {
    if error.kind() == io::ErrorKind::OutOfMemory {
        return tell_line(
            rt,
            program,
            fault_line(rt.alloc(), program, &Fault::OutOfMemory),
        );
    }
    let _ = tell_bytes(&mut rt.stderr(), program, b": a word is no text\n");
    ExitCode::from(2)
}
