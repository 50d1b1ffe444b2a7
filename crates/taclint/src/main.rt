//! `taclint`: tells what is worth a look in programs of three-address code, or what is wrong with texts that are none.
#![tactic(auto)]

ghost use Rattle.std.specs.Prelude.{◌≡◌, ◌<◌, ◌-◌, ◌^◌, false};

use flow_runs::Fault;
use lint_commands::{
    Crew, Options, OutOfMemory, Request, Told, Wish, failed_line, missing_line, run,
};
use lint_styles::shown_bytes;
use run_progress::{Progress, Terminal};
use std::alloc::Global;
use std::fs::File;
use std::io::{ErrorKind, IsTerminal, Write};
use std::process::ExitCode;
use std::thread::Threads;
use std::{env, io};
use text_pieces::{FromRead, Source, ToWrite};

/// The program's name.
const NAME: &str = "taclint";

/// What standard input is called in what is told of it.
const STANDARD_INPUT: &str = "<stdin>";

/// What who types at a terminal is told that waits for a text.
const READING: &[u8] = b"taclint: reading standard input\n";

const REMARKS: u8 = 1;

const WORDS: u8 = 2;

const FAILED: u8 = 3;

// Tells a line on standard error; where no memory was left to make it, fixed words.
fn tell_line(rt: &HostRuntime, line: Result<Vec<u8>, OutOfMemory>) {
    let mut errors = rt.stderr();
    let _ = match line {
        Ok(line) => errors.write_all(&line),
        Err(_) => errors.write_all(b"taclint: out of memory\n"),
    };
}

// What came of a file: its status, and whether who reads standard output has gone away.
#[derive(Clone, Copy)]
struct Outcome {
    status: u8,
    gone: bool,
}

impl Outcome {
    fn of(status: u8) -> Outcome {
        Outcome {
            status,
            gone: false,
        }
    }
}

// Whether who reads standard output has gone away. A write that failed fails again.
fn has_gone(rt: &HostRuntime) -> bool {
    match rt.stdout().write(b"\n") {
        Ok(_) => false,
        Err(error) => error.kind() == ErrorKind::BrokenPipe,
    }
}

// Tells a fault of a file. That a reader has gone away is told to nobody.
fn tell_fault(rt: &HostRuntime, wish: Wish<'_>, fault: &Fault) -> Outcome {
    match (fault, wish.request.procedure) {
        (Fault::Write, _) if has_gone(rt) => {
            return Outcome {
                status: FAILED,
                gone: true,
            };
        }
        (Fault::NoProcedure, Some(procedure)) => {
            tell_line(rt, missing_line(rt.alloc(), wish.name, procedure));
        }
        _ => tell_line(rt, failed_line(rt.alloc(), wish.limits, wish.name, fault)),
    }
    Outcome::of(FAILED)
}

fn closed_line(alloc: Global, name: &str, error: &io::Error) -> Result<Vec<u8>, OutOfMemory> {
    let mut line = shown_bytes(alloc, name.as_bytes())?;
    let rest = format!(in alloc; ": cannot be opened: {error}\n")?;
    line.extend_from_slice(rest.as_bytes())?;
    Ok(line)
}

// Whether the environment says that colours are unwanted.
fn has_no_color(rt: &HostRuntime) -> bool {
    match env::var(rt, "NO_COLOR") {
        Ok(value) => !value.is_empty(),
        Err(_) => false,
    }
}

// Who looks at files, and what is asked for of them. `threads` is the runtime once more: it is a handle for threads only where `main` names it.
#[derive(Drop)]
struct Task<'a, R> {
    rt: &'a HostRuntime,
    threads: &'a R,
    options: &'a Options,
    request: Request<'a>,
}

// Tells of what a source has, and what came of that.
fn look_at<R: Threads + Sync, S: Source>(task: &Task<'_, R>, name: &str, source: &mut S) -> Outcome
    requires running { S.ended source.old ≡ false }
    requires below { S.faults source.old < 2 ^ 32 - 1 }
{
    let rt = task.rt;
    let mut sink = ToWrite::new(rt.stdout());
    let wish = Wish {
        limits: task.options.limits,
        request: task.request,
        name: name.as_bytes(),
    };
    let progress = Progress::new(rt.alloc(), NAME, Terminal::of(*rt));
    let crew = Crew {
        threads: task.threads,
        gate: &progress,
        workers: task.options.workers,
    };
    match run(&crew, rt.alloc(), wish, source, &mut sink) {
        Ok(Told::Nothing) => Outcome::of(0),
        Ok(Told::Remarks) => Outcome::of(if task.options.error { REMARKS } else { 0 }),
        Ok(Told::Errors) => Outcome::of(FAILED),
        Err(fault) => tell_fault(rt, wish, &fault),
    }
}

fn look_at_file<R: Threads + Sync>(task: &Task<'_, R>, name: &str) -> Outcome {
    let rt = task.rt;
    if name == "-" {
        let mut source = FromRead::new(rt.stdin());
        return look_at(task, STANDARD_INPUT, &mut source);
    }
    match File::open(rt, name) {
        Ok(file) => {
            let mut source = FromRead::new(file);
            look_at(task, name, &mut source)
        }
        Err(error) => {
            tell_line(rt, closed_line(rt.alloc(), name, &error));
            Outcome::of(FAILED)
        }
    }
}

// Looks at standard input, since no file is asked for. Who types at a terminal is told so.
fn look_at_input<R: Threads + Sync>(task: &Task<'_, R>) -> u8 {
    if task.rt.stdin().is_terminal() {
        let _ = task.rt.stderr().write_all(READING);
    }
    look_at_file(task, "-").status
}

// The largest status of all files. Behind a reader that has gone away no more are looked at.
fn look_at_all<R: Threads + Sync>(task: &Task<'_, R>) -> u8 {
    let mut status = 0;
    for name in &task.options.files {
        let outcome = look_at_file(task, name.as_str());
        status = status.max(outcome.status);
        if outcome.gone {
            break;
        }
    }
    status
}

fn look<R: Threads + Sync>(rt: &HostRuntime, threads: &R, options: &Options) -> ExitCode {
    let request = Request {
        kinds: options.kinds,
        procedure: options.procedure.as_ref().map(|name| name.as_bytes()),
        why: options.why,
        form: options.format,
        style: options.style(rt.stdout().is_terminal(), has_no_color(rt)),
    };
    let task = Task {
        rt,
        threads,
        options,
        request,
    };
    if options.files.is_empty() {
        return ExitCode::from(look_at_input(&task));
    }
    ExitCode::from(look_at_all(&task))
}

// Tells help on standard output, and what is wrong with the words on standard error.
fn tell_words(rt: &HostRuntime, error: &clap::Error) -> ExitCode {
    if error.kind() == clap::error::ErrorKind::OutOfMemory {
        tell_line(rt, Err(OutOfMemory));
        return ExitCode::from(FAILED);
    }
    let told = error.print(rt);
    if error.exit_code() != 0 {
        return ExitCode::from(WORDS);
    }
    match told {
        Ok(()) => ExitCode::SUCCESS,
        Err(_) => ExitCode::from(FAILED),
    }
}

fn run_words<R: Threads + Sync>(rt: &HostRuntime, threads: &R) -> io::Result<ExitCode> {
    let owned: Vec<String> = env::args(rt)?.collect(rt.alloc())?;
    let mut words: Vec<&str> = owned.iter().map(|word| word.as_str()).collect(rt.alloc())?;
    if words.len() <= 1 && rt.stdin().is_terminal() {
        words.push("--help")?;
    }
    match Options::from_words(rt.alloc(), &words) {
        Ok(options) => Ok(look(rt, threads, &options)),
        Err(error) => Ok(tell_words(rt, &error)),
    }
}

fn main(rt: HostRuntime) -> ExitCode {
    match run_words(&rt, &rt) {
        Ok(code) => code,
        Err(error) => {
            if error.kind() == ErrorKind::OutOfMemory {
                tell_line(&rt, Err(OutOfMemory));
                return ExitCode::from(FAILED);
            }
            let _ = rt.stderr().write_all(b"taclint: a word is no text\n");
            ExitCode::from(WORDS)
        }
    }
}
