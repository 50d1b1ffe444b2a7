//! `tacflow`: reads a program of three-address code, and writes its listing, the table of an analysis, or a report.
#![tactic(auto)]

use flow_commands::{Options, run};
use flow_runs::{fault_line, tell_line, tell_no_words, tell_words};
use std::process::ExitCode;
use std::thread::Threads;
use std::{env, io};
use text_pieces::{FromRead, ToWrite};

/// The program's name, which its lines begin with.
const NAME: &str = "tacflow";

// `threads` is the runtime once more: it is a handle for threads only where `main` names it.
fn run_by<R: Threads + Sync>(rt: &HostRuntime, threads: &R, options: Options) -> ExitCode {
    let mut source = FromRead::new(rt.stdin());
    let mut sink = ToWrite::new(rt.stdout());
    match run(threads, rt.alloc(), &mut source, &mut sink, options) {
        Ok(()) => ExitCode::SUCCESS,
        Err(fault) => tell_line(rt, NAME, fault_line(rt.alloc(), NAME, &fault)),
    }
}

fn run_words<R: Threads + Sync>(rt: &HostRuntime, threads: &R) -> io::Result<ExitCode> {
    let owned: Vec<String> = env::args(rt)?.collect(rt.alloc())?;
    let words: Vec<&str> = owned.iter().map(|word| word.as_str()).collect(rt.alloc())?;
    match Options::from_words(rt.alloc(), &words) {
        Ok(options) => Ok(run_by(rt, threads, options)),
        Err(error) => Ok(tell_words(rt, NAME, &error)),
    }
}

fn main(rt: HostRuntime) -> ExitCode {
    match run_words(&rt, &rt) {
        Ok(code) => code,
        Err(error) => tell_no_words(&rt, NAME, &error),
    }
}
