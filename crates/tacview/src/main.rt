//! `tacview`: reads a program of three-address code, and writes its flow graph with what holds at its points, for Graphviz or as
//! lines of JSON, or a page around these, or the report on it, whole or a part of it. It merges such parts too.
#![tactic(auto)]

use flow_runs::{fault_line, push_text, tell_line, tell_no_words, tell_words};
use run_progress::{Progress, Terminal};
use std::io::Write;
use std::process::ExitCode;
use std::thread::Threads;
use std::{env, fs, io};
use text_pieces::{Bytes, FromRead, ToWrite};
use view_commands::{
    Counted, SLOW_PAGE, file_line, files_to_merge, large_page_line, line_of, merge_files, run,
};
use view_words::{Format, Options};

/// The program's name, which its lines begin with.
const NAME: &str = "tacview";

// Tells of a page that takes long to open.
fn tell_size(rt: &HostRuntime, format: Format, bytes: u64) {
    if !matches!(format, Format::Html | Format::HtmlPaths | Format::HtmlSteps)
        || bytes <= SLOW_PAGE
    {
        return;
    }
    if let Ok(line) = large_page_line(rt.alloc(), bytes) {
        let _ = rt.stderr().write_all(&line);
    }
}

// `threads` is the runtime once more: it is a handle for threads only where `main` names it.
fn run_by<R: Threads + Sync>(rt: &HostRuntime, threads: &R, options: &Options) -> ExitCode {
    let mut source = FromRead::new(rt.stdin());
    let mut sink = Counted::new(ToWrite::new(rt.stdout()));
    let progress = Progress::new(rt.alloc(), NAME, Terminal::of(*rt));
    match run(
        threads,
        rt.alloc(),
        &mut source,
        &mut sink,
        options,
        &progress,
    ) {
        Ok(()) => {
            tell_size(rt, options.format, sink.bytes());
            ExitCode::SUCCESS
        }
        Err(fault) => tell_line(rt, NAME, line_of(rt.alloc(), &options.asked, &fault)),
    }
}

// Writes the report that files with its parts make.
fn merge(rt: &HostRuntime, names: &[&str]) -> io::Result<ExitCode> {
    let mut texts = Vec::new(rt.alloc());
    for name in names {
        match fs::read(rt, *name) {
            Ok(text) => texts.push(text)?,
            Err(error) if error.kind() == io::ErrorKind::OutOfMemory => return Err(error),
            Err(_) => return Ok(tell_line(rt, NAME, file_line(rt.alloc(), name, b"read fault"))),
        }
    }
    let read: Vec<&[u8]> = texts
        .iter()
        .map(|text| text.as_slice())
        .collect(rt.alloc())?;
    match merge_files(rt.alloc(), names, &read)? {
        Ok(report) => Ok(write_report(rt, &report)),
        Err(line) => Ok(tell_line(rt, NAME, Ok(line))),
    }
}

fn write_report(rt: &HostRuntime, report: &[u8]) -> ExitCode {
    let mut sink = ToWrite::new(rt.stdout());
    match push_text(rt.alloc(), &Bytes(report), &mut sink) {
        Ok(()) => ExitCode::SUCCESS,
        Err(fault) => tell_line(rt, NAME, fault_line(rt.alloc(), NAME, &fault)),
    }
}

fn run_words<R: Threads + Sync>(rt: &HostRuntime, threads: &R) -> io::Result<ExitCode> {
    let owned: Vec<String> = env::args(rt)?.collect(rt.alloc())?;
    let words: Vec<&str> = owned.iter().map(|word| word.as_str()).collect(rt.alloc())?;
    if let Some(names) = files_to_merge(&words) {
        return merge(rt, names);
    }
    match Options::from_words(rt.alloc(), &words) {
        Ok(options) => Ok(run_by(rt, threads, &options)),
        Err(error) => Ok(tell_words(rt, NAME, &error)),
    }
}

fn main(rt: HostRuntime) -> ExitCode {
    match run_words(&rt, &rt) {
        Ok(code) => code,
        Err(error) => tell_no_words(&rt, NAME, &error),
    }
}
