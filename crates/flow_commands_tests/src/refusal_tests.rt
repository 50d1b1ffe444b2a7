// Each call of `tacflow` that takes memory, as `test_support` has it.

use crate::answers::check_same;
use crate::tacflow_tests::{ALL_WORDS, NAME, check_options, named_by, run_to_page};
use clap::error::ErrorKind;
use flow_commands::{Options, Show};
use flow_runs::{Fault, fault_line};
use std::process::Abort;
use std::test::Fail;
use std::thread::Threads;
use tac_reader::{Refusal, RefusalKind};
use test_support::failing_streams::blank_page;
use test_support::refusal_probes::named;
use test_support::worked_programs::{both_branches, call_between, recursion};
use test_support::{again, all_or_nothing};

// What is shown of each program.
const RECURSION_SHOWN: &[(Show, &str)] = &[
    (Show::List, recursion::LISTING),
    (Show::Reach, recursion::REACH),
    (
        Show::Live,
        "main 0: -\nmain 1: x\nmain 2: x\nmain 3: -\nf 0: x\nf 1: x\nf 2: -\nf 3: x\n",
    ),
    (
        Show::Avail,
        "main 0: -\nmain 1: -\nmain 2: -\nmain 3: -\nf 0: -\nf 1: -\nf 2: -\nf 3: -\n",
    ),
    (
        Show::Busy,
        "main 0: -\nmain 1: -\nmain 2: -\nmain 3: -\nf 0: -\nf 1: -\nf 2: -\nf 3: -\n",
    ),
    (Show::Report, recursion::REPORT),
];

const CALL_BETWEEN_SHOWN: &[(Show, &str)] = &[
    (
        Show::List,
        "proc main\n  a = b + c\n  call p\n  d = b + c\nend\nproc p\n  if c goto L\n  b = 1\nL:\nend\n",
    ),
    (
        Show::Reach,
        "main 0: a@entry, b@entry, c@entry, d@entry\nmain 1: b@entry, c@entry, d@entry, a@2\n\
        main 2: b@entry, c@entry, d@entry, a@2, b@8\nmain 3: b@entry, c@entry, a@2, d@4, b@8\n\
        p 0: b@entry, c@entry, d@entry, a@2\np 1: b@entry, c@entry, d@entry, a@2\np 2: b@entry, c@entry, d@entry, a@2, b@8\n",
    ),
    (
        Show::Live,
        "main 0: b, c\nmain 1: b, c\nmain 2: b, c\nmain 3: -\np 0: b, c\np 1: c\np 2: b, c\n",
    ),
    (
        Show::Avail,
        "main 0: -\nmain 1: b + c\nmain 2: -\nmain 3: b + c\np 0: b + c\np 1: b + c\np 2: -\n",
    ),
    (
        Show::Busy,
        "main 0: b + c\nmain 1: -\nmain 2: b + c\nmain 3: -\np 0: -\np 1: -\np 2: b + c\n",
    ),
    (Show::Report, call_between::REPORT),
];

const BOTH_BRANCHES_SHOWN: &[(Show, &str)] = &[
    (
        Show::List,
        "proc main\n  read b\n  read c\n  if c goto L\n  x = b + c\n  print x\n  return\nL:\n  y = b + c\n  print y\nend\n",
    ),
    (
        Show::Reach,
        "main 0: b@entry, c@entry, x@entry, y@entry\nmain 1: c@entry, x@entry, y@entry, b@2\n\
        main 2: x@entry, y@entry, b@2, c@3\nmain 3: x@entry, y@entry, b@2, c@3\n\
        main 4: y@entry, b@2, c@3, x@5\nmain 5: y@entry, b@2, c@3, x@5\n\
        main 6: x@entry, y@entry, b@2, c@3\nmain 7: x@entry, b@2, c@3, y@8\nmain 8: x@entry, y@entry, b@2, c@3, x@5, y@8\n",
    ),
    (
        Show::Live,
        "main 0: -\nmain 1: b\nmain 2: b, c\nmain 3: b, c\nmain 4: x\nmain 5: -\nmain 6: b, c\nmain 7: y\nmain 8: -\n",
    ),
    (
        Show::Avail,
        "main 0: -\nmain 1: -\nmain 2: -\nmain 3: -\nmain 4: b + c\nmain 5: b + c\nmain 6: -\nmain 7: b + c\nmain 8: b + c\n",
    ),
    (Show::Busy, both_branches::BUSY),
    (Show::Report, both_branches::REPORT),
];

// The answer to a text, by so many workers in slices of one bit.
fn check_show<R: Threads + Sync + Abort + AllocGlobal>(
    rt: &R,
    text: &str,
    show: Show,
    answer: &str,
    workers: u32,
) -> Result<(), Fail> {
    let options = Options::new(workers, 1, show).ok_or("options")?;
    let mut page = blank_page(rt.alloc());
    page.taken = Vec::with_capacity(rt.alloc(), 512)?;
    let outcome = run_to_page(rt, text.as_bytes(), &mut page, options);
    all_or_nothing!(
        rt,
        "run of tacflow",
        outcome,
        Fault::OutOfMemory,
        page.taken.as_slice(),
        answer.as_bytes()
    )
}

// Each kind of answer to a text, by one worker and by three.
fn check_shows<R: Threads + Sync + Abort + AllocGlobal>(
    rt: &R,
    text: &str,
    answers: &[(Show, &str)],
) -> Result<(), Fail> {
    for (show, answer) in answers {
        check_show(rt, text, *show, answer, 1)?;
        check_show(rt, text, *show, answer, 3)?;
    }
    Ok(())
}

#[test]
fn run_of_a_recursive_program_is_refused(rt: HostRuntime) -> Result<(), Fail> {
    check_shows(&rt, recursion::TEXT, RECURSION_SHOWN)
}

#[test]
fn run_of_a_call_between_is_refused(rt: HostRuntime) -> Result<(), Fail> {
    check_shows(&rt, call_between::TEXT, CALL_BETWEEN_SHOWN)
}

#[test]
fn run_of_both_branches_is_refused(rt: HostRuntime) -> Result<(), Fail> {
    check_shows(&rt, both_branches::TEXT, BOTH_BRANCHES_SHOWN)
}

#[test]
fn line_of_a_fault_is_refused(rt: HostRuntime) -> Result<(), Fail> {
    let refusal = Refusal {
        kind: RefusalKind::UnknownLabel,
        line: 12,
        column: 6,
    };
    let fault = Fault::Refused(refusal);
    let mut refused = None;
    let line = again!(refused, "fault_line", fault_line(rt.alloc(), NAME, &fault));
    check_same(&rt, &line, b"tacflow: 12:6: refusal 9: UnknownLabel\n");
    named(refused)
}

// What the words name, or want of memory; and then what they name.
#[test]
fn words_are_refused(rt: HostRuntime) -> Result<(), Fail> {
    let mut refused = None;
    let mut options = named_by(rt.alloc(), ALL_WORDS);
    if options == Err(ErrorKind::OutOfMemory) {
        refused = Some("Options::from_words");
        options = named_by(rt.alloc(), ALL_WORDS);
    }
    check_options(&rt, options?, (64, 4096), Show::Busy);
    named(refused)
}
