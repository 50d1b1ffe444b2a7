// `tacflow`'s values by hand: what small texts are told, what words name, and what faults of devices leave.

use crate::answers::{check_fault, check_same, check_team};
use clap::error;
use flow_commands::{Options, Show, run};
use flow_graph::GraphFault;
use flow_runs::{Fault, OutOfMemory, fault_line};
use std::alloc::Global;
use std::io::{ErrorKind, Read};
use std::process::Abort;
use std::test::Fail;
use std::thread::Threads;
use tac_reader::{Refusal, RefusalKind};
use test_support::failing_streams::{Page, Pieces, blank_page};
use test_support::worked_programs::series::{numbered, repeated};
use test_support::worked_programs::{ALONE, TEAMS, listed, recursion, refused, small, smallest};
use text_pieces::{FromRead, ToWrite};

/// The program's name, which its lines begin with.
pub(crate) const NAME: &str = "tacflow";

// What comes of a run from the reader to the page.
pub(crate) fn run_to_page<R: Threads + Sync + AllocGlobal, D: Read + Drop>(
    rt: &R,
    reader: D,
    page: &mut Page,
    options: Options,
) -> Result<(), Fault> {
    let mut source = FromRead::new(reader);
    let mut sink = ToWrite::new(page);
    run(rt, rt.alloc(), &mut source, &mut sink, options)
}

// The line of the fault, if there was one, and behind it what was written, by so many workers in slices of this width.
pub(crate) fn output_of<R: Threads + Sync + AllocGlobal, D: Read + Drop>(
    rt: &R,
    reader: D,
    page: &mut Page,
    show: Show,
    team: (u32, u32),
) -> Result<Vec<u8>, Fail> {
    let options = Options::new(team.0, team.1, show).ok_or("options")?;
    let mut line = match run_to_page(rt, reader, &mut *page, options) {
        Ok(()) => Vec::new(rt.alloc()),
        Err(fault) => fault_line(rt.alloc(), NAME, &fault)?,
    };
    line.extend_from_slice(&page.taken)?;
    Ok(line)
}

// The reader's text is answered so by this team, where a write takes so many bytes at most.
pub(crate) fn check_by<R: Threads + Sync + Abort + AllocGlobal, D: Read + Drop>(
    rt: &R,
    reader: D,
    piece: usize,
    show: Show,
    team: (u32, u32),
    answer: &[u8],
) -> Result<(), Fail> {
    let mut page = blank_page(rt.alloc());
    page.piece = piece;
    let got = output_of(rt, reader, &mut page, show, team)?;
    check_team(rt, &got, answer, team);
    Ok(())
}

// The text is answered so, whole or byte by byte, and by each team.
pub(crate) fn check<R: Threads + Sync + Abort + AllocGlobal>(
    rt: &R,
    text: &[u8],
    show: Show,
    answer: &[u8],
) -> Result<(), Fail> {
    for team in TEAMS {
        check_by(rt, text, usize::MAX, show, *team, answer)?;
    }
    let slow = Pieces {
        rest: text,
        piece: 1,
        left: usize::MAX,
        fault: ErrorKind::Other,
    };
    check_by(rt, slow, 1, show, ALONE, answer)
}

// Each text is answered so.
pub(crate) fn check_all<R: Threads + Sync + Abort + AllocGlobal>(
    rt: &R,
    show: Show,
    cases: &[(&str, &str)],
) -> Result<(), Fail> {
    for (text, answer) in cases {
        check(rt, text.as_bytes(), show, answer.as_bytes())?;
    }
    Ok(())
}

// Each text is refused by this line.
pub(crate) fn check_refused<R: Threads + Sync + Abort + AllocGlobal>(
    rt: &R,
    show: Show,
    cases: &[(&[u8], &str)],
) -> Result<(), Fail> {
    for (text, refusal) in cases {
        let line = format!(in rt.alloc(); "{NAME}: {refusal}\n")?;
        check(rt, text, show, line.as_bytes())?;
    }
    Ok(())
}

#[test]
fn refused_lines(rt: HostRuntime) -> Result<(), Fail> {
    check_refused(&rt, Show::List, refused::LINES)
}

#[test]
fn refused_names(rt: HostRuntime) -> Result<(), Fail> {
    check_refused(&rt, Show::List, refused::NAMES)
}

const LISTINGS: &[(&str, &str)] = &[
    (
        "proc main # \u{e9}\nx = 1 #\u{20ac}\n#\u{1d11e}\nend\n",
        "proc main\n  x = 1\nend\n",
    ),
    (
        "proc main\ncall p|q\nend\nproc p\nend\nproc q\nend\n",
        "proc main\n  call p | q\nend\nproc p\nend\nproc q\nend\n",
    ),
    (recursion::TEXT, recursion::LISTING),
];

#[test]
fn listings(rt: HostRuntime) -> Result<(), Fail> {
    check_all(&rt, Show::List, LISTINGS)?;
    for (text, listing) in listed::LAYOUTS {
        check(&rt, text, Show::List, listing.as_bytes())?;
    }
    Ok(())
}

#[test]
fn beginnings(rt: HostRuntime) -> Result<(), Fail> {
    check_refused(&rt, Show::List, refused::BEGINNINGS)?;
    let smallest = smallest::TEXT.as_bytes();
    check(&rt, b"proc main\nend", Show::List, smallest)?;
    check(&rt, smallest, Show::List, smallest)
}

#[test]
fn bytes_that_are_no_text(rt: HostRuntime) -> Result<(), Fail> {
    check_refused(&rt, Show::List, refused::BYTES)?;
    let commented = b"proc main # \0\r\xff\nend\n# \xff\r\0";
    check(&rt, commented, Show::List, smallest::TEXT.as_bytes())
}

// A name of so many bytes between two parts of a text: the text is refused so, or else is its own listing.
fn check_name<R: Threads + Sync + Abort + AllocGlobal>(
    rt: &R,
    before: &str,
    length: usize,
    after: &str,
    refusal: Option<&str>,
) -> Result<(), Fail> {
    let text = repeated(rt.alloc(), before, "n", length, after)?;
    let answer = match refusal {
        Some(line) => line,
        None => text.as_str(),
    };
    check(rt, text.as_bytes(), Show::List, answer.as_bytes())
}

// What stands before a name and behind it, and how one that is too long is refused.
const AROUND_NAMES: &[(&str, &str, &str)] = &[
    (
        "proc main\n  ",
        " = 1\nend\n",
        "tacflow: 2:3: refusal 3: NameTooLong\n",
    ),
    (
        "proc main\n",
        ":\nend\n",
        "tacflow: 2:1: refusal 3: NameTooLong\n",
    ),
    (
        "proc main\n  x = ",
        "\nend\n",
        "tacflow: 2:7: refusal 3: NameTooLong\n",
    ),
    (
        "proc main\nend\nproc ",
        "\nend\n",
        "tacflow: 3:6: refusal 3: NameTooLong\n",
    ),
];

#[test]
fn lengths_of_names(rt: HostRuntime) -> Result<(), Fail> {
    for (before, after, refusal) in AROUND_NAMES {
        check_name(&rt, before, 64, after, None)?;
        check_name(&rt, before, 65, after, Some(refusal))?;
    }
    Ok(())
}

// What stands around the number of each procedure but `main`.
const AROUND_NUMBERS: (&str, &str) = ("proc q", "\nend\n");

#[test]
fn numbers_of_procedures(rt: HostRuntime) -> Result<(), Fail> {
    let most = numbered(rt.alloc(), smallest::TEXT, 1..256, AROUND_NUMBERS, "")?;
    check(&rt, most.as_bytes(), Show::List, most.as_bytes())?;
    let more = numbered(rt.alloc(), smallest::TEXT, 1..257, AROUND_NUMBERS, "")?;
    let refusal = b"tacflow: 513:6: refusal 12: TooManyProcedures\n";
    check(&rt, more.as_bytes(), Show::List, refusal)
}

// How many empty lines stand behind the smallest program, which has 14 bytes, and the answer: at most 1,048,576 bytes are a text.
const LENGTHS: &[(usize, &str)] = &[
    (1_048_576 - 14, "proc main\nend\n"),
    (1_048_577 - 14, "tacflow: 1:1: refusal 11: TextTooLong\n"),
    (1_200_000 - 14, "tacflow: 1:1: refusal 11: TextTooLong\n"),
];

#[test]
fn lengths_of_texts(rt: HostRuntime) -> Result<(), Fail> {
    for (lines, answer) in LENGTHS {
        let text = repeated(rt.alloc(), smallest::TEXT, "\n", *lines, "")?;
        check(&rt, text.as_bytes(), Show::List, answer.as_bytes())?;
    }
    Ok(())
}

// After how many bytes of a longer text the reader fails, and the answer.
const ENDS: &[(usize, &str)] = &[
    (1_048_576, "tacflow: read fault\n"),
    (1_048_577, "tacflow: 1:1: refusal 11: TextTooLong\n"),
];

// Nothing is pulled behind what is one byte too long.
#[test]
fn faults_behind_the_longest_text(rt: HostRuntime) -> Result<(), Fail> {
    let text = repeated(rt.alloc(), smallest::TEXT, "\n", 1_200_000 - 14, "")?;
    for (left, answer) in ENDS {
        let reader = Pieces {
            rest: text.as_bytes(),
            piece: usize::MAX,
            left: *left,
            fault: ErrorKind::Other,
        };
        check_by(
            &rt,
            reader,
            usize::MAX,
            Show::List,
            ALONE,
            answer.as_bytes(),
        )?;
    }
    Ok(())
}

// What is shown of a small program, of each sort: a listing, a table and a report.
const SHOWN: &[(Show, &[u8])] = &[
    (Show::List, b"proc main\nL:\n  x = 1\nend\n"),
    (Show::Reach, b"main 0: x@entry\nmain 1: x@2\n"),
    (
        Show::Report,
        b"points 2, variables 1, definitions 2, expressions 0\n2: assignment to x is dead\n",
    ),
];

// The reader gives so many bytes a call, and after this many in all it fails.
fn check_reader<R: Threads + Sync + Abort + AllocGlobal>(
    rt: &R,
    text: &[u8],
    piece: usize,
    left: usize,
    fault: ErrorKind,
    show: Show,
) -> Result<(), Fail> {
    let reader = Pieces {
        rest: text,
        piece,
        left,
        fault,
    };
    check_by(
        rt,
        reader,
        usize::MAX,
        show,
        ALONE,
        b"tacflow: read fault\n",
    )
}

#[test]
fn faults_of_readers(rt: HostRuntime) -> Result<(), Fail> {
    for (show, _) in SHOWN {
        for left in 0..small::TEXT.as_bytes().len() {
            check_reader(
                &rt,
                small::TEXT.as_bytes(),
                usize::MAX,
                left,
                ErrorKind::Other,
                *show,
            )?;
            check_reader(
                &rt,
                small::TEXT.as_bytes(),
                usize::MAX,
                left,
                ErrorKind::Interrupted,
                *show,
            )?;
        }
    }
    Ok(())
}

// The page fails once it has taken this beginning of the answer.
fn check_page<R: Threads + Sync + Abort + AllocGlobal>(
    rt: &R,
    text: &[u8],
    show: Show,
    mut page: Page,
    beginning: &[u8],
) -> Result<(), Fail> {
    let got = output_of(rt, text, &mut page, show, ALONE)?;
    let line = b"tacflow: write fault\n";
    check_fault(rt, &got, line, &page.taken, beginning);
    Ok(())
}

// The writer takes so many bytes of the answer to a text, and then fails or takes none.
fn check_writer<R: Threads + Sync + Abort + AllocGlobal>(
    rt: &R,
    text: &[u8],
    show: Show,
    answer: &[u8],
    left: usize,
    fault: Option<ErrorKind>,
) -> Result<(), Fail> {
    let beginning = answer.get(..left).ok_or("a beginning")?;
    let mut page = blank_page(rt.alloc());
    page.left = left;
    page.fault = fault;
    check_page(rt, text, show, page, beginning)
}

#[test]
fn faults_of_writers(rt: HostRuntime) -> Result<(), Fail> {
    for (show, text) in SHOWN {
        for left in 0..text.len() {
            check_writer(
                &rt,
                small::TEXT.as_bytes(),
                *show,
                text,
                left,
                Some(ErrorKind::Other),
            )?;
        }
        for left in &[0, 5] {
            check_writer(
                &rt,
                small::TEXT.as_bytes(),
                *show,
                text,
                *left,
                Some(ErrorKind::Interrupted),
            )?;
            check_writer(&rt, small::TEXT.as_bytes(), *show, text, *left, None)?;
        }
        let mut page = blank_page(rt.alloc());
        page.flushes = false;
        check_page(&rt, small::TEXT.as_bytes(), *show, page, text)?;
    }
    Ok(())
}

// What is shown of the smallest program.
const SMALLEST_SHOWN: &[(Show, &str)] = &[
    (Show::List, smallest::TEXT),
    (Show::Reach, smallest::TABLE),
];

// A reader fails after each number of bytes, also in place of the end; a writer after each number below all, or takes none.
#[test]
fn faults_around_the_smallest(rt: HostRuntime) -> Result<(), Fail> {
    let program = smallest::TEXT.as_bytes();
    for (show, text) in SMALLEST_SHOWN {
        for left in 0..=program.len() {
            check_reader(&rt, program, 1, left, ErrorKind::Other, *show)?;
        }
        let text = text.as_bytes();
        for left in 0..text.len() {
            check_writer(&rt, program, *show, text, left, Some(ErrorKind::Other))?;
            check_writer(&rt, program, *show, text, left, None)?;
        }
    }
    Ok(())
}

// How many statements the program of the next tests has: enough that each answer has more than two pieces.
const PRINTS: u32 = 12_000;

// That program, as a listing has it.
fn prints(alloc: Global) -> Result<String, OutOfMemory> {
    repeated(
        alloc,
        "proc main\n",
        "  print a\n",
        PRINTS as usize,
        "end\n",
    )
}

// The ends of two pieces, and the places around them.
const CUTS: &[usize] = &[0, 1, 65_535, 65_536, 65_537, 131_071, 131_072];

// The whole answer to that program, and its beginnings where the writer fails around the ends of pieces.
fn check_pieces<R: Threads + Sync + Abort + AllocGlobal>(
    rt: &R,
    text: &[u8],
    show: Show,
    answer: &[u8],
) -> Result<(), Fail> {
    check_by(rt, text, usize::MAX, show, ALONE, answer)?;
    assert!(rt; answer.len() > 2 * 65_536);
    for left in CUTS {
        check_writer(rt, text, show, answer, *left, Some(ErrorKind::Other))?;
    }
    let all_but_one = answer.len() - 1;
    check_writer(rt, text, show, answer, all_but_one, Some(ErrorKind::Other))
}

// What stands around a number in its table of live variables, whose only one is live before each statement, and in its report, since
// no statement sets that one.
const AROUND_PLACES: (&str, &str) = ("main ", ": a\n");

const AROUND_LINES: (&str, &str) = ("", ": a may be used before it is set\n");

const FIRST_LINE: &str = "points 12001, variables 1, definitions 1, expressions 0\n";

#[test]
fn faults_of_writers_around_pieces(rt: HostRuntime) -> Result<(), Fail> {
    let text = prints(rt.alloc())?;
    let text = text.as_bytes();
    let last = "main 12000: -\n";
    let table = numbered(rt.alloc(), "", 0..PRINTS, AROUND_PLACES, last)?;
    check_pieces(&rt, text, Show::Live, table.as_bytes())?;
    let report = numbered(rt.alloc(), FIRST_LINE, 2..PRINTS + 2, AROUND_LINES, "")?;
    check_pieces(&rt, text, Show::Report, report.as_bytes())
}

// A listing of 120,014 bytes, which is the text itself.
#[test]
fn listing_of_two_pieces(rt: HostRuntime) -> Result<(), Fail> {
    let text = prints(rt.alloc())?;
    let text = text.as_bytes();
    for left in &[65_535, 65_536, 65_537, 120_013] {
        check_writer(&rt, text, Show::List, text, *left, None)?;
    }
    check_by(&rt, text, usize::MAX, Show::List, ALONE, text)
}

// The line that tells the fault.
fn check_line<R: Abort + AllocGlobal>(rt: &R, fault: &Fault, wanted: &str) -> Result<(), Fail> {
    let line = fault_line(rt.alloc(), NAME, fault)?;
    check_same(rt, &line, wanted.as_bytes());
    Ok(())
}

// The fault behind the program's name.
fn check_shown<R: Abort + AllocGlobal>(rt: &R, fault: &Fault, wanted: &str) -> Result<(), Fail> {
    let shown = format!(in rt.alloc(); "tacflow: {fault}\n")?;
    check_same(rt, shown.as_bytes(), wanted.as_bytes());
    Ok(())
}

const REFUSALS: &[(RefusalKind, &str)] = &[
    (
        RefusalKind::BadByte,
        "tacflow: 10:4294967295: refusal 1: BadByte\n",
    ),
    (
        RefusalKind::NumberTooLarge,
        "tacflow: 10:4294967295: refusal 2: NumberTooLarge\n",
    ),
    (
        RefusalKind::NameTooLong,
        "tacflow: 10:4294967295: refusal 3: NameTooLong\n",
    ),
    (
        RefusalKind::Syntax,
        "tacflow: 10:4294967295: refusal 4: Syntax\n",
    ),
    (
        RefusalKind::Unclosed,
        "tacflow: 10:4294967295: refusal 5: Unclosed\n",
    ),
    (
        RefusalKind::NoMain,
        "tacflow: 10:4294967295: refusal 6: NoMain\n",
    ),
    (
        RefusalKind::DuplicateProcedure,
        "tacflow: 10:4294967295: refusal 7: DuplicateProcedure\n",
    ),
    (
        RefusalKind::DuplicateLabel,
        "tacflow: 10:4294967295: refusal 8: DuplicateLabel\n",
    ),
    (
        RefusalKind::UnknownLabel,
        "tacflow: 10:4294967295: refusal 9: UnknownLabel\n",
    ),
    (
        RefusalKind::UnknownProcedure,
        "tacflow: 10:4294967295: refusal 10: UnknownProcedure\n",
    ),
    (
        RefusalKind::TextTooLong,
        "tacflow: 10:4294967295: refusal 11: TextTooLong\n",
    ),
    (
        RefusalKind::TooManyProcedures,
        "tacflow: 10:4294967295: refusal 12: TooManyProcedures\n",
    ),
    (
        RefusalKind::DuplicateCallee,
        "tacflow: 10:4294967295: refusal 13: DuplicateCallee\n",
    ),
];

#[test]
fn lines_of_faults(rt: HostRuntime) -> Result<(), Fail> {
    for (kind, wanted) in REFUSALS {
        let refusal = Refusal {
            kind: *kind,
            line: 10,
            column: 4294967295,
        };
        check_line(&rt, &Fault::Refused(refusal), wanted)?;
        check_shown(&rt, &Fault::Refused(refusal), wanted)?;
    }
    Ok(())
}

const OTHER_FAULTS: &[(Fault, &str)] = &[
    (
        Fault::Graph(GraphFault::TooManyPoints),
        "tacflow: refusal 21: TooManyPoints\n",
    ),
    (
        Fault::Graph(GraphFault::TooManyBits),
        "tacflow: refusal 22: TooManyBits\n",
    ),
    (Fault::NoProcedure, "tacflow: no such procedure\n"),
    (
        Fault::LargeProcedure,
        "tacflow: the procedure is too large\n",
    ),
    (Fault::OutOfMemory, "tacflow: out of memory\n"),
    (Fault::Read, "tacflow: read fault\n"),
    (Fault::Write, "tacflow: write fault\n"),
];

#[test]
fn lines_of_other_faults(rt: HostRuntime) -> Result<(), Fail> {
    for (fault, wanted) in OTHER_FAULTS {
        check_line(&rt, fault, wanted)?;
    }
    Ok(())
}

// Numbers of workers and widths of slices that are taken, and others that are not.
const IN_RANGE: &[(u32, u32)] = &[(1, 1), (64, 4096), (1, 4096), (64, 1)];

const OUT_OF_RANGE: &[(u32, u32)] = &[(0, 64), (65, 64), (1, 0), (1, 4097), (u32::MAX, 64)];

#[test]
fn ranges_of_options(rt: HostRuntime) {
    for (workers, cut) in IN_RANGE {
        assert!(rt; Options::new(*workers, *cut, Show::List).is_some());
    }
    for (workers, cut) in OUT_OF_RANGE {
        assert!(rt; Options::new(*workers, *cut, Show::List).is_none());
    }
}

// Words that name each option.
pub(crate) const ALL_WORDS: &[&str] = &[
    "tacflow",
    "--workers",
    "64",
    "--cut=4096",
    "--show",
    "busy",
];

// What the words name, or the kind of the error.
pub(crate) fn named_by(alloc: Global, words: &[&str]) -> Result<Options, error::ErrorKind> {
    match Options::from_words(alloc, words) {
        Ok(options) => Ok(options),
        Err(error) => Err(error.kind()),
    }
}

// The words name this team and this kind.
pub(crate) fn check_options<R: Abort>(rt: &R, options: Options, team: (u32, u32), show: Show) {
    assert!(rt; options.workers == team.0 && options.cut == team.1 && options.show == show);
}

// Words that name one kind alone.
const SHOWS: &[(&str, Show)] = &[
    ("report", Show::Report),
    ("list", Show::List),
    ("reach", Show::Reach),
    ("live", Show::Live),
    ("avail", Show::Avail),
];

#[test]
fn words_that_are_taken(rt: HostRuntime) -> Result<(), Fail> {
    let options = named_by(rt.alloc(), &["tacflow"])?;
    check_options(&rt, options, (1, 64), Show::Report);
    let options = named_by(rt.alloc(), ALL_WORDS)?;
    check_options(&rt, options, (64, 4096), Show::Busy);
    for (word, show) in SHOWS {
        let options = named_by(rt.alloc(), &["tacflow", "--show", word])?;
        assert!(rt; options.show == *show);
    }
    Ok(())
}

const REFUSED_WORDS: &[[&str; 3]] = &[
    ["tacflow", "--workers", "0"],
    ["tacflow", "--workers", "65"],
    ["tacflow", "--workers", "x"],
    ["tacflow", "--cut", "0"],
    ["tacflow", "--cut", "4097"],
    ["tacflow", "--show", "none"],
    ["tacflow", "--show", "List"],
    ["tacflow", "--show", ""],
    ["tacflow", "--show=list", "more"],
    ["tacflow", "--show=list", "--show=list"],
    ["tacflow", "--cut=1", "--show"],
    ["tacflow", "--cut=1", "--shown"],
];

#[test]
fn words_that_are_refused(rt: HostRuntime) -> Result<(), Fail> {
    for words in REFUSED_WORDS {
        assert!(rt; named_by(rt.alloc(), words.as_slice()).is_err());
    }
    Ok(())
}
