// What `tacview`'s words name, by hand.

use crate::tacview_tests::{ALL, NONE, PLAIN, REACH};
use clap::error;
use flow_views::{Chosen, Look};
use std::alloc::Global;
use std::test::Fail;
use tac_program::Limits;
use view_words::{Asked, Format, Options};

// The workers, the width, the format and the facts that the words name, or the kind of the error.
fn named_by(alloc: Global, words: &[&str]) -> Result<(u32, u32, Format, Chosen), error::ErrorKind> {
    match Options::from_words(alloc, words) {
        Ok(options) => Ok((options.workers, options.cut, options.format, options.facts)),
        Err(error) => Err(error.kind()),
    }
}

// What the words ask for by its name, or the kind of the error.
fn asked_by(alloc: Global, words: &[&str]) -> Result<Asked, error::ErrorKind> {
    match Options::from_words(alloc, words) {
        Ok(options) => Ok(options.asked),
        Err(error) => Err(error.kind()),
    }
}

// The limits that the words name, or the kind of the error.
fn limits_by(alloc: Global, words: &[&str]) -> Result<Limits, error::ErrorKind> {
    match Options::from_words(alloc, words) {
        Ok(options) => Ok(options.limits),
        Err(error) => Err(error.kind()),
    }
}

const ALL_WORDS: &[&str] = &[
    "tacview",
    "--workers=64",
    "--cut",
    "4096",
    "--format=dot",
    "--procedure",
    "f",
    "--facts=all",
    "--limits=large",
    "--because=3:x",
];

// A page with paths and a title.
const TITLED: &[&str] = &["tacview", "--title", "a < b", "--paths", "--format=html"];

#[test]
fn words_that_are_taken(rt: HostRuntime) -> Result<(), Fail> {
    let (workers, cut, format, facts) = named_by(rt.alloc(), &["tacview"])?;
    assert!(rt; workers == 1 && cut == 64 && format == Format::Dot && facts == NONE);
    let (_, _, format, facts) = named_by(rt.alloc(), &["tacview", "--format", "json"])?;
    assert!(rt; facts == ALL && format == Format::Json);
    let (_, _, format, facts) = named_by(rt.alloc(), &["tacview", "--format", "json", "--paths"])?;
    assert!(rt; facts == ALL && format == Format::JsonPaths);
    let (_, _, format, facts) = named_by(
        rt.alloc(),
        &["tacview", "--format", "json", "--changes"],
    )?;
    assert!(rt; facts == ALL && format == Format::JsonChanges);
    let (_, _, format, facts) = named_by(rt.alloc(), &["tacview", "--format", "html"])?;
    assert!(rt; facts == ALL && format == Format::Html);
    let (_, _, format, facts) = named_by(rt.alloc(), TITLED)?;
    assert!(rt; facts == ALL && format == Format::HtmlPaths);
    assert_eq!(rt;
        asked_by(rt.alloc(), TITLED)?
            .title
            .ok_or("a title")?
            .as_str(),
        "a < b"
    );
    let (_, _, format, facts) = named_by(rt.alloc(), &["tacview", "--format", "report"])?;
    assert!(rt; facts == NONE && format == Format::Report);
    let (workers, cut, _, facts) = named_by(rt.alloc(), ALL_WORDS)?;
    assert!(rt; workers == 64 && cut == 4096 && facts == ALL);
    let none = asked_by(rt.alloc(), &["tacview"])?;
    assert!(rt; none.procedure.is_none() && none.because.is_none() && none.title.is_none());
    let asked = asked_by(rt.alloc(), ALL_WORDS)?;
    assert_eq!(rt; asked.procedure.ok_or("a name")?.as_str(), "f");
    assert_eq!(rt; asked.because.ok_or("a place")?.as_str(), "3:x");
    Ok(())
}

// Words for how a picture looks, and what they name.
const LOOKS: &[(&[&str], Look)] = &[
    (&["tacview"], PLAIN),
    (
        &["tacview", "--hide-entry", "--legend"],
        Look {
            hides_entry: true,
            behind: false,
            hovers: false,
            legend: true,
            changes: false,
        },
    ),
    (
        &[
            "tacview",
            "--facts-on-hover",
            "--facts-behind",
            "--format=dot",
        ],
        Look {
            hides_entry: false,
            behind: true,
            hovers: true,
            legend: false,
            changes: false,
        },
    ),
    (
        &["tacview", "--facts=all", "--changes"],
        Look {
            hides_entry: false,
            behind: false,
            hovers: false,
            legend: false,
            changes: true,
        },
    ),
    (
        &["tacview", "--facts-behind", "--because=3", "--hide-entry"],
        Look {
            hides_entry: true,
            behind: true,
            hovers: false,
            legend: false,
            changes: false,
        },
    ),
];

// Words for the call graph.
const CALLS: &[&[&str]] = &[
    &["tacview", "--calls"],
    &["tacview", "--legend", "--calls", "--facts=none"],
];

// It has no facts, no looks of them, and is of all procedures.
const NO_CALLS: &[&[&str]] = &[
    &["tacview", "--calls", "--format=json"],
    &["tacview", "--calls", "--format=html"],
    &["tacview", "--calls", "--format=report"],
    &["tacview", "--calls", "--procedure=main"],
    &["tacview", "--calls", "--facts=reach"],
    &["tacview", "--calls", "--because=3"],
    &["tacview", "--calls", "--changes"],
    &["tacview", "--calls", "--paths"],
    &["tacview", "--calls", "--hide-entry"],
    &["tacview", "--calls", "--facts-behind"],
    &["tacview", "--calls", "--facts-on-hover"],
    &["tacview", "--calls", "--part=1/2"],
    &["tacview", "--calls", "--title=t"],
];

#[test]
fn calls_that_are_named(rt: HostRuntime) -> Result<(), Fail> {
    for words in CALLS {
        let (_, _, format, facts) = named_by(rt.alloc(), words)?;
        assert!(rt; format == Format::Calls && facts == NONE);
    }
    for words in NO_CALLS {
        match named_by(rt.alloc(), words) {
            Ok(_) => assert!(rt; false),
            Err(kind) => assert!(rt; kind == error::ErrorKind::ArgumentConflict),
        }
    }
    Ok(())
}

// Words for rounds, and which text they name.
const STEPS: &[(&[&str], Format)] = &[
    (
        &["tacview", "--format=json", "--steps", "--procedure=main"],
        Format::Steps,
    ),
    (
        &[
            "tacview",
            "--steps",
            "--procedure",
            "f",
            "--facts=all",
            "--limits=large",
            "--format=json",
        ],
        Format::Steps,
    ),
    (
        &[
            "tacview",
            "--steps",
            "--procedure=main",
            "--title=t",
            "--format=html",
        ],
        Format::HtmlSteps,
    ),
];

// They are of one procedure, and lines of JSON or a page.
const NO_STEPS: &[&[&str]] = &[
    &["tacview", "--steps", "--format=json"],
    &["tacview", "--steps", "--format=html"],
    &["tacview", "--steps", "--procedure=main"],
    &["tacview", "--steps", "--procedure=main", "--format=report"],
    &["tacview", "--steps", "--procedure=main", "--calls"],
    &["tacview", "--steps", "--procedure=main", "--blocks"],
    &[
        "tacview",
        "--steps",
        "--procedure=main",
        "--format=json",
        "--paths",
    ],
    &[
        "tacview",
        "--steps",
        "--procedure=main",
        "--format=html",
        "--paths",
    ],
    &[
        "tacview",
        "--steps",
        "--procedure=main",
        "--format=json",
        "--changes",
    ],
    &[
        "tacview",
        "--steps",
        "--procedure=main",
        "--format=json",
        "--because=3",
    ],
    &[
        "tacview",
        "--steps",
        "--procedure=main",
        "--format=json",
        "--legend",
    ],
    &[
        "tacview",
        "--steps",
        "--procedure=main",
        "--format=json",
        "--facts=none",
        "--part=1/2",
    ],
    &[
        "tacview",
        "--steps",
        "--procedure=main",
        "--format=json",
        "--title=t",
    ],
];

#[test]
fn rounds_that_are_named(rt: HostRuntime) -> Result<(), Fail> {
    for (words, wanted) in STEPS {
        let (_, _, format, facts) = named_by(rt.alloc(), words)?;
        assert!(rt; format == *wanted && facts == ALL);
    }
    for words in NO_STEPS {
        match named_by(rt.alloc(), words) {
            Ok(_) => assert!(rt; false),
            Err(kind) => assert!(rt; kind == error::ErrorKind::ArgumentConflict),
        }
    }
    Ok(())
}

// Looks go with pictures alone, and differences neither with paths nor in reports.
const NO_LOOKS: &[&[&str]] = &[
    &["tacview", "--format=json", "--hide-entry"],
    &["tacview", "--format=json", "--facts-on-hover"],
    &["tacview", "--format=html", "--legend"],
    &["tacview", "--format=json", "--paths", "--facts-behind"],
    &["tacview", "--format=json", "--changes", "--facts-behind"],
    &["tacview", "--format=json", "--changes", "--paths"],
    &[
        "tacview",
        "--format=report",
        "--hide-entry",
        "--facts-behind",
    ],
];

#[test]
fn looks_that_are_named(rt: HostRuntime) -> Result<(), Fail> {
    for (words, look) in LOOKS {
        let asked = asked_by(rt.alloc(), words)?;
        assert!(rt; asked.look == *look);
    }
    for words in NO_LOOKS {
        match named_by(rt.alloc(), words) {
            Ok(_) => assert!(rt; false),
            Err(kind) => assert!(rt; kind == error::ErrorKind::ArgumentConflict),
        }
    }
    Ok(())
}

// Words for a part, and which part of how many they name.
const SHARES: &[(&str, u32, u32)] = &[
    ("1/1", 1, 1),
    ("2/3", 2, 3),
    ("4096/4096", 4_096, 4_096),
    ("007/0010", 7, 10),
];

#[test]
fn parts_that_are_named(rt: HostRuntime) -> Result<(), Fail> {
    for (words, part, count) in SHARES {
        let asked = asked_by(rt.alloc(), &["tacview", "--format=report", "--part", words])?;
        let share = asked.share.ok_or("a part")?;
        assert!(rt; share.part == *part && share.count == *count);
    }
    let whole = asked_by(rt.alloc(), &["tacview", "--format=report"])?;
    assert!(rt; whole.share.is_none());
    let words = ["tacview", "--facts=none", "--part=2/3", "--format=json"];
    let share = asked_by(rt.alloc(), &words)?.share.ok_or("a part")?;
    assert!(rt; share.part == 2 && share.count == 3);
    Ok(())
}

// Lines of JSON have parts of all procedures without facts alone.
const NO_PARTS: &[&[&str]] = &[
    &["tacview", "--format=json", "--part=1/2"],
    &["tacview", "--format=json", "--part=1/2", "--facts=all"],
    &[
        "tacview",
        "--format=json",
        "--part=1/2",
        "--facts=none,live",
    ],
    &[
        "tacview",
        "--format=json",
        "--part=1/2",
        "--facts=none",
        "--procedure=main",
    ],
    &[
        "tacview",
        "--format=json",
        "--part=1/2",
        "--facts=none",
        "--paths",
    ],
    &[
        "tacview",
        "--format=json",
        "--part=1/2",
        "--facts=none",
        "--changes",
    ],
    &[
        "tacview",
        "--format=json",
        "--part=1/2",
        "--facts=none",
        "--legend",
    ],
];

#[test]
fn parts_that_json_lacks(rt: HostRuntime) {
    for words in NO_PARTS {
        match named_by(rt.alloc(), words) {
            Ok(_) => assert!(rt; false),
            Err(kind) => assert!(rt; kind == error::ErrorKind::ArgumentConflict),
        }
    }
}

const NO_SHARES: &[&str] = &[
    "",
    "/",
    "1",
    "1/",
    "/1",
    "0/1",
    "2/1",
    "1/0",
    "1/4097",
    "4097/4097",
    "+1/2",
    "1/2/3",
    " 1/2",
    "1 /2",
    "1/2x",
    "99999999999999999999/1",
];

#[test]
fn words_that_name_no_part(rt: HostRuntime) {
    for words in NO_SHARES {
        let line = ["tacview", "--format=report", "--part", words];
        match named_by(rt.alloc(), &line) {
            Ok(_) => assert!(rt; false),
            Err(kind) => assert!(rt; kind == error::ErrorKind::InvalidValue),
        }
    }
}

#[test]
fn limits_that_are_named(rt: HostRuntime) -> Result<(), Fail> {
    assert!(rt; limits_by(rt.alloc(), &["tacview"])? == Limits::Standard);
    assert!(rt; limits_by(rt.alloc(), &["tacview", "--limits", "standard"])? == Limits::Standard);
    assert!(rt; limits_by(rt.alloc(), &["tacview", "--limits", "large"])? == Limits::Large);
    assert!(rt; limits_by(rt.alloc(), ALL_WORDS)? == Limits::Large);
    Ok(())
}

// Lists of analyses, and whose facts each names.
const LISTS: &[(&str, Chosen)] = &[
    ("none", NONE),
    ("all", ALL),
    ("reach", REACH),
    (
        "live,reach",
        Chosen {
            reach: true,
            live: true,
            avail: false,
            busy: false,
        },
    ),
    (
        "busy,busy",
        Chosen {
            reach: false,
            live: false,
            avail: false,
            busy: true,
        },
    ),
    ("avail,busy,live,reach", ALL),
];

#[test]
fn lists_of_facts(rt: HostRuntime) -> Result<(), Fail> {
    for (list, wanted) in LISTS {
        let (_, _, _, facts) = named_by(rt.alloc(), &["tacview", "--facts", list])?;
        assert!(rt; facts == *wanted);
    }
    Ok(())
}

const REFUSED_WORDS: &[[&str; 3]] = &[
    ["tacview", "--workers", "0"],
    ["tacview", "--cut", "4097"],
    ["tacview", "--format", "svg"],
    ["tacview", "--format", "Dot"],
    ["tacview", "--format", "reports"],
    ["tacview", "--limits", "small"],
    ["tacview", "--limits", "Large"],
    ["tacview", "--limits=large", "--limits=large"],
    ["tacview", "--facts", ""],
    ["tacview", "--facts", "reach,"],
    ["tacview", "--facts", "reach live"],
    ["tacview", "--facts", "Reach"],
    ["tacview", "--facts", "none,reach"],
    ["tacview", "--facts", "all,reach"],
    ["tacview", "--facts=reach", "--facts=live"],
    ["tacview", "--facts=reach", "--procedure"],
    ["tacview", "--procedure=f", "--procedure=f"],
    ["tacview", "--procedure=f", "program.tac"],
    ["tacview", "--facts=all", "--paths"],
    ["tacview", "--paths", "--format=dot"],
    ["tacview", "--format=report", "--paths"],
    ["tacview", "--format=json", "--paths=yes"],
    ["tacview", "--changes", "--paths"],
    ["tacview", "--changes", "--changes"],
    ["tacview", "--format=report", "--changes"],
    ["tacview", "--because=3", "--format=json"],
    ["tacview", "--format=report", "--because=3"],
    ["tacview", "--because=3", "--because=3"],
    ["tacview", "--facts=all", "--because"],
    ["tacview", "--format=html", "--changes"],
    ["tacview", "--format=html", "--because=3"],
    ["tacview", "--format=html", "--part=1/2"],
    ["tacview", "--format=json", "--title=a"],
    ["tacview", "--part=1/2", "--format=dot"],
    ["tacview", "--part=1/2", "--format=json"],
    ["tacview", "--format=report", "--part"],
    ["tacview", "--format=report", "--part=0/2"],
];

#[test]
fn words_that_are_refused(rt: HostRuntime) -> Result<(), Fail> {
    for words in REFUSED_WORDS {
        assert!(rt; named_by(rt.alloc(), words.as_slice()).is_err());
    }
    Ok(())
}
