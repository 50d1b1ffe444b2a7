// What is written of worked programs, each followed by hand.

use crate::texts::{COLORED, PLAIN, Row, WITH_SOURCE, all_kinds, check_rows, other_kinds};
use lint_styles::Style;
use lint_texts::{Kinds, Telling};
use std::test::Fail;

// The kinds that are told where nothing else is asked for.
const USUAL: &[Row] = &[
    ("proc main\nskip\nend\n", &["a.tac: no remarks"]),
    (
        "proc main\nx = 1\ncall p\nend\nproc p\nskip\nend\nproc q\ncall p\nL: goto L\nend\n",
        &[
            "a.tac:2:1: dead: the value assigned to x is never used",
            "a.tac:9:1: never-called: procedure q is never called",
            "a.tac: 2 remarks",
        ],
    ),
    (
        "proc main\nx = 1\nreturn\nprint x\n\nx = 2\nend\n",
        &[
            "a.tac:2:1: dead: the value assigned to x is never used",
            "a.tac:4:1: never-reached: no statement from here to line 6 is ever reached",
            "a.tac: 2 remarks",
        ],
    ),
    (
        "proc main\ngoto L\nskip\nL: skip\ngoto M\nskip\nskip\nM:\nend\n",
        &[
            "a.tac:3:1: never-reached: this statement is never reached",
            "a.tac:6:1: never-reached: no statement from here to line 7 is ever reached",
            "a.tac: 2 remarks",
        ],
    ),
    (
        "proc main\nx = 1\nif c goto L\nreturn\nL: print x\ngoto L\nend\n",
        &[
            "a.tac:3:1: unset: c may be used before it is set",
            "a.tac: note: 1 dead assignment is not told, since the program may never end (from line 5 on)",
            "a.tac: 1 remark",
        ],
    ),
    (
        "proc main\nx = 1\nprint x\nL: x = 2\ngoto L\nend\n",
        &[
            "a.tac: note: 2 dead assignments are not told, since the program may never end (from line 2 on)",
            "a.tac: no remarks",
        ],
    ),
    // The column is that of the statement, behind blanks and labels; a carriage return before a line feed counts for none.
    (
        "proc main\r\n  L: M: x = n\r\n\ty = 1\nend",
        &[
            "a.tac:2:9: unset: n may be used before it is set",
            "a.tac:2:9: dead: the value assigned to x is never used",
            "a.tac:3:2: dead: the value assigned to y is never used",
            "a.tac: 3 remarks",
        ],
    ),
];

const WITH_EXPRESSIONS: &str =
    "proc main\nread a\nread b\nx=a+b\ny=a+b\nif x<y goto L\nz=a*b\ngoto M\nL: z=a*b\nx=0\nM: print z\nprint n\nreturn\nprint y\nend\n";

// All kinds, in the order of points.
const ALL: &[Row] = &[(
    WITH_EXPRESSIONS,
    &[
        "a.tac:5:1: computed: a + b is already computed",
        "a.tac:6:1: busy: a * b is very busy",
        "a.tac:10:1: dead: the value assigned to x is never used",
        "a.tac:12:1: unset: n may be used before it is set",
        "a.tac:14:1: never-reached: this statement is never reached",
        "a.tac: 5 remarks",
    ],
)];

// Some kinds alone: where dead assignments are not wanted, nothing is said of those that are left out.
const OTHER: &[Row] = &[
    (
        WITH_EXPRESSIONS,
        &[
            "a.tac:5:1: computed: a + b is already computed",
            "a.tac:6:1: busy: a * b is very busy",
            "a.tac: 2 remarks",
        ],
    ),
    (
        "proc main\nx = 1\nprint x\nL: x = 2\ngoto L\nend\n",
        &["a.tac: no remarks"],
    ),
];

// The source behind each line: in a margin of five places, with a sign below the column. A tab stays a tab, in both lines; every other byte that
// is no printed sign of ASCII is told in four signs, and a carriage return before the line feed is left out.
const SOURCES: &[Row] = &[
    (
        "proc main\r\n  L: M: x = n\r\n\ty = 1\t# \u{e4}\nend",
        &[
            "a.tac:2:9: unset: n may be used before it is set",
            "    2 |   L: M: x = n",
            "      |         ^",
            "a.tac:2:9: dead: the value assigned to x is never used",
            "    2 |   L: M: x = n",
            "      |         ^",
            "a.tac:3:2: dead: the value assigned to y is never used",
            "    3 | \ty = 1\t# \\xc3\\xa4",
            "      | \t^",
            "a.tac: 3 remarks",
        ],
    ),
    // The last line lacks its line feed. A procedure that has no statement is told at its `proc`.
    (
        "proc main\nend\nproc p\nend\nproc q\n skip\nend",
        &[
            "a.tac:3:1: never-called: procedure p is never called",
            "    3 | proc p",
            "      | ^",
            "a.tac:6:2: never-called: procedure q is never called",
            "    6 |  skip",
            "      |  ^",
            "a.tac: 2 remarks",
        ],
    ),
    (
        "proc main\nx = 1\nL: goto L\nend\n",
        &[
            "a.tac: note: 1 dead assignment is not told, since the program may never end (from line 2 on)",
            "a.tac: no remarks",
        ],
    ),
];

// Procedures that have no statement, behind blanks, comments and labels: each is told at its own `proc`.
const EMPTY: &[Row] = &[
    (
        "# proc p\nproc main\nend # end\n\n  proc p # q\n\nend\nproc q\nL:\nend\n",
        &[
            "a.tac:5:3: never-called: procedure p is never called",
            "a.tac:8:1: never-called: procedure q is never called",
            "a.tac: 2 remarks",
        ],
    ),
    // `p` ends at its `end`, from which no path leads to the end of `main`, and stands before it.
    (
        "\nproc p\n # p\n end\nproc main\ncall p\nx = 1\nL: goto L\nend\n",
        &[
            "a.tac: note: 1 dead assignment is not told, since the program may never end (from line 4 on)",
            "a.tac: no remarks",
        ],
    ),
];

// What begins and ends a colour stands around the kind, the word of a note and the sign.
const COLORS: &[Row] = &[
    (
        "proc main\nx = 1\nend\n",
        &[
            "a.tac:2:1: \x1b[1;35mdead\x1b[0m: the value assigned to x is never used",
            "    2 | x = 1",
            "      | \x1b[1;32m^\x1b[0m",
            "a.tac: 1 remark",
        ],
    ),
    (
        "proc main\nx = 1\nL: goto L\nend\n",
        &[
            "a.tac: \x1b[1;36mnote\x1b[0m: 1 dead assignment is not told, since the program may never end (from line 2 on)",
            "a.tac: no remarks",
        ],
    ),
];

// What lies in one procedure, which is asked for by its number: of `p` that it is never called, and nothing where the number is none.
const TWO: &str = "proc main\nx = 1\nend\nproc p\nskip\nend\n";

const OF_MAIN: &[Row] = &[(
    TWO,
    &[
        "a.tac:2:1: dead: the value assigned to x is never used",
        "a.tac: 1 remark",
    ],
)];

const OF_P: &[Row] = &[(
    TWO,
    &[
        "a.tac:5:1: never-called: procedure p is never called",
        "a.tac: 1 remark",
    ],
)];

const OF_NONE: &[Row] = &[(TWO, &["a.tac: no remarks"])];

fn telling(kinds: Kinds, style: Style) -> Telling {
    Telling {
        kinds,
        procedure: None,
        why: false,
        style,
    }
}

// A variable that may be used before it is set at one point, and one that may at two, which lie in two procedures.
const USES: &[Row] = &[(
    "proc main\nprint x\nz = y + y\nx = 1\ncall p\n  print y\nend\nproc p\nprint x\nprint z\ny = y\nprint y\nend\n",
    &[
        "a.tac:2:1: unset: x may be used before it is set",
        "a.tac:3:1: unset: y may be used before it is set",
        "a.tac:11:1: note: y may be used before it is set here too",
        "a.tac: 2 remarks",
    ],
)];

// A call that is passed by way of the one callee that does not set the variable, one that is entered, and a test.
const WAY: &[Row] = &[
    (
        "proc main\nread y\ncall f | g\ncall h\nend\nproc f\nx = 1\nend\nproc g\nend\nproc h\nL:\nif y goto L\nprint x\nend\n",
        &[
            "a.tac:14:1: unset: x may be used before it is set",
            "a.tac:3:1: note: the way leads past this call, by way of g",
            "a.tac:4:1: note: the way leads into h",
            "a.tac:13:1: note: the way leads on to line 14",
            "a.tac: 1 remark",
        ],
    ),
    (
        "proc main\nprint x\nprint x\nend\n",
        &[
            "a.tac:2:1: unset: x may be used before it is set",
            "a.tac:3:1: note: x may be used before it is set here too",
            "a.tac: 1 remark",
        ],
    ),
];

fn telling_of(procedure: u32) -> Telling {
    Telling {
        procedure: Some(procedure),
        ..telling(Kinds::usual(), PLAIN)
    }
}

#[test]
fn later_uses(rt: HostRuntime) -> Result<(), Fail> {
    check_rows(&rt, telling(Kinds::usual(), PLAIN), USES)
}

fn telling_why() -> Telling {
    Telling {
        why: true,
        ..telling(Kinds::usual(), PLAIN)
    }
}

#[test]
fn ways(rt: HostRuntime) -> Result<(), Fail> {
    check_rows(&rt, telling_why(), WAY)
}

#[test]
fn one_procedure(rt: HostRuntime) -> Result<(), Fail> {
    check_rows(&rt, telling_of(0), OF_MAIN)?;
    check_rows(&rt, telling_of(1), OF_P)?;
    check_rows(&rt, telling_of(2), OF_NONE)
}

#[test]
fn usual_kinds(rt: HostRuntime) -> Result<(), Fail> {
    check_rows(&rt, telling(Kinds::usual(), PLAIN), USUAL)
}

#[test]
fn every_kind(rt: HostRuntime) -> Result<(), Fail> {
    check_rows(&rt, telling(all_kinds(), PLAIN), ALL)
}

#[test]
fn kinds_that_are_not_usual(rt: HostRuntime) -> Result<(), Fail> {
    check_rows(&rt, telling(other_kinds(), PLAIN), OTHER)
}

#[test]
fn lines_of_the_source(rt: HostRuntime) -> Result<(), Fail> {
    check_rows(&rt, telling(Kinds::usual(), WITH_SOURCE), SOURCES)
}

#[test]
fn procedures_with_no_statement(rt: HostRuntime) -> Result<(), Fail> {
    check_rows(&rt, telling(Kinds::usual(), PLAIN), EMPTY)
}

#[test]
fn colors(rt: HostRuntime) -> Result<(), Fail> {
    check_rows(&rt, telling(Kinds::usual(), COLORED), COLORS)
}
