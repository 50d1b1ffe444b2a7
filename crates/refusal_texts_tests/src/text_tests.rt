// What is written of texts that are refused, each worked by hand.

use crate::slips::{BYTES, LINES, Slip};
use lint_styles::Style;
use refusal_texts::{OutOfMemory, refusal_text};
use std::alloc::Global;
use std::process::Abort;
use std::test::Fail;
use tac_program::Limits;

/// A text, and the lines that are written of it.
type Row = (&'static str, &'static [&'static str]);

const PLAIN: Style = Style {
    source: false,
    color: false,
};

const WITH_SOURCE: Style = Style {
    source: true,
    color: false,
};

const COLORED: Style = Style {
    source: true,
    color: true,
};

const BYTE: &str = "no word, number or sign begins with this byte (refusal 1)";

// Whole texts: several faults, faults that no line shows by itself, and faults with nothing on their mend.
static TEXTS: [Row; 13] = [
    (
        "proc main {\n  x = 1;\n}\n",
        &[
            "a.tac:1:11: error: no word, number or sign begins with this byte (refusal 1)",
            "a.tac:1:11: note: a procedure stands between `proc NAME` and `end`: leave the brace out",
            "a.tac:2:8: error: no word, number or sign begins with this byte (refusal 1)",
            "a.tac:2:8: note: a statement ends with its line: leave the semicolon out",
            "a.tac:3:1: error: no word, number or sign begins with this byte (refusal 1)",
            "a.tac:3:1: note: a procedure stands between `proc NAME` and `end`: leave the brace out",
            "a.tac:4:1: error: the text ends inside a procedure (refusal 5)",
            "a.tac:4:1: note: `proc main` is not closed by `end`; it stands in line 1",
            "a.tac: 4 errors",
        ],
    ),
    (
        "\u{feff}proc main\nend\n",
        &[
            "a.tac:1:1: error: no word, number or sign begins with this byte (refusal 1)",
            "a.tac:1:1: note: a byte order mark stands before the text: save it as UTF-8 without one",
            "a.tac: 1 error",
        ],
    ),
    (
        "proc main\nnnnnnnnnnnnnnnnnnnnnnnnnnnnnnnnnnnnnnnnnnnnnnnnnnnnnnnnnnnnnnnnnn = 1\nend\n",
        &[
            "a.tac:2:1: error: the name is too long (refusal 3)",
            "a.tac:2:1: note: `nnnnnnnnnnnnnnnnnnnnnnnnnnnnnnnnnnnnnnnnnnnnnnnnnnnnnnnnnnnnnnnn..` has more than 64 bytes, too many by 1",
            "a.tac: 1 error",
        ],
    ),
    (
        "PROC main\nx = 1\nend\n",
        &[
            "a.tac:1:1: error: no line goes on like this from here (refusal 4)",
            "a.tac:1:1: note: `PROC` is written with other letters: `proc`",
            "a.tac: 1 error",
        ],
    ),
    (
        "x = 1\nproc main\nend\n",
        &[
            "a.tac:1:1: error: no line goes on like this from here (refusal 4)",
            "a.tac:1:1: note: `x` stands outside of procedures: put the line between `proc main` and `end`",
            "a.tac: 1 error",
        ],
    ),
    (
        "proc main\nx = 1\nproc p\nend\n",
        &[
            "a.tac:3:1: error: no line goes on like this from here (refusal 4)",
            "a.tac:3:1: note: `proc main` is not closed by `end`; it stands in line 1",
            "a.tac: 1 error",
        ],
    ),
    (
        "proc main\nx++\ny = 1 2\nend\n",
        &[
            "a.tac:2:2: error: no line goes on like this from here (refusal 4)",
            "a.tac:2:2: note: `++` sets no variable: a statement is written `x = y + z`",
            "a.tac:3:7: error: no line goes on like this from here (refusal 4)",
            "a.tac: 2 errors",
        ],
    ),
    (
        "proc main\nend\nproc main\nend\n",
        &[
            "a.tac:3:6: error: there is a procedure of this name already (refusal 7)",
            "a.tac:3:6: note: `main` stands first in line 1",
            "a.tac: 1 error",
        ],
    ),
    (
        "proc p\nend\nproc Main\nend\n",
        &[
            "a.tac:1:1: error: no procedure is called `main` (refusal 6)",
            "a.tac:1:1: note: `Main` is the nearest name that there is",
            "a.tac: 1 error",
        ],
    ),
    (
        "proc start\nend\n",
        &[
            "a.tac:1:1: error: no procedure is called `main` (refusal 6)",
            "a.tac: 1 error",
        ],
    ),
    (
        "proc main\ngoto M\nend\n",
        &[
            "a.tac:2:6: error: this procedure has no label of this name (refusal 9)",
            "a.tac: 1 error",
        ],
    ),
    (
        "",
        &[
            "a.tac:1:1: error: no procedure is called `main` (refusal 6)",
            "a.tac: 1 error",
        ],
    ),
    // A blank that is no blank of ASCII's printed signs is shown by its number.
    (
        "proc main\nreturn x\t+ y\nend\n",
        &[
            "a.tac:2:8: error: no line goes on like this from here (refusal 4)",
            "a.tac:2:8: note: `x\\x09+ y` cannot stand behind `return`: set a variable, as in `result = x`, and then write `return` alone",
            "a.tac: 1 error",
        ],
    ),
];

fn push_line(text: &mut Vec<u8>, line: &str) -> Result<(), OutOfMemory> {
    text.extend_from_slice(line.as_bytes())?;
    text.extend_from_slice(b"\n")
}

fn joined(alloc: Global, lines: &[&'static str]) -> Result<Vec<u8>, OutOfMemory> {
    let mut text = Vec::new(alloc);
    for line in lines {
        push_line(&mut text, line)?;
    }
    Ok(text)
}

// The text of a `main` of one line.
fn main_of(alloc: Global, line: &str) -> Result<Vec<u8>, OutOfMemory> {
    let mut text = Vec::new(alloc);
    push_line(&mut text, "proc main")?;
    push_line(&mut text, line)?;
    push_line(&mut text, "end")?;
    Ok(text)
}

// A line on the second line of the file.
fn push_told(text: &mut Vec<u8>, column: &str, kind: &str, words: &str) -> Result<(), OutOfMemory> {
    text.extend_from_slice(b"a.tac:2:")?;
    text.extend_from_slice(column.as_bytes())?;
    text.extend_from_slice(kind.as_bytes())?;
    push_line(text, words)
}

// What is to be written of a slip.
fn wanted(alloc: Global, slip: Slip) -> Result<Vec<u8>, OutOfMemory> {
    let (_, column, error, note) = slip;
    let mut text = Vec::new(alloc);
    push_told(&mut text, column, ": error: ", error)?;
    push_told(&mut text, column, ": note: ", note)?;
    push_line(&mut text, "a.tac: 1 error")?;
    Ok(text)
}

// The one comparison, since each that is written out is proved again.
fn check(rt: &impl Abort, written: &[u8], wanted: &[u8], text: &str) {
    assert_eq!(rt; written, wanted, "{text}");
}

fn plain_text(alloc: Global, text: &[u8]) -> Result<Vec<u8>, OutOfMemory> {
    refusal_text(alloc, Limits::Standard, PLAIN, b"a.tac", text)
}

fn check_slips<R: Abort + AllocGlobal>(rt: &R, slips: &[Slip]) -> Result<(), Fail> {
    for slip in slips {
        let text = main_of(rt.alloc(), slip.0)?;
        let written = plain_text(rt.alloc(), &text)?;
        let wanted = wanted(rt.alloc(), *slip)?;
        check(rt, &written, &wanted, slip.0);
    }
    Ok(())
}

#[test]
fn slips_of_bytes(rt: HostRuntime) -> Result<(), Fail> {
    check_slips(&rt, &BYTES)
}

#[test]
fn slips_of_lines(rt: HostRuntime) -> Result<(), Fail> {
    check_slips(&rt, &LINES)
}

#[test]
fn whole_texts(rt: HostRuntime) -> Result<(), Fail> {
    for (text, lines) in &TEXTS {
        let written = plain_text(rt.alloc(), text.as_bytes())?;
        let wanted = joined(rt.alloc(), lines)?;
        check(&rt, &written, &wanted, text);
    }
    Ok(())
}

// A text of 20 lines that are wrong, with these lines behind them, of which the first 20 errors are told and these words on how many there are.
fn check_many(
    rt: &impl Abort,
    alloc: Global,
    more: &str,
    count: &str,
    name: &str,
) -> Result<(), Fail> {
    let mut text = Vec::new(alloc);
    push_line(&mut text, "proc main")?;
    let mut many = Vec::new(alloc);
    let columns = [
        "2:5", "3:5", "4:5", "5:5", "6:5", "7:5", "8:5", "9:5", "10:5", "11:5", "12:5", "13:5",
        "14:5", "15:5", "16:5", "17:5", "18:5", "19:5", "20:5", "21:5",
    ];
    for place in columns {
        push_line(&mut text, "x = ;")?;
        many.extend_from_slice(b"a.tac:")?;
        many.extend_from_slice(place.as_bytes())?;
        many.extend_from_slice(b": error: ")?;
        push_line(&mut many, BYTE)?;
        many.extend_from_slice(b"a.tac:")?;
        many.extend_from_slice(place.as_bytes())?;
        push_line(
            &mut many,
            ": note: a statement ends with its line: leave the semicolon out",
        )?;
    }
    push_line(&mut text, more)?;
    push_line(&mut many, count)?;
    let written = plain_text(alloc, &text)?;
    check(rt, &written, &many, name);
    Ok(())
}

// Exactly 20 errors are all; of 21 the first 20 are told, and the last line says so.
#[test]
fn twenty_errors_and_more(rt: HostRuntime) -> Result<(), Fail> {
    check_many(&rt, rt.alloc(), "end", "a.tac: 20 errors", "20 faults")?;
    check_many(
        &rt,
        rt.alloc(),
        "x = ;\nend",
        "a.tac: the first 20 errors",
        "21 faults",
    )
}

// The source behind each error: no control byte but a tab as it is, with the sign below what is shown of the byte; an empty line is left out.
const SOURCES: &[Row] = &[
    (
        "proc main\n\tx = \u{1b}[2J\n  y = 1;  # \u{7f}\r\nend\n",
        &[
            "a.tac:2:6: error: no word, number or sign begins with this byte (refusal 1)",
            "    2 | \tx = \\x1b[2J",
            "      | \t    ^",
            "a.tac:2:6: note: `\\x1b` means nothing here: notes for readers stand behind `#`",
            "a.tac:3:8: error: no word, number or sign begins with this byte (refusal 1)",
            "    3 |   y = 1;  # \\x7f",
            "      |        ^",
            "a.tac:3:8: note: a statement ends with its line: leave the semicolon out",
            "a.tac: 2 errors",
        ],
    ),
    (
        "proc main\nx = \u{1b} \u{7f};",
        &[
            "a.tac:2:5: error: no word, number or sign begins with this byte (refusal 1)",
            "    2 | x = \\x1b \\x7f;",
            "      |     ^",
            "a.tac:2:5: note: `\\x1b` means nothing here: notes for readers stand behind `#`",
            "a.tac:2:9: error: the text ends inside a procedure (refusal 5)",
            "    2 | x = \\x1b \\x7f;",
            "      |               ^",
            "a.tac:2:9: note: `proc main` is not closed by `end`; it stands in line 1",
            "a.tac: 2 errors",
        ],
    ),
    (
        "",
        &[
            "a.tac:1:1: error: no procedure is called `main` (refusal 6)",
            "a.tac: 1 error",
        ],
    ),
];

const COLORS: &[Row] = &[(
    "proc main\nx = 1;\nend\n",
    &[
        "a.tac:2:6: \x1b[1;31merror\x1b[0m: no word, number or sign begins with this byte (refusal 1)",
        "    2 | x = 1;",
        "      |      \x1b[1;32m^\x1b[0m",
        "a.tac:2:6: \x1b[1;36mnote\x1b[0m: a statement ends with its line: leave the semicolon out",
        "a.tac: 1 error",
    ],
)];

fn check_styled<R: Abort + AllocGlobal>(rt: &R, style: Style, rows: &[Row]) -> Result<(), Fail> {
    for (text, lines) in rows {
        let written = refusal_text(
            rt.alloc(),
            Limits::Standard,
            style,
            b"a.tac",
            text.as_bytes(),
        )?;
        let wanted = joined(rt.alloc(), lines)?;
        check(rt, &written, &wanted, text);
    }
    Ok(())
}

#[test]
fn lines_of_the_source(rt: HostRuntime) -> Result<(), Fail> {
    check_styled(&rt, WITH_SOURCE, SOURCES)
}

#[test]
fn colors(rt: HostRuntime) -> Result<(), Fail> {
    check_styled(&rt, COLORED, COLORS)
}

// A line of 512 bytes is shown, and one of 513 is not.
#[test]
fn long_lines(rt: HostRuntime) -> Result<(), Fail> {
    for blanks in [510, 511] {
        let mut text = Vec::new(rt.alloc());
        text.extend_from_slice(b"}")?;
        for _ in 0..blanks {
            text.push(b' ')?;
        }
        text.push(b'#')?;
        let written = refusal_text(rt.alloc(), Limits::Standard, WITH_SOURCE, b"", &text)?;
        let bare = refusal_text(rt.alloc(), Limits::Standard, PLAIN, b"", &text)?;
        let more = written.len() - bare.len().min(written.len());
        assert_eq!(rt;
            more,
            if blanks == 510 {
                8 + 512 + 1 + 8 + 1 + 1
            } else {
                0
            }
        );
    }
    Ok(())
}

// How much too long a text is.
#[test]
fn text_too_long(rt: HostRuntime) -> Result<(), Fail> {
    let text = vec![in rt.alloc(); b'\n'; 1_048_579]?;
    let written = plain_text(rt.alloc(), &text)?;
    let lines: [&'static str; 3] = [
        "a.tac:1:1: error: the text is too long (refusal 11)",
        "a.tac:1:1: note: the text has more bytes than the limits allow",
        "a.tac: 1 error",
    ];
    let wanted = joined(rt.alloc(), &lines)?;
    check(&rt, &written, &wanted, "a long text");
    Ok(())
}
