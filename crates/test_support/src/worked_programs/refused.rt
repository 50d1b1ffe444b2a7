//! Texts that are no programs, and the message of each, by hand: line, column, number and name of the first fault in the order of
//! `docs/LANGUAGE.md`.

/// Faults of lines.
pub const LINES: &[(&[u8], &str)] = &[
    (b"proc main\nx = 12ab\nend\n", "2:7: refusal 4: Syntax"),
    (b"9223372036854775808\n", "1:1: refusal 2: NumberTooLarge"),
    (b"proc proc\nend\n", "1:6: refusal 4: Syntax"),
    (b"proc main\nx = 1\n", "3:1: refusal 5: Unclosed"),
    (b"proc main\nx = 1", "2:6: refusal 5: Unclosed"),
    (
        b"proc main\nx = 9223372036854775808\nend\n",
        "2:5: refusal 2: NumberTooLarge",
    ),
    (b"proc main\nx =\nend\n", "2:4: refusal 4: Syntax"),
    (
        b"proc main\ncall a|b|c|d|e|f|g|h|i\nend\n",
        "2:21: refusal 4: Syntax",
    ),
    (b"proc main\ncall main |\nend\n", "2:12: refusal 4: Syntax"),
    (b"proc main\nend\nx = 1\n", "3:1: refusal 4: Syntax"),
];

/// Faults of names.
pub const NAMES: &[(&[u8], &str)] = &[
    (b"", "1:1: refusal 6: NoMain"),
    (
        b"proc main\nA: A: skip\nend\n",
        "2:4: refusal 8: DuplicateLabel",
    ),
    (
        b"proc q\nend\nproc q\nend\n",
        "3:6: refusal 7: DuplicateProcedure",
    ),
    (
        b"proc main\ngoto A\ncall z\nA: A: skip\nend\n",
        "4:4: refusal 8: DuplicateLabel",
    ),
    (b"proc main\ngoto M\nend\n", "2:6: refusal 9: UnknownLabel"),
    (
        b"proc main\ncall z\nend\n",
        "2:6: refusal 10: UnknownProcedure",
    ),
    (
        b"proc main\ncall main | main\nend\n",
        "2:13: refusal 13: DuplicateCallee",
    ),
    (b"proc q\nend\n", "1:1: refusal 6: NoMain"),
];

/// Faults of bytes.
pub const BYTES: &[(&[u8], &str)] = &[
    (b"proc main\nx = \0", "2:5: refusal 1: BadByte"),
    (b"proc main\nx = \0\nend\n", "2:5: refusal 1: BadByte"),
    (b"\r", "1:1: refusal 1: BadByte"),
    (b"proc main\nend\r", "2:4: refusal 1: BadByte"),
    (b"proc main\nx =\r", "2:4: refusal 1: BadByte"),
    (b"proc main\nx = 1\rend\n", "2:6: refusal 1: BadByte"),
];

/// The beginnings of the smallest program that are none.
pub const BEGINNINGS: &[(&[u8], &str)] = &[
    (b"", "1:1: refusal 6: NoMain"),
    (b"p", "1:1: refusal 4: Syntax"),
    (b"pr", "1:1: refusal 4: Syntax"),
    (b"pro", "1:1: refusal 4: Syntax"),
    (b"proc", "1:5: refusal 4: Syntax"),
    (b"proc ", "1:5: refusal 4: Syntax"),
    (b"proc m", "1:7: refusal 5: Unclosed"),
    (b"proc ma", "1:8: refusal 5: Unclosed"),
    (b"proc mai", "1:9: refusal 5: Unclosed"),
    (b"proc main", "1:10: refusal 5: Unclosed"),
    (b"proc main\n", "2:1: refusal 5: Unclosed"),
    (b"proc main\ne", "2:2: refusal 4: Syntax"),
    (b"proc main\nen", "2:3: refusal 4: Syntax"),
];
