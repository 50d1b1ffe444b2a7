// Texts with usual slips, each with what is told of it, worked by hand from docs/LANGUAGE.md and the definitions.

use tac_faults::{Bytes, Hint, Slip};
use tac_lines::{Keyword, RefusalKind};

/// A fault that is told: its line and column, what it is, and what is told on its mend.
pub type Told = (u32, u32, RefusalKind, Hint);

/// Slips of bytes, in the order of `docs/LANGUAGE.md`.
pub static BYTES: [(&[u8], &[Told]); 16] = [
    (
        b"proc main\nx = a $ b\nend\n",
        &[(
            2,
            7,
            RefusalKind::BadByte,
            Hint::Byte(Bytes {
                start: 16,
                stop: 17,
            }),
        )],
    ),
    (
        b"proc main\ncall f(x)\nend\n",
        &[(
            2,
            7,
            RefusalKind::BadByte,
            Hint::Call(Bytes {
                start: 15,
                stop: 16,
            }),
        )],
    ),
    (
        b"proc main\nx = y;\nend\n",
        &[(2, 6, RefusalKind::BadByte, Hint::Semicolon)],
    ),
    (
        b"proc main\nx = 1.5\nend\n",
        &[(
            2,
            6,
            RefusalKind::BadByte,
            Hint::Float(Bytes {
                start: 14,
                stop: 17,
            }),
        )],
    ),
    (
        b"proc main\nx = .5\nend\n",
        &[(
            2,
            5,
            RefusalKind::BadByte,
            Hint::Float(Bytes {
                start: 14,
                stop: 16,
            }),
        )],
    ),
    (
        b"proc main() {\nend\n",
        &[(
            1,
            10,
            RefusalKind::BadByte,
            Hint::Slip(Slip::Parameters, Bytes { start: 5, stop: 9 }),
        )],
    ),
    (
        b"proc main\nprint \"hi\"\nend\n",
        &[(2, 7, RefusalKind::BadByte, Hint::Quote)],
    ),
    (
        b"proc main\nx = a[i]\nend\n",
        &[(
            2,
            6,
            RefusalKind::BadByte,
            Hint::Index(Bytes {
                start: 14,
                stop: 15,
            }),
        )],
    ),
    (
        b"proc main\n$t1 = 1\nend\n",
        &[(
            2,
            1,
            RefusalKind::BadByte,
            Hint::NoName(Bytes {
                start: 10,
                stop: 13,
            }),
        )],
    ),
    // The mark does not hide `proc`.
    (
        b"\xef\xbb\xbfproc main\nend\n",
        &[(1, 1, RefusalKind::BadByte, Hint::ByteOrderMark)],
    ),
    (
        b"proc main\nx = 1\ry = 2\nend\n",
        &[(2, 6, RefusalKind::BadByte, Hint::CarriageReturn)],
    ),
    (
        b"proc main\nx = \xc3\xa9 + 1\nend\n",
        &[(
            2,
            5,
            RefusalKind::BadByte,
            Hint::NotAscii(Bytes {
                start: 14,
                stop: 16,
            }),
        )],
    ),
    (
        b"proc main\nif (x < 3) goto L\nend\n",
        &[(2, 4, RefusalKind::BadByte, Hint::Parenthesis)],
    ),
    // `proc` opens a procedure though its line is refused; a brace closes none.
    (
        b"proc main {\n  x = 1;\n}\n",
        &[
            (1, 11, RefusalKind::BadByte, Hint::Brace),
            (2, 8, RefusalKind::BadByte, Hint::Semicolon),
            (3, 1, RefusalKind::BadByte, Hint::Brace),
            (
                4,
                1,
                RefusalKind::Unclosed,
                Hint::EndLacks(1, Bytes { start: 0, stop: 9 }),
            ),
        ],
    ),
    (
        b"proc main\nx = 9223372036854775808\nend\n",
        &[(
            2,
            5,
            RefusalKind::NumberTooLarge,
            Hint::LargeNumber(Bytes {
                start: 14,
                stop: 33,
            }),
        )],
    ),
    (
        b"proc main\nnnnnnnnnnnnnnnnnnnnnnnnnnnnnnnnnnnnnnnnnnnnnnnnnnnnnnnnnnnnnnnnnn = 1\nend\n",
        &[(
            2,
            1,
            RefusalKind::NameTooLong,
            Hint::LongName(
                Bytes {
                    start: 10,
                    stop: 75,
                },
                1,
            ),
        )],
    ),
];

/// Slips of lines.
pub static LINES: [(&[u8], &[Told]); 28] = [
    (
        b"proc main\nx = y + z + w\nend\n",
        &[(
            2,
            11,
            RefusalKind::Syntax,
            Hint::SecondOperator(Bytes {
                start: 20,
                stop: 21,
            }),
        )],
    ),
    (
        b"proc main\nprint x + 1\nend\n",
        &[(
            2,
            9,
            RefusalKind::Syntax,
            Hint::SecondOperator(Bytes {
                start: 18,
                stop: 19,
            }),
        )],
    ),
    (
        b"proc main\nx = y +\nend\n",
        &[(
            2,
            8,
            RefusalKind::Syntax,
            Hint::Unfinished(Bytes {
                start: 16,
                stop: 17,
            }),
        )],
    ),
    (
        b"proc main\nif x = 3 goto L\nend\n",
        &[(
            2,
            6,
            RefusalKind::Syntax,
            Hint::EqualsInTest(Bytes {
                start: 15,
                stop: 16,
            }),
        )],
    ),
    (
        b"proc main\nif x < 3 then goto L\nend\n",
        &[(
            2,
            10,
            RefusalKind::Syntax,
            Hint::Then(Bytes {
                start: 19,
                stop: 23,
            }),
        )],
    ),
    (
        b"proc main\nreturn x + 1\nend\n",
        &[(
            2,
            8,
            RefusalKind::Syntax,
            Hint::Returned(Bytes {
                start: 17,
                stop: 22,
            }),
        )],
    ),
    (
        b"proc main\nL: end\nend\n",
        &[(
            2,
            4,
            RefusalKind::Syntax,
            Hint::LabelBefore(Bytes {
                start: 13,
                stop: 16,
            }),
        )],
    ),
    (
        b"proc main\nx := 1\nend\n",
        &[(
            2,
            4,
            RefusalKind::Syntax,
            Hint::ColonEquals(Bytes {
                start: 13,
                stop: 14,
            }),
        )],
    ),
    (
        b"x = 1\nproc main\nend\n",
        &[(
            1,
            1,
            RefusalKind::Syntax,
            Hint::Outside(Bytes { start: 0, stop: 1 }),
        )],
    ),
    (
        b"proc main\nx = 1 // note\nend\n",
        &[(
            2,
            8,
            RefusalKind::Syntax,
            Hint::Comment(Bytes {
                start: 16,
                stop: 18,
            }),
        )],
    ),
    (
        b"proc main\n// a note\nend\n",
        &[(
            2,
            1,
            RefusalKind::Syntax,
            Hint::Comment(Bytes {
                start: 10,
                stop: 12,
            }),
        )],
    ),
    (
        b"proc main\nIF x < 3 goto L\nend\n",
        &[(
            2,
            4,
            RefusalKind::Syntax,
            Hint::Capitals(
                Keyword::If,
                Bytes {
                    start: 10,
                    stop: 12,
                },
            ),
        )],
    ),
    (
        b"PROC main\nx = 1\nend\n",
        &[(
            1,
            1,
            RefusalKind::Syntax,
            Hint::Capitals(Keyword::Proc, Bytes { start: 0, stop: 4 }),
        )],
    ),
    (
        b"proc main\niffalse x goto L\nend\n",
        &[(
            2,
            9,
            RefusalKind::Syntax,
            Hint::Capitals(
                Keyword::IfFalse,
                Bytes {
                    start: 10,
                    stop: 17,
                },
            ),
        )],
    ),
    // One byte swapped, fewer, more and other.
    (
        b"proc main\npritn x\nend\n",
        &[(
            2,
            7,
            RefusalKind::Syntax,
            Hint::Misspelt(
                Keyword::Print,
                Bytes {
                    start: 10,
                    stop: 15,
                },
            ),
        )],
    ),
    (
        b"proc main\nretun\nend\n",
        &[(
            2,
            6,
            RefusalKind::Syntax,
            Hint::Misspelt(
                Keyword::Return,
                Bytes {
                    start: 10,
                    stop: 15,
                },
            ),
        )],
    ),
    (
        b"proc main\ncalll main\nend\n",
        &[(
            2,
            7,
            RefusalKind::Syntax,
            Hint::Misspelt(
                Keyword::Call,
                Bytes {
                    start: 10,
                    stop: 15,
                },
            ),
        )],
    ),
    (
        b"proc main\nif x < 3 gotu L\nend\n",
        &[(
            2,
            10,
            RefusalKind::Syntax,
            Hint::Misspelt(
                Keyword::Goto,
                Bytes {
                    start: 19,
                    stop: 23,
                },
            ),
        )],
    ),
    // A misspelt `end` that stands alone closes a procedure, and a misspelt `proc` before one word opens one.
    (
        b"proc main\nEND\n",
        &[(
            2,
            4,
            RefusalKind::Syntax,
            Hint::Capitals(
                Keyword::End,
                Bytes {
                    start: 10,
                    stop: 13,
                },
            ),
        )],
    ),
    (
        b"prco p\nend\nproc main\nedn\n",
        &[
            (
                1,
                1,
                RefusalKind::Syntax,
                Hint::Misspelt(Keyword::Proc, Bytes { start: 0, stop: 4 }),
            ),
            (
                4,
                4,
                RefusalKind::Syntax,
                Hint::Misspelt(
                    Keyword::End,
                    Bytes {
                        start: 21,
                        stop: 24,
                    },
                ),
            ),
        ],
    ),
    // The second `proc` is told, and closed by the one `end`.
    (
        b"proc main\nx = 1\nproc p\nend\n",
        &[(
            3,
            1,
            RefusalKind::Syntax,
            Hint::EndLacks(1, Bytes { start: 0, stop: 9 }),
        )],
    ),
    (
        b"proc main\nx = a + -5\nend\n",
        &[(
            2,
            9,
            RefusalKind::Syntax,
            Hint::Negative(Bytes {
                start: 18,
                stop: 20,
            }),
        )],
    ),
    (
        b"proc main\nx = end + 1\nend\n",
        &[(
            2,
            5,
            RefusalKind::Syntax,
            Hint::Reserved(Bytes {
                start: 14,
                stop: 17,
            }),
        )],
    ),
    (
        b"proc main\nprint = 3\nend\n",
        &[(
            2,
            7,
            RefusalKind::Syntax,
            Hint::Reserved(Bytes {
                start: 10,
                stop: 15,
            }),
        )],
    ),
    (
        b"proc main\ncall a|b|c|d|e|f|g|h|i\nend\n",
        &[(2, 21, RefusalKind::Syntax, Hint::ManyCallees(1))],
    ),
    // `end` closes a procedure though its line is refused; so `proc` may follow.
    (
        b"proc main\nend x\nproc p\nend\n",
        &[(
            2,
            5,
            RefusalKind::Syntax,
            Hint::Slip(
                Slip::OwnLine,
                Bytes {
                    start: 14,
                    stop: 15,
                },
            ),
        )],
    ),
    (
        b"proc main\nx++\ny = 1 2\nend\n",
        &[
            (
                2,
                2,
                RefusalKind::Syntax,
                Hint::Slip(
                    Slip::Assignment,
                    Bytes {
                        start: 11,
                        stop: 13,
                    },
                ),
            ),
            (3, 7, RefusalKind::Syntax, Hint::None),
        ],
    ),
    (
        b"proc main\nx = 1",
        &[(
            2,
            6,
            RefusalKind::Unclosed,
            Hint::EndLacks(1, Bytes { start: 0, stop: 9 }),
        )],
    ),
];

/// Slips of names, and a text that is right.
pub static NAMES: [(&[u8], &[Told]); 12] = [
    (
        b"proc main\nend\nproc main\nend\n",
        &[(
            3,
            6,
            RefusalKind::DuplicateProcedure,
            Hint::First(1, Bytes { start: 5, stop: 9 }),
        )],
    ),
    (
        b"proc main\nL: skip\nL: skip\nend\n",
        &[(
            3,
            1,
            RefusalKind::DuplicateLabel,
            Hint::First(
                2,
                Bytes {
                    start: 10,
                    stop: 11,
                },
            ),
        )],
    ),
    (
        b"proc main\ngoto M\nend\n",
        &[(2, 6, RefusalKind::UnknownLabel, Hint::None)],
    ),
    (
        b"proc main\nstart: skip\nloop: skip\ngoto lop\nend\n",
        &[(
            4,
            6,
            RefusalKind::UnknownLabel,
            Hint::Nearest(Bytes {
                start: 22,
                stop: 26,
            }),
        )],
    ),
    (
        b"proc main\ncall mian\nend\n",
        &[(
            2,
            6,
            RefusalKind::UnknownProcedure,
            Hint::Nearest(Bytes { start: 5, stop: 9 }),
        )],
    ),
    (
        b"proc main\ncall q\nend\n",
        &[(2, 6, RefusalKind::UnknownProcedure, Hint::None)],
    ),
    (
        b"proc main\ncall p | main | p\nend\nproc p\nend\n",
        &[(
            2,
            17,
            RefusalKind::DuplicateCallee,
            Hint::First(
                2,
                Bytes {
                    start: 15,
                    stop: 16,
                },
            ),
        )],
    ),
    (
        b"proc start\nend\n",
        &[(1, 1, RefusalKind::NoMain, Hint::None)],
    ),
    (
        b"proc p\nend\nproc Main\nend\n",
        &[(
            1,
            1,
            RefusalKind::NoMain,
            Hint::Nearest(Bytes {
                start: 16,
                stop: 20,
            }),
        )],
    ),
    // A duplicate label is told before an unknown one that stands earlier, and that before a procedure.
    (
        b"proc main\ngoto A\ncall z\nB: skip\nB: skip\nend\n",
        &[
            (
                5,
                1,
                RefusalKind::DuplicateLabel,
                Hint::First(
                    4,
                    Bytes {
                        start: 24,
                        stop: 25,
                    },
                ),
            ),
            (
                2,
                6,
                RefusalKind::UnknownLabel,
                Hint::Nearest(Bytes {
                    start: 24,
                    stop: 25,
                }),
            ),
            (3, 6, RefusalKind::UnknownProcedure, Hint::None),
        ],
    ),
    (b"", &[(1, 1, RefusalKind::NoMain, Hint::None)]),
    (b"proc main\nx = 1\nend\n", &[]),
];
