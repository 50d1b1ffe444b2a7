// Lines with usual slips, each with where it is told, what is told as wrong and what is told on its mend; worked by hand from
// docs/LANGUAGE.md.

/// A line of `main`, the column at which a fault of it is told, what is wrong, and what stands there.
pub type Slip = (&'static str, &'static str, &'static str, &'static str);

const BYTE: &str = "no word, number or sign begins with this byte (refusal 1)";

const LINE: &str = "no line goes on like this from here (refusal 4)";

const NO_LABEL: &str = "this procedure has no label of this name (refusal 9)";

const NO_PROCEDURE: &str = "there is no procedure of this name (refusal 10)";

/// Slips of bytes.
pub static BYTES: [Slip; 17] = [
    (
        "x = y;",
        "6",
        BYTE,
        "a statement ends with its line: leave the semicolon out",
    ),
    (
        "{ x = 1",
        "1",
        BYTE,
        "a procedure stands between `proc NAME` and `end`: leave the brace out",
    ),
    (
        "x = 1 }",
        "7",
        BYTE,
        "a procedure stands between `proc NAME` and `end`: leave the brace out",
    ),
    (
        "x = 1.5",
        "6",
        BYTE,
        "`1.5` is no whole number, and there are no others",
    ),
    (
        "x = .5",
        "5",
        BYTE,
        "`.5` is no whole number, and there are no others",
    ),
    (
        "print \"hi\"",
        "7",
        BYTE,
        "there are numbers alone, and no texts in quotation marks: notes for readers stand behind `#`",
    ),
    (
        "x = 'a'",
        "5",
        BYTE,
        "there are numbers alone, and no texts in quotation marks: notes for readers stand behind `#`",
    ),
    (
        "call f(x)",
        "7",
        BYTE,
        "`f` has no parameters: set variables, as in `a = x`, and then write `call NAME` on a line of its own",
    ),
    (
        "x = a[i]",
        "6",
        BYTE,
        "`a` is one number, and there are no arrays: use a variable for each element",
    ),
    (
        "if (x < 3) goto L",
        "4",
        BYTE,
        "there are no parentheses: a statement has one operator, and a test is written `if a < b goto L`",
    ),
    (
        "$t1 = 1",
        "1",
        BYTE,
        "`$t1` is no name: a name has letters, digits and `_`, and begins with no digit",
    ),
    (
        "x = a $ b",
        "7",
        BYTE,
        "`$` means nothing here: notes for readers stand behind `#`",
    ),
    (
        "x = 1 \\ 2",
        "7",
        BYTE,
        "`\\` means nothing here: notes for readers stand behind `#`",
    ),
    (
        "x = a \x1b b",
        "7",
        BYTE,
        "`\\x1b` means nothing here: notes for readers stand behind `#`",
    ),
    (
        "x = \u{e9} + 1",
        "5",
        BYTE,
        "`\\xc3\\xa9` is not ASCII: names have the letters a to z and A to Z, digits and `_`, and other letters may stand behind `#`",
    ),
    (
        "x = 1\ry = 2",
        "6",
        BYTE,
        "a carriage return stands inside the line: end a line with a line feed, alone or behind a carriage return",
    ),
    (
        "x = 9223372036854775808",
        "5",
        "the number is too large (refusal 2)",
        "`9223372036854775808` is above 9223372036854775807, the largest number",
    ),
];

/// Slips of lines and of names.
pub static LINES: [Slip; 23] = [
    (
        "x = y + z + w",
        "11",
        LINE,
        "`+` is a second operator, and a statement has one: set a variable to the first result, and use it in the next line",
    ),
    (
        "print x + 1",
        "9",
        LINE,
        "`+` is a second operator, and a statement has one: set a variable to the first result, and use it in the next line",
    ),
    (
        "x = y +",
        "8",
        LINE,
        "`+` cannot be the end of the line: something has to stand behind it",
    ),
    (
        "if x = 3 goto L",
        "6",
        LINE,
        "`=` sets a variable: a test compares with `==`",
    ),
    (
        "if x < 3 then goto L",
        "10",
        LINE,
        "`then` is left out: a test is written `if a < b goto L`",
    ),
    (
        "return x + 1",
        "8",
        LINE,
        "`x + 1` cannot stand behind `return`: set a variable, as in `result = x`, and then write `return` alone",
    ),
    (
        "L: end",
        "4",
        LINE,
        "`end` cannot stand behind a label: put the label on a line of its own before it",
    ),
    (
        "x := 1",
        "4",
        LINE,
        "`=` stands alone to set a variable: leave the colon out",
    ),
    (
        "x = 1 // note",
        "8",
        LINE,
        "`//` begins no comment: a comment begins with `#`",
    ),
    (
        "IF x < 3 goto L",
        "4",
        LINE,
        "`IF` is written with other letters: `if`",
    ),
    (
        "iffalse x goto L",
        "9",
        LINE,
        "`iffalse` is written with other letters: `ifFalse`",
    ),
    (
        "pritn x",
        "7",
        LINE,
        "`pritn` is no word of the language, and this is the nearest one: `print`",
    ),
    (
        "retun",
        "6",
        LINE,
        "`retun` is no word of the language, and this is the nearest one: `return`",
    ),
    (
        "if x < 3 gotu L",
        "10",
        LINE,
        "`gotu` is no word of the language, and this is the nearest one: `goto`",
    ),
    (
        "x = a + -5",
        "9",
        LINE,
        "`-5` cannot be an operand: set a variable to it, and use that",
    ),
    (
        "x = end + 1",
        "5",
        LINE,
        "`end` is a word of the language, and cannot be a name: take another one",
    ),
    (
        "print = 3",
        "7",
        LINE,
        "`print` is a word of the language, and cannot be a name: take another one",
    ),
    (
        "call a|b|c|d|e|f|g|h|i",
        "21",
        LINE,
        "a call lists 8 procedures at most, too many by 1",
    ),
    (
        "call a|b|c|d|e|f|g|h|i|j",
        "21",
        LINE,
        "a call lists 8 procedures at most, too many by 2",
    ),
    (
        "loop: goto lop",
        "12",
        NO_LABEL,
        "`loop` is the nearest name that there is",
    ),
    (
        "call mian",
        "6",
        NO_PROCEDURE,
        "`main` is the nearest name that there is",
    ),
    (
        "L: L: skip",
        "4",
        "this procedure has a label of this name already (refusal 8)",
        "`L` stands first in line 2",
    ),
    (
        "call main | main",
        "13",
        "this call lists the procedure already (refusal 13)",
        "`main` stands first in line 2",
    ),
];
