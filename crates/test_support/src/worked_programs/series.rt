//! Programs and tables of many lines of one form.

use std::alloc::{AllocError as OutOfMemory, Global};
use std::ops::Range;

/// Between its first part and its last the text has this one so many times.
pub fn repeated(
    alloc: Global,
    first: &str,
    part: &str,
    count: usize,
    last: &str,
) -> Result<String, OutOfMemory> {
    let mut text = String::from_str(alloc, first)?;
    for _ in 0..count {
        text.push_str(part)?;
    }
    text.push_str(last)?;
    Ok(text)
}

/// Between its first part and its last the text has the word and the end around each number.
pub fn numbered(
    alloc: Global,
    first: &str,
    numbers: Range<u32>,
    around: (&str, &str),
    last: &str,
) -> Result<String, OutOfMemory> {
    let mut text = String::from_str(alloc, first)?;
    for number in numbers {
        write!(text, "{}{number}{}", around.0, around.1)?;
    }
    text.push_str(last)?;
    Ok(text)
}

/// A `main` that prints so many variables, one after the other: `v0`, `v1` and so on.
pub fn prints(alloc: Global, count: u32) -> Result<String, OutOfMemory> {
    numbered(alloc, "proc main\n", 0..count, ("print v", "\n"), "end\n")
}

/// What is live there, as a table: at each point the variables that are printed from there on.
pub fn live_of_prints(alloc: Global, count: u32) -> Result<String, OutOfMemory> {
    let mut text = String::new(alloc);
    for point in 0..count {
        write!(text, "main {point}: v{point}")?;
        for number in point + 1..count {
            write!(text, ", v{number}")?;
        }
        text.push('\n')?;
    }
    write!(text, "main {count}: -\n")?;
    Ok(text)
}
