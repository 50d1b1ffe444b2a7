// Where procedures begin and end in a text.

ghost use Rattle.std.specs.Prelude.{◌≡◌, ◌≤◌, ◌++◌, [], ◌∷◌, ℕ, List, length, get_or, IfOk, OnOk, if◌then◌else◌};
ghost use Rattle.lint_texts.specs.Starts.{line_start as start_of_line, starts_from, starts_of};
ghost use Rattle.tac_lines.specs.Forms.{end_form, proc_form};
ghost use Rattle.tac_lines.specs.Tokens.{rows};
ghost use Rattle.tac_lines.specs.code.Views.{tokens_view};
ghost use Rattle.tac_program.specs.Limits.{longest_text};
ghost use Rattle.tac_program.specs.declared.limits.Limits.TheVariants.{Large};

use crate::OutOfMemory;
use std::alloc::Global;
use tac_faults::row::read_row;
use tac_lines::Token;
use tac_lines::lex::{is_end, is_proc, line_stop};
use tac_program::Limits;

/// Where something begins in a text: the number of its line, from 1, and how many bytes stand before it.
#[derive(Clone, Copy, Debug, PartialEq, Eq)]
pub struct Start {
    pub line: u32,
    pub place: u32,
}

/// Where the text begins.
const FIRST: Start = Start { line: 1, place: 0 };

/// Where the procedures of a text begin, at their `proc`, and where they end, at their `end`.
#[derive(Drop)]
pub struct Starts {
    /// Where they begin, in the order of the text.
    pub openings: Vec<Start>,
    /// Where they end.
    pub closings: Vec<Start>,
}

// Where the line of this number begins, by its tokens.
fn line_start(line: u32, tokens: &[Token]) -> Start
    ensures { (text : List ℕ) → start_of_line line (tokens_view text tokens.now) ≡ result }
{
    if tokens.is_empty() {
        Start { line, place: 0 }
    } else {
        Start {
            line,
            place: tokens[0].start,
        }
    }
}

// Puts a start last, where it is one that is looked for.
fn put_if(starts: &mut Vec<Start>, is_one: bool, start: Start) -> Result<(), OutOfMemory>
    ensures { OnOk result (starts.new.items ≡ starts.old.items ++ (if is_one then start ∷ [] else [])) }
{
    if is_one {
        starts.push(start)?;
    }
    Ok(())
}

// The starts of a text that is not too long.
fn starts_within(alloc: Global, text: &[u8]) -> Result<Starts, OutOfMemory>
    requires { length text.now ≤ longest_text Large }
    ensures openings { IfOk result (λ starts. starts.openings.items ≡ starts_from proc_form 1 (rows text.now)) }
    ensures closings { IfOk result (λ starts. starts.closings.items ≡ starts_from end_form 1 (rows text.now)) }
{
    let mut openings = Vec::new(alloc);
    let mut closings = Vec::new(alloc);
    let mut row = Vec::new(alloc);
    let mut at = 0;
    let mut line = 1;
    while at < text.len() {
        let stop = line_stop(text, at);
        let _ = read_row(&mut row, text, at, stop)?;
        let start = line_start(line, &row);
        put_if(&mut openings, is_proc(&row), start)?;
        put_if(&mut closings, is_end(&row), start)?;
        line += 1;
        at = stop;
    }
    Ok(Starts { openings, closings })
}

impl Starts {
    /// The starts of a text; none where it is longer than any program's. Fails only where memory runs out.
    pub fn of(alloc: Global, text: &[u8]) -> Result<Starts, OutOfMemory>
        ensures openings { IfOk result (λ starts. starts.openings.items ≡ starts_of proc_form text.now) }
        ensures closings { IfOk result (λ starts. starts.closings.items ≡ starts_of end_form text.now) }
    {
        if text.len() > Limits::Large.text() as usize {
            return Ok(Starts {
                openings: Vec::new(alloc),
                closings: Vec::new(alloc),
            });
        }
        starts_within(alloc, text)
    }
}

/// The start of a procedure of this number; the text's where there is none.
pub(crate) fn start_among(starts: &[Start], procedure: u32) -> Start
    ensures { result ≡ get_or starts.now procedure (record { line = 1; place = 0 }) }
{
    let number = procedure as usize;
    if number < starts.len() {
        starts[number]
    } else {
        FIRST
    }
}
