// All lines of a file.

ghost use Rattle.std.specs.Prelude.{◌≡◌, IfOk};
ghost use Rattle.flow_lints.specs.Lints.{IsLinted};
ghost use Rattle.report_answers.specs.code.Reported.{TellReport};
ghost use Rattle.lint_json.specs.LintJson.{IsLintJson, TellsLintJson, lines_of, lint_json_of};
ghost use Rattle.lint_json.specs.RefusalJson.{lines_of as error_lines_of, refusal_json_of};
ghost use Rattle.lint_texts.specs.LintTexts.{file_text};
ghost use Rattle.lint_texts.specs.code.Lines.{AreLintLines, reached_in};
ghost use Rattle.lint_texts.specs.code.Uses.{ways_in};

use crate::OutOfMemory;
use crate::ends::{EndText, ErrorsText, FileText};
use crate::errors::push_errors;
use crate::remarks::push_lints;
use flow_graph::Graph;
use flow_lints::{Linted, linted};
use lint_styles::shown_bytes;
use lint_texts::{File, LintLines, Telling};
use refusal_texts::{ToldRefusal, first_told};
use report_answers::ReportAnswers;
use std::alloc::Global;
use text_pieces::whole_text;

// All lines of a program's file, which is shown by this name.
fn program_lines(alloc: Global, name: &[u8], lines: &LintLines<'_>) -> Result<Vec<u8>, OutOfMemory>
    requires { AreLintLines lines.now }
    ensures { IfOk result (λ text. text.items ≡ lines_of name.now lines.now.file.text.now lines.now.telling lines.now.graph.now
        (reached_in lines.now) (ways_in lines.now.ways.items) lines.now.linted.now) }
{
    let mut text = whole_text(alloc, &FileText { name })?;
    push_lints(alloc, &mut text, name, lines)?;
    let end = whole_text(alloc, &EndText { name, lines })?;
    text.extend_from_slice(end.as_slice())?;
    Ok(text)
}

// What is told of a program's file.
fn lines_json(alloc: Global, lines: &LintLines<'_>) -> Result<Vec<u8>, OutOfMemory>
    requires { AreLintLines lines.now }
    ensures { IfOk result (λ text. text.items ≡ lint_json_of (file_text lines.now.file) lines.now.telling lines.now.graph.now
        (reached_in lines.now) (ways_in lines.now.ways.items) lines.now.linted.now) }
{
    let name = shown_bytes(alloc, lines.file.name)?;
    program_lines(alloc, name.as_slice(), lines)
}

/// What is told of the program of a file, as lines of JSON: one with the file's name, one for each lint that is told, one where dead assignments
/// are not told, and one with how many remarks there are.
///
/// The conditions: the answers are to what a report on this graph's program asks, and the lints are the program's. Fails only where memory
/// runs out.
pub fn lint_json(
    alloc: Global,
    file: File<'_>,
    telling: Telling,
    graph: &Graph<'_>,
    answers: &ReportAnswers,
    linted: &Linted,
) -> Result<Vec<u8>, OutOfMemory>
    requires answers { TellReport graph.now answers.now }
    requires linted { IsLinted graph.now linted.now }
    ensures { IfOk result (λ text. IsLintJson (file_text file.entry) telling graph.now linted.now text.items) }
{
    let lines = LintLines::of(alloc, file, telling, graph, answers, linted)?;
    lines_json(alloc, &lines)
}

/// The same of what is found on the calling thread. Fails as [`ReportAnswers`] do.
pub fn lint_json_here(
    alloc: Global,
    file: File<'_>,
    telling: Telling,
    graph: &Graph<'_>,
) -> Result<Vec<u8>, OutOfMemory>
    ensures { IfOk result (λ text. TellsLintJson (file_text file.entry) telling graph.now text.items) }
{
    let answers = ReportAnswers::answered_here(alloc, graph)?;
    let told = linted(alloc, graph, &answers)?;
    let text = lint_json(alloc, file, telling, graph, &answers, &told)?;
    Ok(text)
}

// All lines of a file that is refused, which is shown by this name.
fn error_lines(
    alloc: Global,
    name: &[u8],
    text: &[u8],
    found: &[ToldRefusal],
) -> Result<Vec<u8>, OutOfMemory>
    ensures { IfOk result (λ out. out.items ≡ error_lines_of name.now text.now found.now) }
{
    let mut out = whole_text(alloc, &FileText { name })?;
    push_errors(alloc, &mut out, name, text, first_told(found))?;
    let end = whole_text(
        alloc,
        &ErrorsText {
            name,
            count: found.len(),
        },
    )?;
    out.extend_from_slice(end.as_slice())?;
    Ok(out)
}

/// What is told of a file in whose text this was found to be wrong, as lines of JSON: one with its name, one for each error that is told, and one
/// with how many these are.
/// Fails only where memory runs out.
pub fn refusal_json(
    alloc: Global,
    file: &[u8],
    text: &[u8],
    found: &[ToldRefusal],
) -> Result<Vec<u8>, OutOfMemory>
    ensures { IfOk result (λ out. out.items ≡ refusal_json_of file.now text.now found.now) }
{
    let name = shown_bytes(alloc, file)?;
    error_lines(alloc, name.as_slice(), text, found)
}
