// Procedures out of sections: their statements and labels by number, and the program.

ghost use Rattle.std.specs.Prelude.{All, ◌≡◌, ◌+◌, ◌*◌, ◌<◌, ◌≤◌, ◌^◌, ◌++◌, ℕ, List, length, map, fold, flat_map, IfOk, OnOk};
ghost use Rattle.tac_reader.specs.code.Built.{names_view};
ghost use Rattle.tac_reader.specs.code.Occurrences.{IsNumberedIn};
ghost use Rattle.tac_reader.specs.code.Procedures.{labels_at};
ghost use Rattle.tac_reader.specs.Parses.{label_places, labels_from, names_in, procedure_of, procedures_from, start_of as start_in, statement_of};
ghost use Rattle.tac_reader.specs.Parses.{variables_in};
ghost use Rattle.tac_program.specs.Names.{noted};
ghost use Rattle.tac_reader.specs.code.SectionViews.{lines_view, section_view, sections_view};
ghost use Rattle.tac_reader.specs.Sections.{labels_in, only_name, statements_of, variables_of};
ghost use Rattle.tac_program.specs.Sound.{IsSound};
ghost use Rattle.tac_lines.specs.code.Views.{tokens_view};

use crate::OutOfMemory;
use crate::build::{Names, Progress, kind};
use crate::cursor::LineCursor;
use crate::occurrences::{NotedVariables, Occurrence, Variables};
use crate::section::Section;
use std::alloc::Global;
use tac_lines::{
    Lines, Role, Statement, Token, TokenKind, cells, counted, has_only_variables, stop_of,
};
use tac_program::{Label, NameSeeds, NameTable, Proc, Program, Span, Stmt};

/// The names that the whole program shares.
#[derive(Clone, Copy)]
struct Tables<'a> {
    procedures: &'a NameTable,
    variables: Variables<'a>,
}

/// Where the first token starts.
fn start_of(tokens: &[Token]) -> u32
    ensures { (text : List ℕ) → start_in (tokens_view text tokens.now) ≡ result }
{
    match tokens.first() {
        None => 0,
        Some(token) => token.start,
    }
}

/// What a statement's tokens say in the cursor's text, and where they stand. What the buffer holds is
/// lost.
fn statement(
    names: Names<'_>,
    cursor: &mut LineCursor<'_>,
    formed: Statement<'_>,
    progress: &mut Progress,
) -> Result<Stmt, OutOfMemory>
    requires { names.variables.text.now ≡ cursor.old }
    ensures statement { IfOk result (λ s. s ≡ statement_of cursor.old (names_view names.entry) (tokens_view cursor.old formed.entry.tokens.now)) }
    ensures text { cursor.new ≡ cursor.old }
{
    let start = start_of(formed.tokens);
    let span = Span {
        line: cursor.line_at(start),
        start,
        end: stop_of(formed.tokens),
    };
    let kind = kind(names, formed, progress)?;
    Ok(Stmt { kind, span })
}

/// The statements of the lines. What the buffer holds is lost.
fn statements(
    alloc: Global,
    names: Names<'_>,
    cursor: &mut LineCursor<'_>,
    lines: Lines<'_>,
    progress: &mut Progress,
) -> Result<Vec<Stmt>, OutOfMemory>
    requires { names.variables.text.now ≡ cursor.old }
    ensures statements { IfOk result
        (λ stmts. stmts.items ≡ map (statement_of cursor.old (names_view names.entry)) (statements_of (lines_view cursor.old lines.entry))) }
    ensures text { cursor.new ≡ cursor.old }
{
    let mut stmts = Vec::with_capacity(alloc, lines.statements())?;
    for at in 0..lines.len() {
        let formed = lines.line(at).statement();
        if !formed.tokens.is_empty() {
            stmts.push(statement(names, cursor, formed, progress)?)?;
        }
    }
    Ok(stmts)
}

/// Appends so many labels for one place, numbered on.
fn push_labels(labels: &mut Vec<Label>, count: usize, place: u32) -> Result<(), OutOfMemory>
    ensures { OnOk result (labels.new.items ≡ labels.old.items ++ labels_at (length labels.old.items) place count) }
{
    for _ in 0..count {
        let name = counted(labels.len())?;
        labels.push(Label { name, place })?;
    }
    Ok(())
}

/// The labels of the lines, of which there are so many: by number, each with its place.
fn section_labels(alloc: Global, count: u32, lines: Lines<'_>) -> Result<Vec<Label>, OutOfMemory>
    ensures { IfOk result (λ labels. (text : List ℕ) → labels.items ≡ labels_from 0 (label_places 0 (lines_view text lines.entry))) }
{
    let mut labels = Vec::with_capacity(alloc, count as usize)?;
    let mut place = 0;
    for at in 0..lines.len() {
        let line = lines.line(at);
        push_labels(&mut labels, line.labels(), counted(place)?)?;
        if !line.statement().tokens.is_empty() {
            place += 1;
        }
    }
    Ok(labels)
}

/// A section, which procedure it is, and its labels.
#[derive(Drop)]
struct Numbered<'a> {
    number: u32,
    section: Section<'a>,
    labels: NameTable,
}

/// A section's procedure over tables of names. What the buffer holds is lost.
fn procedure(
    alloc: Global,
    tables: Tables<'_>,
    own: Numbered<'_>,
    cursor: &mut LineCursor<'_>,
    progress: &mut Progress,
) -> Result<Proc, OutOfMemory>
    requires text { tables.variables.text.now ≡ cursor.old }
    requires labels { own.labels ≡ names_in (labels_in (section_view cursor.old own.section)) }
    ensures procedure { IfOk result (λ p.
        p ≡ procedure_of cursor.old tables.entry.procedures.now tables.entry.variables.table.now own.entry.number (section_view cursor.old own.entry.section)) }
    ensures text { cursor.new ≡ cursor.old }
{
    let Numbered {
        number,
        section,
        labels,
    } = own;
    let places = section_labels(alloc, labels.len(), section.lines)?;
    let names = Names {
        procedures: tables.procedures,
        variables: tables.variables,
        labels: &labels,
    };
    let stmts = statements(alloc, names, cursor, section.lines, progress)?;
    Ok(Proc::new(number, places, labels, stmts))
}

/// The procedures of the sections, each with its labels in `labels`.
fn procedures(
    alloc: Global,
    tables: Tables<'_>,
    sections: &[Section<'_>],
    labels: Vec<NameTable>,
) -> Result<Vec<Proc>, OutOfMemory>
    requires short { length tables.variables.text.now + 1 < 2 ^ 32 }
    requires labels { labels.items ≡ map (λ s. names_in (labels_in s)) (sections_view tables.variables.text.now sections.now) }
    ensures { IfOk result (λ procs. procs.items ≡ procedures_from tables.entry.variables.text.now tables.entry.procedures.now
        tables.entry.variables.table.now 0 (sections_view tables.entry.variables.text.now sections.now)) }
{
    let mut procs = Vec::with_capacity(alloc, sections.len())?;
    let mut cursor = LineCursor::new(tables.variables.text);
    let mut progress = Progress {
        passed: 0,
        found: Vec::new(alloc),
    };
    let mut labels = labels.into_iter();
    for section in sections {
        let number = counted(procs.len())?;
        let own = Numbered {
            number,
            section: *section,
            labels: labels.next().unwrap(),
        };
        procs.push(procedure(alloc, tables, own, &mut cursor, &mut progress)?)?;
    }
    Ok(procs)
}

/// The program of the sections, each with its labels in `labels`, over these procedures and
/// variables of the text. Fails where memory does.
pub fn program(
    alloc: Global,
    text: &[u8],
    sections: &[Section<'_>],
    procedures: NameTable,
    labels: Vec<NameTable>,
    variables: NotedVariables,
) -> Result<Program, OutOfMemory>
    requires short { length text.now + 1 < 2 ^ 32 }
    requires labels { labels.items ≡ map (λ s. names_in (labels_in s)) (sections_view text.now sections.now) }
    requires numbered { All (IsNumberedIn text.now variables.table) variables.occurrences.items }
    requires sound { IsSound (record {
      procedures = procedures_from text.now procedures variables.table 0 (sections_view text.now sections.now);
      procedure_names = procedures;
      variable_names = variables.table;
    }) }
    ensures { IfOk result (λ p. p ≡ record {
      procedures = procedures_from text.now procedures variables.table 0 (sections_view text.now sections.now);
      procedure_names = procedures;
      variable_names = variables.table;
    }) }
{
    let NotedVariables { table, occurrences } = variables;
    let tables = Tables {
        procedures: &procedures,
        variables: Variables::of(text, &table, &occurrences),
    };
    let procs = self::procedures(alloc, tables, sections, labels)?;
    Ok(Program::new(procs, procedures, table))
}

/// Adds the names among the tokens, and where each stands.
fn note_names(
    alloc: Global,
    seeds: &mut NameSeeds<'_>,
    variables: &mut NotedVariables,
    text: &[u8],
    tokens: &[Token],
) -> Result<(), OutOfMemory>
    requires { All (IsNumberedIn text.now variables.old.table) variables.old.occurrences.items }
    ensures noted { OnOk result
        (variables.new.table ≡ fold noted variables.old.table (names_in (flat_map only_name (tokens_view text.now tokens.now)))) }
    ensures numbered { OnOk result (All (IsNumberedIn text.now variables.new.table) variables.new.occurrences.items) }
{
    for token in tokens {
        if token.kind == TokenKind::Name {
            let (number, _) = variables
                .table
                .insert_full(alloc, seeds, token.bytes(text))?;
            variables.occurrences.push(Occurrence {
                start: token.start,
                stop: token.stop,
                number,
            })?;
        }
    }
    Ok(())
}

/// Adds the variables of a statement, and where each stands. What `found` holds is lost.
fn note_statement(
    alloc: Global,
    seeds: &mut NameSeeds<'_>,
    variables: &mut NotedVariables,
    text: &[u8],
    statement: Statement<'_>,
    found: &mut Vec<Token>,
) -> Result<(), OutOfMemory>
    requires { All (IsNumberedIn text.now variables.old.table) variables.old.occurrences.items }
    ensures noted { OnOk result
        (variables.new.table ≡ fold noted variables.old.table (names_in (variables_of (tokens_view text.now statement.entry.tokens.now)))) }
    ensures numbered { OnOk result (All (IsNumberedIn text.now variables.new.table) variables.new.occurrences.items) }
{
    match statement.form() {
        // Most statements: there is no need to go along their form.
        Some(form) if has_only_variables(form) => {
            note_names(alloc, seeds, variables, text, statement.tokens)
        }
        _ => {
            found.clear();
            cells(found, Role::Variable, statement)?;
            note_names(alloc, seeds, variables, text, found)
        }
    }
}

/// Adds the variables of the lines' statements, and where each stands. What `found` holds is lost.
fn note_lines(
    alloc: Global,
    seeds: &mut NameSeeds<'_>,
    variables: &mut NotedVariables,
    text: &[u8],
    lines: Lines<'_>,
    found: &mut Vec<Token>,
) -> Result<(), OutOfMemory>
    requires { All (IsNumberedIn text.now variables.old.table) variables.old.occurrences.items }
    ensures noted { OnOk result
        (variables.new.table
        ≡ fold noted variables.old.table (names_in (flat_map variables_of (statements_of (lines_view text.now lines.entry))))) }
    ensures numbered { OnOk result (All (IsNumberedIn text.now variables.new.table) variables.new.occurrences.items) }
{
    for at in 0..lines.len() {
        if lines.plays(at, Role::Variable) {
            let statement = lines.line(at).statement();
            note_statement(alloc, seeds, variables, text, statement, found)?;
        }
    }
    Ok(())
}

/// The variables of the sections' statements, by first occurrence, and all their occurrences in text
/// order. Fails where memory does.
pub fn variables(
    alloc: Global,
    seeds: &mut NameSeeds<'_>,
    text: &[u8],
    sections: &[Section<'_>],
) -> Result<NotedVariables, OutOfMemory>
    ensures table { IfOk result (λ variables. variables.table ≡ variables_in (sections_view text.now sections.now)) }
    ensures numbered { IfOk result (λ variables. All (IsNumberedIn text.now variables.table) variables.occurrences.items) }
{
    let mut variables = NotedVariables {
        table: NameTable::new(alloc),
        // Room for what most texts have, as for their tokens.
        occurrences: Vec::with_capacity(alloc, text.len() / 8)?,
    };
    let mut found = Vec::new(alloc);
    for section in sections {
        note_lines(
            alloc,
            seeds,
            &mut variables,
            text,
            section.lines,
            &mut found,
        )?;
    }
    Ok(variables)
}
