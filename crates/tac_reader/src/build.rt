// Statements by number: what a statement's tokens say, over tables of names.

ghost use Rattle.std.specs.Prelude.{◌≡◌, ◌+◌, ◌*◌, ◌<◌, ◌≤◌, ◌^◌, ℕ, List, map, Some, IfOk};
ghost use Rattle.tac_reader.specs.code.Built.{names_view, word_nth, call_numbers};
ghost use Rattle.tac_program.specs.Programs.{number_of};
ghost use Rattle.tac_reader.specs.Parses.{operand_of, operator_of, kind_of, form_of as form_in};
ghost use Rattle.tac_lines.specs.Tokens.{bytes_of};
ghost use Rattle.tac_lines.specs.code.Views.{tokens_view};
ghost use Rattle.tac_program.specs.declared.program.StmtKind.TheVariants.{Binary, Copy, IfCompare, Unary};

use crate::OutOfMemory;
use crate::occurrences::Variables;
use tac_lines::{Form, Role, Statement, Token, TokenKind, cells, number_value};
use tac_program::{Callees, NameTable, Op, Operand, StmtKind};

/// The tables that the numbers in a procedure's statements are places in.
#[derive(Clone, Copy)]
pub struct Names<'a> {
    pub procedures: &'a NameTable,
    pub variables: Variables<'a>,
    pub labels: &'a NameTable,
}

/// What goes from one statement to the next: how many occurrences of variables are passed, and a
/// buffer.
#[derive(Drop)]
pub struct Progress {
    pub passed: usize,
    pub found: Vec<Token>,
}

/// The number of a name, or 0 where it is not there.
fn number(table: &NameTable, name: &[u8]) -> u32
    ensures { result ≡ number_of table.now name.now }
{
    table.find(name).unwrap_or(0)
}

/// The number of the name that the token there spells.
fn number_at(table: &NameTable, text: &[u8], tokens: &[Token], at: usize) -> u32
    ensures { result ≡ number_of table.now (bytes_of (word_nth (tokens_view text.now tokens.now) at)) }
{
    match tokens.get(at) {
        None => number(table, &[]),
        Some(token) => number(table, token.spelling(text)),
    }
}

/// The number of the variable that the token there names.
fn variable_at(variables: Variables<'_>, passed: &mut usize, tokens: &[Token], at: usize) -> u32
    ensures { result ≡ number_of variables.entry.table.now (bytes_of (word_nth (tokens_view variables.entry.text.now tokens.now) at)) }
{
    if let Some(token) = tokens.get(at) {
        if let TokenKind::Name = token.kind {
            return variables.number(passed, *token);
        }
    }
    number_at(variables.table, variables.text, tokens, at)
}

/// The operand that stands there.
fn operand_at(names: Names<'_>, passed: &mut usize, tokens: &[Token], at: usize) -> Operand
    ensures { result ≡ operand_of (names_view names.entry) (word_nth (tokens_view names.entry.variables.text.now tokens.now) at) }
{
    match tokens.get(at) {
        Some(token) => match token.kind {
            TokenKind::Name => Operand::Variable(names.variables.number(passed, *token)),
            TokenKind::Number => Operand::Number(number_value(token.bytes(names.variables.text))),
            _ => Operand::Number(0),
        },
        None => Operand::Number(0),
    }
}

/// The operator that stands there.
fn operator_at(tokens: &[Token], at: usize) -> Op
    ensures { (text : List ℕ) → operator_of (word_nth (tokens_view text tokens.now) at) ≡ result }
{
    match tokens.get(at) {
        Some(token) => match token.kind {
            TokenKind::Operator(op) => op,
            _ => Op::Plus,
        },
        None => Op::Plus,
    }
}

/// What the tokens of a copy say.
fn copy(names: Names<'_>, passed: &mut usize, tokens: &[Token]) -> StmtKind
    ensures { result
        ≡ Copy (number_of names.entry.variables.table.now (bytes_of (word_nth (tokens_view names.entry.variables.text.now tokens.now) 0)))
        (operand_of (names_view names.entry) (word_nth (tokens_view names.entry.variables.text.now tokens.now) 2)) }
{
    StmtKind::Copy {
        target: variable_at(names.variables, passed, tokens, 0),
        value: operand_at(names, passed, tokens, 2),
    }
}

/// What the tokens of a unary assignment say.
fn unary(names: Names<'_>, passed: &mut usize, tokens: &[Token]) -> StmtKind
    ensures { result
        ≡ Unary (number_of names.entry.variables.table.now (bytes_of (word_nth (tokens_view names.entry.variables.text.now tokens.now) 0)))
        (operator_of (word_nth (tokens_view names.entry.variables.text.now tokens.now) 2))
        (operand_of (names_view names.entry) (word_nth (tokens_view names.entry.variables.text.now tokens.now) 3)) }
{
    StmtKind::Unary {
        target: variable_at(names.variables, passed, tokens, 0),
        op: operator_at(tokens, 2),
        operand: operand_at(names, passed, tokens, 3),
    }
}

/// What the tokens of a binary assignment say.
fn binary(names: Names<'_>, passed: &mut usize, tokens: &[Token]) -> StmtKind
    ensures { result ≡ Binary (operator_of (word_nth (tokens_view names.entry.variables.text.now tokens.now) 3))
        (number_of names.entry.variables.table.now (bytes_of (word_nth (tokens_view names.entry.variables.text.now tokens.now) 0)))
        (operand_of (names_view names.entry) (word_nth (tokens_view names.entry.variables.text.now tokens.now) 2))
        (operand_of (names_view names.entry) (word_nth (tokens_view names.entry.variables.text.now tokens.now) 4)) }
{
    StmtKind::Binary {
        op: operator_at(tokens, 3),
        target: variable_at(names.variables, passed, tokens, 0),
        left: operand_at(names, passed, tokens, 2),
        right: operand_at(names, passed, tokens, 4),
    }
}

/// What the tokens of a comparison say.
fn comparison(names: Names<'_>, passed: &mut usize, tokens: &[Token]) -> StmtKind
    ensures { result ≡ IfCompare (operator_of (word_nth (tokens_view names.entry.variables.text.now tokens.now) 2))
        (number_of names.entry.labels.now (bytes_of (word_nth (tokens_view names.entry.variables.text.now tokens.now) 5)))
        (operand_of (names_view names.entry) (word_nth (tokens_view names.entry.variables.text.now tokens.now) 1))
        (operand_of (names_view names.entry) (word_nth (tokens_view names.entry.variables.text.now tokens.now) 3)) }
{
    StmtKind::IfCompare {
        op: operator_at(tokens, 2),
        label: number_at(names.labels, names.variables.text, tokens, 5),
        left: operand_at(names, passed, tokens, 1),
        right: operand_at(names, passed, tokens, 3),
    }
}

/// The procedures that a statement calls, by number. What `found` holds is lost.
fn callees(
    procedures: &NameTable,
    text: &[u8],
    statement: Statement<'_>,
    found: &mut Vec<Token>,
) -> Result<Callees, OutOfMemory>
    ensures { IfOk result (λ callees. callees ≡ call_numbers procedures.now (tokens_view text.now statement.entry.tokens.now)) }
{
    found.clear();
    cells(found, Role::Callee, statement)?;
    let mut callees = Callees::new();
    for token in &*found {
        callees.push(procedures.find(token.spelling(text)).unwrap_or(0));
    }
    Ok(callees)
}

/// What a statement says. What the buffer holds is lost.
pub fn kind(
    names: Names<'_>,
    statement: Statement<'_>,
    progress: &mut Progress,
) -> Result<StmtKind, OutOfMemory>
    ensures { IfOk result (λ k. k ≡ kind_of (names_view names.entry)
        (call_numbers names.entry.procedures.now (tokens_view names.entry.variables.text.now statement.entry.tokens.now))
        (form_in (tokens_view names.entry.variables.text.now statement.entry.tokens.now))
        (map (λ t. t.word) (tokens_view names.entry.variables.text.now statement.entry.tokens.now))) }
{
    let Progress { passed, found } = progress;
    let text = names.variables.text;
    let tokens = statement.tokens;
    match statement.form() {
        Some(Form::Copy) => Ok(copy(names, passed, tokens)),
        Some(Form::Unary) => Ok(unary(names, passed, tokens)),
        Some(Form::Binary) => Ok(binary(names, passed, tokens)),
        Some(Form::Jump) => Ok(StmtKind::Goto {
            label: number_at(names.labels, text, tokens, 1),
        }),
        Some(Form::Test) => Ok(StmtKind::If {
            condition: operand_at(names, passed, tokens, 1),
            label: number_at(names.labels, text, tokens, 3),
        }),
        Some(Form::NegatedTest) => Ok(StmtKind::IfFalse {
            condition: operand_at(names, passed, tokens, 1),
            label: number_at(names.labels, text, tokens, 3),
        }),
        Some(Form::Comparison) => Ok(comparison(names, passed, tokens)),
        Some(Form::Call) => Ok(StmtKind::Call {
            callees: callees(names.procedures, text, statement, found)?,
        }),
        Some(Form::Return) => Ok(StmtKind::Return),
        Some(Form::Read) => Ok(StmtKind::Read {
            target: variable_at(names.variables, passed, tokens, 1),
        }),
        Some(Form::Print) => Ok(StmtKind::Print {
            value: operand_at(names, passed, tokens, 1),
        }),
        Some(Form::Skip) | None => Ok(StmtKind::Skip),
    }
}
