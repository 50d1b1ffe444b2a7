// Statements by their numbers.

ghost use Rattle.std.specs.Prelude.{◌≡◌, ◌+◌, ◌++◌, ◌∷◌, [], ◌^◌, ◌<◌, ◌≤◌, All, IfErr, IfOk, IfSome, None, OnOk, length, map};
ghost use Rattle.flow_builder.specs.Built.{binary_at, call_at, comparison_at, copy_at, if_at, if_false_at, kind_at, print_at, statement_of};
ghost use Rattle.flow_builder.specs.Built.{unary_at};
ghost use Rattle.flow_builder.specs.Checks.{IsSoundNumbers, IsStatementsFault};

use crate::OutOfMemory;
use crate::arrays::BuiltStatement;
use crate::fault::BuildFault;
use crate::operands::{operand, operator};
use crate::sound::{Counts, is_sound};
use std::alloc::Global;
use tac_program::{Callees, Span, Stmt, StmtKind};

fn copy(built: &BuiltStatement) -> Option<StmtKind>
    ensures { result ≡ copy_at built.now }
{
    Some(StmtKind::Copy {
        target: built.target,
        value: operand(built.right)?,
    })
}

fn unary(built: &BuiltStatement) -> Option<StmtKind>
    ensures { result ≡ unary_at built.now }
{
    let op = operator(built.operator)?;
    Some(StmtKind::Unary {
        target: built.target,
        op,
        operand: operand(built.right)?,
    })
}

fn binary(built: &BuiltStatement) -> Option<StmtKind>
    ensures { result ≡ binary_at built.now }
{
    let op = operator(built.operator)?;
    let left = operand(built.left)?;
    Some(StmtKind::Binary {
        op,
        target: built.target,
        left,
        right: operand(built.right)?,
    })
}

fn test(built: &BuiltStatement) -> Option<StmtKind>
    ensures { result ≡ if_at built.now }
{
    Some(StmtKind::If {
        condition: operand(built.right)?,
        label: built.label,
    })
}

fn negated_test(built: &BuiltStatement) -> Option<StmtKind>
    ensures { result ≡ if_false_at built.now }
{
    Some(StmtKind::IfFalse {
        condition: operand(built.right)?,
        label: built.label,
    })
}

fn comparison(built: &BuiltStatement) -> Option<StmtKind>
    ensures { result ≡ comparison_at built.now }
{
    let op = operator(built.operator)?;
    let left = operand(built.left)?;
    Some(StmtKind::IfCompare {
        op,
        label: built.label,
        left,
        right: operand(built.right)?,
    })
}

// So many procedures, as those of a call.
fn callees_of(procedures: &[u32]) -> Callees
    requires { length procedures.now ≤ 8 }
    ensures { result ≡ procedures.now }
{
    let mut callees = Callees::new();
    for procedure in procedures {
        callees.push(*procedure);
    }
    callees
}

fn call(callees: &[u32], built: &BuiltStatement) -> Option<StmtKind>
    ensures { result ≡ call_at callees.now built.now }
{
    let first = built.first_callee as usize;
    let count = built.callees as usize;
    if count > 8 || first + count > callees.len() {
        return None;
    }
    let callees = callees_of(&callees[first..first + count]);
    Some(StmtKind::Call { callees })
}

fn print(built: &BuiltStatement) -> Option<StmtKind>
    ensures { result ≡ print_at built.now }
{
    Some(StmtKind::Print {
        value: operand(built.right)?,
    })
}

// The statement of numbers; none where there is no such kind, operator or operand, or where its callees are none of all.
fn kind(callees: &[u32], built: &BuiltStatement) -> Option<StmtKind>
    ensures { result ≡ kind_at callees.now built.now }
{
    match built.kind {
        1 => copy(built),
        2 => unary(built),
        3 => binary(built),
        4 => Some(StmtKind::Goto { label: built.label }),
        5 => test(built),
        6 => negated_test(built),
        7 => comparison(built),
        8 => call(callees, built),
        9 => Some(StmtKind::Return),
        10 => Some(StmtKind::Read {
            target: built.target,
        }),
        11 => print(built),
        12 => Some(StmtKind::Skip),
        _ => None,
    }
}

// The statement of numbers, where it leads to what is there.
fn statement(callees: &[u32], built: &BuiltStatement, counts: Counts) -> Option<Stmt>
    ensures built { IfSome result (λ stmt. stmt ≡ statement_of callees.now built.now) }
    ensures sound { IfSome result (λ _. IsSoundNumbers counts.variables counts.labels counts.procedures callees.now built.now) }
    ensures none { result ≡ None → ¬ (IsSoundNumbers counts.variables counts.labels counts.procedures callees.now built.now) }
{
    match kind(callees, built) {
        None => None,
        Some(kind) => {
            if !is_sound(&kind, counts) {
                return None;
            }
            let span = Span {
                line: built.line,
                start: 0,
                end: 0,
            };
            Some(Stmt { kind, span })
        }
    }
}

// Puts a statement last.
fn put(statements: &mut Vec<Stmt>, statement: Stmt) -> Result<(), OutOfMemory>
    ensures { OnOk result (statements.new.items ≡ statements.old.items ++ statement ∷ []) }
{
    statements.push(statement)?;
    Ok(())
}

/// The statements of numbers, which begin at a number among all.
pub(crate) fn statements(
    alloc: Global,
    callees: &[u32],
    built: &[BuiltStatement],
    first: u32,
    counts: Counts,
) -> Result<Vec<Stmt>, BuildFault>
    requires { first + length built.now < 2 ^ 32 }
    ensures statements { IfOk result (λ statements. statements.items ≡ map (statement_of callees.now) built.now) }
    ensures sound { OnOk result (All (IsSoundNumbers counts.variables counts.labels counts.procedures callees.now) built.now) }
    ensures fault { IfErr result (IsStatementsFault counts.variables counts.labels counts.procedures callees.now built.now first) }
{
    let mut statements = Vec::with_capacity(alloc, built.len())?;
    for i in 0..built.len() {
        match statement(callees, &built[i], counts) {
            None => return Err(BuildFault::BadStatement(first + i as u32)),
            Some(statement) => put(&mut statements, statement)?,
        }
    }
    Ok(statements)
}
