// What each statement of a program does with the bits of an analysis.

ghost use Rattle.std.specs.List.{list_any};
ghost use Rattle.std.specs.Prelude.{◌≡◌, ◌+◌, ◌*◌, ◌/◌, ◌<◌, ◌≤◌, ◌&&◌, ◌||◌, ℕ, IfOk, length, nat_eq, option_copied, option_map, Some};
ghost use Rattle.gen_kill.specs.code.BitTables.{table_has};
ghost use Rattle.gen_kill.specs.Selections.{column_count};
ghost use Rattle.gen_kill.specs.code.Columns.{IsChosenOf};
ghost use Rattle.gen_kill.specs.code.Effects.{AreDependentWords, AreEffects, IsNumberedEffect, column_depends, depends, marks, owns_numbered};
ghost use Rattle.flow_graph.specs.Points.{kind_at, point_count, statement_at};
ghost use Rattle.flow_graph.specs.Transfers.{has_operand, names_variable, operands_of};
ghost use Rattle.flow_graph.specs.Universes.{bits};
ghost use Rattle.tac_program.specs.Sound.{IsSound};

use crate::OutOfMemory;
use crate::bit_table::BitTable;
use crate::columns::Columns;
use crate::effect::{Effect, KeptEffect};
use flow_graph::{Analysis, Expr, Graph, Walk, target};
use std::alloc::Global;
use tac_program::{Operand, Stmt, StmtKind};

/// The variable that an operand is.
fn variable(operand: Operand) -> Option<u32>
    ensures { (x : ℕ) → marks result x ≡ names_variable x operand }
{
    match operand {
        Operand::Variable(variable) => Some(variable),
        Operand::Number(_) => None,
    }
}

/// The variables that a statement reads.
fn read_variables(kind: &StmtKind) -> (Option<u32>, Option<u32>)
    ensures { (x : ℕ) → (marks result.0 x || marks result.1 x) ≡ list_any (names_variable x) (operands_of kind.now) }
{
    match kind {
        StmtKind::Copy { value, .. } => (variable(*value), None),
        StmtKind::Unary { operand, .. } => (variable(*operand), None),
        StmtKind::Binary { left, right, .. } => (variable(*left), variable(*right)),
        StmtKind::Goto { .. } => (None, None),
        StmtKind::If { condition, .. } => (variable(*condition), None),
        StmtKind::IfFalse { condition, .. } => (variable(*condition), None),
        StmtKind::IfCompare { left, right, .. } => (variable(*left), variable(*right)),
        StmtKind::Call { .. } => (None, None),
        StmtKind::Return => (None, None),
        StmtKind::Read { .. } => (None, None),
        StmtKind::Print { value } => (variable(*value), None),
        StmtKind::Skip => (None, None),
    }
}

/// The variables that are operands of an expression.
fn operand_variables(expression: Expr) -> (Option<u32>, Option<u32>)
    ensures { (x : ℕ) → (marks result.0 x || marks result.1 x) ≡ has_operand expression x }
{
    match expression {
        Expr::Unary(_, operand) => (variable(operand), None),
        Expr::Binary(left, _, right) => (variable(left), variable(right)),
    }
}

/// The variables that a bit depends on.
fn bit_variables(graph: &Graph<'_>, analysis: Analysis, bit: u32) -> (Option<u32>, Option<u32>)
    requires { bit < bits graph.now analysis }
    ensures { (x : ℕ) → (marks result.0 x || marks result.1 x) ≡ depends graph.now analysis x bit }
{
    match analysis {
        Analysis::Reach => (Some(graph.definition(bit).0), None),
        Analysis::Live => (Some(bit), None),
        Analysis::Avail => operand_variables(graph.expression(bit)),
        Analysis::Busy => operand_variables(graph.expression(bit)),
    }
}

/// This number, if a variable is written.
fn definition_number(written: Option<u32>, number: u32) -> Option<u32>
    ensures { result ≡ option_map (λ x. number) written }
{
    match written {
        None => None,
        Some(_) => Some(number),
    }
}

/// The own bits of a statement, where the next definition has this number.
fn own_bits(
    graph: &Graph<'_>,
    analysis: Analysis,
    number: u32,
    point: u32,
    kind: &StmtKind,
) -> (Option<u32>, Option<u32>)
    requires point { point < point_count graph.now }
    requires kind { kind_at graph.now point ≡ Some kind.now }
    ensures { (bit : ℕ) → (marks result.0 bit || marks result.1 bit) ≡ owns_numbered graph.now analysis number point bit }
{
    match analysis {
        Analysis::Reach => (definition_number(target(kind), number), None),
        Analysis::Live => read_variables(kind),
        Analysis::Avail => (graph.evaluated(point), None),
        Analysis::Busy => (graph.evaluated(point), None),
    }
}

/// What a statement does, where the next definition has this number.
fn statement_effect(
    graph: &Graph<'_>,
    analysis: Analysis,
    number: u32,
    point: u32,
    kind: &StmtKind,
) -> Effect
    requires point { point < point_count graph.now }
    requires kind { kind_at graph.now point ≡ Some kind.now }
    requires sound { IsSound graph.now }
    ensures { IsNumberedEffect graph.now analysis number point result }
{
    let (first, second) = own_bits(graph, analysis, number, point, kind);
    Effect {
        first,
        second,
        written: target(kind),
    }
}

/// What the statement before which a point stands does, where the next definition has this number: nothing at a
/// procedure's end.
fn effect(
    graph: &Graph<'_>,
    analysis: Analysis,
    number: u32,
    point: u32,
    stmt: Option<&Stmt>,
) -> Effect
    requires point { point < point_count graph.now }
    requires stmt { option_copied stmt ≡ statement_at graph.now point }
    requires sound { IsSound graph.now }
    ensures { IsNumberedEffect graph.now analysis number point result }
{
    match stmt {
        None => Effect {
            first: None,
            second: None,
            written: None,
        },
        Some(stmt) => statement_effect(graph, analysis, number, point, &stmt.kind),
    }
}

/// What the statement at each point does, by columns.
pub(crate) fn effects(
    alloc: Global,
    graph: &Graph<'_>,
    analysis: Analysis,
    columns: &Columns,
) -> Result<Vec<KeptEffect>, OutOfMemory>
    ensures { IfOk result (λ v. AreEffects (record { program = graph.now; analysis = analysis; chosen = columns.now }) v.items) }
{
    let mut effects = Vec::with_capacity(alloc, graph.points() as usize)?;
    // The dummies come first, one for each variable.
    let mut number = graph.bits(Analysis::Live);
    let mut walk = Walk::new(graph.program());
    for point in 0..graph.points() {
        let (stmt, next) = walk.step();
        let effect = effect(graph, analysis, number, point, stmt);
        effects.push(KeptEffect::of(columns.effect(effect)))?;
        match effect.written {
            Some(_) => number += 1,
            None => {},
        }
        walk = next;
    }
    Ok(effects)
}

/// Sets a bit of a row, if there is such a row.
fn mark_bit(table: &mut BitTable, rows: u32, row: Option<u32>, bit: u32)
    requires rows { rows * table.old.width ≤ length table.old.words.items }
    requires bit { bit / 64 < table.old.width }
    ensures width { table.new.width ≡ table.old.width }
    ensures count { length table.new.words.items ≡ length table.old.words.items }
    ensures bits { (r b : ℕ) → r < rows → b / 64 < table.old.width → table_has table.new.words.items table.new.width r b
        ≡ (table_has table.old.words.items table.old.width r b || (marks row r && nat_eq b bit)) }
{
    match row {
        Some(row) => {
            if row < rows {
                table.set(row, bit);
            }
        },
        None => {},
    }
}

/// The variables that a column's bit depends on.
pub(crate) fn column_variables(
    graph: &Graph<'_>,
    analysis: Analysis,
    columns: &Columns,
    column: u32,
) -> (Option<u32>, Option<u32>)
    requires column { column < column_count (record { program = graph.now; analysis = analysis; chosen = columns.now }) }
    requires chosen { IsChosenOf graph.now analysis columns.now }
    ensures { (x : ℕ) → (marks result.0 x || marks result.1 x)
        ≡ column_depends (record { program = graph.now; analysis = analysis; chosen = columns.now }) x column }
{
    bit_variables(graph, analysis, columns.bit(column))
}

/// For each variable the words of 64 columns in which some column depends on it: word `w` at place `w % 64`.
pub(crate) fn dependent_words(
    alloc: Global,
    graph: &Graph<'_>,
    analysis: Analysis,
    columns: &Columns,
) -> Result<BitTable, OutOfMemory>
    requires { IsChosenOf graph.now analysis columns.now }
    ensures { IfOk result (λ words. AreDependentWords (record { program = graph.now; analysis = analysis; chosen = columns.now })
        words.words.items words.width) }
{
    let rows = graph.program().variables();
    let count = columns.count(graph.bits(analysis));
    let mut words = BitTable::blank(alloc, rows, 64)?;
    for column in 0..count {
        let (first, second) = column_variables(graph, analysis, columns, column);
        mark_bit(&mut words, rows, first, column / 64 % 64);
        mark_bit(&mut words, rows, second, column / 64 % 64);
    }
    Ok(words)
}

/// Puts for each variable the columns from one on that depend on it, as many as a row has.
pub(crate) fn put_dependence(
    graph: &Graph<'_>,
    analysis: Analysis,
    columns: &Columns,
    from: u32,
    table: &mut BitTable,
)
    requires chosen { IsChosenOf graph.now analysis columns.now }
    requires rows { length table.old.words.items ≡ length graph.now.variable_names * table.old.width }
    requires narrow { table.old.width ≤ 8 }
    ensures width { table.new.width ≡ table.old.width }
    ensures count { length table.new.words.items ≡ length table.old.words.items }
    ensures columns { (r c : ℕ) → r < length graph.now.variable_names → c < 64 * table.old.width
        → from + c < column_count (record { program = graph.now; analysis = analysis; chosen = columns.now })
        → table_has table.new.words.items table.new.width r c
        ≡ column_depends (record { program = graph.now; analysis = analysis; chosen = columns.now }) r (from + c) }
{
    let rows = graph.program().variables();
    table.clear();
    let most = 64 * table.width as u32;
    let count = columns.count(graph.bits(analysis));
    let count = count.saturating_sub(from).min(most);
    for place in 0..count {
        let (first, second) = column_variables(graph, analysis, columns, from + place);
        mark_bit(table, rows, first, place);
        mark_bit(table, rows, second, place);
    }
}
