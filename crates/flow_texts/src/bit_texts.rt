// What the bits of an analysis are called, and numbers.

ghost use Rattle.std.specs.Prelude.{◌≡◌, ◌++◌, ◌<◌, IfOk, OnOk, codes, decimal};
ghost use Rattle.flow_graph.specs.Points.{point_count};
ghost use Rattle.flow_graph.specs.Universes.{IsDefinitionIn, bits as bits_of};
ghost use Rattle.text_pieces.specs.code.Blocks.{HoldsTexts};
ghost use Rattle.text_pieces.specs.Pieces.{CanWrite, Writes};
ghost use Rattle.flow_texts.specs.Tables.{bit_text, definition_text, expression_text, line_at};

use crate::OutOfMemory;
use flow_graph::{Analysis, Expr, Graph};
use itoa::Buffer;
use std::alloc::Global;
use tac_listing::{write_binary_expression, write_unary_expression};
use text_pieces::{Pieces, Separator, Sink, TextBlock};

/// Writes a number in decimal.
pub fn write_number<K: Sink>(out: &mut Pieces<'_, K>, number: u32)
    requires { CanWrite K.Sink out.old }
    ensures { Writes K.Sink out.old out.new (decimal number) }
{
    out.write(Buffer::new().format(number).as_bytes());
}

/// The line of the statement at a point, from 1; 0 at a procedure's end.
///
/// The condition: the program has the point.
pub fn line(graph: &Graph<'_>, point: u32) -> u32
    requires { point < point_count graph.now }
    ensures { result ≡ line_at graph.now point }
{
    match graph.stmt(point) {
        Some(stmt) => stmt.span.line,
        None => 0,
    }
}

fn push_number(text: &mut Vec<u8>, number: u32) -> Result<(), OutOfMemory>
    ensures { OnOk result (text.new.items ≡ text.old.items ++ decimal number) }
{
    text.extend_from_slice(Buffer::new().format(number).as_bytes())
}

fn push_definition(
    text: &mut Vec<u8>,
    graph: &Graph<'_>,
    variable: u32,
    point: Option<u32>,
) -> Result<(), OutOfMemory>
    requires { IsDefinitionIn graph.now (variable, point) }
    ensures { OnOk result (text.new.items ≡ text.old.items ++ definition_text graph.now (variable, point)) }
{
    text.extend_from_slice(graph.program().variable(variable))?;
    match point {
        None => text.extend_from_slice(b"@entry"),
        Some(point) => {
            text.extend_from_slice(b"@")?;
            push_number(text, line(graph, point))
        }
    }
}

fn push_expression(text: &mut Vec<u8>, graph: &Graph<'_>, expr: Expr) -> Result<(), OutOfMemory>
    ensures { OnOk result (text.new.items ≡ text.old.items ++ expression_text graph.now expr) }
{
    match expr {
        Expr::Unary(op, operand) => write_unary_expression(text, graph.program(), op, operand),
        Expr::Binary(left, op, right) => write_binary_expression(
            text,
            graph.program(),
            left,
            op,
            right,
        ),
    }
}

// Puts what a bit of an analysis is called behind a text.
fn push_bit(
    text: &mut Vec<u8>,
    graph: &Graph<'_>,
    analysis: Analysis,
    bit: u32,
) -> Result<(), OutOfMemory>
    requires { bit < bits_of graph.now analysis }
    ensures { OnOk result (text.new.items ≡ text.old.items ++ bit_text graph.now analysis bit) }
{
    match analysis {
        Analysis::Reach => {
            let (variable, point) = graph.definition(bit);
            push_definition(text, graph, variable, point)
        }
        Analysis::Live => text.extend_from_slice(graph.program().variable(bit)),
        Analysis::Avail => push_expression(text, graph, graph.expression(bit)),
        Analysis::Busy => push_expression(text, graph, graph.expression(bit)),
    }
}

/// What each bit of an analysis is called, by number, with `, ` between: a definition as `NAME@LINE` or `NAME@entry`, a variable
/// by its name, an expression as a listing has it. Fails only where memory runs out.
pub fn texts_of_bits(
    alloc: Global,
    graph: &Graph<'_>,
    analysis: Analysis,
) -> Result<TextBlock, OutOfMemory>
    ensures { IfOk result (HoldsTexts (codes ", ") (bit_text graph.now analysis) (bits_of graph.now analysis)) }
{
    let mut block = TextBlock::new(alloc, Separator::CommaAndBlank)?;
    let mut text = Vec::new(alloc);
    for bit in 0..graph.bits(analysis) {
        text.clear();
        push_bit(&mut text, graph, analysis, bit)?;
        block = block.with_text(&text)?;
    }
    Ok(block)
}
