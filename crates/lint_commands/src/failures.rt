// The lines that tell the faults of a file.

ghost use Rattle.std.specs.Prelude.{◌≡◌, ◌++◌, IfOk, codes};
ghost use Rattle.flow_graph.specs.declared.fault.GraphFault.TheVariants.{TooManyBits, TooManyPoints};
ghost use Rattle.lint_commands.specs.Failures.{failed_line, failed_words, graph_words, larger_words};
ghost use Rattle.text_pieces.specs.Pieces.{CanWrite, Writes};

use crate::OutOfMemory;
use flow_graph::GraphFault;
use flow_runs::{Fault, fault_line};
use lint_styles::{shown_bytes, write_size};
use std::alloc::Global;
use tac_program::Limits;
use text_pieces::{Pieces, Sink, Text, whole_text};

// Writes where a larger program is taken.
fn write_larger<K: Sink>(out: &mut Pieces<'_, K>, limits: Limits)
    requires { CanWrite K.Sink out.old }
    ensures { Writes K.Sink out.old out.new (larger_words limits) }
{
    match limits {
        Limits::Standard => out.write(b"; --limits large takes more"),
        Limits::Large => {}
    }
}

// Writes that there are too many points.
fn write_points<K: Sink>(out: &mut Pieces<'_, K>, limits: Limits)
    requires { CanWrite K.Sink out.old }
    ensures { Writes K.Sink out.old out.new (graph_words limits TooManyPoints) }
{
    out.write(b"the program has more than ");
    write_size(out, limits.points() as usize);
    out.write(b" points: each statement has one, and each `end` (refusal 21)");
    write_larger(out, limits);
}

// Writes that there are too many bits.
fn write_bits<K: Sink>(out: &mut Pieces<'_, K>, limits: Limits)
    requires { CanWrite K.Sink out.old }
    ensures { Writes K.Sink out.old out.new (graph_words limits TooManyBits) }
{
    out.write(b"the program has more than ");
    write_size(out, limits.variables() as usize);
    out.write(b" variables, ");
    write_size(out, limits.expressions() as usize);
    out.write(b" expressions, or ");
    write_size(out, limits.definitions() as usize);
    out.write(b" variables and assignments together (refusal 22)");
    write_larger(out, limits);
}

// Writes why a program has no graph.
fn write_cause<K: Sink>(out: &mut Pieces<'_, K>, limits: Limits, cause: GraphFault)
    requires { CanWrite K.Sink out.old }
    ensures { Writes K.Sink out.old out.new (graph_words limits cause) }
{
    match cause {
        GraphFault::TooManyPoints => write_points(out, limits),
        GraphFault::TooManyBits => write_bits(out, limits),
        GraphFault::OutOfMemory => out.write(b"out of memory"),
    }
}

// Why a program has no graph, behind the file's name.
#[derive(Clone, Copy)]
struct CauseText {
    limits: Limits,
    cause: GraphFault,
}

impl Text for CauseText {
    ghost use Rattle.std.specs.Prelude.{◌++◌, codes};
    ghost use Rattle.lint_commands.specs.Failures.{graph_words};

    ghost bytes = { λ text. codes ": " ++ graph_words text.limits text.cause ++ codes "\n" };

    fn write<K: Sink>(&self, out: &mut Pieces<'_, K>) {
        out.write(b": ");
        write_cause(out, self.limits, self.cause);
        out.write(b"\n");
    }
}

// What is told of a fault behind the file's name.
fn failed_end(alloc: Global, limits: Limits, fault: &Fault) -> Result<Vec<u8>, OutOfMemory>
    ensures { IfOk result (λ rest. rest.items ≡ codes ": " ++ failed_words limits fault.now ++ codes "\n") }
{
    match fault {
        Fault::Graph(cause) => whole_text(
            alloc,
            &CauseText {
                limits,
                cause: *cause,
            },
        ),
        _ => fault_line(alloc, "", fault),
    }
}

/// The line on standard error that tells a fault of a file of this name, with its line feed; of a program that is too large, of what it has too
/// many. In the name each byte that is no printed sign of ASCII is told as `\x` and two hexadecimal digits. Fails only where memory runs out.
pub fn failed_line(
    alloc: Global,
    limits: Limits,
    file: &[u8],
    fault: &Fault,
) -> Result<Vec<u8>, OutOfMemory>
    ensures { IfOk result (λ line. line.items ≡ failed_line limits file.now fault.now) }
{
    let mut line = shown_bytes(alloc, file)?;
    let rest = failed_end(alloc, limits, fault)?;
    line.extend_from_slice(rest.as_slice())?;
    Ok(line)
}
