// Why a run ended before its text was written, and the line that tells it.

ghost use Rattle.std.specs.Prelude.{◌≡◌, ◌++◌, IfOk, codes};
ghost use Rattle.flow_runs.specs.FaultLines.{fault_text, line_of_fault, name_of_kind, refusal_text};

use crate::OutOfMemory;
use flow_graph::GraphFault;
use std::alloc::Global;
use tac_lines::{Refusal, RefusalKind};
use thiserror::Error;

/// Why a run did not write all of its text.
#[derive(Debug, Drop, Error)]
pub enum Fault {
    /// What was read is no program. Nothing was written.
    #[error("{0}")]
    Refused(Refusal),
    /// The program has too many points or bits for what is to be shown. Nothing was written.
    #[error("{0}")]
    Graph(GraphFault),
    /// The program has no procedure of the name that was asked for. Nothing was written.
    #[error("no such procedure")]
    NoProcedure,
    /// The procedure that was asked for has too many points for what is to be shown of it. Nothing was written.
    #[error("the procedure is too large")]
    LargeProcedure,
    /// The program has no remark where one was asked for. Nothing was written.
    #[error("no such remark")]
    NoRemark,
    /// Memory was refused. Nothing was written.
    #[error("out of memory")]
    OutOfMemory,
    /// The source had a fault. Nothing was written.
    #[error("read fault")]
    Read,
    /// The sink had a fault. A beginning of the text was written.
    #[error("write fault")]
    Write,
}

impl From<OutOfMemory> for Fault {
    ghost use Rattle.std.specs.Prelude.{◌≡◌};
    ghost use Rattle.flow_runs.specs.declared.fault.Fault.TheVariants as fault;

    ghost from_gives = { λ _ e. e ≡ fault.OutOfMemory };

    fn from(_no_memory: OutOfMemory) -> Fault {
        Fault::OutOfMemory
    }
}

fn kind_name(kind: RefusalKind) -> &'static str
    ensures { result.now ≡ name_of_kind kind }
{
    match kind {
        RefusalKind::BadByte => "BadByte",
        RefusalKind::NumberTooLarge => "NumberTooLarge",
        RefusalKind::NameTooLong => "NameTooLong",
        RefusalKind::Syntax => "Syntax",
        RefusalKind::Unclosed => "Unclosed",
        RefusalKind::NoMain => "NoMain",
        RefusalKind::DuplicateProcedure => "DuplicateProcedure",
        RefusalKind::DuplicateLabel => "DuplicateLabel",
        RefusalKind::UnknownLabel => "UnknownLabel",
        RefusalKind::UnknownProcedure => "UnknownProcedure",
        RefusalKind::TextTooLong => "TextTooLong",
        RefusalKind::TooManyProcedures => "TooManyProcedures",
        RefusalKind::DuplicateCallee => "DuplicateCallee",
    }
}

/// A line on standard error: the program's name, and what stands behind it. Fails only where memory runs out.
pub fn line_with(alloc: Global, program: &str, rest: &[u8]) -> Result<Vec<u8>, OutOfMemory>
    ensures { IfOk result (λ line. line.items ≡ program.now ++ rest.now) }
{
    let mut line = program.as_bytes().to_vec(alloc)?;
    line.extend_from_slice(rest)?;
    Ok(line)
}

// What is told of a refusal behind the program's name.
fn refusal_end(alloc: Global, refusal: &Refusal) -> Result<Vec<u8>, OutOfMemory>
    ensures { IfOk result (λ rest. rest.items ≡ codes ": " ++ refusal_text refusal.now ++ codes "\n") }
{
    let line = refusal.line;
    let column = refusal.column;
    let number = refusal.kind.number();
    let name = kind_name(refusal.kind);
    let text = format!(in alloc; ": {line}:{column}: refusal {number}: {name}\n")?;
    Ok(text.into_bytes())
}

// What is told of a fault behind the program's name.
fn fault_end(alloc: Global, fault: &Fault) -> Result<Vec<u8>, OutOfMemory>
    ensures { IfOk result (λ rest. rest.items ≡ codes ": " ++ fault_text fault.now ++ codes "\n") }
{
    let rest: &[u8] = match fault {
        Fault::Refused(refusal) => return refusal_end(alloc, refusal),
        Fault::Graph(GraphFault::TooManyPoints) => b": refusal 21: TooManyPoints\n",
        Fault::Graph(GraphFault::TooManyBits) => b": refusal 22: TooManyBits\n",
        Fault::Graph(GraphFault::OutOfMemory) => b": out of memory\n",
        Fault::NoProcedure => b": no such procedure\n",
        Fault::LargeProcedure => b": the procedure is too large\n",
        Fault::NoRemark => b": no such remark\n",
        Fault::OutOfMemory => b": out of memory\n",
        Fault::Read => b": read fault\n",
        Fault::Write => b": write fault\n",
    };
    rest.to_vec(alloc)
}

/// The line on standard error that tells a fault of the program of this name, with its line feed. Fails only where memory runs
/// out.
pub fn fault_line(alloc: Global, program: &str, fault: &Fault) -> Result<Vec<u8>, OutOfMemory>
    ensures { IfOk result (λ line. line.items ≡ line_of_fault program.now fault.now) }
{
    let rest = fault_end(alloc, fault)?;
    line_with(alloc, program, &rest)
}
