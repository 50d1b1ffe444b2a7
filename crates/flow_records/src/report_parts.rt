// Parts of reports in room of a caller's.

ghost use Rattle.std.specs.Prelude.{◌≡◌, Decides, length, IfErr, IfOk, OnOk};
ghost use Rattle.flow_parts.specs.Parts.{IsPart};
ghost use Rattle.flow_records.specs.Texts.{IsPartFault, IsPartOf, IsShare, NamesText};
ghost use Rattle.flow_records.specs.Rooms.{HoldsList, IsListFault, IsListKept};

use crate::fault::Fault;
use crate::rooms::put_list;
use crate::text::{graph_of, program_of};
use flow_graph::{Graph, OutOfMemory};
use flow_parts::{digest, part_here};
use std::alloc::Global;
use tac_program::Limits;

// The most parts that a report is cut into.
const MOST: u32 = 4_096;

/// A part of a report: its number, from 1 on, and of how many it is one.
#[derive(Clone, Copy)]
pub struct ReportShare {
    pub count: u32,
    pub part: u32,
}

// Whether there is such a part.
fn is_share(share: ReportShare) -> bool
    ensures { Decides result (IsShare share.count share.part) }
{
    1 <= share.part && share.part <= share.count && share.count <= MOST
}

// What a part names a text.
fn name_of(alloc: Global, text: &[u8]) -> Result<Vec<u8>, OutOfMemory>
    ensures { IfOk result (λ name. NamesText text.now name.items) }
{
    digest(alloc, text)
}

// Puts a part of the report on a graph's program where there is room for it, and tells how long it is.
fn put_part(
    alloc: Global,
    graph: &Graph<'_>,
    name: &[u8],
    share: ReportShare,
    bytes: &mut [u8],
    size: &mut usize,
) -> Result<(), Fault>
    requires { IsShare share.count share.part }
    ensures held { OnOk result (HoldsList (IsPart graph.now name.now share.count share.part) bytes.old bytes.new size.new) }
    ensures kept { IfErr result (IsListKept bytes.old bytes.new size.old size.new) }
    ensures fault { IfErr result (IsListFault (IsPart graph.now name.now share.count share.part) (length bytes.old) size.new) }
{
    let out = part_here(alloc, graph, name, share.count, share.part)?;
    if put_list(out.as_slice(), bytes, size) {
        Ok(())
    } else {
        Err(Fault::BadRoom)
    }
}

/// A part of the report on a text's program within limits, and how long it is. `BadRange` where a report has no such part.
pub fn report_part_of_text(
    alloc: Global,
    text: &[u8],
    limits: Limits,
    share: ReportShare,
    bytes: &mut [u8],
    size: &mut usize,
) -> Result<(), Fault>
    ensures held { OnOk result (HoldsList (IsPartOf limits text.now share.count share.part) bytes.old bytes.new size.new) }
    ensures kept { IfErr result (IsListKept bytes.old bytes.new size.old size.new) }
    ensures fault { IfErr result (IsPartFault limits text.now share.count share.part (length bytes.old) size.new) }
{
    if !is_share(share) {
        return Err(Fault::BadRange);
    }
    let program = program_of(alloc, text, limits)?;
    let graph = graph_of(alloc, &program, limits)?;
    let name = name_of(alloc, text)?;
    put_part(alloc, &graph, name.as_slice(), share, bytes, size)
}
