// Listings and reports in room of a caller's.

ghost use Rattle.std.specs.Prelude.{◌≡◌, length, IfErr, OnOk};
ghost use Rattle.flow_reports.specs.Reports.{ListsSafely};
ghost use Rattle.tac_listing.specs.Listings.{listing_of};
ghost use Rattle.flow_records.specs.Rooms.{IsListFault, HoldsList, IsListKept};
ghost use Rattle.flow_records.specs.Texts.{IsListingFault, IsListingOf, IsReportFault, IsReportOf};

use crate::fault::Fault;
use crate::rooms::put_list;
use crate::text::{graph_of, program_of};
use flow_graph::Graph;
use flow_reports::report_here;
use std::alloc::Global;
use tac_listing::listing;
use tac_program::{Limits, Program};

/// Puts the listing of a program where there is room for it, and tells how long it is.
pub fn put_listing(
    alloc: Global,
    program: &Program,
    bytes: &mut [u8],
    size: &mut usize,
) -> Result<(), Fault>
    ensures held { OnOk result (HoldsList (λ out. out ≡ listing_of program.now) bytes.old bytes.new size.new) }
    ensures kept { IfErr result (IsListKept bytes.old bytes.new size.old size.new) }
    ensures fault { IfErr result (IsListFault (λ out. out ≡ listing_of program.now) (length bytes.old) size.new) }
{
    let out = listing(alloc, program)?;
    if put_list(out.as_slice(), bytes, size) {
        Ok(())
    } else {
        Err(Fault::BadRoom)
    }
}

/// Puts the report on a graph's program where there is room for it, and tells how long it is.
pub(crate) fn put_report(
    alloc: Global,
    graph: &Graph<'_>,
    bytes: &mut [u8],
    size: &mut usize,
) -> Result<(), Fault>
    ensures held { OnOk result (HoldsList (ListsSafely graph.now) bytes.old bytes.new size.new) }
    ensures kept { IfErr result (IsListKept bytes.old bytes.new size.old size.new) }
    ensures fault { IfErr result (IsListFault (ListsSafely graph.now) (length bytes.old) size.new) }
{
    let out = report_here(alloc, graph)?;
    if put_list(out.as_slice(), bytes, size) {
        Ok(())
    } else {
        Err(Fault::BadRoom)
    }
}

/// The listing of a text's program within limits, and how long it is.
pub fn listing_of_text(
    alloc: Global,
    text: &[u8],
    limits: Limits,
    bytes: &mut [u8],
    size: &mut usize,
) -> Result<(), Fault>
    ensures held { OnOk result (HoldsList (IsListingOf limits text.now) bytes.old bytes.new size.new) }
    ensures kept { IfErr result (IsListKept bytes.old bytes.new size.old size.new) }
    ensures fault { IfErr result (IsListingFault limits text.now (length bytes.old) size.new) }
{
    let program = program_of(alloc, text, limits)?;
    put_listing(alloc, &program, bytes, size)
}

/// The report on a text's program within limits, and how long it is.
pub fn report_of_text(
    alloc: Global,
    text: &[u8],
    limits: Limits,
    bytes: &mut [u8],
    size: &mut usize,
) -> Result<(), Fault>
    ensures held { OnOk result (HoldsList (IsReportOf limits text.now) bytes.old bytes.new size.new) }
    ensures kept { IfErr result (IsListKept bytes.old bytes.new size.old size.new) }
    ensures fault { IfErr result (IsReportFault limits text.now (length bytes.old) size.new) }
{
    let program = program_of(alloc, text, limits)?;
    let graph = graph_of(alloc, &program, limits)?;
    put_report(alloc, &graph, bytes, size)
}
