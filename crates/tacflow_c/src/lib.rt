//! The analyses as a static library, for programs in C and for whatever calls C (`bindings/c/tacflow.h`).
//!
//! A call over a text reads it anew within limits, 0 for the standard and 1 for the large ones, keeps nothing behind, and answers a status:
//! 0, or the number of a fault. A number of no limits is told before all else. After a fault nothing is changed but the place of a refusal,
//! and the size of a text for which there is too little room. No call starts a thread or waits: a caller who has several asks for ranges of
//! bits in threads of its own, and together they are the table.
//!
//! A handle keeps a text's program between calls (`handle_calls`), and a call over it answers the same of that program. Words at single
//! points, flags of points, statements, edges, remarks, what stands around them, and why a bit is in a set are asked of handles alone
//! (`data_calls`).
#![tactic(auto)]

mod builds;
mod data_calls;
mod handle;
mod handle_calls;
mod held;
mod messages;
mod statuses;

ghost use Rattle.std.specs.Prelude.{◌≡◌, None, length};
ghost use Rattle.flow_graph.specs.Points.{point_count};
ghost use Rattle.flow_graph.specs.Universes.{definitions as definitions_in, expressions as expressions_in};
ghost use Rattle.tac_reader.specs.Parses.{program_of};
ghost use Rattle.flow_records.specs.Facts.{AreFactsOfText, IsTableFault};
ghost use Rattle.tac_reader.specs.Faults.{refusal_within};
ghost use Rattle.flow_records.specs.Names.{AreNames, IsNamesFault};
ghost use Rattle.flow_records.specs.declared.names.Named.TheVariants.{Procedures, Variables};
ghost use Rattle.flow_records.specs.Parts.{AreParts, ArePartsOf, definition_part, expression_part, point_part, sizes_of};
ghost use Rattle.flow_records.specs.Rooms.{HoldsList, IsListKept};
ghost use Rattle.flow_records.specs.Texts.{IsListingFault, IsListingOf, IsPartFault, IsPartOf, IsReportFault, IsReportOf};
ghost use Rattle.flow_records.specs.Faults.{HasGraph, IsFaultOf, IsRoomFault};
ghost use Rattle.tacflow_c.specs.Statuses.{IsAnswered};

pub use builds::BuildPlace;
use flow_records::{
    Definition, Expression, Named, NumberedFacts, Point, ReportShare, Sizes, definitions_of_text,
    expressions_of_text, facts_of_text, find_limits, listing_of_text, names_of_text,
    points_of_text, report_of_text, report_part_of_text, sizes_of_text,
};
pub use handle::Handle;
pub use held::{Held, Opaque};
pub use statuses::Place;
use statuses::{answer_status, fault_status};
use std::alloc::Global;

/// How large a text's program is.
#[unsafe(no_mangle)]
#[tactic(auto, using(crate::proofs::answers::Answered::no_limits))]
pub extern "C" fn tacflow_c_sizes(
    alloc: Global,
    text: &[u8],
    limits: u32,
    sizes: &mut Sizes,
    place: &mut Place,
) -> u32
    ensures { IsAnswered result limits place.old place.new (λ l. HasGraph l text.now × (sizes.new ≡ sizes_of (program_of text.now)))
        (λ _. sizes.new ≡ sizes.old) (λ l. IsFaultOf l text.now) }
{
    match find_limits(limits) {
        Ok(within) => answer_status(sizes_of_text(alloc, text, within, sizes), place),
        Err(fault) => fault_status(fault, place),
    }
}

/// What each point of a text's program is. There is room for as many as it has.
#[unsafe(no_mangle)]
#[tactic(auto, using(crate::proofs::answers::Answered::no_limits))]
pub extern "C" fn tacflow_c_points(
    alloc: Global,
    text: &[u8],
    limits: u32,
    points: &mut [Point],
    place: &mut Place,
) -> u32
    ensures { IsAnswered result limits place.old place.new
        (λ l. HasGraph l text.now × AreParts (point_part (program_of text.now)) (point_count (program_of text.now)) points.new)
        (λ _. points.new ≡ points.old) (λ l. IsRoomFault l text.now (length points.old) (point_count (program_of text.now))) }
{
    match find_limits(limits) {
        Ok(within) => answer_status(points_of_text(alloc, text, within, points), place),
        Err(fault) => fault_status(fault, place),
    }
}

/// What each definition of a text's program is: the bits of reaching definitions. There is room for as many as it has.
#[unsafe(no_mangle)]
#[tactic(auto, using(crate::proofs::answers::Answered::no_limits))]
pub extern "C" fn tacflow_c_definitions(
    alloc: Global,
    text: &[u8],
    limits: u32,
    definitions: &mut [Definition],
    place: &mut Place,
) -> u32
    ensures { IsAnswered result limits place.old place.new
        (λ l. HasGraph l text.now × ArePartsOf definition_part (definitions_in (program_of text.now)) definitions.new)
        (λ _. definitions.new ≡ definitions.old)
        (λ l. IsRoomFault l text.now (length definitions.old) (length (definitions_in (program_of text.now)))) }
{
    match find_limits(limits) {
        Ok(within) => answer_status(definitions_of_text(alloc, text, within, definitions), place),
        Err(fault) => fault_status(fault, place),
    }
}

/// What each expression of a text's program is: the bits of available and of very busy expressions. There is room for as many as it has.
#[unsafe(no_mangle)]
#[tactic(auto, using(crate::proofs::answers::Answered::no_limits))]
pub extern "C" fn tacflow_c_expressions(
    alloc: Global,
    text: &[u8],
    limits: u32,
    expressions: &mut [Expression],
    place: &mut Place,
) -> u32
    ensures { IsAnswered result limits place.old place.new
        (λ l. HasGraph l text.now × ArePartsOf expression_part (expressions_in (program_of text.now)) expressions.new)
        (λ _. expressions.new ≡ expressions.old)
        (λ l. IsRoomFault l text.now (length expressions.old) (length (expressions_in (program_of text.now)))) }
{
    match find_limits(limits) {
        Ok(within) => answer_status(expressions_of_text(alloc, text, within, expressions), place),
        Err(fault) => fault_status(fault, place),
    }
}

/// The names of a text's procedures, one after the other, and where each ends. There is an end for each; what is left of the bytes
/// stays as it is. A name has at most 64 bytes.
#[unsafe(no_mangle)]
#[tactic(auto, using(crate::proofs::answers::Answered::no_limits))]
pub extern "C" fn tacflow_c_procedures(
    alloc: Global,
    text: &[u8],
    limits: u32,
    ends: &mut [usize],
    bytes: &mut [u8],
    place: &mut Place,
) -> u32
    ensures { IsAnswered result limits place.old place.new
        (λ l. (refusal_within l text.now ≡ None) × AreNames (program_of text.now).procedure_names ends.new bytes.old bytes.new)
        (λ _. (ends.new ≡ ends.old) × (bytes.new ≡ bytes.old)) (λ l. IsNamesFault l text.now Procedures (length ends.old) (length bytes.old)) }
{
    match find_limits(limits) {
        Ok(within) => answer_status(
            names_of_text(alloc, text, within, Named::Procedures, ends, bytes),
            place,
        ),
        Err(fault) => fault_status(fault, place),
    }
}

/// The names of a text's variables, as [`tacflow_c_procedures`] has those of its procedures. They are the bits of live variables.
#[unsafe(no_mangle)]
#[tactic(auto, using(crate::proofs::answers::Answered::no_limits))]
pub extern "C" fn tacflow_c_variables(
    alloc: Global,
    text: &[u8],
    limits: u32,
    ends: &mut [usize],
    bytes: &mut [u8],
    place: &mut Place,
) -> u32
    ensures { IsAnswered result limits place.old place.new
        (λ l. (refusal_within l text.now ≡ None) × AreNames (program_of text.now).variable_names ends.new bytes.old bytes.new)
        (λ _. (ends.new ≡ ends.old) × (bytes.new ≡ bytes.old)) (λ l. IsNamesFault l text.now Variables (length ends.old) (length bytes.old)) }
{
    match find_limits(limits) {
        Ok(within) => answer_status(
            names_of_text(alloc, text, within, Named::Variables, ends, bytes),
            place,
        ),
        Err(fault) => fault_status(fault, place),
    }
}

/// The facts of an analysis of a text's program at the points `from..until` and on the bits `lo..hi`: for each of these points a flag, 1
/// where it has a valid path, and the words `lo / 64` to `(hi + 63) / 64` of its set. 4294967295 stands for the end of all points. The
/// analyses are 0 for reaching definitions, 1 for live variables, 2 for available and 3 for very busy expressions (Aho, Lam, Sethi,
/// Ullman, 2nd edition, 9.2 and 9.5; over valid paths as in Reps, Horwitz, Sagiv 1995).
#[unsafe(no_mangle)]
#[tactic(auto, using(crate::proofs::answers::Answered::no_limits))]
pub extern "C" fn tacflow_c_facts(
    alloc: Global,
    text: &[u8],
    limits: u32,
    analysis: u32,
    from: u32,
    until: u32,
    lo: u32,
    hi: u32,
    flags: &mut [u8],
    words: &mut [u64],
    place: &mut Place,
) -> u32
    ensures { IsAnswered result limits place.old place.new (λ l. AreFactsOfText l text.now analysis from until lo hi flags.new words.new)
        (λ _. (flags.new ≡ flags.old) × (words.new ≡ words.old))
        (λ l. IsTableFault l text.now analysis from until lo hi (length flags.old) (length words.old)) }
{
    let asked = NumberedFacts {
        analysis,
        points: (from, until),
        bits: (lo, hi),
    };
    match find_limits(limits) {
        Ok(within) => answer_status(
            facts_of_text(alloc, text, within, asked, flags, words),
            place,
        ),
        Err(fault) => fault_status(fault, place),
    }
}

/// The listing of a text's program, and how long it is. Where there is too little room its length alone is told.
#[unsafe(no_mangle)]
#[tactic(auto, using(crate::proofs::answers::Answered::no_limits))]
pub extern "C" fn tacflow_c_listing(
    alloc: Global,
    text: &[u8],
    limits: u32,
    bytes: &mut [u8],
    size: &mut usize,
    place: &mut Place,
) -> u32
    ensures { IsAnswered result limits place.old place.new (λ l. HoldsList (IsListingOf l text.now) bytes.old bytes.new size.new)
        (IsListKept bytes.old bytes.new size.old size.new)
        (λ l. IsListingFault l text.now (length bytes.old) size.new) }
{
    match find_limits(limits) {
        Ok(within) => answer_status(listing_of_text(alloc, text, within, bytes, size), place),
        Err(fault) => fault_status(fault, place),
    }
}

/// The report on a text's program, and how long it is. Where there is too little room its length alone is told.
#[unsafe(no_mangle)]
#[tactic(auto, using(crate::proofs::answers::Answered::no_limits))]
pub extern "C" fn tacflow_c_report(
    alloc: Global,
    text: &[u8],
    limits: u32,
    bytes: &mut [u8],
    size: &mut usize,
    place: &mut Place,
) -> u32
    ensures { IsAnswered result limits place.old place.new (λ l. HoldsList (IsReportOf l text.now) bytes.old bytes.new size.new)
        (IsListKept bytes.old bytes.new size.old size.new)
        (λ l. IsReportFault l text.now (length bytes.old) size.new) }
{
    match find_limits(limits) {
        Ok(within) => answer_status(report_of_text(alloc, text, within, bytes, size), place),
        Err(fault) => fault_status(fault, place),
    }
}

/// A part of the report on a text's program, of so many, and how long it is. Where there is too little room its length alone is told.
#[unsafe(no_mangle)]
#[tactic(auto, using(crate::proofs::answers::Answered::no_limits))]
pub extern "C" fn tacflow_c_report_part(
    alloc: Global,
    text: &[u8],
    limits: u32,
    part: u32,
    count: u32,
    bytes: &mut [u8],
    size: &mut usize,
    place: &mut Place,
) -> u32
    ensures { IsAnswered result limits place.old place.new (λ l. HoldsList (IsPartOf l text.now count part) bytes.old bytes.new size.new)
        (IsListKept bytes.old bytes.new size.old size.new)
        (λ l. IsPartFault l text.now count part (length bytes.old) size.new) }
{
    let share = ReportShare { count, part };
    match find_limits(limits) {
        Ok(within) => answer_status(
            report_part_of_text(alloc, text, within, share, bytes, size),
            place,
        ),
        Err(fault) => fault_status(fault, place),
    }
}
