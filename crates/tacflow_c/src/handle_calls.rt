// The calls over a handle.

ghost use Rattle.std.specs.Prelude.{◌≡◌, ◌<◌, ◌⊎◌, None, Some, IsSome, length};
ghost use Rattle.flow_graph.specs.Points.{point_count};
ghost use Rattle.flow_graph.specs.Universes.{definitions as definitions_in, expressions as expressions_in};
ghost use Rattle.flow_reports.specs.Reports.{ListsSafely};
ghost use Rattle.tac_listing.specs.Listings.{listing_of};
ghost use Rattle.tac_reader.specs.Parses.{program_of};
ghost use Rattle.flow_records.specs.Facts.{AreFactsOfNumber, IsNumberFault};
ghost use Rattle.tacflow_c.specs.Handles.{IsAsked, IsOpenFault};
ghost use Rattle.flow_records.specs.Faults.{IsMemoryFault, IsPartsFault, HasGraph};
ghost use Rattle.flow_records.specs.Names.{IsNamesRoomFault, AreNames};
ghost use Rattle.flow_records.specs.Rooms.{IsListFault, HoldsList, IsListKept};
ghost use Rattle.flow_records.specs.Parts.{AreParts, ArePartsOf, definition_part, expression_part, point_part, sizes_of};
ghost use Rattle.flow_records.specs.Queries.{AreAnswersTo, IsQueriesFault};
ghost use Rattle.tacflow_c.specs.Statuses.{IsAnswered};
ghost use Rattle.flow_records.specs.declared.names.Named.TheVariants.{Procedures, Variables};

use crate::handle::{Handle, open_text, put_shared};
use crate::statuses::{Place, answer_status, asked_status, fault_status};
use flow_records::{
    Definition, Expression, Named, NumberedFacts, NumberedQuery, Point, Sizes, ask_kept,
    definitions_of_kept, expressions_of_kept, facts_of_kept, fill_names, find_limits,
    points_of_kept, put_listing, report_of_kept, sizes_of_kept,
};
use std::alloc::Global;

/// Opens a closed handle with the program of a text within limits.
#[unsafe(no_mangle)]
#[tactic(auto, using(crate::proofs::answers::Answered::no_limits))]
pub extern "C" fn tacflow_c_open(
    alloc: Global,
    text: &[u8],
    limits: u32,
    handle: &mut Handle,
    place: &mut Place,
) -> u32
    ensures { IsAnswered result limits place.old place.new
        (λ l. HasGraph l text.now × (handle.old.held.value ≡ None)
        × (handle.new.held.value ≡ Some (record { program = program_of text.now; limits = l })))
        (λ _. handle.new.held.value ≡ handle.old.held.value) (λ l. IsOpenFault l text.now handle.old.held.value) }
{
    match find_limits(limits) {
        Ok(within) => answer_status(open_text(alloc, text, within, handle), place),
        Err(fault) => fault_status(fault, place),
    }
}

/// Opens a closed handle with what an open one keeps, for another thread: status 0. Status 2: memory was refused. Status 8: the first is
/// closed or the other open.
#[unsafe(no_mangle)]
pub extern "C" fn tacflow_c_share(alloc: Global, handle: &mut Handle, other: &mut Handle) -> u32
    ensures kept { handle.new.held.value ≡ handle.old.held.value }
    ensures opened { result ≡ 0 → IsSome handle.old.held.value × (other.old.held.value ≡ None) × (other.new.held.value ≡ handle.old.held.value) }
    ensures bad { result ≡ 8 → (handle.old.held.value ≡ None) ⊎ IsSome other.old.held.value }
    ensures closed { handle.old.held.value ≡ None → result ≡ 8 }
    ensures open { IsSome other.old.held.value → result ≡ 8 }
    ensures statuses { (result ≡ 0) ⊎ ((result ≡ 2) ⊎ (result ≡ 8)) }
    ensures as_it_was { 0 < result → other.new.held.value ≡ other.old.held.value }
{
    if !handle.is_open || other.is_open {
        return 8;
    }
    let shared = handle.take(alloc);
    let again = shared.share();
    handle.put(shared);
    match again {
        Ok(again) => asked_status(put_shared(alloc, again, other)),
        Err(_) => 2,
    }
}

/// Closes an open handle, and frees what it keeps where no other handle shares it: status 0. Status 8: it is closed.
#[unsafe(no_mangle)]
pub extern "C" fn tacflow_c_close(alloc: Global, handle: &mut Handle) -> u32
    ensures closed { handle.new.held.value ≡ None }
    ensures was_open { result ≡ 0 → IsSome handle.old.held.value }
    ensures was_closed { result ≡ 8 → handle.old.held.value ≡ None }
    ensures statuses { (result ≡ 0) ⊎ (result ≡ 8) }
{
    if !handle.is_open {
        return 8;
    }
    let _ = handle.take(alloc);
    0
}

/// How large a handle's program is.
#[unsafe(no_mangle)]
#[tactic(auto, using(crate::proofs::answers::Asked::closed, crate::proofs::answers::Asked::asked))]
pub extern "C" fn tacflow_c_sizes_of(alloc: Global, handle: &mut Handle, sizes: &mut Sizes) -> u32
    ensures { IsAsked result handle.old.held.value handle.new.held.value
        (λ program. sizes.new ≡ sizes_of program)
        (λ _. sizes.new ≡ sizes.old)
        (λ _. IsMemoryFault) }
{
    if !handle.is_open {
        return 8;
    }
    let shared = handle.take(alloc);
    let answer = sizes_of_kept(alloc, shared.kept(), sizes);
    handle.put(shared);
    asked_status(answer)
}

/// What each point of a handle's program is. There is room for as many as it has.
#[unsafe(no_mangle)]
#[tactic(auto, using(crate::proofs::answers::Asked::closed, crate::proofs::answers::Asked::asked))]
pub extern "C" fn tacflow_c_points_of(
    alloc: Global,
    handle: &mut Handle,
    points: &mut [Point],
) -> u32
    ensures { IsAsked result handle.old.held.value handle.new.held.value
        (λ program. AreParts (point_part program) (point_count program) points.new)
        (λ _. points.new ≡ points.old)
        (λ program. IsPartsFault (length points.old) (point_count program)) }
{
    if !handle.is_open {
        return 8;
    }
    let shared = handle.take(alloc);
    let answer = points_of_kept(alloc, shared.kept(), points);
    handle.put(shared);
    asked_status(answer)
}

/// What each definition of a handle's program is: the bits of reaching definitions. There is room for as many as it has.
#[unsafe(no_mangle)]
#[tactic(auto, using(crate::proofs::answers::Asked::closed, crate::proofs::answers::Asked::asked))]
pub extern "C" fn tacflow_c_definitions_of(
    alloc: Global,
    handle: &mut Handle,
    definitions: &mut [Definition],
) -> u32
    ensures { IsAsked result handle.old.held.value handle.new.held.value
        (λ program. ArePartsOf definition_part (definitions_in program) definitions.new)
        (λ _. definitions.new ≡ definitions.old)
        (λ program. IsPartsFault (length definitions.old) (length (definitions_in program))) }
{
    if !handle.is_open {
        return 8;
    }
    let shared = handle.take(alloc);
    let answer = definitions_of_kept(alloc, shared.kept(), definitions);
    handle.put(shared);
    asked_status(answer)
}

/// What each expression of a handle's program is: the bits of available and of very busy expressions. There is room for as many as it has.
#[unsafe(no_mangle)]
#[tactic(auto, using(crate::proofs::answers::Asked::closed, crate::proofs::answers::Asked::asked))]
pub extern "C" fn tacflow_c_expressions_of(
    alloc: Global,
    handle: &mut Handle,
    expressions: &mut [Expression],
) -> u32
    ensures { IsAsked result handle.old.held.value handle.new.held.value
        (λ program. ArePartsOf expression_part (expressions_in program) expressions.new)
        (λ _. expressions.new ≡ expressions.old)
        (λ program. IsPartsFault (length expressions.old) (length (expressions_in program))) }
{
    if !handle.is_open {
        return 8;
    }
    let shared = handle.take(alloc);
    let answer = expressions_of_kept(alloc, shared.kept(), expressions);
    handle.put(shared);
    asked_status(answer)
}

/// The names of a handle's procedures, one after the other, and where each ends. There is an end for each; what is left of the bytes stays
/// as it is. A name has at most 64 bytes.
#[unsafe(no_mangle)]
#[tactic(auto, using(crate::proofs::answers::Asked::closed, crate::proofs::answers::Asked::asked))]
pub extern "C" fn tacflow_c_procedures_of(
    alloc: Global,
    handle: &mut Handle,
    ends: &mut [usize],
    bytes: &mut [u8],
) -> u32
    ensures { IsAsked result handle.old.held.value handle.new.held.value
        (λ program. AreNames program.procedure_names ends.new bytes.old bytes.new)
        (λ _. (ends.new ≡ ends.old) × (bytes.new ≡ bytes.old))
        (λ program. IsNamesRoomFault program Procedures (length ends.old) (length bytes.old)) }
{
    if !handle.is_open {
        return 8;
    }
    let shared = handle.take(alloc);
    let answer = fill_names(shared.kept().program(), Named::Procedures, ends, bytes);
    handle.put(shared);
    asked_status(answer)
}

/// The names of a handle's variables, as [`tacflow_c_procedures_of`] has those of its procedures. They are the bits of live variables.
#[unsafe(no_mangle)]
#[tactic(auto, using(crate::proofs::answers::Asked::closed, crate::proofs::answers::Asked::asked))]
pub extern "C" fn tacflow_c_variables_of(
    alloc: Global,
    handle: &mut Handle,
    ends: &mut [usize],
    bytes: &mut [u8],
) -> u32
    ensures { IsAsked result handle.old.held.value handle.new.held.value
        (λ program. AreNames program.variable_names ends.new bytes.old bytes.new)
        (λ _. (ends.new ≡ ends.old) × (bytes.new ≡ bytes.old))
        (λ program. IsNamesRoomFault program Variables (length ends.old) (length bytes.old)) }
{
    if !handle.is_open {
        return 8;
    }
    let shared = handle.take(alloc);
    let answer = fill_names(shared.kept().program(), Named::Variables, ends, bytes);
    handle.put(shared);
    asked_status(answer)
}

/// The facts of an analysis of a handle's program, as `tacflow_c_facts` has those of a text's: at the points `from..until` and on the bits
/// `lo..hi`, for each of these points a flag and the words `lo / 64` to `(hi + 63) / 64` of its set. 4294967295 stands for the end of all
/// points. The edges and paths are those that the handle keeps.
#[unsafe(no_mangle)]
#[tactic(auto, using(crate::proofs::answers::Asked::closed, crate::proofs::answers::Asked::asked))]
pub extern "C" fn tacflow_c_facts_of(
    alloc: Global,
    handle: &mut Handle,
    analysis: u32,
    from: u32,
    until: u32,
    lo: u32,
    hi: u32,
    flags: &mut [u8],
    words: &mut [u64],
) -> u32
    ensures { IsAsked result handle.old.held.value handle.new.held.value
        (λ program. AreFactsOfNumber program analysis from until lo hi flags.new words.new)
        (λ _. (flags.new ≡ flags.old) × (words.new ≡ words.old))
        (IsNumberFault analysis from until lo hi (length flags.old) (length words.old)) }
{
    if !handle.is_open {
        return 8;
    }
    let asked = NumberedFacts {
        analysis,
        points: (from, until),
        bits: (lo, hi),
    };
    let shared = handle.take(alloc);
    let answer = facts_of_kept(alloc, shared.kept(), asked, flags, words);
    handle.put(shared);
    asked_status(answer)
}

/// Words of the sets of a handle's program: a word for each that is asked for, in their order. There are fewer than 2^32 and room for as many.
/// Bits at and beyond the last of the analysis are 0. Words are solved four or eight of an analysis at a time, each once.
#[unsafe(no_mangle)]
#[tactic(auto, using(crate::proofs::answers::Asked::closed, crate::proofs::answers::Asked::asked))]
pub extern "C" fn tacflow_c_ask(
    alloc: Global,
    handle: &mut Handle,
    asks: &[NumberedQuery],
    words: &mut [u64],
) -> u32
    ensures { IsAsked result handle.old.held.value handle.new.held.value
        (λ program. AreAnswersTo program asks.now words.new)
        (λ _. words.new ≡ words.old)
        (IsQueriesFault asks.now (length words.old)) }
{
    if !handle.is_open {
        return 8;
    }
    let shared = handle.take(alloc);
    let answer = ask_kept(alloc, shared.kept(), asks, words);
    handle.put(shared);
    asked_status(answer)
}

/// The listing of a handle's program, and how long it is. Where there is too little room its length alone is told.
#[unsafe(no_mangle)]
#[tactic(auto, using(crate::proofs::answers::Asked::closed, crate::proofs::answers::Asked::asked))]
pub extern "C" fn tacflow_c_listing_of(
    alloc: Global,
    handle: &mut Handle,
    bytes: &mut [u8],
    size: &mut usize,
) -> u32
    ensures { IsAsked result handle.old.held.value handle.new.held.value
        (λ program. HoldsList (λ out. out ≡ listing_of program) bytes.old bytes.new size.new)
        (IsListKept bytes.old bytes.new size.old size.new)
        (λ program. IsListFault (λ out. out ≡ listing_of program) (length bytes.old) size.new) }
{
    if !handle.is_open {
        return 8;
    }
    let shared = handle.take(alloc);
    let answer = put_listing(alloc, shared.kept().program(), bytes, size);
    handle.put(shared);
    asked_status(answer)
}

/// The report on a handle's program, and how long it is. Where there is too little room its length alone is told.
#[unsafe(no_mangle)]
#[tactic(auto, using(crate::proofs::answers::Asked::closed, crate::proofs::answers::Asked::asked))]
pub extern "C" fn tacflow_c_report_of(
    alloc: Global,
    handle: &mut Handle,
    bytes: &mut [u8],
    size: &mut usize,
) -> u32
    ensures { IsAsked result handle.old.held.value handle.new.held.value
        (λ program. HoldsList (ListsSafely program) bytes.old bytes.new size.new)
        (IsListKept bytes.old bytes.new size.old size.new)
        (λ program. IsListFault (ListsSafely program) (length bytes.old) size.new) }
{
    if !handle.is_open {
        return 8;
    }
    let shared = handle.take(alloc);
    let answer = report_of_kept(alloc, shared.kept(), bytes, size);
    handle.put(shared);
    asked_status(answer)
}
