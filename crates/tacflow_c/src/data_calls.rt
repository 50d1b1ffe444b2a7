// The calls over a handle that tell what stands at its program's points, the remarks on it and what stands around them, and why a bit is in a
// set, as data.

ghost use Rattle.std.specs.Prelude.{◌≡◌, length};
ghost use Rattle.flow_graph.specs.Points.{point_count};
ghost use Rattle.reason_records.specs.Around.{AreAround, IsAroundFault, IsPointFault, TellsDoubt};
ghost use Rattle.flow_records.specs.Edges.{IsEdgesFault, edges_between};
ghost use Rattle.flow_records.specs.Flags.{AreDoubts, ArePathsOfNumber, IsFlagsFault, IsPathsFault};
ghost use Rattle.tacflow_c.specs.Handles.{IsAsked};
ghost use Rattle.flow_records.specs.Rooms.{IsListFault, HoldsList, IsListKept};
ghost use Rattle.flow_records.specs.Faults.{IsPartsFault};
ghost use Rattle.flow_records.specs.Parts.{AreParts};
ghost use Rattle.flow_records.specs.Remarks.{AreNumberedRemarks};
ghost use Rattle.flow_records.specs.Statements.{statement_part};
ghost use Rattle.flow_records.specs.Numbers.{end_of};
ghost use Rattle.reason_records.specs.Why.{IsWhyFault, IsWhyKept, TellsWhy};
ghost use Rattle.reason_records.specs.Whys.{AreWhys, IsWhysFault};

use crate::handle::Handle;
use crate::statuses::asked_status;
use flow_records::{
    NumberedEdge, NumberedRemark, NumberedStatement, doubtful_of_kept, edges_of_kept,
    paths_of_kept, remarks_of_kept, statements_of_kept,
};
use reason_records::{
    NumberedFact, NumberedHop, NumberedNearby, NumberedWhy, around_of_kept, doubt_origin_of_kept,
    why_of_kept, whys_of_kept,
};
use std::alloc::Global;

/// Which of the points `from..until` have a valid path in the direction of an analysis: from the beginning of `main`, or for live variables and
/// very busy expressions to its end. A flag for each, 1 or 0. 4294967295 stands for the end of all points.
#[unsafe(no_mangle)]
#[tactic(auto, using(crate::proofs::answers::Asked::closed, crate::proofs::answers::Asked::asked))]
pub extern "C" fn tacflow_c_has_path(
    alloc: Global,
    handle: &mut Handle,
    analysis: u32,
    from: u32,
    until: u32,
    flags: &mut [u8],
) -> u32
    ensures { IsAsked result handle.old.held.value handle.new.held.value
        (λ program. ArePathsOfNumber program analysis from until flags.new)
        (λ _. flags.new ≡ flags.old)
        (IsPathsFault analysis from until (length flags.old)) }
{
    if !handle.is_open {
        return 8;
    }
    let shared = handle.take(alloc);
    let answer = paths_of_kept(alloc, shared.kept(), analysis, (from, until), flags);
    handle.put(shared);
    asked_status(answer)
}

/// Which of the points `from..until` are doubtful: whether some path leads from it to a point that has no valid path to the end of `main`. A
/// flag for each, 1 or 0. 4294967295 stands for the end of all points.
#[unsafe(no_mangle)]
#[tactic(auto, using(crate::proofs::answers::Asked::closed, crate::proofs::answers::Asked::asked))]
pub extern "C" fn tacflow_c_doubtful(
    alloc: Global,
    handle: &mut Handle,
    from: u32,
    until: u32,
    flags: &mut [u8],
) -> u32
    ensures { IsAsked result handle.old.held.value handle.new.held.value
        (λ program. AreDoubts program from until flags.new)
        (λ _. flags.new ≡ flags.old)
        (IsFlagsFault from until (length flags.old)) }
{
    if !handle.is_open {
        return 8;
    }
    let shared = handle.take(alloc);
    let answer = doubtful_of_kept(alloc, shared.kept(), (from, until), flags);
    handle.put(shared);
    asked_status(answer)
}

/// What stands at each point of a handle's program. There is room for as many as it has.
#[unsafe(no_mangle)]
#[tactic(auto, using(crate::proofs::answers::Asked::closed, crate::proofs::answers::Asked::asked))]
pub extern "C" fn tacflow_c_statements(
    alloc: Global,
    handle: &mut Handle,
    statements: &mut [NumberedStatement],
) -> u32
    ensures { IsAsked result handle.old.held.value handle.new.held.value
        (λ program. AreParts (statement_part program) (point_count program) statements.new)
        (λ _. statements.new ≡ statements.old)
        (λ program. IsPartsFault (length statements.old) (point_count program)) }
{
    if !handle.is_open {
        return 8;
    }
    let shared = handle.take(alloc);
    let answer = statements_of_kept(alloc, shared.kept(), statements);
    handle.put(shared);
    asked_status(answer)
}

/// The edges that leave the points `from..until` of a handle's program, in the order of these points, and how many they are: where there is
/// too little room their number alone is told. 4294967295 stands for the end of all points.
#[unsafe(no_mangle)]
#[tactic(auto, using(crate::proofs::answers::Asked::closed, crate::proofs::answers::Asked::asked))]
pub extern "C" fn tacflow_c_edges(
    alloc: Global,
    handle: &mut Handle,
    from: u32,
    until: u32,
    edges: &mut [NumberedEdge],
    count: &mut usize,
) -> u32
    ensures { IsAsked result handle.old.held.value handle.new.held.value
        (λ program. HoldsList (λ all. all ≡ edges_between program from (end_of program until)) edges.old edges.new count.new)
        (IsListKept edges.old edges.new count.old count.new)
        (IsEdgesFault from until (length edges.old) count.new) }
{
    if !handle.is_open {
        return 8;
    }
    let shared = handle.take(alloc);
    let answer = edges_of_kept(alloc, shared.kept(), (from, until), edges, count);
    handle.put(shared);
    asked_status(answer)
}

/// The remarks on a handle's program, in the order of its report, and how many they are: where there is too little room their number alone
/// is told.
#[unsafe(no_mangle)]
#[tactic(auto, using(crate::proofs::answers::Asked::closed, crate::proofs::answers::Asked::asked))]
pub extern "C" fn tacflow_c_remarks(
    alloc: Global,
    handle: &mut Handle,
    remarks: &mut [NumberedRemark],
    count: &mut usize,
) -> u32
    ensures { IsAsked result handle.old.held.value handle.new.held.value
        (λ program. HoldsList (AreNumberedRemarks program) remarks.old remarks.new count.new)
        (IsListKept remarks.old remarks.new count.old count.new)
        (λ program. IsListFault (AreNumberedRemarks program) (length remarks.old) count.new) }
{
    if !handle.is_open {
        return 8;
    }
    let shared = handle.take(alloc);
    let answer = remarks_of_kept(alloc, shared.kept(), remarks, count);
    handle.put(shared);
    asked_status(answer)
}

/// What stands around a remark of a handle's program, and how much that is, kind by kind: the statements that may write the variable of a dead
/// assignment next, and whether `main` may end without one; those that may have evaluated an expression last that is already computed, and the
/// variables that hold its value; those that may evaluate a very busy one next; the nearest point before a statement that is never reached to
/// which a valid path leads. The numbers of a remark at any point are taken. Where there is too little room it is told how much is needed.
#[unsafe(no_mangle)]
#[tactic(auto, using(crate::proofs::answers::Asked::closed, crate::proofs::answers::Asked::asked))]
pub extern "C" fn tacflow_c_around(
    alloc: Global,
    handle: &mut Handle,
    remark: &NumberedRemark,
    nearby: &mut [NumberedNearby],
    count: &mut usize,
) -> u32
    ensures { IsAsked result handle.old.held.value handle.new.held.value
        (λ program. HoldsList (AreAround program remark.now) nearby.old nearby.new count.new)
        (IsListKept nearby.old nearby.new count.old count.new)
        (IsAroundFault remark.now (length nearby.old) count.new) }
{
    if !handle.is_open {
        return 8;
    }
    let shared = handle.take(alloc);
    let answer = around_of_kept(alloc, shared.kept(), *remark, nearby, count);
    handle.put(shared);
    asked_status(answer)
}

/// Why a point of a handle's program is doubtful: a point to which some path from it leads, and which has no valid path to the end of `main`;
/// 4294967295 where the point is not doubtful.
#[unsafe(no_mangle)]
#[tactic(auto, using(crate::proofs::answers::Asked::closed, crate::proofs::answers::Asked::asked))]
pub extern "C" fn tacflow_c_doubt_origin(
    alloc: Global,
    handle: &mut Handle,
    point: u32,
    origin: &mut u32,
) -> u32
    ensures { IsAsked result handle.old.held.value handle.new.held.value
        (λ program. TellsDoubt program point origin.new)
        (λ _. origin.new ≡ origin.old)
        (IsPointFault point) }
{
    if !handle.is_open {
        return 8;
    }
    let shared = handle.take(alloc);
    let answer = doubt_origin_of_kept(alloc, shared.kept(), point, origin);
    handle.put(shared);
    asked_status(answer)
}

/// Why a bit of an analysis is in the set of a point of a handle's program, in the may form: `has` is 1 and there are the hops of a path that
/// brings it there, and how many they are; or `has` and the count are 0, and no valid path brings it. Where there is too little room the
/// number of hops alone is told.
#[unsafe(no_mangle)]
#[tactic(auto, using(crate::proofs::answers::Asked::closed, crate::proofs::answers::Asked::asked))]
pub extern "C" fn tacflow_c_why(
    alloc: Global,
    handle: &mut Handle,
    analysis: u32,
    point: u32,
    bit: u32,
    hops: &mut [NumberedHop],
    count: &mut usize,
    has: &mut u32,
) -> u32
    ensures { IsAsked result handle.old.held.value handle.new.held.value
        (λ program. TellsWhy program (record { analysis = analysis; point = point; bit = bit }) hops.old hops.new count.new has.new)
        (IsWhyKept hops.old hops.new count.old count.new has.old has.new)
        (IsWhyFault (record { analysis = analysis; point = point; bit = bit }) (length hops.old) count.new) }
{
    if !handle.is_open {
        return 8;
    }
    let fact = NumberedFact {
        analysis,
        point,
        bit,
    };
    let shared = handle.take(alloc);
    let answer = why_of_kept(alloc, shared.kept(), fact, hops, count, has);
    handle.put(shared);
    asked_status(answer)
}

/// Why bits of an analysis are in the sets of points of a handle's program, as `tacflow_c_why` tells it of one: of each that is asked whether a
/// valid path brings it, and where its hops end among those of all, which stand one after the other. Where there is too little room the number
/// of hops alone is told.
#[unsafe(no_mangle)]
#[tactic(auto, using(crate::proofs::answers::Asked::closed, crate::proofs::answers::Asked::asked))]
pub extern "C" fn tacflow_c_whys(
    alloc: Global,
    handle: &mut Handle,
    analysis: u32,
    asked: &mut [NumberedWhy],
    hops: &mut [NumberedHop],
    count: &mut usize,
) -> u32
    ensures { IsAsked result handle.old.held.value handle.new.held.value
        (λ program. HoldsList (AreWhys program analysis asked.old asked.new) hops.old hops.new count.new)
        (λ fault. (asked.new ≡ asked.old) × IsListKept hops.old hops.new count.old count.new fault)
        (IsWhysFault analysis asked.old (length hops.old) count.new) }
{
    if !handle.is_open {
        return 8;
    }
    let shared = handle.take(alloc);
    let answer = whys_of_kept(alloc, shared.kept(), analysis, asked, hops, count);
    handle.put(shared);
    asked_status(answer)
}
