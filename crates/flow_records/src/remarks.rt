// The remarks on a program, as numbers.

ghost use Rattle.std.specs.Prelude.{◌≡◌, length, map, IfErr, IfOk, OnOk};
ghost use Rattle.flow_records.specs.Rooms.{IsListFault, HoldsList, IsListKept};
ghost use Rattle.flow_records.specs.Remarks.{AreNumberedRemarks, remark_part};

use crate::fault::Fault;
use crate::rooms::put_list;
use flow_graph::OutOfMemory;
use flow_kept::Kept;
use flow_reports::{PlacedRemark, Remark};
use std::alloc::Global;

/// A remark: the point of its statement, its kind, and the variable or the expression that it names. The kinds are 0 for a statement that is
/// never reached, which names 4294967295; 1 for a variable that may be used before it is set; 2 for an expression that is already computed; 3
/// for one that is very busy; 4 for a variable whose assignment is dead.
#[repr(C)]
#[derive(Clone, Copy)]
pub struct NumberedRemark {
    pub point: u32,
    pub kind: u32,
    pub name: u32,
}

fn remark_of(placed: PlacedRemark) -> NumberedRemark
    ensures { result ≡ remark_part placed }
{
    let (kind, name) = match placed.remark {
        Remark::NeverReached => (0, u32::MAX),
        Remark::Unset { variable } => (1, variable),
        Remark::Computed { expression } => (2, expression),
        Remark::VeryBusy { expression } => (3, expression),
        Remark::Dead { variable } => (4, variable),
    };
    NumberedRemark {
        point: placed.point,
        kind,
        name,
    }
}

// Remarks by their numbers, in their order.
fn numbered(alloc: Global, remarks: &[PlacedRemark]) -> Result<Vec<NumberedRemark>, OutOfMemory>
    ensures { IfOk result (λ numbered. numbered.items ≡ map remark_part remarks.now) }
{
    let mut numbered = Vec::with_capacity(alloc, remarks.len())?;
    for placed in remarks {
        numbered.push(remark_of(*placed))?;
    }
    Ok(numbered)
}

/// The remarks on a kept program, and how many they are.
pub fn remarks_of_kept(
    alloc: Global,
    kept: &Kept,
    remarks: &mut [NumberedRemark],
    count: &mut usize,
) -> Result<(), Fault>
    ensures held { OnOk result (HoldsList (AreNumberedRemarks kept.now.program) remarks.old remarks.new count.new) }
    ensures kept { IfErr result (IsListKept remarks.old remarks.new count.old count.new) }
    ensures fault { IfErr result (IsListFault (AreNumberedRemarks kept.now.program) (length remarks.old) count.new) }
{
    let listed = kept.remarks(alloc)?;
    let all = numbered(alloc, listed.as_slice())?;
    if put_list(all.as_slice(), remarks, count) {
        Ok(())
    } else {
        Err(Fault::BadRoom)
    }
}
