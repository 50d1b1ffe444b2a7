// A board that is opened where memory is refused, as `test_support` has it.

ghost use Rattle.std.specs.Prelude.{IfOk};
ghost use Rattle.slice_board.specs.Boards.{IsOf};

use crate::many_tests::{Nothing, closes, drain, open};
use bit_rows::CutFault;
use flow_rows::Board;
use slice_board::Pass;
use std::alloc::Global;
use std::test::Fail;
use test_support::again;
use test_support::refusal_probes::{Refused, named};

fn opened_again(
    alloc: Global,
    refused: &mut Refused,
) -> Result<(Board<Nothing>, Pass<Nothing>), CutFault>
    ensures { IfOk result (λ r. IsOf r.0 r.1) }
{
    Ok(again!(
        *refused,
        "Board::open, its rows or its cut",
        open(alloc, 3, 130, 64)
    ))
}

#[test]
fn an_opened_board_is_refused(rt: HostRuntime) -> Result<(), Fail> {
    let mut refused = None;
    let (board, pass) = opened_again(rt.alloc(), &mut refused)?;
    let pass = drain(&board, pass);
    assert!(rt; closes(board, pass));
    named(refused)
}
