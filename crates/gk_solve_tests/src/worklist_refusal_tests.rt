// Each call on orders, sets of points and groups of places that takes memory, as `test_support` has it.

use flow_graph::OutOfMemory;
use std::alloc::Global;
use std::process::Abort;
use std::test::Fail;
use test_support::again;
use test_support::refusal_probes::{Refused, named};
use worklist::{Order, Worklist, group};

// The order in which these points are listed.
fn order_of(alloc: Global, listed: [u32; 3]) -> Result<Order, OutOfMemory> {
    Order::of(alloc, listed.to_vec(alloc)?)
}

fn order_again(
    alloc: Global,
    listed: [u32; 3],
    refused: &mut Refused,
) -> Result<Order, OutOfMemory> {
    Ok(again!(*refused, "Order::of, or its list", order_of(alloc, listed)))
}

// All points of an order, as they are taken.
fn taken(
    alloc: Global,
    order: &Order,
    refused: &mut Refused,
) -> Result<[Option<usize>; 3], OutOfMemory> {
    let mut worklist = again!(*refused, "Worklist::none", Worklist::none(alloc, order));
    worklist.mark_all();
    Ok([worklist.take(), worklist.take(), worklist.take()])
}

// The points are taken in this order; where a call was refused, the test fails by its name.
fn check_order<R: Abort + AllocGlobal>(
    rt: &R,
    listed: [u32; 3],
    want: [Option<usize>; 3],
) -> Result<(), Fail> {
    let mut refused = None;
    let order = order_again(rt.alloc(), listed, &mut refused)?;
    let points = taken(rt.alloc(), &order, &mut refused)?;
    assert_eq!(rt; points, want);
    named(refused)
}

#[test]
fn orders_are_made_again(rt: HostRuntime) -> Result<(), Fail> {
    check_order(&rt, [2, 0, 1], [Some(2), Some(0), Some(1)])?;
    check_order(&rt, [0, 0, 1], [Some(0), Some(1), Some(2)])
}

#[test]
fn groups_are_made_again(rt: HostRuntime) -> Result<(), Fail> {
    let mut refused = None;
    let groups = again!(refused, "group", group(rt.alloc(), &[1, 0, 1], 2));
    assert_eq!(rt; groups.starts.as_slice(), [0, 1, 3].as_slice());
    assert_eq!(rt; groups.places.as_slice(), [1, 2, 0].as_slice());
    named(refused)
}
