// Each call of the reader that takes memory, as `test_support` has it.

use std::alloc::Global;
use std::process::Abort;
use std::test::Fail;
use tac_reader::{
    Op, Operand, OutOfMemory, Program, ReadFault, listing, read, write_binary_expression,
    write_unary_expression,
};
use test_support::again;
use test_support::refusal_probes::{Refused, named};
use test_support::worked_programs::recursion;

/// The one comparison, since each that is written out is proved again.
fn check(rt: &impl Abort, got: &[u8], want: &str) {
    assert_eq!(rt; got, want.as_bytes());
}

fn listed(alloc: Global, program: &Program, refused: &mut Refused) -> Result<Vec<u8>, OutOfMemory> {
    Ok(again!(*refused, "listing", listing(alloc, program)))
}

fn program_of_recursion(alloc: Global, refused: &mut Refused) -> Result<Program, ReadFault> {
    let text = recursion::TEXT.as_bytes();
    Ok(again!(*refused, "read", read(alloc, text)))
}

#[test]
fn read_and_listing_are_refused(rt: HostRuntime) -> Result<(), Fail> {
    let mut refused = None;
    let program = program_of_recursion(rt.alloc(), &mut refused)?;
    let text = listed(rt.alloc(), &program, &mut refused)?;
    check(&rt, text.as_slice(), recursion::LISTING);
    named(refused)
}

/// Writes an expression of the program last: the one with one operand, or the one with two.
fn write_expression(
    text: &mut Vec<u8>,
    program: &Program,
    is_unary: bool,
) -> Result<(), OutOfMemory> {
    let variable = Operand::Variable(0);
    if is_unary {
        write_unary_expression(text, program, Op::Minus, variable)
    } else {
        write_binary_expression(text, program, variable, Op::Plus, Operand::Number(7))
    }
}

/// Writes it behind what stands there, which a refused call leaves as it was.
fn write_expression_again(
    text: &mut Vec<u8>,
    program: &Program,
    is_unary: bool,
) -> Result<bool, OutOfMemory> {
    if write_expression(text, program, is_unary).is_ok() {
        return Ok(false);
    }
    let refused = text.as_slice().starts_with(b"y = ");
    text.truncate(4);
    write_expression(text, program, is_unary)?;
    Ok(refused)
}

/// An expression behind what stood there before; where the call was refused, the test fails by its name.
fn check_expression<R: Abort + AllocGlobal>(
    rt: &R,
    is_unary: bool,
    name: &'static str,
    want: &str,
) -> Result<(), Fail> {
    let program = read(rt.alloc(), recursion::TEXT.as_bytes())?;
    let mut text = b"y = ".to_vec(rt.alloc())?;
    let refused = write_expression_again(&mut text, &program, is_unary)?;
    check(rt, text.as_slice(), want);
    named(refused.then_some(name))
}

#[test]
fn unary_expression_is_refused(rt: HostRuntime) -> Result<(), Fail> {
    check_expression(&rt, true, "write_unary_expression", "y = -x")
}

#[test]
fn binary_expression_is_refused(rt: HostRuntime) -> Result<(), Fail> {
    check_expression(&rt, false, "write_binary_expression", "y = x + 7")
}
