// Parts of a worked program.

ghost use Rattle.std.specs.Prelude.{◌≤◌};

use flow_graph::Graph;
use flow_parts::{digest, part_here};
use flow_reports::report_here;
use part_texts::merge;
use std::alloc::Global;
use std::process::Abort;
use std::test::Fail;
use tac_reader::read;
use test_support::worked_programs::remarks;

// It has one group of variables and one of expressions, which are in part 2 of 2.
const ONE: &[u8] =
    b"part 1 of 2 of 0a\npoints 14, variables 6, definitions 13, expressions 2\n17: never reached\nend 1\n";

const TWO: &[u8] =
    b"part 2 of 2 of 0a\npoints 14, variables 6, definitions 13, expressions 2\n6: a + b is already computed\n\
    7: a * b is very busy\n12: assignment to x is dead\n15: count may be used before it is set\nend 2\n";

const REPORT: &[u8] =
    b"points 14, variables 6, definitions 13, expressions 2\n6: a + b is already computed\n7: a * b is very busy\n\
    12: assignment to x is dead\n15: count may be used before it is set\n17: never reached\n";

// A part of the report on a text's program.
fn part(alloc: Global, text: &[u8], count: u32, number: u32) -> Result<Vec<u8>, Fail>
    requires first { 1 ≤ number }
    requires last { number ≤ count }
    requires few { count ≤ 4096 }
{
    let program = read(alloc, text)?;
    let graph = Graph::build(alloc, &program)?;
    Ok(part_here(alloc, &graph, b"0a", count, number)?)
}

// The report.
fn report(alloc: Global, text: &[u8]) -> Result<Vec<u8>, Fail> {
    let program = read(alloc, text)?;
    let graph = Graph::build(alloc, &program)?;
    Ok(report_here(alloc, &graph)?)
}

// What parts make.
fn merged(alloc: Global, parts: &[&[u8]]) -> Result<Vec<u8>, Fail> {
    match merge(alloc, parts)? {
        Ok(text) => Ok(text),
        Err(_) => Err(Fail::from("a fault")),
    }
}

#[test]
fn parts_of_remarks(rt: HostRuntime) -> Result<(), Fail> {
    let text = remarks::TEXT.as_bytes();
    let one = part(rt.alloc(), text, 2, 1)?;
    assert_eq!(rt; one.as_slice(), ONE);
    let two = part(rt.alloc(), text, 2, 2)?;
    assert_eq!(rt; two.as_slice(), TWO);
    let all = merged(rt.alloc(), &[two.as_slice(), one.as_slice()])?;
    assert_eq!(rt; all.as_slice(), REPORT);
    Ok(())
}

// A program that adds to each of 1,100 variables, one on a line from line 2 on. None is set, and no sum is read.
pub(crate) fn many_variables(alloc: Global) -> Result<String, Fail> {
    let mut text = String::from_str(alloc, "proc main\n")?;
    for number in 0u32..1_100 {
        let line = format!(in alloc; "  r = v{number} + 1\n")?;
        text.push_str(&line)?;
    }
    text.push_str("end\n")?;
    Ok(text)
}

// Where the parts of that program begin and end.
fn check_ends<R: Abort>(rt: &R, one: &[u8], two: &[u8], three: &[u8]) {
    let two_begins =
        b"part 2 of 3 of 0a\npoints 1101, variables 1101, definitions 2201, expressions 1100\n\
        513: v511 may be used before it is set\n";
    assert!(rt; one.ends_with(b"\n1101: assignment to r is dead\nend 1\n"));
    assert!(rt; two.starts_with(two_begins));
    assert!(rt; two.ends_with(b"1024: v1022 may be used before it is set\nend 2\n"));
    assert!(rt; three.ends_with(b"1101: v1099 may be used before it is set\nend 3\n"));
}

// The variables and the expressions are three groups each. `r` is the first variable, so that v511 is the first of part 2.
#[test]
fn parts_of_many_variables(rt: HostRuntime) -> Result<(), Fail> {
    let text = many_variables(rt.alloc())?;
    let one = part(rt.alloc(), text.as_bytes(), 3, 1)?;
    let two = part(rt.alloc(), text.as_bytes(), 3, 2)?;
    let three = part(rt.alloc(), text.as_bytes(), 3, 3)?;
    check_ends(&rt, &one, &two, &three);
    let all = merged(
        rt.alloc(),
        &[three.as_slice(), one.as_slice(), two.as_slice()],
    )?;
    assert_eq!(rt;
        all.as_slice(),
        report(rt.alloc(), text.as_bytes())?.as_slice()
    );
    Ok(())
}

// A program with a test on line 3, behind which each way evaluates 1,100 expressions, one on a line from line 5 on.
fn many_expressions(alloc: Global) -> Result<String, Fail> {
    let mut text = String::from_str(alloc, "proc main\n  read c\n  if c < 1 goto sums\nsums:\n")?;
    for number in 0u32..1_100 {
        let line = format!(in alloc; "  r = v{number} + 1\n")?;
        text.push_str(&line)?;
    }
    text.push_str("end\n")?;
    Ok(text)
}

// Where the parts of that program begin: the expressions are three groups, and the first remarks are those of line 3.
fn check_beginnings<R: Abort>(rt: &R, one: &[u8], two: &[u8], three: &[u8]) {
    let one_begins =
        b"part 1 of 3 of 0a\npoints 1103, variables 1102, definitions 2203, expressions 1100\n\
        3: v0 + 1 is very busy\n3: v1 + 1 is very busy\n";
    let two_begins =
        b"part 2 of 3 of 0a\npoints 1103, variables 1102, definitions 2203, expressions 1100\n\
        3: v512 + 1 is very busy\n3: v513 + 1 is very busy\n";
    let three_begins =
        b"part 3 of 3 of 0a\npoints 1103, variables 1102, definitions 2203, expressions 1100\n\
        3: v1024 + 1 is very busy\n3: v1025 + 1 is very busy\n";
    assert!(rt; one.starts_with(one_begins));
    assert!(rt; two.starts_with(two_begins));
    assert!(rt; three.starts_with(three_begins));
}

#[test]
fn parts_of_many_expressions(rt: HostRuntime) -> Result<(), Fail> {
    let text = many_expressions(rt.alloc())?;
    let one = part(rt.alloc(), text.as_bytes(), 3, 1)?;
    let two = part(rt.alloc(), text.as_bytes(), 3, 2)?;
    let three = part(rt.alloc(), text.as_bytes(), 3, 3)?;
    check_beginnings(&rt, &one, &two, &three);
    let all = merged(
        rt.alloc(),
        &[three.as_slice(), one.as_slice(), two.as_slice()],
    )?;
    assert_eq!(rt;
        all.as_slice(),
        report(rt.alloc(), text.as_bytes())?.as_slice()
    );
    Ok(())
}

// The digest that FIPS 180 gives.
#[test]
fn digest_of_letters(rt: HostRuntime) -> Result<(), Fail> {
    let digits = digest(rt.alloc(), b"abc")?;
    assert_eq!(rt;
        digits.as_slice(),
        b"a9993e364706816aba3e25717850c26c9cd0d89d".as_slice()
    );
    Ok(())
}
