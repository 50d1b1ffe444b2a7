// Each call on parts that takes memory, as `test_support` has it.

ghost use Rattle.std.specs.Prelude.{◌≡◌, IfOk};
ghost use Rattle.flow_parts.specs.code.Bits.{AreOfPart};
ghost use Rattle.report_answers.specs.code.Reported.{TellChosen};

use flow_graph::Graph;
use flow_parts::{PartText, digest, part_bits, part_here};
use part_texts::merge;
use report_answers::ReportAnswers;
use std::alloc::Global;
use std::process::Abort;
use std::test::Fail;
use tac_reader::read;
use test_support::again;
use test_support::refusal_probes::{Refused, named};
use test_support::worked_programs::remarks;
use text_pieces::whole_text;

// Part 1 of 2 of the program of remarks, without its digest.
const BEHIND_DIGEST: &[u8] =
    b"points 14, variables 6, definitions 13, expressions 2\n17: never reached\nend 1\n";

const MERGED: &[u8] =
    b"points 2\n2: x may be used before it is set\n2: x + y is already computed\n4: never reached\n";

fn part_of_answers<'x>(
    alloc: Global,
    graph: &'x Graph<'x>,
    answers: &'x ReportAnswers,
    digest: &'x [u8],
    refused: &mut Refused,
) -> Result<Vec<u8>, Fail>
    requires answers { TellChosen answers.now.chosen graph.now answers.now }
    requires part { AreOfPart graph.now 2 1 answers.now.chosen }
{
    let text = again!(
        *refused,
        "PartText::of",
        PartText::of(alloc, graph, answers, digest, 2, 1)
    );
    Ok(whole_text(alloc, &text)?)
}

#[test]
fn text_of_a_part_is_refused(rt: HostRuntime) -> Result<(), Fail> {
    let mut refused = None;
    let alloc = rt.alloc();
    let program = read(alloc, remarks::TEXT.as_bytes())?;
    let graph = Graph::build(alloc, &program)?;
    let answers = ReportAnswers::chosen_here(alloc, &graph, part_bits(&graph, 2, 1))?;
    let part = part_of_answers(alloc, &graph, &answers, b"0a", &mut refused)?;
    assert!(rt; part.ends_with(BEHIND_DIGEST));
    named(refused)
}

#[test]
fn digest_is_refused(rt: HostRuntime) -> Result<(), Fail> {
    let mut refused = None;
    let digits = again!(refused, "digest", digest(rt.alloc(), b"abc"));
    assert_eq!(rt; digits.len(), 40);
    named(refused)
}

#[test]
fn part_here_is_refused(rt: HostRuntime) -> Result<(), Fail> {
    let mut refused = None;
    let alloc = rt.alloc();
    let program = read(alloc, remarks::TEXT.as_bytes())?;
    let graph = Graph::build(alloc, &program)?;
    let part = again!(refused, "part_here", part_here(alloc, &graph, b"0a", 2, 1));
    assert!(rt; part.ends_with(BEHIND_DIGEST));
    named(refused)
}

#[test]
fn merge_is_refused(rt: HostRuntime) -> Result<(), Fail> {
    let mut refused = None;
    let texts: [&[u8]; 2] = [
        b"part 2 of 2 of 0a\npoints 2\n2: x + y is already computed\nend 2\n",
        b"part 1 of 2 of 0a\npoints 2\n4: never reached\n2: x may be used before it is set\nend 1\n",
    ];
    let merged = again!(refused, "merge", merge(rt.alloc(), &texts));
    match merged {
        Ok(text) => assert_eq!(rt; text.as_slice(), MERGED),
        Err(_) => return Err(Fail::from("a fault")),
    }
    named(refused)
}
