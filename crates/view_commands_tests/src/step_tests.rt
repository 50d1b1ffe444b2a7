// Rounds in procedures of small programs, by hand.

use crate::tacview_tests::{NONE, Queried, check, options, run_to_page};
use flow_views::Chosen;
use std::alloc::Global;
use std::process::Abort;
use std::test::Fail;
use std::thread::Threads;
use tac_program::Limits;
use test_support::failing_streams::blank_page;
use test_support::worked_programs::ALONE;
use view_words::Format;

const REACH_AND_LIVE: Chosen = Chosen {
    reach: true,
    live: true,
    avail: false,
    busy: false,
};

const AVAIL: Chosen = Chosen {
    reach: false,
    live: false,
    avail: true,
    busy: false,
};

pub(crate) const STEPS_OF_LOOP: Queried<'static> = Queried {
    limits: Limits::Standard,
    format: Format::Steps,
    facts: REACH_AND_LIVE,
    procedure: Some("main"),
    because: None,
};

const CHANGES_OF_LOOP: Queried<'static> = Queried {
    limits: Limits::Standard,
    format: Format::JsonChanges,
    facts: REACH_AND_LIVE,
    procedure: Some("main"),
    because: None,
};

pub(crate) const PAGE_OF_LOOP: Queried<'static> = Queried {
    limits: Limits::Standard,
    format: Format::HtmlSteps,
    facts: REACH_AND_LIVE,
    procedure: Some("main"),
    because: None,
};

const STEPS_OF_F: Queried<'static> = Queried {
    limits: Limits::Large,
    format: Format::Steps,
    facts: AVAIL,
    procedure: Some("f"),
    because: None,
};

/// A loop around an assignment.
pub(crate) const LOOP: &str = "proc main\nx = 1\nagain:\nx = x - 1\nif x goto again\nend\n";

/// Forwards, what the assignment in the loop defines comes to the loop's head in the second round. Backwards the first round has it all: it
/// takes the test first, which reads the variable.
pub(crate) const LOOP_LINES: &str =
    "{\"type\":\"program\",\"version\":1,\"points\":4,\"procedures\":[\"main\"],\"variables\":[\"x\"],\"definitions\":3,\
    \"expressions\":1,\"definition_names\":[\"x@entry\",\"x@2\",\"x@4\"],\"expression_names\":[\"x - 1\"],\
    \"definition_parts\":[{\"variable\":0,\"point\":null},{\"variable\":0,\"point\":0},{\"variable\":0,\"point\":1}],\
    \"expression_parts\":[{\"operator\":\"-\",\"operands\":[{\"variable\":0},{\"number\":1}]}]}\n\
    {\"type\":\"steps\",\"procedure\":\"main\",\"first\":0,\"points\":4,\"analyses\":[\"reach\",\"live\"]}\n\
    {\"type\":\"start\",\"analysis\":\"reach\",\"begin\":\"nothing\",\"order\":[1,2,3],\"known\":[{\"point\":0,\"bits\":[0]}]}\n\
    {\"type\":\"round\",\"analysis\":\"reach\",\"round\":1,\"changed\":[{\"point\":1,\"came\":[1],\"went\":[]},\
    {\"point\":2,\"came\":[2],\"went\":[]},{\"point\":3,\"came\":[2],\"went\":[]}]}\n\
    {\"type\":\"round\",\"analysis\":\"reach\",\"round\":2,\"changed\":[{\"point\":1,\"came\":[2],\"went\":[]}]}\n\
    {\"type\":\"round\",\"analysis\":\"reach\",\"round\":3,\"changed\":[]}\n\
    {\"type\":\"start\",\"analysis\":\"live\",\"begin\":\"nothing\",\"order\":[2,1,0],\"known\":[{\"point\":3,\"bits\":[]}]}\n\
    {\"type\":\"round\",\"analysis\":\"live\",\"round\":1,\"changed\":[{\"point\":2,\"came\":[0],\"went\":[]},\
    {\"point\":1,\"came\":[0],\"went\":[]}]}\n\
    {\"type\":\"round\",\"analysis\":\"live\",\"round\":2,\"changed\":[]}\n\
    {\"type\":\"end\",\"points\":4}\n";

const CALLED: &str = "proc main\nread a\ncall f\nend\nproc f\ny = a + 1\nend\n";

const CALLED_LINES: &str =
    "{\"type\":\"program\",\"version\":1,\"points\":5,\"procedures\":[\"main\",\"f\"],\"variables\":[\"a\",\"y\"],\"definitions\":4,\
    \"expressions\":1,\"definition_names\":[\"a@entry\",\"y@entry\",\"a@2\",\"y@6\"],\"expression_names\":[\"a + 1\"],\
    \"definition_parts\":[{\"variable\":0,\"point\":null},{\"variable\":1,\"point\":null},{\"variable\":0,\"point\":0},\
    {\"variable\":1,\"point\":3}],\"expression_parts\":[{\"operator\":\"+\",\"operands\":[{\"variable\":0},{\"number\":1}]}]}\n\
    {\"type\":\"steps\",\"procedure\":\"f\",\"first\":3,\"points\":2,\"analyses\":[\"avail\"]}\n\
    {\"type\":\"start\",\"analysis\":\"avail\",\"begin\":\"everything\",\"order\":[4],\"known\":[{\"point\":3,\"bits\":[]}]}\n\
    {\"type\":\"round\",\"analysis\":\"avail\",\"round\":1,\"changed\":[]}\n\
    {\"type\":\"end\",\"points\":2}\n";

#[test]
fn rounds(rt: HostRuntime) -> Result<(), Fail> {
    check(&rt, LOOP, STEPS_OF_LOOP, LOOP_LINES)?;
    check(&rt, CALLED, STEPS_OF_F, CALLED_LINES)
}

// What is written of the loop.
fn written<R: Threads + Sync + AllocGlobal>(rt: &R, queried: Queried<'_>) -> Result<Vec<u8>, Fail> {
    let options = options(rt.alloc(), queried, ALONE).ok_or("options")?;
    let mut page = blank_page(rt.alloc());
    run_to_page(rt, LOOP.as_bytes(), &mut page, &options)?;
    Ok(page.taken)
}

// Whether a text has another one in it.
fn has_text(text: &[u8], wanted: &[u8]) -> bool {
    for place in 0..text.len() {
        if text[place..].starts_with(wanted) {
            return true;
        }
    }
    false
}

// The page has the lines of what changes, and the rounds behind them.
#[test]
fn a_page_with_rounds(rt: HostRuntime) -> Result<(), Fail> {
    let mut lines = written(&rt, CHANGES_OF_LOOP)?;
    lines.extend_from_slice(LOOP_LINES.as_bytes())?;
    let page = written(&rt, PAGE_OF_LOOP)?;
    assert!(rt; has_text(page.as_slice(), lines.as_slice()));
    Ok(())
}

// A program whose procedure `f` has so many points.
fn of_points(alloc: Global, count: u32) -> Result<String, Fail> {
    let mut text = String::from_str(alloc, "proc main\ncall f\nend\nproc f\n")?;
    for _ in 1..count {
        text.push_str("skip\n")?;
    }
    text.push_str("end\n")?;
    Ok(text)
}

// How many lines stand there.
fn line_count(text: &[u8]) -> usize {
    text.iter().filter(|byte| **byte == b'\n').count()
}

const NO_FACTS_OF_F: Queried<'static> = Queried {
    limits: Limits::Standard,
    format: Format::Steps,
    facts: NONE,
    procedure: Some("f"),
    because: None,
};

// A page of the same.
const PAGE_OF_F: Queried<'static> = Queried {
    limits: Limits::Standard,
    format: Format::HtmlSteps,
    facts: NONE,
    procedure: Some("f"),
    because: None,
};

const LARGE: &str =
    "tacview: the procedure f has more than 200 points: --steps shows at most 200\n";

#[test]
fn procedures_at_the_bound(rt: HostRuntime) -> Result<(), Fail> {
    let text = of_points(rt.alloc(), 200)?;
    let options = options(rt.alloc(), NO_FACTS_OF_F, ALONE).ok_or("options")?;
    let mut page = blank_page(rt.alloc());
    run_to_page(&rt, text.as_bytes(), &mut page, &options)?;
    assert!(rt; line_count(page.taken.as_slice()) == 3);
    let text = of_points(rt.alloc(), 201)?;
    check(&rt, text.as_str(), NO_FACTS_OF_F, LARGE)?;
    check(&rt, text.as_str(), PAGE_OF_F, LARGE)
}

// Formats that tell rounds, which are of one procedure.
const OF_ONE: &[Format] = &[Format::Steps, Format::HtmlSteps];

#[test]
fn rounds_in_no_procedure(rt: HostRuntime) -> Result<(), Fail> {
    for format in OF_ONE {
        let other = Queried {
            limits: Limits::Standard,
            format: *format,
            facts: NONE,
            procedure: Some("g"),
            because: None,
        };
        check(
            &rt,
            CALLED,
            other,
            "tacview: the program has no procedure g\n",
        )?;
        let all = Queried {
            limits: Limits::Standard,
            format: *format,
            facts: NONE,
            procedure: None,
            because: None,
        };
        check(&rt, CALLED, all, "tacview: no such procedure\n")?;
    }
    Ok(())
}
