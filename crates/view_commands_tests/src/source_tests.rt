// The lines of a program's text behind the first line of JSON, by hand.

use crate::tacview_tests::{NONE, PLAIN, run_to_page};
use std::alloc::Global;
use std::process::Abort;
use std::test::Fail;
use std::thread::Threads;
use tac_program::Limits;
use test_support::failing_streams::blank_page;
use test_support::worked_programs::{ALONE, TEAMS};
use view_words::{Asked, Format, Options};

/// A comment with quotes and a backslash, lines that end with a carriage return and a line feed, a blank one, a tab, bytes that are no signs of
/// ASCII, and no line feed at the end.
pub(crate) const SOURCE: &[u8] = b"# \"a\\b\"\r\nproc main\n\n\tx = 1 # \xc3\xa4\x01<\r\nend";

const LINES: &str = "{\"type\":\"source\",\"line\":1,\"start\":0,\"text\":\"# \\\"a\\\\b\\\"\"}\n\
    {\"type\":\"source\",\"line\":2,\"start\":9,\"text\":\"proc main\"}\n\
    {\"type\":\"source\",\"line\":3,\"start\":19,\"text\":\"\"}\n\
    {\"type\":\"source\",\"line\":4,\"start\":20,\"text\":\"\\u0009x = 1 # \\u00c3\\u00a4\\u0001<\"}\n\
    {\"type\":\"source\",\"line\":5,\"start\":35,\"text\":\"end\"}\n";

const HEAD: &str =
    "{\"type\":\"program\",\"version\":1,\"points\":2,\"procedures\":[\"main\"],\"variables\":[\"x\"],\"definitions\":2,\
    \"expressions\":0";

const POINTS: &str =
    "{\"type\":\"point\",\"point\":0,\"procedure\":\"main\",\"place\":0,\"line\":4,\"first\":22,\"last\":26,\"labels\":[],\
    \"statement\":\"x = 1\",\"doubtful\":false,\"edges\":[{\"kind\":\"step\",\"to\":1}]}\n\
    {\"type\":\"point\",\"point\":1,\"procedure\":\"main\",\"place\":1,\"line\":null,\"first\":null,\"last\":null,\"labels\":[],\
    \"statement\":null,\"doubtful\":false,\"edges\":[]}\n";

const DEAD: &str =
    "{\"type\":\"remark\",\"point\":0,\"line\":4,\"first\":22,\"last\":26,\"kind\":\"dead\",\"variable\":\"x\"";

const AROUND_DEAD: &str = ",\"next_writes\":[],\"may_end_unwritten\":true";

const NAMES: &str =
    ",\"definition_names\":[\"x@entry\",\"x@4\"],\"expression_names\":[],\"definition_parts\":[{\"variable\":0,\"point\":null},\
    {\"variable\":0,\"point\":0}],\"expression_parts\":[]";

/// The options for lines of this format, without facts, and those of the source. None where memory is refused.
pub(crate) fn sourced(format: Format, source: bool, team: (u32, u32)) -> Option<Options> {
    let asked = Asked {
        procedure: None,
        because: None,
        share: None,
        title: None,
        source,
        look: PLAIN,
    };
    Options::new(team.0, team.1, Limits::Standard, format, NONE, asked)
}

/// Texts one behind the other. None where memory is refused.
pub(crate) fn joined(alloc: Global, texts: &[&str]) -> Option<Vec<u8>> {
    let mut whole = Vec::new(alloc);
    for text in texts {
        whole.extend_from_slice(text.as_bytes()).ok()?;
    }
    Some(whole)
}

// Checks what is written of the text.
fn check_lines<R: Threads + Sync + Abort + AllocGlobal>(
    rt: &R,
    format: Format,
    team: (u32, u32),
    wanted: &[u8],
) -> Result<(), Fail> {
    let options = sourced(format, true, team).ok_or("options")?;
    let mut page = blank_page(rt.alloc());
    let answered = run_to_page(rt, SOURCE, &mut page, &options);
    assert!(rt; answered.is_ok() && page.taken.as_slice() == wanted);
    Ok(())
}

/// Lines with sets, piece by piece.
pub(crate) const SETS: &[&str] = &[
    HEAD,
    "}\n",
    LINES,
    POINTS,
    DEAD,
    "}\n",
    "{\"type\":\"end\",\"points\":2}\n",
];

#[test]
fn sources_with_sets(rt: HostRuntime) -> Result<(), Fail> {
    let wanted = joined(rt.alloc(), SETS).ok_or("texts")?;
    for team in TEAMS {
        check_lines(&rt, Format::Json, *team, wanted.as_slice())?;
    }
    Ok(())
}

#[test]
fn sources_with_paths(rt: HostRuntime) -> Result<(), Fail> {
    let texts = &[
        HEAD,
        "}\n",
        LINES,
        POINTS,
        DEAD,
        AROUND_DEAD,
        "}\n",
        "{\"type\":\"end\",\"points\":2}\n",
    ];
    let wanted = joined(rt.alloc(), texts.as_slice()).ok_or("texts")?;
    for team in TEAMS {
        check_lines(&rt, Format::JsonPaths, *team, wanted.as_slice())?;
    }
    Ok(())
}

// With differences they stand there too, behind a longer first line.
#[test]
fn sources_with_changes(rt: HostRuntime) -> Result<(), Fail> {
    let texts = &[
        HEAD,
        NAMES,
        "}\n",
        LINES,
        "{\"type\":\"point\",\"point\":0,",
    ];
    let wanted = joined(rt.alloc(), texts.as_slice()).ok_or("texts")?;
    for team in TEAMS {
        let options = sourced(Format::JsonChanges, true, *team).ok_or("options")?;
        let mut page = blank_page(rt.alloc());
        let answered = run_to_page(&rt, SOURCE, &mut page, &options);
        assert!(rt; answered.is_ok() && page.taken.as_slice().starts_with(wanted.as_slice()));
    }
    Ok(())
}

#[test]
fn no_source_where_none_is_asked_for(rt: HostRuntime) -> Result<(), Fail> {
    let texts = &[
        HEAD,
        "}\n",
        POINTS,
        DEAD,
        "}\n",
        "{\"type\":\"end\",\"points\":2}\n",
    ];
    let wanted = joined(rt.alloc(), texts.as_slice()).ok_or("texts")?;
    let options = sourced(Format::Json, false, ALONE).ok_or("options")?;
    let mut page = blank_page(rt.alloc());
    let answered = run_to_page(&rt, SOURCE, &mut page, &options);
    assert!(rt; answered.is_ok() && page.taken.as_slice() == wanted.as_slice());
    Ok(())
}

// Whether the words name options, and the lines of the source with them.
fn names_source(alloc: Global, words: &[&str]) -> bool {
    match Options::from_words(alloc, words) {
        Ok(options) => options.asked.source,
        Err(_) => false,
    }
}

#[test]
fn words_for_sources(rt: HostRuntime) -> Result<(), Fail> {
    assert!(rt; names_source(rt.alloc(), &["tacview", "--format=json", "--source"]));
    assert!(rt;
        names_source(
            rt.alloc(),
            &["tacview", "--source", "--changes", "--format=json"]
        )
    );
    assert!(rt;
        names_source(
            rt.alloc(),
            &["tacview", "--source", "--paths", "--format=html"]
        )
    );
    assert!(rt; !names_source(rt.alloc(), &["tacview", "--format=json"]));
    Ok(())
}

const REFUSED_WORDS: &[&[&str]] = &[
    &["tacview", "--source"],
    &["tacview", "--format=dot", "--source"],
    &["tacview", "--format=report", "--source"],
    &["tacview", "--calls", "--source"],
    &["tacview", "--blocks", "--source"],
    &["tacview", "--format=report", "--part=1/2", "--source"],
    &[
        "tacview",
        "--format=json",
        "--facts=none",
        "--part=1/2",
        "--source",
    ],
    &["tacview", "--format=json", "--source", "--source"],
    &["tacview", "--format=json", "--source=yes"],
];

#[test]
fn words_that_have_no_source(rt: HostRuntime) -> Result<(), Fail> {
    for words in REFUSED_WORDS {
        assert!(rt; Options::from_words(rt.alloc(), words).is_err());
    }
    Ok(())
}
