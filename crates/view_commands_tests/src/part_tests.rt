// Parts of a report and of lines of JSON by hand, and what comes of files with them.

use crate::tacview_tests::{NONE, PLAIN, run_to_page};
use part_texts::Share;
use std::alloc::Global;
use std::process::Abort;
use std::test::Fail;
use std::thread::Threads;
use tac_program::Limits;
use test_support::failing_streams::blank_page;
use test_support::worked_programs::{TEAMS, remarks};
use view_commands::{file_line, files_to_merge, merge_files};
use view_words::{Asked, Format, Options};

// The program has one group of variables and one of expressions, which are in part 2 of 2. The digest is that of `sha1sum`.
const ONE: &str = "part 1 of 2 of 086f69e0e1f669186b8453b65bab087476c7703f\n\
    points 14, variables 6, definitions 13, expressions 2\n17: never reached\nend 1\n";

const TWO: &str = "part 2 of 2 of 086f69e0e1f669186b8453b65bab087476c7703f\n\
    points 14, variables 6, definitions 13, expressions 2\n6: a + b is already computed\n7: a * b is very busy\n\
    12: assignment to x is dead\n15: count may be used before it is set\nend 2\n";

const WHOLE: &str = "part 1 of 1 of 086f69e0e1f669186b8453b65bab087476c7703f\n\
    points 14, variables 6, definitions 13, expressions 2\n6: a + b is already computed\n7: a * b is very busy\n\
    12: assignment to x is dead\n15: count may be used before it is set\n17: never reached\nend 1\n";

const REPORT: &str =
    "points 14, variables 6, definitions 13, expressions 2\n6: a + b is already computed\n7: a * b is very busy\n\
    12: assignment to x is dead\n15: count may be used before it is set\n17: never reached\n";

// The same statements on the lines before: another text.
const OTHER: &str = "part 2 of 2 of 58ed5d13b50c8c0a1a6ee0bb4b9af4a59f67e1a1\n\
    points 14, variables 6, definitions 13, expressions 2\n11: assignment to x is dead\nend 2\n";

// What asks for a part in this format. None where it is out of range.
pub(crate) fn options_of(
    alloc: Global,
    format: Format,
    part: u32,
    count: u32,
    team: (u32, u32),
) -> Option<Options> {
    let share = Some(Share::new(part, count)?);
    let asked = Asked {
        procedure: None,
        because: None,
        share,
        title: None,
        source: false,
        look: PLAIN,
    };
    Options::new(team.0, team.1, Limits::Standard, format, NONE, asked)
}

pub(crate) const PARTS: &[(u32, u32, &str)] = &[(1, 2, ONE), (2, 2, TWO), (1, 1, WHOLE)];

// The part is written so by this team.
fn check_part<R: Threads + Sync + Abort + AllocGlobal>(
    rt: &R,
    part: u32,
    count: u32,
    team: (u32, u32),
    wanted: &str,
) -> Result<(), Fail> {
    let options = options_of(rt.alloc(), Format::Report, part, count, team).ok_or("a part")?;
    let mut page = blank_page(rt.alloc());
    run_to_page(rt, remarks::TEXT.as_bytes(), &mut page, &options)?;
    assert_eq!(rt; page.taken.as_slice(), wanted.as_bytes());
    Ok(())
}

// A program of four points, of which one is never reached. It has one group of variables and one of expressions.
pub(crate) const FOUR_POINTS: &str = "proc main\n  x = x + y\n  return\n  print x\nend\n";

// The digest is that of `sha1sum`.
const JSON_ONE: &str =
    "{\"type\":\"part\",\"version\":1,\"part\":1,\"parts\":2,\"digest\":\"a1a373ead17c8d335c9cf26310730ec42201b3b1\"}\n\
    {\"type\":\"program\",\"version\":1,\"points\":4,\"procedures\":[\"main\"],\"variables\":[\"x\",\"y\"],\"definitions\":3,\"expressions\":1}\n\
    {\"type\":\"point\",\"point\":0,\"procedure\":\"main\",\"place\":0,\"line\":2,\"first\":13,\"last\":21,\"labels\":[],\
    \"statement\":\"x = x + y\",\"doubtful\":false,\"edges\":[{\"kind\":\"step\",\"to\":1}]}\n\
    {\"type\":\"point\",\"point\":1,\"procedure\":\"main\",\"place\":1,\"line\":3,\"first\":25,\"last\":30,\"labels\":[],\
    \"statement\":\"return\",\"doubtful\":false,\"edges\":[{\"kind\":\"step\",\"to\":3}]}\n\
    {\"type\":\"point\",\"point\":2,\"procedure\":\"main\",\"place\":2,\"line\":4,\"first\":34,\"last\":40,\"labels\":[],\
    \"statement\":\"print x\",\"doubtful\":false,\"edges\":[{\"kind\":\"step\",\"to\":3}]}\n\
    {\"type\":\"point\",\"point\":3,\"procedure\":\"main\",\"place\":3,\"line\":null,\"first\":null,\"last\":null,\"labels\":[],\
    \"statement\":null,\"doubtful\":false,\"edges\":[]}\n\
    {\"type\":\"remark\",\"point\":2,\"line\":4,\"first\":34,\"last\":40,\"kind\":\"never_reached\"}\n\
    {\"type\":\"end\",\"points\":4}\n{\"type\":\"end-part\",\"part\":1}\n";

const JSON_TWO: &str =
    "{\"type\":\"part\",\"version\":1,\"part\":2,\"parts\":2,\"digest\":\"a1a373ead17c8d335c9cf26310730ec42201b3b1\"}\n\
    {\"type\":\"program\",\"version\":1,\"points\":4,\"procedures\":[\"main\"],\"variables\":[\"x\",\"y\"],\"definitions\":3,\"expressions\":1}\n\
    {\"type\":\"remark\",\"point\":0,\"line\":2,\"first\":13,\"last\":21,\"kind\":\"unset\",\"variable\":\"x\"}\n\
    {\"type\":\"remark\",\"point\":0,\"line\":2,\"first\":13,\"last\":21,\"kind\":\"unset\",\"variable\":\"y\"}\n\
    {\"type\":\"remark\",\"point\":0,\"line\":2,\"first\":13,\"last\":21,\"kind\":\"dead\",\"variable\":\"x\"}\n\
    {\"type\":\"end-part\",\"part\":2}\n";

pub(crate) const JSON_PARTS: &[(u32, u32, &str)] = &[(1, 2, JSON_ONE), (2, 2, JSON_TWO)];

// What the program writes by these options.
fn written<R: Threads + Sync + Abort + AllocGlobal>(
    rt: &R,
    options: &Options,
) -> Result<Vec<u8>, Fail> {
    let mut page = blank_page(rt.alloc());
    run_to_page(rt, FOUR_POINTS.as_bytes(), &mut page, options)?;
    Ok(page.taken)
}

#[test]
fn parts_of_json(rt: HostRuntime) -> Result<(), Fail> {
    for (part, count, wanted) in JSON_PARTS {
        for team in TEAMS {
            let options = options_of(rt.alloc(), Format::Json, *part, *count, *team).ok_or(
                "a part",
            )?;
            assert_eq!(rt; written(&rt, &options)?.as_slice(), wanted.as_bytes());
        }
    }
    Ok(())
}

// The parts of JSON make the lines that are written whole.
#[test]
fn parts_of_json_are_it(rt: HostRuntime) -> Result<(), Fail> {
    let asked = Asked {
        procedure: None,
        because: None,
        share: None,
        title: None,
        source: false,
        look: PLAIN,
    };
    let whole = Options::new(1, 64, Limits::Standard, Format::Json, NONE, asked).ok_or("options")?;
    let lines = written(&rt, &whole)?;
    let texts: [&[u8]; 2] = [JSON_TWO.as_bytes(), JSON_ONE.as_bytes()];
    match merge_files(rt.alloc(), NAMES, &texts)? {
        Ok(text) => assert_eq!(rt; text.as_slice(), lines.as_slice()),
        Err(_) => return Err(Fail::from("a line")),
    }
    Ok(())
}

#[test]
fn parts_of_remarks(rt: HostRuntime) -> Result<(), Fail> {
    for (part, count, wanted) in PARTS {
        for team in TEAMS {
            check_part(&rt, *part, *count, *team, wanted)?;
        }
    }
    Ok(())
}

#[test]
fn ranges_of_parts(rt: HostRuntime) {
    for (part, count) in &[(1, 1), (4_096, 4_096), (1, 4_096), (2, 3)] {
        assert!(rt; Share::new(*part, *count).is_some());
    }
    for (part, count) in &[(0, 1), (2, 1), (0, 0), (1, 4_097), (u32::MAX, u32::MAX)] {
        assert!(rt; Share::new(*part, *count).is_none());
    }
}

const NAMES: &[&str] = &["one", "two\n", "three"];

// Texts of the files, and the report or the line that comes of them.
const MERGES: &[(&[&str], bool, &str)] = &[
    (&[ONE, TWO], true, REPORT),
    (&[TWO, ONE], true, REPORT),
    (&[WHOLE], true, REPORT),
    (&[], false, "tacview: no file is part 1\n"),
    (&[TWO], false, "tacview: no file is part 1\n"),
    (&[ONE], false, "tacview: no file is part 2\n"),
    (
        &[ONE, TWO, ONE],
        false,
        "tacview: three: is a part that a file before it is\n",
    ),
    (
        &[ONE, OTHER],
        false,
        "tacview: two\\x0a: is a part of another program's report\n",
    ),
    (
        &[JSON_TWO, JSON_ONE, ONE],
        false,
        "tacview: three: is a part in another form than the first\n",
    ),
    (
        &[ONE, JSON_TWO],
        false,
        "tacview: two\\x0a: is a part in another form than the first\n",
    ),
    (&[JSON_ONE], false, "tacview: no file is part 2\n"),
    (
        &[ONE, WHOLE],
        false,
        "tacview: two\\x0a: is one of another number of parts\n",
    ),
    (
        &[REPORT, TWO],
        false,
        "tacview: one: is no part of a report\n",
    ),
    (
        &["part 2 of 2 of 0a\n", ONE],
        false,
        "tacview: one: is cut short\n",
    ),
];

// What comes of files with these texts, and whether it is the report.
fn merge_of(alloc: Global, texts: &[&str]) -> Result<(Vec<u8>, bool), Fail> {
    let read: Vec<&[u8]> = texts.iter().map(|text| text.as_bytes()).collect(alloc)?;
    match merge_files(alloc, NAMES, &read)? {
        Ok(report) => Ok((report, true)),
        Err(line) => Ok((line, false)),
    }
}

#[test]
fn merges_of_files(rt: HostRuntime) -> Result<(), Fail> {
    for (texts, is_report, wanted) in MERGES {
        let (bytes, is) = merge_of(rt.alloc(), texts)?;
        assert_eq!(rt; bytes.as_slice(), wanted.as_bytes());
        assert!(rt; is == *is_report);
    }
    Ok(())
}

#[test]
fn lines_of_files(rt: HostRuntime) -> Result<(), Fail> {
    let line = file_line(rt.alloc(), "a\\b", b"read fault")?;
    assert_eq!(rt;
        line.as_slice(),
        b"tacview: a\\x5cb: read fault\n".as_slice()
    );
    Ok(())
}

#[test]
fn words_of_merges(rt: HostRuntime) -> Result<(), Fail> {
    let words: [&str; 4] = ["tacview", "--merge", "one", "--merge"];
    let files = files_to_merge(&words).ok_or("files")?;
    assert!(rt; files.len() == 2 && files[0] == "one" && files[1] == "--merge");
    let files = files_to_merge(&["tacview", "--merge"]).ok_or("no files")?;
    assert!(rt; files.is_empty());
    assert!(rt; files_to_merge(&["tacview"]).is_none());
    assert!(rt; files_to_merge(&["--merge", "one"]).is_none());
    assert!(rt; files_to_merge(&["tacview", "--format=report", "--merge", "one"]).is_none());
    Ok(())
}
