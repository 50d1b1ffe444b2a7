// Paths of small programs, and what stands around their remarks, by hand.

use crate::tacview_tests::{NONE, Queried, options, run_to_page};
use std::process::Abort;
use std::test::Fail;
use std::thread::Threads;
use tac_program::Limits;
use test_support::failing_streams::blank_page;
use test_support::worked_programs::TEAMS;
use view_words::Format;

const PATHS: Queried<'static> = Queried {
    limits: Limits::Standard,
    format: Format::JsonPaths,
    facts: NONE,
    procedure: None,
    because: None,
};

const PATHS_OF_F: Queried<'static> = Queried {
    limits: Limits::Standard,
    format: Format::JsonPaths,
    facts: NONE,
    procedure: Some("f"),
    because: None,
};

// Texts, and how their lines end: the edges of the last point, all remarks, the doubts, and the last line.
const ENDS: &[(&str, Queried<'static>, &str)] = &[
    // A procedure that calls itself: it is passed as a whole, and it is entered.
    (
        "proc main\ncall f\nprint x\nend\nproc f\nif y goto L\ncall f\nL:\nend\n",
        PATHS,
        "\"edges\":[{\"kind\":\"return\",\"site\":0,\"to\":1},{\"kind\":\"return\",\"site\":4,\"to\":5}]}\n\
        {\"type\":\"remark\",\"point\":1,\"line\":3,\"first\":18,\"last\":24,\"kind\":\"unset\",\"variable\":\"x\",\
        \"path\":[{\"kind\":\"pass\",\"site\":0,\"callee\":1,\"from\":0,\"to\":1}]}\n\
        {\"type\":\"remark\",\"point\":3,\"line\":6,\"first\":37,\"last\":47,\"kind\":\"unset\",\"variable\":\"y\",\
        \"path\":[{\"kind\":\"enter\",\"site\":0,\"from\":0,\"to\":3}]}\n\
        {\"type\":\"end\",\"points\":6}\n",
    ),
    // Of two callees one sets the variable: the other is passed.
    (
        "proc main\ncall f | g\nprint x\nend\nproc f\nx = 1\nend\nproc g\nend\n",
        PATHS,
        "\"edges\":[{\"kind\":\"return\",\"site\":0,\"to\":1}]}\n\
        {\"type\":\"remark\",\"point\":1,\"line\":3,\"first\":22,\"last\":28,\"kind\":\"unset\",\"variable\":\"x\",\
        \"path\":[{\"kind\":\"pass\",\"site\":0,\"callee\":2,\"from\":0,\"to\":1}]}\n\
        {\"type\":\"end\",\"points\":6}\n",
    ),
    // A loop that sets the variable: its test leads past it. At the entry of `main` a path has no hop.
    (
        "proc main\nL:\nif y goto M\nx = 1\ngoto L\nM:\nprint x\nend\n",
        PATHS,
        "\"edges\":[]}\n\
        {\"type\":\"remark\",\"point\":0,\"line\":3,\"first\":14,\"last\":24,\"kind\":\"unset\",\"variable\":\"y\",\"path\":[]}\n\
        {\"type\":\"remark\",\"point\":3,\"line\":7,\"first\":42,\"last\":48,\"kind\":\"unset\",\"variable\":\"x\",\
        \"path\":[{\"kind\":\"step\",\"from\":0,\"to\":3}]}\n\
        {\"type\":\"end\",\"points\":5}\n",
    ),
    // A call is passed, the next one is entered, and the test leads on.
    (
        "proc main\ncall f | g\ncall h\nend\nproc f\nx = 1\nend\nproc g\nend\nproc h\nL:\nif y goto L\nprint x\nend\n",
        PATHS,
        "\"edges\":[{\"kind\":\"return\",\"site\":1,\"to\":2}]}\n\
        {\"type\":\"remark\",\"point\":6,\"line\":12,\"first\":71,\"last\":81,\"kind\":\"unset\",\"variable\":\"y\",\
        \"path\":[{\"kind\":\"pass\",\"site\":0,\"callee\":2,\"from\":0,\"to\":1},{\"kind\":\"enter\",\"site\":1,\"from\":1,\
        \"to\":6}]}\n\
        {\"type\":\"remark\",\"point\":7,\"line\":13,\"first\":83,\"last\":89,\"kind\":\"unset\",\"variable\":\"x\",\
        \"path\":[{\"kind\":\"pass\",\"site\":0,\"callee\":2,\"from\":0,\"to\":1},{\"kind\":\"enter\",\"site\":1,\"from\":1,\
        \"to\":6},{\"kind\":\"step\",\"from\":6,\"to\":7}]}\n\
        {\"type\":\"end\",\"points\":9}\n",
    ),
    // The writes that overwrite a dead assignment.
    (
        "proc main\nx = 1\nif y goto L\nx = 2\ngoto M\nL:\nx = 3\nM:\nprint x\nend\n",
        PATHS,
        "\"edges\":[]}\n\
        {\"type\":\"remark\",\"point\":0,\"line\":2,\"first\":11,\"last\":15,\"kind\":\"dead\",\"variable\":\"x\",\
        \"next_writes\":[2,4],\"may_end_unwritten\":false}\n\
        {\"type\":\"remark\",\"point\":1,\"line\":3,\"first\":17,\"last\":27,\"kind\":\"unset\",\"variable\":\"y\",\
        \"path\":[{\"kind\":\"step\",\"from\":0,\"to\":1}]}\n\
        {\"type\":\"end\",\"points\":7}\n",
    ),
    // Evaluations that are met first and last, and who holds the value: `x` on both ways, `y` on one.
    (
        "proc main\nread a\nread b\nif a goto L\nx = a + b\ngoto M\nL:\ny = a + b\nx = a + b\nM:\nz = a + b\nprint z\nprint x\nend\n",
        PATHS,
        "\"edges\":[]}\n\
        {\"type\":\"remark\",\"point\":2,\"line\":4,\"first\":25,\"last\":35,\"kind\":\"busy\",\"expression\":\"a + b\",\
        \"next_evaluations\":[3,5]}\n\
        {\"type\":\"remark\",\"point\":5,\"line\":8,\"first\":57,\"last\":65,\"kind\":\"dead\",\"variable\":\"y\",\
        \"next_writes\":[],\"may_end_unwritten\":true}\n\
        {\"type\":\"remark\",\"point\":6,\"line\":9,\"first\":67,\"last\":75,\"kind\":\"computed\",\"expression\":\"a + b\",\
        \"last_evaluations\":[5],\"holders\":[\"y\"]}\n\
        {\"type\":\"remark\",\"point\":7,\"line\":11,\"first\":80,\"last\":88,\"kind\":\"computed\",\
        \"expression\":\"a + b\",\"last_evaluations\":[3,6],\"holders\":[\"x\"]}\n\
        {\"type\":\"end\",\"points\":11}\n",
    ),
    // A call that never comes back: lines behind it are never reached, and doubt begins at it.
    (
        "proc main\nx = 1\ncall f\ngoto E\ny = 2\nE:\nend\nproc f\nL:\ngoto L\nend\n",
        PATHS,
        "\"edges\":[{\"kind\":\"return\",\"site\":1,\"to\":2}]}\n\
        {\"type\":\"remark\",\"point\":2,\"line\":4,\"first\":24,\"last\":29,\"kind\":\"never_reached\",\"last_reached\":1,\
        \"edges\":[{\"kind\":\"call\",\"site\":1,\"to\":5}]}\n\
        {\"type\":\"remark\",\"point\":3,\"line\":5,\"first\":31,\"last\":35,\"kind\":\"never_reached\",\"last_reached\":1,\
        \"edges\":[{\"kind\":\"call\",\"site\":1,\"to\":5}]}\n\
        {\"type\":\"doubt\",\"point\":0,\"line\":2,\"variable\":\"x\",\"doubt\":1}\n\
        {\"type\":\"end\",\"points\":7}\n",
    ),
    // A procedure that nothing calls: no line before it is reached.
    (
        "proc main\nend\nproc g\nprint 1\nend\n",
        PATHS,
        "\"edges\":[]}\n\
        {\"type\":\"remark\",\"point\":1,\"line\":4,\"first\":22,\"last\":28,\"kind\":\"never_reached\",\
        \"last_reached\":null,\"edges\":[]}\n\
        {\"type\":\"end\",\"points\":3}\n",
    ),
    // Of one procedure, the remarks on it.
    (
        "proc main\ncall f\nprint x\nend\nproc f\nif y goto L\ncall f\nL:\nend\n",
        PATHS_OF_F,
        "\"edges\":[{\"kind\":\"return\",\"site\":0,\"to\":1},{\"kind\":\"return\",\"site\":4,\"to\":5}]}\n\
        {\"type\":\"remark\",\"point\":3,\"line\":6,\"first\":37,\"last\":47,\"kind\":\"unset\",\"variable\":\"y\",\
        \"path\":[{\"kind\":\"enter\",\"site\":0,\"from\":0,\"to\":3}]}\n\
        {\"type\":\"end\",\"points\":3}\n",
    ),
];

// Whether the lines of a text end so, by a team.
fn ends_so<R: Threads + Sync + Abort + AllocGlobal>(
    rt: &R,
    text: &str,
    queried: Queried<'_>,
    team: (u32, u32),
    end: &str,
) -> Result<bool, Fail> {
    let options = options(rt.alloc(), queried, team).ok_or("options")?;
    let mut page = blank_page(rt.alloc());
    let answered = run_to_page(rt, text.as_bytes(), &mut page, &options);
    Ok(answered.is_ok() && page.taken.as_slice().ends_with(end.as_bytes()))
}

#[test]
fn paths_of_remarks(rt: HostRuntime) -> Result<(), Fail> {
    for (text, queried, end) in ENDS {
        for team in TEAMS {
            assert!(rt; ends_so(&rt, text, *queried, *team, end)?);
        }
    }
    Ok(())
}
