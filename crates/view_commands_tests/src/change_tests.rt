// What changes from point to point in small programs, by hand.

use crate::tacview_tests::{ALL, NONE, Queried, REACH, options, run_to_page};
use flow_views::Chosen;
use std::process::Abort;
use std::test::Fail;
use std::thread::Threads;
use tac_program::Limits;
use test_support::failing_streams::blank_page;
use test_support::worked_programs::TEAMS;
use view_words::Format;

// Expressions alone.
const EXPRESSIONS: Chosen = Chosen {
    reach: false,
    live: false,
    avail: true,
    busy: true,
};

pub(crate) const WHOLE: Queried<'static> = Queried {
    limits: Limits::Standard,
    format: Format::JsonChanges,
    facts: ALL,
    procedure: None,
    because: None,
};

const EXPRESSIONS_OF_F: Queried<'static> = Queried {
    limits: Limits::Standard,
    format: Format::JsonChanges,
    facts: EXPRESSIONS,
    procedure: Some("f"),
    because: None,
};

const REACH_OF_MAIN: Queried<'static> = Queried {
    limits: Limits::Standard,
    format: Format::JsonChanges,
    facts: REACH,
    procedure: Some("main"),
    because: None,
};

const REMARKS: Queried<'static> = Queried {
    limits: Limits::Standard,
    format: Format::JsonChanges,
    facts: NONE,
    procedure: None,
    because: None,
};

// A test, from which both ways evaluate `a + b`, in a procedure that is called once.
const BUSY: &str =
    "proc main\nread a\nread b\ncall f\nend\nproc f\nif a goto L\nx = a + b\nL:\ny = a + b\nend\n";

const REMARKS_OF_F: Queried<'static> = Queried {
    limits: Limits::Standard,
    format: Format::JsonChanges,
    facts: NONE,
    procedure: Some("f"),
    because: None,
};

// A loop without a way out, behind one outcome of a test.
const TRAPPED: &str = "proc main\nread a\nif a goto L\ngoto E\nL: goto L\nE: print a\nend\n";

// A procedure that nothing calls, and that never ends: what it calls has a return into it.
const LONELY: &str =
    "proc main\ncall f\nend\nproc f\nskip\nend\nproc lonely\ncall f\nL: goto L\nend\n";

/// A program of one assignment, and all its lines. All that holds at the first point came there.
pub(crate) const ONE: &str = "proc main\nL: x = 1\nend\n";

pub(crate) const LINES_OF_ONE: &str =
    "{\"type\":\"program\",\"version\":1,\"points\":2,\"procedures\":[\"main\"],\"variables\":[\"x\"],\"definitions\":2,\
    \"expressions\":0,\"definition_names\":[\"x@entry\",\"x@2\"],\"expression_names\":[],\"definition_parts\":[{\"variable\":0,\
    \"point\":null},{\"variable\":0,\"point\":0}],\"expression_parts\":[]}\n\
    {\"type\":\"point\",\"point\":0,\"procedure\":\"main\",\"place\":0,\"line\":2,\"first\":14,\"last\":18,\"labels\":[\"L\"],\
    \"statement\":\"x = 1\",\"doubtful\":false,\"leads_to\":null,\"edges\":[{\"kind\":\"step\",\"to\":1}],\"parts\":{\"kind\":\"copy\",\
    \"target\":0,\"operands\":[{\"number\":1}]},\"start\":13,\"end\":18,\"reach\":{\"path\":true,\"came\":[0],\
    \"went\":[],\"behind\":{\"came\":[1],\"went\":[0]}},\"live\":{\"path\":true,\"came\":[],\"went\":[],\"behind\":{\"came\":[],\
    \"went\":[]}},\"avail\":{\"path\":true,\"came\":[],\"went\":[],\"behind\":{\"came\":[],\"went\":[]}},\"busy\":{\"path\":true,\
    \"came\":[],\"went\":[],\"behind\":{\"came\":[],\"went\":[]}}}\n\
    {\"type\":\"point\",\"point\":1,\"procedure\":\"main\",\"place\":1,\"line\":null,\"first\":null,\"last\":null,\"labels\":[],\
    \"statement\":null,\"doubtful\":false,\"leads_to\":null,\
    \"edges\":[],\"parts\":null,\"start\":null,\"end\":null,\"reach\":{\"path\":true,\"came\":[1],\
    \"went\":[0],\"behind\":null},\
    \"live\":{\"path\":true,\"came\":[],\"went\":[],\"behind\":null},\"avail\":{\"path\":true,\"came\":[],\"went\":[],\
    \"behind\":null},\"busy\":{\"path\":true,\"came\":[],\"went\":[],\"behind\":null}}\n\
    {\"type\":\"remark\",\"point\":0,\"line\":2,\"first\":14,\"last\":18,\"kind\":\"dead\",\"variable\":\"x\"}\n\
    {\"type\":\"end\",\"points\":2}\n";

// Texts, and how their lines end: of some texts all lines stand there.
const ENDS: &[(&str, Queried<'static>, &str)] = &[
    (ONE, WHOLE, LINES_OF_ONE),
    // The expression is evaluated on one way to line 10, and is very busy until there. Its remark stands in one line for the test.
    (
        BUSY,
        EXPRESSIONS_OF_F,
        "{\"type\":\"program\",\"version\":1,\"points\":8,\"procedures\":[\"main\",\"f\"],\"variables\":[\"a\",\"b\",\"x\",\"y\"],\
        \"definitions\":8,\"expressions\":1,\"definition_names\":[\"a@entry\",\"b@entry\",\"x@entry\",\"y@entry\",\"a@2\",\"b@3\",\
        \"x@8\",\"y@10\"],\"expression_names\":[\"a + b\"],\"definition_parts\":[{\"variable\":0,\"point\":null},\
        {\"variable\":1,\"point\":null},{\"variable\":2,\"point\":null},{\"variable\":3,\"point\":null},\
        {\"variable\":0,\"point\":0},{\"variable\":1,\"point\":1},{\"variable\":2,\"point\":5},{\"variable\":3,\"point\":6}],\
        \"expression_parts\":[{\"operator\":\"+\",\"operands\":[{\"variable\":0},{\"variable\":1}]}]}\n\
        {\"type\":\"point\",\"point\":4,\"procedure\":\"f\",\"place\":0,\"line\":7,\"first\":43,\"last\":53,\"labels\":[],\
        \"statement\":\"if a goto L\",\"doubtful\":false,\"leads_to\":null,\
        \"edges\":[{\"kind\":\"step\",\"to\":5,\"when\":false},{\"kind\":\"step\",\
        \"to\":6,\"when\":true}],\"parts\":{\"kind\":\"if\",\"operands\":[{\"variable\":0}]},\"start\":42,\"end\":53,\
        \"avail\":{\"path\":true,\"came\":[],\"went\":[],\"behind\":{\"came\":[],\"went\":[]}},\
        \"busy\":{\"path\":true,\"came\":[0],\"went\":[],\"behind\":{\"came\":[],\"went\":[]}}}\n\
        {\"type\":\"point\",\"point\":5,\"procedure\":\"f\",\"place\":1,\"line\":8,\"first\":55,\"last\":63,\"labels\":[],\
        \"statement\":\"x = a + b\",\"doubtful\":false,\"leads_to\":null,\"edges\":[{\"kind\":\"step\",\"to\":6}],\"parts\":{\"kind\":\"binary\",\
        \"target\":2,\"operator\":\"+\",\"operands\":[{\"variable\":0},{\"variable\":1}]},\"start\":54,\"end\":63,\"avail\":{\"path\":true,\
        \"came\":[],\
        \"went\":[],\"behind\":{\"came\":[0],\"went\":[]}},\"busy\":{\"path\":true,\"came\":[],\"went\":[],\"behind\":{\"came\":[],\
        \"went\":[]}}}\n\
        {\"type\":\"point\",\"point\":6,\"procedure\":\"f\",\"place\":2,\"line\":10,\"first\":68,\"last\":76,\"labels\":[\"L\"],\
        \"statement\":\"y = a + b\",\"doubtful\":false,\"leads_to\":null,\"edges\":[{\"kind\":\"step\",\"to\":7}],\"parts\":{\"kind\":\"binary\",\
        \"target\":3,\"operator\":\"+\",\"operands\":[{\"variable\":0},{\"variable\":1}]},\"start\":67,\"end\":76,\"avail\":{\"path\":true,\
        \"came\":[],\
        \"went\":[],\"behind\":{\"came\":[0],\"went\":[]}},\"busy\":{\"path\":true,\"came\":[],\"went\":[],\"behind\":{\"came\":[],\
        \"went\":[0]}}}\n\
        {\"type\":\"point\",\"point\":7,\"procedure\":\"f\",\"place\":3,\"line\":null,\"first\":null,\"last\":null,\"labels\":[],\
        \"statement\":null,\"doubtful\":false,\"leads_to\":null,\"edges\":[{\"kind\":\"return\",\"site\":2,\"to\":3}],\"parts\":null,\"start\":null,\
        \"end\":null,\"avail\":{\"path\":true,\
        \"came\":[0],\"went\":[],\"behind\":null},\"busy\":{\"path\":true,\"came\":[],\"went\":[0],\"behind\":null}}\n\
        {\"type\":\"remark\",\"point\":4,\"line\":7,\"first\":43,\"last\":53,\"kind\":\"busy\",\"expressions\":[0]}\n\
        {\"type\":\"remark\",\"point\":5,\"line\":8,\"first\":55,\"last\":63,\"kind\":\"dead\",\"variable\":\"x\"}\n\
        {\"type\":\"remark\",\"point\":6,\"line\":10,\"first\":68,\"last\":76,\"kind\":\"dead\",\"variable\":\"y\"}\n\
        {\"type\":\"end\",\"points\":4}\n",
    ),
    // A call has no change of its own: what its callee leaves comes at the next point.
    (
        BUSY,
        REACH_OF_MAIN,
        "{\"type\":\"program\",\"version\":1,\"points\":8,\"procedures\":[\"main\",\"f\"],\"variables\":[\"a\",\"b\",\"x\",\"y\"],\
        \"definitions\":8,\"expressions\":1,\"definition_names\":[\"a@entry\",\"b@entry\",\"x@entry\",\"y@entry\",\"a@2\",\"b@3\",\
        \"x@8\",\"y@10\"],\"expression_names\":[\"a + b\"],\"definition_parts\":[{\"variable\":0,\"point\":null},\
        {\"variable\":1,\"point\":null},{\"variable\":2,\"point\":null},{\"variable\":3,\"point\":null},\
        {\"variable\":0,\"point\":0},{\"variable\":1,\"point\":1},{\"variable\":2,\"point\":5},{\"variable\":3,\"point\":6}],\
        \"expression_parts\":[{\"operator\":\"+\",\"operands\":[{\"variable\":0},{\"variable\":1}]}]}\n\
        {\"type\":\"point\",\"point\":0,\"procedure\":\"main\",\"place\":0,\"line\":2,\"first\":11,\"last\":16,\"labels\":[],\
        \"statement\":\"read a\",\"doubtful\":false,\"leads_to\":null,\"edges\":[{\"kind\":\"step\",\"to\":1}],\"parts\":{\"kind\":\"read\",\
        \"target\":0},\"start\":10,\"end\":16,\"reach\":{\"path\":true,\"came\":[0,1,\
        2,3],\"went\":[],\"behind\":{\"came\":[4],\"went\":[0]}}}\n\
        {\"type\":\"point\",\"point\":1,\"procedure\":\"main\",\"place\":1,\"line\":3,\"first\":18,\"last\":23,\"labels\":[],\
        \"statement\":\"read b\",\"doubtful\":false,\"leads_to\":null,\"edges\":[{\"kind\":\"step\",\"to\":2}],\"parts\":{\"kind\":\"read\",\
        \"target\":1},\"start\":17,\"end\":23,\"reach\":{\"path\":true,\"came\":[4],\
        \"went\":[0],\"behind\":{\"came\":[5],\"went\":[1]}}}\n\
        {\"type\":\"point\",\"point\":2,\"procedure\":\"main\",\"place\":2,\"line\":4,\"first\":25,\"last\":30,\"labels\":[],\
        \"statement\":\"call f\",\"doubtful\":false,\"leads_to\":null,\
        \"edges\":[{\"kind\":\"call\",\"site\":2,\"to\":4}],\"parts\":{\"kind\":\"call\",\
        \"callees\":[1]},\"start\":24,\"end\":30,\"reach\":{\"path\":true,\
        \"came\":[5],\"went\":[1],\"behind\":null}}\n\
        {\"type\":\"point\",\"point\":3,\"procedure\":\"main\",\"place\":3,\"line\":null,\"first\":null,\"last\":null,\"labels\":[],\
        \"statement\":null,\"doubtful\":false,\"leads_to\":null,\
        \"edges\":[],\"parts\":null,\"start\":null,\"end\":null,\"reach\":{\"path\":true,\"came\":[6,\
        7],\"went\":[3],\"behind\":null}}\n\
        {\"type\":\"end\",\"points\":4}\n",
    ),
    // What leads to the loop has it as where its doubt comes from, what leads past it none.
    (
        TRAPPED,
        REMARKS,
        "{\"type\":\"point\",\"point\":0,\"procedure\":\"main\",\"place\":0,\"line\":2,\"first\":11,\"last\":16,\"labels\":[],\
        \"statement\":\"read a\",\"doubtful\":true,\"leads_to\":3,\"edges\":[{\"kind\":\"step\",\"to\":1}],\"parts\":{\"kind\":\"read\",\
        \"target\":0},\"start\":10,\"end\":16}\n\
        {\"type\":\"point\",\"point\":1,\"procedure\":\"main\",\"place\":1,\"line\":3,\"first\":18,\"last\":28,\"labels\":[],\
        \"statement\":\"if a goto L\",\"doubtful\":true,\"leads_to\":3,\"edges\":[{\"kind\":\"step\",\"to\":2,\"when\":false},\
        {\"kind\":\"step\",\"to\":3,\"when\":true}],\"parts\":{\"kind\":\"if\",\"operands\":[{\"variable\":0}]},\"start\":17,\
        \"end\":28}\n\
        {\"type\":\"point\",\"point\":2,\"procedure\":\"main\",\"place\":2,\"line\":4,\"first\":30,\"last\":35,\"labels\":[],\
        \"statement\":\"goto E\",\"doubtful\":false,\"leads_to\":null,\"edges\":[{\"kind\":\"step\",\"to\":4}],\
        \"parts\":{\"kind\":\"goto\"},\"start\":29,\"end\":35}\n\
        {\"type\":\"point\",\"point\":3,\"procedure\":\"main\",\"place\":3,\"line\":5,\"first\":40,\"last\":45,\"labels\":[\"L\"],\
        \"statement\":\"goto L\",\"doubtful\":true,\"leads_to\":3,\"edges\":[{\"kind\":\"step\",\"to\":3}],\
        \"parts\":{\"kind\":\"goto\"},\"start\":39,\"end\":45}\n\
        {\"type\":\"point\",\"point\":4,\"procedure\":\"main\",\"place\":4,\"line\":6,\"first\":50,\"last\":56,\"labels\":[\"E\"],\
        \"statement\":\"print a\",\"doubtful\":false,\"leads_to\":null,\"edges\":[{\"kind\":\"step\",\"to\":5}],\
        \"parts\":{\"kind\":\"print\",\"operands\":[{\"variable\":0}]},\"start\":49,\"end\":56}\n\
        {\"type\":\"point\",\"point\":5,\"procedure\":\"main\",\"place\":5,\"line\":null,\"first\":null,\"last\":null,\"labels\":[],\
        \"statement\":null,\"doubtful\":false,\"leads_to\":null,\"edges\":[],\"parts\":null,\"start\":null,\"end\":null}\n\
        {\"type\":\"end\",\"points\":6}\n",
    ),
    // Doubt goes back over each return, also into a procedure that is not shown.
    (
        LONELY,
        REMARKS_OF_F,
        "{\"type\":\"point\",\"point\":2,\"procedure\":\"f\",\"place\":0,\"line\":5,\"first\":29,\"last\":32,\"labels\":[],\
        \"statement\":\"skip\",\"doubtful\":true,\"leads_to\":5,\"edges\":[{\"kind\":\"step\",\"to\":3}],\"parts\":{\"kind\":\"skip\"},\
        \"start\":28,\"end\":32}\n\
        {\"type\":\"point\",\"point\":3,\"procedure\":\"f\",\"place\":1,\"line\":null,\"first\":null,\"last\":null,\"labels\":[],\
        \"statement\":null,\"doubtful\":true,\"leads_to\":5,\"edges\":[{\"kind\":\"return\",\"site\":0,\"to\":1},{\"kind\":\"return\",\
        \"site\":4,\"to\":5}],\"parts\":null,\"start\":null,\"end\":null}\n\
        {\"type\":\"end\",\"points\":2}\n",
    ),
    // Without facts each remark has a line of its own.
    (
        BUSY,
        REMARKS,
        "{\"type\":\"remark\",\"point\":4,\"line\":7,\"first\":43,\"last\":53,\"kind\":\"busy\",\"expression\":\"a + b\"}\n\
        {\"type\":\"remark\",\"point\":5,\"line\":8,\"first\":55,\"last\":63,\"kind\":\"dead\",\"variable\":\"x\"}\n\
        {\"type\":\"remark\",\"point\":6,\"line\":10,\"first\":68,\"last\":76,\"kind\":\"dead\",\"variable\":\"y\"}\n\
        {\"type\":\"end\",\"points\":8}\n",
    ),
];

// Whether the lines of a text end so, by a team.
fn ends_so<R: Threads + Sync + Abort + AllocGlobal>(
    rt: &R,
    text: &str,
    queried: Queried<'_>,
    team: (u32, u32),
    end: &str,
) -> Result<bool, Fail> {
    let options = options(rt.alloc(), queried, team).ok_or("options")?;
    let mut page = blank_page(rt.alloc());
    let answered = run_to_page(rt, text.as_bytes(), &mut page, &options);
    Ok(answered.is_ok() && page.taken.as_slice().ends_with(end.as_bytes()))
}

#[test]
fn changes_of_sets(rt: HostRuntime) -> Result<(), Fail> {
    for (text, queried, end) in ENDS {
        for team in TEAMS {
            assert!(rt; ends_so(&rt, text, *queried, *team, end)?);
        }
    }
    Ok(())
}
