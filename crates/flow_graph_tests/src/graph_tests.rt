use crate::answers::{Question, Row, check_rows};
use std::test::Fail;
use test_support::worked_programs::{no_end, recursion};

const THREE_CALLEES: &str =
    "proc main\ncall p | q | r\ncall q | p\nend\nproc p\nend\nproc q\nend\nproc r\nend\n";

const JUMPS: &str =
    "proc q\nreturn\nskip\nend\nproc main\nif x goto L\nL: if x < 1 goto M\nskip\nM: ifFalse x goto L\ngoto L\nend\n";

const EXPRESSIONS: &str =
    "proc main\nz = a + b\nz = b + a\nz = -a\nz = 0 - a\nz = a - 007\nz = a - 7\nread b\nend\n";

/// Programs, what is asked of their graphs, and the answers.
const GRAPHS: &[Row] = &[
    (recursion::TEXT, Question::Edges, recursion::EDGES),
    (
        THREE_CALLEES,
        Question::Edges,
        "0: call 0-3 at 0 call 0-4 at 0 call 0-5 at 0\n1: call 1-4 at 1 call 1-3 at 1\n2:\n\
        3: return 3-1 at 0 return 3-2 at 1\n4: return 4-1 at 0 return 4-2 at 1\n5: return 5-1 at 0\n",
    ),
    (
        JUMPS,
        Question::Edges,
        "0: 0-2\n1: 1-2\n2:\n3: 3-4\n4: 4-5 4-6\n5: 5-6\n6: 6-7 6-4\n7: 7-4\n8:\n",
    ),
    (
        recursion::TEXT,
        Question::Points,
        "0: 0 of 0, line 2\n1: 1 of 0, line 3\n2: 2 of 0, line 4\n3: 3 of 0\n4: 0 of 1, line 7\n\
        5: 1 of 1, line 8\n6: 2 of 1, line 9\n7: 3 of 1\n0 from 0\n1 from 4\n",
    ),
    (
        EXPRESSIONS,
        Question::Numbers,
        "3 variables\n0: 0 None\n1: 1 None\n2: 2 None\n3: 0 Some(0)\n4: 0 Some(1)\n5: 0 Some(2)\n\
        6: 0 Some(3)\n7: 0 Some(4)\n8: 0 Some(5)\n9: 2 Some(6)\n\
        0: Binary(Variable(1), Plus, Variable(2))\n1: Binary(Variable(2), Plus, Variable(1))\n\
        2: Unary(Minus, Variable(1))\n3: Binary(Number(0), Minus, Variable(1))\n\
        4: Binary(Variable(1), Minus, Number(7))\n5 very busy\n0: Some(0)\n1: Some(1)\n2: Some(2)\n\
        3: Some(3)\n4: Some(4)\n5: Some(4)\n6: None\n7: None\n",
    ),
    (no_end::TEXT, Question::LeadsTo(&[3, 4]), " 0 1 3 4"),
    (no_end::TEXT, Question::LeadsTo(&[5]), " 0 1 2 5"),
    (no_end::TEXT, Question::LeadsTo(&[]), ""),
    (recursion::TEXT, Question::LeadsTo(&[2]), " 0 1 2 4 5 6 7"),
];

#[test]
fn edges_points_and_numbers(rt: HostRuntime) -> Result<(), Fail> {
    check_rows(&rt, GRAPHS)
}
