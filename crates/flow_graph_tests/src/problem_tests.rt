use crate::answers::{Question, Row, check_rows};
use flow_graph::Analysis;
use std::test::Fail;
use test_support::worked_programs::adds_to_itself;

/// A statement of each kind.
const EACH_KIND: &str =
    "proc main\nx = y\nx = -y\nx = x + y\nx = 1 + 2\nread x\nprint x\nif x goto L\nif x < y goto L\n\
    ifFalse y goto L\ngoto L\ncall main\nskip\nreturn\nL:\nend\n";

const CALLS_MAIN: &str =
    "proc main\nif a goto L\na = 1\ncall main\nL: print a\nend\nproc unused\nend\n";

/// Programs, what is asked of their may forms, and the answers.
const MAY_FORMS: &[Row] = &[
    (
        adds_to_itself::TEXT,
        Question::Frame(Analysis::Reach),
        "Forward, complements false\nroot 0\n0: 0 to 1\n 0 0\n 0-1",
    ),
    (
        adds_to_itself::TEXT,
        Question::Frame(Analysis::Live),
        "Backward, complements false\nroot 0\n0: 1 to 0\n 0 0\n 1-0",
    ),
    (
        adds_to_itself::TEXT,
        Question::Frame(Analysis::Avail),
        "Forward, complements true\nroot 0\n0: 0 to 1\n 0 0\n 0-1",
    ),
    (
        adds_to_itself::TEXT,
        Question::Frame(Analysis::Busy),
        "Backward, complements true\nroot 0\n0: 1 to 0\n 0 0\n 1-0",
    ),
    (
        adds_to_itself::TEXT,
        Question::Sets(Analysis::Reach),
        "begins 0 1 0=3\n0: gens 2 0=4, kills 0 0=1\n1: gens, kills\n",
    ),
    (
        adds_to_itself::TEXT,
        Question::Sets(Analysis::Live),
        "begins\n0: gens 0 1 0=3, kills 0 0=1\n1: gens, kills\n",
    ),
    (
        adds_to_itself::TEXT,
        Question::Sets(Analysis::Avail),
        "begins 0 0=1\n0: gens 0 0=1, kills\n1: gens, kills\n",
    ),
    (
        adds_to_itself::TEXT,
        Question::Sets(Analysis::Busy),
        "begins 0 0=1\n0: gens, kills 0 0=1\n1: gens, kills\n",
    ),
    (
        CALLS_MAIN,
        Question::Frame(Analysis::Live),
        "Backward, complements false\nroot 0\n0: 4 to 0\n1: 5 to 5\n 0 0 0 0 0 1\n 1-0 3-0 2-1 return 0-2 at 2 4-3 call 3-4 at 2",
    ),
    (
        EACH_KIND,
        Question::Sets(Analysis::Reach),
        "begins 0 1 0=3\n0: gens 2 0=4, kills 0 3 4 5 6 0=79\n1: gens 3 0=8, kills 0 2 4 5 6 0=75\n\
        2: gens 4 0=10, kills 0 2 3 5 6 0=6d\n3: gens 5 0=20, kills 0 2 3 4 6 0=5d\n\
        4: gens 6 0=40, kills 0 2 3 4 5 0=3d\n5: gens, kills\n6: gens, kills\n7: gens, kills\n\
        8: gens, kills\n9: gens, kills\n10: gens, kills\n11: gens, kills\n12: gens, kills\n13: gens, kills\n",
    ),
    (
        EACH_KIND,
        Question::Sets(Analysis::Live),
        "begins\n0: gens 1 0=2, kills 0 0=1\n1: gens 1 0=2, kills 0 0=1\n2: gens 0 1 0=3, kills 0 0=1\n\
        3: gens, kills 0 0=1\n4: gens, kills 0 0=1\n5: gens 0 0=1, kills\n6: gens 0 0=1, kills\n\
        7: gens 0 1 0=3, kills\n8: gens 1 0=2, kills\n9: gens, kills\n10: gens, kills\n11: gens, kills\n12: gens, kills\n13: gens, kills\n",
    ),
    (
        EACH_KIND,
        Question::Sets(Analysis::Avail),
        "begins 0 1 2 0=7\n0: gens 1 0=2, kills\n1: gens 1 0=2, kills 0 0=1\n2: gens 1 0=2, kills\n\
        3: gens 1 0=2, kills 2 0=4\n4: gens 1 0=2, kills\n5: gens, kills\n6: gens, kills\n\
        7: gens, kills\n8: gens, kills\n9: gens, kills\n10: gens, kills\n11: gens, kills\n12: gens, kills\n13: gens, kills\n",
    ),
    (
        EACH_KIND,
        Question::Sets(Analysis::Busy),
        "begins 0 1 2 0=7\n0: gens 1 0=2, kills\n1: gens 1 0=2, kills 0 0=1\n2: gens, kills 1 0=2\n\
        3: gens 1 0=2, kills 2 0=4\n4: gens 1 0=2, kills\n5: gens, kills\n6: gens, kills\n\
        7: gens, kills\n8: gens, kills\n9: gens, kills\n10: gens, kills\n11: gens, kills\n12: gens, kills\n13: gens, kills\n",
    ),
];

/// Of the rows above the bits of odd number: bit 1 is column 0, bit 3 column 1.
const CHOSEN: &[Row] = &[
    (
        EACH_KIND,
        Question::SetsOfOdd(Analysis::Reach),
        "begins 0 0=1\n0: gens, kills 1 2 0=6\n1: gens 1 0=2, kills 2 0=4\n\
        2: gens, kills 1 2 0=6\n3: gens 2 0=4, kills 1 0=2\n\
        4: gens, kills 1 2 0=6\n5: gens, kills\n6: gens, kills\n7: gens, kills\n\
        8: gens, kills\n9: gens, kills\n10: gens, kills\n11: gens, kills\n12: gens, kills\n13: gens, kills\n",
    ),
    (
        EACH_KIND,
        Question::SetsOfOdd(Analysis::Avail),
        "begins 0 0=1\n0: gens 0 0=1, kills\n1: gens 0 0=1, kills\n2: gens 0 0=1, kills\n\
        3: gens 0 0=1, kills\n4: gens 0 0=1, kills\n5: gens, kills\n6: gens, kills\n\
        7: gens, kills\n8: gens, kills\n9: gens, kills\n10: gens, kills\n11: gens, kills\n12: gens, kills\n13: gens, kills\n",
    ),
    (
        CALLS_MAIN,
        Question::SetsOfOdd(Analysis::Live),
        "begins\n0: gens, kills\n1: gens, kills\n2: gens, kills\n3: gens, kills\n4: gens, kills\n5: gens, kills\n",
    ),
];

#[test]
fn chosen_bits(rt: HostRuntime) -> Result<(), Fail> {
    check_rows(&rt, CHOSEN)
}

#[test]
fn may_forms(rt: HostRuntime) -> Result<(), Fail> {
    check_rows(&rt, MAY_FORMS)
}
