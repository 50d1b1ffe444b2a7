// What is told of worked programs, each followed by hand from point to point.

use crate::texts::{Row, check_rows};
use std::test::Fail;

// Procedures that nobody calls: each is told once, and none takes a dead assignment away.
const UNCALLED: &[Row] = &[
    (
        "proc main\nx = 1\ncall p\nend\nproc p\nskip\nend\nproc q\ncall p\nL: goto L\nend\n",
        "0:dead 0;5:uncalled 2;left out 0;endless none",
    ),
    (
        "proc main\nx = 1\ncall p\nend\nproc p\nskip\nend\nproc q\nx = 2\ncall p\nend\n",
        "0:dead 0;5:uncalled 2;left out 0;endless none",
    ),
    (
        "proc main\nskip\nend\nproc a\ncall b\nend\nproc b\ncall a\nprint x\nend\n",
        "2:uncalled 1;4:uncalled 2;left out 0;endless none",
    ),
    (
        "proc main\nend\nproc q\nend\n",
        "1:uncalled 1;left out 0;endless none",
    ),
];

// Statements that are never reached: of a stretch the first one is told.
const UNREACHED: &[Row] = &[
    (
        "proc main\nx = 1\nreturn\nprint x\nx = 2\nend\n",
        "0:dead 0;2:unreached;left out 0;endless none",
    ),
    (
        "proc main\ngoto L\nskip\nL: skip\ngoto M\nskip\nskip\nM:\nend\n",
        "1:unreached;4:unreached;left out 0;endless none",
    ),
    (
        "proc main\nx = 1\ncall p\nreturn\ncall p\nL: goto L\nend\nproc p\nskip\nend\n",
        "0:dead 0;3:unreached;left out 0;endless none",
    ),
    (
        "proc main\nreturn\ncall q\nend\nproc q\nskip\nend\n",
        "1:unreached;3:uncalled 1;left out 0;endless none",
    ),
];

// What executions reach and where they may never end: an assignment before it is not told to be dead.
const ENDLESS: &[Row] = &[
    (
        "proc main\nx = 1\nif c goto L\nreturn\nL: print x\ngoto L\nend\n",
        "1:unset 1;left out 1;endless 3",
    ),
    (
        "proc main\nx = 1\ncall f\nprint x\nend\nproc f\nL: goto L\nend\n",
        "2:unreached;left out 1;endless 0",
    ),
    (
        "proc main\nx = 1\nprint x\nL: x = 2\ngoto L\nend\n",
        "left out 2;endless 0",
    ),
];

// The report's remarks but for dead assignments are told as they are.
const REMARKS: &[Row] = &[
    (
        "proc main\nread a\nread b\nx=a+b\ny=a+b\nif x<y goto L\nz=a*b\ngoto M\nL: z=a*b\nx=0\nM: print z\nprint n\nreturn\nprint y\nend\n",
        "3:computed 0;4:busy 1;8:dead 2;10:unset 5;12:unreached;left out 0;endless none",
    ),
    (
        "proc main\nx = 1\nx = 2\nprint x\nend\n",
        "0:dead 0;left out 0;endless none",
    ),
];

#[test]
fn procedures_that_nobody_calls(rt: HostRuntime) -> Result<(), Fail> {
    check_rows(&rt, UNCALLED)
}

#[test]
fn stretches_that_are_never_reached(rt: HostRuntime) -> Result<(), Fail> {
    check_rows(&rt, UNREACHED)
}

#[test]
fn loops_that_are_reached(rt: HostRuntime) -> Result<(), Fail> {
    check_rows(&rt, ENDLESS)
}

#[test]
fn remarks_of_the_report(rt: HostRuntime) -> Result<(), Fail> {
    check_rows(&rt, REMARKS)
}
