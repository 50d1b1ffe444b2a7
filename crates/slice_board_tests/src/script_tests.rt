use crate::scripts::Step::{Claim, Finish, Look, Post};
use crate::scripts::Who::{First, Second};
use crate::scripts::{Case, run};
use slice_board::OutOfMemory;

// Bits 0 and 1, a slice each.
const BOTH: Case = Case {
    points: 1,
    bits: 2,
    places: &[1],
    wanted: &[(0, 0), (0, 1)],
    steps: &[
        (First, Claim),
        (Second, Claim),
        (Second, Post(0, 0, 2)),
        (First, Post(0, 0, 1)),
        (First, Look(0, 0)),
        (Second, Finish),
    ],
    joins: true,
    alone: &[],
    last: &[Finish],
};

// The second worker is dropped with its slice, before the first posts.
const DROPPED: Case = Case {
    points: 1,
    bits: 2,
    places: &[1],
    wanted: &[(0, 0), (0, 1)],
    steps: &[(First, Claim), (Second, Claim)],
    joins: false,
    alone: &[Post(0, 0, 1), Finish, Claim],
    last: &[],
};

// It is dropped with its slice, of which all was posted.
const DROPPED_BEHIND_ALL: Case = Case {
    points: 1,
    bits: 2,
    places: &[1],
    wanted: &[(0, 0), (0, 1)],
    steps: &[(First, Claim), (Second, Claim), (Second, Post(0, 0, 2))],
    joins: false,
    alone: &[Post(0, 0, 1), Look(0, 0), Finish, Claim],
    last: &[],
};

// A slice is finished only where all of it was posted, and only that is posted which is wanted.
const TOO_EARLY: Case = Case {
    points: 1,
    bits: 2,
    places: &[1],
    wanted: &[(0, 0), (0, 1)],
    steps: &[
        (First, Claim),
        (First, Finish),
        (First, Post(0, 0, 4)),
        (First, Look(0, 1)),
        (First, Post(0, 0, 3)),
        (First, Finish),
        (First, Claim),
        (Second, Claim),
    ],
    joins: true,
    alone: &[],
    last: &[Finish],
};

// Slices end within words. The second worker posts after the first.
const FIRST_POSTS_FIRST: Case = Case {
    points: 1,
    bits: 66,
    places: &[1, 64],
    wanted: &[(0, 0), (0, 3), (0, 63), (0, 64)],
    steps: &[
        (First, Claim),
        (Second, Claim),
        (First, Post(0, 0, 1)),
        (First, Look(0, 0)),
        (Second, Post(0, 0, 9_223_372_036_854_775_816)),
        (First, Look(0, 0)),
        (Second, Finish),
        (Second, Claim),
        (First, Finish),
        (First, Claim),
        (Second, Post(0, 1, 1)),
        (First, Look(0, 1)),
        (Second, Finish),
    ],
    joins: true,
    alone: &[],
    last: &[],
};

// It posts before the first.
const SECOND_POSTS_FIRST: Case = Case {
    points: 1,
    bits: 66,
    places: &[1, 64],
    wanted: &[(0, 0), (0, 3), (0, 63), (0, 64)],
    steps: &[
        (First, Claim),
        (Second, Claim),
        (Second, Post(0, 0, 9_223_372_036_854_775_816)),
        (First, Look(0, 0)),
        (First, Post(0, 0, 1)),
        (First, Look(0, 0)),
        (Second, Finish),
        (Second, Claim),
        (First, Finish),
        (First, Claim),
        (Second, Post(0, 1, 1)),
        (First, Look(0, 1)),
        (Second, Finish),
    ],
    joins: true,
    alone: &[],
    last: &[],
};

// It posts before the first and after it.
const POSTS_IN_TURN: Case = Case {
    points: 1,
    bits: 66,
    places: &[1, 64],
    wanted: &[(0, 0), (0, 3), (0, 63), (0, 64)],
    steps: &[
        (First, Claim),
        (Second, Claim),
        (Second, Post(0, 0, 8)),
        (First, Look(0, 0)),
        (First, Post(0, 0, 1)),
        (First, Look(0, 0)),
        (Second, Post(0, 0, 9_223_372_036_854_775_808)),
        (First, Look(0, 0)),
        (Second, Finish),
        (Second, Claim),
        (First, Finish),
        (First, Claim),
        (Second, Post(0, 1, 1)),
        (First, Look(0, 1)),
        (Second, Finish),
    ],
    joins: true,
    alone: &[],
    last: &[],
};

const CASES: &[(&Case, &str)] = &[
    (
        &BOTH,
        "claims 0\nclaims 1\nsees 3\nfinishes 1\n1 of 2 finished\nfinishes 0\n0 true: 0 1\n",
    ),
    (
        &DROPPED,
        "claims 0\nclaims 1\nfinishes 0\nclaims none\n1 of 2 finished\n1 of 2 finished\n",
    ),
    (
        &DROPPED_BEHIND_ALL,
        "claims 0\nclaims 1\nsees 3\nfinishes 0\nclaims none\n1 of 2 finished\n1 of 2 finished\n",
    ),
    (
        &TOO_EARLY,
        "claims 0\nfinishes none\nmay not post\nsees nothing\nfinishes 0\nclaims 1\nclaims none\n1 of 2 finished\nfinishes 1\n0 true: 0 1\n",
    ),
    (
        &FIRST_POSTS_FIRST,
        "claims 0\nclaims 1\nsees 1\nsees 9223372036854775817\nfinishes 1\nclaims 2\nfinishes 0\n\
        claims none\nsees 1\nfinishes 2\n0 true: 0 3 63 64\n",
    ),
    (
        &SECOND_POSTS_FIRST,
        "claims 0\nclaims 1\nsees 9223372036854775816\nsees 9223372036854775817\nfinishes 1\nclaims 2\n\
        finishes 0\nclaims none\nsees 1\nfinishes 2\n0 true: 0 3 63 64\n",
    ),
    (
        &POSTS_IN_TURN,
        "claims 0\nclaims 1\nsees 8\nsees 9\nsees 9223372036854775817\nfinishes 1\nclaims 2\n\
        finishes 0\nclaims none\nsees 1\nfinishes 2\n0 true: 0 3 63 64\n",
    ),
];

#[test]
fn what_two_workers_are_told(rt: HostRuntime) -> Result<(), OutOfMemory> {
    for (row, (case, told)) in CASES.iter().enumerate() {
        assert_eq!(rt; run(rt.alloc(), case)?.as_str(), *told, "case {row}");
    }
    Ok(())
}
