// Tables at some points: there as the table of all points, and before them without a path or a bit.

use crate::questions::{Question, check};
use flow_graph::{Analysis, Graph};
use flow_team::{OpenGate, OutOfMemory, Team, table_at};
use std::alloc::Global;
use std::process::Abort;
use std::test::Fail;
use std::thread::Threads;
use team_probes::{RECURSIVE_REACH, lines_before};
use test_support::worked_programs::{callee_loops, no_end, recursion};

/// An analysis at the points from one on and before another, by so many workers.
#[derive(Clone, Copy)]
pub struct Excerpt {
    pub analysis: Analysis,
    pub from: u32,
    pub until: u32,
    pub workers: u32,
}

/// The lines of its table; none where there are no such points, or memory is refused.
pub fn lines_of_excerpt<R: Threads + Sync>(
    rt: &R,
    alloc: Global,
    graph: &Graph<'_>,
    excerpt: Excerpt,
) -> Result<Option<String>, OutOfMemory> {
    if excerpt.until < excerpt.from || graph.points() < excerpt.until {
        return Ok(None);
    }
    let team = Team {
        rt,
        gate: &OpenGate,
        workers: excerpt.workers.clamp(1, 64),
        cut: 1,
    };
    let Ok(table) = table_at(
        &team,
        alloc,
        graph,
        excerpt.analysis,
        excerpt.from,
        excerpt.until,
    ) else {
        return Ok(None);
    };
    Ok(Some(lines_before(alloc, graph, &table, excerpt.until)?))
}

impl Question for Excerpt {
    fn answer<R: Threads + Sync + Abort>(
        &self,
        rt: &R,
        alloc: Global,
        graph: &Graph<'_>,
    ) -> Result<String, Fail> {
        match lines_of_excerpt(rt, alloc, graph, *self)? {
            Some(lines) => Ok(lines),
            None => Err(Fail::new("no such points")),
        }
    }
}

/// The end of `recursion`'s table of reaching definitions.
pub const RECURSIVE_REACH_BEHIND: &str =
    "0 (no path):\n1 (no path):\n2 (no path):\n3 (no path):\n4: 1\n5: 1\n6: 1 2\n7: 1 2\n";

/// Programs, points from one on and before another, and the lines of the table there.
const EXCERPTS: &[(&str, Analysis, u32, u32, &str)] = &[
    (recursion::TEXT, Analysis::Reach, 0, 8, RECURSIVE_REACH),
    (
        recursion::TEXT,
        Analysis::Reach,
        4,
        8,
        RECURSIVE_REACH_BEHIND,
    ),
    (
        recursion::TEXT,
        Analysis::Reach,
        1,
        3,
        "0 (no path):\n1: 1\n2: 1 2\n",
    ),
    (
        recursion::TEXT,
        Analysis::Reach,
        2,
        2,
        "0 (no path):\n1 (no path):\n",
    ),
    (
        callee_loops::TEXT,
        Analysis::Avail,
        1,
        3,
        "0 (no path):\n1 (no path): 0\n2 (no path): 0\n",
    ),
    (
        callee_loops::TEXT,
        Analysis::Busy,
        1,
        5,
        "0 (no path):\n1: 0\n2:\n3 (no path): 0\n4: 0\n",
    ),
    (
        no_end::TEXT,
        Analysis::Live,
        1,
        4,
        "0 (no path):\n1: 1\n2:\n3 (no path):\n",
    ),
];

#[test]
fn tables_at_some_points(rt: HostRuntime) -> Result<(), Fail> {
    for (text, analysis, from, until, want) in EXCERPTS {
        for workers in [1, 3] {
            let excerpt = Excerpt {
                analysis: *analysis,
                from: *from,
                until: *until,
                workers,
            };
            check(&rt, text, &excerpt, want, (*from, workers))?;
        }
    }
    Ok(())
}
