// The solution's words at each point, of a group.
ghost use Rattle.std.specs.Prelude.{◌≡◌, ◌+◌, ◌<◌, length};
ghost use Rattle.flow_graph.specs.Points.{point_count};
ghost use Rattle.flow_links.specs.Shapes.{directed_shape};
ghost use Rattle.gk_solve.specs.Tables.Brought.{AreExactBrought};
ghost use Rattle.gk_solve.specs.Tables.Groups.{AreCompleteSummaries, AreSoundSummaries, IsGroupFrame, group_of};
ghost use Rattle.gk_solve.specs.Tables.Solutions.{AreInSlice, AreSliceSolutions, IsSolutionAt};

use crate::bring::brought;
use crate::group::preserved_and_generated;
use crate::group_frame::GroupFrame;
use crate::lanes::{common_words, new_or_preserved};
use crate::summary::Summary;
use bit_rows::word_within;
use worklist::Worklist;

// The bits of a group's words that lie within `lo..hi`.
fn words_within<const W: usize>(frame: &GroupFrame, lo: u32, hi: u32) -> [u64; W]
    requires { IsGroupFrame W frame.now }
    ensures { AreInSlice W frame.now.first lo hi result }
{
    let mut words = [0; W];
    for w in 0..W {
        words[w] = word_within(lo, hi, frame.first + w as u32);
    }
    words
}

// The solution's words at a point, as far as they lie within a slice, in the place of what is generated. What is preserved stays, so that it need
// not be written.
#[inline(always)]
fn solution_at<const W: usize>(
    frame: &GroupFrame,
    here: Summary<W>,
    brought: [u64; W],
    within: [u64; W],
    point: u32,
) -> Summary<W>
    requires frame { IsGroupFrame W frame.now }
    requires inside { point < point_count frame.now.links.now.program }
    ensures { IsSolutionAt (group_of frame.now W) frame.now.paths.now point
        here.entry.preserved here.entry.generated brought.entry within.entry result.generated }
{
    let preserved = here.preserved;
    if !frame.paths[point as usize] {
        return Summary {
            preserved,
            generated: [0; W],
        };
    }
    let all = new_or_preserved(here.generated, brought, preserved);
    Summary {
        preserved,
        generated: common_words(all, within),
    }
}

// Puts the solution's words in the place of what is generated.
fn put_solutions<const W: usize>(
    frame: &GroupFrame,
    table: &mut [Summary<W>],
    brought: &[[u64; W]],
    lo: u32,
    hi: u32,
)
    requires frame { IsGroupFrame W frame.now }
    requires count { length table.now ≡ point_count frame.now.links.now.program }
    requires sound { AreSoundSummaries (group_of frame.now W) table.now }
    requires complete { AreCompleteSummaries (group_of frame.now W) table.now }
    requires procedures { length brought.now ≡ (directed_shape frame.now.links.now).procedures }
    requires brought { AreExactBrought (group_of frame.now W) brought.now }
    ensures { AreSliceSolutions (group_of frame.now W) frame.now.first (point_count frame.now.links.now.program) lo hi table.new }
{
    let links = frame.links;
    let within = words_within(frame, lo, hi);
    for point in 0..links.points() {
        let here = table[point as usize];
        let procedure = links.procedure_of(point);
        table[point as usize] = solution_at(
            frame,
            here,
            brought[procedure as usize],
            within,
            point,
        );
    }
}

/// Solves a group of words: the solution's bits of a range stand in the place of what is generated.
pub(crate) fn solve_group<const W: usize>(
    frame: &GroupFrame,
    table: &mut [Summary<W>],
    brought_words: &mut [[u64; W]],
    dirty: &mut Worklist,
    callers: &mut Worklist,
    range: (u32, u32),
)
    requires frame { IsGroupFrame W frame.now }
    requires count { length table.now ≡ point_count frame.now.links.now.program }
    requires procedures { length brought_words.now ≡ (directed_shape frame.now.links.now).procedures }
    requires dirty { length dirty.now ≡ point_count frame.now.links.now.program }
    requires callers { length callers.now ≡ (directed_shape frame.now.links.now).procedures }
    ensures solutions { AreSliceSolutions (group_of frame.now W) frame.now.first (point_count frame.now.links.now.program) range.0 range.1 table.new }
    ensures dirty { length dirty.new ≡ length dirty.old }
    ensures callers { length callers.new ≡ length callers.old }
{
    preserved_and_generated(frame, table, dirty);
    brought(frame, table, brought_words, callers);
    put_solutions(frame, table, brought_words, range.0, range.1);
}
