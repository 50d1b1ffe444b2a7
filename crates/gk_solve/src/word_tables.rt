// The tables in which the words of a slice are solved.
ghost use Rattle.std.specs.Prelude.{◌≡◌, ◌≤◌, ◌&&◌, ◌||◌, IfOk, length, nat_lt};
ghost use Rattle.flow_graph.specs.Points.{point_count};
ghost use Rattle.flow_links.specs.Shapes.{directed_shape};
ghost use Rattle.gk_solve.specs.Solved.{words_at_once};
ghost use Rattle.gk_solve.specs.Tables.Groups.{IsGroupFrame, group_of};
ghost use Rattle.gk_solve.specs.Tables.Solutions.{AreSliceSolutions};
ghost use Rattle.gk_solve.specs.Tables.Widths.{AreTablesOf, width_of};

use crate::OutOfMemory;
use crate::group_frame::GroupFrame;
use crate::solution::solve_group;
use crate::summary::Summary;
use bit_rows::words_for;
use std::alloc::Global;
use worklist::Worklist;

// A slice of more words is long, and solves eight at once: twice as many for some more work.
const LONG: u32 = 64;

// So does one at more points that has more than four words. No program within the standard limits has as many.
const MANY_POINTS: u32 = 16_384;

/// What is preserved and generated at each point, and what is brought to each procedure, of so many words at once.
#[derive(Drop)]
pub(crate) struct WordTables<const W: usize> {
    pub(crate) points: Vec<Summary<W>>,
    pub(crate) procedures: Vec<[u64; W]>,
}

/// The tables of a slice: of one word at once where it has no more, and of eight where it is long, or has many points.
#[derive(Drop)]
pub(crate) enum Tables {
    One(WordTables<1>),
    Four(WordTables<4>),
    Eight(WordTables<8>),
}

// Whether a slice of so many words at so many points solves eight at once.
fn solves_eight(points: u32, words: u32) -> bool
    ensures { result ≡ (nat_lt 64 words || (nat_lt 16384 points && nat_lt 4 words)) }
{
    words > LONG || (points > MANY_POINTS && words > 4)
}

/// How many words a slice of so many words solves at once, at so many points: eight where it has more than 64, or more than four at more
/// than 16,384 points, which no program within the standard limits has; else four. A slice of one word solves that one.
pub fn words_at_once(points: u32, words: u32) -> u32
    ensures number { result ≡ words_at_once points words }
    ensures range { (4 ≤ result) × (result ≤ 8) }
{
    if solves_eight(points, words) { 8 } else { 4 }
}

impl<const W: usize> WordTables<W> {
    // The tables of so many points and procedures.
    fn blank(alloc: Global, points: u32, procedures: u32) -> Result<Self, OutOfMemory>
        requires { W ≤ 8 }
        ensures { IfOk result (λ tables. (length tables.points.items ≡ points) × (length tables.procedures.items ≡ procedures)) }
    {
        let blank = Summary {
            preserved: [0; W],
            generated: [0; W],
        };
        let summaries = vec![in alloc; blank; points as usize]?;
        let brought = vec![in alloc; [0; W]; procedures as usize]?;
        Ok(WordTables {
            points: summaries,
            procedures: brought,
        })
    }

    /// Solves a group of words: the solution's bits of a range stand in the place of what is generated.
    pub(crate) fn solve(
        &mut self,
        frame: &GroupFrame,
        dirty: &mut Worklist,
        callers: &mut Worklist,
        range: (u32, u32),
    )
        requires frame { IsGroupFrame W frame.now }
        requires count { length self.old.points.items ≡ point_count frame.now.links.now.program }
        requires procedures { length self.old.procedures.items ≡ (directed_shape frame.now.links.now).procedures }
        requires dirty { length dirty.now ≡ point_count frame.now.links.now.program }
        requires callers { length callers.now ≡ (directed_shape frame.now.links.now).procedures }
        ensures solutions { AreSliceSolutions (group_of frame.now W) frame.now.first (point_count frame.now.links.now.program) range.0 range.1
            self.new.points.items }
        ensures count { length self.new.points.items ≡ length self.old.points.items }
        ensures procedures { length self.new.procedures.items ≡ length self.old.procedures.items }
        ensures dirty { length dirty.new ≡ length dirty.old }
        ensures callers { length callers.new ≡ length callers.old }
    {
        solve_group(
            frame,
            self.points.as_mut_slice(),
            self.procedures.as_mut_slice(),
            dirty,
            callers,
            range,
        );
    }
}

impl Tables {
    /// The tables of a slice of the bits `lo..hi`, at so many points and procedures.
    pub(crate) fn of(
        alloc: Global,
        points: u32,
        procedures: u32,
        lo: u32,
        hi: u32,
    ) -> Result<Tables, OutOfMemory>
        requires { lo ≤ hi }
        ensures { IfOk result (AreTablesOf points procedures lo hi) }
    {
        let words = words_for(hi) - lo / 64;
        if words <= 1 {
            return Ok(Tables::One(WordTables::blank(alloc, points, procedures)?));
        }
        if solves_eight(points, words) {
            return Ok(Tables::Eight(WordTables::blank(alloc, points, procedures)?));
        }
        Ok(Tables::Four(WordTables::blank(alloc, points, procedures)?))
    }

    /// How many words are solved at once.
    pub(crate) fn width(&self) -> u32
        ensures { result ≡ width_of self.now }
    {
        match self {
            Tables::One(_) => 1,
            Tables::Four(_) => 4,
            Tables::Eight(_) => 8,
        }
    }
}
