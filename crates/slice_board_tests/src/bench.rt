// A board over sets that are known at run time, and workers that query a board only for what it allows.

ghost use Rattle.std.specs.Prelude.{◌≡◌, ℕ, ◌+◌, ◌*◌, ◌/◌, ◌%◌, ◌<◌, ◌≤◌, ◌⊎◌, length, Some, IfSome, IfOk, true, not, ◌&&◌, IsTrue};
ghost use Rattle.bit_rows.specs.RowSet.{contains};
ghost use Rattle.bit_rows.specs.RowTable.{set_at};
ghost use Rattle.bit_rows.specs.Words.{has_bit};
ghost use Rattle.slice_board.specs.Boards.{IsOf, fresh_pass};
ghost use Rattle.slice_board_tests.specs.Benches.{IsFor, AreNoted, Covers};

use bit_rows::{Cut, Row, Rows, words_for};
use flow_rows::Board;
use slice_board::{OutOfMemory, Pass, Wanted};
use std::alloc::Global;

/// The wanted bits of each point.
#[derive(Drop)]
pub(crate) struct Sets {
    pub(crate) rows: Rows,
}

impl Wanted for Sets {
    ghost use Rattle.std.specs.Prelude.{◌≡◌, true};
    ghost use Rattle.bit_rows.specs.RowSet.{contains};
    ghost use Rattle.bit_rows.specs.RowTable.{set_at};

    ghost wants = { λ s point bit. contains (set_at s.rows point) bit ≡ true };
}

// Puts a bit into a point's set, where both are there.
fn put(alloc: Global, rows: &mut Rows, point: u32, bit: u32) -> Result<(), OutOfMemory>
    ensures low { rows.new.lo ≡ rows.old.lo }
    ensures high { rows.new.hi ≡ rows.old.hi }
{
    let mut row = Row::empty(alloc, 0, rows.hi())?;
    if row.lo() <= bit && bit < row.hi() {
        row.set(bit);
    }
    if point < rows.points() && row.lo() == rows.lo() && row.hi() == rows.hi() {
        rows.or_row(point, &row);
    }
    Ok(())
}

/// So many points with sets over `0..bits`, which have these bits.
pub(crate) fn wanted_sets(
    alloc: Global,
    points: u32,
    bits: u32,
    wanted: &[(u32, u32)],
) -> Result<Sets, OutOfMemory>
    ensures { IfOk result (λ sets. (sets.rows.lo ≡ 0) × (sets.rows.hi ≡ bits)) }
{
    let flags = vec![in alloc; true; points as usize]?;
    let mut rows = Rows::blank(alloc, flags, 0, bits)?;
    for (point, bit) in wanted {
        put(alloc, &mut rows, *point, *bit)?;
    }
    Ok(Sets { rows })
}

/// A board for the sets, and its first pass. Every other point is flagged.
pub(crate) fn open(
    alloc: Global,
    sets: &Sets,
    cut: Cut,
) -> Result<(Board<Sets>, Pass<Sets>), OutOfMemory>
    requires low { sets.now.rows.lo ≡ 0 }
    requires bits { sets.now.rows.hi ≡ cut.bits }
    ensures wanted { IfOk result (λ r. r.0.wanted ≡ sets.now) }
    ensures board { IfOk result (λ r. IsFor r.0 sets.now.rows) }
    ensures pass { IfOk result (λ r. r.1 ≡ fresh_pass r.0) }
{
    let points = sets.rows.points();
    let mut flags = Vec::with_capacity(alloc, points as usize)?;
    for point in 0..points {
        flags.push(point % 2 == 0)?;
    }
    let blank = Rows::blank(alloc, flags, 0, cut.bits())?;
    Board::open(alloc, sets, blank, cut)
}

// Whether the place is there, and each bit of the mask is wanted.
fn may_post(rows: &Rows, point: u32, word: u32, mask: u64) -> bool
    ensures place { IsTrue result
        → (point < length rows.now.flags) × (word < (rows.now.hi + 63) / 64) }
    ensures mask { IsTrue result → (i : ℕ) → i < 64 → has_bit mask i ≡ true
        → contains (set_at rows.now point) (64 * word + i) ≡ true }
{
    if point >= rows.points() {
        return false;
    }
    if word >= words_for(rows.hi()) {
        return false;
    }
    mask & !rows.row(point).word(word) == 0
}

fn has(row: &Row, bit: u32) -> bool
    ensures { result ≡ contains row.now bit }
{
    if bit < row.lo() {
        return false;
    }
    if bit >= row.hi() {
        return false;
    }
    row.get(bit)
}

// Whether the bit is in the first row, and not in the second.
fn lacks(wanted: &Row, mine: &Row, bit: u32) -> bool
    ensures { result ≡ (contains wanted.now bit && not (contains mine.now bit)) }
{
    let wants = has(wanted, bit);
    let lacks = !has(mine, bit);
    wants & lacks
}

fn covers_row(wanted: &Row, mine: &Row, lo: u32, hi: u32) -> bool
    ensures { IsTrue result → (bit : ℕ) → lo ≤ bit → bit < hi → contains wanted.now bit ≡ true
        → contains mine.now bit ≡ true }
{
    for bit in lo..hi {
        if lacks(wanted, mine, bit) {
            return false;
        }
    }
    true
}

// Whether each wanted bit of `lo..hi` is among the others.
fn covers(wanted: &Rows, mine: &Rows, lo: u32, hi: u32) -> bool
    ensures { IsTrue result → Covers wanted.now mine.now lo hi }
{
    if wanted.points() != mine.points() {
        return false;
    }
    for point in 0..wanted.points() {
        if !covers_row(wanted.row(point), mine.row(point), lo, hi) {
            return false;
        }
    }
    true
}

// Puts the bits of a mask into a point's set, where the sets have one range.
fn note(mine: &mut Rows, wanted: &Rows, point: u32, word: u32, mask: u64)
    requires { (i : ℕ) → i < 64 → has_bit mask i ≡ true
        → contains (set_at wanted.now point) (64 * word + i) ≡ true }
    ensures { (p b : ℕ) → contains (set_at mine.new p) b ≡ true
        → (contains (set_at mine.old p) b ≡ true) ⊎ ((p ≡ point) × (b / 64 ≡ word) × (has_bit mask (b % 64) ≡ true)) }
{
    if mine.lo() == wanted.lo()
        && mine.hi() == wanted.hi()
        && point < mine.points()
        && point < wanted.points()
    {
        mine.or_word(point, word, mask);
    }
}

/// A pass, and the bits that were posted with it.
#[derive(Drop)]
pub(crate) struct Worker {
    pub(crate) pass: Pass<Sets>,
    pub(crate) mine: Rows,
}

impl Worker {
    /// A worker with a pass that has posted nothing.
    pub(crate) fn new(alloc: Global, sets: &Sets, pass: Pass<Sets>) -> Result<Worker, OutOfMemory>
        ensures pass { IfOk result (λ worker. worker.pass ≡ pass) }
        ensures noted { IfOk result (λ worker. AreNoted worker.mine worker.pass.posted) }
    {
        let flags = vec![in alloc; true; sets.rows.points() as usize]?;
        let mine = Rows::blank(alloc, flags, 0, sets.rows.hi())?;
        Ok(Worker { pass, mine })
    }

    /// Draws a slice where it holds none.
    pub(crate) fn claim(&mut self, board: &Board<Sets>) -> Option<u32>
        requires of { IsOf board.now self.old.pass }
        requires noted { AreNoted self.old.mine self.old.pass.posted }
        ensures of { IsOf board.now self.new.pass }
        ensures noted { AreNoted self.new.mine self.new.pass.posted }
    {
        match self.pass.held() {
            Some(_) => None,
            None => board.claim(&mut self.pass),
        }
    }

    /// Posts a mask where that is wanted.
    pub(crate) fn post(
        &mut self,
        board: &Board<Sets>,
        sets: &Sets,
        point: u32,
        word: u32,
        mask: u64,
    ) -> bool
        requires of { IsOf board.now self.old.pass }
        requires noted { AreNoted self.old.mine self.old.pass.posted }
        requires wanted { board.now.wanted ≡ sets.now }
        requires board { IsFor board.now sets.now.rows }
        ensures of { IsOf board.now self.new.pass }
        ensures noted { AreNoted self.new.mine self.new.pass.posted }
    {
        let may = may_post(&sets.rows, point, word, mask);
        if may {
            board.post(&mut self.pass, point, word, mask);
            note(&mut self.mine, &sets.rows, point, word, mask);
        }
        may
    }

    /// A word of a point's row, where that is there.
    pub(crate) fn look(
        &mut self,
        board: &Board<Sets>,
        sets: &Sets,
        point: u32,
        word: u32,
    ) -> Option<u64>
        requires of { IsOf board.now self.old.pass }
        requires noted { AreNoted self.old.mine self.old.pass.posted }
        requires board { IsFor board.now sets.now.rows }
        ensures of { IsOf board.now self.new.pass }
        ensures noted { AreNoted self.new.mine self.new.pass.posted }
    {
        if point < sets.rows.points() && word < words_for(sets.rows.hi()) {
            Some(board.look(&mut self.pass, point, word))
        } else {
            None
        }
    }

    /// Finishes the slice that it holds, where all that is wanted of it was posted.
    pub(crate) fn finish(&mut self, board: &Board<Sets>, sets: &Sets) -> Option<u32>
        requires of { IsOf board.now self.old.pass }
        requires noted { AreNoted self.old.mine self.old.pass.posted }
        requires wanted { board.now.wanted ≡ sets.now }
        ensures of { IsOf board.now self.new.pass }
        ensures noted { AreNoted self.new.mine self.new.pass.posted }
    {
        let slice = self.pass.held()?;
        let (lo, hi) = board.cut().range(slice);
        if !covers(&sets.rows, &self.mine, lo, hi) {
            return None;
        }
        board.finish(&mut self.pass, slice);
        Some(slice)
    }

    /// One worker of two, which has noted what the first had. None where both hold a slice.
    pub(crate) fn join(self, board: &Board<Sets>, other: Worker) -> Option<Worker>
        requires first { IsOf board.now self.pass }
        requires second { IsOf board.now other.pass }
        requires noted { AreNoted self.mine self.pass.posted }
        ensures of { IfSome result (λ worker. IsOf board.now worker.pass) }
        ensures noted { IfSome result (λ worker. AreNoted worker.mine worker.pass.posted) }
    {
        let Worker { pass, mine } = self;
        match board.join(pass, other.pass) {
            Ok(pass) => Some(Worker { pass, mine }),
            Err(_) => None,
        }
    }
}
