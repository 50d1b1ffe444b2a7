ghost use Rattle.std.specs.Prelude.{◌≡◌, ℕ, ◌+◌, ◌-◌, ◌*◌, ◌<◌, ◌≤◌, ◌↔◌, [], ◌∷◌, ◌++◌, length, Some, None, IfSome, IfNone, IfOk, IfErr, IsSome};
ghost use Rattle.std.specs.Prelude.{IsOk, IsErr, true};
ghost use Rattle.std.specs.List.{range_with_len};
ghost use Rattle.bit_rows.specs.RowSet.{contains};
ghost use Rattle.bit_rows.specs.RowTable.{set_at, blank_table};
ghost use Rattle.bit_rows.specs.Words.{has_bit};
ghost use Rattle.slice_board.specs.Boards.{IsOf, IsPlace, InSlice, CountsOnce, fresh_pass, split_pass, slice_count};
ghost use Rattle.slice_board.specs.Passes.{IsLogged, IsWhole, logged_word, times, halved, joined};
ghost use Rattle.slice_board.specs.Teams.{IsDrained};

use crate::OutOfMemory;
use bit_rows::{Cut, Rows};
use slice_board::{Pass, Unfinished, Wanted, WordBoard};
use std::alloc::Global;
use std::marker::Model;

/// A board that many threads share through a `&`: which slices are claimed and which are finished, and
/// for each point a set of bits, in words that only grow.
///
/// Between any two steps of any threads it is lawful (`Lawful`): no slice is claimed twice, no posted
/// bit is lost, nothing is there that is not wanted, and where a slice is finished, all is there that is
/// wanted of it.
#[derive(Drop)]
pub struct Board<T: Wanted> {
    words: WordBoard<T>,
    blank: Rows,
}

impl<T: Wanted> Model for Board<T> {
    ghost use Rattle.std.specs.Prelude.{◌≡◌};
    ghost use Rattle.slice_board.specs.Boards.{BoardState};

    ghost Value = { BoardState T };

    ghost view = { λ b. b.words };

    ghost invariant = { λ b. b.blank ≡ b.words.blank };
}

// The flags of all points.
fn flags_of(alloc: Global, rows: &Rows) -> Result<Vec<bool>, OutOfMemory>
    ensures { IfOk result (λ flags. flags.items ≡ rows.now.flags) }
{
    let mut flags = Vec::with_capacity(alloc, rows.points() as usize)?;
    for point in 0..rows.points() {
        flags.push(rows.flag(point))?;
    }
    Ok(flags)
}

impl<T: Wanted> Board<T> {
    /// How the bits are cut into slices.
    pub fn cut(&self) -> &Cut
        ensures { result.now ≡ self.now.cut }
    {
        self.words.cut()
    }

    /// A board without claims and marks, and a pass of it with empty lists.
    ///
    /// `blank` is the space that `close` hands out, its flags unchanged.
    pub fn open(
        alloc: Global,
        wanted: &T,
        blank: Rows,
        cut: Cut,
    ) -> Result<(Board<T>, Pass<T>), OutOfMemory>
        requires blank { blank ≡ blank_table blank.flags 0 cut.bits }
        requires within { (point bit : ℕ) → T.wants wanted.now point bit
            → (point < length blank.flags) × (bit < cut.bits) }
        ensures wanted { IfOk result (λ r. r.0.wanted ≡ wanted.now) }
        ensures cut { IfOk result (λ r. r.0.cut ≡ cut) }
        ensures blank { IfOk result (λ r. r.0.blank ≡ blank) }
        ensures pass { IfOk result (λ r. r.1 ≡ fresh_pass r.0) }
    {
        let flags = flags_of(alloc, &blank)?;
        let (words, pass) = WordBoard::open(alloc, wanted, flags, cut)?;
        Ok((Board { words, blank }, pass))
    }

    /// A new pass of the board, with empty lists. It has half of the old one's share, and the old one keeps the other half and all else.
    pub fn split(&self, pass: &mut Pass<T>) -> Pass<T>
        requires { IsOf self.now pass.old }
        ensures new { result ≡ split_pass self.now pass.old }
        ensures old { pass.new ≡ halved pass.old }
    {
        self.words.split(pass)
    }

    /// Two passes as one: the lists of the first, followed by those of the second, both shares, and what
    /// either holds. Refused only where both hold a slice.
    pub fn join(&self, first: Pass<T>, second: Pass<T>) -> Result<Pass<T>, (Pass<T>, Pass<T>)>
        requires first { IsOf self.now first }
        requires second { IsOf self.now second }
        ensures joined { IfOk result (λ pass. pass ≡ joined first second) }
        ensures apart { IfOk result (λ _. (s : ℕ) → times s first.claimed + times s second.claimed ≤ 1) }
        ensures refused { IsErr result ↔ (IsSome first.held × IsSome second.held) }
        ensures unchanged { IfErr result (λ r. (r.0 ≡ first) × (r.1 ≡ second)) }
    {
        self.words.join(first, second)
    }

    /// Draws a slice that no pass had claimed before, trying each from where the pass stands upwards.
    ///
    /// Takes one step for each slice that is tried, and waits for nobody.
    pub fn claim(&self, pass: &mut Pass<T>) -> Option<u32>
        requires of { IsOf self.now pass.old }
        requires free { pass.old.held ≡ None }
        ensures claimed { IfSome result (λ s. (pass.old.next ≤ s) × (s < slice_count self.now.cut)) }
        ensures new { IfSome result (λ s. times s pass.old.claimed ≡ 0) }
        // It holds s now, and found taken each slice from the old next up to s.
        ensures some { IfSome result (λ s. pass.new ≡ record pass.old {
          claimed = pass.old.claimed ++ s ∷ [];
          found = pass.old.found ++ range_with_len pass.old.next (s - pass.old.next);
          held = Some s;
          next = s + 1;
        }) }
        // It found taken each slice from the old next on.
        ensures none { IfNone result (pass.new ≡ record pass.old {
          found = pass.old.found
              ++ range_with_len pass.old.next (slice_count self.now.cut - pass.old.next);
          next = slice_count self.now.cut;
        }) }
        ensures all_taken { IfNone result ((s : ℕ) → s < slice_count self.now.cut
            → 0 < times s pass.new.claimed + times s pass.new.found) }
        ensures draws { length pass.new.claimed + length pass.new.found
            ≤ length pass.old.claimed + length pass.old.found + slice_count self.now.cut }
    {
        self.words.claim(pass)
    }

    /// Puts the bits of a mask into a word of a point's row.
    pub fn post(&self, pass: &mut Pass<T>, point: u32, word: u32, mask: u64)
        requires of { IsOf self.now pass.old }
        requires place { IsPlace self.now point word }
        requires wanted { (i : ℕ) → i < 64 → has_bit mask i ≡ true
            → T.wants self.now.wanted point (64 * word + i) }
        ensures { pass.new ≡ record pass.old { posted = pass.old.posted ++ logged_word point word mask ∷ [] } }
    {
        self.words.post(pass, point, word, mask);
    }

    /// A word of a point's row as it is now: at least all that this pass posted or saw there, and
    /// nothing that is not wanted.
    pub fn look(&self, pass: &mut Pass<T>, point: u32, word: u32) -> u64
        requires of { IsOf self.now pass.old }
        requires place { IsPlace self.now point word }
        ensures seen { pass.new
            ≡ record pass.old { seen = pass.old.seen ++ logged_word point word result ∷ [] } }
        ensures own { (i : ℕ) → i < 64 → IsLogged pass.old.posted point (64 * word + i)
            → has_bit result i ≡ true }
        ensures again { (i : ℕ) → i < 64 → IsLogged pass.old.seen point (64 * word + i)
            → has_bit result i ≡ true }
        ensures wanted { (i : ℕ) → i < 64 → has_bit result i ≡ true
            → T.wants self.now.wanted point (64 * word + i) }
    {
        self.words.look(pass, point, word)
    }

    /// Marks the slice that the pass holds as finished. All that is wanted of it must have been posted
    /// with this pass.
    pub fn finish(&self, pass: &mut Pass<T>, slice: u32)
        requires of { IsOf self.now pass.old }
        requires held { pass.old.held ≡ Some slice }
        requires posted { (point bit : ℕ) → T.wants self.now.wanted point bit
            → InSlice self.now.cut slice bit → IsLogged pass.old.posted point bit }
        ensures { pass.new
            ≡ record pass.old { finished = pass.old.finished ++ slice ∷ []; held = None } }
    {
        self.words.finish(pass, slice);
    }

    /// The rows, which hold exactly what is wanted, where every slice is finished. Else all is handed
    /// back, with how many slices are finished.
    ///
    /// A slice that a dropped pass held is never finished.
    pub fn close(self, pass: Pass<T>) -> Result<Rows, (Unfinished, Board<T>, Pass<T>)>
        requires { IsOf self pass }
        ensures rows { IfOk result (λ rows. (point bit : ℕ) →
            (contains (set_at rows point) bit ≡ true) ↔ T.wants self.wanted point bit) }
        ensures flags { IfOk result (λ rows. rows.flags ≡ self.blank.flags) }
        ensures range { IfOk result (λ rows. (rows.lo ≡ 0) × (rows.hi ≡ self.cut.bits)) }
        ensures all_finished { ((s : ℕ) → s < slice_count self.cut → 0 < times s pass.finished)
            → IsOk result }
        // No other pass can have left a slice unfinished.
        ensures drained { IsDrained self pass → IsWhole pass → IsOk result }
        ensures holding { IsSome pass.held → IsErr result }
        ensures unfinished { IfErr result (λ r. (r.0.done < r.0.of) × (r.0.of ≡ slice_count self.cut)) }
        ensures counted { IfErr result (λ r.
            CountsOnce (slice_count self.cut) pass.counted r.2.counted r.0.done) }
        ensures board { IfErr result (λ r. r.1 ≡ self) }
        ensures pass { IfErr result (λ r. r.2 ≡ record pass { counted = r.2.counted }) }
    {
        let Board { words, mut blank } = self;
        match words.close(pass) {
            Ok(posted) => {
                posted.put_into(&mut blank);
                Ok(blank)
            }
            Err((unfinished, words, pass)) => Err((unfinished, Board { words, blank }, pass)),
        }
    }
}
