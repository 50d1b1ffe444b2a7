// How a board ends.
ghost use Rattle.std.specs.Prelude.{◌≡◌, ℕ, ◌+◌, ◌*◌, ◌<◌, ◌≤◌, ◌↔◌, [], ◌∷◌, ◌++◌, true, IfOk, IfErr, IsOk, IsErr, IsSome};
ghost use Rattle.bit_rows.specs.RowSet.{contains};
ghost use Rattle.bit_rows.specs.RowTable.{set_at};
ghost use Rattle.slice_board.specs.Boards.{IsOf, CountsOnce, slice_count, words_for};
ghost use Rattle.slice_board.specs.Passes.{times, IsWhole};
ghost use Rattle.slice_board.specs.Teams.{IsDrained};
ghost use Rattle.slice_board.specs.code.Plays.{load_of, ShowsOwn};
ghost use Rattle.slice_board.specs.code.Closing.{Counted, ones_below};

use super::WordBoard;
use crate::pass::Pass;
use crate::plays::Tally;
use crate::posted_words::PostedWords;
use crate::rule::Wanted;
use bit_rows::words_for;

/// Why a board does not close: of its `of` slices only `done` are finished.
#[derive(Clone, Copy, Debug, PartialEq, Eq)]
pub struct Unfinished {
    /// How many slices are finished.
    pub done: u32,
    /// How many there are.
    pub of: u32,
}

impl<T: Wanted> WordBoard<T> {
    /// The words, which hold exactly what is wanted, where every slice is finished. Else all is handed
    /// back, with how many slices are finished.
    ///
    /// Nothing is copied, and no memory taken. A slice that a dropped pass held is never finished.
    pub fn close(
        self,
        mut pass: Pass<T>,
    ) -> Result<PostedWords, (Unfinished, WordBoard<T>, Pass<T>)>
        requires { IsOf self pass }
        ensures rows { IfOk result (λ rows. (point bit : ℕ) →
            (contains (set_at rows point) bit ≡ true) ↔ T.wants self.wanted point bit) }
        ensures flags { IfOk result (λ rows. rows.flags ≡ self.blank.flags) }
        ensures range { IfOk result (λ rows. (rows.lo ≡ 0) × (rows.hi ≡ self.cut.bits)) }
        ensures all_finished { ((s : ℕ) → s < slice_count self.cut → 0 < times s pass.finished)
            → IsOk result }
        // No other pass can have left a slice unfinished.
        ensures drained { IsDrained self pass → IsWhole pass → IsOk result }
        ensures holding { IsSome pass.held → IsErr result }
        ensures unfinished { IfErr result (λ r. (r.0.done < r.0.of) × (r.0.of ≡ slice_count self.cut)) }
        ensures counted { IfErr result (λ r.
            CountsOnce (slice_count self.cut) pass.counted r.2.counted r.0.done) }
        ensures board { IfErr result (λ r. r.1 ≡ self) }
        ensures pass { IfErr result (λ r. r.2 ≡ record pass { counted = r.2.counted }) }
    {
        let of = self.cut.slices();
        let done = self.count_finished(&mut pass);
        if done < of {
            return Err((Unfinished { done, of }, self, pass));
        }
        let WordBoard { table, cut, flags } = self;
        let Pass { seat, .. } = pass;
        let closed = table.close_with(seat);
        let first = 2 * words_for(cut.slices()) as usize;
        Ok(PostedWords::of(closed, flags, cut.bits(), first))
    }

    // A load of a done word.
    fn load_done(&self, pass: &mut Pass<T>, word: u32) -> u64
        requires of { IsOf self.now pass.old }
        requires below { word < words_for (slice_count self.now.cut) }
        ensures counted { pass.new
            ≡ record pass.old { counted = pass.old.counted ++ load_of word result ∷ [] } }
        ensures own { ShowsOwn (slice_count self.now.cut) pass.old.claimed pass.old.finished word result }
        ensures found { IsWhole pass.old → (s : ℕ) → s < slice_count self.now.cut → 0 < times s pass.old.found → 0 < times s pass.old.claimed }
    {
        let place = words_for(self.cut.slices()) as usize + word as usize;
        self.table.shared.load::<Tally>(&mut pass.seat, place)
    }

    // How many slices one load of each done word shows as finished.
    fn count_finished(&self, pass: &mut Pass<T>) -> u32
        requires { IsOf self.now pass.old }
        ensures pass { pass.new ≡ record pass.old { counted = pass.new.counted } }
        ensures counted { Counted (slice_count self.now.cut) pass.old pass.new result }
    {
        let slices = self.cut.slices();
        let mut done = 0;
        'words: for word in 0..words_for(slices) {
            let value = self.load_done(pass, word);
            done += ones_below(value, (slices - 64 * word).min(64));
        }
        done
    }
}

// How many of the lowest places of a word are 1.
fn ones_below(word: u64, places: u32) -> u32
    requires { places ≤ 64 }
    ensures value { result ≡ ones_below places word }
    ensures most { result ≤ places }
{
    let mut ones = 0;
    for place in 0..places {
        ones += ((word >> place) & 1) as u32;
    }
    ones
}
