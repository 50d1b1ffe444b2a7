// The calls with which threads work on a board.
ghost use Rattle.std.specs.Prelude.{◌≡◌, ℕ, ◌+◌, ◌-◌, ◌*◌, ◌^◌, ◌<◌, ◌≤◌, ◌↔◌, [], ◌∷◌, ◌++◌, length, Some, None, IfSome, IfNone, IfOk, IfErr};
ghost use Rattle.std.specs.Prelude.{IsSome, IsErr, if◌then◌else◌, true};
ghost use Rattle.std.specs.List.{range_with_len};
ghost use Rattle.bit_rows.specs.Words.{has_bit};
ghost use Rattle.slice_board.specs.Boards.{IsOf, IsPlace, InSlice, split_pass, slice_count, about_board};
ghost use Rattle.slice_board.specs.Passes.{IsLogged, logged_word, times, halved, joined, either_of};
ghost use Rattle.slice_board.specs.code.Words.{row_place};

use super::WordBoard;
use crate::pass::Pass;
use crate::plays::{Check, Draw, Finish, Fork, Glue, Look, Post};
use crate::rule::Wanted;
use bit_rows::words_for;

impl<T: Wanted> WordBoard<T> {
    /// A new pass of the board, with empty lists. It has half of the old one's share, and the old one keeps the other half and all else.
    pub fn split(&self, pass: &mut Pass<T>) -> Pass<T>
        requires { IsOf self.now pass.old }
        ensures new { result ≡ split_pass self.now pass.old }
        ensures old { pass.new ≡ halved pass.old }
    {
        Pass {
            seat: self.table.shared.split_seat::<Fork>(&mut pass.seat),
            next: 0,
            held: None,
        }
    }

    /// Two passes as one: the lists of the first, followed by those of the second, both shares, and what
    /// either holds. Refused only where both hold a slice.
    pub fn join(&self, first: Pass<T>, second: Pass<T>) -> Result<Pass<T>, (Pass<T>, Pass<T>)>
        requires first { IsOf self.now first }
        requires second { IsOf self.now second }
        ensures joined { IfOk result (λ pass. pass ≡ joined first second) }
        ensures apart { IfOk result (λ _. (s : ℕ) → times s first.claimed + times s second.claimed ≤ 1) }
        ensures refused { IsErr result ↔ (IsSome first.held × IsSome second.held) }
        ensures unchanged { IfErr result (λ r. (r.0 ≡ first) × (r.1 ≡ second)) }
    {
        if first.held.is_some() && second.held.is_some() {
            return Err((first, second));
        }
        let next = first.next.max(second.next);
        let held = either_slice(first.held, second.held);
        let Pass { mut seat, .. } = first;
        let Pass { seat: other, .. } = second;
        self.table.shared.join_seat::<Glue>(&mut seat, other);
        // A join tells nothing of the claims of others: this load shows that the two have none in common.
        self.table.shared.load::<Check>(&mut seat, 0);
        Ok(Pass { seat, next, held })
    }

    // One draw, of the next slice. True where it was free.
    fn draw_slice(&self, pass: &mut Pass<T>) -> bool
        requires of { IsOf self.now pass.old }
        requires free { pass.old.held ≡ None }
        requires more { pass.old.next < slice_count self.now.cut }
        requires fits { pass.old.next + 1 < 2 ^ 32 }
        ensures { pass.new ≡ (if result
            then record pass.old { claimed = pass.old.claimed ++ pass.old.next ∷ []; held = Some pass.old.next; next = pass.old.next + 1 }
            else record pass.old { found = pass.old.found ++ pass.old.next ∷ []; next = pass.old.next + 1 }) }
    {
        let slice = pass.next;
        let bit = 1 << (slice % 64);
        let before = self
            .table
            .shared
            .fetch_or::<Draw>(&mut pass.seat, (slice / 64) as usize, bit);
        let free = before & bit == 0;
        pass.next += 1;
        if free {
            pass.held = Some(slice);
        }
        free
    }

    /// Draws a slice that no pass had claimed before, trying each from where the pass stands upwards.
    ///
    /// Takes one step for each slice that is tried, and waits for nobody.
    pub fn claim(&self, pass: &mut Pass<T>) -> Option<u32>
        requires of { IsOf self.now pass.old }
        requires free { pass.old.held ≡ None }
        ensures claimed { IfSome result (λ s. (pass.old.next ≤ s) × (s < slice_count self.now.cut)) }
        ensures new { IfSome result (λ s. times s pass.old.claimed ≡ 0) }
        // It holds s now, and found taken each slice from the old next up to s.
        ensures some { IfSome result (λ s. pass.new ≡ record pass.old {
          claimed = pass.old.claimed ++ s ∷ [];
          found = pass.old.found ++ range_with_len pass.old.next (s - pass.old.next);
          held = Some s;
          next = s + 1;
        }) }
        // It found taken each slice from the old next on.
        ensures none { IfNone result (pass.new ≡ record pass.old {
          found = pass.old.found
              ++ range_with_len pass.old.next (slice_count self.now.cut - pass.old.next);
          next = slice_count self.now.cut;
        }) }
        ensures all_taken { IfNone result ((s : ℕ) → s < slice_count self.now.cut
            → 0 < times s pass.new.claimed + times s pass.new.found) }
        ensures draws { length pass.new.claimed + length pass.new.found
            ≤ length pass.old.claimed + length pass.old.found + slice_count self.now.cut }
    {
        while pass.next < self.cut.slices() {
            let slice = pass.next;
            if self.draw_slice(pass) {
                return Some(slice);
            }
        }
        None
    }

    // Where the word of a point's row stands in the table.
    fn row_place(&self, point: u32, word: u32) -> usize
        requires { IsPlace self.now point word }
        ensures value { result ≡ row_place (about_board self.now) point word }
        ensures present { result < self.now.table.words }
    {
        let first = 2 * words_for(self.cut.slices()) as usize;
        first + (word as usize * self.flags.len() + point as usize)
    }

    /// Puts the bits of a mask into a word of a point's row.
    pub fn post(&self, pass: &mut Pass<T>, point: u32, word: u32, mask: u64)
        requires of { IsOf self.now pass.old }
        requires place { IsPlace self.now point word }
        requires wanted { (i : ℕ) → i < 64 → has_bit mask i ≡ true
            → T.wants self.now.wanted point (64 * word + i) }
        ensures { pass.new ≡ record pass.old { posted = pass.old.posted ++ logged_word point word mask ∷ [] } }
    {
        let place = self.row_place(point, word);
        self.table
            .shared
            .fetch_or::<Post>(&mut pass.seat, place, mask);
    }

    /// A word of a point's row as it is now: at least all that this pass posted or saw there, and
    /// nothing that is not wanted.
    pub fn look(&self, pass: &mut Pass<T>, point: u32, word: u32) -> u64
        requires of { IsOf self.now pass.old }
        requires place { IsPlace self.now point word }
        ensures seen { pass.new
            ≡ record pass.old { seen = pass.old.seen ++ logged_word point word result ∷ [] } }
        ensures own { (i : ℕ) → i < 64 → IsLogged pass.old.posted point (64 * word + i)
            → has_bit result i ≡ true }
        ensures again { (i : ℕ) → i < 64 → IsLogged pass.old.seen point (64 * word + i)
            → has_bit result i ≡ true }
        ensures wanted { (i : ℕ) → i < 64 → has_bit result i ≡ true
            → T.wants self.now.wanted point (64 * word + i) }
    {
        let place = self.row_place(point, word);
        self.table.shared.load::<Look<T>>(&mut pass.seat, place)
    }

    /// Marks the slice that the pass holds as finished. All that is wanted of it must have been posted
    /// with this pass.
    pub fn finish(&self, pass: &mut Pass<T>, slice: u32)
        requires of { IsOf self.now pass.old }
        requires held { pass.old.held ≡ Some slice }
        requires posted { (point bit : ℕ) → T.wants self.now.wanted point bit
            → InSlice self.now.cut slice bit → IsLogged pass.old.posted point bit }
        ensures { pass.new
            ≡ record pass.old { finished = pass.old.finished ++ slice ∷ []; held = None } }
    {
        let place = words_for(self.cut.slices()) as usize + (slice / 64) as usize;
        let bit = 1 << (slice % 64);
        self.table
            .shared
            .fetch_or::<Finish>(&mut pass.seat, place, bit);
        pass.held = None;
    }
}

// The one that is there.
fn either_slice(first: Option<u32>, second: Option<u32>) -> Option<u32>
    ensures { result ≡ either_of first second }
{
    match first {
        Some(_) => first,
        None => second,
    }
}
