// Marked points in the order in which they were marked.
ghost use Rattle.std.specs.Prelude.{◌≡◌, ◌+◌, ◌<◌, ◌≤◌, ◌↔◌, ℕ, [], true, IfOk, OnOk, MatchOption, length, slice_index};
ghost use Rattle.flow_why.specs.code.Found.{AreTaken, IsNext, IsOrderly, IsPlaceOf, IsPut, IsThere, mark_at, no_marks, one_taken, point_at};
ghost use Rattle.tac_program.specs.Limits.{most_points};
ghost use Rattle.tac_program.specs.declared.limits.Limits.TheVariants.{Large};

use crate::OutOfMemory;
use crate::mark::Mark;
use std::alloc::Global;
use std::marker::Model;

/// Points that are marked, each once at most, in the order in which that was done, and how many of them were taken up.
pub struct Marks {
    found: Vec<Mark>,
    places: Vec<u32>,
    taken: usize,
}

impl Model for Marks {
    ghost use Rattle.std.specs.Prelude.{length};
    ghost use Rattle.flow_why.specs.code.Found.{IsIndexed, MarkList};

    ghost Value = { MarkList };

    ghost view = { λ marks. record { points = length marks.places.items; found = marks.found.items; taken = marks.taken } };

    ghost invariant = { λ marks. IsIndexed marks.found.items marks.places.items marks.taken };
}

impl Drop for Marks {
    // By hand: who gives marks up then makes one call.
    fn drop(self) {
        let Marks {
            found: _,
            places: _,
            taken: _,
        } = self;
    }
}

// Makes the places of marked points 0 again, where those of others are.
fn blank_again(places: &mut Vec<u32>, found: &[Mark])
    requires within { (i : ℕ) → i < length found.now → point_at found.now i < length places.old.items }
    requires marked { (x i : ℕ) → x < length places.old.items → slice_index places.old.items x ≡ i + 1
        → (i < length found.now) × (point_at found.now i ≡ x) }
    ensures count { length places.new.items ≡ length places.old.items }
    ensures blank { (x : ℕ) → x < length places.old.items → slice_index places.new.items x ≡ 0 }
{
    for mark in found {
        places[mark.point as usize] = 0;
    }
}

impl Marks {
    /// No marks of so many points.
    pub fn blank(alloc: Global, points: u32) -> Result<Self, OutOfMemory>
        requires { points ≤ most_points Large }
        ensures { IfOk result (λ marks. marks ≡ record { points = points; found = []; taken = 0 }) }
    {
        let places = vec![in alloc; 0; points as usize]?;
        Ok(Marks {
            found: Vec::new(alloc),
            places,
            taken: 0,
        })
    }

    /// Takes all marks away. Time goes with how many there are.
    pub fn clear(&mut self)
        ensures { self.new ≡ no_marks self.old.points }
    {
        blank_again(&mut self.places, self.found.as_slice());
        self.found.clear();
        self.taken = 0;
    }

    /// Whether a point is marked.
    pub fn has(&self, point: u32) -> bool
        requires { point < self.now.points }
        ensures { (result ≡ true) ↔ IsThere self.now point }
    {
        self.places[point as usize] != 0
    }

    /// The place of a point among the marks.
    pub fn place(&self, point: u32) -> Option<u32>
        requires { point < self.now.points }
        ensures { MatchOption result (IsThere self.now point → ⊥) (λ place. IsPlaceOf self.now point place) }
    {
        let place = self.places[point as usize];
        if place == 0 { None } else { Some(place - 1) }
    }

    /// How many marks there are: as many as points at most.
    pub fn count(&self) -> u32
        ensures count { result ≡ length self.now.found }
        ensures orderly { IsOrderly self.now }
    {
        self.found.len() as u32
    }

    /// The mark at a place.
    pub fn mark(&self, place: u32) -> Mark
        requires { place < length self.now.found }
        ensures is { result ≡ mark_at self.now.found place }
        ensures orderly { IsOrderly self.now }
    {
        self.found[place as usize]
    }

    /// Marks a point, unless it is marked.
    pub fn put(&mut self, mark: Mark) -> Result<(), OutOfMemory>
        requires { mark.point < self.old.points }
        ensures { OnOk result (IsPut self.old mark self.new) }
    {
        if self.places[mark.point as usize] != 0 {
            return Ok(());
        }
        self.found.push(mark)?;
        self.places[mark.point as usize] = self.found.len() as u32;
        Ok(())
    }

    /// Takes up the next point.
    pub fn take(&mut self) -> Option<u32>
        ensures { MatchOption result ((self.new ≡ self.old) × AreTaken self.old) (λ point. (self.new ≡ one_taken self.old) × IsNext self.old point) }
    {
        if self.taken < self.found.len() {
            let point = self.found[self.taken].point;
            self.taken += 1;
            Some(point)
        } else {
            None
        }
    }
}
