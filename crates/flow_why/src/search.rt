// The three lists of a search.
ghost use Rattle.std.specs.Prelude.{◌≡◌, ◌<◌, ◌≤◌, ◌↔◌, true, [], IfOk, OnOk, MatchOption};
ghost use Rattle.flow_why.specs.code.Found.{Ends, Has, IsPutIn, IsTaken, no_marks, nothing_found, marks_of};
ghost use Rattle.tac_program.specs.Limits.{most_points};
ghost use Rattle.tac_program.specs.declared.limits.Limits.TheVariants.{Large};

use crate::OutOfMemory;
use crate::claim::Claim;
use crate::mark::Mark;
use crate::marks::Marks;
use std::alloc::Global;
use std::marker::Model;

/// What is found of points, for each claim those that are marked.
pub struct Search {
    holds: Marks,
    generated: Marks,
    preserved: Marks,
}

impl Model for Search {
    ghost use Rattle.flow_why.specs.code.Found.{Found};

    ghost Value = { Found };

    ghost view = { λ search. record { holds = search.holds; generated = search.generated; preserved = search.preserved } };
}

impl Drop for Search {
    // By hand: who gives a search up then makes one call.
    fn drop(self) {
        let Search {
            holds: _,
            generated: _,
            preserved: _,
        } = self;
    }
}

impl Search {
    /// Nothing is found at so many points.
    pub fn blank(alloc: Global, points: u32) -> Result<Self, OutOfMemory>
        requires { points ≤ most_points Large }
        ensures { IfOk result (λ search. search ≡ nothing_found points) }
    {
        let holds = Marks::blank(alloc, points)?;
        let generated = Marks::blank(alloc, points)?;
        let preserved = Marks::blank(alloc, points)?;
        Ok(Search {
            holds,
            generated,
            preserved,
        })
    }

    /// Takes all marks away.
    pub fn clear(&mut self)
        ensures { self.new ≡ record {
          holds = no_marks self.old.holds.points;
          generated = no_marks self.old.generated.points;
          preserved = no_marks self.old.preserved.points;
        } }
    {
        self.holds.clear();
        self.generated.clear();
        self.preserved.clear();
    }

    /// The list of a claim.
    pub fn marks(&self, claim: Claim) -> &Marks
        ensures { result.now ≡ marks_of self.now claim }
    {
        match claim {
            Claim::Holds => &self.holds,
            Claim::Generated => &self.generated,
            Claim::Preserved => &self.preserved,
        }
    }

    /// Whether a claim was found of a point.
    pub fn has(&self, claim: Claim, point: u32) -> bool
        requires { point < (marks_of self.now claim).points }
        ensures { (result ≡ true) ↔ Has self.now claim point }
    {
        self.marks(claim).has(point)
    }

    /// Puts a mark into the list of a claim, unless its point is there.
    pub fn put(&mut self, claim: Claim, mark: Mark) -> Result<(), OutOfMemory>
        requires { mark.point < (marks_of self.old claim).points }
        ensures { OnOk result (IsPutIn claim self.old mark self.new) }
    {
        match claim {
            Claim::Holds => self.holds.put(mark),
            Claim::Generated => self.generated.put(mark),
            Claim::Preserved => self.preserved.put(mark),
        }
    }

    /// Takes up a claim of a point: what callees do before what stands behind their calls.
    pub fn take(&mut self) -> Option<(Claim, u32)>
        ensures { MatchOption result (Ends self.old self.new) (λ turn. IsTaken turn.0 turn.1 self.old self.new) }
    {
        if let Some(point) = self.preserved.take() {
            return Some((Claim::Preserved, point));
        }
        if let Some(point) = self.generated.take() {
            return Some((Claim::Generated, point));
        }
        match self.holds.take() {
            Some(point) => Some((Claim::Holds, point)),
            None => None,
        }
    }
}
