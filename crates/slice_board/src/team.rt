// Who works, and how.
ghost use Rattle.std.specs.Prelude.{◌≡◌, ◌⊎◌, ◌<◌, ◌≤◌, IsNone, IfSome, MatchBool};
ghost use Rattle.slice_board.specs.Ranges.{AreInRange};

/// Who works: so many workers, each on a thread of its own, who take so many bits at a time, and whom a gate is told of.
#[derive(Drop)]
pub struct Team<'a, R, G> {
    /// Starts the threads.
    pub rt: &'a R,
    /// Is told of each slice.
    pub gate: &'a G,
    /// How many workers, 1 to 64.
    pub workers: u32,
    /// The width of a slice, 1 to 4,096 bits.
    pub cut: u32,
    pub ghost in_range: { AreInRange workers cut },
}

impl<'a, R, G> Team<'a, R, G> {
    /// A team of so many workers. None where the number is not one of 1 to 64. The condition: the width is one of 1 to 4,096 bits.
    pub fn of(rt: &'a R, gate: &'a G, workers: u32, cut: u32) -> Option<Team<'a, R, G>>
        requires cut { (1 ≤ cut) × (cut ≤ 4096) }
        ensures none { IsNone result → (workers ≡ 0) ⊎ (64 < workers) }
        ensures workers { IfSome result (λ team. team.workers ≡ workers) }
        ensures cut { IfSome result (λ team. team.cut ≡ cut) }
    {
        if !are_in_range(workers, cut) {
            return None;
        }
        Some(Team {
            rt,
            gate,
            workers,
            cut,
        })
    }
}

/// Whether a team can have so many workers, 1 to 64, and so many bits in a slice, 1 to 4,096.
pub fn are_in_range(workers: u32, cut: u32) -> bool
    ensures { MatchBool result (AreInRange workers cut) (¬ AreInRange workers cut) }
{
    (1..=64).contains(&workers) && (1..=4096).contains(&cut)
}
