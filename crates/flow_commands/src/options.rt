// What the program is asked to do.

ghost use Rattle.std.specs.Prelude.{◌≡◌, ◌≤◌, ◌↔◌, IsSome, IfSome};
ghost use Rattle.slice_board.specs.Ranges.{AreInRange};

use flow_team::are_in_range;

/// What is written.
#[derive(Clone, Copy, Debug, PartialEq, Eq)]
pub enum Show {
    /// The report on the whole program.
    Report,
    /// The program's listing.
    List,
    /// The table of reaching definitions.
    Reach,
    /// The table of live variables.
    Live,
    /// The table of available expressions.
    Avail,
    /// The table of very busy expressions.
    Busy,
}

/// What to show, by how many workers, in slices of how many bits.
#[derive(Clone, Copy, Debug, PartialEq, Eq)]
pub struct Options {
    /// How many workers, 1 to 64.
    pub workers: u32,
    /// The width of a slice, 1 to 4,096 bits.
    pub cut: u32,
    /// What is written.
    pub show: Show,
    pub ghost in_range: { AreInRange workers cut },
}

impl Options {
    /// Options of these values: 1 to 64 workers, and slices of 1 to 4,096 bits. None for a value
    /// outside its range.
    pub fn new(workers: u32, cut: u32, show: Show) -> Option<Options>
        ensures answered { IsSome result ↔ AreInRange workers cut }
        ensures workers { IfSome result (λ options. options.workers ≡ workers) }
        ensures cut { IfSome result (λ options. options.cut ≡ cut) }
        ensures show { IfSome result (λ options. options.show ≡ show) }
    {
        if are_in_range(workers, cut) {
            Some(Options { workers, cut, show })
        } else {
            None
        }
    }
}
