// The points from which steps lead to a point.

use std::marker::Model;

/// The points from which steps lead to a point.
#[derive(Drop)]
pub(crate) struct Sources {
    pub(crate) points: Vec<u32>,
}

impl Model for Sources {
    ghost use Rattle.std.specs.Prelude.{List, ℕ};

    ghost Value = { List ℕ };

    ghost view = { λ sources. sources.points.items };
}
