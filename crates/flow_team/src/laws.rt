//! Laws of tables: each is the clause of a function without a body.

ghost use Rattle.flow_team.specs.Laws.{TablesAreOne};

/// A program has one table of an analysis: the one that a single worker makes is the one that any number of workers make,
/// however the bits are cut.
pub fn tables_are_one()
    ensures { TablesAreOne }
{}
