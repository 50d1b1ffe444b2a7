//! What is proved of the rounds: the clause of a function without a body.

ghost use Rattle.flow_rounds.specs.Laws.{RoundsEndAtTable};

/// The sets that the last round leaves are those of the table.
pub fn rounds_end_at_table()
    ensures { RoundsEndAtTable }
{}
