//! A law of the definitions: the clause of a function without a body.

ghost use Rattle.source_lines.specs.SourceLaws.{SourcesJoin};

/// What the lines of a text tell, each behind where the one before ends, is the text: with its end behind it each content is the line, and
/// each line begins where it says.
pub fn sources_join()
    ensures { SourcesJoin }
{}
