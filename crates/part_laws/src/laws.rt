//! Laws of parts of a text's report: each is the clause of a function that does nothing.

ghost use Rattle.part_laws.specs.TextLaws.{LinesOfTextsRise, PartsOfTextsAreTheReport};

use flow_parts::merged_texts_are_the_report;

/// The lines of a text's statements rise along the points.
pub fn lines_of_texts_rise()
    ensures { LinesOfTextsRise }
{}

/// The texts of all parts of the report on a text's program, merged in whatever order, are the report.
pub fn parts_of_texts_are_the_report()
    ensures { PartsOfTextsAreTheReport }
{
    merged_texts_are_the_report();
}
