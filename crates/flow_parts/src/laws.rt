// Laws on the parts of a report.

ghost use Rattle.flow_parts.specs.MergeLaws.{MergedPartsAreTheReport, MergedTextsAreTheReport};
ghost use Rattle.flow_parts.specs.PartLaws.{PartsAreTheReport};

/// The remarks of all parts are those of the report, point by point and kind by kind.
pub fn parts_are_the_report()
    ensures { PartsAreTheReport }
{}

/// All parts of a report, as they are read and in whatever order, make the report, where the lines of statements rise along the points.
pub fn merged_parts_are_the_report()
    ensures { MergedPartsAreTheReport }
{}

/// The texts of all parts, merged in whatever order, are the report.
pub fn merged_texts_are_the_report()
    ensures { MergedTextsAreTheReport }
{}
