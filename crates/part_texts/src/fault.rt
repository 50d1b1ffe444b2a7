// Why texts are not the parts of a report, or of lines of JSON.

/// Why a text does not go with those before it as a part of one report.
#[derive(Clone, Copy, Debug, PartialEq, Eq)]
pub enum PartFault {
    /// It is no part: its first line is none of a part, or a later one is none of a report's or of JSON.
    NoPart,
    /// It ends before its last line.
    CutShort,
    /// It is lines of JSON where the first is a report, or a report where that is lines of JSON.
    OtherForm,
    /// It is of another program than the first.
    OtherProgram,
    /// It is one of another number of parts than the first.
    OtherCount,
    /// A text before has its number.
    Double,
}

/// Why texts do not make a report.
#[derive(Clone, Copy, Debug, PartialEq, Eq)]
pub enum MergeFault {
    /// The text of this number, from 0 on, is at fault.
    InText { text: usize, fault: PartFault },
    /// No text is this part, from 1 on. Where several are missing, it is the first of them.
    Missing { part: u32 },
}
