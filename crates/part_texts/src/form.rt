// In which form parts are written.

ghost use Rattle.std.specs.Prelude.{◌≡◌};
ghost use Rattle.part_texts.specs.Parts.{is_same_form};

/// In which form a part is written.
#[derive(Clone, Copy)]
pub enum PartForm {
    /// Lines of a report.
    Report,
    /// Lines of JSON.
    Json,
}

/// Whether two forms are one.
pub(crate) fn is_same_form(one: PartForm, other: PartForm) -> bool
    ensures { result ≡ is_same_form one other }
{
    match one {
        PartForm::Report => match other {
            PartForm::Report => true,
            PartForm::Json => false,
        },
        PartForm::Json => match other {
            PartForm::Report => false,
            PartForm::Json => true,
        },
    }
}
