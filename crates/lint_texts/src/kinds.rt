// Kinds of lints.

ghost use Rattle.std.specs.Prelude.{◌≡◌};
ghost use Rattle.lint_texts.specs.LintTexts.{is_remark_wanted, is_wanted, kind_text, remark_kind as kind_of_remark, usual_kinds};

use flow_lints::Lint;
use flow_reports::Remark;

/// Which kinds of lints are told.
#[derive(Debug, Clone, Copy, PartialEq, Eq)]
pub struct Kinds {
    /// Procedures that are never called.
    pub never_called: bool,
    /// Statements that are never reached.
    pub never_reached: bool,
    /// Variables that may be used before they are set.
    pub unset: bool,
    /// Expressions that are computed already.
    pub computed: bool,
    /// Very busy expressions.
    pub busy: bool,
    /// Values that are never used.
    pub dead: bool,
}

impl Kinds {
    /// The kinds that are told where nothing else is asked for: all but expressions.
    pub fn usual() -> Kinds
        ensures { result ≡ usual_kinds }
    {
        Kinds {
            never_called: true,
            never_reached: true,
            unset: true,
            computed: false,
            busy: false,
            dead: true,
        }
    }

    // Whether a remark is of a kind that is told.
    fn wants_remark(self, remark: Remark) -> bool
        ensures { result ≡ is_remark_wanted self remark }
    {
        match remark {
            Remark::NeverReached => self.never_reached,
            Remark::Unset { .. } => self.unset,
            Remark::Computed { .. } => self.computed,
            Remark::VeryBusy { .. } => self.busy,
            Remark::Dead { .. } => self.dead,
        }
    }

    /// Whether a lint is of a kind that is told.
    pub fn wants(self, lint: Lint) -> bool
        ensures { result ≡ is_wanted self lint }
    {
        match lint {
            Lint::NeverCalled { .. } => self.never_called,
            Lint::Told { remark } => self.wants_remark(remark),
        }
    }
}

// What a remark's kind is called.
fn remark_kind(remark: Remark) -> &'static [u8]
    ensures { result.now ≡ kind_of_remark remark }
{
    match remark {
        Remark::NeverReached => b"never-reached",
        Remark::Unset { .. } => b"unset",
        Remark::Computed { .. } => b"computed",
        Remark::VeryBusy { .. } => b"busy",
        Remark::Dead { .. } => b"dead",
    }
}

/// What a lint's kind is called.
pub fn kind_name(lint: Lint) -> &'static [u8]
    ensures { result.now ≡ kind_text lint }
{
    match lint {
        Lint::NeverCalled { .. } => b"never-called",
        Lint::Told { remark } => remark_kind(remark),
    }
}
