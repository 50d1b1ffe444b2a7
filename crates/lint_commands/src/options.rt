// What the program is asked to do.

use lint_styles::Style;
use lint_texts::Kinds;
use tac_program::Limits;

/// When there are colours.
#[derive(Debug, Clone, Copy, PartialEq, Eq)]
pub enum Coloring {
    /// At a terminal.
    Auto,
    Always,
    Never,
}

/// In which form is written what is told.
#[derive(Debug, Clone, Copy, PartialEq, Eq)]
pub enum Form {
    /// As lines for a reader.
    Text,
    /// As lines of JSON, for tools.
    Json,
}

/// Which files are looked at, and how.
#[derive(Drop)]
pub struct Options {
    /// How large a text and its program may be.
    pub limits: Limits,
    /// Which kinds of remarks are told.
    pub kinds: Kinds,
    /// The name of the one procedure of which remarks are told; without it of all.
    pub procedure: Option<String>,
    /// Whether the way is told by which a variable is not set.
    pub why: bool,
    /// In which form is written what is told.
    pub format: Form,
    /// Whether lines of the source are shown anywhere; at a terminal they are.
    pub source: bool,
    /// When there are colours.
    pub color: Coloring,
    /// Whether a remark is told by the status.
    pub error: bool,
    /// How many threads find what is told, 1 to 64.
    pub workers: u32,
    /// The files' names; without one standard input is read.
    pub files: Vec<String>,
}

impl Coloring {
    ghost use Rattle.std.specs.Prelude.{◌≡◌};
    ghost use Rattle.lint_commands.specs.Styles.{is_colored};

    // Whether there are colours.
    fn is_colored(self, terminal: bool, unwanted: bool) -> bool
        ensures { result ≡ is_colored self terminal unwanted }
    {
        match self {
            Coloring::Auto => terminal && !unwanted,
            Coloring::Always => true,
            Coloring::Never => false,
        }
    }
}

impl Options {
    ghost use Rattle.std.specs.Prelude.{◌≡◌};
    ghost use Rattle.lint_commands.specs.Styles.{style_of};

    /// How what is told is shown, by whether standard output is a terminal, and whether its user has said that colours are unwanted.
    pub fn style(&self, terminal: bool, unwanted: bool) -> Style
        ensures { result ≡ style_of self.now terminal unwanted }
    {
        Style {
            source: self.source || terminal,
            color: self.color.is_colored(terminal, unwanted),
        }
    }
}
