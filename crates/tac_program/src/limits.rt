// How large a text and its program may be.
ghost use Rattle.std.specs.Prelude.{◌≡◌};
ghost use Rattle.tac_program.specs.Limits.{longest_text, most_definitions, most_expressions, most_points, most_procedures, most_variables};

/// How large a text and its program may be.
#[derive(Clone, Copy, Debug, PartialEq, Eq)]
pub enum Limits {
    /// A text of 1,048,576 bytes, 256 procedures, 16,384 points, 4,096 bits in each analysis.
    Standard,
    /// A text of 536,870,912 bytes, 262,144 procedures, 16,777,216 points, 4,194,304 variables and as many expressions. Definitions have
    /// no limit of their own.
    Large,
}

impl Limits {
    /// How long a text may be, in bytes.
    pub fn text(self) -> u32
        ensures { result ≡ longest_text self }
    {
        match self {
            Limits::Standard => 1_048_576,
            Limits::Large => 536_870_912,
        }
    }

    /// How many procedures a program may have.
    pub fn procedures(self) -> u32
        ensures { result ≡ most_procedures self }
    {
        match self {
            Limits::Standard => 256,
            Limits::Large => 262_144,
        }
    }

    /// How many points a program's graph may have.
    pub fn points(self) -> u32
        ensures { result ≡ most_points self }
    {
        match self {
            Limits::Standard => 16_384,
            Limits::Large => 16_777_216,
        }
    }

    /// How many variables a program may have: the bits of live variables.
    pub fn variables(self) -> u32
        ensures { result ≡ most_variables self }
    {
        match self {
            Limits::Standard => 4_096,
            Limits::Large => 4_194_304,
        }
    }

    /// How many expressions a program may have: the bits of available and of very busy expressions.
    pub fn expressions(self) -> u32
        ensures { result ≡ most_expressions self }
    {
        match self {
            Limits::Standard => 4_096,
            Limits::Large => 4_194_304,
        }
    }

    /// How many definitions a program may have, dummies among them: the bits of reaching definitions.
    pub fn definitions(self) -> u32
        ensures { result ≡ most_definitions self }
    {
        match self {
            Limits::Standard => 4_096,
            Limits::Large => 20_971_520,
        }
    }
}
