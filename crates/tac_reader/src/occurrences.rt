// Where variables stand in a text, with their numbers, so that a name is looked up once for each place.

ghost use Rattle.std.specs.Prelude.{◌≡◌, All, slice_range};
ghost use Rattle.tac_program.specs.Programs.{number_of};
ghost use Rattle.tac_reader.specs.code.Occurrences.{IsNumberedIn};

use tac_lines::Token;
use tac_program::NameTable;

/// The bytes `start..stop` of a text, which are the name of the variable of this number.
#[derive(Clone, Copy)]
pub struct Occurrence {
    pub start: u32,
    pub stop: u32,
    pub number: u32,
}

/// The variables of a text by number, and where each of them stands.
#[derive(Drop)]
pub struct NotedVariables {
    pub table: NameTable,
    pub occurrences: Vec<Occurrence>,
}

/// The variables of a text by number, and places where some of them stand.
#[derive(Clone, Copy)]
pub struct Variables<'a> {
    pub text: &'a [u8],
    pub table: &'a NameTable,
    occurrences: &'a [Occurrence],
    ghost numbered: { All (IsNumberedIn text.now table.now) occurrences.now },
}

impl<'a> Variables<'a> {
    /// The variables of a table that stand in the text at these places.
    pub fn of(text: &'a [u8], table: &'a NameTable, occurrences: &'a [Occurrence]) -> Self
        requires { All (IsNumberedIn text.now table.now) occurrences.now }
        ensures text { result.text.now ≡ text.now }
        ensures table { result.table.now ≡ table.now }
    {
        Variables {
            text,
            table,
            occurrences,
        }
    }

    /// The number of the variable that stands where the token does, or 0 where it is not there. It is looked up only
    /// where the token is not at the next occurrence, behind those that are `passed`.
    pub fn number(&self, passed: &mut usize, token: Token) -> u32
        ensures { result ≡ number_of self.now.table.now (slice_range self.now.text.now token.start token.stop) }
    {
        if let Some(next) = self.occurrences.get(*passed) {
            if next.start == token.start && next.stop == token.stop {
                *passed += 1;
                return next.number;
            }
        }
        self.table.find(token.bytes(self.text)).unwrap_or(0)
    }
}
