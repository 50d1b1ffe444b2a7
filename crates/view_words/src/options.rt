// What the program is asked to do.

ghost use Rattle.std.specs.Prelude.{◌≡◌, ◌≤◌, ◌↔◌, IsSome, IfSome};
ghost use Rattle.slice_board.specs.Ranges.{AreInRange};

use flow_team::are_in_range;
use flow_views::{Chosen, Look};
use part_texts::Share;
use tac_program::Limits;

/// Which text is written.
#[derive(Clone, Copy, Debug, PartialEq, Eq)]
pub enum Format {
    /// A graph for Graphviz.
    Dot,
    /// The call graph, for Graphviz.
    Calls,
    /// The graph of blocks, for Graphviz.
    Blocks,
    /// Lines of JSON, or a part of those without facts.
    Json,
    /// Lines of JSON, with a path for each variable that may be used before it is set.
    JsonPaths,
    /// Lines of JSON that tell what changes from point to point in place of sets.
    JsonChanges,
    /// Lines of JSON that tell the rounds of an iteration in one procedure.
    Steps,
    /// The report on the whole program, or a part of it.
    Report,
    /// A page of HTML around lines of JSON that tell what changes from point to point.
    Html,
    /// The same, with a path for each variable that may be used before it is set.
    HtmlPaths,
    /// A page of HTML around lines of JSON that tell what changes from point to point in one procedure, and the rounds in it.
    HtmlSteps,
}

/// What is asked for by its name or its number, and how a picture looks.
#[derive(Drop)]
pub struct Asked {
    /// The name of the one procedure that is shown; without it all are. A report is of all anyway.
    pub procedure: Option<String>,
    /// The place of the use whose path a picture marks, `LINE` or `LINE:NAME`; without it none is. Other texts are the same for all of these.
    pub because: Option<String>,
    /// The part that is written, of a report or of lines of JSON, which then are of all procedures and without facts; without it the whole is.
    /// Other texts are the same for all of these.
    pub share: Option<Share>,
    /// The title of a page; without it the page has none. Other texts are the same for all of these.
    pub title: Option<String>,
    /// Whether the lines of the source stand behind the first line of JSON. Other texts are the same for both.
    pub source: bool,
    /// How a picture shows facts. Other texts are the same for all of these.
    pub look: Look,
}

/// What to show, by how many workers, in slices of how many bits.
#[derive(Drop)]
pub struct Options {
    /// How many workers, 1 to 64.
    pub workers: u32,
    /// The width of a slice, 1 to 4,096 bits.
    pub cut: u32,
    /// How large the text and its program may be.
    pub limits: Limits,
    /// Which text is written.
    pub format: Format,
    /// Which analyses' facts stand in it. A report is the same for all of them.
    pub facts: Chosen,
    /// What is asked for by its name or its number, and how a picture looks.
    pub asked: Asked,
    pub ghost in_range: { AreInRange workers cut },
}

impl Options {
    /// Options of these values: 1 to 64 workers, and slices of 1 to 4,096 bits. None for a value
    /// outside its range.
    pub fn new(
        workers: u32,
        cut: u32,
        limits: Limits,
        format: Format,
        facts: Chosen,
        asked: Asked,
    ) -> Option<Options>
        ensures answered { IsSome result ↔ AreInRange workers cut }
        ensures options { IfSome result (λ options. (options.workers ≡ workers) × (options.cut ≡ cut) × (options.limits ≡ limits)
            × (options.format ≡ format) × (options.facts ≡ facts) × (options.asked ≡ asked)) }
    {
        if are_in_range(workers, cut) {
            Some(Options {
                workers,
                cut,
                limits,
                format,
                facts,
                asked,
            })
        } else {
            None
        }
    }
}
