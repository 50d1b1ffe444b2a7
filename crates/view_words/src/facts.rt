// Which facts a list of words names.

ghost use Rattle.std.specs.Prelude.{◌≡◌};
ghost use Rattle.std.specs.List.{list_all};
ghost use Rattle.flow_runs.specs.Words.{words_in};
ghost use Rattle.view_words.specs.Kinds.{chosen_in, facts_by_format, facts_named, is_fact};

use crate::options::Format;
use flow_graph::Analysis;
use flow_runs::has_word;
use flow_views::{Chosen, analysis_name};

/// No analysis's facts.
const NONE: Chosen = Chosen {
    reach: false,
    live: false,
    avail: false,
    busy: false,
};

/// Those of all.
const ALL: Chosen = Chosen {
    reach: true,
    live: true,
    avail: true,
    busy: true,
};

// Whether the word is that of an analysis.
fn is_fact(word: &str) -> bool
    ensures { result ≡ is_fact word.now }
{
    Analysis::ALL
        .iter()
        .any(|analysis| analysis_name(*analysis) == word.as_bytes())
}

fn has_facts_alone(list: &str) -> bool
    ensures { result ≡ list_all is_fact (words_in list.now) }
{
    list.split(',').all(|word| is_fact(word))
}

fn chosen_in(list: &str) -> Chosen
    ensures { result ≡ chosen_in list.now }
{
    Chosen {
        reach: has_word(list, "reach"),
        live: has_word(list, "live"),
        avail: has_word(list, "avail"),
        busy: has_word(list, "busy"),
    }
}

/// The facts that a list names: `none`, `all`, or words of `reach`, `live`, `avail` and `busy` with commas between them. None where
/// it is no such list.
pub(crate) fn facts_of(list: &str) -> Option<Chosen>
    ensures { result ≡ facts_named list.now }
{
    match list {
        "none" => Some(NONE),
        "all" => Some(ALL),
        _ if has_facts_alone(list) => Some(chosen_in(list)),
        _ => None,
    }
}

/// The facts that are shown where no list says which: none in a graph and in a report, all in lines of JSON and in a page.
pub(crate) fn facts_by(format: Format) -> Chosen
    ensures { result ≡ facts_by_format format }
{
    match format {
        Format::Dot | Format::Calls | Format::Blocks | Format::Report => NONE,
        Format::Json | Format::JsonPaths | Format::JsonChanges | Format::Steps => ALL,
        Format::Html | Format::HtmlPaths | Format::HtmlSteps => ALL,
    }
}
