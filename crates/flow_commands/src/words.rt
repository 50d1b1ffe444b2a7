// The program's words, read by `clap`.

ghost use Rattle.std.specs.Prelude.{◌≡◌, Some, false, map, codes, IfOk, option_and_then};
ghost use Rattle.clap.specs.Words.{app_of, first_of, found_of, rows_of, rule_of};
ghost use Rattle.flow_runs.specs.Words.{AreKindsOf, kind_rule};
ghost use Rattle.flow_runs.specs.code.Matches.{HoldsKind};
ghost use Rattle.flow_commands.specs.Commands.{AnswersWords, NamesOptions, tacflow_command};
ghost use Rattle.flow_commands.specs.Kinds.{kinds as known_kinds, show_named};
ghost use Rattle.flow_commands.specs.code.Matches.{HoldsOptions};

use crate::options::{Options, Show};
use clap::builder::PossibleValue;
use clap::{Arg, ArgAction, ArgMatches, Command, Error};
use flow_runs::{OutOfMemory, cut_option, kind_word, number_of, workers_option};
use std::alloc::Global;

const ABOUT: &str =
    "Reads a program of three-address code from standard input, and writes what is asked for to standard output.";

const AFTER_HELP: &str =
    "Examples:\n  tacflow < program.tac\n  tacflow --show live < program.tac\n\nExit status:\n  \
    0  it was written, or help was asked for\n  \
    1  the text was refused, or reading, writing or memory failed; standard error has one line on it\n  2  the words were refused";

fn show_of(word: &str) -> Option<Show>
    ensures { result ≡ show_named word.now }
{
    match word {
        "report" => Some(Show::Report),
        "list" => Some(Show::List),
        "reach" => Some(Show::Reach),
        "live" => Some(Show::Live),
        "avail" => Some(Show::Avail),
        "busy" => Some(Show::Busy),
        _ => None,
    }
}

fn kinds<'a>() -> [PossibleValue<'a>; 6]
    ensures { AreKindsOf known_kinds result }
{
    [
        PossibleValue::new("report").help("Unset uses, dead and repeated work, line by line"),
        PossibleValue::new("list").help("The program itself, in one layout"),
        PossibleValue::new("reach").help("The definitions that reach each point"),
        PossibleValue::new("live").help("The variables that are live at each point"),
        PossibleValue::new("avail").help("The expressions that are available at each point"),
        PossibleValue::new("busy").help("The expressions that are very busy at each point"),
    ]
}

fn show_option<'a>(alloc: Global, kinds: &'a [PossibleValue<'a>]) -> Arg<'a>
    ensures rule { rule_of result ≡ kind_rule (codes "show") (codes "report") kinds.entry }
    ensures own { result.global ≡ false }
{
    Arg::new(alloc, "show")
        .long("show")
        .value_name("KIND")
        .action(ArgAction::Set)
        .value_parser(kinds)
        .default_value("report")
        .help("What to write")
}

fn command<'a>(alloc: Global, kinds: &'a [PossibleValue<'a>]) -> Result<Command<'a>, OutOfMemory>
    ensures { IfOk result (λ c. app_of c ≡ tacflow_command kinds.entry) }
{
    Command::new(alloc, "tacflow")
        .about(ABOUT)
        .after_help(AFTER_HELP)
        .arg(workers_option(alloc))?
        .arg(cut_option(alloc))?
        .arg(show_option(alloc, kinds))
}

// The kind that was found.
fn shown_by(matches: &ArgMatches<'_>) -> Show
    requires { HoldsKind known_kinds (rows_of (found_of matches.now)) (codes "show") }
    ensures { option_and_then show_named (first_of (codes "show") (rows_of (found_of matches.now))) ≡ Some result }
{
    show_of(kind_word(matches, "show")).unwrap()
}

// The options that the matches name.
fn options_of(matches: &ArgMatches<'_>) -> Options
    requires { HoldsOptions (rows_of (found_of matches.now)) }
    ensures { NamesOptions (rows_of (found_of matches.now)) result }
{
    let workers = number_of(matches, "workers");
    let cut = number_of(matches, "cut");
    let show = shown_by(matches);
    Options::new(workers, cut, show).unwrap()
}

impl Options {
    /// The options that the program's words name, of which the first is the program's own name:
    /// `tacflow [--workers N] [--cut N] [--show KIND]`. Without an option stands its default: 1, 64
    /// and `report`.
    ///
    /// Refuses words that the command does not take, a number outside its range and a word that is
    /// no kind among them, and a call for help; or memory was refused.
    pub fn from_words<'a>(alloc: Global, words: &'a [&'a str]) -> Result<Options, Error>
        ensures { AnswersWords (map (λ w. w.now) words.entry.now) result }
    {
        let kinds = kinds();
        let mut command = command(alloc, kinds.as_slice())?;
        let words: &[&str] = words;
        match command.try_get_matches_from_mut(words) {
            Ok(matches) => Ok(options_of(&matches)),
            Err(error) => Err(error),
        }
    }
}
