// The program's words, read by `clap`.

ghost use Rattle.std.specs.Prelude.{◌≡◌, Some, false, map, codes, is_some, IfOk, IfSome, option_and_then, option_map};
ghost use Rattle.std.specs.String.{string_bytes};
ghost use Rattle.clap.specs.Words.{FailsBy, app_of, first_of, found_of, rows_of, rule_of};
ghost use Rattle.flow_runs.specs.Words.{AreKindsOf, flag_rule, kind_rule, text_rule};
ghost use Rattle.flow_runs.specs.code.Matches.{HoldsKind};
ghost use Rattle.lint_commands.specs.Commands.{AnswersWords, NamesOptions, files_queried, form_command, kinds_command};
ghost use Rattle.lint_commands.specs.Commands.{knows_kinds, option_kinds, style_command, taclint_command, words_rule};
ghost use Rattle.lint_commands.specs.Kinds.{coloring_named, colorings as known_colorings, form_named, forms as known_forms, kinds_queried};
ghost use Rattle.lint_commands.specs.code.Matches.{HoldsOptions};

use crate::OutOfMemory;
use crate::kinds::kinds_of;
use crate::options::{Coloring, Form, Options};
use clap::builder::PossibleValue;
use clap::error::ErrorKind;
use clap::{Arg, ArgAction, ArgMatches, Command, Error};
use flow_runs::{
    has_flag, kind_word, limits_by, limits_option, number_of, sizes, text_found, workers_option,
};
use lint_texts::Kinds;
use std::alloc::Global;

const ABOUT: &str =
    "Tells what is worth a look in programs of three-address code, line by line, or what is wrong with a text that is no program.";

const AFTER_HELP: &str =
    "Examples:\n  taclint examples/remarks.tac\n  taclint --kinds all --error a.tac b.tac\n  taclint < program.tac\n\n\
    Exit status:\n  \
    0  all files are programs\n  \
    1  with --error: all are, and a remark was told\n  \
    2  the words were refused\n  \
    3  a text was refused or lacks the procedure, or reading, writing or memory failed";

const NO_KINDS: &str =
    "the value of '--kinds <LIST>' is all, or words of dead, unset, never-called, never-reached, computed and busy with commas \
    between them";

fn coloring_of(word: &str) -> Option<Coloring>
    ensures { result ≡ coloring_named word.now }
{
    match word {
        "auto" => Some(Coloring::Auto),
        "always" => Some(Coloring::Always),
        "never" => Some(Coloring::Never),
        _ => None,
    }
}

fn colorings<'a>() -> [PossibleValue<'a>; 3]
    ensures { AreKindsOf known_colorings result }
{
    [
        PossibleValue::new("auto").help("At a terminal, but where NO_COLOR is set"),
        PossibleValue::new("always").help("Anywhere"),
        PossibleValue::new("never").help("Nowhere"),
    ]
}

fn form_of(word: &str) -> Option<Form>
    ensures { result ≡ form_named word.now }
{
    match word {
        "text" => Some(Form::Text),
        "json" => Some(Form::Json),
        _ => None,
    }
}

fn forms<'a>() -> [PossibleValue<'a>; 2]
    ensures { AreKindsOf known_forms result }
{
    [
        PossibleValue::new("text").help("Lines for a reader"),
        PossibleValue::new("json").help("Lines of JSON, for tools"),
    ]
}

fn kinds_option<'a>(alloc: Global) -> Arg<'a>
    ensures rule { rule_of result ≡ text_rule (codes "kinds") }
    ensures own { result.global ≡ false }
{
    Arg::new(alloc, "kinds")
        .long("kinds")
        .value_name("LIST")
        .action(ArgAction::Set)
        .help(
            "What is told: all, or words of dead, unset, never-called, never-reached, computed and busy with commas between them; without it \
            the first four",
        )
}

fn procedure_option<'a>(alloc: Global) -> Arg<'a>
    ensures rule { rule_of result ≡ text_rule (codes "procedure") }
    ensures own { result.global ≡ false }
{
    Arg::new(alloc, "procedure")
        .long("procedure")
        .value_name("NAME")
        .action(ArgAction::Set)
        .help("The one procedure of which remarks are told; each file has to have it")
}

fn why_option<'a>(alloc: Global) -> Arg<'a>
    ensures rule { rule_of result ≡ flag_rule (codes "why") }
    ensures own { result.global ≡ false }
{
    Arg::new(alloc, "why")
        .long("why")
        .action(ArgAction::SetTrue)
        .help(
            "Tell behind each variable that may be used before it is set the way by which that comes to be",
        )
}

fn format_option<'a>(alloc: Global, forms: &'a [PossibleValue<'a>]) -> Arg<'a>
    ensures rule { rule_of result ≡ kind_rule (codes "format") (codes "text") forms.entry }
    ensures own { result.global ≡ false }
{
    Arg::new(alloc, "format")
        .long("format")
        .value_name("FORM")
        .action(ArgAction::Set)
        .value_parser(forms)
        .default_value("text")
        .help("How it is written")
}

fn source_option<'a>(alloc: Global) -> Arg<'a>
    ensures rule { rule_of result ≡ flag_rule (codes "source") }
    ensures own { result.global ≡ false }
{
    Arg::new(alloc, "source")
        .long("source")
        .action(ArgAction::SetTrue)
        .help("Show the line of the source behind each remark and error, as at a terminal")
}

fn color_option<'a>(alloc: Global, colorings: &'a [PossibleValue<'a>]) -> Arg<'a>
    ensures rule { rule_of result ≡ kind_rule (codes "color") (codes "auto") colorings.entry }
    ensures own { result.global ≡ false }
{
    Arg::new(alloc, "color")
        .long("color")
        .value_name("WHEN")
        .action(ArgAction::Set)
        .value_parser(colorings)
        .default_value("auto")
        .help("When there are colours")
}

fn error_option<'a>(alloc: Global) -> Arg<'a>
    ensures rule { rule_of result ≡ flag_rule (codes "error") }
    ensures own { result.global ≡ false }
{
    Arg::new(alloc, "error")
        .long("error")
        .action(ArgAction::SetTrue)
        .help("End with status 1 where a remark is told")
}

fn files_words<'a>(alloc: Global) -> Arg<'a>
    ensures rule { rule_of result ≡ words_rule (codes "files") }
    ensures own { result.global ≡ false }
{
    Arg::new(alloc, "files")
        .value_name("FILE")
        .action(ArgAction::Append)
        .help("The files, each a program by itself; - is standard input, and so is none")
}

// The command with the options that say what is told.
fn kinds_command<'a>(
    alloc: Global,
    sizes: &'a [PossibleValue<'a>],
) -> Result<Command<'a>, OutOfMemory>
    ensures { IfOk result (λ c. app_of c ≡ kinds_command sizes.entry) }
{
    Command::new(alloc, "taclint")
        .about(ABOUT)
        .after_help(AFTER_HELP)
        .arg(limits_option(alloc, sizes))?
        .arg(kinds_option(alloc))?
        .arg(procedure_option(alloc))
}

// The command with these, and with those that say whether ways are told, and in which form it is written.
fn form_command<'a>(
    alloc: Global,
    sizes: &'a [PossibleValue<'a>],
    forms: &'a [PossibleValue<'a>],
) -> Result<Command<'a>, OutOfMemory>
    ensures { IfOk result (λ c. app_of c ≡ form_command sizes.entry forms.entry) }
{
    kinds_command(alloc, sizes)?
        .arg(why_option(alloc))?
        .arg(format_option(alloc, forms))
}

// The command with these, and with those that say how it is shown.
fn style_command<'a>(
    alloc: Global,
    sizes: &'a [PossibleValue<'a>],
    forms: &'a [PossibleValue<'a>],
    colorings: &'a [PossibleValue<'a>],
) -> Result<Command<'a>, OutOfMemory>
    ensures { IfOk result (λ c. app_of c ≡ style_command sizes.entry forms.entry colorings.entry) }
{
    form_command(alloc, sizes, forms)?
        .arg(source_option(alloc))?
        .arg(color_option(alloc, colorings))
}

fn command<'a>(
    alloc: Global,
    sizes: &'a [PossibleValue<'a>],
    forms: &'a [PossibleValue<'a>],
    colorings: &'a [PossibleValue<'a>],
) -> Result<Command<'a>, OutOfMemory>
    ensures { IfOk result (λ c. app_of c ≡ taclint_command sizes.entry forms.entry colorings.entry) }
{
    style_command(alloc, sizes, forms, colorings)?
        .arg(error_option(alloc))?
        .arg(workers_option(alloc))?
        .arg(files_words(alloc))
}

// The form that was found.
fn form_by(matches: &ArgMatches<'_>) -> Form
    requires { HoldsKind known_forms (rows_of (found_of matches.now)) (codes "format") }
    ensures { option_and_then form_named (first_of (codes "format") (rows_of (found_of matches.now))) ≡ Some result }
{
    form_of(kind_word(matches, "format")).unwrap()
}

// When there are colours, as was found.
fn color_by(matches: &ArgMatches<'_>) -> Coloring
    requires { HoldsKind known_colorings (rows_of (found_of matches.now)) (codes "color") }
    ensures { option_and_then coloring_named (first_of (codes "color") (rows_of (found_of matches.now))) ≡ Some result }
{
    coloring_of(kind_word(matches, "color")).unwrap()
}

// The kinds that were asked for. None where the list that was found names no kinds.
fn kinds_found(matches: &ArgMatches<'_>) -> Option<Kinds>
    ensures { result ≡ kinds_queried (first_of (codes "kinds") (rows_of (found_of matches.now))) }
{
    match matches.get_str("kinds") {
        Some(list) => kinds_of(list),
        None => Some(Kinds::usual()),
    }
}

// Copies of words.
fn copies(alloc: Global, words: &[&str]) -> Result<Vec<String>, OutOfMemory>
    ensures { IfOk result (λ copies. map string_bytes copies.items ≡ map (λ w. w.now) words.now) }
{
    let mut copies = Vec::new(alloc);
    for word in words {
        copies.push(String::from_str(alloc, word)?)?;
    }
    Ok(copies)
}

// Copies of the files' names.
fn files_found(alloc: Global, matches: &ArgMatches<'_>) -> Result<Vec<String>, OutOfMemory>
    ensures { IfOk result (λ files. files_queried (rows_of (found_of matches.now)) ≡ map string_bytes files.items) }
{
    match matches.get_strs("files") {
        Some(words) => copies(alloc, words),
        None => Ok(Vec::new(alloc)),
    }
}

// The options that the matches name. None where the list of kinds names no kinds.
fn options_of(alloc: Global, matches: &ArgMatches<'_>) -> Result<Option<Options>, OutOfMemory>
    requires { HoldsOptions (rows_of (found_of matches.now)) }
    ensures options { IfOk result (λ options. IfSome options (NamesOptions (rows_of (found_of matches.now)))) }
    ensures known { IfOk result (λ options. is_some options ≡ knows_kinds (rows_of (found_of matches.now))) }
{
    let limits = limits_by(matches);
    let why = has_flag(matches, "why");
    let format = form_by(matches);
    let source = has_flag(matches, "source");
    let color = color_by(matches);
    let error = has_flag(matches, "error");
    let workers = number_of(matches, "workers");
    let Some(kinds) = kinds_found(matches) else {
        return Ok(None);
    };
    let procedure = text_found(alloc, matches, "procedure")?;
    let files = files_found(alloc, matches)?;
    Ok(Some(Options {
        limits,
        kinds,
        procedure,
        why,
        format,
        source,
        color,
        error,
        workers,
        files,
    }))
}

// The options that the matches name, or an error of the command where the list of kinds names no kinds.
fn named_options(
    alloc: Global,
    command: &mut Command<'_>,
    matches: &ArgMatches<'_>,
) -> Result<Options, Error>
    requires { HoldsOptions (rows_of (found_of matches.now)) }
    ensures options { IfOk result (NamesOptions (rows_of (found_of matches.now))) }
    ensures faults { FailsBy (option_kinds (rows_of (found_of matches.now))) result }
{
    match options_of(alloc, matches)? {
        Some(options) => Ok(options),
        None => Err(command.error(ErrorKind::InvalidValue, NO_KINDS)?),
    }
}

impl Options {
    /// The options that the program's words name, of which the first is the program's own name:
    /// `taclint [--limits SIZE] [--kinds LIST] [--procedure NAME] [--why] [--format FORM] [--source] [--color WHEN] [--error] [--workers N] [FILE ..]`.
    /// Without an option stands its default: `standard`, the usual kinds, all procedures, `text`, `auto`, 1.
    ///
    /// Refuses words that the command does not take, a word that is no limits, no form or none of colours, a number outside its range and a
    /// list that names no kinds among them, and a call for help; or memory was refused.
    pub fn from_words<'a>(alloc: Global, words: &'a [&'a str]) -> Result<Options, Error>
        ensures { AnswersWords (map (λ w. w.now) words.entry.now) result }
    {
        let sizes = sizes();
        let forms = forms();
        let colorings = colorings();
        let mut command = command(
            alloc,
            sizes.as_slice(),
            forms.as_slice(),
            colorings.as_slice(),
        )?;
        let words: &[&str] = words;
        match command.try_get_matches_from_mut(words) {
            Ok(matches) => named_options(alloc, &mut command, &matches),
            Err(error) => Err(error),
        }
    }
}
