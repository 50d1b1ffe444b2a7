// The program's words, read by `clap`.

ghost use Rattle.std.specs.Prelude.{◌≡◌, ◌&&◌, Some, bytes_eq, false, map, not, codes, is_some, IfOk, IfSome, option_and_then, option_map};
ghost use Rattle.std.specs.Option.{option_map_or};
ghost use Rattle.std.specs.String.{string_bytes};
ghost use Rattle.clap.specs.Words.{FailsBy, app_of, first_of, found_of, rows_of, rule_of};
ghost use Rattle.flow_runs.specs.Words.{AreKindsOf, flag_rule, has_flag, kind_rule, text_rule};
ghost use Rattle.flow_runs.specs.code.Matches.{HoldsKind};
ghost use Rattle.part_texts.specs.Shares.{some_share};
ghost use Rattle.view_words.specs.Commands.{AnswersWords, NamesOptions, format_queried, has_look, has_part, is_bare};
ghost use Rattle.view_words.specs.Commands.{block_format, call_format, fits_blocks, has_paths, has_picture, has_title, is_given, is_plain, lines_format};
ghost use Rattle.view_words.specs.Commands.{has_source, looks_at_facts, looks_at_points, shape_command, shows_no_facts, source_command, source_format};
ghost use Rattle.view_words.specs.Commands.{knows_facts, look_command, look_queried};
ghost use Rattle.view_words.specs.Commands.{form_command, known_share, knows_share, option_kinds, part_command, picture_command, part_format, shown_format};
ghost use Rattle.view_words.specs.Commands.{tacview_command, view_command};
ghost use Rattle.view_words.specs.Kinds.{facts_queried, format_named, formats as known_formats, with_paths};
ghost use Rattle.view_words.specs.code.Matches.{HoldsOptions};

use crate::facts::{facts_by, facts_of};
use crate::formats::{
    with_blocks, with_calls, with_changes, with_part, with_paths, with_picture, with_source,
    with_title,
};
use crate::options::{Asked, Format, Options};
use crate::steps::{step_command, step_format};
use clap::builder::PossibleValue;
use clap::error::ErrorKind;
use clap::{Arg, ArgAction, ArgMatches, Command, Error};
use flow_runs::{
    OutOfMemory, cut_option, has_flag, kind_word, limits_by, limits_option, number_of, sizes,
    text_found, workers_option,
};
use flow_views::{Chosen, Look};
use part_texts::Share;
use std::alloc::Global;

const ABOUT: &str =
    "Reads a program of three-address code from standard input, and writes its flow graph to standard output, with what holds at its points, or the \
    report on it, or a page around it.";

const AFTER_HELP: &str =
    "As the first word:\n      --merge FILE ..  Write the report, or the lines of JSON, that the files make, which are its parts\n\nIn a picture:\n  \
    grey          no valid path leads there\n  \
    red           a variable may be used before it is set\n  \
    yellow        the assignment is dead\n  \
    two borders   what follows may never end\n  \
    solid arrow   a step; T: the test holds, F: it does not\n  \
    dotted line   from a call to the point behind it\n  \
    dashed arrow  a call or a return, with the line of the call\n\nExamples:\n  tacview < program.tac | dot -Tsvg > program.svg\n  \
    tacview --format json --facts reach,live --procedure main < program.tac\n  \
    tacview --facts reach --hide-entry --facts-behind < program.tac | dot -Tsvg > sets.svg\n  \
    tacview --calls < program.tac | dot -Tsvg > calls.svg\n  \
    tacview --blocks --facts reach < program.tac | dot -Tsvg > blocks.svg\n  \
    tacview --because 12:x < program.tac | dot -Tsvg > path.svg\n  \
    tacview --format json --facts none --paths < program.tac\n  \
    tacview --facts reach --changes < program.tac | dot -Tsvg > changes.svg\n  \
    tacview --format json --changes < program.tac\n  \
    tacview --format json --changes --source < program.tac\n  \
    tacview --format json --steps --procedure main --facts live < program.tac\n  \
    tacview --format html --paths --source --title program.tac < program.tac > program.html\n  \
    tacview --format report --limits large < program.tac\n  \
    tacview --format report --part 1/4 < program.tac > part1\n  \
    tacview --merge part1 part2 part3 part4\n\nExit status:\n  \
    0  it was written, or help was asked for\n  \
    1  the text was refused, what is asked for is not there, or too large for --steps, or reading, writing or memory failed; standard error has one line on it\n  \
    2  the words were refused";

const NO_VALUE: &str =
    "the value of '--facts <LIST>' is none, all, or words of reach, live, avail and busy with commas between them, and that of '--part <K/N>' \
    the number of a part, from 1 on, a slash, and of how many parts, at most 4096";

const NO_FORMAT: &str =
    "'--paths' goes with '--format json' or 'html', '--changes' with '--format dot', or 'json' without '--paths', '--because', '--hide-entry', \
    '--facts-behind', '--facts-on-hover' and '--legend' with '--format dot', '--calls' with '--format dot' and, of all these, '--legend' alone, \
    without '--procedure' and '--facts' other than none, '--blocks' with '--format dot' without '--calls', '--because', '--changes' and \
    '--facts-behind', '--steps' with '--procedure' and '--format json' or 'html', without '--paths', '--changes' and '--part', \
    '--part' with '--format report', or with '--format json', \
    '--facts none' and no '--procedure', '--source' with '--format json' without '--part', or 'html', without '--steps', and '--title' with \
    '--format html'";

fn format_of(word: &str) -> Option<Format>
    ensures { result ≡ format_named word.now }
{
    match word {
        "dot" => Some(Format::Dot),
        "json" => Some(Format::Json),
        "report" => Some(Format::Report),
        "html" => Some(Format::Html),
        _ => None,
    }
}

fn formats<'a>() -> [PossibleValue<'a>; 4]
    ensures { AreKindsOf known_formats result }
{
    [
        PossibleValue::new("dot").help("A graph for Graphviz"),
        PossibleValue::new("json").help("Lines of JSON, one object a line"),
        PossibleValue::new("report").help(
            "The report of tacflow, of the whole program whatever --facts and --procedure say",
        ),
        PossibleValue::new("html").help("A page that shows the program with its remarks and facts"),
    ]
}

fn format_option<'a>(alloc: Global, formats: &'a [PossibleValue<'a>]) -> Arg<'a>
    ensures rule { rule_of result ≡ kind_rule (codes "format") (codes "dot") formats.entry }
    ensures own { result.global ≡ false }
{
    Arg::new(alloc, "format")
        .long("format")
        .value_name("KIND")
        .action(ArgAction::Set)
        .value_parser(formats)
        .default_value("dot")
        .help("What to write")
}

fn facts_option<'a>(alloc: Global) -> Arg<'a>
    ensures rule { rule_of result ≡ text_rule (codes "facts") }
    ensures own { result.global ≡ false }
{
    Arg::new(alloc, "facts")
        .long("facts")
        .value_name("LIST")
        .action(ArgAction::Set)
        .help(
            "What is shown of each point: none, all, or words of reach, live, avail and busy with commas between them; without it none in a graph \
            and all in JSON",
        )
}

fn hide_entry_option<'a>(alloc: Global) -> Arg<'a>
    ensures rule { rule_of result ≡ flag_rule (codes "hide-entry") }
    ensures own { result.global ≡ false }
{
    Arg::new(alloc, "hide-entry")
        .long("hide-entry")
        .action(ArgAction::SetTrue)
        .help("With --format dot: leave the values at the beginning, NAME@entry, out of the facts")
}

fn facts_behind_option<'a>(alloc: Global) -> Arg<'a>
    ensures rule { rule_of result ≡ flag_rule (codes "facts-behind") }
    ensures own { result.global ≡ false }
{
    Arg::new(alloc, "facts-behind")
        .long("facts-behind")
        .action(ArgAction::SetTrue)
        .help("With --format dot: facts also behind each statement that is no call")
}

fn facts_on_hover_option<'a>(alloc: Global) -> Arg<'a>
    ensures rule { rule_of result ≡ flag_rule (codes "facts-on-hover") }
    ensures own { result.global ≡ false }
{
    Arg::new(alloc, "facts-on-hover")
        .long("facts-on-hover")
        .action(ArgAction::SetTrue)
        .help("With --format dot: facts in tooltips, which a browser shows over an SVG's nodes")
}

fn legend_option<'a>(alloc: Global) -> Arg<'a>
    ensures rule { rule_of result ≡ flag_rule (codes "legend") }
    ensures own { result.global ≡ false }
{
    Arg::new(alloc, "legend")
        .long("legend")
        .action(ArgAction::SetTrue)
        .help("With --format dot: a box that tells what the marks mean")
}

fn calls_option<'a>(alloc: Global) -> Arg<'a>
    ensures rule { rule_of result ≡ flag_rule (codes "calls") }
    ensures own { result.global ≡ false }
{
    Arg::new(alloc, "calls")
        .long("calls")
        .action(ArgAction::SetTrue)
        .help("With --format dot: the call graph, a node a procedure")
}

fn blocks_option<'a>(alloc: Global) -> Arg<'a>
    ensures rule { rule_of result ≡ flag_rule (codes "blocks") }
    ensures own { result.global ≡ false }
{
    Arg::new(alloc, "blocks")
        .long("blocks")
        .action(ArgAction::SetTrue)
        .help("With --format dot: basic blocks, and their facts as IN, OUT, gen and kill")
}

fn procedure_option<'a>(alloc: Global) -> Arg<'a>
    ensures rule { rule_of result ≡ text_rule (codes "procedure") }
    ensures own { result.global ≡ false }
{
    Arg::new(alloc, "procedure")
        .long("procedure")
        .value_name("NAME")
        .action(ArgAction::Set)
        .help("The one procedure to show; without it all are")
}

fn paths_option<'a>(alloc: Global) -> Arg<'a>
    ensures rule { rule_of result ≡ flag_rule (codes "paths") }
    ensures own { result.global ≡ false }
{
    Arg::new(alloc, "paths")
        .long("paths")
        .action(ArgAction::SetTrue)
        .help(
            "With --format json or html: what stands around each remark, and a path for each variable that may be unset",
        )
}

fn changes_option<'a>(alloc: Global) -> Arg<'a>
    ensures rule { rule_of result ≡ flag_rule (codes "changes") }
    ensures own { result.global ≡ false }
{
    Arg::new(alloc, "changes")
        .long("changes")
        .action(ArgAction::SetTrue)
        .help("With --format dot or json: what changes from point to point in place of each set")
}

fn because_option<'a>(alloc: Global) -> Arg<'a>
    ensures rule { rule_of result ≡ text_rule (codes "because") }
    ensures own { result.global ≡ false }
{
    Arg::new(alloc, "because")
        .long("because")
        .value_name("PLACE")
        .action(ArgAction::Set)
        .help(
            "With --format dot: mark a path on which a variable is not set before it is used at LINE, or at LINE:NAME the one of this name",
        )
}

fn part_option<'a>(alloc: Global) -> Arg<'a>
    ensures rule { rule_of result ≡ text_rule (codes "part") }
    ensures own { result.global ≡ false }
{
    Arg::new(alloc, "part")
        .long("part")
        .value_name("K/N")
        .action(ArgAction::Set)
        .help(
            "With --format report, or --format json --facts none: part K of N alone, of 4096 at most; 'tacview --merge FILE ..' makes the whole of all \
            of them",
        )
}

fn title_option<'a>(alloc: Global) -> Arg<'a>
    ensures rule { rule_of result ≡ text_rule (codes "title") }
    ensures own { result.global ≡ false }
{
    Arg::new(alloc, "title")
        .long("title")
        .value_name("TEXT")
        .action(ArgAction::Set)
        .help("With --format html: the title of the page")
}

fn source_option<'a>(alloc: Global) -> Arg<'a>
    ensures rule { rule_of result ≡ flag_rule (codes "source") }
    ensures own { result.global ≡ false }
{
    Arg::new(alloc, "source")
        .long("source")
        .action(ArgAction::SetTrue)
        .help("With --format json or html: the lines of the program's text, with comments and all")
}

// The command with the options that say in which form facts are shown, and which.
fn form_command<'a>(
    alloc: Global,
    formats: &'a [PossibleValue<'a>],
) -> Result<Command<'a>, OutOfMemory>
    ensures { IfOk result (λ c. app_of c ≡ form_command formats.entry) }
{
    Command::new(alloc, "tacview")
        .about(ABOUT)
        .after_help(AFTER_HELP)
        .arg(format_option(alloc, formats))?
        .arg(facts_option(alloc))
}

// The command with the options that say how facts are shown.
fn look_command<'a>(
    alloc: Global,
    formats: &'a [PossibleValue<'a>],
) -> Result<Command<'a>, OutOfMemory>
    ensures { IfOk result (λ c. app_of c ≡ look_command formats.entry) }
{
    form_command(alloc, formats)?
        .arg(hide_entry_option(alloc))?
        .arg(facts_behind_option(alloc))
}

// The command with the options that say what a picture has beside its nodes.
fn picture_command<'a>(
    alloc: Global,
    formats: &'a [PossibleValue<'a>],
) -> Result<Command<'a>, OutOfMemory>
    ensures { IfOk result (λ c. app_of c ≡ picture_command formats.entry) }
{
    look_command(alloc, formats)?
        .arg(facts_on_hover_option(alloc))?
        .arg(legend_option(alloc))
}

// The command with the options that say that calls or blocks are shown.
fn shape_command<'a>(
    alloc: Global,
    formats: &'a [PossibleValue<'a>],
) -> Result<Command<'a>, OutOfMemory>
    ensures { IfOk result (λ c. app_of c ≡ shape_command formats.entry) }
{
    picture_command(alloc, formats)?
        .arg(calls_option(alloc))?
        .arg(blocks_option(alloc))
}

// The command with the options that say what is shown.
pub(crate) fn view_command<'a>(
    alloc: Global,
    formats: &'a [PossibleValue<'a>],
) -> Result<Command<'a>, OutOfMemory>
    ensures { IfOk result (λ c. app_of c ≡ view_command formats.entry) }
{
    shape_command(alloc, formats)?
        .arg(procedure_option(alloc))?
        .arg(paths_option(alloc))?
        .arg(changes_option(alloc))
}

// The command with the options of the path that is marked, of the part, and of the title.
fn part_command<'a>(
    alloc: Global,
    formats: &'a [PossibleValue<'a>],
) -> Result<Command<'a>, OutOfMemory>
    ensures { IfOk result (λ c. app_of c ≡ part_command formats.entry) }
{
    step_command(alloc, formats)?
        .arg(because_option(alloc))?
        .arg(part_option(alloc))?
        .arg(title_option(alloc))
}

// The command with the option of the source, too.
fn source_command<'a>(
    alloc: Global,
    formats: &'a [PossibleValue<'a>],
) -> Result<Command<'a>, OutOfMemory>
    ensures { IfOk result (λ c. app_of c ≡ source_command formats.entry) }
{
    part_command(alloc, formats)?.arg(source_option(alloc))
}

fn command<'a>(
    alloc: Global,
    formats: &'a [PossibleValue<'a>],
    sizes: &'a [PossibleValue<'a>],
) -> Result<Command<'a>, OutOfMemory>
    ensures { IfOk result (λ c. app_of c ≡ tacview_command formats.entry sizes.entry) }
{
    source_command(alloc, formats)?
        .arg(limits_option(alloc, sizes))?
        .arg(workers_option(alloc))?
        .arg(cut_option(alloc))
}

// The format that was found.
fn format_by(matches: &ArgMatches<'_>) -> Format
    requires { HoldsKind known_formats (rows_of (found_of matches.now)) (codes "format") }
    ensures { option_and_then format_named (first_of (codes "format") (rows_of (found_of matches.now))) ≡ Some result }
{
    format_of(kind_word(matches, "format")).unwrap()
}

// How a picture is to look.
fn look_found(matches: &ArgMatches<'_>) -> Look
    ensures { result ≡ look_queried (rows_of (found_of matches.now)) }
{
    Look {
        hides_entry: has_flag(matches, "hide-entry"),
        behind: has_flag(matches, "facts-behind"),
        hovers: has_flag(matches, "facts-on-hover"),
        legend: has_flag(matches, "legend"),
        changes: has_flag(matches, "changes"),
    }
}

// Whether it is one of its own.
fn has_look(look: Look) -> bool
    ensures { result ≡ has_look look }
{
    look.hides_entry || look.behind || look.hovers || look.legend
}

// Whether something was asked for that pictures alone have.
fn has_picture(matches: &ArgMatches<'_>) -> bool
    ensures { result ≡ has_picture (rows_of (found_of matches.now)) }
{
    match matches.get_str("because") {
        Some(_) => true,
        None => has_look(look_found(matches)),
    }
}

// The format with paths or without, as it was asked for. None where it has none, and they were asked for.
fn format_with_paths(matches: &ArgMatches<'_>) -> Option<Format>
    requires { HoldsKind known_formats (rows_of (found_of matches.now)) (codes "format") }
    ensures { result ≡ option_and_then (with_paths (has_paths (rows_of (found_of matches.now))))
        (option_and_then format_named (first_of (codes "format") (rows_of (found_of matches.now)))) }
{
    with_paths(has_flag(matches, "paths"), format_by(matches))
}

// Whether a word was given for an option.
pub(crate) fn is_given(matches: &ArgMatches<'_>, name: &str) -> bool
    ensures { result ≡ is_given name.now (rows_of (found_of matches.now)) }
{
    match matches.get_str(name) {
        Some(_) => true,
        None => false,
    }
}

// Whether no facts were asked for, by that word or by no list.
fn shows_no_facts(matches: &ArgMatches<'_>) -> bool
    ensures { result ≡ shows_no_facts (rows_of (found_of matches.now)) }
{
    match matches.get_str("facts") {
        Some(list) => list == "none",
        None => true,
    }
}

// Whether it is a look of facts.
fn looks_at_facts(look: Look) -> bool
    ensures { result ≡ looks_at_facts look }
{
    look.hides_entry || look.behind || look.hovers || look.changes
}

// The first, and none of the others.
fn only_first(first: bool, second: bool, third: bool, fourth: bool) -> bool
    ensures { result ≡ (first && not second && not third && not fourth) }
{
    first && !second && !third && !fourth
}

// Whether nothing was asked for that a call graph has not.
fn is_plain(matches: &ArgMatches<'_>) -> bool
    ensures { result ≡ is_plain (rows_of (found_of matches.now)) }
{
    only_first(
        shows_no_facts(matches),
        looks_at_facts(look_found(matches)),
        is_given(matches, "procedure"),
        is_given(matches, "because"),
    )
}

// Whether it is a look that blocks have not.
fn looks_at_points(look: Look) -> bool
    ensures { result ≡ looks_at_points look }
{
    look.behind || look.changes
}

// None of both.
fn is_neither(first: bool, second: bool) -> bool
    ensures { result ≡ (not first && not second) }
{
    !first && !second
}

// Whether nothing was asked for that blocks have not.
fn fits_blocks(matches: &ArgMatches<'_>) -> bool
    ensures { result ≡ fits_blocks (rows_of (found_of matches.now)) }
{
    is_neither(
        looks_at_points(look_found(matches)),
        is_given(matches, "because"),
    )
}

// Whether a part was asked for.
fn has_part(matches: &ArgMatches<'_>) -> bool
    ensures { result ≡ has_part (rows_of (found_of matches.now)) }
{
    match matches.get_str("part") {
        Some(_) => true,
        None => false,
    }
}

// Whether no facts were asked for, by that word.
fn has_no_facts(matches: &ArgMatches<'_>) -> bool
    ensures { result ≡ option_map_or (λ list. bytes_eq list (codes "none")) (first_of (codes "facts") (rows_of (found_of matches.now))) false }
{
    match matches.get_str("facts") {
        Some(list) => list == "none",
        None => false,
    }
}

// Whether all procedures were asked for, and no facts.
fn is_bare(matches: &ArgMatches<'_>) -> bool
    ensures { result ≡ is_bare (rows_of (found_of matches.now)) }
{
    match matches.get_str("procedure") {
        Some(_) => false,
        None => has_no_facts(matches),
    }
}

// The format with paths or differences or without, as it was asked for. None where it has none, and they were asked for.
fn format_with_changes(matches: &ArgMatches<'_>) -> Option<Format>
    requires { HoldsKind known_formats (rows_of (found_of matches.now)) (codes "format") }
    ensures { result ≡ lines_format (rows_of (found_of matches.now)) }
{
    match format_with_paths(matches) {
        Some(format) => with_changes(has_flag(matches, "changes"), format),
        None => None,
    }
}

// The format with paths, or with one that is marked, as it was asked for. None where it has none, and that was asked for.
fn shown_format(matches: &ArgMatches<'_>) -> Option<Format>
    requires { HoldsKind known_formats (rows_of (found_of matches.now)) (codes "format") }
    ensures { result ≡ shown_format (rows_of (found_of matches.now)) }
{
    match format_with_changes(matches) {
        Some(format) => with_picture(has_picture(matches), format),
        None => None,
    }
}

// The same of points or of calls. None where it has no calls, and they were asked for.
fn call_format(matches: &ArgMatches<'_>) -> Option<Format>
    requires { HoldsKind known_formats (rows_of (found_of matches.now)) (codes "format") }
    ensures { result ≡ call_format (rows_of (found_of matches.now)) }
{
    match shown_format(matches) {
        Some(format) => with_calls(has_flag(matches, "calls"), is_plain(matches), format),
        None => None,
    }
}

// The same of points, calls or blocks. None where it has no blocks, and they were asked for.
pub(crate) fn block_format(matches: &ArgMatches<'_>) -> Option<Format>
    requires { HoldsKind known_formats (rows_of (found_of matches.now)) (codes "format") }
    ensures { result ≡ block_format (rows_of (found_of matches.now)) }
{
    match call_format(matches) {
        Some(format) => with_blocks(has_flag(matches, "blocks"), fits_blocks(matches), format),
        None => None,
    }
}

// The same, whole or a part of it. None where it has no parts, and one was asked for.
fn part_format(matches: &ArgMatches<'_>) -> Option<Format>
    requires { HoldsKind known_formats (rows_of (found_of matches.now)) (codes "format") }
    ensures { result ≡ part_format (rows_of (found_of matches.now)) }
{
    match step_format(matches) {
        Some(format) => with_part(has_part(matches), is_bare(matches), format),
        None => None,
    }
}

// The same with the lines of the source or without. None where it has none, and they were asked for.
fn source_format(matches: &ArgMatches<'_>) -> Option<Format>
    requires { HoldsKind known_formats (rows_of (found_of matches.now)) (codes "format") }
    ensures { result ≡ source_format (rows_of (found_of matches.now)) }
{
    match part_format(matches) {
        Some(format) => with_source(has_flag(matches, "source"), has_part(matches), format),
        None => None,
    }
}

// Whether a title was asked for.
fn has_title(matches: &ArgMatches<'_>) -> bool
    ensures { result ≡ has_title (rows_of (found_of matches.now)) }
{
    match matches.get_str("title") {
        Some(_) => true,
        None => false,
    }
}

// The format that was asked for. None where it does not have what was asked for: paths, differences, a path that is marked or a look, a
// part, the lines of the source, or a title.
fn format_found(matches: &ArgMatches<'_>) -> Option<Format>
    requires { HoldsKind known_formats (rows_of (found_of matches.now)) (codes "format") }
    ensures { result ≡ format_queried (rows_of (found_of matches.now)) }
{
    match source_format(matches) {
        Some(format) => with_title(has_title(matches), format),
        None => None,
    }
}

// The facts that were asked for. None where the list that was found names no facts.
fn facts_found(matches: &ArgMatches<'_>, format: Format) -> Option<Chosen>
    ensures { result ≡ facts_queried format (first_of (codes "facts") (rows_of (found_of matches.now))) }
{
    match matches.get_str("facts") {
        Some(list) => facts_of(list),
        None => Some(facts_by(format)),
    }
}

// The part that was asked for. None where the words name none.
fn share_found(matches: &ArgMatches<'_>) -> Option<Option<Share>>
    ensures { option_map some_share result ≡ known_share (first_of (codes "part") (rows_of (found_of matches.now))) }
{
    match matches.get_str("part") {
        Some(words) => match Share::read(words.as_bytes()) {
            Some(share) => Some(Some(share)),
            None => None,
        },
        None => Some(None),
    }
}

// What is asked for by its name, and this part.
fn asked_by(
    alloc: Global,
    matches: &ArgMatches<'_>,
    share: Option<Share>,
) -> Result<Asked, OutOfMemory>
    ensures procedure { IfOk result (λ asked. option_map string_bytes asked.procedure
        ≡ first_of (codes "procedure") (rows_of (found_of matches.now))) }
    ensures because { IfOk result (λ asked. option_map string_bytes asked.because ≡ first_of (codes "because") (rows_of (found_of matches.now))) }
    ensures title { IfOk result (λ asked. option_map string_bytes asked.title ≡ first_of (codes "title") (rows_of (found_of matches.now))) }
    ensures share { IfOk result (λ asked. asked.share ≡ share) }
    ensures source { IfOk result (λ asked. asked.source ≡ has_source (rows_of (found_of matches.now))) }
    ensures look { IfOk result (λ asked. asked.look ≡ look_queried (rows_of (found_of matches.now))) }
{
    let procedure = text_found(alloc, matches, "procedure")?;
    let because = text_found(alloc, matches, "because")?;
    let title = text_found(alloc, matches, "title")?;
    Ok(Asked {
        procedure,
        because,
        share,
        title,
        source: has_flag(matches, "source"),
        look: look_found(matches),
    })
}

// The options that the matches name, of which the format is found. None where the list of facts names no facts, or the words for a part
// name none.
fn options_of(
    alloc: Global,
    matches: &ArgMatches<'_>,
    format: Format,
) -> Result<Option<Options>, OutOfMemory>
    requires held { HoldsOptions (rows_of (found_of matches.now)) }
    requires format { format_queried (rows_of (found_of matches.now)) ≡ Some format }
    ensures options { IfOk result (λ options. IfSome options (NamesOptions (rows_of (found_of matches.now)))) }
    ensures known { IfOk result (λ options. is_some options
        ≡ (knows_facts (rows_of (found_of matches.now)) && knows_share (rows_of (found_of matches.now)))) }
{
    let workers = number_of(matches, "workers");
    let cut = number_of(matches, "cut");
    let limits = limits_by(matches);
    let Some(facts) = facts_found(matches, format) else {
        return Ok(None);
    };
    let Some(share) = share_found(matches) else {
        return Ok(None);
    };
    let asked = asked_by(alloc, matches, share)?;
    Ok(Options::new(workers, cut, limits, format, facts, asked))
}

// The options that the matches name, or an error of the command where the format has no paths, no path that is marked, or no parts, and
// that was asked for, or where the list of facts names no facts, or the words for a part name none.
fn named_options(
    alloc: Global,
    command: &mut Command<'_>,
    matches: &ArgMatches<'_>,
) -> Result<Options, Error>
    requires { HoldsOptions (rows_of (found_of matches.now)) }
    ensures options { IfOk result (NamesOptions (rows_of (found_of matches.now))) }
    ensures faults { FailsBy (option_kinds (rows_of (found_of matches.now))) result }
{
    let Some(format) = format_found(matches) else {
        return Err(command.error(ErrorKind::ArgumentConflict, NO_FORMAT)?);
    };
    match options_of(alloc, matches, format)? {
        Some(options) => Ok(options),
        None => Err(command.error(ErrorKind::InvalidValue, NO_VALUE)?),
    }
}

impl Options {
    /// The options that the program's words name, of which the first is the program's own name:
    /// `tacview [--format KIND] [--facts LIST] [--hide-entry] [--facts-behind] [--facts-on-hover] [--legend] [--calls] [--blocks]
    /// [--procedure NAME] [--paths] [--changes] [--steps] [--because PLACE] [--part K/N] [--title TEXT] [--source] [--limits SIZE]
    /// [--workers N] [--cut N]`. Without an option stands its default: `dot`, no facts for it and all for `json` and `html`, with entries and
    /// none behind, points, all procedures, no paths, sets and no differences or rounds, no path that is marked, the whole report, no title, no
    /// source, `standard`, 1 and 64.
    ///
    /// Refuses words that the command does not take, a number outside its range, a word that is no format or no limits, a list that names
    /// no facts and words that name no part among them, and a call for help; what a format does not have: paths with others than `json` and
    /// `html`, differences with others than `dot` and `json` or with paths, a path that is marked or a look with another than `dot`, the call
    /// graph with another than `dot`, or with facts, a look of them, one procedure, differences or a path that is marked, rounds with others than
    /// `json` and `html`, or without one procedure, or with paths or differences, a part
    /// with another than `report`, but for `json` of all procedures with `--facts none`, the lines of the source with others than
    /// `json` and `html`, or with a part or rounds, a title with another than `html`; or memory was refused.
    pub fn from_words<'a>(alloc: Global, words: &'a [&'a str]) -> Result<Options, Error>
        ensures { AnswersWords (map (λ w. w.now) words.entry.now) result }
    {
        let formats = formats();
        let sizes = sizes();
        let mut command = command(alloc, formats.as_slice(), sizes.as_slice())?;
        let words: &[&str] = words;
        match command.try_get_matches_from_mut(words) {
            Ok(matches) => named_options(alloc, &mut command, &matches),
            Err(error) => Err(error),
        }
    }
}
