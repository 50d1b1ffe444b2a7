// The rounds of an iteration in one procedure, as they are asked for.

ghost use Rattle.std.specs.Prelude.{◌≡◌, codes, false, IfOk};
ghost use Rattle.clap.specs.Words.{app_of, found_of, rows_of, rule_of};
ghost use Rattle.flow_runs.specs.Words.{flag_rule};
ghost use Rattle.flow_runs.specs.code.Matches.{HoldsKind};
ghost use Rattle.view_words.specs.Commands.{step_command, step_format};
ghost use Rattle.view_words.specs.Kinds.{formats as known_formats};

use crate::formats::with_steps;
use crate::options::Format;
use crate::words::{block_format, is_given, view_command};
use clap::builder::PossibleValue;
use clap::{Arg, ArgAction, ArgMatches, Command};
use flow_runs::{OutOfMemory, has_flag};
use std::alloc::Global;

fn steps_option<'a>(alloc: Global) -> Arg<'a>
    ensures rule { rule_of result ≡ flag_rule (codes "steps") }
    ensures own { result.global ≡ false }
{
    Arg::new(alloc, "steps")
        .long("steps")
        .action(ArgAction::SetTrue)
        .help(
            "With --format json or html, and --procedure: how the sets come about in it, round by round",
        )
}

/// The command with the options that say what is shown, and with that of rounds.
pub(crate) fn step_command<'a>(
    alloc: Global,
    formats: &'a [PossibleValue<'a>],
) -> Result<Command<'a>, OutOfMemory>
    ensures { IfOk result (λ c. app_of c ≡ step_command formats.entry) }
{
    view_command(alloc, formats)?.arg(steps_option(alloc))
}

/// The format that was asked for, with rounds or without, of points, calls or blocks. None where it has no rounds, or no procedure was asked
/// for, and they were.
pub(crate) fn step_format(matches: &ArgMatches<'_>) -> Option<Format>
    requires { HoldsKind known_formats (rows_of (found_of matches.now)) (codes "format") }
    ensures { result ≡ step_format (rows_of (found_of matches.now)) }
{
    match block_format(matches) {
        Some(format) => with_steps(
            has_flag(matches, "steps"),
            is_given(matches, "procedure"),
            format,
        ),
        None => None,
    }
}
