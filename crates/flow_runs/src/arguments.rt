// The options that programs share, and what `clap` found for an option.

ghost use Rattle.std.specs.Prelude.{◌≡◌, ◌≤◌, ◌<◌, ◌^◌, ℕ, Some, false, codes, IfOk, option_and_then, option_map};
ghost use Rattle.std.specs.String.{string_bytes};
ghost use Rattle.clap.specs.Words.{Text, first_of, found_of, rows_of, rule_of};
ghost use Rattle.flow_runs.specs.Words.{AreKindsOf, NamesNumber, has_flag, kind_rule, limits_named, number_rule, sizes as known_sizes};
ghost use Rattle.flow_runs.specs.code.Matches.{HoldsKind, HoldsNumber};

use crate::OutOfMemory;
use clap::builder::PossibleValue;
use clap::{Arg, ArgAction, ArgMatches, value_parser};
use std::alloc::Global;
use tac_program::Limits;

/// `--workers N`: 1 to 64 workers, by default 1.
pub fn workers_option<'a>(alloc: Global) -> Arg<'a>
    ensures rule { rule_of result ≡ number_rule (codes "workers") (codes "1") 64 }
    ensures own { result.global ≡ false }
{
    Arg::new(alloc, "workers")
        .long("workers")
        .value_name("N")
        .action(ArgAction::Set)
        .value_parser(value_parser!(u32).range(1..=64))
        .default_value("1")
        .help("How many threads work, 1 to 64; what is written is the same for each")
}

/// `--cut N`: slices of 1 to 4,096 bits, by default 64.
pub fn cut_option<'a>(alloc: Global) -> Arg<'a>
    ensures rule { rule_of result ≡ number_rule (codes "cut") (codes "64") 4096 }
    ensures own { result.global ≡ false }
{
    Arg::new(alloc, "cut")
        .long("cut")
        .value_name("N")
        .action(ArgAction::Set)
        .value_parser(value_parser!(u32).range(1..=4096))
        .default_value("64")
        .help(
            "How many bits each of several workers that share an analysis solves at a time, 1 to 4096; what is written is the same for each",
        )
}

/// The words of the limits.
pub fn sizes<'a>() -> [PossibleValue<'a>; 2]
    ensures { AreKindsOf known_sizes result }
{
    [
        PossibleValue::new("standard").help(
            "A text of 1,048,576 bytes, 256 procedures, 16,384 points, 4,096 bits in each analysis",
        ),
        PossibleValue::new("large").help(
            "A text of 536,870,912 bytes, 262,144 procedures, 16,777,216 points, 4,194,304 variables, as many expressions",
        ),
    ]
}

/// `--limits SIZE`: one of these words, by default `standard`.
pub fn limits_option<'a>(alloc: Global, sizes: &'a [PossibleValue<'a>]) -> Arg<'a>
    ensures rule { rule_of result ≡ kind_rule (codes "limits") (codes "standard") sizes.entry }
    ensures own { result.global ≡ false }
{
    Arg::new(alloc, "limits")
        .long("limits")
        .value_name("SIZE")
        .action(ArgAction::Set)
        .value_parser(sizes)
        .default_value("standard")
        .help("How large a text and its program may be")
}

fn limits_of(word: &str) -> Option<Limits>
    ensures { result ≡ limits_named word.now }
{
    match word {
        "standard" => Some(Limits::Standard),
        "large" => Some(Limits::Large),
        _ => None,
    }
}

/// The limits that were found.
///
/// The condition: the matches hold a word of limits, which `clap` has checked.
pub fn limits_by(matches: &ArgMatches<'_>) -> Limits
    requires { HoldsKind known_sizes (rows_of (found_of matches.now)) (codes "limits") }
    ensures { option_and_then limits_named (first_of (codes "limits") (rows_of (found_of matches.now))) ≡ Some result }
{
    limits_of(kind_word(matches, "limits")).unwrap()
}

/// Whether an option without a value was there.
pub fn has_flag(matches: &ArgMatches<'_>, name: &str) -> bool
    ensures { result ≡ has_flag name.now (rows_of (found_of matches.now)) }
{
    match matches.get_str(name) {
        Some(word) => word == "true",
        None => false,
    }
}

/// A copy of the text that was found for a name; None where none was. Fails only where memory runs out.
pub fn text_found(
    alloc: Global,
    matches: &ArgMatches<'_>,
    name: &str,
) -> Result<Option<String>, OutOfMemory>
    ensures { IfOk result (λ text. option_map string_bytes text ≡ first_of name.now (rows_of (found_of matches.now))) }
{
    match matches.get_str(name) {
        Some(text) => Ok(Some(String::from_str(alloc, text)?)),
        None => Ok(None),
    }
}

/// The number that was found for a name.
///
/// The condition: the matches hold one for it, from 1 to a limit of 32 bits, which `clap` has checked.
pub fn number_of(matches: &ArgMatches<'_>, name: &str) -> u32
    requires { (most : ℕ) × (most < 2 ^ 32) × HoldsNumber (rows_of (found_of matches.now)) name.now most }
    ensures { NamesNumber (rows_of (found_of matches.now)) name.now result }
{
    matches.get_one::<u32>(name).unwrap()
}

/// The word that was found for a name.
///
/// The condition: the matches hold one for it.
pub fn kind_word<'a>(matches: &ArgMatches<'a>, name: &str) -> &'a str
    requires { (text : Text) × (first_of name.now (rows_of (found_of matches.now)) ≡ Some text) }
    ensures { first_of name.now (rows_of (found_of matches.now)) ≡ Some result.now }
{
    matches.get_str(name).unwrap()
}
