// What words name.

use clap::error;
use lint_commands::{Coloring, Form, Options};
use lint_styles::Style;
use lint_texts::Kinds;
use std::alloc::Global;
use std::process::Abort;
use std::test::Fail;
use tac_program::Limits;

const ALL: Kinds = Kinds {
    never_called: true,
    never_reached: true,
    unset: true,
    computed: true,
    busy: true,
    dead: true,
};

const NONE: Kinds = Kinds {
    never_called: false,
    never_reached: false,
    unset: false,
    computed: false,
    busy: false,
    dead: false,
};

fn named_by<'a>(alloc: Global, words: &'a [&'a str]) -> Result<Options, error::ErrorKind> {
    match Options::from_words(alloc, words) {
        Ok(options) => Ok(options),
        Err(error) => Err(error.kind()),
    }
}

// The words name these kinds.
fn check_kinds<R: Abort + AllocGlobal>(
    rt: &R,
    list: &'static str,
    kinds: Kinds,
) -> Result<(), Fail> {
    let options = named_by(rt.alloc(), &["taclint", "--kinds", list])?;
    assert!(rt; options.kinds == kinds, "{list}");
    Ok(())
}

#[test]
fn lists_of_kinds(rt: HostRuntime) -> Result<(), Fail> {
    check_kinds(&rt, "all", ALL)?;
    check_kinds(&rt, "dead", Kinds { dead: true, ..NONE })?;
    check_kinds(
        &rt,
        "busy,computed",
        Kinds {
            busy: true,
            computed: true,
            ..NONE
        },
    )?;
    check_kinds(&rt, "unset,never-called,never-reached,dead", Kinds::usual())
}

#[test]
fn words_that_are_taken(rt: HostRuntime) -> Result<(), Fail> {
    let options = named_by(rt.alloc(), &["taclint"])?;
    assert!(rt; options.limits == Limits::Standard && !options.error);
    assert!(rt; options.kinds == Kinds::usual() && options.files.is_empty());
    assert!(rt; !options.source && options.color == Coloring::Auto);
    assert!(rt; options.procedure.is_none() && options.format == Form::Text);
    assert!(rt; !options.why && options.workers == 1);
    let options = named_by(rt.alloc(), &["taclint", "--why", "--workers", "64"])?;
    assert!(rt; options.why && options.workers == 64);
    let options = named_by(rt.alloc(), &["taclint", "--format", "json"])?;
    assert!(rt; options.format == Form::Json);
    let options = named_by(rt.alloc(), &["taclint", "--format=text"])?;
    assert!(rt; options.format == Form::Text);
    let options = named_by(rt.alloc(), &["taclint", "--procedure", "p"])?;
    assert!(rt;
        options
            .procedure
            .as_ref()
            .is_some_and(|name| name.as_str() == "p")
    );
    let options = named_by(
        rt.alloc(),
        &[
            "taclint", "a.tac", "--limits", "large", "-", "--error", "--", "--b",
        ],
    )?;
    assert!(rt; options.limits == Limits::Large && options.error);
    assert_eq!(rt; options.files.len(), 3);
    assert_eq!(rt; options.files[0].as_str(), "a.tac");
    assert_eq!(rt; options.files[1].as_str(), "-");
    assert_eq!(rt; options.files[2].as_str(), "--b");
    Ok(())
}

/// The word for colours, whether lines of the source are asked for, and what is shown at a terminal, there where colours are unwanted, and
/// elsewhere.
type Shown = (&'static str, bool, [(bool, bool); 3]);

fn style((source, color): (bool, bool)) -> Style {
    Style { source, color }
}

// Whether lines of the source are shown, and colours.
const SHOWN: &[Shown] = &[
    ("auto", false, [(true, true), (true, false), (false, false)]),
    ("auto", true, [(true, true), (true, false), (true, false)]),
    ("always", false, [(true, true), (true, true), (false, true)]),
    ("never", true, [(true, false), (true, false), (true, false)]),
];

fn shown_by(alloc: Global, word: &'static str, source: bool) -> Result<Options, Fail> {
    if source {
        Ok(named_by(alloc, &["taclint", "--color", word, "--source"])?)
    } else {
        Ok(named_by(alloc, &["taclint", "--color", word])?)
    }
}

#[test]
fn what_is_shown(rt: HostRuntime) -> Result<(), Fail> {
    for (word, source, styles) in SHOWN {
        let options = shown_by(rt.alloc(), *word, *source)?;
        assert!(rt; options.style(true, false) == style(styles[0]), "{word}");
        assert!(rt; options.style(true, true) == style(styles[1]), "{word}");
        assert!(rt; options.style(false, false) == style(styles[2]), "{word}");
    }
    Ok(())
}

const REFUSED: &[&[&str]] = &[
    &["taclint", "--kinds", "none"],
    &["taclint", "--kinds", ""],
    &["taclint", "--kinds", "dead,"],
    &["taclint", "--kinds", "Dead"],
    &["taclint", "--kinds"],
    &["taclint", "--kinds", "dead", "--kinds", "unset"],
    &["taclint", "--limits", "small"],
    &["taclint", "--error=true"],
    &["taclint", "--source=true"],
    &["taclint", "--color", "red"],
    &["taclint", "--color"],
    &["taclint", "--format", "sarif"],
    &["taclint", "--format", "JSON"],
    &["taclint", "--format"],
    &["taclint", "--format", "json", "--format", "text"],
    &["taclint", "--procedure"],
    &["taclint", "--procedure", "p", "--procedure", "q"],
    &["taclint", "--workers", "0"],
    &["taclint", "--workers", "65"],
    &["taclint", "--workers"],
    &["taclint", "--why=true"],
    &["taclint", "-x"],
    &["taclint", "--help"],
];

#[test]
fn words_that_are_refused(rt: HostRuntime) -> Result<(), Fail> {
    for words in REFUSED {
        assert!(rt; named_by(rt.alloc(), words).is_err());
    }
    Ok(())
}
