// Which kinds of lints a list of words names.

ghost use Rattle.std.specs.Prelude.{◌≡◌};
ghost use Rattle.std.specs.List.{list_all};
ghost use Rattle.flow_runs.specs.Words.{words_in};
ghost use Rattle.lint_commands.specs.Kinds.{is_kind, kinds_in, kinds_named};

use flow_runs::has_word;
use lint_texts::Kinds;

/// All kinds.
const ALL: Kinds = Kinds {
    never_called: true,
    never_reached: true,
    unset: true,
    computed: true,
    busy: true,
    dead: true,
};

// Whether the word is that of a kind.
fn is_kind(word: &str) -> bool
    ensures { result ≡ is_kind word.now }
{
    "dead" == word
        || "unset" == word
        || "never-called" == word
        || "never-reached" == word
        || "computed" == word
        || "busy" == word
}

fn has_kinds_alone(list: &str) -> bool
    ensures { result ≡ list_all is_kind (words_in list.now) }
{
    list.split(',').all(|word| is_kind(word))
}

fn kinds_in(list: &str) -> Kinds
    ensures { result ≡ kinds_in list.now }
{
    Kinds {
        never_called: has_word(list, "never-called"),
        never_reached: has_word(list, "never-reached"),
        unset: has_word(list, "unset"),
        computed: has_word(list, "computed"),
        busy: has_word(list, "busy"),
        dead: has_word(list, "dead"),
    }
}

/// The kinds that a list names: `all`, or words of `dead`, `unset`, `never-called`, `never-reached`, `computed` and `busy` with commas
/// between them. None where it is no such list.
pub(crate) fn kinds_of(list: &str) -> Option<Kinds>
    ensures { result ≡ kinds_named list.now }
{
    match list {
        "all" => Some(ALL),
        _ if has_kinds_alone(list) => Some(kinds_in(list)),
        _ => None,
    }
}
