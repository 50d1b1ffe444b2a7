// Lists of words, with commas between them.

ghost use Rattle.std.specs.Prelude.{◌≡◌};
ghost use Rattle.flow_runs.specs.Words.{has_word};

/// Whether a list has a word between its commas.
pub fn has_word(list: &str, word: &str) -> bool
    ensures { result ≡ has_word word.now list.now }
{
    list.split(',').any(|one| one == word)
}
