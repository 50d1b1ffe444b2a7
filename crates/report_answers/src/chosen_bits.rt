// Which bits of the analyses are asked.

ghost use Rattle.std.specs.Prelude.{◌≡◌, ℕ, ◌≤◌, ◌<◌};
ghost use Rattle.flow_graph.specs.declared.analysis.Analysis.TheVariants.{Busy};
ghost use Rattle.report_answers.specs.code.Chosen.{is_within, wants_word};

use flow_graph::Analysis;

/// Words of 64 bits: those from the first on and before the end.
#[derive(Clone, Copy)]
pub struct WordRange {
    pub first: u32,
    pub end: u32,
}

/// Which bits of the analyses are asked, by whole words.
#[derive(Clone, Copy)]
pub enum ChosenBits {
    /// All.
    All,
    /// Those of some words of the variables, in both analyses of them, and of some words of the expressions.
    Words {
        variables: WordRange,
        expressions: WordRange,
    },
}

impl WordRange {
    // Whether a word is one of them.
    fn has(self, word: u32) -> bool
        ensures { result ≡ is_within self word }
    {
        self.first <= word && word < self.end
    }
}

impl ChosenBits {
    /// Whether the bits of a word are asked.
    pub(crate) fn wants(self, analysis: Analysis, word: u32) -> bool
        ensures { result ≡ wants_word self analysis word }
    {
        match self {
            ChosenBits::All => true,
            ChosenBits::Words {
                variables,
                expressions,
            } => match analysis {
                Analysis::Reach | Analysis::Live => variables.has(word),
                Analysis::Avail | Analysis::Busy => expressions.has(word),
            },
        }
    }

    /// Of so many words of very busy expressions those that are asked.
    pub(crate) fn busy_words(self, words: u32) -> WordRange
        ensures ordered { result.first ≤ result.end }
        ensures within { result.end ≤ words }
        ensures asked { (word : ℕ) → word < words → wants_word self Busy word ≡ is_within result word }
    {
        match self {
            ChosenBits::All => WordRange {
                first: 0,
                end: words,
            },
            ChosenBits::Words {
                variables: _,
                expressions,
            } => {
                let end = expressions.end.min(words);
                let first = expressions.first.min(end);
                WordRange { first, end }
            }
        }
    }
}
