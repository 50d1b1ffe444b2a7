// The words with a bit of the tests' sets of very busy expressions.

ghost use Rattle.std.specs.Prelude.{◌≡◌, ℕ, suc, true, ◌+◌, ◌*◌, ◌^◌, ◌<◌, ◌≤◌, Some, length, slice_get, slice_index, IfOk, MatchOption};
ghost use Rattle.flow_graph.specs.Universes.{bits};
ghost use Rattle.flow_graph.specs.declared.analysis.Analysis.TheVariants.{Busy};
ghost use Rattle.flow_queries.specs.Queries.{AreAnswers, IsWordAt};
ghost use Rattle.report_answers.specs.code.Busy.{AreAsked, AreBusy, AreRoundQueries, Keeps, TellBusy, busy_query, busy_lists};
ghost use Rattle.report_answers.specs.code.Chosen.{wants_word};
ghost use Rattle.report_answers.specs.declared.chosen_bits.ChosenBits.{ChosenBits as Choice};
ghost use Rattle.tac_program.specs.Programs.{Program};

use crate::OutOfMemory;
use crate::chosen_bits::ChosenBits;
use flow_graph::Graph;
use flow_queries::Answers;
use std::alloc::Global;

/// A word of a test's set that has a bit.
#[derive(Clone, Copy)]
pub struct BusyWord {
    /// Which word of the set it is.
    pub word: u32,
    /// The number of the test's next word that has a bit, counted from 1; 0 behind the last.
    pub next: u32,
    /// Its bits.
    pub mask: u64,
}

/// A round of queries: for the tests' sets' words from one on and before another.
#[derive(Clone, Copy)]
pub(crate) struct Round {
    /// Which bits are asked.
    pub(crate) chosen: ChosenBits,
    /// The first word.
    pub(crate) from: u32,
    /// The one behind the last.
    pub(crate) until: u32,
}

/// The words with a bit of the tests' sets of very busy expressions, in a list for each test: most words of most sets have none.
pub(crate) struct BusyWords {
    /// The number of each test's first word, counted from 1; 0 where it has none.
    pub(crate) firsts: Vec<u32>,
    /// The words of all tests.
    pub(crate) words: Vec<BusyWord>,
}

impl Drop for BusyWords {
    // By hand: who gives it up then makes one call.
    fn drop(self) {
        let BusyWords {
            firsts: _,
            words: _,
        } = self;
    }
}

impl BusyWords {
    /// So many empty lists.
    pub(crate) fn empty(alloc: Global, tests: usize) -> Result<BusyWords, OutOfMemory>
        ensures firsts { IfOk result (λ busy. length busy.firsts.items ≡ tests) }
        ensures each { IfOk result (λ busy. (i : ℕ) → slice_index busy.firsts.items i ≡ 0) }
    {
        Ok(BusyWords {
            firsts: vec![in alloc; 0u32; tests]?,
            words: Vec::new(alloc),
        })
    }

    // Puts a word before those of a test, unless it has no bit.
    fn put(&mut self, test: u32, word: u32, mask: u64) -> Result<(), OutOfMemory>
        requires { test < length self.old.firsts.items }
        ensures keeps { IfOk result (λ _. Keeps (busy_lists self.old) (busy_lists self.new) test) }
        ensures answered { IfOk result (λ _. (chosen : Choice) (program : Program) (point : ℕ)
            → IsWordAt program (busy_query point word) mask → 64 * word < bits program Busy → wants_word chosen Busy word ≡ true
            → AreBusy chosen program self.old.words.items point (suc word) (slice_index self.old.firsts.items test)
            → AreBusy chosen program self.new.words.items point word (slice_index self.new.firsts.items test)) }
    {
        if mask == 0 {
            return Ok(());
        }
        let number = self.words.len();
        if number >= u32::MAX as usize {
            return Err(OutOfMemory);
        }
        let next = self.firsts[test as usize];
        self.words.push(BusyWord { word, next, mask })?;
        self.firsts[test as usize] = number as u32 + 1;
        Ok(())
    }

    // Puts the words of a test that a round asked for: its queries stand from one place up to another, the last word first.
    fn put_test(
        &mut self,
        graph: &Graph<'_>,
        answers: &Answers,
        point: u32,
        test: u32,
        places: (u32, u32),
        round: Round,
    ) -> Result<(), OutOfMemory>
        requires test { test < length self.old.firsts.items }
        requires answers { AreAnswers graph.now answers.now }
        requires asked { AreAsked graph.now answers.now.queries point round.from round.until places.0 places.1 }
        requires within { 64 * round.until < bits graph.now Busy + 64 }
        requires wanted { (word : ℕ) → round.from ≤ word → word < round.until → wants_word round.chosen Busy word ≡ true }
        requires ordered { round.from ≤ round.until }
        requires answered { AreBusy round.chosen graph.now self.old.words.items point round.until (slice_index self.old.firsts.items test) }
        ensures keeps { IfOk result (λ _. Keeps (busy_lists self.old) (busy_lists self.new) test) }
        ensures answered { IfOk result
            (λ _. AreBusy round.chosen graph.now self.new.words.items point round.from (slice_index self.new.firsts.items test)) }
    {
        for place in places.0..places.1 {
            let query = answers.query(place as usize);
            self.put(test, query.word, answers.word(place as usize))?;
        }
        Ok(())
    }

    /// Puts what a round asked for before what is there.
    pub(crate) fn put_round(
        &mut self,
        graph: &Graph<'_>,
        answers: &Answers,
        tests: &[u32],
        starts: &[u32],
        round: Round,
    ) -> Result<(), OutOfMemory>
        requires tests { length tests.now < 2 ^ 32 }
        requires firsts { length self.old.firsts.items ≡ length tests.now }
        requires answers { AreAnswers graph.now answers.now }
        requires asked { AreRoundQueries graph.now tests.now round.from round.until starts.now answers.now.queries }
        requires within { 64 * round.until < bits graph.now Busy + 64 }
        requires wanted { (word : ℕ) → round.from ≤ word → word < round.until → wants_word round.chosen Busy word ≡ true }
        requires ordered { round.from ≤ round.until }
        requires answered { TellBusy round.chosen graph.now tests.now (busy_lists self.old) round.until }
        ensures firsts { IfOk result (λ _. length self.new.firsts.items ≡ length tests.now) }
        ensures answered { IfOk result (λ _. TellBusy round.chosen graph.now tests.now (busy_lists self.new) round.from) }
    {
        for test in 0..tests.len() {
            let places = (starts[test], starts[test + 1]);
            self.put_test(graph, answers, tests[test], test as u32, places, round)?;
        }
        Ok(())
    }

    /// The number of a test's first word.
    pub(crate) fn first(&self, test: u32) -> u32
        requires { test < length self.now.firsts.items }
        ensures { result ≡ slice_index self.now.firsts.items test }
    {
        self.firsts[test as usize]
    }

    /// The word of a number.
    pub(crate) fn word(&self, number: u32) -> Option<BusyWord>
        ensures { MatchOption result ((place : ℕ) → number ≡ suc place → length self.now.words.items ≤ place)
            (λ busy. (place : ℕ) × (number ≡ suc place) × (slice_get self.now.words.items place ≡ Some busy)) }
    {
        if number == 0 || self.words.len() < number as usize {
            return None;
        }
        Some(self.words[number as usize - 1])
    }
}
