// Very busy expressions at tests, asked for in rounds of so many words: of a block of all words of all tests most would be empty. Where bounds
// tell that a word has none, it is not asked.

ghost use Rattle.std.specs.Prelude.{◌≡◌, ℕ, true, false, ◌+◌, ◌-◌, ◌*◌, ◌^◌, ◌<◌, ◌≤◌, length, slice_index, IfOk, IfSome, MatchOption};
ghost use Rattle.busy_bounds.specs.BusyBounds.{HasAllBusy, IsLastWord, NoneVeryBusy};
ghost use Rattle.flow_graph.specs.Points.{point_count};
ghost use Rattle.flow_graph.specs.Universes.{bits as bits_of};
ghost use Rattle.flow_graph.specs.declared.analysis.Analysis.TheVariants.{Busy};
ghost use Rattle.flow_queries.specs.Queries.{AreAnswers};
ghost use Rattle.report_answers.specs.code.Querying.{Queries};
ghost use Rattle.report_answers.specs.code.Busy.{AreAsked, ArePoints, AreRoundQueries, AreRounds, AreWordsOf, IsRound, IsSameBut};

use crate::OutOfMemory;
use crate::busy_words::{BusyWords, Round};
use crate::chosen_bits::{ChosenBits, WordRange};
use bit_rows::words_for;
use busy_bounds::BusyBounds;
use flow_graph::{Analysis, Graph};
use flow_queries::{Answers, Query};
use flow_team::SlicePlan;
use std::alloc::Global;

// For each worker, of which two are taken to be there at least, a round asks for some so many words: more than two such shares no program within
// the standard limits has.
const WORKER_WORDS: u32 = 7 << 16;

// At most so many words are solved at once: a round that cut them would solve the same words again.
const SOLVED_WORDS: u32 = 8;

// A report asks for fewer words at a time: all their bits have numbers of 32 bits.
const MOST_QUERIES: u32 = 1 << 26;

// At most so many of them are of a round.
const MOST_OF_ROUND: u32 = 1 << 25;

// A round that asks for too much is made half as wide so many times, and then as narrow as it has to be.
const HALVINGS: u32 = 12;

/// The words of the tests' sets of very busy expressions, of which those from one on are told. What a round asks for comes before them.
#[derive(Drop)]
pub(crate) struct BusyRounds {
    /// The tests' points.
    pub(crate) tests: Vec<u32>,
    /// Some expressions of each test among which all are that are very busy there; without them, all expressions.
    pub(crate) bounds: Option<BusyBounds>,
    /// The words that are told.
    pub(crate) busy: BusyWords,
    /// The first of them.
    pub(crate) until: u32,
    /// The first word that is wanted, or as many as `until` where none is left.
    pub(crate) first: u32,
    /// So many words of each set a round asks for at most.
    pub(crate) width: u32,
    /// So many may be asked of each set whatever bounds tell.
    pub(crate) least: u32,
    /// A round asks for not more than some so many words in all.
    pub(crate) share: u32,
    /// The first word of the round that is asked.
    pub(crate) from: u32,
    /// Where the queries of each test begin in that round, and behind them where those of the last one end.
    pub(crate) starts: Vec<u32>,
    /// Which bits are asked.
    pub(crate) chosen: ChosenBits,
}

// For how many words a round has room behind so many other queries.
fn round_room(before: u32) -> u32
    requires { before < 2 ^ 26 }
    ensures few { result ≤ 2 ^ 25 }
    ensures room { before + result < 2 ^ 26 }
    ensures all { (tests : ℕ) → tests ≤ 2 ^ 24 → before + tests < 2 ^ 26 → tests ≤ result }
{
    (MOST_QUERIES - 1 - before).min(MOST_OF_ROUND)
}

// How many words so many workers ask for in a round, for which there is so much room.
fn share_of(workers: u32, room: u32) -> u32
    requires workers { workers ≤ 64 }
    ensures { result ≤ room }
{
    (WORKER_WORDS * workers.max(2)).min(room)
}

// How many words of each set may be asked at once of so many tests, whatever bounds tell: whole groups of words, where there is room.
fn least_width(tests: u32, before: u32, workers: u32) -> u32
    requires tests { tests ≤ 2 ^ 24 }
    requires room { before + tests < 2 ^ 26 }
    requires workers { workers ≤ 64 }
    ensures some { 0 < result }
    ensures few { tests * result ≤ 2 ^ 25 }
    ensures room { before + tests * result < 2 ^ 26 }
{
    let groups = WORKER_WORDS * workers.max(2) / SOLVED_WORDS / tests.max(1);
    let most = round_room(before) / tests.max(1);
    (SOLVED_WORDS * groups.max(1)).min(most).max(1)
}

// The last word before one, and not before the first one, in which an expression may be very busy at a point.
fn last_word(
    graph: &Graph<'_>,
    bounds: &Option<BusyBounds>,
    point: u32,
    first: u32,
    end: u32,
) -> Option<u32>
    requires bounds { IfSome bounds.now (λ b. b ≡ graph.now) }
    requires point { point < point_count graph.now }
    requires ordered { first ≤ end }
    ensures { MatchOption result (NoneVeryBusy graph.now point first end) (IsLastWord graph.now point first end) }
{
    match bounds {
        Some(bounds) => bounds.last_word(graph, point, first, end),
        None if first == end => None,
        None => Some(end - 1),
    }
}

// The expressions of a word that may be very busy at a point.
fn mask(graph: &Graph<'_>, bounds: &Option<BusyBounds>, point: u32, word: u32) -> u64
    requires bounds { IfSome bounds.now (λ b. b ≡ graph.now) }
    requires point { point < point_count graph.now }
    ensures { HasAllBusy graph.now point word result }
{
    match bounds {
        Some(bounds) => bounds.mask(graph, point, word),
        None => u64::MAX,
    }
}

/// The words of the tests' sets from the first on and before the end, of which those are asked in which bounds leave an expression.
#[derive(Clone, Copy)]
struct RoundWords<'a> {
    chosen: ChosenBits,
    bounds: &'a Option<BusyBounds>,
    first: u32,
    end: u32,
}

// Asks for the words of a point's set, the last one first.
fn query_point(
    graph: &Graph<'_>,
    words: RoundWords<'_>,
    queries: &mut Vec<Query>,
    point: u32,
) -> Result<(), OutOfMemory>
    requires words { AreWordsOf graph.now words }
    requires point { point < point_count graph.now }
    ensures queries { IfOk result (λ _. Queries words.entry.chosen graph.now queries.old.items queries.new.items (words.entry.end - words.entry.first)) }
    ensures asked { IfOk result (λ _. AreAsked graph.now queries.new.items point words.entry.first words.entry.end (length queries.old.items)
        (length queries.new.items)) }
{
    let RoundWords {
        chosen: _,
        bounds,
        first,
        end,
    } = words;
    let mut last = end;
    for _asked in first..end {
        let Some(word) = last_word(graph, bounds, point, first, last) else {
            return Ok(());
        };
        let bits = mask(graph, bounds, point, word);
        queries.push(Query {
            analysis: Analysis::Busy,
            point,
            word,
            bits,
        })?;
        last = word;
    }
    Ok(())
}

// Asks for the words of all tests' sets, and keeps where the queries of each begin. Whether they are not too many: if they are, some are left out.
fn query_tests(
    graph: &Graph<'_>,
    words: RoundWords<'_>,
    queries: &mut Vec<Query>,
    starts: &mut Vec<u32>,
    tests: &[u32],
    most: usize,
) -> Result<bool, OutOfMemory>
    requires words { AreWordsOf graph.now words }
    requires points { ArePoints graph.now tests.now }
    requires most { most ≤ 2 ^ 25 }
    requires before { length queries.old.items ≤ 2 ^ 26 }
    requires none { length starts.old.items ≡ 0 }
    ensures queries { IfOk result (λ _. Queries words.entry.chosen graph.now queries.old.items queries.new.items
        (length tests.now * (words.entry.end - words.entry.first))) }
    ensures asked { IfOk result (λ few. few ≡ true
        → AreRoundQueries graph.now tests.now words.entry.first words.entry.end starts.new.items queries.new.items) }
    ensures few { IfOk result (λ few. few ≡ true → length queries.new.items ≤ length queries.old.items + most) }
    ensures always { IfOk result (λ few. length tests.now * (words.entry.end - words.entry.first) ≤ most → few ≡ true) }
{
    let before = queries.len();
    starts.push(before as u32)?;
    for test in 0..tests.len() {
        query_point(graph, words, &mut *queries, tests[test])?;
        if queries.len() - before > most {
            return Ok(false);
        }
        starts.push(queries.len() as u32)?;
    }
    Ok(true)
}

impl BusyRounds {
    /// Nothing is told of these tests' sets. So many other queries come before those of the first round. The conditions: the tests are points of
    /// the graph, there are fewer than 2^26 of both together, the bounds are of the graph, and there are at most 64 workers.
    pub(crate) fn of(
        alloc: Global,
        graph: &Graph<'_>,
        chosen: ChosenBits,
        tests: Vec<u32>,
        bounds: Option<BusyBounds>,
        before: u32,
        workers: u32,
    ) -> Result<BusyRounds, OutOfMemory>
        requires points { ArePoints graph.now tests.items }
        requires few { length tests.items ≤ 2 ^ 24 }
        requires room { before + length tests.items < 2 ^ 26 }
        requires bounds { IfSome bounds (λ b. b ≡ graph.now) }
        requires workers { workers ≤ 64 }
        ensures rounds { IfOk result (AreRounds chosen graph.now tests.items) }
        ensures room { IfOk result (λ rounds. before + length tests.items * rounds.least < 2 ^ 26) }
        ensures shared { IfOk result (λ rounds. before + rounds.share < 2 ^ 26) }
    {
        let share = share_of(workers, round_room(before));
        let least = least_width(tests.len() as u32, before, workers);
        let busy = BusyWords::empty(alloc, tests.len())?;
        let words = words_for(graph.bits(Analysis::Busy));
        let WordRange { first, end: until } = chosen.busy_words(words);
        Ok(BusyRounds {
            tests,
            bounds,
            busy,
            until,
            first,
            width: (until - first).max(1),
            least,
            share,
            from: until,
            starts: Vec::new(alloc),
            chosen,
        })
    }

    /// How many slices of a plan the rounds behind the one that is asked have.
    pub(crate) fn slices_behind(&self, graph: &Graph<'_>, plan: SlicePlan) -> u32 {
        if self.tests.is_empty() || self.from <= self.first {
            return 0;
        }
        let bits = graph.bits(Analysis::Busy);
        let width = self.width.max(1);
        let mut slices = 0u32;
        for round in 0..(self.from - self.first).div_ceil(width) {
            let until = self.from.saturating_sub(round.saturating_mul(width));
            let from = until.saturating_sub(width).max(self.first);
            slices = slices.saturating_add(plan.slices(bits, from, until));
        }
        slices
    }

    // Asks for a round of so many words of each set at most. Whether they are not too many: if they are, none is asked.
    fn query_words(
        &mut self,
        graph: &Graph<'_>,
        queries: &mut Vec<Query>,
        width: u32,
        most: usize,
    ) -> Result<bool, OutOfMemory>
        requires rounds { AreRounds self.old.chosen graph.now self.old.tests.items self.old }
        requires room { length queries.old.items + most < 2 ^ 26 }
        requires some { 0 < width }
        requires most { most ≤ 2 ^ 25 }
        ensures rounds { IfOk result (λ _. AreRounds self.old.chosen graph.now self.old.tests.items self.new) }
        ensures queries { IfOk result (λ _. Queries self.old.chosen graph.now queries.old.items queries.new.items most) }
        ensures round { IfOk result (λ few. few ≡ true → IsRound graph.now self.new queries.new.items) }
        ensures back { IfOk result (λ few. few ≡ false → queries.new.items ≡ queries.old.items) }
        ensures always { IfOk result (λ few. length self.old.tests.items * width ≤ most → few ≡ true) }
        ensures same { IfOk result (λ _. IsSameBut self.old self.new) }
    {
        let before = queries.len();
        let from = self.first.max(self.until.saturating_sub(width));
        let words = RoundWords {
            chosen: self.chosen,
            bounds: &self.bounds,
            first: from,
            end: self.until,
        };
        self.starts.clear();
        if query_tests(
            graph,
            words,
            &mut *queries,
            &mut self.starts,
            self.tests.as_slice(),
            most,
        )? {
            self.from = from;
            return Ok(true);
        }
        queries.truncate(before);
        Ok(false)
    }

    /// Puts the queries of the next round behind others.
    pub(crate) fn query(
        &mut self,
        graph: &Graph<'_>,
        queries: &mut Vec<Query>,
    ) -> Result<(), OutOfMemory>
        requires rounds { AreRounds self.old.chosen graph.now self.old.tests.items self.old }
        requires room { length queries.old.items + length self.old.tests.items * self.old.least < 2 ^ 26 }
        requires shared { length queries.old.items + self.old.share < 2 ^ 26 }
        ensures rounds { IfOk result (λ _. AreRounds self.old.chosen graph.now self.old.tests.items self.new) }
        ensures queries { IfOk result (λ _. Queries self.old.chosen graph.now queries.old.items queries.new.items (2 ^ 25)) }
        ensures few { IfOk result (λ _. length queries.new.items < 2 ^ 26) }
        ensures round { IfOk result (λ _. IsRound graph.now self.new queries.new.items) }
        ensures until { IfOk result (λ _. self.new.until ≡ self.old.until) }
        ensures first { IfOk result (λ _. self.new.first ≡ self.old.first) }
    {
        for _halving in 0..HALVINGS {
            let (width, share) = (self.width, self.share);
            if self.query_words(graph, &mut *queries, width, share as usize)? {
                return Ok(());
            }
            self.width = (width / 2 / SOLVED_WORDS * SOLVED_WORDS).max(self.least);
        }
        let least = self.least;
        let most = self.tests.len() * least as usize;
        self.query_words(graph, queries, least, most)?;
        Ok(())
    }

    /// Puts what the queries of the round answer that was asked last.
    pub(crate) fn put(&mut self, graph: &Graph<'_>, answers: &Answers) -> Result<(), OutOfMemory>
        requires rounds { AreRounds self.old.chosen graph.now self.old.tests.items self.old }
        requires answers { AreAnswers graph.now answers.now }
        requires round { IsRound graph.now self.old answers.now.queries }
        ensures rounds { IfOk result (λ _. AreRounds self.old.chosen graph.now self.old.tests.items self.new) }
        ensures first { IfOk result (λ _. self.new.first ≡ self.old.first) }
        ensures less { IfOk result (λ _. self.old.first < self.old.until → self.new.until < self.old.until) }
    {
        let round = Round {
            chosen: self.chosen,
            from: self.from,
            until: self.until,
        };
        let tests = self.tests.as_slice();
        self.busy
            .put_round(graph, answers, tests, self.starts.as_slice(), round)?;
        self.until = self.from;
        Ok(())
    }
}
