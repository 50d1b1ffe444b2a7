// The answers to what a report asks.

ghost use Rattle.std.specs.Prelude.{◌≡◌, ℕ, suc, ◌<◌, ◌≤◌, Some, length, slice_get, slice_index, IfOk, MatchOption};
ghost use Rattle.flow_queries.specs.Queries.{flags_of};
ghost use Rattle.slice_board.specs.Ranges.{AreInRange};
ghost use Rattle.report_answers.specs.code.Reported.{IsFirstRoundOf, TellChosen, TellReport, reported_of};
ghost use Rattle.report_answers.specs.code.Answered.{facts_in};

use crate::OutOfMemory;
use crate::busy_rounds::BusyRounds;
use crate::busy_words::{BusyWord, BusyWords};
use crate::chosen_bits::ChosenBits;
use crate::report_queries::PointQueries;
use crate::report_rounds::{FirstRound, LaterRounds};
use flow_graph::{Analysis, Graph};
use flow_queries::{Answers, GraphSolvers, Query};
use flow_team::SlicePlan;
use slice_board::{Gate, JoinedGate, Team};
use std::alloc::Global;
use std::marker::Model;
use std::thread::Threads;

// The widest slices that may be.
const WIDEST: u32 = 4_096;

// How wide the slices of a team are. One worker shares nothing, and each slice takes memory anew.
fn width_for<R, G>(team: &Team<'_, R, G>) -> u32
    ensures { AreInRange team.now.workers result }
{
    if team.workers == 1 { WIDEST } else { team.cut }
}

/// The answers to what a report asks of the four analyses: of reaching definitions, at a statement, whether the values at the beginning of
/// the variables that it reads are among them; of available expressions the one that it evaluates; of live variables, behind an
/// assignment, the one that it assigns; of very busy expressions, at a test, all.
pub struct ReportAnswers {
    chosen: ChosenBits,
    answers: Answers,
    places: Vec<PointQueries>,
    tests: Vec<u32>,
    busy: BusyWords,
}

impl Model for ReportAnswers {
    ghost use Rattle.std.specs.Prelude.{◌≡◌, length};
    ghost use Rattle.report_answers.specs.code.Busy.{busy_lists};
    ghost use Rattle.report_answers.specs.code.Reported.{Reported};

    ghost Value = { Reported };

    ghost view = { λ r. record { chosen = r.chosen; replies = r.answers; places = r.places.items; tests = r.tests.items; busy = busy_lists r.busy } };

    ghost invariant = { λ r. length r.answers.words ≡ length r.answers.queries };
}

impl Drop for ReportAnswers {
    // By hand: who gives it up then makes one call.
    fn drop(self) {
        let ReportAnswers {
            chosen: _,
            answers: _,
            places: _,
            tests: _,
            busy: _,
        } = self;
    }
}

impl ReportAnswers {
    /// The answers that are known, where no round is left.
    pub(crate) fn of_rounds(known: LaterRounds) -> ReportAnswers
        requires { length known.answers.words ≡ length known.answers.queries }
        ensures { result ≡ reported_of known }
    {
        let LaterRounds {
            answers,
            places,
            rounds,
        } = known;
        let BusyRounds {
            tests,
            bounds: _,
            busy,
            until: _,
            first: _,
            width: _,
            least: _,
            share: _,
            from: _,
            starts: _,
            chosen,
        } = rounds;
        ReportAnswers {
            chosen,
            answers,
            places,
            tests,
            busy,
        }
    }

    // What is asked first, and all rounds behind it, answered by a team.
    fn by_team<R: Threads + Sync, G: Gate>(
        team: &Team<'_, R, G>,
        alloc: Global,
        graph: &Graph<'_>,
        solvers: GraphSolvers<'_, '_>,
        queries: Vec<Query>,
        first: FirstRound,
    ) -> Result<ReportAnswers, OutOfMemory>
        requires solvers { solvers ≡ graph.now }
        requires first { IsFirstRoundOf first.rounds.chosen graph.now queries.items first }
        ensures { IfOk result (TellChosen first.rounds.chosen graph.now) }
    {
        let (answers, mut solvers) = solvers.answer(team, alloc, queries)?;
        let mut rounds = first.put_chosen(alloc, graph, answers)?;
        while let Some(queries) = rounds.next_chosen(alloc, graph)? {
            let (answers, left) = solvers.answer(team, alloc, queries)?;
            solvers = left;
            rounds.put_round(graph, &answers)?;
        }
        Ok(rounds.done_chosen(graph))
    }

    /// What a report asks of a graph, answered by a team, in slices of its width; by one worker they are 4,096 bits wide. Of very busy
    /// expressions the words that have a bit are kept, and some 2^19 words for each worker are asked for at a time. Fails only where memory
    /// runs out.
    pub fn of<R: Threads + Sync, G: Gate>(
        team: &Team<'_, R, G>,
        alloc: Global,
        graph: &Graph<'_>,
    ) -> Result<ReportAnswers, OutOfMemory>
        ensures { IfOk result (TellReport graph.now) }
    {
        ReportAnswers::of_chosen(team, alloc, graph, ChosenBits::All)
    }

    /// What a report asks of a graph, as far as it is wanted, answered by a team as [`of`](ReportAnswers::of) has it. No other bits are asked.
    pub fn of_chosen<R: Threads + Sync, G: Gate>(
        team: &Team<'_, R, G>,
        alloc: Global,
        graph: &Graph<'_>,
        chosen: ChosenBits,
    ) -> Result<ReportAnswers, OutOfMemory>
        ensures { IfOk result (TellChosen chosen graph.now) }
    {
        let cut = width_for(team);
        let solvers = GraphSolvers::of(team, alloc, graph)?;
        let bounds = Some(solvers.busy_bounds(alloc)?);
        let (queries, first) = FirstRound::of_chosen(alloc, graph, chosen, bounds, team.workers)?;
        let plan = SlicePlan::of(graph.points(), cut);
        let gate = JoinedGate::new(team.gate, first.slices_behind(graph, plan));
        let joined = Team {
            rt: team.rt,
            gate: &gate,
            workers: team.workers,
            cut,
        };
        let answers = ReportAnswers::by_team(&joined, alloc, graph, solvers, queries, first);
        gate.end();
        answers
    }

    /// What a report asks of a graph, answered on the calling thread. Fails as [`of`](ReportAnswers::of) does.
    pub fn answered_here(alloc: Global, graph: &Graph<'_>) -> Result<ReportAnswers, OutOfMemory>
        ensures { IfOk result (TellReport graph.now) }
    {
        ReportAnswers::chosen_here(alloc, graph, ChosenBits::All)
    }

    /// What a report asks of a graph, as far as it is wanted, answered on the calling thread. No other bits are asked.
    pub fn chosen_here(
        alloc: Global,
        graph: &Graph<'_>,
        chosen: ChosenBits,
    ) -> Result<ReportAnswers, OutOfMemory>
        ensures { IfOk result (TellChosen chosen graph.now) }
    {
        let solvers = GraphSolvers::of_here(alloc, graph)?;
        let bounds = Some(solvers.busy_bounds(alloc)?);
        let (queries, first) = FirstRound::of_chosen(alloc, graph, chosen, bounds, 1)?;
        let (answers, mut solvers) = solvers.answer_here(alloc, queries)?;
        let mut rounds = first.put_chosen(alloc, graph, answers)?;
        while let Some(queries) = rounds.next_chosen(alloc, graph)? {
            let (answers, left) = solvers.answer_here(alloc, queries)?;
            solvers = left;
            rounds.put_round(graph, &answers)?;
        }
        Ok(rounds.done_chosen(graph))
    }

    /// Where the queries of a point stand.
    pub fn places(&self, point: u32) -> PointQueries
        requires { point < length self.now.places }
        ensures { slice_get self.now.places point ≡ Some result }
    {
        self.places[point as usize]
    }

    /// The answer to the query of a number.
    pub fn word(&self, number: u32) -> u64
        requires { number < length self.now.replies.words }
        ensures { result ≡ slice_index self.now.replies.words number }
    {
        self.answers.word(number as usize)
    }

    /// Whether the analysis has a valid path at the point.
    pub fn has_path(&self, analysis: Analysis, point: u32) -> bool
        requires { point < length (flags_of self.now.replies analysis) }
        ensures { result ≡ (facts_in self.now.replies analysis).has_path point }
    {
        self.answers.has_path(analysis, point)
    }

    /// The number of the first word that a test's set of very busy expressions has.
    pub fn first_busy(&self, test: u32) -> u32
        requires { test < length self.now.busy.firsts }
        ensures { result ≡ slice_index self.now.busy.firsts test }
    {
        self.busy.first(test)
    }

    /// The word of a number of a test's set.
    pub fn busy_word(&self, number: u32) -> Option<BusyWord>
        ensures { MatchOption result ((place : ℕ) → number ≡ suc place → length self.now.busy.words ≤ place)
            (λ busy. (place : ℕ) × (number ≡ suc place) × (slice_get self.now.busy.words place ≡ Some busy)) }
    {
        self.busy.word(number)
    }
}
