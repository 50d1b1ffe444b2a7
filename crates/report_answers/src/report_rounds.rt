// What a report asks, round by round.

ghost use Rattle.std.specs.Prelude.{◌≡◌, ◌<◌, ◌≤◌, IfOk, IfSome, MatchOption};
ghost use Rattle.flow_queries.specs.Queries.{AreAnswers};
ghost use Rattle.report_answers.specs.code.Reported.{IsFirstRound, IsFirstRoundOf, IsNextRound, IsNextRoundOf, TellChosen, TellReport, TellRest};
ghost use Rattle.report_answers.specs.code.Reported.{TellRestOf, words_left};

use crate::OutOfMemory;
use crate::busy_rounds::BusyRounds;
use crate::chosen_bits::ChosenBits;
use crate::report_answers::ReportAnswers;
use crate::report_queries::{PointQueries, ReportQueries, report_queries};
use busy_bounds::BusyBounds;
use flow_graph::Graph;
use flow_queries::{Answers, Query};
use flow_team::SlicePlan;
use std::alloc::Global;

/// What becomes of the answers to the first queries: those of all but very busy expressions are kept, and those behind them are the first round of
/// these.
#[derive(Drop)]
pub struct FirstRound {
    // So many queries stand before those of the round.
    before: u32,
    places: Vec<PointQueries>,
    rounds: BusyRounds,
}

impl FirstRound {
    /// What a report asks of a graph first, for so many workers. The condition: at most 64. Fails only where memory runs out.
    pub fn of(
        alloc: Global,
        graph: &Graph<'_>,
        workers: u32,
    ) -> Result<(Vec<Query>, FirstRound), OutOfMemory>
        requires { workers ≤ 64 }
        ensures { IfOk result (λ r. IsFirstRound graph.now r.0.items r.1) }
    {
        FirstRound::of_chosen(alloc, graph, ChosenBits::All, None, workers)
    }

    /// What a report asks of a graph first, as far as it is wanted and bounds leave it open, for so many workers. The condition: the bounds are of the
    /// graph.
    pub(crate) fn of_chosen(
        alloc: Global,
        graph: &Graph<'_>,
        chosen: ChosenBits,
        bounds: Option<BusyBounds>,
        workers: u32,
    ) -> Result<(Vec<Query>, FirstRound), OutOfMemory>
        requires workers { workers ≤ 64 }
        requires bounds { IfSome bounds (λ b. b ≡ graph.now) }
        ensures { IfOk result (λ r. IsFirstRoundOf chosen graph.now r.0.items r.1) }
    {
        // Its contract tells that there are few points.
        let _ = graph.points();
        let ReportQueries {
            mut queries,
            places,
            tests,
        } = report_queries(alloc, graph, chosen)?;
        let before = queries.len() as u32;
        let mut rounds = BusyRounds::of(alloc, graph, chosen, tests, bounds, before, workers)?;
        rounds.query(graph, &mut queries)?;
        let first = FirstRound {
            before,
            places,
            rounds,
        };
        Ok((queries, first))
    }

    /// How many slices of a plan the later rounds have.
    pub(crate) fn slices_behind(&self, graph: &Graph<'_>, plan: SlicePlan) -> u32 {
        self.rounds.slices_behind(graph, plan)
    }

    /// Puts the answers to the first queries. Fails only where memory runs out.
    pub fn put(
        self,
        alloc: Global,
        graph: &Graph<'_>,
        answers: Answers,
    ) -> Result<LaterRounds, OutOfMemory>
        requires first { IsFirstRound graph.now answers.queries self }
        requires answers { AreAnswers graph.now answers }
        ensures { IfOk result (TellRest graph.now) }
    {
        self.put_chosen(alloc, graph, answers)
    }

    /// Puts the answers to the first queries of what is wanted.
    pub(crate) fn put_chosen(
        self,
        alloc: Global,
        graph: &Graph<'_>,
        answers: Answers,
    ) -> Result<LaterRounds, OutOfMemory>
        requires first { IsFirstRoundOf self.rounds.chosen graph.now answers.queries self }
        requires answers { AreAnswers graph.now answers }
        ensures { IfOk result (TellRestOf self.rounds.chosen graph.now) }
    {
        let FirstRound {
            before,
            places,
            mut rounds,
        } = self;
        let mut answers = answers;
        rounds.put(graph, &answers)?;
        answers.truncate(alloc, before as usize)?;
        Ok(LaterRounds {
            answers,
            places,
            rounds,
        })
    }
}

/// The answers that are known, and the rounds of very busy expressions that are left.
#[derive(Drop)]
pub struct LaterRounds {
    pub(crate) answers: Answers,
    pub(crate) places: Vec<PointQueries>,
    pub(crate) rounds: BusyRounds,
}

impl LaterRounds {
    /// The queries of the next round; None where no round is left. The condition: they are rounds of this graph. Fails only where memory runs
    /// out.
    pub fn next(
        &mut self,
        alloc: Global,
        graph: &Graph<'_>,
    ) -> Result<Option<Vec<Query>>, OutOfMemory>
        requires { TellRest graph.now self.old }
        ensures rest { IfOk result (λ _. TellRest graph.now self.new) }
        ensures same { IfOk result (λ _. words_left self.new ≡ words_left self.old) }
        ensures next { IfOk result (λ next. MatchOption next (words_left self.new ≡ 0) (λ queries. IsNextRound graph.now self.new queries.items)) }
    {
        self.next_chosen(alloc, graph)
    }

    /// The queries of the next round of what is wanted; None where no round is left.
    pub(crate) fn next_chosen(
        &mut self,
        alloc: Global,
        graph: &Graph<'_>,
    ) -> Result<Option<Vec<Query>>, OutOfMemory>
        requires { TellRestOf self.old.rounds.chosen graph.now self.old }
        ensures rest { IfOk result (λ _. TellRestOf self.old.rounds.chosen graph.now self.new) }
        ensures same { IfOk result (λ _. words_left self.new ≡ words_left self.old) }
        ensures next { IfOk result (λ next. MatchOption next (words_left self.new ≡ 0)
            (λ queries. IsNextRoundOf self.old.rounds.chosen graph.now self.new queries.items)) }
    {
        if self.rounds.until <= self.rounds.first {
            return Ok(None);
        }
        let mut queries = Vec::new(alloc);
        self.rounds.query(graph, &mut queries)?;
        Ok(Some(queries))
    }

    /// Puts the answers to the queries of the next round. Fails only where memory runs out.
    pub fn put(&mut self, graph: &Graph<'_>, answers: &Answers) -> Result<(), OutOfMemory>
        requires rest { TellRest graph.now self.old }
        requires answers { AreAnswers graph.now answers.now }
        requires round { IsNextRound graph.now self.old answers.now.queries }
        ensures rest { IfOk result (λ _. TellRest graph.now self.new) }
        ensures less { IfOk result (λ _. words_left self.new < words_left self.old) }
    {
        self.put_round(graph, answers)
    }

    /// Puts the answers to the queries of the next round of what is wanted.
    pub(crate) fn put_round(
        &mut self,
        graph: &Graph<'_>,
        answers: &Answers,
    ) -> Result<(), OutOfMemory>
        requires rest { TellRestOf self.old.rounds.chosen graph.now self.old }
        requires answers { AreAnswers graph.now answers.now }
        requires round { IsNextRoundOf self.old.rounds.chosen graph.now self.old answers.now.queries }
        ensures rest { IfOk result (λ _. TellRestOf self.old.rounds.chosen graph.now self.new) }
        ensures less { IfOk result (λ _. words_left self.new < words_left self.old) }
    {
        self.rounds.put(graph, answers)?;
        Ok(())
    }

    /// All answers. The conditions: no round is left, and they are of this graph.
    pub fn done(self, _graph: &Graph<'_>) -> ReportAnswers
        requires rest { TellRest _graph.now self }
        requires none { words_left self ≡ 0 }
        ensures { TellReport _graph.now result }
    {
        self.done_chosen(_graph)
    }

    /// All answers of what is wanted.
    pub(crate) fn done_chosen(self, _graph: &Graph<'_>) -> ReportAnswers
        requires rest { TellRestOf self.rounds.chosen _graph.now self }
        requires none { words_left self ≡ 0 }
        ensures { TellChosen self.rounds.chosen _graph.now result }
    {
        ReportAnswers::of_rounds(self)
    }
}
