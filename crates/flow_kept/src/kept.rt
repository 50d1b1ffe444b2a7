// A program that is kept with its edges and paths.

ghost use Rattle.std.specs.Prelude.{◌≡◌, ◌-◌, ◌^◌, ◌<◌, true, false, length, None, IfOk, IfErr, OnOk, OnErr, IsErrOf};
ghost use Rattle.flow_graph.specs.Analyses.{HasPathAt, is_backward, shape_of};
ghost use Rattle.flow_graph.specs.Limits.{HasFewBits, HasFewPoints, HasManyBits, HasManyPoints};
ghost use Rattle.flow_graph.specs.declared.fault.GraphFault.TheVariants.{TooManyBits, TooManyPoints};
ghost use Rattle.flow_graph.specs.Runs.{IsDoubtful};
ghost use Rattle.flow_kept.specs.Facts.{AreFlagsOf, ArePointsOf};
ghost use Rattle.flow_kept.specs.Kept.{IsUnkept};
ghost use Rattle.flow_kept.specs.Words.{AreWordsAsked};
ghost use Rattle.flow_queries.specs.Queries.{AreQueriesOf};
ghost use Rattle.flow_reports.specs.Listed.{AreRemarks};
ghost use Rattle.tac_reader.specs.Faults.{refusal_within};
ghost use Rattle.tac_reader.specs.Parses.{program_of};

use crate::OutOfMemory;
use crate::asking::{InOrder, ask_run, run_at};
use crate::fault::KeepFault;
use crate::points::complement;
use crate::table::put_flags;
use flow_graph::{Analysis, Direction, Graph, GraphFault};
use flow_queries::{Query, arranged_places};
use flow_reports::{PlacedRemark, remarks_here};
use gen_kill::Problem;
use gk_solve::Routes;
use std::alloc::Global;
use std::marker::Model;
use tac_lines::ReadFault;
use tac_program::{Limits, Program};
use tac_reader::read_within;

/// A program within limits, with its edges and paths in both directions.
pub struct Kept {
    program: Program,
    limits: Limits,
    forward: Routes,
    backward: Routes,
}

impl Model for Kept {
    ghost use Rattle.std.specs.Prelude.{◌≡◌, true, false};
    ghost use Rattle.flow_graph.specs.Limits.{HasFewBits, HasFewPoints};
    ghost use Rattle.flow_kept.specs.Kept.{KeptProgram};

    ghost Value = { KeptProgram };

    ghost view = { λ kept. record { program = kept.program; limits = kept.limits } };

    ghost invariant = { λ kept. (kept.forward ≡ record { program = kept.program; backward = false })
        × (kept.backward ≡ record { program = kept.program; backward = true })
        × HasFewPoints kept.limits kept.program
        × HasFewBits kept.limits kept.program };
}

impl Drop for Kept {
    // By hand: who gives a kept program up then makes one call.
    fn drop(self) {
        let Kept {
            program: _,
            limits: _,
            forward: _,
            backward: _,
        } = self;
    }
}

// The edges and paths of an analysis's direction.
fn routes_for(alloc: Global, graph: &Graph<'_>, analysis: Analysis) -> Result<Routes, OutOfMemory>
    ensures { IfOk result (λ routes. routes ≡ record { program = graph.now; backward = is_backward analysis }) }
{
    let problem = Problem::of(alloc, graph, analysis)?;
    Routes::of(alloc, &problem)
}

// The edges and paths of both directions: forward and backward. What borrows the program ends here, so that the program can move.
fn both_routes(
    alloc: Global,
    program: &Program,
    limits: Limits,
) -> Result<(Routes, Routes), GraphFault>
    ensures forward { IfOk result (λ routes. routes.0 ≡ record { program = program.now; backward = false }) }
    ensures backward { IfOk result (λ routes. routes.1 ≡ record { program = program.now; backward = true }) }
    ensures few_points { OnOk result (HasFewPoints limits program.now) }
    ensures few_bits { OnOk result (HasFewBits limits program.now) }
    ensures many_points { IsErrOf result TooManyPoints → HasManyPoints limits program.now }
    ensures many_bits { IsErrOf result TooManyBits → HasManyBits limits program.now }
{
    let graph = Graph::build_within(alloc, program, limits)?;
    let forward = routes_for(alloc, &graph, Analysis::Reach)?;
    let backward = routes_for(alloc, &graph, Analysis::Live)?;
    Ok((forward, backward))
}

// The program of a text.
fn read_program(alloc: Global, text: &[u8], limits: Limits) -> Result<Program, KeepFault>
    ensures program { IfOk result (λ program. program ≡ program_of text.now) }
    ensures accepted { OnOk result (refusal_within limits text.now ≡ None) }
    ensures fault { IfErr result (IsUnkept limits text.now) }
{
    match read_within(alloc, text, limits) {
        Ok(program) => Ok(program),
        Err(ReadFault::Refused(refusal)) => Err(KeepFault::Refused(refusal)),
        Err(ReadFault::OutOfMemory) => Err(KeepFault::OutOfMemory),
    }
}

impl Kept {
    /// A program, kept.
    ///
    /// `TooManyPoints` (21) where it has more points than the limits allow; else `TooManyBits` (22) where some analysis has more bits;
    /// `OutOfMemory` only where memory was refused.
    pub fn of(alloc: Global, program: Program, limits: Limits) -> Result<Kept, GraphFault>
        ensures kept { IfOk result (λ kept. kept ≡ record { program = program; limits = limits }) }
        ensures few_points { OnOk result (HasFewPoints limits program) }
        ensures few_bits { OnOk result (HasFewBits limits program) }
        ensures many_points { IsErrOf result TooManyPoints → HasManyPoints limits program }
        ensures many_bits { IsErrOf result TooManyBits → HasManyBits limits program }
    {
        let (forward, backward) = both_routes(alloc, &program, limits)?;
        Ok(Kept {
            program,
            limits,
            forward,
            backward,
        })
    }

    /// The program of a text, kept.
    ///
    /// `Refused` where the text is no program within the limits, with the place of its first fault; else `TooManyPoints` and `TooManyBits` as
    /// [`Kept::of`] has them; `OutOfMemory` only where memory was refused.
    pub fn read(alloc: Global, text: &[u8], limits: Limits) -> Result<Kept, KeepFault>
        ensures kept { IfOk result (λ kept. kept ≡ record { program = program_of text.now; limits = limits }) }
        ensures accepted { OnOk result (refusal_within limits text.now ≡ None) }
        ensures few_points { OnOk result (HasFewPoints limits (program_of text.now)) }
        ensures few_bits { OnOk result (HasFewBits limits (program_of text.now)) }
        ensures fault { IfErr result (IsUnkept limits text.now) }
    {
        let program = read_program(alloc, text, limits)?;
        match Kept::of(alloc, program, limits) {
            Ok(kept) => Ok(kept),
            Err(GraphFault::OutOfMemory) => Err(KeepFault::OutOfMemory),
            Err(GraphFault::TooManyPoints) => Err(KeepFault::TooManyPoints),
            Err(GraphFault::TooManyBits) => Err(KeepFault::TooManyBits),
        }
    }

    /// The program.
    pub fn program(&self) -> &Program
        ensures { result.now ≡ self.now.program }
    {
        &self.program
    }

    /// The limits.
    pub fn limits(&self) -> Limits
        ensures { result ≡ self.now.limits }
    {
        self.limits
    }

    /// A graph of the program. Fails only where memory runs out.
    pub fn graph(&self, alloc: Global) -> Result<Graph<'_>, OutOfMemory>
        ensures graph { IfOk result (λ graph. graph ≡ self.now.program) }
        ensures few_points { HasFewPoints self.now.limits self.now.program }
        ensures few_bits { HasFewBits self.now.limits self.now.program }
    {
        match Graph::build_within(alloc, &self.program, self.limits) {
            Ok(graph) => Ok(graph),
            Err(GraphFault::OutOfMemory) => Err(OutOfMemory),
            Err(GraphFault::TooManyPoints | GraphFault::TooManyBits) => unreachable!(),
        }
    }

    /// The edges and paths of an analysis's direction.
    pub fn routes(&self, analysis: Analysis) -> &Routes
        ensures { result.now ≡ record { program = self.now.program; backward = is_backward analysis } }
    {
        match analysis.direction() {
            Direction::Forward => &self.forward,
            Direction::Backward => &self.backward,
        }
    }

    /// Puts the answers to queries, in their order, into words: of each that word of the analysis's set at its point. Words are solved
    /// four or eight of an analysis at a time, each once for all queries. The conditions: the graph is of the program, each query
    /// is of it, they have numbers of 32 bits, and there is a word for each. Fails only where memory runs out, and has written nothing then.
    pub fn ask(
        &self,
        alloc: Global,
        graph: &Graph<'_>,
        queries: &[Query],
        words: &mut [u64],
    ) -> Result<(), OutOfMemory>
        requires graph { graph.now ≡ self.now.program }
        requires queries { AreQueriesOf self.now.program queries.now }
        requires few { length queries.now < 2 ^ 32 }
        requires room { length words.old ≡ length queries.now }
        ensures answers { OnOk result (AreWordsAsked self.now.program queries.now words.new) }
        ensures kept { OnErr result (words.new ≡ words.old) }
    {
        let places = arranged_places(alloc, queries)?;
        let mut answers = vec![in alloc; 0u64; queries.len()]?;
        let mut done = 0;
        'runs: while (done as usize) < places.len() {
            let run = run_at(queries, places.as_slice(), done);
            let routes = self.routes(run.analysis);
            ask_run(
                alloc,
                graph,
                routes,
                InOrder {
                    queries,
                    places: places.as_slice(),
                },
                done,
                run,
                answers.as_mut_slice(),
            )?;
            done = run.until;
        }
        words.copy_from_slice(answers.as_slice());
        Ok(())
    }

    /// Puts for each of the points `points.0..points.1` whether it has a valid path in the direction of an analysis, 1 or 0. It takes no
    /// memory.
    pub fn put_paths(&self, analysis: Analysis, points: (u32, u32), flags: &mut [u8])
        requires points { ArePointsOf self.now.program points.0 points.1 }
        requires room { length flags.old ≡ points.1 - points.0 }
        ensures { AreFlagsOf (HasPathAt self.now.program analysis) points.0 points.1 flags.new }
    {
        // Its contract tells that the program is sound.
        let _ = self.program.procs();
        let paths = self.routes(analysis).paths();
        put_flags(paths, points.0, flags);
    }

    /// Puts for each of the points `points.0..points.1` whether it is doubtful, 1 or 0: whether some path leads from it to a point that has
    /// no valid path to the end of `main`. The condition: the graph is of the program. Fails only where memory runs out, and has written
    /// nothing then.
    pub fn put_doubtful(
        &self,
        alloc: Global,
        graph: &Graph<'_>,
        points: (u32, u32),
        flags: &mut [u8],
    ) -> Result<(), OutOfMemory>
        requires graph { graph.now ≡ self.now.program }
        requires points { ArePointsOf self.now.program points.0 points.1 }
        requires room { length flags.old ≡ points.1 - points.0 }
        ensures doubtful { OnOk result (AreFlagsOf (IsDoubtful (shape_of self.now.program)) points.0 points.1 flags.new) }
        ensures kept { OnErr result (flags.new ≡ flags.old) }
    {
        // Its contract tells that the program is sound.
        let _ = self.program.procs();
        let endless = complement(alloc, self.routes(Analysis::Live).paths())?;
        let doubtful = graph.leads_to(alloc, endless.as_slice())?;
        put_flags(doubtful.as_slice(), points.0, flags);
        Ok(())
    }

    /// The remarks on the program, in the order of its report. They make edges and paths of their own. Fails only where memory runs out.
    pub fn remarks(&self, alloc: Global) -> Result<Vec<PlacedRemark>, OutOfMemory>
        ensures { IfOk result (λ remarks. AreRemarks self.now.program remarks.items) }
    {
        let graph = self.graph(alloc)?;
        remarks_here(alloc, &graph)
    }
}
