ghost use Rattle.std.specs.Prelude.{◌≡◌, ◌+◌, ◌<◌, ◌≤◌, ◌⊎◌, true, false, length, slice_get, Some, IfOk, OnOk, IsErrOf, option_copied};
ghost use Rattle.flow_graph.specs.Limits.{HasFewBits, HasFewPoints, HasManyBits, HasManyPoints};
ghost use Rattle.flow_graph.specs.Points.{end_place, place_of, point_count, point_of, statement_at};
ghost use Rattle.flow_graph.specs.Universes.{IsDefinitionIn, bits, definitions as definitions_of, evaluated_at, expressions as expressions_of};
ghost use Rattle.tac_program.specs.Sound.{IsSound};
ghost use Rattle.flow_graph.specs.declared.fault.GraphFault.TheVariants.{TooManyBits, TooManyPoints};
ghost use Rattle.tac_program.specs.Limits.{most_definitions, most_expressions, most_variables};
ghost use Rattle.tac_program.specs.declared.limits.Limits.TheVariants.{Large, Standard};

use crate::analysis::Analysis;
use crate::expression::Expr;
use crate::fault::GraphFault;
use crate::number_lists::NumberList;
use crate::place::Place;
use crate::points::Points;
use crate::sites::call_sites;
use crate::universes::{definitions, expressions};
use indexmap::IndexSet;
use std::alloc::Global;
use std::marker::Model;
use tac_program::{Limits, Program, Stmt};

/// The flow graph of a program: its points and edges, and the bits of the four analyses (Aho, Lam, Sethi, Ullman, 2nd
/// edition, 9.2 and 9.5; with calls and returns as in Reps, Horwitz, Sagiv 1995). It borrows the program and stands for it.
///
/// Points are numbered from 0: procedures in text order, in each a point before each statement and one at its end. A bit of
/// `Reach` is a definition, one of `Live` a variable, one of `Avail` and `Busy` an expression.
pub struct Graph<'p> {
    pub(crate) points: Points<'p>,
    definitions: Vec<(u32, Option<u32>)>,
    expressions: IndexSet<Expr>,
    evaluated: Vec<Option<u32>>,
    pub(crate) sites: Vec<NumberList>,
}

impl<'p> Model for Graph<'p> {
    ghost use Rattle.std.specs.Prelude.{◌≡◌};
    ghost use Rattle.flow_graph.specs.code.Evaluated.{AreEvaluated};
    ghost use Rattle.flow_graph.specs.Limits.{HasFewBits};
    ghost use Rattle.flow_graph.specs.code.NumberLists.{contents};
    ghost use Rattle.flow_graph.specs.code.Sites.{AreSites};
    ghost use Rattle.flow_graph.specs.Universes.{definitions as definitions_of, expressions as expressions_of};
    ghost use Rattle.tac_program.specs.Programs.{Program};
    ghost use Rattle.tac_program.specs.declared.limits.Limits.TheVariants.{Large};

    ghost Value = { Program };

    ghost view = { λ graph. graph.points };

    ghost invariant = { λ graph. HasFewBits Large graph.points
        × (graph.definitions.items ≡ definitions_of graph.points)
        × (graph.expressions.keys ≡ expressions_of graph.points)
        × AreEvaluated graph.points graph.evaluated.items
        × AreSites graph.points (contents graph.sites.items) };
}

impl Drop for Graph<'_> {
    // By hand: who gives a graph up then makes one call.
    fn drop(self) {
        let Graph {
            points: _,
            definitions: _,
            expressions: _,
            evaluated: _,
            sites: _,
        } = self;
    }
}

/// Whether there are more definitions, variables or expressions than the limits allow.
fn has_many_bits(limits: Limits, definitions: usize, variables: u32, expressions: usize) -> bool
    ensures many { result ≡ true
        → (most_definitions limits < definitions) ⊎ ((most_variables limits < variables) ⊎ (most_expressions limits < expressions)) }
    ensures few { result ≡ false
        → (definitions ≤ most_definitions limits) × (variables ≤ most_variables limits) × (expressions ≤ most_expressions limits) }
{
    if (limits.definitions() as usize) < definitions {
        return true;
    }
    if limits.variables() < variables {
        return true;
    }
    (limits.expressions() as usize) < expressions
}

impl<'p> Graph<'p> {
    /// The graph of a program within these limits.
    ///
    /// `TooManyPoints` (21) where it has more points than they allow; else `TooManyBits` (22) where some analysis has more bits;
    /// `OutOfMemory` only where memory was refused.
    pub fn build_within(
        alloc: Global,
        program: &'p Program,
        limits: Limits,
    ) -> Result<Self, GraphFault>
        ensures graph { IfOk result (λ graph. graph ≡ program.now) }
        ensures few_points { OnOk result (HasFewPoints limits program.now) }
        ensures few_bits { OnOk result (HasFewBits limits program.now) }
        ensures many_points { IsErrOf result TooManyPoints → HasManyPoints limits program.now }
        ensures many_bits { IsErrOf result TooManyBits → HasManyBits limits program.now }
    {
        let points = Points::new(alloc, program, limits)?;
        let definitions = definitions(alloc, &points)?;
        let (expressions, evaluated) = expressions(alloc, &points)?;
        let variables = program.variables();
        if has_many_bits(limits, definitions.len(), variables, expressions.len()) {
            return Err(GraphFault::TooManyBits);
        }
        let sites = call_sites(alloc, &points)?;
        Ok(Graph {
            points,
            definitions,
            expressions,
            evaluated,
            sites,
        })
    }

    /// The graph of a program of at most 16,384 points and 4,096 bits in each analysis.
    ///
    /// `TooManyPoints` (21) where it has more points; else `TooManyBits` (22) where some analysis has more bits; `OutOfMemory` only
    /// where memory was refused.
    pub fn build(alloc: Global, program: &'p Program) -> Result<Self, GraphFault>
        ensures graph { IfOk result (λ graph. graph ≡ program.now) }
        ensures few_points { OnOk result (HasFewPoints Standard program.now) }
        ensures few_bits { OnOk result (HasFewBits Standard program.now) }
        ensures many_points { IsErrOf result TooManyPoints → HasManyPoints Standard program.now }
        ensures many_bits { IsErrOf result TooManyBits → HasManyBits Standard program.now }
    {
        Graph::build_within(alloc, program, Limits::Standard)
    }

    /// The program.
    pub fn program(&self) -> &'p Program
        ensures { result.now ≡ self.now }
    {
        self.points.program()
    }

    /// How many points there are: at most 16,777,216.
    pub fn points(&self) -> u32
        ensures count { result ≡ point_count self.now }
        ensures few { HasFewPoints Large self.now }
        ensures sound { IsSound self.now }
    {
        self.points.count()
    }

    /// The point of a place of a procedure; the place of its end is the number of its statements.
    pub fn point(&self, procedure: u32, place: u32) -> u32
        requires procedure { procedure < length self.now.procedures }
        requires place { place ≤ end_place self.now procedure }
        ensures { result ≡ point_of self.now procedure place }
    {
        self.points.point(procedure, place)
    }

    /// The procedure and the place of a point.
    pub fn place(&self, point: u32) -> Place
        requires { point < point_count self.now }
        ensures { result ≡ place_of self.now point }
    {
        self.points.place(point)
    }

    /// How many bits an analysis has: at most 20,971,520.
    pub fn bits(&self, analysis: Analysis) -> u32
        ensures count { result ≡ bits self.now analysis }
        ensures few { HasFewBits Large self.now }
        ensures most { result ≤ most_definitions Large }
    {
        match analysis {
            Analysis::Reach => self.definitions.len() as u32,
            Analysis::Live => self.program().variables(),
            Analysis::Avail => self.expressions.len() as u32,
            Analysis::Busy => self.expressions.len() as u32,
        }
    }

    /// The statement before which a point stands; none at a procedure's end.
    pub fn stmt(&self, point: u32) -> Option<&'p Stmt>
        requires { point < point_count self.now }
        ensures stmt { option_copied result ≡ statement_at self.now point }
        ensures sound { IsSound self.now }
    {
        self.points.stmt(point)
    }

    /// The definition of this number: its variable, and the point of its statement, or none of a dummy, which stands for the
    /// variable's value at the beginning.
    pub fn definition(&self, bit: u32) -> (u32, Option<u32>)
        requires { bit < length (definitions_of self.now) }
        ensures definition { slice_get (definitions_of self.now) bit ≡ Some result }
        ensures there { IsDefinitionIn self.now result }
    {
        // Its contract tells that the program is sound.
        let _ = self.program().procs();
        self.definitions[bit as usize]
    }

    /// The expression of this number.
    pub fn expression(&self, bit: u32) -> Expr
        requires { bit < length (expressions_of self.now) }
        ensures { slice_get (expressions_of self.now) bit ≡ Some result }
    {
        self.expressions.as_slice()[bit as usize]
    }

    /// The number of the expression that the statement at a point evaluates.
    pub fn evaluated(&self, point: u32) -> Option<u32>
        requires { point < point_count self.now }
        ensures { result ≡ evaluated_at self.now point }
    {
        self.evaluated[point as usize]
    }
}
