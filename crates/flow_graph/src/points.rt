// The points of a program: from a place to its point and back.

ghost use Rattle.std.specs.Prelude.{◌≡◌, ◌≢◌, ◌+◌, ◌<◌, ◌≤◌, length, Err, ◌↔◌, IfOk, OnOk, IsErrOf, IsTrue, option_copied};
ghost use Rattle.flow_graph.specs.Limits.{HasFewPoints, HasManyPoints};
ghost use Rattle.flow_graph.specs.code.PointTables.{AreFirstPoints, AreProcedures};
ghost use Rattle.flow_graph.specs.Points.{end_place, place_of, point_count, point_of, statement_at};
ghost use Rattle.tac_program.specs.Sound.{IsSound};
ghost use Rattle.tac_program.specs.declared.limits.Limits.TheVariants.{Large};
ghost use Rattle.flow_graph.specs.declared.fault.GraphFault.TheVariants.{TooManyPoints, TooManyBits};

use crate::OutOfMemory;
use crate::fault::GraphFault;
use crate::place::Place;
use std::alloc::Global;
use std::marker::Model;
use tac_program::{Limits, Program, Stmt};

/// The points of a program, which it stands for.
#[derive(Drop)]
pub struct Points<'p> {
    program: &'p Program,
    firsts: Vec<u32>,
    procedures: Vec<u32>,
}

impl<'p> Model for Points<'p> {
    ghost use Rattle.flow_graph.specs.Limits.{HasFewPoints};
    ghost use Rattle.flow_graph.specs.code.PointTables.{AreFirstPoints, AreProcedures};
    ghost use Rattle.tac_program.specs.Programs.{Program};
    ghost use Rattle.tac_program.specs.Sound.{IsSound};
    ghost use Rattle.tac_program.specs.declared.limits.Limits.TheVariants.{Large};

    ghost Value = { Program };

    ghost view = { λ points. points.program.now };

    ghost invariant = { λ points. HasFewPoints Large points.program.now
        × AreFirstPoints points.program.now points.firsts.items
        × AreProcedures points.program.now points.procedures.items
        × IsSound points.program.now };
}

/// Whether there are not too many points.
fn has_few_points(program: &Program, limits: Limits) -> bool
    ensures sound { IsSound program.now }
    ensures few { IsTrue result ↔ HasFewPoints limits program.now }
    ensures large { IsTrue result → HasFewPoints Large program.now }
{
    let procs = program.procs();
    let most = limits.points() as usize;
    let mut count = 0;
    for procedure in procs {
        count += procedure.stmts().len() + 1;
        if most < count {
            return false;
        }
    }
    true
}

/// The first point of each procedure.
fn first_points(alloc: Global, program: &Program) -> Result<Vec<u32>, OutOfMemory>
    requires { HasFewPoints Large program.now }
    ensures { IfOk result (λ firsts. AreFirstPoints program.now firsts.items) }
{
    let procs = program.procs();
    let mut firsts = Vec::with_capacity(alloc, procs.len())?;
    let mut count = 0;
    for procedure in procs {
        firsts.push(count as u32)?;
        count += procedure.stmts().len() + 1;
    }
    Ok(firsts)
}

/// The procedure of each point, for so many points.
fn point_procedures(alloc: Global, program: &Program) -> Result<Vec<u32>, OutOfMemory>
    requires { HasFewPoints Large program.now }
    ensures { IfOk result (λ procedures. AreProcedures program.now procedures.items) }
{
    let procs = program.procs();
    let mut procedures = Vec::new(alloc);
    let mut number = 0;
    for procedure in procs {
        let size = procedure.stmts().len() + 1;
        procedures.resize(procedures.len() + size, number)?;
        number += 1;
    }
    Ok(procedures)
}

impl<'p> Points<'p> {
    /// The points of a program.
    pub fn new(alloc: Global, program: &'p Program, limits: Limits) -> Result<Self, GraphFault>
        ensures program { IfOk result (λ points. points ≡ program.now) }
        ensures few { OnOk result (HasFewPoints limits program.now) }
        ensures many { IsErrOf result TooManyPoints → HasManyPoints limits program.now }
        ensures never_bits { result ≢ Err TooManyBits }
    {
        if !has_few_points(program, limits) {
            return Err(GraphFault::TooManyPoints);
        }
        let firsts = first_points(alloc, program)?;
        let procedures = point_procedures(alloc, program)?;
        Ok(Points {
            program,
            firsts,
            procedures,
        })
    }

    /// The program.
    pub fn program(&self) -> &'p Program
        ensures { result.now ≡ self.now }
    {
        self.program
    }

    /// How many points there are.
    pub fn count(&self) -> u32
        ensures count { result ≡ point_count self.now }
        ensures few { HasFewPoints Large self.now }
        ensures sound { IsSound self.now }
    {
        self.procedures.len() as u32
    }

    /// The point of a place of a procedure.
    pub fn point(&self, procedure: u32, place: u32) -> u32
        requires procedure { procedure < length self.now.procedures }
        requires place { place ≤ end_place self.now procedure }
        ensures { result ≡ point_of self.now procedure place }
    {
        self.firsts[procedure as usize] + place
    }

    /// The place of a point.
    pub fn place(&self, point: u32) -> Place
        requires { point < point_count self.now }
        ensures { result ≡ place_of self.now point }
    {
        let procedure = self.procedures[point as usize];
        Place {
            procedure,
            place: point - self.firsts[procedure as usize],
        }
    }

    /// The statement before which a point stands, or none at a procedure's end.
    pub fn stmt(&self, point: u32) -> Option<&'p Stmt>
        requires { point < point_count self.now }
        ensures stmt { option_copied result ≡ statement_at self.now point }
        ensures sound { IsSound self.now }
        ensures few { HasFewPoints Large self.now }
    {
        let place = self.place(point);
        let procedure = &self.program.procs()[place.procedure as usize];
        procedure.stmts().get(place.place as usize)
    }
}
