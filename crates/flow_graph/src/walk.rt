// The statements of a program, one point after the other.

ghost use Rattle.std.specs.Prelude.{◌≡◌, ◌+◌, ◌<◌, option_copied};
ghost use Rattle.flow_graph.specs.Points.{point_count, statement_at, statements_of};
ghost use Rattle.flow_graph.specs.code.Walks.{WalkAt};

use std::marker::Model;
use tac_program::{Program, Stmt};

/// A walk over the points of a program. It keeps the statements of the procedure where it stands, so that no point has to
/// be looked up.
#[derive(Drop)]
pub struct Walk<'p> {
    program: &'p Program,
    procedure: usize,
    statements: &'p [Stmt],
    place: usize,
}

impl<'p> Model for Walk<'p> {
    ghost use Rattle.std.specs.Prelude.{◌≡◌, ◌≤◌, length};
    ghost use Rattle.flow_graph.specs.Points.{point_of, statements_of};
    ghost use Rattle.flow_graph.specs.code.Walks.{WalkAt};

    ghost Value = { WalkAt };

    ghost view = { λ walk. record { program = walk.program.now; point = point_of walk.program.now walk.procedure walk.place } };

    ghost invariant = { λ walk. (walk.procedure ≤ length walk.program.now.procedures)
        × (walk.place ≤ length walk.statements.now)
        × (walk.statements.now ≡ statements_of walk.program.now walk.procedure) };
}

/// The statements of a procedure; none past the last procedure.
fn statements(program: &Program, procedure: usize) -> &[Stmt]
    ensures { result.now ≡ statements_of program.now procedure }
{
    let procs = program.procs();
    if procedure < procs.len() {
        procs[procedure].stmts()
    } else {
        &[]
    }
}

impl<'p> Walk<'p> {
    /// A walk that stands at the first point.
    pub fn new(program: &'p Program) -> Self
        ensures { result ≡ record { program = program.now; point = 0 } }
    {
        Walk {
            program,
            procedure: 0,
            statements: statements(program, 0),
            place: 0,
        }
    }

    /// The statement before which the point stands, or none at a procedure's end, and the walk at the next point.
    pub fn step(self) -> (Option<&'p Stmt>, Self)
        requires { self.point < point_count self.program }
        ensures stmt { option_copied result.0 ≡ statement_at self.entry.program self.entry.point }
        ensures next { result.1 ≡ record self.entry { point = self.entry.point + 1 } }
    {
        if self.place < self.statements.len() {
            let next = Walk {
                program: self.program,
                procedure: self.procedure,
                statements: self.statements,
                place: self.place + 1,
            };
            (Some(&self.statements[self.place]), next)
        } else {
            // How many procedures there are bounds the next one's number.
            let _ = self.program.procs();
            let procedure = self.procedure + 1;
            let next = Walk {
                program: self.program,
                procedure,
                statements: statements(self.program, procedure),
                place: 0,
            };
            (None, next)
        }
    }
}
