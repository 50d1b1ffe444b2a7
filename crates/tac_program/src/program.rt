// A program: procedures of statements, over names held by number.
ghost use Rattle.std.specs.Prelude.{◌≡◌, ◌<◌, ◌≤◌, [], ◌∷◌, ◌++◌, codes, length, slice_get, Some, IfSome};
ghost use Rattle.tac_program.specs.Programs.{LabelsRise};
ghost use Rattle.tac_program.specs.Spelling.{sign_of};
ghost use Rattle.tac_program.specs.Sound.{IsSound};

use crate::names::NameTable;
use std::marker::Model;

/// An operator, by its sign. Unary are `-`, `~` and `!`; comparisons are `<`, `<=`, `>`, `>=`, `==`
/// and `!=`; all but `~` and `!` are binary.
#[derive(Clone, Copy, Debug, PartialEq, Eq, Hash)]
pub enum Op {
    Plus,
    Minus,
    Star,
    Slash,
    Percent,
    And,
    Or,
    Caret,
    ShiftLeft,
    ShiftRight,
    Less,
    LessEqual,
    Greater,
    GreaterEqual,
    Equal,
    NotEqual,
    Tilde,
    Bang,
}

impl Op {
    /// How it is written.
    pub fn sign(self) -> &'static [u8]
        ensures { result.now ≡ sign_of self }
    {
        match self {
            Op::Plus => b"+",
            Op::Minus => b"-",
            Op::Star => b"*",
            Op::Slash => b"/",
            Op::Percent => b"%",
            Op::And => b"&",
            Op::Or => b"|",
            Op::Caret => b"^",
            Op::ShiftLeft => b"<<",
            Op::ShiftRight => b">>",
            Op::Less => b"<",
            Op::LessEqual => b"<=",
            Op::Greater => b">",
            Op::GreaterEqual => b">=",
            Op::Equal => b"==",
            Op::NotEqual => b"!=",
            Op::Tilde => b"~",
            Op::Bang => b"!",
        }
    }
}

/// What an operator, a condition or a `print` works on: a variable by its number, or a number of at
/// most 9223372036854775807.
#[derive(Clone, Copy, Debug, PartialEq, Eq, Hash)]
pub enum Operand {
    Variable(u32),
    Number(u64),
}

/// Where a statement stands: its line, from 1, and the bytes `start..end` of the text from its first
/// token, behind its labels, to the end of its last.
#[derive(Clone, Copy, Debug, PartialEq, Eq)]
pub struct Span {
    pub line: u32,
    pub start: u32,
    pub end: u32,
}

/// A label of a procedure: its number, which is its place among the procedure's labels, and the
/// number of the statement that it stands for, or the number of statements where it stands for the
/// procedure's end.
#[derive(Clone, Copy, Debug, PartialEq, Eq)]
pub struct Label {
    pub name: u32,
    pub place: u32,
}

/// The procedures that a call lists, by number: one to eight, in the order of the text.
#[derive(Debug, Drop)]
pub struct Callees {
    count: u32,
    procedures: [u32; 8],
}

impl Model for Callees {
    ghost use Rattle.std.specs.Prelude.{◌≡◌, ◌≤◌, List, ℕ, length, take};

    ghost Value = { List ℕ };

    ghost view = { λ callees. take callees.count callees.procedures };

    ghost invariant = { λ callees. (callees.count ≤ 8) × (length callees.procedures ≡ 8) };
}

impl Callees {
    /// No procedures.
    pub fn new() -> Self
        ensures { result ≡ [] }
    {
        Callees {
            count: 0,
            procedures: [0; 8],
        }
    }

    /// Puts a procedure last.
    pub fn push(&mut self, procedure: u32)
        requires { length self.old < 8 }
        ensures { self.new ≡ self.old ++ procedure ∷ [] }
    {
        self.procedures[self.count as usize] = procedure;
        self.count += 1;
    }

    /// The procedures by number, in the order of the text.
    pub fn as_slice(&self) -> &[u32]
        ensures procedures { result.now ≡ self.now }
        ensures few { length result.now ≤ 8 }
    {
        &self.procedures[..self.count as usize]
    }
}

/// What a statement does: three-address code as in Aho, Lam, Sethi, Ullman, Compilers, 6.2, over
/// global variables. A variable, a label and a procedure are held by number.
// Fields lie in the order of the source: what is small stands first, which makes a statement 56 bytes.
#[derive(Debug, Drop)]
pub enum StmtKind {
    /// `target = value`
    Copy {
        target: u32,
        value: Operand,
    },
    /// `target = op operand`
    Unary {
        target: u32,
        op: Op,
        operand: Operand,
    },
    /// `target = left op right`
    Binary {
        op: Op,
        target: u32,
        left: Operand,
        right: Operand,
    },
    /// `goto label`
    Goto {
        label: u32,
    },
    /// `if condition goto label`
    If {
        condition: Operand,
        label: u32,
    },
    /// `ifFalse condition goto label`
    IfFalse {
        condition: Operand,
        label: u32,
    },
    /// `if left op right goto label`
    IfCompare {
        op: Op,
        label: u32,
        left: Operand,
        right: Operand,
    },
    /// `call procedure | procedure ..`: any one of them may be called.
    Call {
        callees: Callees,
    },
    /// `return`
    Return,
    /// `read target`
    Read {
        target: u32,
    },
    /// `print value`
    Print {
        value: Operand,
    },
    /// `skip`
    Skip,
}

/// A statement, and where it stands in its text.
#[derive(Debug, Drop)]
pub struct Stmt {
    pub kind: StmtKind,
    pub span: Span,
}

/// A procedure of a program: its number, its labels in text order, and its statements.
#[derive(Debug, Drop)]
pub struct Proc {
    name: u32,
    labels: Vec<Label>,
    label_names: NameTable,
    stmts: Vec<Stmt>,
}

impl Model for Proc {
    ghost use Rattle.tac_program.specs.Programs.{Procedure, LabelsRise};

    ghost Value = { Procedure };

    ghost view = { λ p. record { name = p.name; labels = p.labels.items; label_names = p.label_names; statements = p.stmts.items } };

    ghost invariant = { λ p. LabelsRise p.labels.items };
}

impl Proc {
    /// A procedure of these parts.
    pub fn new(name: u32, labels: Vec<Label>, label_names: NameTable, stmts: Vec<Stmt>) -> Self
        requires { LabelsRise labels.items }
        ensures { result ≡ record { name = name; labels = labels.items; label_names = label_names; statements = stmts.items } }
    {
        Proc {
            name,
            labels,
            label_names,
            stmts,
        }
    }

    /// The procedure's number, which is its place among the program's procedures.
    pub fn name(&self) -> u32
        ensures { result ≡ self.now.name }
    {
        self.name
    }

    /// The labels in text order.
    pub fn labels(&self) -> &[Label]
        ensures labels { result.now ≡ self.now.labels }
        ensures rise { LabelsRise result.now }
    {
        self.labels.as_slice()
    }

    /// The statements in text order.
    pub fn stmts(&self) -> &[Stmt]
        ensures { result.now ≡ self.now.statements }
    {
        self.stmts.as_slice()
    }

    /// The names of the labels, by number.
    pub fn label_names(&self) -> &NameTable
        ensures { result.now ≡ self.now.label_names }
    {
        &self.label_names
    }
}

/// A program, as `read` makes it: its procedures in text order, and the names of everything that is
/// held by number. Every program is sound: each number in it leads to what is there.
#[derive(Debug)]
pub struct Program {
    procs: Vec<Proc>,
    procedures: NameTable,
    variables: NameTable,
}

impl Model for Program {
    ghost use Rattle.tac_program.specs.Programs.{Program};
    ghost use Rattle.tac_program.specs.Sound.{IsSound};

    ghost Value = { Program };

    ghost view = { λ p. record { procedures = p.procs.items; procedure_names = p.procedures; variable_names = p.variables } };

    ghost invariant = { λ p. IsSound (record { procedures = p.procs.items; procedure_names = p.procedures; variable_names = p.variables }) };
}

impl Drop for Program {
    // By hand: who gives a program up then makes one call.
    fn drop(self) {
        let Program {
            procs: _,
            procedures: _,
            variables: _,
        } = self;
    }
}

impl Program {
    /// A program of these parts.
    pub fn new(procs: Vec<Proc>, procedures: NameTable, variables: NameTable) -> Self
        requires { IsSound (record { procedures = procs.items; procedure_names = procedures; variable_names = variables }) }
        ensures { result ≡ record { procedures = procs.items; procedure_names = procedures; variable_names = variables } }
    {
        Program {
            procs,
            procedures,
            variables,
        }
    }

    /// The procedures in text order.
    pub fn procs(&self) -> &[Proc]
        ensures procedures { result.now ≡ self.now.procedures }
        ensures sound { IsSound self.now }
    {
        self.procs.as_slice()
    }

    /// The number of the procedure `main`.
    pub fn main(&self) -> u32
        ensures within { result < length self.now.procedures }
        ensures main { slice_get self.now.procedure_names result ≡ Some (codes "main") }
    {
        self.procedures.find(b"main").unwrap()
    }

    /// How many variables there are.
    pub fn variables(&self) -> u32
        ensures { result ≡ length self.now.variable_names }
    {
        self.variables.len()
    }

    /// The name of the variable of this number.
    pub fn variable(&self, variable: u32) -> &[u8]
        requires { variable < length self.now.variable_names }
        ensures { slice_get self.now.variable_names variable ≡ Some result.now }
    {
        self.variables.name(variable)
    }

    /// The name of the procedure of this number.
    pub fn procedure(&self, procedure: u32) -> &[u8]
        requires { procedure < length self.now.procedure_names }
        ensures { slice_get self.now.procedure_names procedure ≡ Some result.now }
    {
        self.procedures.name(procedure)
    }

    /// The name of a label, by the numbers of its procedure and of the label in it.
    pub fn label(&self, procedure: u32, label: u32) -> &[u8]
        requires procedure { procedure < length self.now.procedures }
        requires label { IfSome (slice_get self.now.procedures procedure) (λ p. label < length p.label_names) }
        ensures { IfSome (slice_get self.now.procedures procedure) (λ p. slice_get p.label_names label ≡ Some result.now) }
    {
        self.procs[procedure as usize].label_names.name(label)
    }

    /// The names of the procedures, by number.
    pub fn procedure_names(&self) -> &NameTable
        ensures { result.now ≡ self.now.procedure_names }
    {
        &self.procedures
    }

    /// The names of the variables, by number.
    pub fn variable_names(&self) -> &NameTable
        ensures { result.now ≡ self.now.variable_names }
    {
        &self.variables
    }
}
