/// An operand: its kind, 1 for a variable and 2 for a number, and the variable's number or the number itself, at most 9223372036854775807.
#[repr(C)]
#[derive(Debug, Clone, Copy, PartialEq, Eq)]
pub struct BuiltOperand {
    pub kind: u32,
    pub variable: u32,
    pub number: u64,
}

/// A statement. Its kind counts the forms of the language from 1: copy, unary and binary assignment, goto, if, ifFalse, comparison, call,
/// return, read, print, skip. What a form has not is not looked at. One operand stands on the right. The operators are numbered in the order of
/// the language: `+ - * / % & | ^ << >> < <= > >= == != ~ !`. A label is meant by its number in the procedure, a call's procedures are so many of the
/// callees from one on. The line is one's own.
#[repr(C)]
#[derive(Debug, Clone, Copy, PartialEq, Eq)]
pub struct BuiltStatement {
    pub kind: u32,
    pub target: u32,
    pub operator: u32,
    pub label: u32,
    pub first_callee: u32,
    pub callees: u32,
    pub line: u32,
    pub left: BuiltOperand,
    pub right: BuiltOperand,
}

/// A procedure: how many of the statements, and of the labels, are its own, behind those of the procedures before.
#[repr(C)]
#[derive(Debug, Clone, Copy, PartialEq, Eq)]
pub struct BuiltProcedure {
    pub statements: u32,
    pub labels: u32,
}

/// Names, one after the other: each ends where the next begins.
#[derive(Debug, Clone, Copy)]
pub struct BuiltNames<'a> {
    pub ends: &'a [usize],
    pub bytes: &'a [u8],
}

/// What a program is built of. The labels are, for each, how many statements of its procedure stand before it; those of a procedure do not fall.
/// The first labels of each procedure have the first of the labels' names.
#[derive(Debug, Clone, Copy)]
pub struct Arrays<'a> {
    pub procedures: &'a [BuiltProcedure],
    pub statements: &'a [BuiltStatement],
    pub labels: &'a [u32],
    pub callees: &'a [u32],
    pub procedure_names: BuiltNames<'a>,
    pub variable_names: BuiltNames<'a>,
    pub label_names: BuiltNames<'a>,
}
