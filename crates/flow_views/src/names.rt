// What the bits of the analyses are called, made once for all sets.

ghost use Rattle.std.specs.Prelude.{◌≡◌, ◌++◌, IfOk, OnOk, codes, decimal};
ghost use Rattle.text_pieces.specs.code.Blocks.{HoldsTexts, separator_text};
ghost use Rattle.flow_views.specs.code.Names.{AreNames, AreNamesOf, between, name_in, numbered as numbered_of};
ghost use Rattle.flow_views.specs.declared.names.NameForm.TheVariants.{Quoted};

use crate::OutOfMemory;
use flow_graph::{Analysis, Graph};
use flow_texts::texts_of_bits;
use itoa::Buffer;
use std::alloc::Global;
use text_pieces::{Separator, TextBlock, push_escaped, push_quoted};

/// How the names of bits are written.
#[derive(Clone, Copy)]
pub enum NameForm {
    /// As they stand between quotes, `, ` between them.
    Escaped,
    /// Each between quotes, `,` between them, and numbers beside them.
    Quoted,
}

/// What the bits are called, in one form.
pub struct Names {
    /// The form.
    pub form: NameForm,
    /// The texts of the definitions.
    pub definitions: TextBlock,
    /// The names of the variables.
    pub variables: TextBlock,
    /// The texts of the expressions.
    pub expressions: TextBlock,
    /// The numbers of all bits, where the form has them.
    pub numbers: TextBlock,
}

impl Drop for Names {
    // By hand: who gives it up then makes one call.
    fn drop(self) {
        let Names {
            form: _,
            definitions: _,
            variables: _,
            expressions: _,
            numbers: _,
        } = self;
    }
}

// What stands between two names.
fn separator(form: NameForm) -> Separator
    ensures { separator_text result ≡ between form }
{
    match form {
        NameForm::Escaped => Separator::CommaAndBlank,
        NameForm::Quoted => Separator::Comma,
    }
}

// Puts a name behind a text.
fn push_name(text: &mut Vec<u8>, form: NameForm, name: &[u8]) -> Result<(), OutOfMemory>
    ensures { OnOk result (text.new.items ≡ text.old.items ++ name_in form name.now) }
{
    match form {
        NameForm::Escaped => push_escaped(text, name),
        NameForm::Quoted => push_quoted(text, name),
    }
}

// The names of an analysis's bits.
fn names_of(
    alloc: Global,
    graph: &Graph<'_>,
    analysis: Analysis,
    form: NameForm,
) -> Result<TextBlock, OutOfMemory>
    ensures { IfOk result (AreNamesOf form graph.now analysis) }
{
    let plain = texts_of_bits(alloc, graph, analysis)?;
    let mut names = TextBlock::new(alloc, separator(form))?;
    let mut name = Vec::new(alloc);
    for bit in 0..graph.bits(analysis) {
        name.clear();
        push_name(&mut name, form, plain.text(bit))?;
        names = names.with_text(&name)?;
    }
    Ok(names)
}

// The numbers below a count.
fn numbers_below(alloc: Global, count: u32) -> Result<TextBlock, OutOfMemory>
    ensures { IfOk result (HoldsTexts (codes ",") decimal count) }
{
    let mut numbers = TextBlock::new(alloc, Separator::Comma)?;
    for number in 0..count {
        numbers = numbers.with_text(Buffer::new().format(number).as_bytes())?;
    }
    Ok(numbers)
}

// How many numbers stand beside names of a form.
fn numbered(graph: &Graph<'_>, form: NameForm) -> u32
    ensures { result ≡ numbered_of form graph.now }
{
    match form {
        NameForm::Escaped => 0,
        NameForm::Quoted => graph
            .bits(Analysis::Reach)
            .max(graph.bits(Analysis::Live))
            .max(graph.bits(Analysis::Avail)),
    }
}

impl Names {
    /// The names of a program's bits. Fails only where memory runs out.
    pub(crate) fn of(alloc: Global, graph: &Graph<'_>, form: NameForm) -> Result<Names, OutOfMemory>
        ensures form { IfOk result (λ names. names.form ≡ form) }
        ensures names { IfOk result (AreNames graph.now) }
    {
        let definitions = names_of(alloc, graph, Analysis::Reach, form)?;
        let variables = names_of(alloc, graph, Analysis::Live, form)?;
        let expressions = names_of(alloc, graph, Analysis::Avail, form)?;
        let numbers = numbers_below(alloc, numbered(graph, form))?;
        Ok(Names {
            form,
            definitions,
            variables,
            expressions,
            numbers,
        })
    }
}
