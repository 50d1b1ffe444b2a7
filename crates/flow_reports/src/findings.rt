// What is found of a program before a text of it is written.

ghost use Rattle.std.specs.Prelude.{◌≡◌, ℕ, ◌+◌, ◌*◌, ◌<◌, Some, slice_get, IfOk};
ghost use Rattle.bit_rows.specs.Words.{has_bit};
ghost use Rattle.flow_reports.specs.code.Findings.{AreChosenFindings, AreFindings, TellDoubtful};
ghost use Rattle.report_answers.specs.code.Reported.{TellChosen, TellReport};
ghost use Rattle.report_answers.specs.code.Answered.{facts_in};
ghost use Rattle.report_answers.specs.code.Chosen.{wanted_query};

use crate::OutOfMemory;
use crate::doubt::doubtful_points;
use flow_graph::{Analysis, Graph};
use flow_queries::Query;
use flow_texts::texts_of_bits;
use report_answers::ReportAnswers;
use std::alloc::Global;
use text_pieces::TextBlock;

/// What was found of a program: answers to what a report asks, for each point whether it is doubtful, and what its expressions are called.
pub struct Findings<'a> {
    /// The program.
    pub graph: &'a Graph<'a>,
    /// The answers.
    pub answers: &'a ReportAnswers,
    /// Whether each point is doubtful.
    pub doubtful: Vec<bool>,
    /// The texts of its expressions.
    pub expressions: TextBlock,
}

impl Drop for Findings<'_> {
    // By hand: who gives it up then makes one call.
    fn drop(self) {
        let Findings {
            graph: _,
            answers: _,
            doubtful: _,
            expressions: _,
        } = self;
    }
}

impl<'a> Findings<'a> {
    /// What these answers tell of their program.
    ///
    /// The condition: they answer what a report on this graph's program asks. Fails only where memory runs out.
    pub fn of(
        alloc: Global,
        graph: &'a Graph<'a>,
        answers: &'a ReportAnswers,
    ) -> Result<Findings<'a>, OutOfMemory>
        requires { TellReport graph.now answers.now }
        ensures program { IfOk result (λ found. found.graph.now ≡ graph.now) }
        ensures found { IfOk result AreFindings }
        ensures doubtful { IfOk result (λ found. TellDoubtful found.graph.now found.doubtful.items) }
    {
        let found = Findings::of_chosen(alloc, graph, answers)?;
        Ok(found)
    }

    /// What these answers tell of their program, as far as they were asked.
    ///
    /// The condition: they answer what a report on this graph's program asks of the bits that they name. Fails only where memory runs out.
    pub fn of_chosen(
        alloc: Global,
        graph: &'a Graph<'a>,
        answers: &'a ReportAnswers,
    ) -> Result<Findings<'a>, OutOfMemory>
        requires { TellChosen answers.now.chosen graph.now answers.now }
        ensures program { IfOk result (λ found. found.graph.now ≡ graph.now) }
        ensures answers { IfOk result (λ found. found.answers.now ≡ answers.now) }
        ensures found { IfOk result AreChosenFindings }
        ensures doubtful { IfOk result (λ found. TellDoubtful found.graph.now found.doubtful.items) }
    {
        let doubtful = doubtful_points(alloc, graph, answers)?;
        let expressions = texts_of_bits(alloc, graph, Analysis::Avail)?;
        Ok(Findings {
            graph,
            answers,
            doubtful,
            expressions,
        })
    }
}

impl Findings<'_> {
    // Whether the answer to the query of a number has the bit that it was asked for; one that is not wanted it lacks.
    pub(crate) fn has(&self, number: u32, analysis: Analysis, point: u32, bit: u32) -> bool
        requires found { AreChosenFindings self.now }
        requires queried { slice_get self.now.answers.now.replies.queries number ≡ Some (wanted_query self.now.answers.now.chosen analysis point bit) }
        ensures { result ≡ (facts_in self.now.answers.now.replies analysis).contains point bit }
    {
        // Only the number tells which answer it is; the others say what it answers.
        let _ = (analysis, point);
        (self.answers.word(number) >> (bit % 64)) & 1 == 1
    }
}
