ghost use Rattle.std.specs.Prelude.{◌≡◌, ◌+◌, ◌*◌, ◌/◌, ◌%◌, ◌^◌, ◌<◌, ◌≤◌, ◌&&◌, ◌||◌, ℕ, IfOk, IfSome};
ghost use Rattle.std.specs.Prelude.{false, true, length, nat_eq, nat_lt, option_map};
ghost use Rattle.std.specs.Prelude.{None, unwrap_or};
ghost use Rattle.bit_rows.specs.Words.{has_bit};
ghost use Rattle.flow_graph.specs.Analyses.{is_backward, is_must, main_procedure};
ghost use Rattle.flow_graph.specs.Directions.{goes_backward};
ghost use Rattle.flow_graph.specs.Problems.{may_shape, IsWordOfTest};
ghost use Rattle.gen_kill.specs.Selections.{AreChosen, IsColumnAffected, IsColumnOf};
ghost use Rattle.gen_kill.specs.Selections.{all_bits, bit_of, column_boundary, column_count, column_gens, column_kills};
ghost use Rattle.gen_kill.specs.Selections.{some_bits};
ghost use Rattle.gen_kill.specs.code.Columns.{IsChosenOf};
ghost use Rattle.gen_kill.specs.code.Effects.{IsColumnEffect, IsDependence, column_depends, effect_owns, marks};
ghost use Rattle.flow_graph.specs.Limits.{HasFewBits, HasFewPoints};
ghost use Rattle.flow_graph.specs.WellFormed.{IsWellFormed};
ghost use Rattle.flow_graph.specs.Points.{end_point, point_count, procedure_at};
ghost use Rattle.flow_graph.specs.Universes.{bits as bits_of};
ghost use Rattle.tac_program.specs.Sound.{IsSound};
ghost use Rattle.tac_program.specs.declared.limits.Limits.TheVariants.{Large};
ghost use Rattle.tac_program.specs.Limits.{most_definitions, most_variables};

use crate::OutOfMemory;
use crate::bit_table::BitTable;
use crate::columns::Columns;
use crate::effect::{Effect, KeptEffect};
use crate::effects::{column_variables, dependent_words, effects, put_dependence};
use crate::words::{
    generated, generates, is_either, killed, kills, mark_word, own_word, word_mark,
};
use bit_rows::word_below;
use flow_graph::{Analysis, Direction, Edge, Graph, Join};
use std::alloc::Global;
use std::marker::Model;
use tac_program::Program;

/// The may form of an analysis: the forward problem, in which a path has a bit where some edge has put it in, by which the
/// analysis is solved. A backward analysis has its edges reversed, and an analysis over every path its sets complemented. All bits of the
/// analysis are solved, or chosen ones, side by side: bits are told by their columns.
pub struct Problem<'g, 'p> {
    graph: &'g Graph<'p>,
    analysis: Analysis,
    columns: Columns,
    effects: Vec<KeptEffect>,
    dependent_words: BitTable,
}

impl<'g, 'p> Model for Problem<'g, 'p> {
    ghost use Rattle.flow_graph.specs.Problems.{may_shape};
    ghost use Rattle.std.specs.Prelude.{◌≡◌};
    ghost use Rattle.gen_kill.specs.Selections.{Selection};
    ghost use Rattle.gen_kill.specs.code.Problems.{IsKept, selected};

    ghost Value = { Selection };

    ghost view = { λ problem. selected problem.graph.now problem.analysis problem.columns };

    ghost invariant = { λ problem. IsKept (selected problem.graph.now problem.analysis problem.columns) problem.effects.items
        problem.dependent_words.words.items problem.dependent_words.width };
}

impl Drop for Problem<'_, '_> {
    // By hand: who gives a problem up then makes one call.
    fn drop(self) {
        let Problem {
            graph: _,
            analysis: _,
            columns: _,
            effects: _,
            dependent_words: _,
        } = self;
    }
}

// The problem of these columns.
fn problem_of<'g, 'p>(
    alloc: Global,
    graph: &'g Graph<'p>,
    analysis: Analysis,
    columns: Columns,
) -> Result<Problem<'g, 'p>, OutOfMemory>
    requires { IsChosenOf graph.now analysis columns }
    ensures { IfOk result (λ problem. problem ≡ record { program = graph.now; analysis = analysis; chosen = columns }) }
{
    // Its contract tells that the program is sound.
    let _ = graph.program().procs();
    let effects = effects(alloc, graph, analysis, &columns)?;
    let dependent_words = dependent_words(alloc, graph, analysis, &columns)?;
    Ok(Problem {
        graph,
        analysis,
        columns,
        effects,
        dependent_words,
    })
}

impl<'g, 'p> Problem<'g, 'p> {
    /// The may form of an analysis of a graph's program, in which each bit is its own column.
    pub fn of(alloc: Global, graph: &'g Graph<'p>, analysis: Analysis) -> Result<Self, OutOfMemory>
        ensures { IfOk result (λ problem. problem ≡ all_bits graph.now analysis) }
    {
        problem_of(alloc, graph, analysis, Columns::all(alloc))
    }

    /// The same of chosen bits alone, which rise: each is the column of its place among them.
    pub fn of_chosen(
        alloc: Global,
        graph: &'g Graph<'p>,
        analysis: Analysis,
        chosen: Vec<u32>,
    ) -> Result<Self, OutOfMemory>
        requires { AreChosen graph.now analysis chosen.items }
        ensures { IfOk result (λ problem. problem ≡ some_bits graph.now analysis chosen.items) }
    {
        let columns = Columns::chosen(alloc, chosen, graph.bits(analysis))?;
        problem_of(alloc, graph, analysis, columns)
    }

    /// The same problem once more. Fails only where memory runs out.
    pub fn copied(&self, alloc: Global) -> Result<Self, OutOfMemory>
        ensures { IfOk result (λ problem. problem ≡ self.now) }
    {
        let columns = self.columns.copied(alloc)?;
        problem_of(alloc, self.graph, self.analysis, columns)
    }

    /// The graph.
    pub fn graph(&self) -> &'g Graph<'p>
        ensures { result.now ≡ self.now.program }
    {
        self.graph
    }

    /// The program.
    pub fn program(&self) -> &'p Program
        ensures { result.now ≡ self.now.program }
    {
        self.graph.program()
    }

    /// The analysis.
    pub fn analysis(&self) -> Analysis
        ensures { result ≡ self.now.analysis }
    {
        self.analysis
    }

    /// The procedure at whose entry the problem begins: the number of `main`. Edges, entries, exits and procedures fit together, as the
    /// laws over paths want it.
    pub fn root(&self) -> u32
        ensures number { result ≡ main_procedure self.now.program }
        ensures there { result < length self.now.program.procedures }
        ensures well_formed { IsWellFormed (may_shape self.now.program self.now.analysis) }
    {
        let program = self.graph.program();
        // Its contract tells that no two procedures have one name.
        let _ = program.procs();
        program.main()
    }

    /// How many procedures there are: at most 262,144.
    pub fn procedures(&self) -> u32
        ensures count { result ≡ length self.now.program.procedures }
        ensures sound { IsSound self.now.program }
    {
        self.graph.program().procs().len() as u32
    }

    /// The last point of a procedure.
    fn end(&self, procedure: u32) -> u32
        requires { procedure < length self.now.program.procedures }
        ensures { result ≡ end_point self.now.program procedure }
    {
        let procs = self.graph.program().procs();
        let stmts = procs[procedure as usize].stmts();
        self.graph.point(procedure, stmts.len() as u32)
    }

    /// The point at which a procedure is entered: its last, where the analysis goes backwards.
    pub fn entry(&self, procedure: u32) -> u32
        requires { procedure < length self.now.program.procedures }
        ensures { result ≡ (may_shape self.now.program self.now.analysis).entry procedure }
    {
        match self.analysis.direction() {
            Direction::Forward => self.graph.point(procedure, 0),
            Direction::Backward => self.end(procedure),
        }
    }

    /// The point at which a procedure is left: its first, where the analysis goes backwards.
    pub fn exit(&self, procedure: u32) -> u32
        requires { procedure < length self.now.program.procedures }
        ensures { result ≡ (may_shape self.now.program self.now.analysis).exit procedure }
    {
        match self.analysis.direction() {
            Direction::Forward => self.end(procedure),
            Direction::Backward => self.graph.point(procedure, 0),
        }
    }

    /// The procedure of a point.
    pub fn procedure(&self, point: u32) -> u32
        requires { point < point_count self.now.program }
        ensures { result ≡ procedure_at self.now.program point }
    {
        self.graph.place(point).procedure
    }

    /// The edges, each reversed where the analysis goes backwards, in the order of the points that they leave in the graph. Fails only
    /// where memory runs out.
    pub fn edges(&self, alloc: Global) -> Result<Vec<Edge>, OutOfMemory>
        ensures { IfOk result (λ edges. edges.items ≡ (may_shape self.now.program self.now.analysis).edges) }
    {
        self.graph.directed_edges(alloc, self.analysis)
    }

    /// How many points there are: at most 16,777,216.
    pub fn points(&self) -> u32
        ensures count { result ≡ point_count self.now.program }
        ensures few { HasFewPoints Large self.now.program }
    {
        self.graph.points()
    }

    /// How many variables there are: at most 4,194,304.
    pub fn variables(&self) -> u32
        ensures count { result ≡ length self.now.program.variable_names }
        ensures few { result ≤ most_variables Large }
    {
        self.graph.bits(Analysis::Live)
    }

    /// How many columns there are: at most 20,971,520.
    pub fn bits(&self) -> u32
        ensures count { result ≡ column_count self.now }
        ensures few { HasFewBits Large self.now.program }
        ensures most { result ≤ most_definitions Large }
        ensures chosen { IsChosenOf self.now.program self.now.analysis self.now.chosen }
    {
        self.columns.count(self.graph.bits(self.analysis))
    }

    /// The bit of a column.
    pub fn bit(&self, column: u32) -> u32
        requires { column < column_count self.now }
        ensures bit { result ≡ bit_of self.now column }
        ensures within { result < bits_of self.now.program self.now.analysis }
    {
        self.columns.bit(column)
    }

    /// The column of a bit; None where the bit is not solved.
    pub fn column(&self, bit: u32) -> Option<u32>
        ensures found { IfSome result (λ column. IsColumnOf self.now bit column) }
        ensures none { result ≡ None → (column : ℕ) → ¬ (IsColumnOf self.now bit column) }
    {
        if bit >= self.graph.bits(self.analysis) {
            return None;
        }
        self.columns.column(bit)
    }

    /// Whether all bits are solved, each its own column.
    pub fn is_whole(&self) -> bool
        ensures { result ≡ true → self.now ≡ all_bits self.now.program self.now.analysis }
    {
        self.columns.are_all()
    }

    /// Which way the analysis goes: the edges are reversed where it goes backwards.
    pub fn direction(&self) -> Direction
        ensures { goes_backward result ≡ is_backward self.now.analysis }
    {
        self.analysis.direction()
    }

    /// Whether the sets are complemented: whether the analysis is over every path.
    pub fn complements(&self) -> bool
        ensures { result ≡ is_must self.now.analysis }
    {
        match self.analysis.join() {
            Join::Union => false,
            Join::Intersection => true,
        }
    }

    /// The variables that a column's bit depends on: two at most.
    pub fn variables_of(&self, column: u32) -> (Option<u32>, Option<u32>)
        requires { column < column_count self.now }
        ensures { (x : ℕ) → (marks result.0 x || marks result.1 x) ≡ column_depends self.now x column }
    {
        column_variables(self.graph, self.analysis, &self.columns, column)
    }

    /// Whether the column's bit depends on the variable, if one is written.
    fn touches(&self, written: Option<u32>, column: u32) -> bool
        requires { column < column_count self.now }
        ensures { result ≡ unwrap_or (option_map (λ x. column_depends self.now x column) written) false }
    {
        let (first, second) = self.variables_of(column);
        match written {
            None => false,
            Some(variable) => is_either(first, second, variable),
        }
    }

    /// The words in which some column depends on the variable, if one is written: word `w` at place `w % 64`.
    fn touched_words(&self, written: Option<u32>) -> u64
        requires { IfSome written (λ x. x < length self.now.program.variable_names) }
        ensures { (column : ℕ) → column < column_count self.now
            → unwrap_or (option_map (λ x. column_depends self.now x column) written) false ≡ true
            → has_bit result (column / 64 % 64) ≡ true }
    {
        match written {
            None => 0,
            Some(variable) => self.dependent_words.word(variable, 0),
        }
    }

    // What the statement at a point does.
    fn effect(&self, point: u32) -> Effect
        requires { point < point_count self.now.program }
        ensures { IsColumnEffect self.now point result }
    {
        self.effects[point as usize].effect()
    }

    /// What the step of the statement at a point may touch: it generates or kills bits of its own columns, and of those that depend on the variable that
    /// it writes, and no others.
    pub fn touched(&self, point: u32) -> Effect
        requires { point < point_count self.now.program }
        ensures written { IfSome result.written (λ x. x < length self.now.program.variable_names) }
        ensures affected { (column : ℕ) → column < column_count self.now → IsColumnAffected self.now point column
            → (effect_owns result column || unwrap_or (option_map (λ x. column_depends self.now x column) result.written) false) ≡ true }
    {
        self.effect(point)
    }

    /// The words of 64 columns in which the step of the statement at a point may generate or kill a bit: where place `p` is 0, it does so
    /// for no column of a word `w` with `w % 64` equal to `p`.
    pub fn effect_words(&self, point: u32) -> u64
        requires { point < point_count self.now.program }
        ensures { (column : ℕ) → column < column_count self.now → IsColumnAffected self.now point column
            → has_bit result (column / 64 % 64) ≡ true }
    {
        let effect = self.effect(point);
        let own = word_mark(effect.first) | word_mark(effect.second);
        own | self.touched_words(effect.written)
    }

    /// A table in which to put, for each variable, the columns of so many words that depend on it.
    pub fn no_dependence(&self, alloc: Global, words: u32) -> Result<BitTable, OutOfMemory>
        requires { words ≤ 8 }
        ensures rows { IfOk result (λ table. length table.words.items ≡ length self.now.program.variable_names * table.width) }
        ensures width { IfOk result (λ table. table.width ≡ words) }
    {
        BitTable::blank(alloc, self.variables(), 64 * words)
    }

    /// Puts into a table for each variable the columns that depend on it, of the words from one on, as many as a row has. It is what
    /// [`gen_word`](Problem::gen_word) and [`kill_word`](Problem::kill_word) of these words are made of.
    pub fn put_dependence(&self, first: u32, table: &mut BitTable)
        requires rows { length table.old.words.items ≡ length self.now.program.variable_names * table.old.width }
        requires narrow { table.old.width ≤ 8 }
        requires first { first < 2 ^ 25 }
        ensures first { table.new.first ≡ first }
        ensures width { table.new.width ≡ table.old.width }
        ensures columns { IsDependence self.now first table.new.words.items table.new.width }
    {
        put_dependence(self.graph, self.analysis, &self.columns, 64 * first, table);
        table.first = first;
    }

    /// The word of the columns that depend on the variable, if one is written. What stands past the last column is not told.
    fn touched_word(&self, written: Option<u32>, word: u32, table: &BitTable) -> u64
        requires written { IfSome written (λ x. x < length self.now.program.variable_names) }
        requires table { IsDependence self.now table.now.first table.now.words.items table.now.width }
        requires from { table.now.first ≤ word }
        requires until { word < table.now.first + table.now.width }
        ensures { (k : ℕ) → k < 64 → 64 * word + k < column_count self.now
            → has_bit result k ≡ unwrap_or (option_map (λ x. column_depends self.now x (64 * word + k)) written) false }
    {
        match written {
            None => 0,
            Some(variable) => table.word(variable, word - table.first),
        }
    }

    /// The columns that the step of the statement at a point generates, by words, by a table that has the word.
    pub fn gen_word(&self, point: u32, word: u32, table: &BitTable) -> u64
        requires point { point < point_count self.now.program }
        requires table { IsDependence self.now table.now.first table.now.words.items table.now.width }
        requires from { table.now.first ≤ word }
        requires until { word < table.now.first + table.now.width }
        ensures { IsWordOfTest (column_gens self.now point) (column_count self.now) word result }
    {
        let effect = self.effect(point);
        let own = own_word(effect, word);
        let touched = self.touched_word(effect.written, word, table);
        generated(self.analysis, own, touched) & word_below(self.bits(), word)
    }

    /// The columns that the step of the statement at a point kills, by words, by a table that has the word.
    pub fn kill_word(&self, point: u32, word: u32, table: &BitTable) -> u64
        requires point { point < point_count self.now.program }
        requires table { IsDependence self.now table.now.first table.now.words.items table.now.width }
        requires from { table.now.first ≤ word }
        requires until { word < table.now.first + table.now.width }
        ensures { IsWordOfTest (column_kills self.now point) (column_count self.now) word result }
    {
        let effect = self.effect(point);
        let own = own_word(effect, word);
        let touched = self.touched_word(effect.written, word, table);
        killed(self.analysis, own, touched) & word_below(self.bits(), word)
    }

    /// Whether the step of the statement at a point generates a column's bit.
    pub fn gens(&self, point: u32, column: u32) -> bool
        requires point { point < point_count self.now.program }
        requires column { column < column_count self.now }
        ensures { result ≡ column_gens self.now point column }
    {
        let effect = self.effect(point);
        let own = is_either(effect.first, effect.second, column);
        let touched = self.touches(effect.written, column);
        generates(self.analysis, own, touched)
    }

    /// Whether the step of the statement at a point kills a column's bit.
    pub fn kills(&self, point: u32, column: u32) -> bool
        requires point { point < point_count self.now.program }
        requires column { column < column_count self.now }
        ensures { result ≡ column_kills self.now point column }
    {
        let effect = self.effect(point);
        let own = is_either(effect.first, effect.second, column);
        let touched = self.touches(effect.written, column);
        kills(self.analysis, own, touched)
    }

    /// Whether a column's bit holds where the problem begins.
    pub fn in_boundary(&self, column: u32) -> bool
        requires { column < column_count self.now }
        ensures { result ≡ column_boundary self.now column }
    {
        match self.analysis {
            Analysis::Reach => self.bit(column) < self.graph.program().variables(),
            Analysis::Live => false,
            Analysis::Avail => true,
            Analysis::Busy => true,
        }
    }

    // The same at a place of a word: false past the last column.
    fn boundary_bit(&self, word: u32, place: u32) -> bool
        requires { place < 64 }
        ensures { result ≡ (nat_lt (64 * word + place) (column_count self.now) && column_boundary self.now (64 * word + place)) }
    {
        let column = 64 * u64::from(word) + u64::from(place);
        column < u64::from(self.bits()) && self.in_boundary(column as u32)
    }

    // The place, where its bit holds.
    fn boundary_mark(&self, word: u32, place: u32) -> Option<u32>
        requires { place < 64 }
        ensures { (k : ℕ) → marks result k
            ≡ (nat_eq k place && (nat_lt (64 * word + k) (column_count self.now) && column_boundary self.now (64 * word + k))) }
    {
        if self.boundary_bit(word, place) {
            Some(place)
        } else {
            None
        }
    }

    /// The columns that hold where the problem begins, by words.
    pub fn boundary_word(&self, word: u32) -> u64
        ensures { IsWordOfTest (column_boundary self.now) (column_count self.now) word result }
    {
        let mut result = 0;
        for place in 0..64 {
            result |= mark_word(self.boundary_mark(word, place), 0);
        }
        result
    }
}
