// Tables as text: a line for each point with the numbers of its bits.

ghost use Rattle.std.specs.Prelude.{◌≡◌, length, IfOk};
ghost use Rattle.flow_graph.specs.Universes.{bits as bits_of};
ghost use Rattle.flow_team.specs.Tables.{IsTableOf};

use bit_rows::Cut;
use flow_graph::{Analysis, Graph, OutOfMemory};
use flow_team::Table;
use std::alloc::Global;
use std::test::Fail;

/// The definitions that reach each point of `recursion`: `x` at the entry, at line 2 and at line 9.
pub const RECURSIVE_REACH: &str = "0: 0\n1: 1\n2: 1 2\n3: 1 2\n4: 1\n5: 1\n6: 1 2\n7: 1 2\n";

/// What is live where so many variables are printed (`prints`): at each point those that are printed from there on.
pub fn printed(alloc: Global, count: u32) -> Result<String, OutOfMemory> {
    let mut text = String::new(alloc);
    for point in 0..=count {
        write!(text, "{point}:")?;
        for number in point..count {
            write!(text, " {number}")?;
        }
        text.push('\n')?;
    }
    Ok(text)
}

/// `main` that evaluates so many sums, one after the other.
pub fn sums(alloc: Global, count: u32) -> Result<String, OutOfMemory> {
    let mut text = String::new(alloc);
    text.push_str("proc main\n")?;
    for number in 0..count {
        write!(text, "x = v{number} + 1\n")?;
    }
    text.push_str("end\n")?;
    Ok(text)
}

/// What is available there: at each point the sums that are evaluated before it. Very busy are those from there on, as [`printed`] has it.
pub fn summed(alloc: Global, count: u32) -> Result<String, OutOfMemory> {
    let mut text = String::new(alloc);
    for point in 0..=count {
        write!(text, "{point}:")?;
        for number in 0..point {
            write!(text, " {number}")?;
        }
        text.push('\n')?;
    }
    Ok(text)
}

/// The lines of all points, `(no path)` behind the number of one without a path.
pub fn lines(alloc: Global, graph: &Graph<'_>, table: &Table) -> Result<String, OutOfMemory>
    requires { IsTableOf graph.now table.now }
{
    lines_before(alloc, graph, table, graph.points())
}

/// The lines of the points before one.
pub fn lines_before(
    alloc: Global,
    graph: &Graph<'_>,
    table: &Table,
    until: u32,
) -> Result<String, OutOfMemory>
    requires points { length table.now.paths ≡ until }
    requires bits { table.now.bits ≡ bits_of graph.now table.now.analysis }
{
    let mut text = String::new(alloc);
    for point in 0..until {
        write!(text, "{point}")?;
        if !table.has_path(point) {
            text.push_str(" (no path)")?;
        }
        text.push(':')?;
        for bit in 0..graph.bits(table.analysis()) {
            if table.contains(point, bit) {
                write!(text, " {bit}")?;
            }
        }
        text.push('\n')?;
    }
    Ok(text)
}

/// So many words of the set of a point.
pub fn words(
    alloc: Global,
    graph: &Graph<'_>,
    table: &Table,
    point: u32,
    count: u32,
) -> Result<String, OutOfMemory>
    requires { IsTableOf graph.now table.now }
{
    let mut text = String::new(alloc);
    if point < graph.points() {
        for word in 0..count {
            write!(text, " {}", table.word(point, word))?;
        }
    }
    Ok(text)
}

/// The bits of an analysis in slices of this width.
pub fn slices(alloc: Global, graph: &Graph<'_>, analysis: Analysis, width: u32) -> Result<Cut, Fail>
    ensures { IfOk result (λ cut. cut.bits ≡ bits_of graph.now analysis) }
{
    Ok(Cut::even(alloc, graph.bits(analysis), width)?)
}

/// The bits of an analysis in slices that begin at these places.
pub fn slices_at(
    alloc: Global,
    graph: &Graph<'_>,
    analysis: Analysis,
    places: &[u32],
) -> Result<Cut, Fail>
    ensures { IfOk result (λ cut. cut.bits ≡ bits_of graph.now analysis) }
{
    Ok(Cut::at(alloc, graph.bits(analysis), places)?)
}
