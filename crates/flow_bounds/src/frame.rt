// Some procedures of a program, for which bits are bounded.
ghost use Rattle.std.specs.Prelude.{◌≡◌, ◌<◌, ◌*◌, ℕ, not, length, slice_index};
ghost use Rattle.bit_rows.specs.Words.{has_bit};
ghost use Rattle.flow_graph.specs.Directions.{goes_backward};
ghost use Rattle.flow_graph.specs.declared.edge.Edge.TheVariants.{Step};
ghost use Rattle.flow_graph.specs.Paths.{IsEdge, Transfer};
ghost use Rattle.flow_graph.specs.Points.{point_count};
ghost use Rattle.flow_bounds.specs.Clauses.{IsPointInside, always_cell, brought_cell, cell_count, generated_cell, outside_brought_cell};
ghost use Rattle.flow_bounds.specs.Clauses.{outside_generated_cell, preserved_cell, shape_in, step_gens, step_kills, step_statement};
ghost use Rattle.flow_bounds.specs.code.Exact.{IsExact};
ghost use Rattle.flow_bounds.specs.code.Frames.{IsFrame};

use flow_graph::Direction;
use flow_links::Links;

/// The procedures for which 64 bits are bounded, and what is known of these bits and of the procedures outside.
#[derive(Drop)]
pub(crate) struct Frame<'a> {
    /// The edges in the direction of the analysis.
    pub links: &'a Links,
    /// By procedure: whether it is inside.
    pub inside: &'a [bool],
    /// The points of the procedures inside.
    pub points: &'a [u32],
    /// By point: where it stands among these.
    pub places: &'a [u32],
    /// By place: the bits that the step of the statement there generates.
    pub gens: &'a [u64],
    /// By place: the bits that it kills.
    pub kills: &'a [u64],
    /// The bits that hold where the problem begins.
    pub boundary: u64,
    /// By procedure: the bits that are preserved by a call of it, if it is outside.
    pub through: &'a [u64],
    /// By procedure: whether a call of it, if it is outside, may lead to one inside.
    pub leads: &'a [bool],
    /// By procedure: bits that are brought to it, if it is inside.
    pub hung: &'a [u64],
    /// By point: whether its edges are looked at.
    pub taken: &'a [bool],
    /// By procedure: whether procedures outside call it, if it is inside.
    pub called: &'a [bool],
    /// Whether the procedures outside are taken as one.
    pub joined: bool,
}

// The point of a step's statement.
fn statement_point(direction: Direction, from: u32, to: u32) -> u32
    ensures { result ≡ step_statement (goes_backward direction) from to }
{
    match direction {
        Direction::Forward => from,
        Direction::Backward => to,
    }
}

// The bits that a word lacks.
fn complement(word: u64) -> u64
    ensures { (k : ℕ) → k < 64 → has_bit result k ≡ not (has_bit word k) }
{
    !word
}

impl Frame<'_> {
    /// The cell that says whether a bit is preserved up to a point.
    pub fn preserved(&self, point: u32) -> u32
        requires frame { IsFrame self.now }
        requires there { point < point_count self.now.links.now.program }
        requires inside { IsPointInside self.now point }
        ensures cell { result ≡ preserved_cell self.now point }
        ensures below { result < length self.now.points.now }
    {
        self.places[point as usize]
    }

    /// The cell that says whether a bit is generated on the way to a point.
    pub fn generated(&self, point: u32) -> u32
        requires frame { IsFrame self.now }
        requires there { point < point_count self.now.links.now.program }
        requires inside { IsPointInside self.now point }
        ensures cell { result ≡ generated_cell self.now point }
        ensures below { result < 2 * length self.now.points.now }
    {
        self.points.len() as u32 + self.preserved(point)
    }

    /// The cell that says whether a bit is brought to a procedure.
    pub fn brought(&self, procedure: u32) -> u32
        requires frame { IsFrame self.now }
        requires there { procedure < (shape_in self.now).procedures }
        ensures cell { result ≡ brought_cell self.now procedure }
        ensures below { result < cell_count self.now }
    {
        2 * self.points.len() as u32 + procedure
    }

    /// The cell that says whether a procedure outside hands a bit out.
    pub fn outside_generated(&self) -> u32
        requires { IsFrame self.now }
        ensures { result ≡ outside_generated_cell self.now }
    {
        2 * self.points.len() as u32 + self.inside.len() as u32
    }

    /// The cell that says whether a bit is brought to a procedure outside.
    pub fn outside_brought(&self) -> u32
        requires { IsFrame self.now }
        ensures { result ≡ outside_brought_cell self.now }
    {
        self.outside_generated() + 1
    }

    /// The cell that has each bit.
    pub fn always(&self) -> u32
        requires { IsFrame self.now }
        ensures { result ≡ always_cell self.now }
    {
        self.outside_generated() + 2
    }

    /// How many cells there are.
    pub fn cells(&self) -> u32
        requires { IsFrame self.now }
        ensures { result ≡ cell_count self.now }
    {
        self.outside_generated() + 3
    }

    // The place of a step's statement.
    fn statement(&self, from: u32, to: u32) -> u32
        requires frame { IsFrame self.now }
        requires there { IsEdge (shape_in self.now) (Step from to) }
        requires inside { IsPointInside self.now from }
        ensures place { result ≡ slice_index self.now.places.now (step_statement self.now.links.now.backward from to) }
        ensures below { result < length self.now.points.now }
    {
        let point = statement_point(self.links.direction(), from, to);
        self.places[point as usize]
    }

    /// The bits that a step generates.
    pub fn generates(&self, from: u32, to: u32) -> u64
        requires frame { IsFrame self.now }
        requires there { IsEdge (shape_in self.now) (Step from to) }
        requires inside { IsPointInside self.now from }
        ensures { (bit : ℕ) → has_bit result bit ≡ step_gens self.now from to bit }
    {
        self.gens[self.statement(from, to) as usize]
    }

    /// The bits that a step preserves.
    pub fn preserves(&self, from: u32, to: u32) -> u64
        requires frame { IsFrame self.now }
        requires there { IsEdge (shape_in self.now) (Step from to) }
        requires inside { IsPointInside self.now from }
        ensures { (bit : ℕ) → bit < 64 → has_bit result bit ≡ not (step_kills self.now from to bit) }
    {
        complement(self.kills[self.statement(from, to) as usize])
    }

    /// The bits that a step preserves, and those that it generates, of a procedure inside or outside.
    pub fn step(&self, from: u32, to: u32) -> (u64, u64)
        requires frame { IsFrame self.now }
        requires there { IsEdge (shape_in self.now) (Step from to) }
        ensures preserved { (transfer : Transfer) (bit : ℕ) → bit < 64 → IsExact self.now transfer bit
            → has_bit result.0 bit ≡ not (transfer.kill from to) }
        ensures generated { (transfer : Transfer) (bit : ℕ) → bit < 64 → IsExact self.now transfer bit
            → has_bit result.1 bit ≡ transfer.gen from to }
    {
        if !self.inside[self.links.procedure_of(from) as usize] {
            return (u64::MAX, 0);
        }
        (self.preserves(from, to), self.generates(from, to))
    }
}
