// Where the valid paths of a direction lead.
ghost use Rattle.std.specs.Prelude.{◌≡◌, ◌<◌, ◌↔◌, true, IfOk};
ghost use Rattle.flow_graph.specs.Paths.{HasPath};
ghost use Rattle.flow_graph.specs.Points.{point_count};
ghost use Rattle.flow_links.specs.Shapes.{directed_shape};
ghost use Rattle.flow_why.specs.Directed.{direction_of};
ghost use Rattle.flow_why.specs.code.Frames.{IsFrame, question_of};
ghost use Rattle.flow_why.specs.code.Trails.{base_question};
ghost use Rattle.flow_why.specs.code.Ways.{AreWays, IsBare};

use crate::OutOfMemory;
use crate::claim::Claim;
use crate::frame::{Asked, Frame, Scope};
use crate::run::search_for;
use crate::search::Search;
use flow_links::Links;
use gen_kill::Problem;
use std::alloc::Global;
use std::marker::Model;

/// The edges of a problem by point, and for each point to which a valid path leads how one does.
///
/// It rests on the program and the direction alone: two analyses of one direction have the same ways, and all their bits share them. Time and
/// memory go with the number of points and edges.
pub struct Ways {
    links: Links,
    search: Search,
}

impl Model for Ways {
    ghost use Rattle.flow_why.specs.code.Ways.{AreWays, KnownWays};

    ghost Value = { KnownWays };

    ghost view = { λ ways. record { linked = ways.links; found = ways.search } };

    ghost invariant = { λ ways. AreWays (record { linked = ways.links; found = ways.search }) };
}

impl Drop for Ways {
    // By hand: who gives ways up then makes one call.
    fn drop(self) {
        let Ways {
            links: _,
            search: _,
        } = self;
    }
}

// The frame of a search for where paths lead.
fn bare_frame<'a, 'g, 'p>(links: &'a Links, base: &'a Search) -> Frame<'a, 'g, 'p>
    requires { IsBare links.now base.now }
    ensures frame { IsFrame result }
    ensures question { question_of result ≡ base_question links.now }
{
    // Its contract tells what a shape's edges are.
    let _ = links.points();
    Frame {
        links,
        asked: Asked::Paths,
        base,
        scope: Scope::whole(),
    }
}

// What is found of where paths lead.
fn base_search(alloc: Global, links: &Links) -> Result<Search, OutOfMemory>
    ensures { IfOk result (λ search. AreWays (record { linked = links.now; found = search })) }
{
    let blank = Search::blank(alloc, links.points())?;
    let frame = bare_frame(links, &blank);
    search_for(alloc, &frame)
}

impl Ways {
    /// The ways of a problem's direction. Fails only where memory runs out.
    pub fn of(alloc: Global, problem: &Problem<'_, '_>) -> Result<Self, OutOfMemory>
        ensures { IfOk result (λ ways. ways.linked ≡ direction_of problem.now) }
    {
        let links = Links::of(alloc, problem)?;
        let search = base_search(alloc, &links)?;
        Ok(Ways { links, search })
    }

    /// Whether some valid path leads to a point, in the direction of the ways.
    pub fn has_path(&self, point: u32) -> bool
        requires { point < point_count self.now.linked.program }
        ensures { (result ≡ true) ↔ HasPath (directed_shape self.now.linked) point }
    {
        self.search.has(Claim::Holds, point)
    }

    /// The edges.
    pub fn links(&self) -> &Links
        ensures links { result.now ≡ self.now.linked }
        ensures ways { AreWays self.now }
    {
        &self.links
    }

    /// What is found of where paths lead.
    pub fn search(&self) -> &Search
        ensures { result.now ≡ self.now.found }
    {
        &self.search
    }
}
