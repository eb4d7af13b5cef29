//! The search for an order.
ghost use Rattle.std.specs.Prelude.{◌≡◌, ◌<◌, ◌≤◌, ◌^◌, [], ◌∷◌, ◌++◌, MatchOption, length, map, slice_index, IfOk, OnOk};
ghost use Rattle.chw_base.specs.Outcome.{IfFault};
ghost use Rattle.graph_order.specs.Orders.{IsCycle, LeastFirst};
ghost use Rattle.graph_order.specs.References.{reference_count};
ghost use Rattle.graph_order.specs.Searches.{EndsIn, Goes, IsFound, IsMet, Knows, MayBegin, Stayed, visit_at};
ghost use Rattle.graph_order.specs.declared.search.Visit.TheVariants.{Done};

use crate::cycle::cycle;
use crate::graph::Graph;
use chw_base::{NoMemory, Or};
use std::alloc::Global;

/// How far the search has come with a node.
#[derive(Clone, Copy, Debug, PartialEq, Eq)]
pub(crate) enum Visit {
    Ahead,
    /// Its place on the path.
    Open(usize),
    Done,
}

/// A depth-first search over the nodes, from each to those that it refers to.
#[derive(Debug, Drop)]
pub(crate) struct Search {
    pub visits: Vec<Visit>,
    /// By the number of a node, how many of its references are still to be looked at, which are its last ones.
    pub left: Vec<usize>,
    /// The nodes that are open, each of which refers to the next.
    pub path: Vec<u32>,
    /// The nodes that are done, in order.
    pub order: Vec<u32>,
}

/// What the search finds at a reference.
#[derive(Clone, Copy, Debug, PartialEq, Eq)]
pub(crate) enum Found {
    /// No node, or one that is done.
    Met,
    /// A node that is ahead.
    Next(u32),
    /// A node that stands on the path, at this place.
    Closing(usize),
}

// How many numbers each node names.
fn degrees<G: Graph>(alloc: Global, graph: &G) -> Result<Vec<usize>, NoMemory>
    requires { length (G.lists graph.now) < 2 ^ 32 }
    ensures { IfOk result (λ degrees. degrees.items ≡ map length (G.lists graph.now)) }
{
    let mut degrees = Vec::new(alloc);
    for node in 0..graph.node_count() as u32 {
        degrees.push(graph.degree(node))?;
    }
    Ok(degrees)
}

// Looks at the first of the references of a node that are still to be looked at, of which there are so many.
fn look<G: Graph>(visits: &[Visit], graph: &G, node: u32, left: usize) -> Found
    requires some { 0 < left }
    requires fits { left ≤ reference_count (G.lists graph.now) node }
    ensures { IsFound (G.lists graph.now) visits.now node left result }
{
    let Some(to) = graph.reference(node, left) else {
        return Found::Met;
    };
    match visits.get(to as usize) {
        Some(Visit::Ahead) => Found::Next(to),
        Some(Visit::Open(depth)) => Found::Closing(*depth),
        Some(Visit::Done) | None => Found::Met,
    }
}

// The last node of a path.
fn last_node(path: &[u32]) -> Option<u32>
    ensures { MatchOption result (path.now ≡ []) (EndsIn path.now) }
{
    path.last().copied()
}

impl Search {
    /// A search that has done nothing.
    pub(crate) fn new<G: Graph>(alloc: Global, graph: &G) -> Result<Search, NoMemory>
        requires { length (G.lists graph.now) < 2 ^ 32 }
        ensures knows { IfOk result (Knows (G.lists graph.now)) }
        ensures start { IfOk result (λ s. s.path.items ≡ []) }
    {
        let visits = vec![in alloc; Visit::Ahead; graph.node_count()]?;
        let left = degrees(alloc, graph)?;
        Ok(Search {
            visits,
            left,
            path: Vec::new(alloc),
            order: Vec::new(alloc),
        })
    }

    // Puts a node on the path.
    fn begin<G: Graph>(&mut self, graph: &G, node: u32) -> Result<(), NoMemory>
        requires knows { Knows (G.lists graph.now) self.old }
        requires node { MayBegin (G.lists graph.now) self.old.visits.items self.old.path.items node }
        ensures knows { OnOk result (Knows (G.lists graph.now) self.new) }
        ensures goes { OnOk result (Goes self.old self.new) }
        ensures path { OnOk result (self.new.path.items ≡ self.old.path.items ++ node ∷ []) }
    {
        let depth = self.path.len();
        self.path.push(node)?;
        self.visits[node as usize] = Visit::Open(depth);
        Ok(())
    }

    // Takes the last node from the path, since all that it refers to is done.
    fn close<G: Graph>(&mut self, graph: &G, node: u32) -> Result<(), NoMemory>
        requires knows { Knows (G.lists graph.now) self.old }
        requires last { EndsIn self.old.path.items node }
        requires all_met { slice_index self.old.left.items node ≡ 0 }
        ensures knows { OnOk result (Knows (G.lists graph.now) self.new) }
        ensures goes { OnOk result (Goes self.old self.new) }
    {
        self.order.push(node)?;
        self.path.pop();
        self.visits[node as usize] = Visit::Done;
        Ok(())
    }

    // Goes past the first of the references that a node has to look at.
    fn pass<G: Graph>(&mut self, graph: &G, node: u32)
        requires knows { Knows (G.lists graph.now) self.old }
        requires some { 0 < slice_index self.old.left.items node }
        requires met { IsMet (G.lists graph.now) self.old.visits.items node (slice_index self.old.left.items node) }
        ensures knows { Knows (G.lists graph.now) self.new }
        ensures goes { Goes self.old self.new }
    {
        self.left[node as usize] -= 1;
    }

    // Goes on at the last node of the path.
    //
    // `Fault` gives a cycle.
    fn turn<G: Graph>(&mut self, alloc: Global, graph: &G, node: u32) -> Result<(), Or<Vec<u32>>>
        requires knows { Knows (G.lists graph.now) self.old }
        requires last { EndsIn self.old.path.items node }
        ensures knows { OnOk result (Knows (G.lists graph.now) self.new) }
        ensures goes { OnOk result (Goes self.old self.new) }
        ensures cycle { IfFault result (λ nodes. IsCycle (G.lists graph.now) nodes.items) }
        ensures least { IfFault result (λ nodes. LeastFirst nodes.items) }
    {
        let left = self.left[node as usize];
        if left == 0 {
            self.close(graph, node)?;
            return Ok(());
        }
        match look(&self.visits, graph, node, left) {
            Found::Met => self.pass(graph, node),
            Found::Next(next) => self.begin(graph, next)?,
            Found::Closing(depth) => return Err(Or::Fault(cycle(alloc, &self.path, depth)?)),
        }
        Ok(())
    }

    // Goes on until no node is on the path.
    fn run<G: Graph>(&mut self, alloc: Global, graph: &G) -> Result<(), Or<Vec<u32>>>
        requires knows { Knows (G.lists graph.now) self.old }
        ensures knows { OnOk result (Knows (G.lists graph.now) self.new) }
        ensures ended { OnOk result (self.new.path.items ≡ []) }
        ensures stayed { OnOk result (Stayed self.old.visits.items self.new.visits.items) }
        ensures cycle { IfFault result (λ nodes. IsCycle (G.lists graph.now) nodes.items) }
        ensures least { IfFault result (λ nodes. LeastFirst nodes.items) }
    {
        while let Some(node) = last_node(&self.path) {
            self.turn(alloc, graph, node)?;
        }
        Ok(())
    }

    /// Does this node and all that it refers to.
    ///
    /// `Fault` gives a cycle.
    pub(crate) fn visit<G: Graph>(
        &mut self,
        alloc: Global,
        graph: &G,
        node: u32,
    ) -> Result<(), Or<Vec<u32>>>
        requires knows { Knows (G.lists graph.now) self.old }
        requires start { self.old.path.items ≡ [] }
        requires node { node < length (G.lists graph.now) }
        ensures knows { OnOk result (Knows (G.lists graph.now) self.new) }
        ensures ended { OnOk result (self.new.path.items ≡ []) }
        ensures stayed { OnOk result (Stayed self.old.visits.items self.new.visits.items) }
        ensures done { OnOk result (visit_at self.new.visits.items node ≡ Done) }
        ensures cycle { IfFault result (λ nodes. IsCycle (G.lists graph.now) nodes.items) }
        ensures least { IfFault result (λ nodes. LeastFirst nodes.items) }
    {
        match self.visits[node as usize] {
            Visit::Ahead => {
                self.begin(graph, node)?;
                self.run(alloc, graph)
            }
            Visit::Open(_) | Visit::Done => Ok(()),
        }
    }
}
