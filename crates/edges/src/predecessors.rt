// The predecessors of each block, as a chain of edges. An edge is named by the block that it leaves and by its place; the word of that place in
// NEXT_EDGE is the next edge that leads to the same block. Edges are taken from the last, so that each chain ascends, as the source lists them.
ghost use Rattle.std.specs.Prelude.{◌≡◌, ◌<◌};
ghost use Rattle.memory.specs.Scratch.{edge_words};
ghost use Rattle.memory.specs.Edges.{place_of};
ghost use Rattle.edges.specs.Edges.{Held};
ghost use Rattle.edges.specs.Predecessors.{Linked};
ghost use Rattle.edges.specs.Chains.{Linking, Chaining, RoomToCount, linked_in};

use memory::edges;
use memory::names::Cell;
use memory::scratch::Scratch;
use run::Run;

// The last loop of `graph`.
pub fn predecessors<R: Run>(s: &mut Scratch<'_, R>)
    requires { Held R.layout s.old }
    ensures { Linked R.layout s.old s.new }
{
    // No edge leads to any block yet.
    s.clear(Cell::PredecessorCount);
    let y = s.layout();
    let mut low = 2 * y.blocks + y.extra;
    for block in (0..y.blocks).rev() {
        low = chain_successors(s, block, low);
    }
}

// The edges of one block, the last first, at the places before `low`. Where these begin.
fn chain_successors<R: Run>(s: &mut Scratch<'_, R>, block: usize, low: usize) -> usize
    requires { (block < R.layout.blocks) × Linking R.layout block low s.old }
    ensures { Chaining R.layout block low s.old s.new result }
{
    let n = s.get(Cell::SuccessorCount, block) as usize;
    let base = low - n;
    for k in (0..n).rev() {
        let to = s.successor(block, n, k) as usize;
        chain(s, edges::edge(block, base + k) as usize, to);
    }
    base
}

// Puts an edge before the chain of the block that it leads to.
fn chain<R: Run>(s: &mut Scratch<'_, R>, edge: usize, to: usize)
    requires { (place_of edge < edge_words R.layout) × (to < R.layout.blocks) × RoomToCount R.layout to s.old }
    ensures { s.new ≡ linked_in s.old edge to }
{
    let first = s.get(Cell::FirstEdge, to);
    s.put_next(edge, first);
    s.put(Cell::FirstEdge, to, edge as u64);
    let count = s.get(Cell::PredecessorCount, to);
    s.put(Cell::PredecessorCount, to, count + 1);
}
