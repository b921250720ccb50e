// The blocks whom a change of a block concerns: successors by their number, predecessors along their chain of edges. One loop serves both, and
// the compiler takes the choice out of it. It takes them step by step: an iterator over them would hold the words that an offer writes.
ghost use Rattle.std.specs.Prelude.{◌≡◌, ◌<◌};
ghost use Rattle.memory.specs.Edges.{count_of};
ghost use Rattle.memory.specs.Scratch.{Whole};
ghost use Rattle.transfer.specs.Directions.{dependents_of};
ghost use Rattle.solver.specs.Dependents.{first_of, behind_of, dependent_at, Walks, Placed};

use memory::edges;
use memory::names::Cell;
use memory::scratch::Scratch;
use run::Run;
use transfer::direction::Direction;

// How many there are.
pub fn count<R: Run>(s: &Scratch<'_, R>, d: Direction, block: usize) -> u64
    requires { block < R.layout.blocks }
    ensures is { result ≡ count_of (dependents_of d) s.now block }
    ensures whole { Whole R.layout s.now }
{
    match d {
        Direction::Initialization => s.get(Cell::SuccessorCount, block),
        Direction::Liveness => s.get(Cell::PredecessorCount, block),
    }
}

// The first edge of the chain.
pub fn first<R: Run>(s: &Scratch<'_, R>, d: Direction, block: usize) -> u64
    requires { block < R.layout.blocks }
    ensures { result ≡ first_of d s.now block }
{
    match d {
        Direction::Initialization => 0,
        Direction::Liveness => s.get(Cell::FirstEdge, block),
    }
}

// The edge behind an edge.
pub fn behind<R: Run>(s: &Scratch<'_, R>, d: Direction, edge: usize) -> u64
    requires { Placed d R.layout edge }
    ensures { result ≡ behind_of d s.now edge }
{
    match d {
        Direction::Initialization => edge as u64,
        Direction::Liveness => s.next_edge(edge),
    }
}

// The k-th of n, at an edge.
pub fn dependent<R: Run>(
    s: &Scratch<'_, R>,
    d: Direction,
    block: usize,
    n: usize,
    k: usize,
    edge: usize,
) -> u64
    requires { (k < n) × Walks d R.layout s.now block n k edge }
    ensures { result ≡ dependent_at d s.now block k edge }
{
    match d {
        Direction::Initialization => s.successor(block, n, k),
        Direction::Liveness => edges::source(edge) as u64,
    }
}
