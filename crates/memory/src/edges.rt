// The edges between blocks: where those of a block lead, and which lead to it.
ghost use Rattle.std.specs.Prelude.{◌≡◌, ◌+◌, ◌*◌, ◌<◌, ◌≤◌};
ghost use Rattle.memory.specs.Cells.{word};
ghost use Rattle.memory.specs.Names.{successor_count_cell};
ghost use Rattle.memory.specs.Scratch.{edge_words};
ghost use Rattle.memory.specs.Edges.{edge_word, store_edge, successor_at, edge_from, source_of, place_of, next_edge, store_next, count_of};

use crate::names::Cell;
use crate::scratch::Scratch;
use crate::views::ScratchView;
use run::Run;

// The edges that leave a block, or those that lead to it. An enum and no trait: definitions go by its cases, and the compiler takes the choice out.
#[derive(Clone, Copy, PartialEq, Eq, Debug)]
pub enum Side {
    Successors,
    Predecessors,
}

// The edge that leaves a block and has a place. It is a number and no struct, since document 01 gives an edge one lent word.
pub fn edge(block: usize, place: usize) -> u64
    requires { (block ≤ 65536) × (place < 4294967296) }
    ensures { result ≡ edge_from block place }
{
    block as u64 * 4294967296 + place as u64
}

// The block that an edge leaves.
pub fn source(edge: usize) -> usize
    ensures { result ≡ source_of edge }
{
    edge / 4294967296
}

impl<'a, R: Run> ScratchView<'a, R> {
    // How many edges a block has on a side.
    pub fn edge_count(&self, side: Side, block: usize) -> u64
        requires { block < R.layout.blocks }
        ensures { result ≡ count_of side self.now block }
    {
        match side {
            Side::Successors => self.get(Cell::SuccessorCount, block),
            Side::Predecessors => self.get(Cell::PredecessorCount, block),
        }
    }

    // The k-th of a block's two words.
    pub fn edge_word(&self, block: usize, k: usize) -> u64
        requires { (block < R.layout.blocks) × (k < 2) }
        ensures { result ≡ edge_word self.now block k }
    {
        self.get(Cell::Successor, 2 * block + k)
    }

    // The k-th successor of a block, which has n of them: n is handed in, so that a loop over them does not read it each time.
    #[tactic(auto, using(crate::proofs::EdgeLaws::successor_many, crate::proofs::EdgeLaws::successor_few))]
    pub fn successor(&self, block: usize, n: usize, k: usize) -> u64
        requires { (block < R.layout.blocks) × (n ≡ word self.now successor_count_cell block) × (k < n) × (successor_at self.now block k < R.layout.blocks) }
        ensures { result ≡ successor_at self.now block k }
    {
        if 2 < n {
            return self.edge_word(block, 0) + k as u64;
        }
        self.edge_word(block, k)
    }

    // The next edge that leads to the same block.
    pub fn next_edge(&self, edge: usize) -> u64
        requires { place_of edge < edge_words R.layout }
        ensures { result ≡ next_edge self.now edge }
    {
        self.get(Cell::NextEdge, edge % 4294967296)
    }
}

// The same of the words by a `&mut`, and the edges stored.
impl<'a, R: Run> Scratch<'a, R> {
    // How many edges a block has on a side.
    pub fn edge_count(&self, side: Side, block: usize) -> u64
        requires { block < R.layout.blocks }
        ensures { result ≡ count_of side self.now block }
    {
        self.view().edge_count(side, block)
    }

    // The k-th of a block's two words.
    pub fn edge_word(&self, block: usize, k: usize) -> u64
        requires { (block < R.layout.blocks) × (k < 2) }
        ensures { result ≡ edge_word self.now block k }
    {
        self.view().edge_word(block, k)
    }

    // It becomes v.
    pub fn put_edge(&mut self, block: usize, k: usize, v: u64)
        requires { (block < R.layout.blocks) × (k < 2) }
        ensures { self.new ≡ store_edge self.old block k v }
    {
        self.put(Cell::Successor, 2 * block + k, v);
    }

    // The k-th successor of a block, which has n of them: n is handed in, so that a loop over them does not read it each time.
    pub fn successor(&self, block: usize, n: usize, k: usize) -> u64
        requires { (block < R.layout.blocks) × (n ≡ word self.now successor_count_cell block) × (k < n) × (successor_at self.now block k < R.layout.blocks) }
        ensures { result ≡ successor_at self.now block k }
    {
        self.view().successor(block, n, k)
    }

    // The next edge that leads to the same block.
    pub fn next_edge(&self, edge: usize) -> u64
        requires { place_of edge < edge_words R.layout }
        ensures { result ≡ next_edge self.now edge }
    {
        self.view().next_edge(edge)
    }

    // It becomes this one.
    pub fn put_next(&mut self, edge: usize, next: u64)
        requires { place_of edge < edge_words R.layout }
        ensures { self.new ≡ store_next self.old edge next }
    {
        self.put(Cell::NextEdge, edge % 4294967296, next);
    }
}
