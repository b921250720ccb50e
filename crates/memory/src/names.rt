// The cells of both buffers, by name.
ghost use Rattle.std.specs.Prelude.{◌≡◌, ◌≤◌};
ghost use Rattle.memory.specs.Named.{cell_of, row_of, set_of, RowThere, SetThere};

use sizes::Layout;

// The cells of scratch that are no rows.
#[derive(Clone, Copy, PartialEq, Eq, Debug)]
pub enum Cell {
    // a word an instruction: where its record stands; a leader mark, then the number of its block; where the k-th block begins; what its reads
    // are charged
    Offset,
    BlockOf,
    Leader,
    Cost,
    // a word a block
    Start,
    End,
    Reachable,
    SuccessorCount,
    FirstEdge,
    PredecessorCount,
    Order,
    Ring,
    Queued,
    StackBlock,
    StackEdge,
    Visited,
    // two words a block, for its first edges; and a word an edge, the next one that leads to the same block (`edges`)
    Successor,
    NextEdge,
}

// The rows of scratch: what a block uses and what it defines, by its number; then two more a block, which nothing uses yet; then the running state,
// the running live set, the parameters, the host slots.
#[derive(Clone, Copy, PartialEq, Eq, Debug)]
pub enum SlotRow {
    Uses(usize),
    Defines(usize),
    Spare(usize),
    State,
    LiveState,
    Parameters,
    Hosts,
}

// The rows of the sets buffer: what is initialized at a block's exit, and what is live at its entry.
#[derive(Clone, Copy, PartialEq, Eq, Debug)]
pub enum BlockSet {
    Initialized(usize),
    Live(usize),
}

impl Cell {
    // Which cell it is.
    pub fn number(self) -> usize
        ensures { result ≡ cell_of self }
    {
        self as usize
    }
}

impl SlotRow {
    // Which cell it is.
    pub fn number(self, y: Layout) -> usize
        requires { (y.blocks ≤ 65536) × RowThere y self }
        ensures { result ≡ row_of y self }
    {
        match self {
            SlotRow::Uses(block) => 18 + 2 * block,
            SlotRow::Defines(block) => 19 + 2 * block,
            SlotRow::Spare(k) => 18 + 2 * y.blocks + k,
            SlotRow::State => 18 + 4 * y.blocks,
            SlotRow::LiveState => 19 + 4 * y.blocks,
            SlotRow::Parameters => 20 + 4 * y.blocks,
            SlotRow::Hosts => 21 + 4 * y.blocks,
        }
    }
}

impl BlockSet {
    // Which cell it is.
    pub fn number(self, y: Layout) -> usize
        requires { (y.blocks ≤ 65536) × SetThere y self }
        ensures { result ≡ set_of self }
    {
        match self {
            BlockSet::Initialized(block) => 2 * block,
            BlockSet::Live(block) => 2 * block + 1,
        }
    }
}
