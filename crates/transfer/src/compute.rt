// What a visit computes.
ghost use Rattle.std.specs.Prelude.{◌≡◌, map, ◌+◌, ◌-◌, ◌<◌, length, replicate};
ghost use Rattle.bitset.specs.Sets.{ones, Words};
ghost use Rattle.dataflow.specs.Lists.{tabulate};
ghost use Rattle.memory.specs.Cells.{cell, word, store_cell};
ghost use Rattle.memory.specs.Names.{successor_count_cell};
ghost use Rattle.memory.specs.Named.{row_of, RowThere};
ghost use Rattle.memory.specs.Edges.{successor_at, source_of, next_edge, chain_from, Chain, Connected};
ghost use Rattle.transfer.specs.declared.direction.Direction.TheVariants.{Initialization, Liveness};
ghost use Rattle.transfer.specs.Transfer.{running_of, kept_of, running_row, entry_of, gather_one, gather_all, gathered, transferred, computed};

use crate::direction::Direction;
use memory::edges;
use memory::names::{BlockSet, Cell, SlotRow};
use memory::scratch::Scratch;
use memory::views::SetsView;
use run::Run;

// The running row.
pub fn running(d: Direction) -> SlotRow
    ensures { result ≡ running_of d }
{
    match d {
        Direction::Initialization => SlotRow::State,
        Direction::Liveness => SlotRow::LiveState,
    }
}

// The set that is kept for a block.
pub fn kept(d: Direction, block: usize) -> BlockSet
    ensures { result ≡ kept_of d block }
{
    match d {
        Direction::Initialization => BlockSet::Initialized(block),
        Direction::Liveness => BlockSet::Live(block),
    }
}

// A row becomes words, which are numbers of 64 bits.
fn load<R: Run>(s: &mut Scratch<'_, R>, row: SlotRow, words: &[u64])
    requires { RowThere R.layout row × (length words.now ≡ R.layout.words) }
    ensures stored { s.new ≡ store_cell s.old (row_of R.layout row) words.now }
    ensures fits { Words R.layout.words words.now }
{
    s.change(
        row,
        |into|
            requires { length into.old ≡ length words.now }
            ensures { into.new ≡ words.entry.now }
        { bitset::copy(into, words) },
    );
}

// The parameters at block 0, all slots at another.
#[tactic(auto, unfolding(crate::specs::Transfer::entry_of))]
fn begin_initialized<R: Run>(s: &mut Scratch<'_, R>, block: usize)
    ensures { s.new ≡ store_cell s.old (running_row Initialization R.layout) (entry_of Initialization R.layout s.old block) }
{
    if block == 0 {
        s.copy_row(SlotRow::State, SlotRow::Parameters);
        return;
    }
    s.fill(SlotRow::State, u64::MAX);
}

// The running row keeps what is initialized at the exit of a predecessor that is reachable.
#[tactic(auto, unfolding(crate::specs::Transfer::gather_one))]
fn meet_one<R: Run>(s: &mut Scratch<'_, R>, t: &SetsView<'_, R>, block: usize)
    requires { block < R.layout.blocks }
    ensures { s.new ≡ store_cell s.old (running_row Initialization R.layout) (gather_one Initialization s.old t.now block (cell s.old (running_row Initialization R.layout))) }
{
    if s.get(Cell::Reachable, block) != 0 {
        s.meet_set(SlotRow::State, t, BlockSet::Initialized(block));
    }
}

// What a predecessor keeps is met with the parameters at block 0, with all slots at another.
#[tactic(auto, unfolding(crate::specs::Transfer::entry_of))]
fn begin_met<R: Run>(s: &mut Scratch<'_, R>, t: &SetsView<'_, R>, block: usize, from: usize)
    requires { from < R.layout.blocks }
    ensures { s.new ≡ store_cell s.old (running_row Initialization R.layout) (gather_one Initialization s.old t.now from (entry_of Initialization R.layout s.old block)) }
{
    if block != 0 {
        begin_all(s, t, from);
        return;
    }
    begin_initialized(s, block);
    meet_one(s, t, from);
}

// All slots, met with what is initialized at the exit of a predecessor that is reachable.
#[tactic(auto, using(crate::proofs::TransferLaws::gather_unreachable, crate::proofs::TransferLaws::met_all))]
fn begin_all<R: Run>(s: &mut Scratch<'_, R>, t: &SetsView<'_, R>, block: usize)
    requires { block < R.layout.blocks }
    ensures { s.new ≡ store_cell s.old (running_row Initialization R.layout) (gather_one Initialization s.old t.now block (replicate R.layout.words ones)) }
{
    if s.get(Cell::Reachable, block) == 0 {
        s.fill(SlotRow::State, u64::MAX);
        return;
    }
    load(s, SlotRow::State, t.row(BlockSet::Initialized(block)));
}

// The running row is met with what the predecessors at the n edges behind an edge keep.
#[tactic(auto, using(crate::proofs::TransferLaws::meeting_none, crate::proofs::TransferLaws::meeting_from))]
fn meet_rest<R: Run>(s: &mut Scratch<'_, R>, t: &SetsView<'_, R>, first: usize, n: usize)
    requires { Chain R.layout s.old (n + 1) 0 first }
    ensures { s.new ≡ store_cell s.old (running_row Initialization R.layout) (gather_all Initialization s.old t.now (map source_of (chain_from s.old n (next_edge s.old first))) (cell s.old (running_row Initialization R.layout))) }
{
    let mut edge = first;
    for _ in 0..n {
        edge = s.next_edge(edge) as usize;
        meet_one(s, t, edges::source(edge));
    }
}

// The running row becomes `incoming` of a block.
#[tactic(auto, using(crate::proofs::TransferLaws::first_source, crate::proofs::TransferLaws::meets))]
fn incoming<R: Run>(s: &mut Scratch<'_, R>, t: &SetsView<'_, R>, block: usize)
    requires { (block < R.layout.blocks) × Connected R.layout s.old }
    ensures { s.new ≡ store_cell s.old (running_row Initialization R.layout) (gathered Initialization R.layout s.old t.now block) }
{
    let n = s.get(Cell::PredecessorCount, block) as usize;
    if n == 0 {
        begin_initialized(s, block);
        return;
    }
    let first = s.get(Cell::FirstEdge, block) as usize;
    begin_met(s, t, block, edges::source(first));
    meet_rest(s, t, first, n - 1);
}

// The running row is joined with what the successors of a block keep, of which it has n, from the second on.
fn join_rest<R: Run>(s: &mut Scratch<'_, R>, t: &SetsView<'_, R>, block: usize, n: usize)
    requires { (block < R.layout.blocks) × (n ≡ word s.old successor_count_cell block) × Connected R.layout s.old }
    ensures { s.new ≡ store_cell s.old (running_row Liveness R.layout) (gather_all Liveness s.old t.now (tabulate 1 (n - 1) (successor_at s.old block)) (cell s.old (running_row Liveness R.layout))) }
{
    for k in 1..n {
        let to = s.successor(block, n, k) as usize;
        s.join_set(SlotRow::LiveState, t, BlockSet::Live(to));
    }
}

// The running row becomes `live_out` of a block.
#[tactic(auto, using(crate::proofs::TransferLaws::first_to, crate::proofs::TransferLaws::first_counted, crate::proofs::TransferLaws::first_connected))]
fn live_out<R: Run>(s: &mut Scratch<'_, R>, t: &SetsView<'_, R>, block: usize)
    requires { (block < R.layout.blocks) × Connected R.layout s.old }
    ensures { s.new ≡ store_cell s.old (running_row Liveness R.layout) (gathered Liveness R.layout s.old t.now block) }
{
    let n = s.get(Cell::SuccessorCount, block) as usize;
    if n == 0 {
        s.fill(SlotRow::LiveState, 0);
        return;
    }
    let to = s.successor(block, n, 0) as usize;
    load(s, SlotRow::LiveState, t.row(BlockSet::Live(to)));
    join_rest(s, t, block, n);
}

// The running row becomes what a block gathers from its neighbors.
pub fn gather<R: Run>(s: &mut Scratch<'_, R>, t: &SetsView<'_, R>, d: Direction, block: usize)
    requires { (block < R.layout.blocks) × Connected R.layout s.old }
    ensures { s.new ≡ store_cell s.old (running_row d R.layout) (gathered d R.layout s.old t.now block) }
{
    match d {
        Direction::Initialization => incoming(s, t, block),
        Direction::Liveness => live_out(s, t, block),
    }
}

// The running row goes through the block.
#[tactic(auto, unfolding(crate::specs::Transfer::transferred))]
fn transfer<R: Run>(s: &mut Scratch<'_, R>, d: Direction, block: usize)
    requires { block < R.layout.blocks }
    ensures { s.new ≡ store_cell s.old (running_row d R.layout) (transferred d s.old block (cell s.old (running_row d R.layout))) }
{
    match d {
        Direction::Initialization => s.join_row(SlotRow::State, SlotRow::Defines(block)),
        Direction::Liveness => transfer_live(s, block),
    }
}

// What the block defines goes, what it uses comes.
#[tactic(auto, unfolding(crate::specs::Transfer::transferred))]
fn transfer_live<R: Run>(s: &mut Scratch<'_, R>, block: usize)
    requires { block < R.layout.blocks }
    ensures { s.new ≡ store_cell s.old (running_row Liveness R.layout) (transferred Liveness s.old block (cell s.old (running_row Liveness R.layout))) }
{
    let defines = SlotRow::Defines(block);
    let uses = SlotRow::Uses(block);
    s.replace_row(SlotRow::LiveState, defines, uses);
}

// The running row becomes the new set of a block.
#[tactic(auto, using(crate::proofs::TransferLaws::computes))]
pub fn compute<R: Run>(s: &mut Scratch<'_, R>, t: &SetsView<'_, R>, d: Direction, block: usize)
    requires { (block < R.layout.blocks) × Connected R.layout s.old }
    ensures { s.new ≡ store_cell s.old (running_row d R.layout) (computed d R.layout s.old t.now block) }
{
    gather(s, t, d, block);
    transfer(s, d, block);
}
