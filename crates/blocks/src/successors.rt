// The edges of a block: to the blocks of its last instruction's targets, or to the block behind it.
ghost use Rattle.std.specs.Prelude.{◌≡◌, false, ◌<◌};
ghost use Rattle.operands.specs.Kinds.{kind_number, ends_block};
ghost use Rattle.operands.specs.Instructions.{targets_in};
ghost use Rattle.memory.specs.Cells.{word};
ghost use Rattle.memory.specs.Names.{block_of_cell};
ghost use Rattle.memory.specs.Edges.{store_edge};
ghost use Rattle.bitset.specs.Below.{AllBelow};
ghost use Rattle.blocks.specs.Words.{next_of, counted_edges, link_edges, put_edges};

use memory::names::Cell;
use memory::scratch::Scratch;
use operands::instruction::Instruction;
use run::Run;

// `instruction` is the block's last one, and `end` is what follows it. The block of a target is looked up in the target's own word.
#[tactic(auto, unfolding(crate::specs::Words::put_edges, crate::specs::Words::link_edges))]
pub fn successors<R: Run>(
    s: &mut Scratch<'_, R>,
    block: usize,
    instruction: Instruction<'_>,
    end: usize,
)
    requires { (block < R.layout.blocks) × (AllBelow R.layout.instructions (targets_in instruction)) × (ends_block (kind_number instruction.kind) ≡ false → end < R.layout.instructions) }
    ensures { s.new ≡ put_edges block (next_of (ends_block (kind_number instruction.entry.kind)) (targets_in instruction.entry) end) s.old }
{
    if instruction.kind.ends_block() {
        count_edges(s, block, instruction.target_count() as u64);
        link_targets(s, block, instruction);
    } else {
        count_edges(s, block, 1);
        link(s, block, 0, end);
    }
}

// So many edges, and none of them leads anywhere yet.
#[tactic(auto, unfolding(crate::specs::Words::counted_edges))]
fn count_edges<R: Run>(s: &mut Scratch<'_, R>, block: usize, count: u64)
    requires { block < R.layout.blocks }
    ensures { s.new ≡ counted_edges block count s.old }
{
    s.put(Cell::SuccessorCount, block, count);
    s.put_edge(block, 0, 0);
    s.put_edge(block, 1, 0);
}

// The k-th edge of a block leads to the block that begins at an instruction.
fn link<R: Run>(s: &mut Scratch<'_, R>, block: usize, k: usize, to: usize)
    requires { (block < R.layout.blocks) × (k < 2) × (to < R.layout.instructions) }
    ensures { s.new ≡ store_edge s.old block k (word s.old block_of_cell to) }
{
    let number = s.get(Cell::BlockOf, to);
    s.put_edge(block, k, number);
}

// An edge for each target, at most two.
#[tactic(auto, using(crate::proofs::WordLaws::links_more, crate::proofs::WordLaws::links_all, crate::proofs::OperandLaws::targets_few))]
fn link_targets<R: Run>(s: &mut Scratch<'_, R>, block: usize, instruction: Instruction<'_>)
    requires { (block < R.layout.blocks) × AllBelow R.layout.instructions (targets_in instruction) }
    ensures { s.new ≡ link_edges block 0 (targets_in instruction.entry) s.old }
{
    for (k, target) in instruction.targets().enumerate() {
        link(s, block, k, target.index());
    }
}
