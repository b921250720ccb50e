// Numbers the blocks: the block of a target is then looked up in the target's own word.
ghost use Rattle.std.specs.Prelude.{◌≡◌, true, ◌<◌, ◌≤◌};
ghost use Rattle.memory.specs.Cells.{cell, word};
ghost use Rattle.memory.specs.Names.{block_of_cell};
ghost use Rattle.leaders.specs.Numbers.{marked, number_one, count_one, Numbered};

use memory::names::Cell;
use memory::scratch::Scratch;
use run::Run;

// Each instruction's mark becomes the number of its block, and where the blocks begin is noted. How many blocks there are.
#[tactic(auto, using(crate::proofs::NumberLaws::going))]
pub fn number<R: Run>(s: &mut Scratch<'_, R>) -> usize
    requires { (marked (cell s.old block_of_cell) 0 ≡ true) }
    ensures { Numbered R.layout.instructions s.old s.new result }
{
    let mut blocks = 0;
    for i in 0..s.layout().instructions {
        blocks = number_one(s, i, blocks);
    }
    blocks
}

// Instruction i, before which so many blocks begin: it begins the next one if it is marked. How many begin up to it.
#[tactic(auto, unfolding(crate::specs::Numbers::number_one, crate::specs::Numbers::count_one))]
fn number_one<R: Run>(s: &mut Scratch<'_, R>, i: usize, blocks: usize) -> usize
    requires { (i < R.layout.instructions) × (blocks ≤ i) × (word s.old block_of_cell i ≡ 0 → 0 < blocks) }
    ensures { (s.new ≡ number_one s.old i blocks) × (result ≡ count_one s.old i blocks) }
{
    if s.get(Cell::BlockOf, i) == 0 {
        s.put(Cell::BlockOf, i, blocks as u64 - 1);
        return blocks;
    }
    s.put(Cell::Leader, blocks, i as u64);
    s.put(Cell::BlockOf, i, blocks as u64);
    blocks + 1
}
