// Where a block begins and where it ends.
ghost use Rattle.std.specs.Prelude.{◌≡◌, ◌≤◌, ◌<◌};
ghost use Rattle.blocks.specs.Words.{end_of, spanned};

use memory::names::Cell;
use memory::scratch::Scratch;
use run::Run;

// A block ends at the next one's start, the last one at the end of the code.
#[tactic(auto, unfolding(crate::specs::Words::end_of))]
fn end_of<R: Run>(s: &Scratch<'_, R>, block: usize) -> u64
    requires { (block < R.layout.blocks) × (R.layout.blocks ≤ R.layout.instructions) }
    ensures { result ≡ end_of R.layout s.now block }
{
    let y = s.layout();
    if block + 1 < y.blocks {
        return s.get(Cell::Leader, block + 1);
    }
    y.instructions as u64
}

// The words START and END of a block.
#[tactic(auto, unfolding(crate::specs::Words::spanned))]
pub fn span<R: Run>(s: &mut Scratch<'_, R>, block: usize)
    requires { (block < R.layout.blocks) × (R.layout.blocks ≤ R.layout.instructions) }
    ensures { s.new ≡ spanned R.layout block s.old }
{
    let start = s.get(Cell::Leader, block);
    let end = end_of(s, block);
    s.put(Cell::Start, block, start);
    s.put(Cell::End, block, end);
}
