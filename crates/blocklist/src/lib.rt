// The block list of a script, from the words of scratch: in what a list is lent, and the list as words.
#![tactic(auto)]

ghost use Rattle.std.specs.Prelude.{◌≡◌, ◌<◌, length, get_or};
ghost use Rattle.dataflow.specs.Lists.{tabulate};
ghost use Rattle.blocklist.specs.List.{record_in};

use memory::names::Cell;
use memory::views::ScratchView;
use run::Run;

// What a block list is a slice of.
pub trait Listed: Copy {
    ghost use Rattle.std.specs.Prelude.{◌≡◌, ℕ, ◌<◌};
    ghost use Rattle.memory.specs.Cells.{Mem};

    // How many elements a block's record takes.
    const PER_RECORD: usize;

    ghost PER_RECORD: { ℕ };

    // element i of the list of so many blocks, whose words these cells are
    ghost listed: { Mem → ℕ → ℕ → Self };

    // Element i of the list: of a block's record, or zero behind the last one.
    fn element<R: Run>(s: &ScratchView<'_, R>, i: usize) -> Self
        ensures { result ≡ listed s.now R.layout.blocks i };

    ghost some: { 0 < PER_RECORD };
}

// Each element of the list.
#[tactic(auto, using(crate::proofs::Filled::filled_none, crate::proofs::Filled::filled_step, crate::proofs::Filled::filled_all))]
pub fn fill<T: Listed, R: Run>(list: &mut [T], s: &ScratchView<'_, R>)
    ensures { list.new ≡ tabulate 0 (length list.old) (T.listed s.now R.layout.blocks) }
{
    for (i, element) in list.iter_mut().enumerate() {
        *element = T::element(s, i);
    }
}

// Six words a record.
impl Listed for u64 {
    ghost use Rattle.std.proofs.Common.{arith};
    ghost use Rattle.blocklist.specs.List.{list_word};

    const PER_RECORD: usize = 6;

    ghost PER_RECORD = { 6 };

    ghost listed = { list_word };

    #[tactic(auto, unfolding(crate::specs::List::list_word))]
    fn element<R: Run>(s: &ScratchView<'_, R>, k: usize) -> u64 {
        let block = k / 6;
        if block < s.layout().blocks {
            return field(s, block, k % 6);
        }
        0
    }

    ghost some = { Prim.omega arith };
}

// Field k of a block's record.
fn field<R: Run>(s: &ScratchView<'_, R>, block: usize, k: usize) -> u64
    requires { (block < R.layout.blocks) × (k < 6) }
    ensures { result ≡ get_or (record_in s.now block) k 0 }
{
    match k {
        0 => s.get(Cell::Start, block),
        1 => s.get(Cell::End, block),
        2 => s.get(Cell::Reachable, block),
        3 => s.get(Cell::SuccessorCount, block),
        _ => s.edge_word(block, k - 4),
    }
}
