// The block list for hosts: a lent slice of block structs, filled from the words of scratch.
#![tactic(auto)]

ghost use Rattle.std.specs.Prelude.{◌≡◌, ◌<◌, ◌^◌, ◌%◌};
ghost use Rattle.block_records.specs.Records.{block_in};

use blocklist::Listed;
use memory::names::Cell;
use memory::views::ScratchView;
use run::Run;

// A block: where it begins and ends, whether a path reaches it (0 or 1), how many successors it has, and which blocks they are, unused ones 0.
// It is C's form, so that all is a number; behind the last block stand records of zeros.
#[repr(C)]
#[derive(Clone, Copy, PartialEq, Eq, Debug, Default)]
pub struct Block {
    pub start: u32,
    pub end: u32,
    pub reachable: u32,
    pub successor_count: u32,
    pub successor_0: u32,
    pub successor_1: u32,
}

// A struct is a whole record.
impl Listed for Block {
    ghost use Rattle.std.proofs.Common.{arith};
    ghost use Rattle.block_records.specs.Records.{listed_block};

    const PER_RECORD: usize = 1;

    ghost PER_RECORD = { 1 };

    ghost listed = { listed_block };

    #[tactic(auto, unfolding(crate::specs::Records::listed_block))]
    fn element<R: Run>(s: &ScratchView<'_, R>, i: usize) -> Block {
        if i < s.layout().blocks {
            return block_at(s, i);
        }
        Block::default()
    }

    ghost some = { Prim.omega arith };
}

// A block from its words.
fn block_at<R: Run>(s: &ScratchView<'_, R>, i: usize) -> Block
    requires { i < R.layout.blocks }
    ensures { result ≡ block_in s.now i }
{
    Block {
        start: cut(s.get(Cell::Start, i)),
        end: cut(s.get(Cell::End, i)),
        reachable: cut(s.get(Cell::Reachable, i)),
        successor_count: cut(s.get(Cell::SuccessorCount, i)),
        successor_0: cut(s.edge_word(i, 0)),
        successor_1: cut(s.edge_word(i, 1)),
    }
}

// A word cut to 32 bits: the remainder is what a proof hears of, where `as` alone says less.
fn cut(word: u64) -> u32
    ensures { result ≡ word % 2 ^ 32 }
{
    (word % 4294967296) as u32
}
