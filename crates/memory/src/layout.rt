// Where each cell of the two buffers lies: the range of its words.
ghost use Rattle.std.specs.Prelude.{◌≡◌, ℕ, ◌+◌, ◌^◌, ◌≤◌, ◌<◌, take, get_or};
ghost use Rattle.memory.specs.Cells.{total, Covers};
ghost use Rattle.memory.specs.Named.{cell_of, width_of, row_of, set_of, RowThere, SetThere};
ghost use Rattle.memory.specs.Names.{await_entry};
ghost use Rattle.memory.specs.Scratch.{edge_words, scratch_widths};
ghost use Rattle.memory.specs.Sets.{sets_widths, AwaitEntry};
ghost use Rattle.sizes.specs.Sizes.{scratch_words, sets_words};

use crate::names::{BlockSet, Cell, SlotRow};
use run::terms::{ScratchTerms, SetsTerms};
use sizes::Layout;
use std::ops::Range;

// The cell that is the first row: uses and defines of each block side by side.
pub const ROWS: usize = 18;

// How many edges there may be.
pub fn edge_words(y: Layout) -> usize
    requires { (y.blocks ≤ 65536) × (y.extra ≤ 16777216) }
    ensures { result ≡ edge_words y }
{
    2 * y.blocks + y.extra
}

// The cell of the sets buffer that is the k-th await's entry.
pub fn await_entry(y: Layout, k: usize) -> usize
    requires { (y.blocks ≤ 65536) × (k ≤ 65536) }
    ensures { result ≡ await_entry y.blocks k }
{
    2 * y.blocks + k
}

// How wide a cell of scratch is that is no row.
pub fn cell_width(y: Layout, cell: Cell) -> usize
    requires { (y.blocks ≤ 65536) × (y.extra ≤ 16777216) }
    ensures { result ≡ width_of y cell }
{
    match cell {
        Cell::Offset | Cell::BlockOf | Cell::Leader | Cell::Cost => y.instructions,
        Cell::Successor => 2 * y.blocks,
        Cell::NextEdge => edge_words(y),
        _ => y.blocks,
    }
}

// Where it begins.
#[tactic(auto, using(crate::proofs::ScratchLaws::starts))]
pub fn cell_start(terms: ScratchTerms, cell: Cell) -> usize
    ensures { result ≡ total (take (cell_of cell) (scratch_widths terms.layout)) }
{
    let y = terms.layout;
    match cell.number() {
        k @ 0..=3 => k * y.instructions,
        k @ 4..=15 => 4 * y.instructions + (k - 4) * y.blocks,
        k => 4 * y.instructions + 12 * y.blocks + (k - 16) * (2 * y.blocks),
    }
}

// Its words.
#[tactic(auto, using(crate::proofs::NamedLaws::cell_covers, crate::proofs::NamedLaws::cell_small))]
pub fn cell_words(terms: ScratchTerms, cell: Cell) -> Range<usize>
    ensures { Covers (scratch_widths terms.layout) (cell_of cell) (width_of terms.layout cell) (scratch_words terms.layout) result.start result.end }
{
    let start = cell_start(terms, cell);
    start..start + cell_width(terms.layout, cell)
}

// The words of a row of scratch.
pub fn row_words(terms: ScratchTerms, row: SlotRow) -> Range<usize>
    requires { RowThere terms.layout row }
    ensures { Covers (scratch_widths terms.layout) (row_of terms.layout row) terms.layout.words (scratch_words terms.layout) result.start result.end }
{
    let y = terms.layout;
    let start = 4 * y.instructions + 16 * y.blocks + y.extra + (row.number(y) - ROWS) * y.words;
    start..start + y.words
}

// The words of a row of the sets buffer.
pub fn set_words(terms: SetsTerms, set: BlockSet) -> Range<usize>
    requires { SetThere terms.layout set }
    ensures { Covers (sets_widths terms.layout) (set_of set) terms.layout.words (sets_words terms.layout) result.start result.end }
{
    let start = set.number(terms.layout) * terms.layout.words;
    start..start + terms.layout.words
}

// The words of the k-th await's entry there.
pub fn entry_words(terms: SetsTerms, k: usize) -> Range<usize>
    requires { k < terms.layout.awaits }
    ensures { Covers (sets_widths terms.layout) (await_entry terms.layout.blocks k) (1 + terms.layout.words) (sets_words terms.layout) result.start result.end }
{
    let y = terms.layout;
    let start = y.blocks * 2 * y.words + k * (1 + y.words);
    start..start + 1 + y.words
}

// Each word fits 64 bits: the type of a slice says so, and here a proof hears it of the words that a struct holds.
pub fn fit(words: &[u64])
    ensures { (i : ℕ) → get_or words.now i 0 < 2 ^ 64 }
{}
