// The words of scratch: single words, whole cells, and rows of slots.
#![tactic(auto, using(crate::proofs::BackedLaws::backed))]

ghost use Rattle.std.specs.Prelude.{◌≡◌, ◌/◌, ◌≤◌, ◌<◌, length, replicate};
ghost use Rattle.std.specs.Fn.{FnOnceReturnsAtMut};
ghost use Rattle.bitset.specs.Sets.{member};
ghost use Rattle.bitset.specs.Operations.{inserted, removed, meet, join, difference};
ghost use Rattle.memory.specs.Cells.{Mem, InWords, cell, word, store, store_cell};
ghost use Rattle.memory.specs.Named.{cell_of, width_of, row_of, set_of, RowThere, SetThere};
ghost use Rattle.memory.specs.Scratch.{scratch, Whole, Backs};
ghost use Rattle.sizes.specs.Sizes.{scratch_words};

use crate::layout;
use crate::names::{BlockSet, Cell, SlotRow};
use crate::views::{ScratchView, SetsView};
use run::Run;
use run::terms::ScratchTerms;
use sizes::Layout;
use std::marker::{Model, PhantomData};

#[derive(Drop)]
pub struct Scratch<'a, R: Run> {
    words: &'a mut [u64],
    terms: ScratchTerms,
    run: PhantomData<R>,
}

// A contract sees the cells. What they hold changes from stage to stage, so that facts about it stand in the contracts of the stages, and a block or an
// instruction is a number there, as it is in the words. The words are the ones that were lent: that they are the same throughout lets who lent them know what they hold at
// the end.
impl<'a, R: Run> Model for Scratch<'a, R> {
    ghost Value = { Mem };

    ghost view = { λ s. scratch s.terms.layout s.words.now };

    ghost invariant = { λ s. Backs R.layout s.terms.layout R.scratch s.words.ghost_name (length s.words.now) };
}

impl<'a, R: Run> Scratch<'a, R> {
    pub fn new(words: &'a mut [u64], terms: ScratchTerms) -> Self
        requires { (terms.layout ≡ R.layout) × (words.ghost_name ≡ R.scratch.name) × (length words.old ≡ R.scratch.length) × (scratch_words terms.layout ≤ length words.old) }
        ensures { result ≡ scratch R.layout words.old }
    {
        Scratch {
            words,
            terms,
            run: PhantomData,
        }
    }

    // The words again.
    pub fn into_words(self) -> &'a mut [u64]
        ensures { (result.ghost_name ≡ R.scratch.name) × (length result.now ≡ R.scratch.length) × (scratch R.layout result.now ≡ self.entry) }
    {
        let Scratch {
            words,
            terms: _,
            run: _,
        } = self;
        words
    }

    // Its cells by a shared borrow.
    pub fn view(&self) -> ScratchView<'_, R>
        ensures { result ≡ self.now }
    {
        ScratchView::new(self.words, self.terms)
    }

    // The layout of its cells: each is as wide as it says.
    pub fn layout(&self) -> Layout
        ensures is { result ≡ R.layout }
        ensures whole { Whole R.layout self.now }
        ensures words { InWords self.now }
    {
        self.view().layout()
    }

    // Word i of a cell.
    pub fn get(&self, cell: Cell, i: usize) -> u64
        requires { i < width_of R.layout cell }
        ensures is { result ≡ word self.now (cell_of cell) i }
        ensures whole { Whole R.layout self.now }
    {
        self.view().get(cell, i)
    }

    // It becomes v.
    pub fn put(&mut self, cell: Cell, i: usize, v: u64)
        requires { i < width_of R.layout cell }
        ensures stored { self.new ≡ store self.old (cell_of cell) i v }
        ensures whole { Whole R.layout self.old }
    {
        self.words[layout::cell_start(self.terms, cell) + i] = v;
    }

    // Each word of a cell becomes 0.
    pub fn clear(&mut self, cell: Cell)
        ensures stored { self.new ≡ store_cell self.old (cell_of cell) (replicate (width_of R.layout cell) 0) }
        ensures whole { Whole R.layout self.old }
    {
        self.words[layout::cell_words(self.terms, cell)].fill(0);
    }

    // A cell becomes another one, which is as wide.
    pub fn copy(&mut self, into: Cell, from: Cell)
        requires { (width_of R.layout into ≡ width_of R.layout from) × (cell_of into ≡ cell_of from → ⊥) }
        ensures { self.new ≡ store_cell self.old (cell_of into) (cell self.old (cell_of from)) }
    {
        let k = layout::cell_words(self.terms, from);
        bitset::copy_within(
            self.words,
            layout::cell_start(self.terms, into),
            k.start,
            k.end - k.start,
        );
    }

    // A row.
    pub fn row(&self, row: SlotRow) -> &[u64]
        requires { RowThere R.layout row }
        ensures is { result.now ≡ cell self.now (row_of R.layout row) }
        ensures long { length result.now ≡ R.layout.words }
    {
        self.view().row(row)
    }

    // Word i of a row.
    pub fn row_word(&self, row: SlotRow, i: usize) -> u64
        requires { RowThere R.layout row × (i < R.layout.words) }
        ensures { result ≡ word self.now (row_of R.layout row) i }
    {
        self.view().row_word(row, i)
    }

    // It becomes v.
    pub fn put_row_word(&mut self, row: SlotRow, i: usize, v: u64)
        requires { RowThere R.layout row × (i < R.layout.words) }
        ensures { self.new ≡ store self.old (row_of R.layout row) i v }
    {
        self.words[layout::row_words(self.terms, row)][i] = v;
    }

    // Whether the slot is in a row.
    pub fn contains(&self, row: SlotRow, slot: usize) -> bool
        requires { RowThere R.layout row × (slot / 64 < R.layout.words) }
        ensures { result ≡ member (cell self.now (row_of R.layout row)) slot }
    {
        self.view().contains(row, slot)
    }

    // Puts the slot into a row.
    pub fn insert(&mut self, row: SlotRow, slot: usize)
        requires { RowThere R.layout row × (slot / 64 < R.layout.words) }
        ensures { self.new ≡ store_cell self.old (row_of R.layout row) (inserted (cell self.old (row_of R.layout row)) slot) }
    {
        bitset::insert(&mut self.words[layout::row_words(self.terms, row)], slot);
    }

    // Takes the slot out of a row.
    pub fn remove(&mut self, row: SlotRow, slot: usize)
        requires { RowThere R.layout row × (slot / 64 < R.layout.words) }
        ensures { self.new ≡ store_cell self.old (row_of R.layout row) (removed (cell self.old (row_of R.layout row)) slot) }
    {
        bitset::remove(&mut self.words[layout::row_words(self.terms, row)], slot);
    }

    // Each word of a row becomes v.
    pub fn fill(&mut self, row: SlotRow, v: u64)
        requires { RowThere R.layout row }
        ensures { self.new ≡ store_cell self.old (row_of R.layout row) (replicate R.layout.words v) }
    {
        self.words[layout::row_words(self.terms, row)].fill(v);
    }

    // A row becomes what a function makes of it.
    pub fn change<F: FnOnce(&mut [u64])>(&mut self, row: SlotRow, change: F)
        requires row { RowThere R.layout row }
        requires may { (x : _) → x.now ≡ cell self.old (row_of R.layout row) → length x.now ≡ R.layout.words → F.pre change x }
        ensures { (w : _) × FnOnceReturnsAtMut F.FnOnce change (cell self.old (row_of R.layout row)) tt w × (self.new ≡ store_cell self.old (row_of R.layout row) w)
            × (length (cell self.old (row_of R.layout row)) ≡ R.layout.words) }
    {
        change(&mut self.words[layout::row_words(self.terms, row)]);
    }

    // A row becomes another one.
    pub fn copy_row(&mut self, into: SlotRow, from: SlotRow)
        requires { RowThere R.layout into × RowThere R.layout from × (row_of R.layout into ≡ row_of R.layout from → ⊥) }
        ensures { self.new ≡ store_cell self.old (row_of R.layout into) (cell self.old (row_of R.layout from)) }
    {
        let d = layout::row_words(self.terms, into);
        let k = layout::row_words(self.terms, from);
        bitset::copy_within(self.words, d.start, k.start, self.terms.layout.words);
    }

    // A row takes in what is in another.
    pub fn join_row(&mut self, into: SlotRow, from: SlotRow)
        requires { RowThere R.layout into × RowThere R.layout from × (row_of R.layout into ≡ row_of R.layout from → ⊥) }
        ensures { self.new ≡ store_cell self.old (row_of R.layout into) (join (cell self.old (row_of R.layout into)) (cell self.old (row_of R.layout from))) }
    {
        let d = layout::row_words(self.terms, into);
        let k = layout::row_words(self.terms, from);
        bitset::join_within(self.words, d.start, k.start, self.terms.layout.words);
    }

    // A row loses what is in one row and then takes in what is in another.
    pub fn replace_row(&mut self, into: SlotRow, lost: SlotRow, gained: SlotRow)
        requires { RowThere R.layout into × RowThere R.layout lost × RowThere R.layout gained × (row_of R.layout into ≡ row_of R.layout lost → ⊥) × (row_of R.layout into ≡ row_of R.layout gained → ⊥) }
        ensures { self.new ≡ store_cell self.old (row_of R.layout into) (join (difference (cell self.old (row_of R.layout into)) (cell self.old (row_of R.layout lost))) (cell self.old (row_of R.layout gained))) }
    {
        let d = layout::row_words(self.terms, into);
        let k = layout::row_words(self.terms, lost);
        let j = layout::row_words(self.terms, gained);
        bitset::replace_within(
            self.words,
            d.start,
            k.start,
            j.start,
            self.terms.layout.words,
        );
    }

    // A row becomes a block's set.
    pub fn take_set(&mut self, row: SlotRow, t: &SetsView<'_, R>, set: BlockSet)
        requires { RowThere R.layout row × SetThere R.layout set }
        ensures { self.new ≡ store_cell self.old (row_of R.layout row) (cell t.now (set_of set)) }
    {
        let into = &mut self.words[layout::row_words(self.terms, row)];
        bitset::copy(into, t.row(set));
    }

    // A row keeps what is also in a block's set.
    pub fn meet_set(&mut self, row: SlotRow, t: &SetsView<'_, R>, set: BlockSet)
        requires { RowThere R.layout row × SetThere R.layout set }
        ensures { self.new ≡ store_cell self.old (row_of R.layout row) (meet (cell self.old (row_of R.layout row)) (cell t.now (set_of set))) }
    {
        bitset::meet(
            &mut self.words[layout::row_words(self.terms, row)],
            t.row(set),
        );
    }

    // A row takes in what is in a block's set.
    pub fn join_set(&mut self, row: SlotRow, t: &SetsView<'_, R>, set: BlockSet)
        requires { RowThere R.layout row × SetThere R.layout set }
        ensures { self.new ≡ store_cell self.old (row_of R.layout row) (join (cell self.old (row_of R.layout row)) (cell t.now (set_of set))) }
    {
        bitset::join(
            &mut self.words[layout::row_words(self.terms, row)],
            t.row(set),
        );
    }
}
