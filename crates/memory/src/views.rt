// Both buffers by a shared borrow of their words: what only reads them takes these. A contract sees the cells, as of `Scratch` and `Sets`.
#![tactic(auto, using(crate::proofs::BackedLaws::backed, crate::proofs::BackedLaws::sets_backed))]

ghost use Rattle.std.specs.Prelude.{◌≡◌, ◌/◌, ◌≤◌, ◌<◌, length};
ghost use Rattle.bitset.specs.Sets.{member};
ghost use Rattle.bitset.specs.Operations.{same};
ghost use Rattle.memory.specs.Cells.{Mem, InWords, cell, word};
ghost use Rattle.memory.specs.Named.{cell_of, width_of, row_of, set_of, RowThere, SetThere};
ghost use Rattle.memory.specs.Scratch.{scratch, Whole, Holds};
ghost use Rattle.memory.specs.Sets.{sets, SetsWhole, SetsHold};
ghost use Rattle.run.specs.Terms.{SetsBounded};
ghost use Rattle.sizes.specs.Sizes.{scratch_words, sets_words};

use crate::layout;
use crate::names::{BlockSet, Cell, SlotRow};
use run::Run;
use run::terms::{ScratchTerms, SetsTerms};
use sizes::Layout;
use std::marker::{Model, PhantomData};

#[derive(Drop)]
pub struct ScratchView<'a, R: Run> {
    words: &'a [u64],
    terms: ScratchTerms,
    run: PhantomData<R>,
}

#[derive(Drop)]
pub struct SetsView<'a, R: Run> {
    words: &'a [u64],
    terms: SetsTerms,
    run: PhantomData<R>,
}

impl<'a, R: Run> Model for ScratchView<'a, R> {
    ghost Value = { Mem };

    ghost view = { λ s. scratch s.terms.layout s.words.now };

    ghost invariant = { λ s. Holds R.layout s.terms.layout (length s.words.now) };
}

impl<'a, R: Run> Model for SetsView<'a, R> {
    ghost Value = { Mem };

    ghost view = { λ t. sets t.terms.layout t.words.now };

    ghost invariant = { λ t. SetsHold R.layout t.terms.layout (length t.words.now) };
}

impl<'a, R: Run> ScratchView<'a, R> {
    pub fn new(words: &'a [u64], terms: ScratchTerms) -> Self
        requires { (terms.layout ≡ R.layout) × (scratch_words terms.layout ≤ length words.now) }
        ensures { result ≡ scratch R.layout words.now }
    {
        ScratchView {
            words,
            terms,
            run: PhantomData,
        }
    }

    // The layout of its cells: each is as wide as it says.
    pub fn layout(&self) -> Layout
        ensures is { result ≡ R.layout }
        ensures whole { Whole R.layout self.now }
        ensures words { InWords self.now }
    {
        layout::fit(self.words);
        self.terms.layout
    }

    // Word i of a cell.
    pub fn get(&self, cell: Cell, i: usize) -> u64
        requires { i < width_of R.layout cell }
        ensures is { result ≡ word self.now (cell_of cell) i }
        ensures whole { Whole R.layout self.now }
    {
        self.words[layout::cell_start(self.terms, cell) + i]
    }

    // A row.
    pub fn row(&self, row: SlotRow) -> &'a [u64]
        requires { RowThere R.layout row }
        ensures is { result.now ≡ cell self.now (row_of R.layout row) }
        ensures long { length result.now ≡ R.layout.words }
    {
        &self.words[layout::row_words(self.terms, row)]
    }

    // Word i of a row.
    pub fn row_word(&self, row: SlotRow, i: usize) -> u64
        requires { RowThere R.layout row × (i < R.layout.words) }
        ensures { result ≡ word self.now (row_of R.layout row) i }
    {
        self.row(row)[i]
    }

    // Whether the slot is in a row.
    pub fn contains(&self, row: SlotRow, slot: usize) -> bool
        requires { RowThere R.layout row × (slot / 64 < R.layout.words) }
        ensures { result ≡ member (cell self.now (row_of R.layout row)) slot }
    {
        bitset::contains(self.row(row), slot)
    }
}

impl<'a, R: Run> SetsView<'a, R> {
    pub fn new(words: &'a [u64], terms: SetsTerms) -> Self
        requires { (terms.layout ≡ R.layout) × (sets_words terms.layout ≤ length words.now) }
        ensures { result ≡ sets R.layout words.now }
    {
        SetsView {
            words,
            terms,
            run: PhantomData,
        }
    }

    // The layout of its cells: each is as wide as it says.
    pub fn layout(&self) -> Layout
        ensures is { result ≡ R.layout }
        ensures bounded { SetsBounded R.layout }
        ensures whole { SetsWhole R.layout self.now }
        ensures words { InWords self.now }
    {
        layout::fit(self.words);
        self.terms.layout
    }

    // A block's set.
    pub fn row(&self, set: BlockSet) -> &'a [u64]
        requires { SetThere R.layout set }
        ensures is { result.now ≡ cell self.now (set_of set) }
        ensures long { length result.now ≡ R.layout.words }
    {
        &self.words[layout::set_words(self.terms, set)]
    }

    // Whether it and a row of scratch hold the same words.
    pub fn same(&self, set: BlockSet, s: &ScratchView<'_, R>, row: SlotRow) -> bool
        requires { SetThere R.layout set × RowThere R.layout row }
        ensures { result ≡ same (cell self.now (set_of set)) (cell s.now (row_of R.layout row)) }
    {
        bitset::same(self.row(set), s.row(row))
    }
}
