// The words of the sets buffer: both sets of each block, and the entry of each await.
#![tactic(auto, using(crate::proofs::BackedLaws::sets_backed))]

ghost use Rattle.std.specs.Prelude.{◌≡◌, ◌∷◌, ◌≤◌, ◌<◌, length, replicate};
ghost use Rattle.bitset.specs.Operations.{same};
ghost use Rattle.memory.specs.Cells.{Mem, InWords, cell, store_cell};
ghost use Rattle.memory.specs.Names.{await_entry};
ghost use Rattle.memory.specs.Named.{row_of, set_of, RowThere, SetThere};
ghost use Rattle.memory.specs.Sets.{sets, SetsWhole, SetsBack};
ghost use Rattle.run.specs.Terms.{SetsBounded};
ghost use Rattle.sizes.specs.Sizes.{sets_words};

use crate::layout;
use crate::names::{BlockSet, SlotRow};
use crate::views::{ScratchView, SetsView};
use run::Run;
use run::terms::SetsTerms;
use sizes::Layout;
use std::marker::{Model, PhantomData};

#[derive(Drop)]
pub struct Sets<'a, R: Run> {
    words: &'a mut [u64],
    terms: SetsTerms,
    run: PhantomData<R>,
}

// A contract sees the cells, as of scratch.
impl<'a, R: Run> Model for Sets<'a, R> {
    ghost Value = { Mem };

    ghost view = { λ t. sets t.terms.layout t.words.now };

    ghost invariant = { λ t. SetsBack R.layout t.terms.layout R.sets t.words.ghost_name (length t.words.now) };
}

impl<'a, R: Run> Sets<'a, R> {
    pub fn new(words: &'a mut [u64], terms: SetsTerms) -> Self
        requires { (terms.layout ≡ R.layout) × (words.ghost_name ≡ R.sets.name) × (length words.old ≡ R.sets.length) × (sets_words terms.layout ≤ length words.old) }
        ensures { result ≡ sets R.layout words.old }
    {
        Sets {
            words,
            terms,
            run: PhantomData,
        }
    }

    // The words again.
    pub fn into_words(self) -> &'a mut [u64]
        ensures { (result.ghost_name ≡ R.sets.name) × (length result.now ≡ R.sets.length) × (sets R.layout result.now ≡ self.entry) }
    {
        let Sets {
            words,
            terms: _,
            run: _,
        } = self;
        words
    }

    // Its cells by a shared borrow.
    pub fn view(&self) -> SetsView<'_, R>
        ensures { result ≡ self.now }
    {
        SetsView::new(self.words, self.terms)
    }

    // The layout of its cells: each is as wide as it says.
    pub fn layout(&self) -> Layout
        ensures is { result ≡ R.layout }
        ensures bounded { SetsBounded R.layout }
        ensures whole { SetsWhole R.layout self.now }
        ensures words { InWords self.now }
    {
        self.view().layout()
    }

    // A block's set.
    pub fn row(&self, set: BlockSet) -> &[u64]
        requires { SetThere R.layout set }
        ensures is { result.now ≡ cell self.now (set_of set) }
        ensures long { length result.now ≡ R.layout.words }
    {
        self.view().row(set)
    }

    // Each word of it becomes v.
    pub fn fill(&mut self, set: BlockSet, v: u64)
        requires { SetThere R.layout set }
        ensures { self.new ≡ store_cell self.old (set_of set) (replicate R.layout.words v) }
    {
        self.words[layout::set_words(self.terms, set)].fill(v);
    }

    // It becomes a row of scratch.
    pub fn store(&mut self, set: BlockSet, s: &ScratchView<'_, R>, row: SlotRow)
        requires { SetThere R.layout set × RowThere R.layout row }
        ensures { self.new ≡ store_cell self.old (set_of set) (cell s.now (row_of R.layout row)) }
    {
        let into = &mut self.words[layout::set_words(self.terms, set)];
        bitset::copy(into, s.row(row));
    }

    // Whether it and a row of scratch hold the same words.
    pub fn same(&self, set: BlockSet, s: &ScratchView<'_, R>, row: SlotRow) -> bool
        requires { SetThere R.layout set × RowThere R.layout row }
        ensures { result ≡ same (cell self.now (set_of set)) (cell s.now (row_of R.layout row)) }
    {
        self.view().same(set, s, row)
    }

    // The entry of the k-th await becomes its instruction and a row of scratch.
    pub fn put_await(&mut self, k: usize, instruction: u64, s: &ScratchView<'_, R>, row: SlotRow)
        requires { (k < R.layout.awaits) × RowThere R.layout row }
        ensures { self.new ≡ store_cell self.old (await_entry R.layout.blocks k) (instruction ∷ cell s.now (row_of R.layout row)) }
    {
        let entry = &mut self.words[layout::entry_words(self.terms, k)];
        entry[0] = instruction;
        bitset::copy(&mut entry[1..], s.row(row));
    }
}
