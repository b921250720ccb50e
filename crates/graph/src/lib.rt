// `graph` and `reachability` of flow.rs, stage by stage.
#![tactic(auto)]

ghost use Rattle.std.specs.Prelude.{◌≡◌, ◌*◌, ◌≤◌, ◌<◌, length};
ghost use Rattle.memory.specs.Buffer.{Lends};
ghost use Rattle.memory.specs.Scratch.{scratch};
ghost use Rattle.memory.specs.Sets.{sets};
ghost use Rattle.sheet.specs.Decode.{parts_of};
ghost use Rattle.sizes.specs.Sizes.{scratch_words, sets_words};
ghost use Rattle.instructions.specs.Sound.{Sound};
ghost use Rattle.starts.specs.Starts.{parameter_with, Starts};
ghost use Rattle.blocks.specs.Blocks.{Ready};
ghost use Rattle.edges.specs.Edges.{Held};
ghost use Rattle.graph.specs.Graph.{Graphed, Parameters, Joined, Built, BuiltCells};

use budget::{FlowBudget, Limits, OverWork};
use instructions::checked::Sheet;
use memory::buffer::Buffer;
use memory::names::SlotRow;
use memory::scratch::Scratch;
use memory::sets::Sets;
use run::Run;
use run::bounded::{AsRun, BoundedRun};
use run::meter::Meter;
use run::terms::{ScratchTerms, SetsTerms, Terms};
use sizes::{Layout, Lent, Stopped};
use std::marker::Brand;
use std::mem;

// The graph of a script in both buffers, or why there is none. `added` is a set of slots that are parameters beside the sheet's own, `records` how many
// block records are lent.
pub fn graph(
    sheet: &Sheet<'_>,
    added: &[u64],
    s: &mut [u64],
    t: &mut [u64],
    records: usize,
    limits: Limits,
    budget: FlowBudget,
) -> Result<(Layout, FlowBudget), Stopped>
    requires { 4 * sheet.now.script.count ≤ length s.old }
    ensures { Graphed sheet.now.bytes.now (parameter_with (parts_of sheet.now.bytes.now) added.now) sheet.now.script limits records budget s.old s.new t.old t.new result }
{
    let lent = Lent {
        sets: t.len(),
        records,
    };
    let (layout, left) = rooms::measure(sheet, s, lent, limits, budget)?;
    let mut scratch = Buffer { words: s };
    let mut sets = Buffer { words: t };
    build::<Brand>(
        sheet,
        added,
        &mut scratch,
        &mut sets,
        Terms { layout },
        limits,
        left,
    )
}

// The words of both buffers as cells, and the graph in them.
fn build<R: BoundedRun>(
    sheet: &Sheet<'_>,
    added: &[u64],
    s: &mut Buffer<'_>,
    t: &mut Buffer<'_>,
    terms: Terms,
    limits: Limits,
    budget: FlowBudget,
) -> Result<(Layout, FlowBudget), Stopped>
    requires { (terms.layout ≡ R.layout) × (limits ≡ R.limits) × Lends R.scratch s.old.words × Lends R.sets t.old.words
        × (scratch_words terms.layout ≤ length s.old.words.now) × (sets_words terms.layout ≤ length t.old.words.now)
        × Ready sheet.now.bytes.now sheet.now.script terms.layout (scratch terms.layout s.old.words.now) }
    ensures lent { Lends R.scratch s.new.words × Lends R.sets t.new.words }
    ensures built { Built sheet.now.bytes.now (parameter_with (parts_of sheet.now.bytes.now) added.now) sheet.now.script terms.layout limits budget
        (scratch terms.layout s.old.words.now) (scratch terms.layout s.new.words.now) (sets terms.layout t.new.words.now) result }
{
    let layout = terms.layout;
    let mut cells = Scratch::<AsRun<R>>::new(mem::take(&mut s.words), ScratchTerms { layout });
    let mut kept = Sets::<AsRun<R>>::new(mem::take(&mut t.words), SetsTerms { layout });
    let built = build_cells(
        sheet,
        added,
        &mut cells,
        &mut kept,
        Meter::new(limits, budget),
    );
    s.words = cells.into_words();
    t.words = kept.into_words();
    Ok((layout, built?.budget()))
}

// The blocks, then the edges between them, and which blocks a path from block 0 reaches.
fn build_cells<R: Run>(
    sheet: &Sheet<'_>,
    added: &[u64],
    s: &mut Scratch<'_, R>,
    t: &mut Sets<'_, R>,
    meter: Meter<R>,
) -> Result<Meter<R>, OverWork>
    requires { Ready sheet.now.bytes.now sheet.now.script R.layout s.old }
    ensures { BuiltCells sheet.now.bytes.now (parameter_with (parts_of sheet.now.bytes.now) added.now) sheet.now.script R.layout R.limits meter s.old s.new t.new result }
{
    let left = blocks::blocks::blocks(sheet, s, t, meter)?;
    join(sheet, added, s);
    edges::reachability::reachability(s, left)
}

// The predecessors of each block, and the set that block 0 starts from.
#[tactic(auto, using(crate::proofs::GraphLaws::joined))]
fn join<R: Run>(sheet: &Sheet<'_>, added: &[u64], s: &mut Scratch<'_, R>)
    requires { (sheet.now.script.slots ≤ 64 * R.layout.words) × Held R.layout s.old }
    ensures { Joined (parameter_with (parts_of sheet.now.bytes.now) added.now) R.layout s.old s.new }
{
    edges::predecessors::predecessors(s);
    // The row of the parameters is there.
    let _ = s.layout();
    parameters(sheet, added, s);
}

// The row of the parameters: the sheet's own, and the added ones.
fn parameters<R: Run>(sheet: &Sheet<'_>, added: &[u64], s: &mut Scratch<'_, R>)
    requires { sheet.now.script.slots ≤ 64 * R.layout.words }
    ensures { Parameters (parameter_with (parts_of sheet.now.bytes.now) added.now) R.layout s.old s.new }
{
    // The closure holds the parts: of one that holds a whole `Sheet` a proof knows nothing.
    let bytes = sheet.bytes;
    let script = sheet.script;
    s.change(
        SlotRow::Parameters,
        |row|
            requires { Sound bytes.now script × (script.slots ≤ 64 * length row.old) }
            ensures { Starts (parts_of bytes.entry.now) added.entry.now (length row.old) row.new }
        { starts::insert_all(&Sheet { bytes, script }, added, row) },
    );
}
