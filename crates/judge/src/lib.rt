// `verify` of flow.rs on a sheet that passed the checks, stage by stage.
#![tactic(auto)]

ghost use Rattle.std.specs.Prelude.{◌≡◌, ◌*◌, ◌-◌, ◌^◌, ◌≤◌, ◌<◌, length};
ghost use Rattle.memory.specs.Cells.{store_cell};
ghost use Rattle.memory.specs.Names.{hosts_row};
ghost use Rattle.memory.specs.Buffer.{Lends};
ghost use Rattle.memory.specs.Scratch.{scratch};
ghost use Rattle.memory.specs.Sets.{sets};
ghost use Rattle.sheet.specs.Decode.{parts_of};
ghost use Rattle.sizes.specs.Sizes.{scratch_words, sets_words};
ghost use Rattle.instructions.specs.Sets.{host_row};
ghost use Rattle.instructions.specs.Sound.{Sound};
ghost use Rattle.starts.specs.Starts.{parameter_with};
ghost use Rattle.reads.specs.Reads.{held_set};
ghost use Rattle.judge.specs.Judge.{Begun, Hosted, Solves, Judges};

use budget::{FlowBudget, Limits};
use format::refusal::Refusal;
use instructions::checked::Sheet;
use instructions::sets;
use memory::buffer::Buffer;
use memory::names::SlotRow;
use memory::scratch::Scratch;
use memory::sets::Sets;
use run::Run;
use run::bounded::{AsRun, BoundedRun};
use run::meter::Meter;
use run::terms::{ScratchTerms, SetsTerms, Terms};
use sizes::{Layout, Stopped};
use std::marker::Brand;
use std::mem;

// A script that is accepted: the layout of both buffers, how many awaits are reached, and the budget as charged.
#[derive(Clone, Copy, PartialEq, Eq, Debug)]
pub struct Judged {
    pub layout: Layout,
    pub awaits: usize,
    pub budget: FlowBudget,
}

// The early 10, then the graph, both rounds, and the checks of reads and awaits. `added` is a set of slots that are parameters beside the sheet's
// own, `records` how many block records are lent.
pub fn judge(
    sheet: &Sheet<'_>,
    added: &[u64],
    s: &mut [u64],
    t: &mut [u64],
    records: usize,
    limits: Limits,
    budget: FlowBudget,
) -> Result<Judged, Stopped>
    requires { limits.work < 2 ^ 64 - 1 }
    ensures { Judges sheet.now.bytes.now (parameter_with (parts_of sheet.now.bytes.now) added.now) sheet.now.script limits records budget s.old s.new t.old t.new result }
{
    if s.len() < 4 * sheet.script.count {
        return Err(Stopped {
            why: Refusal::NoRoom,
            budget,
        });
    }
    let (layout, left) = graph::graph(sheet, added, s, t, records, limits, budget)?;
    let mut scratch = Buffer { words: s };
    let mut sets = Buffer { words: t };
    solve::<Brand>(
        sheet,
        &mut scratch,
        &mut sets,
        Terms { layout },
        limits,
        left,
    )
}

// The words of both buffers as cells, and what is left to do in them.
fn solve<R: BoundedRun>(
    sheet: &Sheet<'_>,
    s: &mut Buffer<'_>,
    t: &mut Buffer<'_>,
    terms: Terms,
    limits: Limits,
    budget: FlowBudget,
) -> Result<Judged, Stopped>
    requires { (terms.layout ≡ R.layout) × (limits ≡ R.limits) × Lends R.scratch s.old.words × Lends R.sets t.old.words
        × (scratch_words terms.layout ≤ length s.old.words.now) × (sets_words terms.layout ≤ length t.old.words.now) × (limits.work < 2 ^ 64 - 1)
        × Begun sheet.now.bytes.now (held_set terms.layout (scratch terms.layout s.old.words.now)) sheet.now.script terms.layout
        (scratch terms.layout s.old.words.now) (sets terms.layout t.old.words.now) }
    ensures lent { Lends R.scratch s.new.words × Lends R.sets t.new.words }
    ensures solved { Solves sheet.now.bytes.now (held_set terms.layout (scratch terms.layout s.old.words.now)) sheet.now.script terms.layout limits budget
        (scratch terms.layout s.new.words.now) (sets terms.layout t.new.words.now) result }
{
    let layout = terms.layout;
    let mut cells = Scratch::<AsRun<R>>::new(mem::take(&mut s.words), ScratchTerms { layout });
    let mut kept = Sets::<AsRun<R>>::new(mem::take(&mut t.words), SetsTerms { layout });
    let judged = solve_cells(sheet, &mut cells, &mut kept, Meter::new(limits, budget));
    s.words = cells.into_words();
    t.words = kept.into_words();
    judged
}

// Both rounds, the row of the host slots where an await asks for it, then the checks of reads and awaits.
fn solve_cells<R: Run>(
    sheet: &Sheet<'_>,
    s: &mut Scratch<'_, R>,
    t: &mut Sets<'_, R>,
    meter: Meter<R>,
) -> Result<Judged, Stopped>
    requires { Begun sheet.now.bytes.now (held_set R.layout s.old) sheet.now.script R.layout s.old t.old × (R.limits.work < 2 ^ 64 - 1) }
    ensures { Solves sheet.now.bytes.now (held_set R.layout s.old) sheet.now.script R.layout R.limits meter s.new t.new result }
{
    let met = fixed_points::fixed_points(s, t, meter)?;
    hosts_if(sheet, s);
    let (awaits, left) = check_points::check_points(sheet, s, t, met)?;
    Ok(Judged {
        layout: s.layout(),
        awaits,
        budget: left.budget(),
    })
}

// Only an await asks for the row of the host slots.
fn hosts_if<R: Run>(sheet: &Sheet<'_>, s: &mut Scratch<'_, R>)
    requires { sheet.now.script.slots ≤ 64 * R.layout.words }
    ensures { Hosted sheet.now.bytes.now sheet.now.script R.layout s.old s.new }
{
    if sheet.script.awaits == 0 {
        return;
    }
    // Scratch is whole, as `layout` says.
    let _ = s.layout();
    hosts(sheet, s);
}

// The row of the host slots.
fn hosts<R: Run>(sheet: &Sheet<'_>, s: &mut Scratch<'_, R>)
    requires { sheet.now.script.slots ≤ 64 * R.layout.words }
    ensures { s.new ≡ store_cell s.old (hosts_row R.layout.blocks) (host_row (parts_of sheet.now.bytes.now) R.layout.words) }
{
    // The closure holds the parts: of one that holds a whole `Sheet` a proof knows nothing.
    let bytes = sheet.bytes;
    let script = sheet.script;
    s.change(
        SlotRow::Hosts,
        |row|
            requires { Sound bytes.now script × (script.slots ≤ 64 * length row.old) }
            ensures { row.new ≡ host_row (parts_of bytes.entry.now) (length row.old) }
        { sets::insert_hosts(&Sheet { bytes, script }, row) },
    );
}
