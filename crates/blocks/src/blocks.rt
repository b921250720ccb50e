// The blocks, by start.
ghost use Rattle.std.specs.Prelude.{◌≡◌, ◌<◌, replicate};
ghost use Rattle.bitset.specs.Sets.{ones};
ghost use Rattle.memory.specs.Cells.{store_cell};
ghost use Rattle.memory.specs.Names.{uses_row, defines_row, initialized_row, live_row};
ghost use Rattle.script.specs.Script.{flow_code};
ghost use Rattle.sheet.specs.Decode.{parts_of};
ghost use Rattle.blocks.specs.Blocks.{Ready, Built, BuiltOne};

use crate::{span, successors, transfer};
use budget::OverWork;
use instructions::checked::Sheet;
use instructions::placed;
use memory::names::{BlockSet, Cell, SlotRow};
use memory::scratch::Scratch;
use memory::sets::Sets;
use run::Run;
use run::meter::Meter;

// The second loop of `graph`.
#[tactic(auto, using(crate::proofs::BuildLaws::building_ready))]
pub fn blocks<R: Run>(
    sheet: &Sheet<'_>,
    s: &mut Scratch<'_, R>,
    t: &mut Sets<'_, R>,
    meter: Meter<R>,
) -> Result<Meter<R>, OverWork>
    requires { Ready sheet.now.bytes.now sheet.now.script R.layout s.old }
    ensures { Built (flow_code (parts_of sheet.now.bytes.now)) R.layout R.limits meter s.old s.new t.old t.new result }
{
    let mut left = meter;
    for index in 0..t.layout().blocks {
        fresh(t, index);
        left = block(sheet, s, index, left)?;
    }
    Ok(left)
}

// One block: its span, its edges, its two rows from nothing.
fn block<R: Run>(
    sheet: &Sheet<'_>,
    s: &mut Scratch<'_, R>,
    index: usize,
    meter: Meter<R>,
) -> Result<Meter<R>, OverWork>
    requires { (Ready sheet.now.bytes.now sheet.now.script R.layout s.old) × (index < R.layout.blocks) }
    ensures { BuiltOne (flow_code (parts_of sheet.now.bytes.now)) R.limits meter index s.old s.new result }
{
    span::span(s, index);
    empty(s, index);
    let start = s.get(Cell::Start, index) as usize;
    let end = s.get(Cell::End, index) as usize;
    let at = s.get(Cell::Offset, end - 1) as usize;
    let last = placed::instruction_at(sheet.bytes, at).instruction();
    successors::successors(s, index, last, end);
    transfer::transfer(sheet, s, index, start, end, meter)
}

// Nothing is used or defined yet.
fn empty<R: Run>(s: &mut Scratch<'_, R>, index: usize)
    requires { index < R.layout.blocks }
    ensures { s.new ≡ store_cell (store_cell s.old (uses_row index) (replicate R.layout.words 0)) (defines_row index) (replicate R.layout.words 0) }
{
    s.fill(SlotRow::Uses(index), 0);
    s.fill(SlotRow::Defines(index), 0);
}

// The block's sets as the source begins them.
fn fresh<R: Run>(t: &mut Sets<'_, R>, index: usize)
    requires { index < R.layout.blocks }
    ensures { t.new ≡ store_cell (store_cell t.old (initialized_row index) (replicate R.layout.words ones)) (live_row index) (replicate R.layout.words 0) }
{
    t.fill(BlockSet::Initialized(index), u64::MAX);
    t.fill(BlockSet::Live(index), 0);
}
