// The reads of one block, over the words of both buffers: what `check_points` of flow.rs does there from the front. Where a block begins and where it
// ends are two numbers here and in `awaits`, as its words hold them: each definition takes them apart.
#![tactic(auto)]

ghost use Rattle.std.specs.Prelude.{◌≡◌, not, ◌*◌, ◌≤◌, ◌<◌};
ghost use Rattle.dataflow.specs.Lists.{every};
ghost use Rattle.bitset.specs.Sets.{member};
ghost use Rattle.bitset.specs.Below.{AllBelow};
ghost use Rattle.operands.specs.Instructions.{inputs_left};
ghost use Rattle.memory.specs.Cells.{cell};
ghost use Rattle.memory.specs.Names.{state_row};
ghost use Rattle.sheet.specs.Decode.{parts_of};
ghost use Rattle.script.specs.Script.{flow_code};
ghost use Rattle.reads.specs.Reads.{held_set, Coded, Used, ReadsCharged, ReadsChecked};

use format::refusal::Refusal;
use instructions::checked::Sheet;
use instructions::placed;
use memory::names::{Cell, SlotRow};
use memory::scratch::Scratch;
use operands::iter::Inputs;
use run::Run;
use run::meter::Meter;
use sizes::Stopped;

// The reads of a block, the instructions from start to end; it answers with how many awaits are among them.
// Where what the block uses is initialized at its entry, every read is filled, and only the charges are left; else the first unfilled read is looked for.
pub fn block_reads<R: Run>(
    sheet: &Sheet<'_>,
    s: &mut Scratch<'_, R>,
    block: usize,
    start: usize,
    end: usize,
    meter: Meter<R>,
) -> Result<(usize, Meter<R>), Stopped>
    requires { (Coded sheet.now.bytes.now sheet.now.script R.layout s.old) × (block < R.layout.blocks) × (Used (flow_code (parts_of sheet.now.bytes.now)) (held_set R.layout s.old) block start end s.old) × (start ≤ end) × (end ≤ R.layout.instructions) }
    ensures { ReadsChecked (flow_code (parts_of sheet.now.bytes.now)) (held_set R.layout s.old) R.layout R.limits meter start end s.old s.new result }
{
    if bitset::within(s.row(SlotRow::Uses(block)), s.row(SlotRow::State)) {
        return charge_reads(sheet, s, start, end, meter);
    }
    check_reads(sheet, s, start, end, meter)
}

// The costs of the instructions from start to end, in order, and how many awaits there are. Most blocks take this loop, so it looks at no read.
#[tactic(auto, unfolding(crate::specs::Reads::front_run))]
fn charge_reads<R: Run>(
    sheet: &Sheet<'_>,
    s: &Scratch<'_, R>,
    start: usize,
    end: usize,
    meter: Meter<R>,
) -> Result<(usize, Meter<R>), Stopped>
    requires { (Coded sheet.now.bytes.now sheet.now.script R.layout s.now) × (start ≤ end) × (end ≤ R.layout.instructions) }
    ensures { ReadsCharged (flow_code (parts_of sheet.now.bytes.now)) R.limits meter start end result }
{
    let mut left = meter;
    let mut awaits = 0;
    for pc in start..end {
        left = left.charge(s.get(Cell::Cost, pc))?;
        let at = s.get(Cell::Offset, pc) as usize;
        awaits += placed::instruction_at(sheet.bytes, at).kind.is_await() as usize;
    }
    Ok((awaits, left))
}

// The instructions from start to end in order, up to the first unfilled read.
#[tactic(auto, unfolding(verdict::specs::Points::reads_run))]
fn check_reads<R: Run>(
    sheet: &Sheet<'_>,
    s: &mut Scratch<'_, R>,
    start: usize,
    end: usize,
    meter: Meter<R>,
) -> Result<(usize, Meter<R>), Stopped>
    requires { (Coded sheet.now.bytes.now sheet.now.script R.layout s.old) × (start ≤ end) × (end ≤ R.layout.instructions) }
    ensures { ReadsChecked (flow_code (parts_of sheet.now.bytes.now)) (held_set R.layout s.old) R.layout R.limits meter start end s.old s.new result }
{
    let mut left = meter;
    let mut awaits = 0;
    for pc in start..end {
        let cost = s.get(Cell::Cost, pc);
        left = left.charge(cost)?;
        let at = s.get(Cell::Offset, pc) as usize;
        let instruction = placed::instruction_at(sheet.bytes, at).instruction();
        if misses_input(s, instruction.inputs()) {
            return Err(Stopped {
                why: Refusal::UnfilledSlot,
                budget: left.budget(),
            });
        }
        blocks::transfer::insert_output(s, SlotRow::State, instruction);
        awaits += instruction.kind.is_await() as usize;
    }
    Ok((awaits, left))
}

// Whether one of the inputs is missing in the running state.
fn misses_input<R: Run>(s: &Scratch<'_, R>, inputs: Inputs<'_>) -> bool
    requires { AllBelow (64 * R.layout.words) (inputs_left inputs) }
    ensures { result ≡ not (every (member (cell s.now (state_row R.layout.blocks))) (inputs_left inputs.entry)) }
{
    for slot in inputs {
        if !s.contains(SlotRow::State, slot.index()) {
            return true;
        }
    }
    false
}
