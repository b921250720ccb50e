// What a block uses and what it defines, instruction by instruction, each charged its inputs and one more.
ghost use Rattle.std.specs.Prelude.{◌≡◌, ◌*◌, ◌≤◌, ◌<◌};
ghost use Rattle.bitset.specs.Sets.{member};
ghost use Rattle.bitset.specs.Operations.{inserted};
ghost use Rattle.dataflow.specs.Lists.{pick};
ghost use Rattle.operands.specs.Instructions.{output_in, inputs_left};
ghost use Rattle.memory.specs.Cells.{cell, store_cell};
ghost use Rattle.memory.specs.Named.{row_of, RowThere};
ghost use Rattle.memory.specs.Names.{uses_row, defines_row};
ghost use Rattle.bitset.specs.Below.{AllBelow};
ghost use Rattle.instructions.specs.Sets.{inserted_all};
ghost use Rattle.script.specs.Script.{list_of, flow_code};
ghost use Rattle.sheet.specs.Decode.{parts_of};
ghost use Rattle.blocks.specs.Rows.{used_in, Transferred};
ghost use Rattle.blocks.specs.Blocks.{Ready};

use budget::OverWork;
use instructions::checked::Sheet;
use instructions::placed;
use memory::names::{Cell, SlotRow};
use memory::scratch::Scratch;
use operands::instruction::Instruction;
use operands::iter::Inputs;
use run::Run;
use run::meter::Meter;

// The instructions from start to end, in order.
#[tactic(auto, using(crate::proofs::TransferLaws::transferred_all))]
pub fn transfer<R: Run>(
    sheet: &Sheet<'_>,
    s: &mut Scratch<'_, R>,
    block: usize,
    start: usize,
    end: usize,
    meter: Meter<R>,
) -> Result<Meter<R>, OverWork>
    requires { (Ready sheet.now.bytes.now sheet.now.script R.layout s.old) × (block < R.layout.blocks) × (start ≤ end) × (end ≤ R.layout.instructions) }
    ensures { Transferred (flow_code (parts_of sheet.now.bytes.now)) R.limits meter block start end s.old s.new result }
{
    let mut left = meter;
    for pc in start..end {
        let at = s.get(Cell::Offset, pc) as usize;
        let instruction = placed::instruction_at(sheet.bytes, at).instruction();
        let inputs = instruction.inputs();
        let cost = inputs.len() as u64 + 1;
        s.put(Cell::Cost, pc, cost);
        left = left.charge(cost)?;
        use_inputs(s, block, inputs);
        insert_output(s, SlotRow::Defines(block), instruction);
    }
    Ok(left)
}

// Each input is used unless it is defined already.
#[tactic(auto, using(crate::proofs::UseLaws::used_more, crate::proofs::UseLaws::used_all))]
fn use_inputs<R: Run>(s: &mut Scratch<'_, R>, block: usize, inputs: Inputs<'_>)
    requires { (block < R.layout.blocks) × AllBelow (64 * R.layout.words) (inputs_left inputs) }
    ensures { s.new ≡ store_cell s.old (uses_row block) (used_in (cell s.old (defines_row block)) (inputs_left inputs.entry) (cell s.old (uses_row block))) }
{
    for slot in inputs {
        insert_unless(
            s,
            SlotRow::Uses(block),
            SlotRow::Defines(block),
            slot.index(),
        );
    }
}

// Puts the slot into a row unless it is in another.
fn insert_unless<R: Run>(s: &mut Scratch<'_, R>, row: SlotRow, other: SlotRow, slot: usize)
    requires { RowThere R.layout row × RowThere R.layout other × (slot < 64 * R.layout.words) }
    ensures { let k = row_of R.layout row in
        s.new ≡ store_cell s.old k (pick (member (cell s.old (row_of R.layout other)) slot) (cell s.old k) (inserted (cell s.old k) slot)) }
{
    if !s.contains(other, slot) {
        s.insert(row, slot);
    }
}

// The output of an instruction joins a row.
#[tactic(auto, unfolding(instructions::specs::Sets::inserted_all))]
pub fn insert_output<R: Run>(s: &mut Scratch<'_, R>, row: SlotRow, instruction: Instruction<'_>)
    requires { RowThere R.layout row × AllBelow (64 * R.layout.words) (list_of (output_in instruction)) }
    ensures { s.new ≡ store_cell s.old (row_of R.layout row) (inserted_all (list_of (output_in instruction.entry)) (cell s.old (row_of R.layout row))) }
{
    if let Some(slot) = instruction.output() {
        s.insert(row, slot.index());
    }
}
