// The operands of one instruction leave a row, or join it.
ghost use Rattle.std.specs.Prelude.{◌≡◌, ◌*◌};
ghost use Rattle.operands.specs.Instructions.{output_in, inputs_left};
ghost use Rattle.memory.specs.Cells.{cell, store_cell};
ghost use Rattle.memory.specs.Named.{row_of, RowThere};
ghost use Rattle.bitset.specs.Below.{AllBelow};
ghost use Rattle.instructions.specs.Sets.{inserted_all};
ghost use Rattle.script.specs.Script.{list_of};
ghost use Rattle.awaits.specs.Awaits.{removed_all};

use memory::names::SlotRow;
use memory::scratch::Scratch;
use operands::instruction::Instruction;
use operands::iter::Inputs;
use run::Run;

// The output leaves it.
#[tactic(auto, using(crate::proofs::SlotLaws::taken), unfolding(crate::specs::Awaits::removed_all))]
pub fn remove_output<R: Run>(s: &mut Scratch<'_, R>, row: SlotRow, instruction: Instruction<'_>)
    requires { RowThere R.layout row × AllBelow (64 * R.layout.words) (list_of (output_in instruction)) }
    ensures { let k = row_of R.layout row in s.new ≡ store_cell s.old k (removed_all (list_of (output_in instruction.entry)) (cell s.old k)) }
{
    if let Some(slot) = instruction.output() {
        s.remove(row, slot.index());
    }
}

// The inputs join it.
#[tactic(auto, using(crate::proofs::SlotLaws::put_slots))]
pub fn insert_inputs<R: Run>(s: &mut Scratch<'_, R>, row: SlotRow, inputs: Inputs<'_>)
    requires { RowThere R.layout row × AllBelow (64 * R.layout.words) (inputs_left inputs) }
    ensures { let k = row_of R.layout row in s.new ≡ store_cell s.old k (inserted_all (inputs_left inputs.entry) (cell s.old k)) }
{
    for slot in inputs {
        s.insert(row, slot.index());
    }
}
