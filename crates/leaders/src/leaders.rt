// The first loop of `graph` in flow.rs: a charge an instruction, its offset noted, and the leaders marked.
ghost use Rattle.std.specs.Prelude.{◌≡◌, ◌<◌};
ghost use Rattle.operands.specs.Kinds.{kind_number, ends_block};
ghost use Rattle.operands.specs.Instructions.{targets_in};
ghost use Rattle.bitset.specs.Below.{AllBelow};
ghost use Rattle.leaders.specs.Leaders.{marking, marked_by, Begun, Leads};

use budget::OverWork;
use instructions::checked::Sheet;
use instructions::placed;
use memory::names::Cell;
use memory::scratch::Scratch;
use operands::instruction::Instruction;
use run::Run;
use run::meter::Meter;

// Marks the leaders of a script.
pub fn leaders<R: Run>(
    sheet: &Sheet<'_>,
    s: &mut Scratch<'_, R>,
    meter: Meter<R>,
) -> Result<Meter<R>, OverWork>
    requires { R.layout ≡ marking sheet.now.script }
    ensures { Leads sheet.now.bytes.now sheet.now.script R.limits meter s.old s.new result }
{
    s.clear(Cell::BlockOf);
    s.put(Cell::BlockOf, 0, 1);
    mark_all(sheet, s, meter)
}

// Each instruction in order, charged before it is looked at.
fn mark_all<R: Run>(
    sheet: &Sheet<'_>,
    s: &mut Scratch<'_, R>,
    meter: Meter<R>,
) -> Result<Meter<R>, OverWork>
    requires { (R.layout ≡ marking sheet.now.script) × Begun sheet.now.script s.old }
    ensures { Leads sheet.now.bytes.now sheet.now.script R.limits meter s.old s.new result }
{
    let mut left = meter;
    let mut at = sheet.script.code_at;
    for pc in 0..sheet.script.count {
        left = left.charge(1)?;
        let p = placed::instruction_at(sheet.bytes, at);
        s.put(Cell::Offset, pc, at as u64);
        mark(s, pc, p.instruction());
        at = p.next;
    }
    Ok(left)
}

// What instruction pc marks: if it ends a block, its targets and what follows it.
#[tactic(auto, using(crate::proofs::MarkLaws::targets_more))]
fn mark<R: Run>(s: &mut Scratch<'_, R>, pc: usize, instruction: Instruction<'_>)
    requires { (AllBelow R.layout.instructions (targets_in instruction)) × (pc < R.layout.instructions) }
    ensures { s.new ≡ marked_by (ends_block (kind_number instruction.entry.kind)) (targets_in instruction.entry) R.layout.instructions pc s.old }
{
    if instruction.kind.ends_block() {
        for target in instruction.targets() {
            s.put(Cell::BlockOf, target.index(), 1);
        }
        if pc + 1 < s.layout().instructions {
            s.put(Cell::BlockOf, pc + 1, 1);
        }
    }
}
