// The awaits of one block, over the words of both buffers: what `check_points` of flow.rs does there from the back.
#![tactic(auto)]

pub mod slots;

ghost use Rattle.std.specs.Prelude.{◌≡◌, true, ◌+◌, ◌≤◌, ◌<◌};
ghost use Rattle.operands.specs.Kinds.{is_await};
ghost use Rattle.dataflow.specs.Code.{await_at};
ghost use Rattle.sheet.specs.Decode.{parts_of};
ghost use Rattle.script.specs.Script.{flow_code};
ghost use Rattle.reads.specs.Reads.{Coded, awaits_among};
ghost use Rattle.awaits.specs.Awaits.{AwaitChecked, InstructionChecked, AwaitsChecked, ChargedBack};

use format::refusal::Refusal;
use instructions::checked::Sheet;
use instructions::placed;
use memory::names::{Cell, SlotRow};
use memory::scratch::Scratch;
use memory::sets::Sets;
use memory::views::ScratchView;
use operands::kinds;
use run::Run;
use run::meter::Meter;
use sizes::Stopped;

// The awaits among the instructions from start to end, from the back; their facts are put before entry `place`.
// Like each check here, it answers with the entry that the next await before them is put before.
#[tactic(auto, unfolding(verdict::specs::Points::awaits_run, verdict::specs::Points::await_points))]
pub fn check_awaits<R: Run>(
    sheet: &Sheet<'_>,
    s: &mut Scratch<'_, R>,
    t: &mut Sets<'_, R>,
    start: usize,
    end: usize,
    place: usize,
    meter: Meter<R>,
) -> Result<(usize, Meter<R>), Stopped>
    requires { (Coded sheet.now.bytes.now sheet.now.script R.layout s.old) × (start ≤ end) × (end ≤ R.layout.instructions)
        × (awaits_among (flow_code (parts_of sheet.now.bytes.now)) start end ≤ place) × (place ≤ R.layout.awaits) }
    ensures { AwaitsChecked sheet.now.bytes.now sheet.now.script R.layout R.limits meter start end place s.old s.new t.old t.new result }
{
    let mut left = meter;
    let mut next = place;
    for pc in (start..end).rev() {
        let (n, paid) = check_instruction(sheet, s, t, pc, next, left)?;
        next = n;
        left = paid;
    }
    Ok((next, left))
}

// The costs from start to end, from the back: all that is charged where there is no await. Most blocks take this loop, so it reads no instruction.
#[tactic(auto, unfolding(crate::specs::Awaits::back_run))]
pub fn charge_back<R: Run>(
    s: &ScratchView<'_, R>,
    start: usize,
    end: usize,
    place: usize,
    meter: Meter<R>,
) -> Result<(usize, Meter<R>), Stopped>
    requires { (start ≤ end) × (end ≤ R.layout.instructions) }
    ensures { ChargedBack R.limits meter start end place s.now result }
{
    let mut left = meter;
    for pc in (start..end).rev() {
        left = left.charge(s.get(Cell::Cost, pc))?;
    }
    Ok((place, left))
}

// One instruction: its cost is charged, the live row becomes the one before it, and an await is checked there.
fn check_instruction<R: Run>(
    sheet: &Sheet<'_>,
    s: &mut Scratch<'_, R>,
    t: &mut Sets<'_, R>,
    pc: usize,
    place: usize,
    meter: Meter<R>,
) -> Result<(usize, Meter<R>), Stopped>
    requires { (Coded sheet.now.bytes.now sheet.now.script R.layout s.old) × (pc < R.layout.instructions)
        × (await_at (flow_code (parts_of sheet.now.bytes.now)) pc ≡ true → 0 < place) × (place ≤ R.layout.awaits) }
    ensures { InstructionChecked sheet.now.bytes.now sheet.now.script R.layout R.limits meter pc place s.old s.new t.old t.new result }
{
    let cost = s.get(Cell::Cost, pc);
    let left = meter.charge(cost)?;
    let at = s.get(Cell::Offset, pc) as usize;
    let instruction = placed::instruction_at(sheet.bytes, at).instruction();
    slots::remove_output(s, SlotRow::LiveState, instruction);
    slots::insert_inputs(s, SlotRow::LiveState, instruction.inputs());
    check_point(
        &s.view(),
        t,
        sheet.script.slots,
        instruction.kind.number(),
        pc,
        place,
        left,
    )
}

// An instruction that is no await passes.
pub fn check_point<R: Run>(
    s: &ScratchView<'_, R>,
    t: &mut Sets<'_, R>,
    slots: usize,
    kind: usize,
    pc: usize,
    place: usize,
    meter: Meter<R>,
) -> Result<(usize, Meter<R>), Stopped>
    requires { (is_await kind ≡ true → 0 < place) × (place ≤ R.layout.awaits) }
    ensures { AwaitChecked (is_await kind) R.layout R.limits slots meter pc place s.now t.old t.new result }
{
    if kinds::is_await(kind) {
        return check_await(s, t, slots, pc, place - 1, meter);
    }
    Ok((place, meter))
}

// An await: the slot count is charged, then 14, then its facts are retained, 15, and put.
fn check_await<R: Run>(
    s: &ScratchView<'_, R>,
    t: &mut Sets<'_, R>,
    slots: usize,
    pc: usize,
    place: usize,
    meter: Meter<R>,
) -> Result<(usize, Meter<R>), Stopped>
    requires { place < R.layout.awaits }
    ensures { AwaitChecked true R.layout R.limits slots meter pc (place + 1) s.now t.old t.new result }
{
    let hosts = s.row(SlotRow::Hosts);
    let live = s.row(SlotRow::LiveState);
    let paid = meter.charge(slots as u64)?;
    if bitset::common(hosts, live) {
        return Err(Stopped {
            why: Refusal::HostOverAwait,
            budget: paid.budget(),
        });
    }
    let kept = paid.retain(budget::facts_bytes(t.layout().words))?;
    t.put_await(place, pc as u64, s, SlotRow::LiveState);
    Ok((place, kept))
}
