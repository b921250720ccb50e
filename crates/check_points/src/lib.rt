// `check_points` of flow.rs over the words of both buffers: the reachable blocks by start, at each the reads, then the awaits.
#![tactic(auto)]

ghost use Rattle.std.specs.Prelude.{◌≡◌, true, length};
ghost use Rattle.dataflow.specs.Results.{reachable};
ghost use Rattle.reads.specs.Reads.{held_set};
ghost use Rattle.check_points.specs.CheckPoints.{code_of, Solved, Facing, Counted, FoundChecked, BlockChecked, PointsChecked};

use instructions::checked::Sheet;
use memory::names::Cell;
use memory::scratch::Scratch;
use memory::sets::Sets;
use run::Run;
use run::meter::Meter;
use sizes::Stopped;
use transfer::compute;
use transfer::direction::Direction;

// How many awaits are reached.
pub fn check_points<R: Run>(
    sheet: &Sheet<'_>,
    s: &mut Scratch<'_, R>,
    t: &mut Sets<'_, R>,
    meter: Meter<R>,
) -> Result<(usize, Meter<R>), Stopped>
    requires { (Solved sheet.now.bytes.now (held_set R.layout s.old) sheet.now.script R.layout s.old t.old) }
    ensures { PointsChecked sheet.now.bytes.now (held_set R.layout s.old) sheet.now.script R.layout R.limits meter s.old s.new t.old t.new result }
{
    let mut left = meter;
    let mut place = 0;
    for block in 0..s.layout().blocks {
        let (next, paid) = check_block(sheet, s, t, block, place, left)?;
        place = next;
        left = paid;
    }
    Ok((place, left))
}

// The mark of a block that no path reaches: a number, since lent words hold numbers alone.
const UNREACHABLE: u64 = 0;

// A block that is not reachable passes.
fn check_block<R: Run>(
    sheet: &Sheet<'_>,
    s: &mut Scratch<'_, R>,
    t: &mut Sets<'_, R>,
    block: usize,
    place: usize,
    meter: Meter<R>,
) -> Result<(usize, Meter<R>), Stopped>
    requires { (Facing sheet.now.bytes.now (held_set R.layout s.old) sheet.now.script R.layout block place s.old t.old) }
    ensures { BlockChecked sheet.now.bytes.now (held_set R.layout s.old) sheet.now.script R.layout R.limits meter block place s.old s.new t.old t.new result }
{
    if s.get(Cell::Reachable, block) == UNREACHABLE {
        return Ok((place, meter));
    }
    check_reached(sheet, s, t, block, place, meter)
}

// The reads from what is initialized at the entry, then the awaits.
fn check_reached<R: Run>(
    sheet: &Sheet<'_>,
    s: &mut Scratch<'_, R>,
    t: &mut Sets<'_, R>,
    block: usize,
    place: usize,
    meter: Meter<R>,
) -> Result<(usize, Meter<R>), Stopped>
    requires { (Facing sheet.now.bytes.now (held_set R.layout s.old) sheet.now.script R.layout block place s.old t.old) × (reachable (code_of sheet.now.bytes.now) block ≡ true) }
    ensures { BlockChecked sheet.now.bytes.now (held_set R.layout s.old) sheet.now.script R.layout R.limits meter block place s.old s.new t.old t.new result }
{
    // Both buffers are whole, as `layout` says.
    let _ = (s.layout(), t.layout());
    compute::gather(s, &t.view(), Direction::Initialization, block);
    let start = s.get(Cell::Start, block) as usize;
    let end = s.get(Cell::End, block) as usize;
    let (found, left) = reads::block_reads(sheet, s, block, start, end, meter)?;
    check_found(sheet, s, t, block, start, end, place, found, left)
}

// Where no await was found only the costs are charged.
fn check_found<R: Run>(
    sheet: &Sheet<'_>,
    s: &mut Scratch<'_, R>,
    t: &mut Sets<'_, R>,
    block: usize,
    start: usize,
    end: usize,
    place: usize,
    found: usize,
    meter: Meter<R>,
) -> Result<(usize, Meter<R>), Stopped>
    requires { (Counted sheet.now.bytes.now (held_set R.layout s.old) sheet.now.script R.layout block start end place found s.old t.old) }
    ensures { FoundChecked sheet.now.bytes.now (held_set R.layout s.old) sheet.now.script R.layout R.limits meter block place found s.old s.new t.old t.new result }
{
    if found == 0 {
        return awaits::charge_back(&s.view(), start, end, place, meter);
    }
    check_leaving(sheet, s, t, block, start, end, place, found, meter)
}

// The awaits from what is live at the exit; so many more are reached up to the end of the block.
fn check_leaving<R: Run>(
    sheet: &Sheet<'_>,
    s: &mut Scratch<'_, R>,
    t: &mut Sets<'_, R>,
    block: usize,
    start: usize,
    end: usize,
    place: usize,
    found: usize,
    meter: Meter<R>,
) -> Result<(usize, Meter<R>), Stopped>
    requires { (Counted sheet.now.bytes.now (held_set R.layout s.old) sheet.now.script R.layout block start end place found s.old t.old) }
    ensures { FoundChecked sheet.now.bytes.now (held_set R.layout s.old) sheet.now.script R.layout R.limits meter block place found s.old s.new t.old t.new result }
{
    // Both buffers are whole, as `layout` says.
    let _ = (s.layout(), t.layout());
    compute::gather(s, &t.view(), Direction::Liveness, block);
    let next = place + found;
    let (_, left) = awaits::check_awaits(sheet, s, t, start, end, next, meter)?;
    Ok((next, left))
}
