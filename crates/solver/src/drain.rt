// The visits of `propagate`.
ghost use Rattle.std.specs.Prelude.{◌≡◌, [], ◌∷◌, ◌+◌, ◌*◌, ◌-◌, ◌^◌, ◌≤◌, ◌<◌};
ghost use Rattle.budget.specs.Budget.{charged};
ghost use Rattle.memory.specs.Edges.{neighbors, Connected};
ghost use Rattle.transfer.specs.Directions.{dependents_of};
ghost use Rattle.solver.specs.Run.{at_of, out_of, Tells, settled, visit_charge, visited, run, Good, Went, Idle};

use crate::ring::Ring;
use crate::{dependents, ring};
use budget::OverWork;
use memory::names::Cell;
use memory::scratch::Scratch;
use memory::sets::Sets;
use run::Run;
use run::meter::Meter;
use transfer::compute;
use transfer::direction::Direction;

// A charge and an offer for each block that a change concerns.
fn tell<R: Run>(
    s: &mut Scratch<'_, R>,
    from: Ring,
    d: Direction,
    block: usize,
    meter: Meter<R>,
) -> Result<(Ring, Meter<R>), OverWork>
    requires { (block < R.layout.blocks) × Good R.layout s.old from × (meter.work ≤ R.limits.work) × (R.limits.work < 2 ^ 64 - 1) }
    ensures { Tells R.layout R.limits (neighbors (dependents_of d) s.old block) s.old from meter s.new result }
{
    let n = dependents::count(s, d, block) as usize;
    let mut waiting = from;
    let mut left = meter;
    let mut edge = dependents::first(s, d, block) as usize;
    for k in 0..n {
        left = left.charge(1)?;
        let to = dependents::dependent(s, d, block, n, k, edge) as usize;
        edge = dependents::behind(s, d, edge) as usize;
        waiting = ring::offer(s, waiting, to);
    }
    Ok((waiting, left))
}

// The running row against the one that is kept.
fn settle<R: Run>(
    s: &mut Scratch<'_, R>,
    t: &mut Sets<'_, R>,
    from: Ring,
    d: Direction,
    block: usize,
    meter: Meter<R>,
) -> Result<(Ring, Meter<R>), OverWork>
    requires { (block < R.layout.blocks) × Good R.layout s.old from × (meter.work ≤ R.limits.work) × (R.limits.work < 2 ^ 64 - 1) }
    ensures { (out_of s.new t.new result ≡ settled d R.layout R.limits block (at_of s.old t.old from) meter) × Went R.layout R.limits meter.work (out_of s.new t.new result) }
{
    let kept = compute::kept(d, block);
    let running = compute::running(d);
    if t.same(kept, &s.view(), running) {
        return Ok((from, meter));
    }
    t.store(kept, &s.view(), running);
    tell(s, from, d, block, meter)
}

// What a visit is charged.
fn charge_visit<R: Run>(
    s: &Scratch<'_, R>,
    d: Direction,
    block: usize,
    meter: Meter<R>,
) -> Result<Meter<R>, OverWork>
    requires { (block < R.layout.blocks) × Connected R.layout s.now }
    ensures { result ≡ charged R.limits meter (visit_charge d R.layout s.now block ∷ []) }
{
    let read = s.edge_count(d.reads(), block);
    meter.charge(s.layout().words as u64 * (read + 3) + 1)
}

// A visit of the first block of the ring.
#[tactic(auto, using(crate::proofs::RunLaws::first_block, crate::proofs::RunLaws::unmarked_connected))]
fn visit<R: Run>(
    s: &mut Scratch<'_, R>,
    t: &mut Sets<'_, R>,
    from: Ring,
    d: Direction,
    meter: Meter<R>,
) -> Result<(Ring, Meter<R>), OverWork>
    requires { (0 < from.count) × Good R.layout s.old from × (meter.work ≤ R.limits.work) × (R.limits.work < 2 ^ 64 - 1) }
    ensures { (out_of s.new t.new result ≡ visited d R.layout R.limits (at_of s.old t.old from) meter) × Went R.layout R.limits (meter.work + 1) (out_of s.new t.new result) }
{
    let rest = Ring {
        head: ring::wrapped(s.layout(), from.head + 1),
        count: from.count - 1,
    };
    let block = s.get(Cell::Ring, from.head) as usize;
    s.put(Cell::Queued, block, 0);
    let left = charge_visit(s, d, block, meter)?;
    compute::compute(s, &t.view(), d, block);
    settle(s, t, rest, d, block, left)
}

// Visits until no block waits, or a charge crosses the limit.
// The limit is below the largest number: there sums saturate, every charge would be met, and the work would bound no visits.
pub fn drain<R: Run>(
    s: &mut Scratch<'_, R>,
    t: &mut Sets<'_, R>,
    from: Ring,
    d: Direction,
    meter: Meter<R>,
) -> Result<(Ring, Meter<R>), OverWork>
    requires { Good R.layout s.old from × (meter.work ≤ R.limits.work) × (R.limits.work < 2 ^ 64 - 1) }
    ensures { (out_of s.new t.new result ≡ run d R.layout R.limits (R.limits.work + 1 - meter.work) (at_of s.old t.old from) meter) × Idle (out_of s.new t.new result) }
{
    let mut waiting = from;
    let mut left = meter;
    // A worklist until it is empty: visits make blocks wait, so there is no range for a `for`.
    while 0 < waiting.count {
        (waiting, left) = visit(s, t, waiting, d, left)?;
    }
    Ok((waiting, left))
}
