// `propagate` of solver.rs: one round, in either direction.
#![tactic(auto)]

ghost use Rattle.std.specs.Prelude.{◌≡◌, ◌-◌, ◌^◌, ◌<◌, length};
ghost use Rattle.propagate.specs.Rounds.{Seedable, Propagated};

use budget::OverWork;
use memory::scratch::Scratch;
use memory::sets::Sets;
use run::Run;
use run::meter::Meter;
use solver::ring::Ring;
use solver::{drain, seed};
use transfer::direction::Direction;

// `n` is how many blocks the order has.
#[tactic(auto, using(crate::proofs::RoundLaws::propagated_over_as))]
pub fn propagate<R: Run>(
    s: &mut Scratch<'_, R>,
    t: &mut Sets<'_, R>,
    d: Direction,
    n: usize,
    meter: Meter<R>,
) -> Result<Meter<R>, OverWork>
    requires { Seedable R.layout s.old n × (R.limits.work < 2 ^ 64 - 1) }
    ensures { Propagated d R.layout R.limits meter n s.old s.new t.old t.new result }
{
    // Each row of the sets is as wide as the layout says.
    let _ = t.layout();
    let left = meter.charge(s.layout().blocks as u64 + n as u64)?;
    seed::seed(s, d, n);
    let (_, rest) = drain::drain(s, t, Ring { head: 0, count: n }, d, left)?;
    Ok(rest)
}
