// `fixed_points` of solver.rs: the postorder, then a round forwards and a round backwards.
#![tactic(auto)]

ghost use Rattle.std.specs.Prelude.{◌≡◌, ◌-◌, ◌^◌, ◌<◌, length};
ghost use Rattle.fixed_points.specs.FixedPoints.{Fixed};
ghost use Rattle.fixed_points.specs.Stages.{Flowing, Ready, RoundsDone};

use budget::OverWork;
use memory::scratch::Scratch;
use memory::sets::Sets;
use run::Run;
use run::meter::Meter;
use transfer::direction::Direction;

#[tactic(auto, using(crate::proofs::FixedLaws::fixed_on))]
pub fn fixed_points<R: Run>(
    s: &mut Scratch<'_, R>,
    t: &mut Sets<'_, R>,
    meter: Meter<R>,
) -> Result<Meter<R>, OverWork>
    requires { Flowing R.layout s.old × (R.limits.work < 2 ^ 64 - 1) }
    ensures { Fixed R.layout R.limits meter s.old s.new t.old t.new result }
{
    let (n, left) = order::postorder(s, meter)?;
    rounds(s, t, n, left)
}

// A round forwards, then a round backwards. Before each, scratch is as wide as the layout says, and holds words.
#[tactic(auto, using(crate::proofs::FixedLaws::rounds_on_as))]
fn rounds<R: Run>(
    s: &mut Scratch<'_, R>,
    t: &mut Sets<'_, R>,
    n: usize,
    meter: Meter<R>,
) -> Result<Meter<R>, OverWork>
    requires { Ready R.layout n s.old × (R.limits.work < 2 ^ 64 - 1) }
    ensures { RoundsDone R.layout R.limits meter n s.old s.new t.old t.new result }
{
    let _ = s.layout();
    let left = propagate::propagate(s, t, Direction::Initialization, n, meter)?;
    let _ = s.layout();
    propagate::propagate(s, t, Direction::Liveness, n, left)
}
