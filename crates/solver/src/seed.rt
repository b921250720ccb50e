// The beginning of `propagate`: who waits, and who is marked.
ghost use Rattle.std.specs.Prelude.{◌≡◌, ◌≤◌, ◌<◌};
ghost use Rattle.solver.specs.Run.{place_of, cleared, seeded, in_ring};

use memory::names::Cell;
use memory::scratch::Scratch;
use run::Run;
use transfer::direction::Direction;

// Every reachable block is marked, and the first n of the order wait.
#[tactic(auto, unfolding(crate::specs::Run::seeded))]
pub fn seed<R: Run>(s: &mut Scratch<'_, R>, d: Direction, n: usize)
    requires { n ≤ R.layout.blocks }
    ensures { s.new ≡ seeded d R.layout n s.old }
{
    mark_reachable(s);
    queue(s, d, n);
}

// The marks are those of the reachable blocks; the ring is cleared of what was lent.
#[tactic(auto, unfolding(crate::specs::Run::cleared))]
fn mark_reachable<R: Run>(s: &mut Scratch<'_, R>)
    ensures { s.new ≡ cleared R.layout s.old }
{
    s.copy(Cell::Queued, Cell::Reachable);
    s.clear(Cell::Ring);
}

// The order from its back for initialization, from its front for liveness.
#[tactic(auto, using(crate::proofs::SeedLaws::place_below))]
fn queue<R: Run>(s: &mut Scratch<'_, R>, d: Direction, n: usize)
    requires { n ≤ R.layout.blocks }
    ensures { s.new ≡ in_ring d n s.old }
{
    for i in 0..n {
        let from = place(d, n, i);
        let block = s.get(Cell::Order, from);
        s.put(Cell::Ring, i, block);
    }
}

// Which of n blocks of the order comes i-th.
fn place(d: Direction, n: usize, i: usize) -> usize
    requires { i < n }
    ensures { result ≡ place_of d n i }
{
    match d {
        Direction::Initialization => n - 1 - i,
        Direction::Liveness => i,
    }
}
