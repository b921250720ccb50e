// The ring of waiting blocks, in the cells RING and QUEUED.
ghost use Rattle.std.specs.Prelude.{◌≡◌, ◌+◌, ◌≤◌, ◌<◌};
ghost use Rattle.solver.specs.Run.{wrap, Pushes, Offers};

use memory::names::Cell;
use memory::scratch::Scratch;
use run::Run;
use sizes::Layout;

// Where the first of the waiting blocks stands, and how many wait.
#[derive(Clone, Copy, PartialEq, Eq, Debug)]
pub struct Ring {
    pub head: usize,
    pub count: usize,
}

// A place of the ring: behind the last one comes the first.
pub fn wrapped(y: Layout, at: usize) -> usize
    ensures { result ≡ wrap y at }
{
    if at < y.blocks { at } else { at - y.blocks }
}

// A block joins the ring, with its mark.
#[tactic(auto, unfolding(crate::specs::Run::pushed))]
fn push<R: Run>(s: &mut Scratch<'_, R>, ring: Ring, block: usize) -> Ring
    requires { (block < R.layout.blocks) × (ring.head < R.layout.blocks) × (ring.count ≤ R.layout.blocks) }
    ensures { Pushes R.layout block s.old ring s.new result }
{
    s.put(Cell::Queued, block, 1);
    let at = wrapped(s.layout(), ring.head + ring.count);
    s.put(Cell::Ring, at, block as u64);
    Ring {
        head: ring.head,
        count: ring.count + 1,
    }
}

// The same if it is reachable and has no mark.
#[tactic(auto, using(crate::proofs::RingLaws::offer_unreachable, crate::proofs::RingLaws::offer_marked))]
pub fn offer<R: Run>(s: &mut Scratch<'_, R>, ring: Ring, block: usize) -> Ring
    requires { (block < R.layout.blocks) × (ring.head < R.layout.blocks) × (ring.count ≤ R.layout.blocks) }
    ensures { Offers R.layout block s.old ring s.new result }
{
    if s.get(Cell::Reachable, block) == 0 {
        return ring;
    }
    if s.get(Cell::Queued, block) != 0 {
        return ring;
    }
    push(s, ring, block)
}
