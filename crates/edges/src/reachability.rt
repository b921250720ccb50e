// `reachability` of flow.rs: a search with a stack, one charge an edge.
ghost use Rattle.std.specs.Prelude.{◌<◌};
ghost use Rattle.edges.specs.Edges.{Held};
ghost use Rattle.edges.specs.Reachability.{Reached};
ghost use Rattle.edges.specs.Stack.{Sweeping, Begun, Advanced, Entered};

use budget::OverWork;
use memory::names::Cell;
use memory::scratch::Scratch;
use run::Run;
use run::meter::Meter;

// Marks the blocks that a path from block 0 reaches.
pub fn reachability<R: Run>(s: &mut Scratch<'_, R>, meter: Meter<R>) -> Result<Meter<R>, OverWork>
    requires { (0 < R.layout.blocks) × Held R.layout s.old }
    ensures { Reached R.layout R.limits meter s.old s.new result }
{
    s.clear(Cell::Reachable);
    s.put(Cell::Reachable, 0, 1);
    s.put(Cell::StackBlock, 0, 0);
    sweep(s, meter)
}

// Takes blocks from the stack until it is empty: each block is taken once at most.
fn sweep<R: Run>(s: &mut Scratch<'_, R>, meter: Meter<R>) -> Result<Meter<R>, OverWork>
    requires { Held R.layout s.old × Begun R.layout s.old }
    ensures { Reached R.layout R.limits meter s.old s.new result }
{
    let mut left = meter;
    let mut top = 1;
    for _taken in 0..s.layout().blocks {
        if top == 0 {
            break;
        }
        let block = s.get(Cell::StackBlock, top - 1) as usize;
        (top, left) = push_successors(s, block, top - 1, left)?;
    }
    Ok(left)
}

// The successors of a block that has left the stack, of which top blocks remain: each is charged, marked and pushed unless it is marked.
fn push_successors<R: Run>(
    s: &mut Scratch<'_, R>,
    block: usize,
    top: usize,
    meter: Meter<R>,
) -> Result<(usize, Meter<R>), OverWork>
    requires { (block < R.layout.blocks) × Held R.layout s.old × Sweeping R.layout top s.old }
    ensures { Advanced R.layout R.limits meter block top s.old s.new result }
{
    let n = s.get(Cell::SuccessorCount, block) as usize;
    let mut left = meter;
    let mut high = top;
    for k in 0..n {
        left = left.charge(1)?;
        let to = s.successor(block, n, k) as usize;
        high = push(s, to, high);
    }
    Ok((high, left))
}

// Marks and pushes a block unless it is marked: how high the stack is then.
fn push<R: Run>(s: &mut Scratch<'_, R>, block: usize, top: usize) -> usize
    requires { (block < R.layout.blocks) × Sweeping R.layout top s.old }
    ensures { Entered R.layout block top s.old s.new result }
{
    if s.get(Cell::Reachable, block) != 0 {
        return top;
    }
    s.put(Cell::Reachable, block, 1);
    s.put(Cell::StackBlock, top, block as u64);
    top + 1
}
