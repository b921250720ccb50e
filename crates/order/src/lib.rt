// `postorder` of solver.rs: a depth-first search from block 0, one charge a turn, over the words of scratch.
#![tactic(auto)]

ghost use Rattle.std.specs.Prelude.{◌<◌, ◌≤◌};
ghost use Rattle.memory.specs.Cells.{cell};
ghost use Rattle.memory.specs.Frame.{Only, NoRow};
ghost use Rattle.memory.specs.Names.{visited_cell};
ghost use Rattle.edges.specs.Edges.{Held};
ghost use Rattle.order.specs.Postorder.{search_cells, Searched};
ghost use Rattle.order.specs.Turns.{marks, Good, Begun, Facing, Entered, Turned, Looked, Resumed};

use budget::OverWork;
use memory::names::Cell;
use memory::scratch::Scratch;
use run::Run;
use run::meter::Meter;

// How many frames are on the stack, and how many blocks are finished.
#[derive(Clone, Copy, PartialEq, Eq, Debug)]
pub struct Walk {
    pub top: usize,
    pub len: usize,
}

// The blocks that a path from block 0 reaches, in postorder: how many there are, and the budget to go on with.
pub fn postorder<R: Run>(
    s: &mut Scratch<'_, R>,
    meter: Meter<R>,
) -> Result<(usize, Meter<R>), OverWork>
    requires { (0 < R.layout.blocks) × Held R.layout s.old }
    ensures { Searched R.layout R.limits meter s.old s.new result }
{
    let left = meter.charge(3 * s.layout().blocks as u64)?;
    start(s);
    search(s, left)
}

// Block 0 alone is visited and on the stack.
fn start<R: Run>(s: &mut Scratch<'_, R>)
    requires { 0 < R.layout.blocks }
    ensures { Begun R.layout s.new × Only search_cells NoRow s.old s.new }
{
    s.clear(Cell::Visited);
    s.put(Cell::Visited, 0, 1);
    s.put(Cell::StackBlock, 0, 0);
    s.put(Cell::StackEdge, 0, 0);
}

// Turns until the stack is empty: one for each block and one for each edge.
fn search<R: Run>(s: &mut Scratch<'_, R>, meter: Meter<R>) -> Result<(usize, Meter<R>), OverWork>
    requires { (0 < R.layout.blocks) × Held R.layout s.old × Begun R.layout s.old }
    ensures { Resumed R.layout R.limits meter s.old s.new result }
{
    let y = s.layout();
    let bound = 3 * y.blocks + y.extra;
    let mut left = meter;
    let mut walk = Walk { top: 1, len: 0 };
    for _turn in 0..bound {
        if walk.top == 0 {
            break;
        }
        left = left.charge(1)?;
        walk = advance(s, walk);
        let _ = s.layout();
    }
    Ok((walk.len, left))
}

// One turn with the frame on top: its next edge, or, if there is none, the block is finished.
fn advance<R: Run>(s: &mut Scratch<'_, R>, walk: Walk) -> Walk
    requires { (0 < walk.top) × Held R.layout s.old × Good R.layout s.old walk.top walk.len }
    ensures { Turned R.layout s.old s.new walk.top walk.len result.top result.len }
{
    let Walk { top, len } = walk;
    // Each block on the stack or finished is marked, so there are no more of them than blocks, as many as `layout` says.
    let _ = s.layout();
    let block = s.get(Cell::StackBlock, top - 1) as usize;
    let edge = s.get(Cell::StackEdge, top - 1) as usize;
    let n = s.get(Cell::SuccessorCount, block) as usize;
    if edge < n {
        return Walk {
            top: look(s, block, n, edge, top),
            len,
        };
    }
    s.put(Cell::Order, len, block as u64);
    Walk {
        top: top - 1,
        len: len + 1,
    }
}

// The next edge of the n that the frame's block has: its block joins the stack unless it is visited. How many frames there are then.
#[tactic(auto, using(crate::proofs::TurnLaws::look_room))]
fn look<R: Run>(s: &mut Scratch<'_, R>, block: usize, n: usize, edge: usize, top: usize) -> usize
    requires { Facing R.layout s.old top block n edge }
    ensures { Looked R.layout s.old s.new top result }
{
    let _ = s.layout();
    s.put(Cell::StackEdge, top - 1, edge as u64 + 1);
    let to = s.successor(block, n, edge) as usize;
    enter(s, to, top)
}

// A frame for a block that is not visited yet. How many frames there are then.
#[tactic(auto, using(crate::proofs::TurnLaws::enter_room))]
fn enter<R: Run>(s: &mut Scratch<'_, R>, block: usize, top: usize) -> usize
    requires { (block < R.layout.blocks) × (top ≤ marks (cell s.old visited_cell)) }
    ensures { Entered R.layout s.old s.new block top result }
{
    if s.get(Cell::Visited, block) != 0 {
        return top;
    }
    s.put(Cell::Visited, block, 1);
    s.put(Cell::StackBlock, top, block as u64);
    s.put(Cell::StackEdge, top, 0);
    top + 1
}
