// The first half of `graph` in flow.rs: the blocks are counted, then comes the state limit (11), then what the lent buffers are short of (10).
#![tactic(auto)]

ghost use Rattle.std.specs.Prelude.{◌≡◌, ◌*◌, ◌≤◌, length};
ghost use Rattle.leaders.specs.Leaders.{marking};
ghost use Rattle.memory.specs.Buffer.{Lends};
ghost use Rattle.rooms.specs.Rooms.{IndexBuilt, Counted, Measured};

use budget::{FlowBudget, Limits, OverWork};
use instructions::checked::Sheet;
use memory::buffer::Buffer;
use memory::scratch::Scratch;
use run::Run;
use run::bounded::{AsRun, BoundedRun};
use run::meter::Meter;
use run::terms::{ScratchTerms, Terms};
use sizes::{Layout, Lent, Stopped};
use std::marker::Brand;
use std::mem;

// The leaders marked and the blocks numbered: how many blocks there are.
fn index<R: Run>(
    sheet: &Sheet<'_>,
    s: &mut Scratch<'_, R>,
    meter: Meter<R>,
) -> Result<(usize, Meter<R>), OverWork>
    requires { R.layout ≡ marking sheet.now.script }
    ensures { IndexBuilt sheet.now.bytes.now sheet.now.script R.limits meter s.new result }
{
    let left = leaders::leaders::leaders(sheet, s, meter)?;
    let blocks = leaders::number::number(s);
    Ok((blocks, left))
}

// The blocks counted, in the layout of the marks, then the rooms.
fn count<R: BoundedRun>(
    sheet: &Sheet<'_>,
    scratch: &mut Buffer<'_>,
    marks: Terms,
    lent: Lent,
    limits: Limits,
    budget: FlowBudget,
) -> Result<(Layout, FlowBudget), Stopped>
    requires { (marks.layout ≡ R.layout) × (R.layout ≡ marking sheet.now.script) × (limits ≡ R.limits) × Lends R.scratch scratch.old.words
        × (4 * sheet.now.script.count ≤ length scratch.old.words.now) }
    ensures lent { Lends R.scratch scratch.new.words }
    ensures counted { Counted sheet.now.bytes.now sheet.now.script limits lent budget scratch.old.words.now scratch.new.words.now result }
{
    let length = scratch.words.len();
    let layout = marks.layout;
    let mut s = Scratch::<AsRun<R>>::new(mem::take(&mut scratch.words), ScratchTerms { layout });
    let indexed = index(sheet, &mut s, Meter::new(limits, budget));
    scratch.words = s.into_words();
    let (blocks, left) = indexed?;
    sizes::rooms(
        Layout::of(sheet.script, blocks),
        length,
        lent,
        limits,
        left.budget(),
    )
}

// The charge 0 of the availability index over no ranges, then the count. A budget that is above the limit when it is handed in ends here.
pub fn measure(
    sheet: &Sheet<'_>,
    words: &mut [u64],
    lent: Lent,
    limits: Limits,
    budget: FlowBudget,
) -> Result<(Layout, FlowBudget), Stopped>
    requires { 4 * sheet.now.script.count ≤ length words.old }
    ensures { Measured sheet.now.bytes.now sheet.now.script limits lent budget words.old words.new result }
{
    let left = budget.charge(0, limits)?;
    // No block is known yet, so that a layout of the marks has no cell of a block.
    let marks = Terms {
        layout: Layout {
            instructions: sheet.script.count,
            blocks: 0,
            words: 0,
            awaits: 0,
            extra: 0,
        },
    };
    let mut scratch = Buffer { words };
    count::<Brand>(sheet, &mut scratch, marks, lent, limits, left)
}
