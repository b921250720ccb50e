// Document 01's sizes of the lent buffers for a script, and whether they have room for it: the state limit (11), then the later 10.
#![tactic(auto)]

ghost use Rattle.std.specs.Prelude.{◌≡◌, ◌≤◌};
ghost use Rattle.sizes.specs.Sizes.{scratch_words, answer_words, sets_words, layout_of, short_of};
ghost use Rattle.sizes.specs.Stages.{halt, rooms_of};
ghost use Rattle.format.specs.declared.refusal.Refusal.TheVariants.{FactsLimit, WorkLimit};

use budget::{FlowBudget, Limits, OverFacts, OverWork};
use format::refusal::Refusal;
use sheet::script::Script;

// The numbers that fix both layouts: instructions, blocks, words a set, awaits, and how many edges there may be past two a block. A plain record, since
// definitions make one of any numbers: `run::terms::Terms` is one that a script can have.
#[derive(Clone, Copy, PartialEq, Eq, Debug)]
pub struct Layout {
    pub instructions: usize,
    pub blocks: usize,
    pub words: usize,
    pub awaits: usize,
    pub extra: usize,
}

// How long the other lent buffers are: words of sets, and block records.
#[derive(Clone, Copy, PartialEq, Eq, Debug)]
pub struct Lent {
    pub sets: usize,
    pub records: usize,
}

// Why the judging of a script stops, with the budget as charged.
#[derive(Clone, Copy, PartialEq, Eq, Debug)]
pub struct Stopped {
    pub why: Refusal,
    pub budget: FlowBudget,
}

impl From<OverWork> for Stopped {
    ghost from_gives = { λ over stopped. stopped ≡ halt WorkLimit over.budget };

    fn from(over: OverWork) -> Stopped {
        Stopped {
            why: Refusal::WorkLimit,
            budget: over.budget,
        }
    }
}

impl From<OverFacts> for Stopped {
    ghost from_gives = { λ over stopped. stopped ≡ halt FactsLimit over.budget };

    fn from(over: OverFacts) -> Stopped {
        Stopped {
            why: Refusal::FactsLimit,
            budget: over.budget,
        }
    }
}

impl Layout {
    // The layout of both buffers for so many blocks.
    pub fn of(script: Script, blocks: usize) -> Layout
        requires { script.slots ≤ 65536 }
        ensures { result ≡ layout_of script blocks }
    {
        Layout {
            instructions: script.count,
            blocks,
            words: script.slots.div_ceil(64),
            awaits: script.awaits,
            extra: 0,
        }
    }

    // Document 01's size of scratch.
    pub fn scratch_words(self) -> usize
        requires { (self.instructions ≤ 65536) × (self.blocks ≤ 65536) × (self.words ≤ 1024) × (self.extra ≤ 16777216) }
        ensures { result ≡ scratch_words self }
    {
        4 * self.instructions
            + self.blocks * (4 * self.words + 16)
            + 4 * self.words
            + 4 * self.extra
    }

    // How many words of the sets buffer an answer with so many awaits takes.
    pub fn answer_words(self, awaits: usize) -> usize
        requires { (self.blocks ≤ 65536) × (self.words ≤ 1024) × (awaits ≤ 65536) }
        ensures { result ≡ answer_words self awaits }
    {
        self.blocks * 2 * self.words + awaits * (1 + self.words)
    }

    // Document 01's size of the sets buffer.
    pub fn sets_words(self) -> usize
        requires { (self.blocks ≤ 65536) × (self.words ≤ 1024) × (self.awaits ≤ 65536) }
        ensures { result ≡ sets_words self }
    {
        self.answer_words(self.awaits)
    }
}

// Whether one of the lent buffers is too short.
fn short(y: Layout, scratch: usize, lent: Lent) -> bool
    requires { (y.instructions ≤ 65536) × (y.blocks ≤ 65536) × (y.words ≤ 1024) × (y.awaits ≤ 65536) × (y.extra ≤ 16777216) }
    ensures { result ≡ short_of y scratch lent }
{
    scratch < y.scratch_words() || lent.sets < y.sets_words() || lent.records < y.blocks
}

// 11, then 10.
#[tactic(auto, unfolding(crate::specs::Stages::rooms_of))]
pub fn rooms(
    y: Layout,
    scratch: usize,
    lent: Lent,
    limits: Limits,
    budget: FlowBudget,
) -> Result<(Layout, FlowBudget), Stopped>
    requires { (y.instructions ≤ 65536) × (y.blocks ≤ 65536) × (y.words ≤ 1024) × (y.awaits ≤ 65536) × (y.extra ≤ 16777216) }
    ensures { result ≡ rooms_of limits y scratch lent budget }
{
    if limits.state < budget::state_bytes(y.blocks, y.words) {
        return Err(Stopped {
            why: Refusal::StateLimit,
            budget,
        });
    }
    if short(y, scratch, lent) {
        return Err(Stopped {
            why: Refusal::NoRoom,
            budget,
        });
    }
    Ok((y, budget))
}
