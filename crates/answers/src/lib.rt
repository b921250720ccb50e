// What every form of the call shares: its answer.
#![tactic(auto)]

ghost use Rattle.std.specs.Prelude.{◌≡◌};
ghost use Rattle.answers.specs.Answers.{answer_in, layout_in};

use budget::{FlowBudget, Limits};
use examine::{Examined, Refused};
use sizes::Layout;

// A sheet that is accepted: the function's id, how many blocks there are, how many awaits are reached, and the budget as charged.
#[derive(Clone, Copy, PartialEq, Eq, Debug)]
pub struct Accepted {
    pub id: u32,
    pub blocks: usize,
    pub awaits: usize,
    pub budget: FlowBudget,
}

// The answer of a call.
pub type Answer = Result<Accepted, Refused>;

// The answer of a call that is handed limits, which come back as they were given.
#[derive(Clone, Copy, PartialEq, Eq, Debug)]
pub struct AnswerWithin {
    pub answer: Answer,
    pub limits: Limits,
}

// The layout of the blocks in scratch: none after a refusal. Functions and no impls here and below: `Result` is no type of this crate.
pub fn layout_of(e: Result<Examined, Refused>) -> Layout
    ensures { result ≡ layout_in e }
{
    match e {
        Ok(x) => x.layout,
        Err(_) => Layout {
            instructions: 0,
            blocks: 0,
            words: 0,
            awaits: 0,
            extra: 0,
        },
    }
}

// The answer without the layout.
pub fn answer_of(e: Result<Examined, Refused>) -> Answer
    ensures { result ≡ answer_in e }
{
    let x = e?;
    Ok(Accepted {
        id: x.id,
        blocks: x.layout.blocks,
        awaits: x.awaits,
        budget: x.budget,
    })
}
