// The call that checks a sheet: `verify` of flow.rs, with the sheet checks before it. Its block list is a slice of words or of block structs.
#![tactic(auto)]

ghost use Rattle.std.specs.Prelude.{◌≡◌, ◌≤◌, length, MatchOption};
ghost use Rattle.dataflow.specs.Lists.{tabulate};
ghost use Rattle.budget.specs.Budget.{todays, counted};
ghost use Rattle.sizes.specs.Sizes.{scratch_words};
ghost use Rattle.memory.specs.Scratch.{scratch};
ghost use Rattle.answers.specs.Answers.{outcome_by};
ghost use Rattle.flow.specs.Call.{Own, With, Called};

use answers::{Answer, AnswerWithin};
use blocklist::Listed;
use budget::{FlowBudget, Limits};
use memory::views::ScratchView;
use run::bounded::{AsRun, BoundedRun};
use run::terms::{ScratchTerms, Terms};
use std::marker::Brand;

// Any bytes, any budget, any buffers. `blocks` takes the block records; `sets` takes both sets of each block and the set of each reached await;
// `scratch` is zero at the end. After a refusal all three are zero.
pub fn verify<T: Listed>(
    sheet: &[u8],
    budget: FlowBudget,
    blocks: &mut [T],
    sets: &mut [u64],
    scratch: &mut [u64],
) -> Answer
    ensures { Called T.PER_RECORD T.listed sheet.now (Own sheet.now todays budget) blocks.old blocks.new sets.old sets.new scratch.old scratch.new
        (outcome_by result) }
{
    call(sheet, None, budget, Limits::todays(), blocks, sets, scratch).answer
}

// The same with these limits, each of which counts as at most today's. They come back as they were given.
pub fn verify_within<T: Listed>(
    sheet: &[u8],
    budget: FlowBudget,
    limits: Limits,
    blocks: &mut [T],
    sets: &mut [u64],
    scratch: &mut [u64],
) -> AnswerWithin
    ensures called { Called T.PER_RECORD T.listed sheet.now (Own sheet.now (counted limits) budget) blocks.old blocks.new sets.old sets.new scratch.old scratch.new
        (outcome_by result.answer) }
    ensures limits { result.limits ≡ limits }
{
    call(sheet, None, budget, limits, blocks, sets, scratch)
}

// The same with the slots of `added` as parameters beside the sheet's own: a set of slots in w words, bit i % 64 of word i / 64 being slot i. Fewer words
// are 10, judged with scratch below four words an instruction; then a bit of these words that is no slot is 7. `added` is only read.
pub fn verify_with<T: Listed>(
    sheet: &[u8],
    added: &[u64],
    budget: FlowBudget,
    limits: Limits,
    blocks: &mut [T],
    sets: &mut [u64],
    scratch: &mut [u64],
) -> AnswerWithin
    ensures called { Called T.PER_RECORD T.listed sheet.now (With sheet.now added.now (counted limits) budget) blocks.old blocks.new sets.old sets.new scratch.old
        scratch.new (outcome_by result.answer) }
    ensures limits { result.limits ≡ limits }
{
    call(sheet, Some(added), budget, limits, blocks, sets, scratch)
}

// The sheet examined, the block list filled from scratch, and scratch cleared.
fn call<T: Listed>(
    sheet: &[u8],
    added: Option<&[u64]>,
    budget: FlowBudget,
    limits: Limits,
    blocks: &mut [T],
    sets: &mut [u64],
    scratch: &mut [u64],
) -> AnswerWithin
    ensures called { MatchOption added.entry
        (Called T.PER_RECORD T.listed sheet.now (Own sheet.now (counted limits) budget) blocks.old blocks.new sets.old sets.new scratch.old scratch.new (outcome_by result.answer))
        (λ set. Called T.PER_RECORD T.listed sheet.now (With sheet.now set.now (counted limits) budget) blocks.old blocks.new sets.old sets.new scratch.old scratch.new (outcome_by result.answer)) }
    ensures limits { result.limits ≡ limits }
{
    let records = blocks.len() / T::PER_RECORD;
    let examined = added::examine(sheet, added, limits, budget, scratch, sets, records);
    let layout = answers::layout_of(examined);
    list::<T, Brand>(blocks, scratch, Terms { layout });
    scratch.fill(0);
    let answer = answers::answer_of(examined);
    AnswerWithin { answer, limits }
}

// The block list, from the words of scratch as they have this layout.
fn list<T: Listed, R: BoundedRun>(blocks: &mut [T], words: &[u64], terms: Terms)
    requires { (terms.layout ≡ R.layout) × (scratch_words terms.layout ≤ length words.now) }
    ensures { blocks.new ≡ tabulate 0 (length blocks.old) (T.listed (scratch terms.layout words.now) terms.layout.blocks) }
{
    let layout = terms.layout;
    blocklist::fill(
        blocks,
        &ScratchView::<AsRun<R>>::new(words, ScratchTerms { layout }),
    );
}
