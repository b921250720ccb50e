// The calls for hosts in C and Rust.
#![tactic(auto)]

ghost use Rattle.std.specs.Prelude.{◌≡◌};
ghost use Rattle.format.specs.Refusals.{number_of};
ghost use Rattle.answers.specs.Answers.{outcome_by};
ghost use Rattle.flow_c.specs.Exports.{budget_of, answer_of, HostVerified, load_answer_of, host_load};
ghost use Rattle.flow_c.specs.Within.{limits_of, host_limits_of, answer_within_of, HostVerifiedWithin};
ghost use Rattle.flow_c.specs.With.{HostVerifiedWith};

use answers::{Answer, AnswerWithin};
use block_records::Block;
use budget::{FlowBudget, Limits};
use format::refusal::Refusal;
use load::Loaded;
use sheet::script::Refused;

// C's forms, here and below: plain numbers, and a number beside zeros where the code has a `Result`.

// Work charged and bytes retained so far.
#[repr(C)]
#[derive(Clone, Copy, PartialEq, Eq, Debug)]
pub struct HostBudget {
    pub work: u64,
    pub retained: u64,
}

impl From<HostBudget> for FlowBudget {
    ghost use Rattle.std.specs.Prelude.{◌≡◌};
    ghost use Rattle.flow_c.specs.Exports.{budget_of};

    ghost from_gives = { λ host budget. budget ≡ budget_of host };

    fn from(host: HostBudget) -> FlowBudget {
        FlowBudget {
            work: host.work,
            retained: host.retained,
        }
    }
}

// Number 0: accepted, with how many blocks there are and how many awaits are reached. Else the number of the refusal, and zeros for these.
#[repr(C)]
#[derive(Clone, Copy, PartialEq, Eq, Debug)]
pub struct FlowAnswer {
    pub number: u32,
    pub function: u32,
    pub blocks: u64,
    pub awaits: u64,
    pub work: u64,
    pub retained: u64,
}

impl From<Answer> for FlowAnswer {
    ghost use Rattle.std.specs.Prelude.{◌≡◌};
    ghost use Rattle.answers.specs.Answers.{outcome_by};
    ghost use Rattle.flow_c.specs.Exports.{answer_of};

    ghost from_gives = { λ answer host. host ≡ answer_of (outcome_by answer) };

    fn from(answer: Answer) -> FlowAnswer {
        match answer {
            Ok(accepted) => FlowAnswer {
                number: 0,
                function: accepted.id,
                blocks: accepted.blocks as u64,
                awaits: accepted.awaits as u64,
                work: accepted.budget.work,
                retained: accepted.budget.retained,
            },
            Err(refused) => FlowAnswer {
                number: number(refused.why),
                function: refused.id,
                blocks: 0,
                awaits: 0,
                work: refused.budget.work,
                retained: refused.budget.retained,
            },
        }
    }
}

// The number of a refusal, as hosts have it.
fn number(why: Refusal) -> u32
    ensures { result ≡ number_of why }
{
    why.number() as u32
}

// Any bytes, any budget, any buffers: as `verify` of crate flow.
#[unsafe(no_mangle)]
pub extern "C" fn kagari_flow_verify(
    sheet: &[u8],
    budget: HostBudget,
    blocks: &mut [Block],
    sets: &mut [u64],
    scratch: &mut [u64],
) -> FlowAnswer
    ensures { HostVerified sheet.now (budget_of budget) blocks.old blocks.new sets.old sets.new scratch.old scratch.new result }
{
    flow::verify(sheet, budget.into(), blocks, sets, scratch).into()
}

// Number 0 and the load. Else the number of the refusal, and load 0.
#[repr(C)]
#[derive(Clone, Copy, PartialEq, Eq, Debug)]
pub struct LoadAnswer {
    pub number: u32,
    pub function: u32,
    pub load: u64,
}

impl From<Result<Loaded, Refused>> for LoadAnswer {
    ghost use Rattle.std.specs.Prelude.{◌≡◌};
    ghost use Rattle.flow_c.specs.Exports.{load_answer_of};

    ghost from_gives = { λ answer host. host ≡ load_answer_of answer };

    fn from(answer: Result<Loaded, Refused>) -> LoadAnswer {
        match answer {
            Ok(loaded) => LoadAnswer {
                number: 0,
                function: loaded.id,
                load: loaded.load,
            },
            Err(refused) => LoadAnswer {
                number: number(refused.why),
                function: refused.id,
                load: 0,
            },
        }
    }
}

// Any bytes, any words, any numbers: as `load` of crate load. All lent memory is only read.
#[unsafe(no_mangle)]
pub extern "C" fn kagari_flow_load(
    sheet: &[u8],
    sets: &[u64],
    blocks: u64,
    awaits: u64,
) -> LoadAnswer
    ensures { result ≡ host_load sheet.now sets.now blocks awaits }
{
    load::load(sheet, sets, blocks as usize, awaits as usize).into()
}

// What work, state and retained facts may not exceed.
#[repr(C)]
#[derive(Clone, Copy, PartialEq, Eq, Debug)]
pub struct HostLimits {
    pub work: u64,
    pub state: u64,
    pub facts: u64,
}

impl From<HostLimits> for Limits {
    ghost use Rattle.std.specs.Prelude.{◌≡◌};
    ghost use Rattle.flow_c.specs.Within.{limits_of};

    ghost from_gives = { λ host limits. limits ≡ limits_of host };

    fn from(host: HostLimits) -> Limits {
        Limits {
            work: host.work,
            state: host.state,
            facts: host.facts,
        }
    }
}

impl From<Limits> for HostLimits {
    ghost use Rattle.std.specs.Prelude.{◌≡◌};
    ghost use Rattle.flow_c.specs.Within.{host_limits_of};

    ghost from_gives = { λ limits host. host ≡ host_limits_of limits };

    fn from(limits: Limits) -> HostLimits {
        HostLimits {
            work: limits.work,
            state: limits.state,
            facts: limits.facts,
        }
    }
}

// An answer with the limits as they were given.
#[repr(C)]
#[derive(Clone, Copy, PartialEq, Eq, Debug)]
pub struct FlowAnswerWithin {
    pub answer: FlowAnswer,
    pub limits: HostLimits,
}

impl From<AnswerWithin> for FlowAnswerWithin {
    ghost use Rattle.std.specs.Prelude.{◌≡◌};
    ghost use Rattle.flow_c.specs.Within.{answer_within_of};

    ghost from_gives = { λ given host. host ≡ answer_within_of given };

    fn from(given: AnswerWithin) -> FlowAnswerWithin {
        FlowAnswerWithin {
            answer: given.answer.into(),
            limits: given.limits.into(),
        }
    }
}

// As `kagari_flow_verify` with these limits, each of which counts as at most today's: as `verify_within` of crate flow.
#[unsafe(no_mangle)]
pub extern "C" fn kagari_flow_verify_within(
    sheet: &[u8],
    budget: HostBudget,
    limits: HostLimits,
    blocks: &mut [Block],
    sets: &mut [u64],
    scratch: &mut [u64],
) -> FlowAnswerWithin
    ensures { HostVerifiedWithin sheet.now limits (budget_of budget) blocks.old blocks.new sets.old sets.new scratch.old scratch.new result }
{
    flow::verify_within(sheet, budget.into(), limits.into(), blocks, sets, scratch).into()
}

// The same with an added set of parameters: as `verify_with` of crate flow.
#[unsafe(no_mangle)]
pub extern "C" fn kagari_flow_verify_with(
    sheet: &[u8],
    added: &[u64],
    budget: HostBudget,
    limits: HostLimits,
    blocks: &mut [Block],
    sets: &mut [u64],
    scratch: &mut [u64],
) -> FlowAnswerWithin
    ensures { HostVerifiedWith sheet.now added.now limits (budget_of budget) blocks.old blocks.new sets.old sets.new scratch.old scratch.new result }
{
    flow::verify_with(
        sheet,
        added,
        budget.into(),
        limits.into(),
        blocks,
        sets,
        scratch,
    )
    .into()
}
