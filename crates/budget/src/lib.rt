// The budget of a run: `FlowBudget`, `charge` and `state_bytes` of the source. Limits travel beside it; a call that is handed none takes today's.
#![tactic(auto)]

ghost use Rattle.std.specs.Prelude.{◌≡◌, [], ◌∷◌, ◌≤◌};
ghost use Rattle.budget.specs.Budget.{todays, counted, charged, retained, state_bytes, facts_bytes};

// Work charged and bytes of await facts retained so far.
#[derive(Clone, Copy, PartialEq, Eq, Debug)]
pub struct FlowBudget {
    pub work: u64,
    pub retained: u64,
}

// What work, state and retained facts may not exceed.
#[derive(Clone, Copy, PartialEq, Eq, Debug)]
pub struct Limits {
    pub work: u64,
    pub state: u64,
    pub facts: u64,
}

// A charge crossed the limit of work: the budget with that charge.
#[derive(Clone, Copy, PartialEq, Eq, Debug)]
pub struct OverWork {
    pub budget: FlowBudget,
}

// The facts of an await crossed the limit of facts: the budget with them.
#[derive(Clone, Copy, PartialEq, Eq, Debug)]
pub struct OverFacts {
    pub budget: FlowBudget,
}

impl Limits {
    // `MAX_FLOW_WORK`, and `MAX_FLOW_BYTES` for state and facts.
    pub fn todays() -> Limits
        ensures { result ≡ todays }
    {
        Limits {
            work: 100000000,
            state: 67108864,
            facts: 67108864,
        }
    }

    // As they count: each is at most today's.
    pub fn counted(self) -> Limits
        ensures { result ≡ counted self }
    {
        let t = Limits::todays();
        Limits {
            work: self.work.min(t.work),
            state: self.state.min(t.state),
            facts: self.facts.min(t.facts),
        }
    }
}

impl FlowBudget {
    // Charges work: `charge` of flow.rs. The budget to go on with, or the one that crossed the limit. `retain` adds to another field, looks at another
    // limit and has another error: one function would be handed all three.
    pub fn charge(self, count: u64, limits: Limits) -> Result<FlowBudget, OverWork>
        ensures { result ≡ charged limits self (count ∷ []) }
    {
        let budget = FlowBudget {
            work: self.work.saturating_add(count),
            retained: self.retained,
        };
        if budget.work <= limits.work {
            Ok(budget)
        } else {
            Err(OverWork { budget })
        }
    }

    // Retains the facts of an await, as `check_points` of flow.rs does.
    pub fn retain(self, bytes: u64, limits: Limits) -> Result<FlowBudget, OverFacts>
        ensures { result ≡ retained limits self bytes }
    {
        let budget = FlowBudget {
            work: self.work,
            retained: self.retained.saturating_add(bytes),
        };
        if budget.retained <= limits.facts {
            Ok(budget)
        } else {
            Err(OverFacts { budget })
        }
    }
}

// The bytes of state that so many blocks with sets of so many words stand for: `state_bytes` of flow.rs. These two take plain numbers, below the layout
// that bounds them.
pub fn state_bytes(blocks: usize, words: usize) -> u64
    requires { (blocks ≤ 65536) × (words ≤ 1024) }
    ensures { result ≡ state_bytes blocks words }
{
    blocks as u64 * (32 * words as u64 + 264) + 16 * words as u64
}

// The bytes that the facts of one await retain.
pub fn facts_bytes(words: usize) -> u64
    requires { words ≤ 1024 }
    ensures { result ≡ facts_bytes words }
{
    8 * words as u64 + 24
}
