// The budget of a run, against its limits.
ghost use Rattle.std.specs.Prelude.{◌≡◌, [], ◌∷◌};
ghost use Rattle.budget.specs.declared.FlowBudget.{FlowBudget};
ghost use Rattle.budget.specs.Budget.{charged, retained};

use crate::Run;
use budget::{FlowBudget, Limits, OverFacts, OverWork};
use std::marker::{Model, PhantomData};

// A contract sees the budget: the limits are the run's.
#[derive_where(Clone, Copy)]
pub struct Meter<R: Run> {
    limits: Limits,
    budget: FlowBudget,
    run: PhantomData<R>,
}

impl<R: Run> Model for Meter<R> {
    ghost Value = { FlowBudget };

    ghost view = { λ m. m.budget };

    ghost invariant = { λ m. m.limits ≡ R.limits };

    // A budget tells the meter, so that it may be copied.
    ghost inverse = { λ b. record { limits = R.limits; budget = b; run = record {} } };
}

impl<R: Run> Meter<R> {
    pub fn new(limits: Limits, budget: FlowBudget) -> Self
        requires { limits ≡ R.limits }
        ensures { result ≡ budget }
    {
        Meter {
            limits,
            budget,
            run: PhantomData,
        }
    }

    // What has been charged and retained.
    pub fn budget(&self) -> FlowBudget
        ensures { result ≡ self.now }
    {
        self.budget
    }

    pub fn limits(&self) -> Limits
        ensures { result ≡ R.limits }
    {
        self.limits
    }

    // Charges work: the meter to go on with, or the budget that crossed the limit.
    pub fn charge(self, count: u64) -> Result<Self, OverWork>
        ensures { result ≡ charged R.limits self (count ∷ []) }
    {
        let budget = self.budget.charge(count, self.limits)?;
        Ok(Meter {
            limits: self.limits,
            budget,
            run: PhantomData,
        })
    }

    // Retains the facts of an await.
    pub fn retain(self, bytes: u64) -> Result<Self, OverFacts>
        ensures { result ≡ retained R.limits self bytes }
    {
        let budget = self.budget.retain(bytes, self.limits)?;
        Ok(Meter {
            limits: self.limits,
            budget,
            run: PhantomData,
        })
    }
}
