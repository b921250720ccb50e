// A run whose layout has every bound of a script that passed, that of the awaits too: whoever judges a script begins one.
use crate::Run;
use std::marker::{Brand, PhantomData};

// What `Run` has, but with all of `Bounded`. It is no trait over `Run`, since a call that passes `Brand` could not pick one: `AsRun` makes the run of it.
pub trait BoundedRun {
    ghost use Rattle.sizes.specs.declared.Layout.{Layout};
    ghost use Rattle.budget.specs.declared.Limits.{Limits};
    ghost use Rattle.run.specs.Terms.{Bounded, Loan};

    ghost layout: { Layout };

    ghost limits: { Limits };

    ghost scratch: { Loan };

    ghost sets: { Loan };

    ghost bounded: { Bounded layout };
}

// What a caller that picks nothing has.
impl BoundedRun for Brand {
    ghost use Rattle.budget.specs.Budget.{todays};
    ghost use Rattle.run.specs.Terms.{nothing, no_loan, nothing-bounded};

    ghost layout = { nothing };

    ghost limits = { todays };

    ghost scratch = { no_loan };

    ghost sets = { no_loan };

    ghost bounded = { nothing-bounded };
}

pub struct AsRun<R: BoundedRun> {
    run: PhantomData<R>,
}

impl<R: BoundedRun> Run for AsRun<R> {
    ghost use Rattle.run.specs.Terms.{bounded_scratch};

    ghost layout = { R.layout };

    ghost limits = { R.limits };

    ghost scratch = { R.scratch };

    ghost sets = { R.sets };

    ghost bounded = { bounded_scratch R.bounded };
}
