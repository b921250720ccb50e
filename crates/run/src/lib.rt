// What stays the same while one script is judged. A type parameter stands for it, so that no function hands it on and a contract names it.
#![tactic(auto)]

pub mod bounded;
pub mod meter;
pub mod terms;

use std::marker::Brand;

// The limits, the layout of both lent buffers, and which the two are.
pub trait Run {
    ghost use Rattle.sizes.specs.declared.Layout.{Layout};
    ghost use Rattle.budget.specs.declared.Limits.{Limits};
    ghost use Rattle.run.specs.Terms.{ScratchBounded, Loan};

    ghost layout: { Layout };

    ghost limits: { Limits };

    ghost scratch: { Loan };

    ghost sets: { Loan };

    ghost bounded: { ScratchBounded layout };
}

// What a caller that picks nothing has.
impl Run for Brand {
    ghost use Rattle.budget.specs.Budget.{todays};
    ghost use Rattle.run.specs.Terms.{nothing, no_loan, bounded_scratch, nothing-bounded};

    ghost layout = { nothing };

    ghost limits = { todays };

    ghost scratch = { no_loan };

    ghost sets = { no_loan };

    ghost bounded = { bounded_scratch nothing-bounded };
}
