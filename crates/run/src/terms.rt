// A layout that a script can have which passed the checks: no size is larger than a sheet can make it.
ghost use Rattle.run.specs.Terms.{Bounded, ScratchBounded, SetsBounded};

use sizes::Layout;

#[derive(Clone, Copy, PartialEq, Eq, Debug)]
pub struct Terms {
    pub layout: Layout,
    pub ghost bounded: { Bounded layout },
}

// As scratch needs it.
#[derive(Clone, Copy, PartialEq, Eq, Debug)]
pub struct ScratchTerms {
    pub layout: Layout,
    pub ghost bounded: { ScratchBounded layout },
}

// As the sets buffer needs it.
#[derive(Clone, Copy, PartialEq, Eq, Debug)]
pub struct SetsTerms {
    pub layout: Layout,
    pub ghost bounded: { SetsBounded layout },
}
