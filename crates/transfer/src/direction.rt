// The direction of a round.
ghost use Rattle.std.specs.Prelude.{◌≡◌};
ghost use Rattle.transfer.specs.Directions.{reads_of};

use memory::edges::Side;

// `Direction` of solver.rs, no trait or closure: the definitions go by its cases, and the compiler takes the choice out.
#[derive(Clone, Copy, PartialEq, Eq, Debug)]
pub enum Direction {
    Initialization,
    Liveness,
}

impl Direction {
    // Along which edges a visit reads sets.
    pub fn reads(self) -> Side
        ensures { result ≡ reads_of self }
    {
        match self {
            Direction::Initialization => Side::Predecessors,
            Direction::Liveness => Side::Successors,
        }
    }
}
