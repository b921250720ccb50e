// What the engine tells apart of the number of a kind: any number, of which one that is no kind neither ends a block nor is an await.
ghost use Rattle.std.specs.Prelude.{◌≡◌};
ghost use Rattle.operands.specs.Kinds.{ends_block, is_await};

// Whether a block ends with an instruction of this kind.
#[tactic(auto, unfolding(crate::specs::Kinds::ends_block))]
pub fn ends_block(kind: usize) -> bool
    ensures { result ≡ ends_block kind }
{
    (kind == 12) | ((38 <= kind) & (kind <= 41))
}

// Whether this is the kind of `Await`.
#[tactic(auto, unfolding(crate::specs::Kinds::is_await))]
pub fn is_await(kind: usize) -> bool
    ensures { result ≡ is_await kind }
{
    kind == 1
}
