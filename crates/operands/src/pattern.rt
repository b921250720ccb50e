// The table of field patterns, which the operand functions and whatever writes records share.
ghost use Rattle.std.specs.Prelude.{◌≡◌, ◌≤◌, [], ◌∷◌};
ghost use Rattle.operands.specs.Patterns.{role_at, fixed_at, list_at, fits};
ghost use Rattle.operands.specs.Kinds.{kind_number};
ghost use Rattle.operands.specs.Roles.{role_number, roles_at};

use crate::kind::Kind;
use Role::{Input, Module, Nothing, OptionalInput, OptionalOutput, Output, Rest, Target};

// What a field holds. Document 01 writes D, S, S?, D?, T, M and L; what may be absent is written with a question mark.
#[derive(Clone, Copy, PartialEq, Eq, Debug)]
pub enum Role {
    Nothing = 0,
    Output = 1,
    Input = 2,
    OptionalInput = 3,
    OptionalOutput = 4,
    Target = 5,
    Module = 6,
    // each of the remaining slots
    Rest = 7,
}

// How many single fields a record has, and the roles of its first four. From field 3 on the role stays the same: only `Rest` goes on so far.
#[derive(Clone, Copy, PartialEq, Eq, Debug)]
struct Row(u8, Role, Role, Role, Role);

// The patterns of kinds 1 to 41, in their order: document 01's list. A `match` by groups was tried: reading operands took half as long again.
static PATTERNS: [Row; 41] = [
    // Await
    Row(2, Output, Input, Nothing, Nothing),
    // Convert
    Row(2, Output, Input, Nothing, Nothing),
    // Numeric
    Row(3, Output, Input, OptionalInput, Nothing),
    // Iter
    Row(2, Output, OptionalInput, Nothing, Nothing),
    // LoadConst
    Row(1, Output, Nothing, Nothing, Nothing),
    // LoadModule
    Row(2, Output, Module, Nothing, Nothing),
    // StoreModule
    Row(2, Module, Input, Nothing, Nothing),
    // Move
    Row(2, Output, Input, Nothing, Nothing),
    // Unary
    Row(2, Output, Input, Nothing, Nothing),
    // Binary
    Row(3, Output, Input, Input, Nothing),
    // BinaryOperands
    Row(3, Output, OptionalInput, OptionalInput, Nothing),
    // PredicateBranch
    Row(4, OptionalInput, OptionalInput, Target, Target),
    // Call
    Row(2, OptionalOutput, OptionalInput, Rest, Rest),
    // MakeTuple
    Row(1, Output, Rest, Rest, Rest),
    // RangeBound
    Row(2, Output, Input, Nothing, Nothing),
    // MakeRange
    Row(3, Output, OptionalInput, OptionalInput, Nothing),
    // RepeatArray
    Row(3, Output, Input, Input, Nothing),
    // MakeArray
    Row(1, Output, Rest, Rest, Rest),
    // MakeFuture
    Row(1, Output, Rest, Rest, Rest),
    // MakeClosure
    Row(1, Output, Rest, Rest, Rest),
    // MakeCell
    Row(2, Output, Input, Nothing, Nothing),
    // ReadCell
    Row(2, Output, Input, Nothing, Nothing),
    // WriteCell
    Row(2, Input, Input, Nothing, Nothing),
    // UpcastInterface
    Row(2, Output, Input, Nothing, Nothing),
    // MakeInterface
    Row(2, Output, Input, Nothing, Nothing),
    // MakeStruct
    Row(1, Output, Rest, Rest, Rest),
    // MakeEnum
    Row(1, Output, Rest, Rest, Rest),
    // TestEnumVariant
    Row(2, Output, Input, Nothing, Nothing),
    // ReadEnumPayload
    Row(2, Output, Input, Nothing, Nothing),
    // ReadAggregateField
    Row(2, Output, Input, Nothing, Nothing),
    // WriteAggregateField
    Row(2, Input, Input, Nothing, Nothing),
    // ReadAggregateIndex
    Row(3, Output, Input, Input, Nothing),
    // WriteAggregateIndex
    Row(3, Input, Input, Input, Nothing),
    // ReadPath
    Row(2, Output, Input, Rest, Rest),
    // SetPath
    Row(2, Input, Input, Rest, Rest),
    // ModifyPath
    Row(3, OptionalOutput, Input, Input, Rest),
    // MakePathView
    Row(2, Output, Input, Rest, Rest),
    // Jump
    Row(1, Target, Nothing, Nothing, Nothing),
    // Branch
    Row(3, Input, Target, Target, Nothing),
    // Return
    Row(1, OptionalInput, Nothing, Nothing, Nothing),
    // Unreachable
    Row(0, Nothing, Nothing, Nothing, Nothing),
];

// The pattern of a kind: how many single fields its record has, and the roles of the first four fields.
#[derive(Clone, Copy, PartialEq, Eq, Debug)]
pub struct Pattern {
    pub kind: Kind,
    pub single: usize,
    first: Role,
    second: Role,
    third: Role,
    later: Role,
    pub ghost counted: { single ≡ fixed_at (kind_number kind) },
    pub ghost few: { single ≤ 4 },
    ghost shown: { role_number first ∷ role_number second ∷ role_number third ∷ role_number later ∷ [] ≡ roles_at (kind_number kind) },
}

impl Pattern {
    // The pattern of a kind. It is looked up in the table and not made from the kind: `Pattern::from(kind)` would say less.
    pub fn of(kind: Kind) -> Pattern
        ensures kind { result.kind ≡ kind }
        ensures single { result.single ≡ fixed_at (kind_number kind) }
    {
        let Row(single, first, second, third, later) = PATTERNS[kind.number() - 1];
        Pattern {
            kind,
            single: single as usize,
            first,
            second,
            third,
            later,
        }
    }

    // The role of field j. From 3 on it is told first: the compiler then takes the first three turns of a loop over the fields apart.
    #[tactic(auto, unfolding(crate::specs::Patterns::role_at))]
    pub fn role(self, j: usize) -> Role
        ensures { role_number result ≡ role_at (kind_number self.kind) j }
    {
        if 3 <= j {
            return self.later;
        }
        match j {
            0 => self.first,
            1 => self.second,
            _ => self.third,
        }
    }

    // Whether a record of this pattern ends in `Rest`.
    #[tactic(auto, unfolding(crate::specs::Patterns::list_at))]
    pub fn has_rest(self) -> bool
        ensures { result ≡ list_at (kind_number self.kind) }
    {
        matches!(self.later, Rest)
    }

    // Whether a record of this pattern may have so many fields.
    #[tactic(auto, unfolding(crate::specs::Patterns::fits))]
    pub fn fits(self, fields: usize) -> bool
        ensures { result ≡ fits (kind_number self.kind) fields }
    {
        // Those of `Rest` don't count. Chosen as a number, so that no jump hangs on the kind: foreseeing one fails too often.
        let counted = if self.has_rest() {
            fields.min(self.single)
        } else {
            fields
        };
        counted == self.single
    }
}
