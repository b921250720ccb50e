// The kinds of instruction, by their names in the source.
ghost use Rattle.std.specs.Prelude.{◌≡◌};
ghost use Rattle.operands.specs.Kinds.{kind_number, Numbers, ends_block, is_await};

use crate::kinds;

// `BytecodeInstruction` of instruction.rs, in its order: the number of a kind in a sheet is its place there, from 1 on.
#[derive(Clone, Copy, PartialEq, Eq, Debug)]
pub enum Kind {
    Await = 1,
    Convert = 2,
    Numeric = 3,
    Iter = 4,
    LoadConst = 5,
    LoadModule = 6,
    StoreModule = 7,
    Move = 8,
    Unary = 9,
    Binary = 10,
    BinaryOperands = 11,
    PredicateBranch = 12,
    Call = 13,
    MakeTuple = 14,
    RangeBound = 15,
    MakeRange = 16,
    RepeatArray = 17,
    MakeArray = 18,
    MakeFuture = 19,
    MakeClosure = 20,
    MakeCell = 21,
    ReadCell = 22,
    WriteCell = 23,
    UpcastInterface = 24,
    MakeInterface = 25,
    MakeStruct = 26,
    MakeEnum = 27,
    TestEnumVariant = 28,
    ReadEnumPayload = 29,
    ReadAggregateField = 30,
    WriteAggregateField = 31,
    ReadAggregateIndex = 32,
    WriteAggregateIndex = 33,
    ReadPath = 34,
    SetPath = 35,
    ModifyPath = 36,
    MakePathView = 37,
    Jump = 38,
    Branch = 39,
    Return = 40,
    Unreachable = 41,
}

// A number that no kind of instruction has.
#[derive(Clone, Copy, PartialEq, Eq, Debug)]
pub struct UnknownKind(pub u16);

impl TryFrom<u16> for Kind {
    type Error = UnknownKind;

    ghost try_from_gives = { Numbers };

    fn try_from(number: u16) -> Result<Self, UnknownKind> {
        Ok(match number {
            1 => Kind::Await,
            2 => Kind::Convert,
            3 => Kind::Numeric,
            4 => Kind::Iter,
            5 => Kind::LoadConst,
            6 => Kind::LoadModule,
            7 => Kind::StoreModule,
            8 => Kind::Move,
            9 => Kind::Unary,
            10 => Kind::Binary,
            11 => Kind::BinaryOperands,
            12 => Kind::PredicateBranch,
            13 => Kind::Call,
            14 => Kind::MakeTuple,
            15 => Kind::RangeBound,
            16 => Kind::MakeRange,
            17 => Kind::RepeatArray,
            18 => Kind::MakeArray,
            19 => Kind::MakeFuture,
            20 => Kind::MakeClosure,
            21 => Kind::MakeCell,
            22 => Kind::ReadCell,
            23 => Kind::WriteCell,
            24 => Kind::UpcastInterface,
            25 => Kind::MakeInterface,
            26 => Kind::MakeStruct,
            27 => Kind::MakeEnum,
            28 => Kind::TestEnumVariant,
            29 => Kind::ReadEnumPayload,
            30 => Kind::ReadAggregateField,
            31 => Kind::WriteAggregateField,
            32 => Kind::ReadAggregateIndex,
            33 => Kind::WriteAggregateIndex,
            34 => Kind::ReadPath,
            35 => Kind::SetPath,
            36 => Kind::ModifyPath,
            37 => Kind::MakePathView,
            38 => Kind::Jump,
            39 => Kind::Branch,
            40 => Kind::Return,
            41 => Kind::Unreachable,
            _ => return Err(UnknownKind(number)),
        })
    }
}

impl Kind {
    // Its number in a sheet.
    pub fn number(self) -> usize
        ensures { result ≡ kind_number self }
    {
        self as usize
    }

    // Whether a block ends with an instruction of this kind.
    pub fn ends_block(self) -> bool
        ensures { result ≡ ends_block (kind_number self) }
    {
        kinds::ends_block(self.number())
    }

    // Whether this is the kind of `Await`.
    pub fn is_await(self) -> bool
        ensures { result ≡ is_await (kind_number self) }
    {
        kinds::is_await(self.number())
    }
}
