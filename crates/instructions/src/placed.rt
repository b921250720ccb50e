// An instruction where its record stands.
ghost use Rattle.instructions.specs.Placed.{Stands, IsPlaced};

use format::bytes;
use operands::instruction::Instruction;
use operands::kind::Kind;

// Its kind and its fields, which need not fit each other yet.
#[derive(Clone, Copy, PartialEq, Eq, Debug)]
pub struct Placed<'a> {
    pub kind: Kind,
    pub fields: &'a [[u8; 4]],
    // where the next record begins
    pub next: usize,
}

// The instruction whose record stands at an offset. It is read for each instruction in each pass, so nothing is checked again.
#[tactic(auto, using(format::proofs::HeadLaws::lies))]
pub fn instruction_at<'a>(s: &'a [u8], at: usize) -> Placed<'a>
    requires { Stands s.now at }
    ensures { IsPlaced s.now at result }
{
    let next = at + 2 + bytes::u16_at(s, at) as usize;
    let Ok(kind) = Kind::try_from(bytes::u16_at(s, at + 2)) else {
        unreachable!()
    };
    Placed {
        kind,
        fields: s[at + 4..next].as_chunks::<4>().0,
        next,
    }
}

impl<'a> Placed<'a> {
    ghost use Rattle.std.specs.Prelude.{◌≡◌, true, length};
    ghost use Rattle.operands.specs.Kinds.{kind_number};
    ghost use Rattle.operands.specs.Patterns.{fits};

    // The same where the fields are known to fit the kind.
    pub fn instruction(self) -> Instruction<'a>
        requires { fits (kind_number self.kind) (length self.fields.now) ≡ true }
        ensures kind_is { result.kind ≡ self.entry.kind }
        ensures fields_are { result.fields.now ≡ self.entry.fields.now }
    {
        Instruction {
            kind: self.kind,
            fields: self.fields,
        }
    }
}
