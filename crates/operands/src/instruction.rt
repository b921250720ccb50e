// The operands of an instruction, read where its fields stand in a sheet: `slot_inputs` and `slot_output` of operands.rs, and the targets.
ghost use Rattle.std.specs.Prelude.{true, ◌≡◌, length};
ghost use Rattle.operands.specs.Kinds.{kind_number};
ghost use Rattle.operands.specs.Patterns.{fits};

use crate::iter::{Inputs, Singles, Targets};
use crate::kind::Kind;
use crate::pattern::{Pattern, Role};
use crate::slots::{JumpTarget, Slot};

// What a ? field holds where the operand is absent or a constant. The sheet's own format: `Singles::present` reads it as an `Option`.
pub const ABSENT: u32 = u32::MAX;

// An instruction: its kind, and its fields where they stand in a sheet, as many as its kind may have.
#[derive(Clone, Copy, PartialEq, Eq, Debug)]
pub struct Instruction<'a> {
    pub kind: Kind,
    pub fields: &'a [[u8; 4]],
    pub ghost fitting: { fits (kind_number kind) (length fields.now) ≡ true },
}

impl<'a> Instruction<'a> {
    ghost use Rattle.std.specs.Prelude.{◌≡◌, ◌≢◌, true, length, IfSome, IsNone, ◌↔◌};
    ghost use Rattle.operands.specs.Kinds.{kind_number};
    ghost use Rattle.operands.specs.Patterns.{fits};
    ghost use Rattle.operands.specs.Instructions.{inputs_in, output_in, targets_in, slot_in, target_in, nth, value_of, inputs_left, targets_left};

    // The instruction of this kind with these fields, if they fit.
    pub fn new(kind: Kind, fields: &'a [[u8; 4]]) -> Option<Instruction<'a>>
        ensures made { IfSome result (λ i. (i.kind ≡ kind) × (i.fields.now ≡ fields.now)) }
        ensures none { IsNone result ↔ (fits (kind_number kind) (length fields.now) ≢ true) }
    {
        if Pattern::of(kind).fits(fields.len()) {
            Some(Instruction { kind, fields })
        } else {
            None
        }
    }

    // The slots that it reads: `slot_inputs`, `Rest` before the single fields.
    pub fn inputs(self) -> Inputs<'a>
        ensures { inputs_left result ≡ inputs_in self.entry }
    {
        Inputs::new(Pattern::of(self.kind), self.fields)
    }

    // How many slots it reads.
    pub fn input_count(self) -> usize
        ensures { result ≡ length (inputs_in self.entry) }
    {
        self.inputs().len()
    }

    // The k-th slot that it reads.
    pub fn input(self, k: usize) -> Option<Slot>
        ensures { slot_in result ≡ nth (inputs_in self.entry) k }
    {
        self.inputs().get(k)
    }

    // The slot that it writes: `slot_output`. In every pattern D and D? are field 0 alone.
    pub fn output(self) -> Option<Slot>
        ensures { slot_in result ≡ value_of (output_in self.entry) }
    {
        let pattern = Pattern::of(self.kind);
        Singles::new(pattern, self.fields, Role::Output, Role::OptionalOutput)
            .at(0)
            .map(Slot::from)
    }

    // The instructions that it names as targets.
    pub fn targets(self) -> Targets<'a>
        ensures { targets_left result ≡ targets_in self.entry }
    {
        Targets::new(Pattern::of(self.kind), self.fields)
    }

    // How many targets it names.
    pub fn target_count(self) -> usize
        ensures { result ≡ length (targets_in self.entry) }
    {
        self.targets().len()
    }

    // The k-th target that it names.
    pub fn target(self, k: usize) -> Option<JumpTarget>
        ensures { target_in result ≡ nth (targets_in self.entry) k }
    {
        self.targets().get(k)
    }
}
