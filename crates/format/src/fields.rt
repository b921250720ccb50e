// The fields of an instruction: slots, targets and module slots.
ghost use Rattle.std.specs.Prelude.{true, ◌≡◌, ◌≤◌, ◌<◌, length, map};
ghost use Rattle.operands.specs.Bytes.{number_in};
ghost use Rattle.operands.specs.Kinds.{kind_number};
ghost use Rattle.operands.specs.Roles.{role_number};
ghost use Rattle.operands.specs.Instructions.{values_of};
ghost use Rattle.format.specs.Fields.{bad_module, no_slot, no_target, any_above};
ghost use Rattle.format.specs.Answers.{bound_of, Faultless, no_faults, FaultsIn};

use crate::refusal::Refusal;
use operands::bytes;
use operands::instruction::{ABSENT, Instruction};
use operands::pattern::{Pattern, Role};
use operands::slots::ModuleSlot;

// How many slots a function has, and how many instructions.
#[derive(Clone, Copy, PartialEq, Eq, Debug)]
pub struct Counts {
    pub slots: usize,
    pub instructions: usize,
}

// What is wrong with the fields of an instruction. Three flags and no `Option<Refusal>`: a later field may hold the earlier refusal, so each is
// gathered over all fields, which for one refusal would be a least of two options at each field.
#[derive(Clone, Copy, PartialEq, Eq, Default, Debug)]
pub struct Faults {
    // a module slot above 65,535
    pub modules: bool,
    // a slot at or above the slot count
    pub slots: bool,
    // a target at or above N
    pub targets: bool,
}

// Whether a field is a module slot above 65,535. This and the next two are three tests of a field: as one function they would be the arms of one
// more `match`, over which refusal is asked for.
#[tactic(auto, unfolding(crate::specs::Fields::bad_module))]
fn bad_module(role: Role, x: u32) -> bool
    ensures { result ≡ bad_module (role_number role) x }
{
    role == Role::Module && ModuleSlot::try_from(x).is_err()
}

// Whether a field is a slot at or above the slot count, and not absent where that may be.
#[tactic(auto, unfolding(crate::specs::Fields::no_slot))]
fn no_slot(role: Role, x: u32, slots: usize) -> bool
    ensures { result ≡ no_slot slots (role_number role) x }
{
    // the sheet's own numbers are compared, as an `Option` of the field would be taken apart again here
    match role {
        Role::Output | Role::Input | Role::Rest => slots <= x as usize,
        Role::OptionalOutput | Role::OptionalInput => slots <= x as usize && x != ABSENT,
        Role::Nothing | Role::Target | Role::Module => false,
    }
}

// Whether a field is a target at or above N.
#[tactic(auto, unfolding(crate::specs::Fields::no_target))]
fn no_target(role: Role, x: u32, count: usize) -> bool
    ensures { result ≡ no_target count (role_number role) x }
{
    role == Role::Target && count <= x as usize
}

// What a field must be below: N if it is a target, 65,536 if it is a module slot, else the slot count. A `match` was tried: it becomes a jump table,
// and the sheet checks take a twentieth longer.
#[tactic(auto, unfolding(crate::specs::Answers::bound_of))]
fn bound(role: Role, counts: Counts) -> usize
    ensures { result ≡ bound_of counts.slots counts.instructions (role_number role) }
{
    if role == Role::Target {
        counts.instructions
    } else if role == Role::Module {
        65536
    } else {
        counts.slots
    }
}

// Whether a field is below its bound, or absent where that may be.
fn field_fits(role: Role, x: u32, counts: Counts) -> bool
    ensures { result ≡ true → Faultless counts.slots counts.instructions (role_number role) x }
{
    (x as usize) < bound(role, counts)
        || (x == ABSENT && matches!(role, Role::OptionalInput | Role::OptionalOutput))
}

// Whether one of the fields of `Rest` is at or above a bound. Most instructions have none, which one comparison tells.
#[tactic(auto, unfolding(crate::specs::Fields::any_above))]
fn rest_above(rest: &[[u8; 4]], bound: usize) -> bool
    ensures { result ≡ any_above bound (map number_in rest.now) }
{
    !rest.is_empty() && any_above(rest, bound)
}

// Whether every field of an instruction fits: the single ones, then those of `Rest`.
fn all_fit(i: Instruction<'_>, counts: Counts) -> bool
    ensures { result ≡ true → FaultsIn (kind_number i.entry.kind) (values_of i.entry) counts.slots counts.instructions no_faults }
{
    let pattern = Pattern::of(i.kind);
    let (single, rest) = i.fields.split_at(pattern.single);
    let single_fit = single.iter().enumerate().all(|(j, field)| field_fits(
        pattern.role(j),
        bytes::number(*field),
        counts,
    ));
    single_fit && !rest_above(rest, counts.slots)
}

// What is wrong with the fields of an instruction. Only where one does not fit is each looked at for its fault.
pub fn field_faults(i: Instruction<'_>, counts: Counts) -> Faults
    ensures { FaultsIn (kind_number i.entry.kind) (values_of i.entry) counts.slots counts.instructions result }
{
    if all_fit(i, counts) {
        return Faults::default();
    }
    faults_among(i, counts)
}

// The same, by looking at every field. Seldom called, and not put into the loop over the instructions, which then has more registers.
#[cold]
#[inline(never)]
#[tactic(auto, using(crate::proofs::FieldLaws::faults_end), unfolding(crate::specs::Fields::any_field))]
fn faults_among(i: Instruction<'_>, counts: Counts) -> Faults
    ensures { FaultsIn (kind_number i.entry.kind) (values_of i.entry) counts.slots counts.instructions result }
{
    let pattern = Pattern::of(i.kind);
    let mut faults = Faults::default();
    for (j, field) in i.fields.iter().enumerate() {
        let role = pattern.role(j);
        let x = bytes::number(*field);
        faults.modules |= bad_module(role, x);
        faults.slots |= no_slot(role, x, counts.slots);
        faults.targets |= no_target(role, x, counts.instructions);
    }
    faults
}

// Whether one of the numbers is at or above a bound.
pub fn any_above(fields: &[[u8; 4]], bound: usize) -> bool
    ensures { result ≡ any_above bound (map number_in fields.now) }
{
    fields.iter().fold(
        false,
        |above, field| above | (bound <= bytes::number(*field) as usize),
    )
}

impl Faults {
    ghost use Rattle.std.specs.Prelude.{◌≡◌};
    ghost use Rattle.format.specs.Answers.{refusal_in};

    // The first refusal that they are: 3, then 7, then 8.
    pub fn refusal(self) -> Option<Refusal>
        ensures { result ≡ refusal_in self }
    {
        if self.modules {
            Some(Refusal::BadBody)
        } else if self.slots {
            Some(Refusal::NoSuchSlot)
        } else if self.targets {
            Some(Refusal::NoSuchTarget)
        } else {
            None
        }
    }
}
