// The operands of an instruction one after the other.
ghost use Rattle.std.specs.Prelude.{◌≡◌, true, length};
ghost use Rattle.operands.specs.Patterns.{fits, single_of};
ghost use Rattle.operands.specs.Kinds.{kind_number};
ghost use Rattle.operands.specs.Roles.{role_number};

use crate::bytes;
use crate::instruction::ABSENT;
use crate::pattern::{Pattern, Role};
use crate::slots::{JumpTarget, Slot};

// The operands of one class among the single fields, from field `next` on: those of role `always`, and those of role `maybe` that are not absent.
#[derive(Clone, Copy, PartialEq, Eq, Debug)]
pub struct Singles<'a> {
    pattern: Pattern,
    fields: &'a [[u8; 4]],
    always: Role,
    maybe: Role,
    next: usize,
    ghost fitting: { fits (kind_number pattern.kind) (length fields.now) ≡ true },
    ghost always_single: { single_of (role_number always) ≡ 1 },
    ghost maybe_single: { single_of (role_number maybe) ≡ 1 },
}

// The slots that an instruction reads, in order: those of `Rest` before the single ones.
#[derive(Clone, Copy, PartialEq, Eq, Debug)]
pub struct Inputs<'a> {
    rest: &'a [[u8; 4]],
    singles: Singles<'a>,
}

// The instructions that it names as targets, in order.
#[derive(Clone, Copy, PartialEq, Eq, Debug)]
pub struct Targets<'a>(Singles<'a>);

impl<'a> Singles<'a> {
    ghost use Rattle.std.specs.Prelude.{◌≡◌, [], true, ◌<◌, ◌≤◌, length, map, get_or};
    ghost use Rattle.operands.specs.Patterns.{role_at};
    ghost use Rattle.operands.specs.Places.{absent, present};
    ghost use Rattle.operands.specs.Bytes.{number_in};
    ghost use Rattle.operands.specs.Instructions.{nth, single_values, singles_from, singles_left};

    // Those among the fields of a record of this pattern.
    pub(crate) fn new(
        pattern: Pattern,
        fields: &'a [[u8; 4]],
        always: Role,
        maybe: Role,
    ) -> Singles<'a>
        requires fitting { fits (kind_number pattern.kind) (length fields.now) ≡ true }
        requires always_single { single_of (role_number always) ≡ 1 }
        requires maybe_single { single_of (role_number maybe) ≡ 1 }
        ensures holds { (result.pattern.kind ≡ pattern.kind) × (result.fields.now ≡ fields.now) × (result.always ≡ always) × (result.maybe ≡ maybe) }
        ensures left { singles_left result ≡ singles_from (role_number always) (role_number maybe) (kind_number pattern.kind) (map number_in fields.now) 0 }
    {
        Singles {
            pattern,
            fields,
            always,
            maybe,
            next: 0,
        }
    }

    // What stands in field j, if it is such an operand.
    pub(crate) fn at(self, j: usize) -> Option<u32>
        requires { j < 4 }
        ensures { result ≡ nth (single_values (role_number self.entry.always) (role_number self.entry.maybe) (role_at (kind_number self.entry.pattern.kind) j) (get_or (map number_in self.entry.fields.now) j absent)) 0 }
    {
        let role = self.pattern.role(j);
        if role == self.always {
            Some(self.value(j))
        } else if role == self.maybe {
            Singles::present(self.value(j))
        } else {
            None
        }
    }

    // The value of field j, a single one.
    fn value(self, j: usize) -> u32
        requires { (j < 4) × (single_of (role_at (kind_number self.pattern.kind) j) ≡ 1) }
        ensures { result ≡ get_or (map number_in self.entry.fields.now) j absent }
    {
        bytes::number(self.fields[j])
    }

    // How many are left. Not by `count`, which walks by `next`: with a fixed end the loop is unrolled, and only fields of role `maybe` are read.
    pub(crate) fn len(self) -> usize
        ensures length { result ≡ length (singles_left self.entry) }
        ensures few { result ≤ 4 }
    {
        let mut len = 0;
        for j in self.next..4 {
            if self.at(j).is_some() {
                len += 1;
            }
        }
        len
    }

    // The k-th that is left. Not by `nth`, as `len` is not by `count`.
    pub(crate) fn get(self, k: usize) -> Option<u32>
        ensures { result ≡ nth (singles_left self.entry) k }
    {
        let mut before = k;
        for j in self.next..4 {
            if let Some(value) = self.at(j) {
                if before == 0 {
                    return Some(value);
                }
                before -= 1;
            }
        }
        None
    }

    // The value of a field that may be absent.
    fn present(value: u32) -> Option<u32>
        ensures { result ≡ nth (present value []) 0 }
    {
        (value != ABSENT).then_some(value)
    }
}

impl<'a> Iterator for Singles<'a> {
    type Item = u32;

    ghost use Rattle.std.specs.Iterator.{YieldsFirst, item_count};
    ghost use Rattle.operands.specs.Instructions.{singles_left};

    ghost next_gives = { YieldsFirst singles_left };

    ghost remaining = { item_count singles_left };

    fn next(&mut self) -> Option<u32> {
        for j in self.next..self.pattern.single {
            if let Some(value) = self.at(j) {
                self.next = j + 1;
                return Some(value);
            }
        }
        None
    }
}

impl<'a> Inputs<'a> {
    ghost use Rattle.std.specs.Prelude.{◌≡◌, true, length, map};
    ghost use Rattle.operands.specs.Operands.{inputs_of};
    ghost use Rattle.operands.specs.Bytes.{number_in};
    ghost use Rattle.operands.specs.Instructions.{nth, slot_in, inputs_left};

    // Those among the fields of a record of this pattern.
    pub(crate) fn new(pattern: Pattern, fields: &'a [[u8; 4]]) -> Inputs<'a>
        requires { fits (kind_number pattern.kind) (length fields.now) ≡ true }
        ensures { inputs_left result ≡ inputs_of (kind_number pattern.kind) (map number_in fields.now) }
    {
        let (_, rest) = fields.split_at(pattern.single);
        Inputs {
            rest,
            singles: Singles::new(pattern, fields, Role::Input, Role::OptionalInput),
        }
    }

    // The k-th that is left, with no walk through `Rest`.
    pub(crate) fn get(self, k: usize) -> Option<Slot>
        ensures { slot_in result ≡ nth (inputs_left self.entry) k }
    {
        match self.rest.get(k) {
            Some(field) => Some(Slot::from(bytes::number(*field))),
            None => self.singles.get(k - self.rest.len()).map(Slot::from),
        }
    }
}

impl<'a> Iterator for Inputs<'a> {
    type Item = Slot;

    ghost use Rattle.std.specs.Iterator.{YieldsFirstBy, item_count};
    ghost use Rattle.operands.specs.Instructions.{slot_number, inputs_left};

    ghost next_gives = { YieldsFirstBy slot_number inputs_left };

    ghost remaining = { item_count inputs_left };

    fn next(&mut self) -> Option<Slot> {
        if let Some((field, others)) = self.rest.split_first() {
            self.rest = others;
            return Some(Slot::from(bytes::number(*field)));
        }
        self.singles.next().map(Slot::from)
    }
}

impl<'a> ExactSizeIterator for Inputs<'a> {
    fn len(&self) -> usize {
        self.rest.len() + self.singles.len()
    }
}

impl<'a> Targets<'a> {
    ghost use Rattle.std.specs.Prelude.{◌≡◌, true, length, map};
    ghost use Rattle.operands.specs.Operands.{targets_of};
    ghost use Rattle.operands.specs.Bytes.{number_in};
    ghost use Rattle.operands.specs.Instructions.{nth, target_in, targets_left};

    // Those among the fields of a record of this pattern.
    pub(crate) fn new(pattern: Pattern, fields: &'a [[u8; 4]]) -> Targets<'a>
        requires { fits (kind_number pattern.kind) (length fields.now) ≡ true }
        ensures { targets_left result ≡ targets_of (kind_number pattern.kind) (map number_in fields.now) }
    {
        Targets(Singles::new(pattern, fields, Role::Target, Role::Target))
    }

    // The k-th that is left.
    pub(crate) fn get(self, k: usize) -> Option<JumpTarget>
        ensures { target_in result ≡ nth (targets_left self.entry) k }
    {
        self.0.get(k).map(JumpTarget::from)
    }
}

impl<'a> Iterator for Targets<'a> {
    type Item = JumpTarget;

    ghost use Rattle.std.specs.Iterator.{YieldsFirstBy, item_count};
    ghost use Rattle.operands.specs.Instructions.{target_number, targets_left};

    ghost next_gives = { YieldsFirstBy target_number targets_left };

    ghost remaining = { item_count targets_left };

    fn next(&mut self) -> Option<JumpTarget> {
        self.0.next().map(JumpTarget::from)
    }
}

impl<'a> ExactSizeIterator for Targets<'a> {
    fn len(&self) -> usize {
        self.0.len()
    }
}
