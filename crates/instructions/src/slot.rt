// A slot where its record stands.
ghost use Rattle.std.specs.Prelude.{◌≡◌};
ghost use Rattle.instructions.specs.Slots.{SlotStands, slot_record_at, host_record, host_slot_at};

use format::types::Tag;
use format::{bytes, types};

// The physical byte of a host handle. The byte stays a number from 0 to 12, since few of its values have a name: this one, and those of a slot that
// holds nothing, 0 and 1.
pub const HOST_HANDLE: u8 = 10;

#[derive(Clone, Copy, PartialEq, Eq, Debug)]
pub struct SlotRecord {
    pub physical: u8,
    // whether `inline_host` of flow.rs accepts the type
    pub inline_host: bool,
    // where the next record begins
    pub next: usize,
}

// What the row of host slots needs of a record. It is no `SlotRecord`, whose type the shortcut in `host_at` does not read.
#[derive(Clone, Copy, PartialEq, Eq, Debug)]
pub struct HostSlot {
    pub host: bool,
    // where the next record begins
    pub next: usize,
}

// The slot whose record stands at an offset, of whatever type.
#[tactic(auto, using(crate::proofs::SlotLaws::slot_lies))]
fn any_slot_at(s: &[u8], at: usize) -> SlotRecord
    requires { SlotStands s.now at }
    ensures { result ≡ slot_record_at s.now at }
{
    let next = at + 2 + bytes::u16_at(s, at) as usize;
    let body = &s[at + 4..next];
    SlotRecord {
        physical: body[0],
        inline_host: types::whole_type(body, 1).is_some_and(|read| read.host),
        next,
    }
}

// Whether the slot whose record stands at an offset is a host slot. In a body of two bytes, as most are, the second is the type. Host slots stand in
// no order that a branch could follow, so the tests are joined by |.
#[tactic(auto, using(crate::proofs::SlotLaws::slot_lies))]
pub fn host_at(s: &[u8], at: usize) -> HostSlot
    requires { SlotStands s.now at }
    ensures { result ≡ host_slot_at s.now at }
{
    if bytes::u16_at(s, at) == 4 {
        let tag = s[at + 5];
        let inline_host = (tag == Tag::Host as u8) | (tag == Tag::Reference as u8);
        return HostSlot {
            host: (s[at + 4] == HOST_HANDLE) | inline_host,
            next: at + 6,
        };
    }
    let record = any_slot_at(s, at);
    HostSlot {
        host: record.is_host(),
        next: record.next,
    }
}

impl SlotRecord {
    // Whether it is a host slot: a host handle, or a type that `inline_host` accepts.
    pub fn is_host(self) -> bool
        ensures { result ≡ host_record self }
    {
        (self.physical == HOST_HANDLE) | self.inline_host
    }
}
