// The checks of one record, the least number of the refusal table first.
ghost use Rattle.std.specs.Prelude.{◌≡◌, ◌+◌, ◌≤◌, length, not};
ghost use Rattle.operands.specs.Kinds.{kind_of};
ghost use Rattle.format.specs.Heads.{kind_at, end_at};
ghost use Rattle.format.specs.Refusals.{answered};
ghost use Rattle.records.specs.Records.{top_physical, bad_slot, plain_slot, plain_run, function_fault, parameter_slots_fault, slot_fault, instruction_fault};
ghost use Rattle.records.specs.Steps.{IsDue};

use format::fields::Counts;
use format::record::{Record, record_at};
use format::refusal::Refusal;
use format::types::Tag;
use format::{bytes, fields, types};
use operands::instruction::Instruction;
use operands::kind::Kind;

// The kinds of the records that are no instructions. Each is what stands in a head, which is compared with the one that is due: an enum of the three
// would be made a number again at each place.
pub const FUNCTION: u16 = 256;

pub const PARAMETERS: u16 = 257;

pub const SLOT: u16 = 258;

// An instruction record that passed: its kind, and where the next record begins.
#[derive(Clone, Copy, PartialEq, Eq, Debug)]
pub struct Code {
    pub kind: Kind,
    pub next: usize,
}

// The record at an offset, if it has the kind that is due: 1, then 2.
fn due_record<'a>(s: &'a [u8], at: usize, kind: u16) -> Result<Record<'a>, Refusal>
    ensures { IsDue s.now at kind result }
{
    let record = record_at(s, at).ok_or(Refusal::ShortSheet)?;
    if record.kind != kind {
        return Err(Refusal::WrongKind);
    }
    Ok(record)
}

// The function record at an offset, its numbers not yet judged. It answers where the next record begins, as the others do.
#[tactic(auto, using(format::proofs::BodyLaws::body_size), unfolding(crate::specs::Records::function_fault))]
pub fn function_record(s: &[u8], at: usize) -> Result<usize, Refusal>
    ensures { result ≡ answered (function_fault s.now at) (end_at s.now at) }
{
    let record = due_record(s, at, FUNCTION)?;
    if record.body.len() != 12 {
        return Err(Refusal::BadBody);
    }
    Ok(record.next)
}

// The parameter record at an offset: 17 is looked at afterwards.
#[tactic(auto, using(format::proofs::BodyLaws::body_size, format::proofs::BodyLaws::body_fields), unfolding(crate::specs::Records::parameter_slots_fault))]
pub fn parameter_record(s: &[u8], at: usize, slots: usize) -> Result<usize, Refusal>
    ensures { result ≡ answered (parameter_slots_fault s.now slots at) (end_at s.now at) }
{
    let record = due_record(s, at, PARAMETERS)?;
    let (numbers, rest) = record.body.as_chunks::<4>();
    if !rest.is_empty() {
        return Err(Refusal::BadBody);
    }
    if fields::any_above(numbers, slots) {
        return Err(Refusal::NoSuchSlot);
    }
    Ok(record.next)
}

// Whether the body of a slot record fits: one physical byte, 0 to 12, then a type that ends with the record.
#[tactic(auto, unfolding(crate::specs::Records::bad_slot))]
fn is_slot(body: &[u8]) -> bool
    ensures { result ≡ not (bad_slot body.now 0 (length body.now)) }
{
    body.first().is_some_and(|physical| *physical <= 12)
        && types::whole_type(body, 1).is_some_and(|typed| typed.end == body.len())
}

// The slot record at an offset.
#[tactic(auto, using(crate::proofs::RecordLaws::slot_in_body), unfolding(crate::specs::Records::slot_fault))]
pub fn slot_record(s: &[u8], at: usize) -> Result<usize, Refusal>
    ensures { result ≡ answered (slot_fault s.now at) (end_at s.now at) }
{
    let record = due_record(s, at, SLOT)?;
    if !is_slot(record.body) {
        return Err(Refusal::BadBody);
    }
    Ok(record.next)
}

// The instruction record at an offset: kinds 1 to 41, each by its pattern.
#[tactic(auto, using(format::proofs::BodyLaws::body_size, format::proofs::BodyLaws::body_fields, operands::proofs::KindLaws::kind_back), unfolding(crate::specs::Records::instruction_fault, crate::specs::Records::bad_instruction))]
pub fn instruction_record(s: &[u8], at: usize, counts: Counts) -> Result<Code, Refusal>
    ensures { result ≡ answered (instruction_fault s.now counts.slots counts.instructions at) (record { kind = kind_of (kind_at s.now at); next = end_at s.now at }) }
{
    let record = record_at(s, at).ok_or(Refusal::ShortSheet)?;
    let Ok(kind) = Kind::try_from(record.kind) else {
        return Err(Refusal::WrongKind);
    };
    let (numbers, rest) = record.body.as_chunks::<4>();
    if !rest.is_empty() {
        return Err(Refusal::BadBody);
    }
    let instruction = Instruction::new(kind, numbers).ok_or(Refusal::BadBody)?;
    let faults = fields::field_faults(instruction, counts);
    match faults.refusal() {
        Some(why) => Err(why),
        None => Ok(Code {
            kind,
            next: record.next,
        }),
    }
}

// The largest physical byte beside types up to this one: 10 is a host handle.
fn top_physical(top: usize) -> u8
    ensures { result ≡ top_physical top }
{
    if top <= Tag::Other as usize {
        return 9;
    }
    12
}

// Whether six bytes are a slot record with a type of one byte, at most this one: most are so. Its head is one number: length 4, kind 258. A comparison
// of each was tried: where slots are plain the sheet checks took twice as long.
#[tactic(auto, unfolding(crate::specs::Records::plain_slot))]
fn plain_slot(s: &[u8], top: usize, at: usize) -> bool
    requires { at + 6 ≤ length s.now }
    ensures { result ≡ plain_slot s.now top at }
{
    operands::bytes::u32_at(s, at) == 4 + ((SLOT as u32) << 16)
        && s[at + 4] <= top_physical(top)
        && s[at + 5] as usize <= top
}

// How many plain slot records, of six bytes each, with types up to this one stand one after the other from an offset on, at most so many.
#[tactic(auto, using(crate::proofs::RunLaws::plain_run_far, crate::proofs::RunLaws::plain_run_more, crate::proofs::RunLaws::plain_run_stop))]
pub fn plain_slots(s: &[u8], top: usize, most: usize, at: usize) -> usize
    ensures { result ≡ plain_run s.now top at most }
{
    if s.len() < at {
        return 0;
    }
    let n = most.min((s.len() - at) / 6);
    for k in 0..n {
        if !plain_slot(s, top, at + 6 * k) {
            return k;
        }
    }
    n
}
