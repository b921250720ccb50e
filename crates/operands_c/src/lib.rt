// The operand functions for hosts in C and Rust. An instruction is a kind and the bytes of its fields; each answer is a number, and
// 18,446,744,073,709,551,615 where there is none: no such kind, bytes that do not fit its pattern, or no such operand. C has no `Option` and no
// type of its own for a kind, so that `kind` is a number too, and each operand has an export of its own.
#![tactic(auto)]

ghost use Rattle.std.specs.Prelude.{◌≡◌, ◌≤◌};
ghost use Rattle.operands_c.specs.Exports.{Parses, number_of, input_count, input, output, target_count, target};

use operands::instruction::Instruction;
use operands::kind::Kind;

const NOTHING: u64 = u64::MAX;

// The instruction of this kind whose fields are all of the bytes.
#[tactic(auto, unfolding(crate::specs::Exports::well_formed))]
fn parse(kind: u64, body: &[u8]) -> Option<Instruction<'_>>
    ensures { Parses kind body.now result }
{
    // Tested here, so that both conversions come to this one comparison.
    if kind < 1 || 41 < kind {
        return None;
    }
    let kind = Kind::try_from(u16::try_from(kind).ok()?).ok()?;
    let (fields, left) = body.as_chunks::<4>();
    if !left.is_empty() {
        return None;
    }
    Instruction::new(kind, fields)
}

fn answer(number: Option<u32>) -> u64
    ensures { result ≡ number_of number }
{
    number.map_or(NOTHING, u64::from)
}

// How many slots the instruction reads.
#[unsafe(no_mangle)]
#[tactic(auto, unfolding(crate::specs::Exports::input_count))]
pub extern "C" fn kagari_input_count(kind: u64, body: &[u8]) -> u64
    ensures { result ≡ input_count kind body.now }
{
    let Some(i) = parse(kind, body) else {
        return NOTHING;
    };
    i.input_count() as u64
}

// The k-th slot that it reads.
#[unsafe(no_mangle)]
#[tactic(auto, unfolding(crate::specs::Exports::input))]
pub extern "C" fn kagari_input(kind: u64, body: &[u8], k: u64) -> u64
    ensures { result ≡ input kind body.now k }
{
    let Some(i) = parse(kind, body) else {
        return NOTHING;
    };
    answer(i.input(k as usize).map(|slot| slot.0))
}

// The slot that it writes.
#[unsafe(no_mangle)]
#[tactic(auto, unfolding(crate::specs::Exports::output))]
pub extern "C" fn kagari_output(kind: u64, body: &[u8]) -> u64
    ensures { result ≡ output kind body.now }
{
    let Some(i) = parse(kind, body) else {
        return NOTHING;
    };
    answer(i.output().map(|slot| slot.0))
}

// How many targets it names.
#[unsafe(no_mangle)]
#[tactic(auto, unfolding(crate::specs::Exports::target_count))]
pub extern "C" fn kagari_target_count(kind: u64, body: &[u8]) -> u64
    ensures { result ≡ target_count kind body.now }
{
    let Some(i) = parse(kind, body) else {
        return NOTHING;
    };
    i.target_count() as u64
}

// The k-th target that it names.
#[unsafe(no_mangle)]
#[tactic(auto, unfolding(crate::specs::Exports::target))]
pub extern "C" fn kagari_target(kind: u64, body: &[u8], k: u64) -> u64
    ensures { result ≡ target kind body.now k }
{
    let Some(i) = parse(kind, body) else {
        return NOTHING;
    };
    answer(i.target(k as usize).map(|target| target.0))
}
