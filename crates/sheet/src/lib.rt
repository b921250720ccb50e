// The sheet checks, 1 to 9 and 17.
#![tactic(auto)]

pub mod script;
pub mod walk;

ghost use Rattle.std.specs.Prelude.{◌≡◌};
ghost use Rattle.format.specs.Refusals.{answered};
ghost use Rattle.sheet.specs.Decode.{sizes_fault};
ghost use Rattle.sheet.specs.Code.{closes};
ghost use Rattle.sheet.specs.Stages.{ReadsOnce, last_fault, rest_fault, script_from};
ghost use Rattle.sheet.specs.Checks.{Checks};

use format::fields::Counts;
use format::refusal::Refusal;
use operands::bytes;
use reader::Reader;
use script::{Refused, Script};
use walk::Code;

// The numbers of the function record: 5, then 6.
#[tactic(auto, unfolding(crate::specs::Decode::sizes_fault))]
fn check_counts(counts: Counts) -> Result<(), Refusal>
    ensures { result ≡ answered (sizes_fault counts.slots counts.instructions) tt }
{
    if 65536 < counts.slots || 65536 < counts.instructions {
        return Err(Refusal::TooMany);
    }
    if counts.instructions == 0 {
        return Err(Refusal::NoCode);
    }
    Ok(())
}

// The parameter record, and each parameter named once: 17, which is looked at here, so that no search stands among the checks of a record. It
// answers how many there are.
fn check_parameters(reader: &mut Reader<'_>, slots: usize) -> Result<usize, Refusal>
    ensures { ReadsOnce slots reader.old reader.new result }
{
    let at = reader.at;
    reader.parameters(slots)?;
    let (numbers, _) = reader.sheet[at + 4..reader.at].as_chunks::<4>();
    if repeats::any_twice(numbers, slots) {
        return Err(Refusal::ParameterTwice);
    }
    Ok(numbers.len())
}

// After the last record: 4, then 9.
#[tactic(auto, unfolding(crate::specs::Stages::last_fault))]
fn check_end(s: &[u8], end: usize, code: Code) -> Result<(), Refusal>
    ensures { result ≡ answered (last_fault s.now end (closes code.last)) tt }
{
    if end != s.len() {
        return Err(Refusal::LeftOver);
    }
    if !code.last.is_some_and(|kind| kind.ends_block()) {
        return Err(Refusal::OpenEnd);
    }
    Ok(())
}

// The numbers of the function record, and the records behind it, at which the reader stands: 5 and 6, the parameters, the slots, the
// instructions, then 4 and 9.
fn check_rest(id: u32, counts: Counts, mut reader: Reader<'_>) -> Result<Script, Refusal>
    ensures { let s = reader.entry.sheet.now in
        let at = reader.entry.at in
        result ≡ answered (rest_fault s counts.slots counts.instructions at) (script_from s id counts.slots counts.instructions at) }
{
    check_counts(counts)?;
    let parameters_at = reader.at;
    let params = check_parameters(&mut reader, counts.slots)?;
    let slots_at = reader.at;
    let host_words = walk::walk_slots(&mut reader, counts.slots)?;
    let code_at = reader.at;
    let code = walk::walk_code(&mut reader, counts)?;
    check_end(reader.sheet, reader.at, code)?;
    Ok(Script {
        id,
        slots: counts.slots,
        count: counts.instructions,
        params_at: parameters_at + 4,
        params,
        slots_at,
        code_at,
        host_words,
        awaits: code.awaits,
    })
}

// The sheet checks, 1 to 9 and 17. Document 01 says the id of a refusal: 0 until the function record has passed, so it is no `Option`.
pub fn check(s: &[u8]) -> Result<Script, Refused>
    ensures { Checks s.now result }
{
    let mut reader = Reader::new(s, 0);
    reader.function().map_err(|why| Refused { why, id: 0 })?;
    let id = bytes::u32_at(s, 4);
    let counts = Counts {
        slots: bytes::u32_at(s, 8) as usize,
        instructions: bytes::u32_at(s, 12) as usize,
    };
    check_rest(id, counts, reader).map_err(|why| Refused { why, id })
}
