// A sheet examined, with or without an added set of parameters. Such a set is lent as words: slot i is bit i % 64 of word i / 64.
#![tactic(auto)]

ghost use Rattle.std.specs.Prelude.{◌≡◌, ◌≤◌, length, MatchOption};
ghost use Rattle.budget.specs.Budget.{counted};
ghost use Rattle.sheet.specs.Decode.{parts_of};
ghost use Rattle.sheet.specs.Scripts.{checked_of};
ghost use Rattle.script.specs.Script.{parameter_in};
ghost use Rattle.examine.specs.Examine.{Examines};
ghost use Rattle.added.specs.Added.{width_of, strays};
ghost use Rattle.instructions.specs.Sheets.{sheet_in};
ghost use Rattle.added.specs.Examine.{tested_of, tested_sheet, Tests, ExaminesWith};

use budget::{FlowBudget, Limits};
use examine::Examined;
use format::refusal::Refusal;
use instructions::checked::CheckedSheet;
use sheet::script::{Refused, Script};

// The checks; then the judging, with the slots of `added`, if there is such a set, as parameters beside the sheet's own. `added` is only read, and words
// past those that the slots take are not looked at.
pub fn examine(
    sheet: &[u8],
    added: Option<&[u64]>,
    limits: Limits,
    budget: FlowBudget,
    s: &mut [u64],
    t: &mut [u64],
    records: usize,
) -> Result<Examined, examine::Refused>
    ensures { MatchOption added.entry (Examines sheet.now (parameter_in (parts_of sheet.now)) (counted limits) records budget s.old s.new t.old t.new result)
        (λ set. ExaminesWith sheet.now set.now (counted limits) records budget s.old s.new t.old t.new result) }
{
    match check(sheet, added, s.len()) {
        Err(e) => Err(examine::refuse(t, e.why, e.id, budget)),
        Ok(checked) => examine::passed(
            &checked.sheet,
            added.unwrap_or(&[]),
            limits,
            budget,
            s,
            t,
            records,
        ),
    }
}

// The sheet checks; then the test of an added set.
fn check<'a>(
    sheet: &'a [u8],
    added: Option<&[u64]>,
    scratch: usize,
) -> Result<CheckedSheet<'a>, Refused>
    ensures { MatchOption added.entry (Tests sheet.now (checked_of sheet.now) (sheet_in result))
        (λ set. Tests sheet.now (tested_sheet set.now scratch (checked_of sheet.now)) (sheet_in result)) }
{
    let checked = CheckedSheet::check(sheet)?;
    if let Some(set) = added {
        test(set, checked.sheet.script, scratch)?;
    }
    Ok(checked)
}

// Whether an added set is taken, or why it is not: 10 if it or scratch is too short; then 7 if a bit of the words that the slots take is no slot.
fn test(added: &[u64], script: Script, scratch: usize) -> Result<(), Refused>
    requires { (script.count ≤ 65536) × (script.slots ≤ 65536) }
    ensures { result ≡ tested_of added.now script scratch }
{
    let id = script.id;
    if scratch < 4 * script.count || added.len() < script.slots.div_ceil(64) {
        return Err(Refused {
            why: Refusal::NoRoom,
            id,
        });
    }
    if has_stray(added, script.slots) {
        return Err(Refused {
            why: Refusal::NoSuchSlot,
            id,
        });
    }
    Ok(())
}

// Whether a bit of the words that so many slots take is no slot: only the last of these words can have one.
fn has_stray(added: &[u64], slots: usize) -> bool
    requires { (slots ≤ 65536) × (width_of slots ≤ length added.now) }
    ensures { result ≡ strays slots added.now }
{
    if slots % 64 == 0 {
        return false;
    }
    added[slots / 64] >> (slots % 64) != 0
}
