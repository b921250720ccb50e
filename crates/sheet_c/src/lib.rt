// The sheet checks, 1 to 9 and 17, for hosts in C and Rust.
#![tactic(auto)]

ghost use Rattle.std.specs.Prelude.{◌≡◌};
ghost use Rattle.sheet.specs.Scripts.{checked_of};
ghost use Rattle.sheet_c.specs.Exports.{facts_of};

use sheet::script::{Refused, Script};

// Number 0 and what the engine has to know of the sheet; or the number of the refusal, with the function's id alone. C has no `Result`, so number 0
// says that the sheet passed, and the rest is 0 where it did not.
#[repr(C)]
#[derive(Clone, Copy, PartialEq, Eq, Debug)]
pub struct SheetFacts {
    pub number: u64,
    pub id: u64,
    pub slots: u64,
    // how many instructions there are
    pub count: u64,
    // where the first parameter stands, and how many there are
    pub params_at: u64,
    pub params: u64,
    // where the first slot record and the first instruction record stand
    pub slots_at: u64,
    pub code_at: u64,
    // how many instructions are awaits
    pub awaits: u64,
}

impl From<Result<Script, Refused>> for SheetFacts {
    ghost use Rattle.std.specs.Prelude.{◌≡◌};
    ghost use Rattle.sheet_c.specs.Exports.{facts_of};

    ghost from_gives = { λ checked facts. facts ≡ facts_of checked };

    fn from(checked: Result<Script, Refused>) -> SheetFacts {
        match checked {
            Ok(script) => SheetFacts {
                number: 0,
                id: script.id as u64,
                slots: script.slots as u64,
                count: script.count as u64,
                params_at: script.params_at as u64,
                params: script.params as u64,
                slots_at: script.slots_at as u64,
                code_at: script.code_at as u64,
                awaits: script.awaits as u64,
            },
            Err(refused) => SheetFacts {
                number: refused.why.number(),
                id: refused.id as u64,
                slots: 0,
                count: 0,
                params_at: 0,
                params: 0,
                slots_at: 0,
                code_at: 0,
                awaits: 0,
            },
        }
    }
}

// The sheet checks, 1 to 9 and 17.
#[unsafe(no_mangle)]
pub extern "C" fn kagari_sheet_check(sheet: &[u8]) -> SheetFacts
    ensures { result ≡ facts_of (checked_of sheet.now) }
{
    sheet::check(sheet).into()
}
