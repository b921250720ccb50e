// A sheet that passed the checks, with what is known of it.
ghost use Rattle.std.specs.Prelude.{◌≡◌, Ok};
ghost use Rattle.sheet.specs.Scripts.{checked_of};
ghost use Rattle.instructions.specs.Sound.{Sound};
ghost use Rattle.instructions.specs.SoundOnce.{Sound-prop};

use sheet::script::{Refused, Script};

#[derive(Clone, Copy, PartialEq, Eq, Debug)]
pub struct Sheet<'a> {
    pub bytes: &'a [u8],
    pub script: Script,
    pub ghost sound: { Sound bytes.now script } by { Sound-prop bytes.now script },
}

// One whose script is the checks' own. `Sound`, all that the judging needs, holds of some other scripts of these bytes too.
#[derive(Clone, Copy, PartialEq, Eq, Debug)]
pub struct CheckedSheet<'a> {
    pub sheet: Sheet<'a>,
    pub ghost passed: { checked_of sheet.bytes.now ≡ Ok sheet.script },
}

impl<'a> Sheet<'a> {
    ghost use Rattle.instructions.specs.Sheets.{SheetChecks};

    // The sheet checks, 1 to 9 and 17.
    pub fn check(bytes: &'a [u8]) -> Result<Self, Refused>
        ensures { SheetChecks bytes.now result }
    {
        let script = sheet::check(bytes)?;
        Ok(Sheet { bytes, script })
    }
}

impl<'a> CheckedSheet<'a> {
    ghost use Rattle.instructions.specs.Sheets.{SheetChecks, sheet_in};

    // The same.
    pub fn check(bytes: &'a [u8]) -> Result<Self, Refused>
        ensures { SheetChecks bytes.now (sheet_in result) }
    {
        let sheet = Sheet::check(bytes)?;
        Ok(CheckedSheet { sheet })
    }
}
