// A reader of a sheet, above the checks of one record.
#![tactic(auto)]

use format::fields::Counts;
use format::refusal::Refusal;
use operands::kind::Kind;
use records::record;

// A sheet and a position in it. Each method reads a record there: if it passes, the reader stands behind it, else where it stood.
#[derive(Clone, Copy, PartialEq, Eq, Debug)]
pub struct Reader<'a> {
    pub sheet: &'a [u8],
    pub at: usize,
}

impl<'a> Reader<'a> {
    ghost use Rattle.std.specs.Prelude.{◌≡◌, ◌+◌, ◌*◌};
    ghost use Rattle.records.specs.Records.{plain_run};
    ghost use Rattle.reader.specs.Steps.{ReadsFunction, ReadsParameters, ReadsSlot, ReadsInstruction};

    // A reader at a position of a sheet.
    pub fn new(sheet: &'a [u8], at: usize) -> Reader<'a>
        ensures { (result.sheet ≡ sheet.entry) × (result.at ≡ at) }
    {
        Reader { sheet, at }
    }

    // The function record.
    pub fn function(&mut self) -> Result<(), Refusal>
        ensures { ReadsFunction self.old self.new result }
    {
        self.at = record::function_record(self.sheet, self.at)?;
        Ok(())
    }

    // The parameter record of a function with so many slots.
    pub fn parameters(&mut self, slots: usize) -> Result<(), Refusal>
        ensures { ReadsParameters slots self.old self.new result }
    {
        self.at = record::parameter_record(self.sheet, self.at, slots)?;
        Ok(())
    }

    // A slot record.
    pub fn slot(&mut self) -> Result<(), Refusal>
        ensures { ReadsSlot self.old self.new result }
    {
        self.at = record::slot_record(self.sheet, self.at)?;
        Ok(())
    }

    // An instruction record, of which it answers the kind.
    pub fn instruction(&mut self, counts: Counts) -> Result<Kind, Refusal>
        ensures { ReadsInstruction counts self.old self.new result }
    {
        let code = record::instruction_record(self.sheet, self.at, counts)?;
        self.at = code.next;
        Ok(code.kind)
    }

    // The plain slot records with types up to this one, at most so many: how many they are.
    #[tactic(auto, using(records::proofs::RunLaws::plain_run_inside))]
    pub fn plain_slots(&mut self, top: usize, most: usize) -> usize
        ensures count { result ≡ plain_run self.old.sheet.now top self.old.at most }
        ensures sheet { self.new.sheet ≡ self.old.sheet }
        ensures at { self.new.at ≡ self.old.at + 6 * result }
    {
        let plain = record::plain_slots(self.sheet, top, most, self.at);
        self.at += 6 * plain;
        plain
    }
}
