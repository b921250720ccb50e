// Numbers of three kinds, as tuple structs, so that none can index another's store.
ghost use Rattle.std.specs.Prelude.{◌≡◌, ◌<◌, ◌≤◌, MatchResult};

// A slot of the function.
#[derive(Clone, Copy, PartialEq, Eq, Debug)]
pub struct Slot(pub u32);

// A slot of the module's store (kinds 6 and 7). It never counts a slot of the function.
#[derive(Clone, Copy, PartialEq, Eq, Debug)]
pub struct ModuleSlot(pub u16);

// An instruction that a branch or a jump may go to.
#[derive(Clone, Copy, PartialEq, Eq, Debug)]
pub struct JumpTarget(pub u32);

// A number that is no module slot: it is above 65,535.
#[derive(Clone, Copy, PartialEq, Eq, Debug)]
pub struct NoModuleSlot(pub u32);

impl From<u32> for Slot {
    ghost from_gives = { λ number slot. slot.0 ≡ number };

    fn from(number: u32) -> Slot {
        Slot(number)
    }
}

impl From<u32> for JumpTarget {
    ghost from_gives = { λ number target. target.0 ≡ number };

    fn from(number: u32) -> JumpTarget {
        JumpTarget(number)
    }
}

impl TryFrom<u32> for ModuleSlot {
    type Error = NoModuleSlot;

    ghost try_from_gives = { λ number r. MatchResult r (λ slot. slot.0 ≡ number) (λ e. (e.0 ≡ number) × (65535 < number)) };

    fn try_from(number: u32) -> Result<ModuleSlot, NoModuleSlot> {
        match u16::try_from(number) {
            Ok(slot) => Ok(ModuleSlot(slot)),
            Err(_) => Err(NoModuleSlot(number)),
        }
    }
}

// `index` stands three times, a line each: `usize: From<..>` would be three impls too, and say less where a row is indexed.
impl Slot {
    pub fn index(self) -> usize
        ensures { result ≡ self.0 }
    {
        self.0 as usize
    }
}

impl ModuleSlot {
    pub fn index(self) -> usize
        ensures { result ≡ self.0 }
    {
        self.0 as usize
    }
}

impl JumpTarget {
    pub fn index(self) -> usize
        ensures { result ≡ self.0 }
    {
        self.0 as usize
    }
}
