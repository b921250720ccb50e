// Why a call refuses: the refusal table of document 01, in its order.
ghost use Rattle.std.specs.Prelude.{◌≡◌};
ghost use Rattle.format.specs.Refusals.{number_of};

#[derive(Clone, Copy, PartialEq, Eq, Debug)]
pub enum Refusal {
    ShortSheet = 1,
    WrongKind = 2,
    BadBody = 3,
    LeftOver = 4,
    TooMany = 5,
    NoCode = 6,
    NoSuchSlot = 7,
    NoSuchTarget = 8,
    OpenEnd = 9,
    NoRoom = 10,
    StateLimit = 11,
    WorkLimit = 12,
    UnfilledSlot = 13,
    HostOverAwait = 14,
    FactsLimit = 15,
    ParameterTwice = 17,
}

impl Refusal {
    // Its number in the table. `u64::from(why)` would be the same cast, and not say that it is the table's number.
    pub fn number(self) -> u64
        ensures { result ≡ number_of self }
    {
        self as u64
    }
}
