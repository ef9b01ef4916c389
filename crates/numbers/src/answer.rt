// The refusals, each with its number, the first byte of its reply. A command that is done answers 0.
ghost use Rattle.std.specs.Prelude.{◌≡◌};
ghost use Rattle.numbers.specs.Codes.{code_of};

#[derive(Clone, Copy, Debug, PartialEq, Eq)]
pub enum Refusal {
    Form = 1,
    Area = 2,
    Range = 3,
    Busy = 4,
    NoStep = 5,
    Idle = 6,
    Stale = 7,
    Absent = 8,
    Taken = 9,
    Full = 10,
    Dry = 11,
    Holds = 12,
    InUse = 13,
    Chart = 14,
    Table = 15,
}

impl Refusal {
    // The first byte of its reply.
    pub fn code(self) -> u8
        ensures { result ≡ code_of self }
    {
        self as u8
    }
}
