// The faults of a chart.
ghost use Rattle.std.specs.Prelude.{◌≡◌};
ghost use Rattle.chart.specs.Faults.{class};

// The faults, each with its class; the lowest that applies is told.
#[derive(Clone, Copy, Debug, PartialEq, Eq)]
pub enum Fault {
    Length = 1,
    Form = 2,
    Tree = 3,
    Rows = 4,
}

impl Fault {
    pub fn class(self) -> u8
        ensures { result ≡ class self }
    {
        self as u8
    }
}
