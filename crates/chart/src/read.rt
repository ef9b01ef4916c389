// Reading a chart: its records' bytes, its states, and which lies in which.
ghost use Rattle.std.specs.Prelude.{◌≡◌, ◌+◌, ◌*◌, ◌<◌, ◌≤◌};
ghost use Rattle.chart.specs.Chart.{among, byte, has, is_signal, outward, parent, states};
ghost use Rattle.chart.specs.Numbers.{Plain, most_flag, most_states, row_filler};

use ground::byte_at;

// The two editions of charts: the plain ones, and those whose rows may name a flag.
#[derive(Clone, Copy, Debug, PartialEq, Eq)]
pub enum Edition {
    Plain,
    Guarded,
}

// The kinds of a chart's records, each with the number that is the first byte of its records.
#[derive(Clone, Copy, Debug, PartialEq, Eq)]
pub enum RecordKind {
    State = 1,
    Row = 2,
    Top = 3,
}

// The most states of a plain and of a guarded chart, the levels of either, and the signals as bytes.
pub const MOST_STATES: usize = 24;

pub const MOST_GUARDED_STATES: usize = 8;

pub const LEVELS: usize = 6;

pub const FIRST_SIGNAL: u8 = numbers::FIRST_SIGNAL as u8;

pub const LAST_SIGNAL: u8 = numbers::LAST_SIGNAL as u8;

// What stands at which byte of a state's record.
pub const PARENT: usize = 1;

pub const ENTRY: usize = 2;

pub const EXIT: usize = 3;

pub const INITIAL: usize = 4;

pub const INITIAL_ACTION: usize = 5;

// Where a row's record has its flag.
pub const FLAG: usize = 6;

impl Edition {
    pub fn most_states(self) -> usize
        ensures { (result ≡ most_states self) × (result ≤ most_states Plain) }
    {
        match self {
            Edition::Plain => MOST_STATES,
            Edition::Guarded => MOST_GUARDED_STATES,
        }
    }

    // The highest flag that a row may name.
    pub fn most_flag(self) -> u8
        ensures { result ≡ most_flag self }
    {
        match self {
            Edition::Plain => 0,
            Edition::Guarded => numbers::FLAGS as u8,
        }
    }

    // Where the filler of a row's record begins.
    pub fn row_filler(self) -> usize
        ensures { result ≡ row_filler self }
    {
        match self {
            Edition::Plain => FLAG,
            Edition::Guarded => FLAG + 1,
        }
    }
}

// Byte k of record i, 0 past the chart's end.
pub fn field(chart: &[u8], i: usize, k: usize) -> u8
    requires { 8 * i + k < 18446744073709551616 }
    ensures { result ≡ byte chart.now i k }
{
    byte_at(chart, 8 * i + k)
}

// Byte k of the record of state s.
pub fn state_field(chart: &[u8], s: u8, k: usize) -> u8
    requires { k < 8 }
    ensures { result ≡ byte chart.now s k }
{
    field(chart, usize::from(s), k)
}

// The state that contains s; nothing contains the top, 0.
#[tactic(auto, unfolding(crate::specs::Chart::parent))]
pub fn parent_of(chart: &[u8], s: u8) -> u8
    ensures { result ≡ parent chart.now s }
{
    if s == 0 {
        return 0;
    }
    state_field(chart, s, PARENT)
}

// How many states the chart has: the records of kind 1 that follow the first record.
pub fn state_count(chart: &[u8]) -> usize
    ensures { result ≡ states chart.now }
{
    let records = chart.len() / 8;
    for i in 1..records {
        if field(chart, i, 0) != RecordKind::State as u8 {
            return i - 1;
        }
    }
    records.saturating_sub(1)
}

// Whether s is one of 1 to n.
#[tactic(auto, unfolding(crate::specs::Chart::among))]
pub fn is_among(n: usize, s: u8) -> bool
    ensures { result ≡ among n s }
{
    1 <= s && usize::from(s) <= n
}

// Whether g is a signal.
#[tactic(auto, unfolding(crate::specs::Chart::is_signal))]
pub fn is_signal(g: u8) -> bool
    ensures { result ≡ is_signal g }
{
    FIRST_SIGNAL <= g && g <= LAST_SIGNAL
}

// Whether x contains, or is, s.
pub fn contains(chart: &[u8], x: u8, s: u8) -> bool
    ensures { result ≡ has x (outward chart.now s) }
{
    let mut t = s;
    for k in 0..LEVELS {
        if t == 0 {
            return false;
        }
        if t == x {
            return true;
        }
        t = parent_of(chart, t);
    }
    false
}
