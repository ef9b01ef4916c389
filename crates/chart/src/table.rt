// The flat table of a chart: the index of the chart's rows, the steps by it, and their bytes.
ghost use Rattle.std.specs.Prelude.{◌∷◌, ◌++◌, ◌≡◌, ◌+◌, ◌-◌, ◌*◌, ◌/◌, ◌%◌, ◌<◌, ◌≤◌, drop, get_or, length, replicate};
ghost use Rattle.chart.specs.Chart.{class_of, outward, row_for, states};
ghost use Rattle.chart.specs.Flat.{behind, row_no, rows_out, slot_bytes};
ghost use Rattle.chart.specs.Held.{noted, nth_out, out_of, row_bytes, row_index, row_number};
ghost use Rattle.chart.specs.Numbers.{Guarded, Plain, each, first_signal, last_signal, longest, most_states, row_count, row_size, signal_count, slot_size};
ghost use Rattle.chart.specs.Step.{row_does};

use super::read::*;
use super::step::*;
use numbers::{ACTIONS_IN_ROW, FLAG_IN_ROW, ROW_BYTES};

// How many signals there are. For each state and signal a guarded table has a row for each level, a plain table one.
pub const SIGNALS: usize = numbers::LAST_SIGNAL - numbers::FIRST_SIGNAL + 1;

pub const GUARDED_ROWS: usize = LEVELS;

const GUARDED_STATE_ROWS: usize = SIGNALS * GUARDED_ROWS;

// The rows behind the start row of a plain table; the index has as many places, in either edition.
const ROWS: usize = MOST_STATES * SIGNALS;

// A row of the table: its flag, and what it does.
#[derive(Clone, Copy, Debug, PartialEq, Eq)]
pub struct Row {
    pub flag: u8,
    pub out: Out,
}

impl Row {
    // A row with no action and no flag.
    #[tactic(auto, unfolding(crate::specs::Held::row_bytes))]
    fn still(next: u8) -> Row
        ensures { row_bytes result ≡ next ∷ replicate (row_size - 1) 0 }
    {
        Row {
            flag: 0,
            out: Out {
                next,
                outcome: Outcome::Ignored,
                acts: Acts::none(),
            },
        }
    }

    // What stands behind the rows for state x: an ignored step, or zeros.
    #[tactic(auto, unfolding(crate::specs::Flat::behind, crate::specs::Flat::row_of, ground::specs::Bytes::padded))]
    fn behind(e: Edition, x: u8) -> Row
        ensures { row_bytes result ≡ behind e x }
    {
        match e {
            Edition::Plain => Row::still(x),
            Edition::Guarded => Row::still(0),
        }
    }

    #[tactic(auto, unfolding(crate::specs::Held::row_bytes))]
    fn bytes(&self) -> [u8; ROW_BYTES]
        ensures { result ≡ row_bytes self.now }
    {
        let mut bytes = [0u8; ROW_BYTES];
        bytes[0] = self.out.next;
        bytes[1] = self.out.outcome as u8;
        bytes[2] = self.out.acts.count;
        bytes[FLAG_IN_ROW] = self.flag;
        bytes[ACTIONS_IN_ROW..FLAG_IN_ROW].copy_from_slice(&self.out.acts.list);
        bytes
    }
}

impl Edition {
    // The bytes of a table.
    pub fn slot_bytes(self) -> usize
        ensures { result ≡ slot_size self }
    {
        match self {
            Edition::Plain => numbers::SLOT_BYTES,
            Edition::Guarded => numbers::GUARDED_AREA,
        }
    }

    // The rows of a table behind the start row; the state and the signal of row k, and which of their rows it is.
    fn row_count(self) -> usize
        ensures { (result ≡ row_count self) × (result ≤ row_count Guarded) × (slot_size self ≡ row_size * result + row_size) }
    {
        match self {
            Edition::Plain => ROWS,
            Edition::Guarded => MOST_GUARDED_STATES * GUARDED_STATE_ROWS,
        }
    }

    fn state_at(self, k: usize) -> usize
        requires { k < row_count Guarded }
        ensures { (result ≡ k / (signal_count * each self) + 1) × (1 ≤ result) }
    {
        match self {
            Edition::Plain => k / SIGNALS + 1,
            Edition::Guarded => k / GUARDED_STATE_ROWS + 1,
        }
    }

    fn signal_at(self, k: usize) -> u8
        ensures { (result ≡ k / each self % signal_count + first_signal) × (first_signal ≤ result) × (result ≤ last_signal) }
    {
        match self {
            Edition::Plain => (k % SIGNALS) as u8 + FIRST_SIGNAL,
            Edition::Guarded => (k / GUARDED_ROWS % SIGNALS) as u8 + FIRST_SIGNAL,
        }
    }

    fn which_at(self, k: usize) -> usize
        ensures { result ≡ k % each self }
    {
        match self {
            Edition::Plain => 0,
            Edition::Guarded => k % GUARDED_ROWS,
        }
    }
}

// The number of the row for state s and signal g, behind the start row.
fn row_number(s: u8, g: u8) -> usize
    ensures { (result ≡ row_number s g) × (result < 8192) }
{
    SIGNALS * usize::from(s.saturating_sub(1)) + usize::from(g.saturating_sub(FIRST_SIGNAL))
}

// Enters record i, if it is a row, into the index.
#[tactic(auto, unfolding(crate::specs::Held::noted))]
fn note(index: &mut [u16; ROWS], part: &[u8], i: u16)
    requires { 8 ≤ length part.now }
    ensures { index.new ≡ noted part.now i index.old }
{
    if part[0] == RecordKind::Row as u8 && is_among(MOST_STATES, part[1]) && is_signal(part[2]) {
        index[row_number(part[1], part[2])] = i;
    }
}

// The record of the row for each state and signal, the number of records for none. Filled from the last record on, so that the first row stays.
fn index_rows(chart: &[u8]) -> [u16; ROWS]
    requires { length chart.now ≤ longest }
    ensures { result ≡ row_index chart.now }
{
    let records = chart.len() / 8;
    let mut index = [records as u16; ROWS];
    for i in (0..records).rev() {
        note(&mut index, &chart[8 * i..], i as u16);
    }
    index
}

// What row i of the source s does at rest x.
fn row_does(chart: &[u8], x: u8, s: u8, i: usize) -> Out
    requires { i < 65536 }
    ensures { result ≡ out_of (row_does chart.now x s i) }
{
    let action = field(chart, i, 5);
    if field(chart, i, 3) != 0 {
        return move_to(chart, x, s, field(chart, i, 4), action);
    }
    let mut acts = Acts::none();
    acts.push(action);
    Out {
        next: x,
        outcome: Outcome::Internal,
        acts,
    }
}

// A good chart, read for its table: how many states it has, and the record of the row for each state and signal.
#[derive(Clone, Copy)]
struct IndexedChart<'a> {
    edition: Edition,
    chart: &'a [u8],
    state_count: usize,
    rows: [u16; ROWS],
    ghost good: { class_of edition chart.now ≡ 0 },
    ghost counted: { state_count ≡ states chart.now },
    ghost indexed: { rows ≡ row_index chart.now },
}

impl<'a> IndexedChart<'a> {
    fn new(edition: Edition, chart: &'a [u8]) -> IndexedChart<'a>
        requires { class_of edition chart.now ≡ 0 }
        ensures { (result.edition ≡ edition) × (result.chart.now ≡ chart.now) }
    {
        IndexedChart {
            edition,
            chart,
            state_count: state_count(chart),
            rows: index_rows(chart),
        }
    }

    // The record of the row for state s and signal g; the number of records for none.
    fn row_of(&self, s: u8, g: u8) -> usize
        requires { (1 ≤ s) × (s ≤ states self.now.chart.now) × (first_signal ≤ g) × (g ≤ last_signal) }
        ensures { (result ≡ row_for self.now.chart.now s g) × (result < 65536) }
    {
        usize::from(self.rows[row_number(s, g)])
    }

    // The state whose row is row i of those outward from s for the signal g, up to and with the first without a flag; 0 where there are fewer.
    fn find_holder(&self, s: u8, g: u8, i: usize) -> u8
        requires { (s ≤ states self.now.chart.now) × (first_signal ≤ g) × (g ≤ last_signal) }
        ensures { (result ≡ nth_out self.now.chart.now g i (outward self.now.chart.now s)) × (result ≤ states self.now.chart.now) }
    {
        let mut holder = s;
        let mut left = i;
        for k in 0..LEVELS {
            if holder == 0 {
                return 0;
            }
            let row = self.row_of(holder, g);
            if row < self.chart.len() / 8 {
                if left == 0 {
                    return holder;
                }
                if field(self.chart, row, FLAG) == 0 {
                    return 0;
                }
                left -= 1;
            }
            holder = parent_of(self.chart, holder);
        }
        0
    }

    // Row i for state x and signal g.
    fn row_out(&self, x: u8, g: u8, i: usize) -> Row
        requires { (1 ≤ x) × (x ≤ states self.now.chart.now) × (first_signal ≤ g) × (g ≤ last_signal) }
        ensures { row_bytes result ≡ get_or (rows_out self.now.chart.now x g (outward self.now.chart.now x)) i (behind self.now.edition x) }
    {
        let s = self.find_holder(x, g, i);
        if s == 0 {
            return Row::behind(self.edition, x);
        }
        let row = self.row_of(s, g);
        Row {
            flag: field(self.chart, row, FLAG),
            out: row_does(self.chart, x, s, row),
        }
    }

    // Row k behind the start row.
    fn row_no(&self, k: usize) -> Row
        requires { k < row_count Guarded }
        ensures { row_bytes result ≡ row_no self.now.edition self.now.chart.now k }
    {
        let e = self.edition;
        let s = e.state_at(k);
        if s <= self.state_count {
            return self.row_out(s as u8, e.signal_at(k), e.which_at(k));
        }
        Row::still(0)
    }
}

// A row, at the start of the part.
fn write_row(part: &mut [u8], row: &Row)
    requires { row_size ≤ length part.old }
    ensures { part.new ≡ row_bytes row.now ++ drop row_size part.old }
{
    part[..ROW_BYTES].copy_from_slice(&row.bytes());
}

// The slot of a good chart, row by row. By the row's place, since a proof knows no element of what chunks_exact_mut lent.
pub fn fill_table(e: Edition, chart: &[u8], table: &mut [u8])
    requires { (class_of e chart.now ≡ 0) × (length table.old ≡ slot_size e) }
    ensures { table.new ≡ slot_bytes e chart.now }
{
    let indexed = IndexedChart::new(e, chart);
    let first = Row {
        flag: 0,
        out: start_of(chart),
    };
    write_row(table, &first);
    for k in 0..e.row_count() {
        let row = indexed.row_no(k);
        write_row(&mut table[ROW_BYTES * k + ROW_BYTES..], &row);
    }
}
