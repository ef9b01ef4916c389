// Charts: reading one, what it does, its flat table, and the reading of that table's rows.
#![tactic(auto)]

pub mod faults;
pub mod read;
mod step;
pub mod table;

ghost use Rattle.std.specs.Prelude.{◌&&◌, ◌≡◌, ◌+◌, ◌*◌, ◌^◌, ◌<◌, ◌≤◌, leb, ltb, length};
ghost use Rattle.bits.specs.Members.{width};
ghost use Rattle.chart.specs.Flags.{Flags, in_words, is_open};
ghost use Rattle.chart.specs.Flat.{flag_at, place, sound, start_sound};
ghost use Rattle.chart.specs.Held.{reading};
ghost use Rattle.chart.specs.Numbers.{Guarded, Plain, each, first_signal, flag_byte, most_flag, row_size};
ghost use Rattle.ground.specs.Bytes.{blank};

use ground::{WORD_BYTES, word};
use numbers::{ACTIONS_IN_ROW, FLAG_IN_ROW, FLAGS, MOST_ACTIONS, ROW_BYTES};
use read::{Edition, is_among};
use table::GUARDED_ROWS;

const BYTE_BITS: usize = 8;

// The rows of one state in a plain table, one for each signal.
const STATE_BYTES: usize = ROW_BYTES * table::SIGNALS;

// The place of the row for state 1 and the first signal is so much less than the products for these two.
const EXCESS: usize = STATE_BYTES + ROW_BYTES * numbers::FIRST_SIGNAL - ROW_BYTES;

// Where the row for state s and signal g begins in a plain table.
fn plain_place(s: u8, g: u8) -> usize
    requires { (1 ≤ s) × (first_signal ≤ g) }
    ensures { (result ≡ place Plain s g 0) × (row_size ≤ result) × (result < 262144) }
{
    STATE_BYTES * usize::from(s) + ROW_BYTES * usize::from(g) - EXCESS
}

// Where the rows for state s and signal g begin.
fn row_place(e: Edition, s: u8, g: u8) -> usize
    requires { (1 ≤ s) × (first_signal ≤ g) }
    ensures { result ≡ place e s g 0 }
{
    let at = plain_place(s, g);
    match e {
        Edition::Plain => at,
        Edition::Guarded => ROW_BYTES + GUARDED_ROWS * (at - ROW_BYTES),
    }
}

// Whether a word is 0 from byte k on.
fn ends(w: u64, k: usize) -> bool
    requires { k ≤ row_size }
    ensures { result ≡ ltb w (2 ^ (8 * k)) }
{
    bits::highest(w) <= BYTE_BITS * k
}

// Whether a row is 0 from byte k on: its last word that is not 0 ends before.
fn blank_from(row: &[u8], k: usize) -> bool
    requires { (length row.now ≡ row_size) × (k ≤ row_size) }
    ensures { result ≡ blank row.now k row_size }
{
    let third = word(row, 2 * WORD_BYTES);
    if third != 0 {
        if k < 2 * WORD_BYTES {
            return false;
        }
        return ends(third, k - 2 * WORD_BYTES);
    }
    let second = word(row, WORD_BYTES);
    if second != 0 {
        if k < WORD_BYTES {
            return false;
        }
        return ends(second, k - WORD_BYTES);
    }
    ends(word(row, 0), k)
}

// Whether a row is sound from byte k on, where its actions end: zeros, and among them its flag.
fn sound_from(e: Edition, row: &[u8], k: usize) -> bool
    requires { (length row.now ≡ row_size) × (k ≤ flag_byte) }
    ensures { result ≡ (blank row.now k flag_byte && (leb (flag_at row.now) (most_flag e) && blank row.now (flag_byte + 1) row_size)) }
{
    match e {
        Edition::Plain => blank_from(row, k),
        Edition::Guarded => {
            ground::blank(row, k, FLAG_IN_ROW)
                && row[FLAG_IN_ROW] <= e.most_flag()
                && blank_from(row, FLAG_IN_ROW + 1)
        }
    }
}

// Whether a row is sound.
#[tactic(auto, unfolding(crate::specs::Flat::sound))]
pub fn sound(e: Edition, row: &[u8]) -> bool
    ensures { result ≡ sound e row.now }
{
    row.len() == ROW_BYTES
        && is_among(e.most_states(), row[0])
        && row[1] <= 2
        && usize::from(row[2]) <= MOST_ACTIONS
        && sound_from(e, row, ACTIONS_IN_ROW + usize::from(row[2]))
}

// Whether a row is sound as a start row, which has no flag.
#[tactic(auto, unfolding(crate::specs::Flat::start_sound))]
pub fn start_sound(e: Edition, row: &[u8]) -> bool
    ensures { result ≡ start_sound e row.now }
{
    sound(e, row) && row[FLAG_IN_ROW] == 0
}

// Whether a row with the flag f is open to object p: it has none, or one that is up.
fn is_open(flags: &[u64; FLAGS], p: usize, f: u8) -> bool
    requires { (p < width) × (f ≤ most_flag Guarded) }
    ensures { result ≡ is_open (in_words flags.now p) f }
{
    f == 0 || bits::has(flags[usize::from(f) - 1], p)
}

// What reading the rows for a state and signal tells: the place of the row that is taken, ignored, or a row that may not be read.
#[derive(Clone, Copy, Debug, PartialEq, Eq)]
pub enum Reading {
    Taken(usize),
    Ignored,
    Unsound,
}

// Reads the one row for a state and signal, which has no flag, at a place of a plain table.
fn read_row(table: &[u8], at: usize) -> Reading
    requires { at + row_size ≤ length table.now }
    ensures { (is_up : Flags) → result ≡ reading Plain is_up table.now at (each Plain) }
{
    if sound(Edition::Plain, &table[at..at + ROW_BYTES]) {
        Reading::Taken(at)
    } else {
        Reading::Unsound
    }
}

// Reads the rows for a state and signal from a place of a guarded table on, in order.
fn read_rows(table: &[u8], at: usize, flags: &[u64; FLAGS], p: usize) -> Reading
    requires { (p < width) × (at + row_size * each Guarded ≤ length table.now) }
    ensures { result ≡ reading Guarded (in_words flags.now p) table.now at (each Guarded) }
{
    for i in 0..GUARDED_ROWS {
        let place = at + ROW_BYTES * i;
        let row = &table[place..place + ROW_BYTES];
        if blank_from(row, 0) {
            return Reading::Ignored;
        }
        if !sound(Edition::Guarded, row) {
            return Reading::Unsound;
        }
        if is_open(flags, p, row[FLAG_IN_ROW]) {
            return Reading::Taken(place);
        }
    }
    Reading::Ignored
}

// Reads the rows for state s and signal g, for object p with its flags.
pub fn find_row(e: Edition, table: &[u8], s: u8, g: u8, flags: &[u64; FLAGS], p: usize) -> Reading
    requires { (1 ≤ s) × (first_signal ≤ g) × (p < width) × (place e s g 0 + row_size * each e ≤ length table.now) }
    ensures { result ≡ reading e (in_words flags.now p) table.now (place e s g 0) (each e) }
{
    match e {
        Edition::Plain => read_row(table, row_place(Edition::Plain, s, g)),
        Edition::Guarded => read_rows(table, row_place(Edition::Guarded, s, g), flags, p),
    }
}
