// The slots: which edition of charts each takes, where its table stands in what is lent, and the table's start row.
#![tactic(auto)]

ghost use Rattle.std.specs.Prelude.{not, ◌&&◌, ◌≡◌, eqb, length};
ghost use Rattle.machine.specs.Charts.{slot_table, start_row};
ghost use Rattle.machine.specs.Numbers.{edition_of, guarded_bytes, guarded_slot};
ghost use Rattle.machine.specs.Reply.{both};

use chart::read::Edition;
use numbers::{GUARDED_AREA, GUARDED_SLOT, ROW_BYTES, SLOT_BYTES};

// The edition of slot q.
#[tactic(auto, unfolding(machine::specs::Numbers::edition_of))]
pub fn edition_of(q: usize) -> Edition
    ensures { result ≡ edition_of q }
{
    if q == GUARDED_SLOT {
        Edition::Guarded
    } else {
        Edition::Plain
    }
}

// Whether slot q is the guarded one, and its table has another length than it should.
pub fn slot_bad(guarded: &[u8], q: usize) -> bool
    ensures { result ≡ (eqb q guarded_slot && not (eqb (length guarded.now) guarded_bytes)) }
{
    q == GUARDED_SLOT && guarded.len() != GUARDED_AREA
}

// The table of slot q, from its first byte on; nothing where the tables end before it.
#[tactic(auto, unfolding(machine::specs::Charts::slot_table))]
pub fn table_of<'a>(tables: &'a [u8], guarded: &'a [u8], q: usize) -> &'a [u8]
    ensures { result.now ≡ slot_table (both tables.now guarded.now) q }
{
    if q == GUARDED_SLOT {
        return guarded;
    }
    if tables.len() / SLOT_BYTES < q {
        return &[];
    }
    &tables[SLOT_BYTES * q..]
}

// The start row of slot q, as much of it as there is.
#[tactic(auto, unfolding(machine::specs::Charts::start_row))]
pub fn start_row<'a>(tables: &'a [u8], guarded: &'a [u8], q: usize) -> &'a [u8]
    ensures { result.now ≡ start_row (both tables.now guarded.now) q }
{
    let table = table_of(tables, guarded, q);
    &table[..table.len().min(ROW_BYTES)]
}
