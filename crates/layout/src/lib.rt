// What is written to the areas that are lent: a payload at the place of its block, the table of a chart in its slot.
#![tactic(auto)]

ghost use Rattle.std.specs.Prelude.{◌≡◌, ◌<◌, ◌≤◌, OnErr, OnOk, length};
ghost use Rattle.chart.specs.Chart.{class_of};
ghost use Rattle.chart.specs.Faults.{answer_class};
ghost use Rattle.chart.specs.Flat.{slot_bytes};
ghost use Rattle.ground.specs.Bytes.{padded};
ghost use Rattle.machine.specs.Charts.{filled};
ghost use Rattle.machine.specs.Numbers.{capacity, place_of, blocks, most_bytes, edition_of, guarded_bytes, guarded_slot, payload_bytes, slots, table_bytes};
ghost use Rattle.machine.specs.Reply.{both, over};

use chart::faults::Fault;
use chart::read::Edition;
use chart::table::fill_table;
use numbers::{GUARDED_SLOT, LARGE, LARGE_BYTES, MIDDLE, MIDDLE_BYTES, SLOT_BYTES, SMALL_BYTES};

// Where the first block of 32 bytes and the first of 64 begin in the payload area.
const MIDDLE_PLACE: usize = SMALL_BYTES * MIDDLE;

const LARGE_PLACE: usize = MIDDLE_PLACE + MIDDLE_BYTES * (LARGE - MIDDLE);

// How many bytes block b holds.
#[tactic(auto, unfolding(machine::specs::Numbers::capacity))]
fn capacity_of(b: usize) -> usize
    ensures { (result ≡ capacity b) × (result ≤ most_bytes) }
{
    if b < MIDDLE {
        SMALL_BYTES
    } else if b < LARGE {
        MIDDLE_BYTES
    } else {
        LARGE_BYTES
    }
}

// Where block b begins in the payload area.
#[tactic(auto, unfolding(machine::specs::Numbers::place_of))]
pub fn place_of(b: usize) -> usize
    requires { b < blocks }
    ensures { (result ≡ place_of b) × (result < payload_bytes) }
{
    if b < MIDDLE {
        SMALL_BYTES * b
    } else if b < LARGE {
        MIDDLE_PLACE + MIDDLE_BYTES * (b - MIDDLE)
    } else {
        LARGE_PLACE + LARGE_BYTES * (b - LARGE)
    }
}

// The payload goes to the place of block b; the rest of the block is 0.
pub fn put_payload(b: usize, payload: &[u8], payloads: &mut [u8])
    requires { (b < blocks) × (length payloads.old ≡ payload_bytes) }
    ensures { payloads.new ≡ over payloads.old (place_of b) (padded (capacity b) payload.now) }
{
    let at = place_of(b);
    let end = at + capacity_of(b);
    ground::fill(&mut payloads[at..end], payload);
}

// Slot q is filled from a chart that is good in its edition; a refused one leaves it.
#[tactic(auto, unfolding(machine::specs::Charts::filled, machine::specs::Numbers::edition_of))]
pub fn fill_slot(q: usize, chart: &[u8], tables: &mut [u8], guarded: &mut [u8]) -> Result<(), Fault>
    requires { (q < slots) × (length tables.old ≡ table_bytes) × (q ≡ guarded_slot → length guarded.old ≡ guarded_bytes) }
    ensures class { answer_class result ≡ class_of (edition_of q) chart.now }
    ensures ok { OnOk result (both tables.new guarded.new ≡ filled q (slot_bytes (edition_of q) chart.now) (both tables.old guarded.old)) }
    ensures err { OnErr result (both tables.new guarded.new ≡ both tables.old guarded.old) }
{
    if q == GUARDED_SLOT {
        flattener::check(Edition::Guarded, chart)?;
        fill_table(Edition::Guarded, chart, guarded);
    } else {
        flattener::check(Edition::Plain, chart)?;
        let at = SLOT_BYTES * q;
        fill_table(Edition::Plain, chart, &mut tables[at..at + SLOT_BYTES]);
    }
    Ok(())
}
