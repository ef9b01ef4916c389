// What a record's bytes are: its arguments, and whether a byte that a command does not use is not 0.
#![tactic(auto)]

ghost use Rattle.std.specs.Prelude.{◌≡◌, ◌<◌, ◌≤◌, get_or};
ghost use Rattle.machine.specs.Machine as machine;

use ground::byte_at;
use numbers::{LARGE_BYTES, RECORD_BYTES};
use pool::Handle;

const AFTER_SIZE: usize = 3;

pub const FIRST_PAYLOAD: usize = 8;

// A byte past the number and n arguments is not 0.
#[tactic(auto, unfolding(machine::specs::Machine::spoilt))]
pub fn spoilt(record: &[u8], n: usize) -> bool
    requires { n ≤ 7 }
    ensures { result ≡ machine.spoilt n «record».now }
{
    !ground::blank(record, 1 + n, RECORD_BYTES)
}

// In NEW a later argument, or a payload byte past the size; none if the size is above 64.
#[tactic(auto, unfolding(machine::specs::Machine::spoilt_new, machine::specs::Numbers::outside, ground::specs::Bytes::blank, ground::specs::Range::every_from))]
pub fn spoilt_new(record: &[u8], size: usize) -> bool
    ensures { result ≡ machine.spoilt_new size «record».now }
{
    !ground::blank(record, AFTER_SIZE, FIRST_PAYLOAD)
        || size <= LARGE_BYTES && !ground::blank(record, FIRST_PAYLOAD + size, RECORD_BYTES)
}

pub fn arg(record: &[u8], n: usize) -> usize
    ensures { (result ≡ get_or «record».now n 0) × (result < 256) }
{
    usize::from(byte_at(record, n))
}

// 16-bit numbers are low byte first.
pub fn arg16(record: &[u8], n: usize) -> u16
    requires { n ≤ 6 }
    ensures { result ≡ machine.arg16 «record».now n }
{
    u16::from_le_bytes([byte_at(record, n), byte_at(record, n + 1)])
}

// The handle that a record names: its block is argument 1, its generation the next three bytes.
pub fn handle(record: &[u8]) -> Handle
    ensures block { (result.block ≡ get_or «record».now 1 0) × (result.block < 256) }
    ensures generation { result.generation ≡ machine.generation «record».now }
{
    Handle {
        block: arg(record, 1),
        generation: u32::from_le_bytes([
            byte_at(record, 2),
            byte_at(record, 3),
            byte_at(record, 4),
            0,
        ]),
    }
}
