// What a record's bytes are to NEW and READ.
ghost use Rattle.std.specs.Prelude.{List, ◌≡◌, ℕ, ◌+◌, ◌≤◌, get_or, length};
ghost use Rattle.machine.specs.Events.{read_at};
ghost use Rattle.machine.specs.Machine as machine;
ghost use Rattle.machine.specs.Machine.{command};
ghost use Rattle.machine.specs.Numbers.{record_bytes};
ghost use Rattle.state.specs.View.{areas, Good, state_of, told};

use super::Part;
use arguments::{FIRST_PAYLOAD, arg, handle, spoilt, spoilt_new};
use ground::byte_at;
use numbers::RECORD_BYTES;
use reply::{Reply, said};
use state::Kernel;

// NEW signal, size, payload.
pub fn new_command(k: &mut Kernel, record: &[u8], payloads: &mut [u8]) -> Reply
    requires good { Good k.old }
    requires record_len { length «record».now ≡ record_bytes }
    ensures { (d t u l : List ℕ) → told k.new result (areas payloads.new t u l)
        ≡ command 3 «record».now d (state_of k.old) (areas payloads.old t u l) }
{
    said(super::new(
        k,
        spoilt_new(record, arg(record, 2)),
        byte_at(record, 1),
        byte_at(record, 2),
        &record[FIRST_PAYLOAD..RECORD_BYTES],
        payloads,
    ))
}

// READ handle.
pub fn read_command(k: &Kernel, record: &[u8], payloads: &[u8]) -> Reply
    requires { Good k.now }
    ensures { (d t u l : List ℕ) → told k.now result (areas payloads.now t u l)
        ≡ command 17 «record».now d (state_of k.now) (areas payloads.now t u l) }
{
    said(super::read(k, spoilt(record, 4), handle(record), payloads))
}

// Where the part that READ hands back begins, and how long it is.
pub fn read_at_of(k: &Kernel, record: &[u8], payloads: &[u8]) -> Part
    requires { Good k.now }
    ensures part { read_at (machine.spoilt 4 «record».now) (get_or «record».now 1 0) (machine.generation «record».now)
        (state_of k.now) payloads.now ≡ (result.place, result.length) }
    ensures within { result.place + result.length ≤ length payloads.now }
{
    super::read_at(k, spoilt(record, 4), handle(record), payloads)
}
