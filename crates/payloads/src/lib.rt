// NEW and READ, which use the payload area.
#![tactic(auto)]

pub mod records;

ghost use Rattle.std.specs.Prelude.{List, ◌≡◌, ℕ, ◌+◌, ◌<◌, ◌≤◌, get_or, length};
ghost use Rattle.machine.specs.Events as machine;
ghost use Rattle.machine.specs.Events.{payload_of, read_at, read_tests};
ghost use Rattle.machine.specs.Numbers.{place_of, blocks, most_bytes};
ghost use Rattle.machine.specs.Reply.{lowest};
ghost use Rattle.refusals.specs.Refused.{answer_number};
ghost use Rattle.state.specs.View.{areas, Good, outcome, state_of};

use layout::{place_of, put_payload};
use numbers::PAYLOAD_AREA;
use numbers::answer::Refusal;
use pool::Handle;
use refusals::{new_refusal, read_refusal};
use reply::Reply;
use state::Kernel;

// Where a part of the payload area begins, and how long it is.
#[derive(Clone, Copy, Debug, PartialEq, Eq)]
pub struct Part {
    pub place: usize,
    pub length: usize,
}

// NEW signal, size, payload: the 64 payload bytes of the record. Where no block is found, which is the last test, nothing changes.
pub fn new(
    k: &mut Kernel,
    spoilt: bool,
    g: u8,
    size: u8,
    payload: &[u8],
    payloads: &mut [u8],
) -> Result<Reply, Refusal>
    requires { length payload.now ≡ most_bytes }
    ensures { (t u l : List ℕ) → outcome k.new result (areas payloads.new t u l)
        ≡ machine.new spoilt g size payload.now (state_of k.old) (areas payloads.old t u l) }
{
    let n = usize::from(size);
    new_refusal(
        spoilt,
        payloads.len() != PAYLOAD_AREA,
        usize::from(g),
        n,
        false,
    )?;
    let taken = k.pool.take(n);
    let b = taken.found.ok_or(Refusal::Dry)?;
    k.signals[b] = g;
    k.sizes[b] = size;
    k.holds[b] = 0;
    put_payload(b, &payload[..n], payloads);
    Ok(reply::made(b as u8, k.pool.generation(b), taken.mark))
}

// The tests of READ.
fn may_read(k: &Kernel, spoilt: bool, handle: Handle, payloads: &[u8]) -> Result<(), Refusal>
    ensures { answer_number result ≡ lowest (read_tests spoilt handle.block handle.generation (state_of k.now) payloads.now) }
{
    let stale = k.pool.is_stale(handle);
    read_refusal(spoilt, payloads.len() != PAYLOAD_AREA, handle.block, stale)
}

// The part of the payload area that the payload of block b occupies.
fn part_of(k: &Kernel, b: usize) -> Part
    requires { b < blocks }
    ensures { (result.place ≡ place_of b) × (result.length ≡ get_or k.now.sizes b 0) }
{
    Part {
        place: place_of(b),
        length: usize::from(k.sizes[b]),
    }
}

// The payload of block b.
fn payload_in<'a>(k: &Kernel, b: usize, payloads: &'a [u8]) -> &'a [u8]
    requires { (b < blocks) × (place_of b + get_or k.now.sizes b 0 ≤ length payloads.now) }
    ensures { result.now ≡ payload_of (state_of k.now) b payloads.now }
{
    let Part { place, length } = part_of(k, b);
    &payloads[place..place + length]
}

// READ handle.
pub fn read(k: &Kernel, spoilt: bool, handle: Handle, payloads: &[u8]) -> Result<Reply, Refusal>
    requires { Good k.now }
    ensures { (t u l : List ℕ) → outcome k.now result (areas payloads.now t u l)
        ≡ machine.read spoilt handle.block handle.generation (state_of k.now) (areas payloads.now t u l) }
{
    may_read(k, spoilt, handle, payloads)?;
    Ok(reply::shown(payload_in(k, handle.block, payloads)))
}

// The place and the length that a refused READ has: `kernel::part_at` promises these, since a host in C has no Option.
pub fn no_part() -> Part
    ensures { (result.place ≡ 0) × (result.length ≡ 0) }
{
    Part {
        place: 0,
        length: 0,
    }
}

// Where the part that READ hands back begins, and how long it is; 0 and 0 when refused.
pub fn read_at(k: &Kernel, spoilt: bool, handle: Handle, payloads: &[u8]) -> Part
    requires { Good k.now }
    ensures part { read_at spoilt handle.block handle.generation (state_of k.now) payloads.now ≡ (result.place, result.length) }
    ensures within { result.place + result.length ≤ length payloads.now }
{
    match may_read(k, spoilt, handle, payloads) {
        Ok(()) => part_of(k, handle.block),
        Err(_) => no_part(),
    }
}
