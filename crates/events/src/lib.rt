// Events: what is posted, published, held, released and dropped.
#![tactic(auto)]

pub mod records;

ghost use Rattle.std.specs.Prelude.{false, ◌≡◌, ℕ, ◌<◌, ◌≤◌, get_or};
ghost use Rattle.machine.specs.Events as machine;
ghost use Rattle.machine.specs.Events.{full_receiver, post_tests, publish_done};
ghost use Rattle.machine.specs.Numbers.{blocks, objects};
ghost use Rattle.machine.specs.Reply.{Areas, lowest};
ghost use Rattle.mail.specs.Box.{room};
ghost use Rattle.refusals.specs.Refused.{answer_number};
ghost use Rattle.state.specs.View.{Good, outcome, state_of, told};

use ground::byte_at;
use mail::{Hand, entry_of};
use numbers::answer::Refusal;
use pool::Handle;
use refusals::{handle_refusal, post_refusal, refuse_if};
use reply::Reply;
use state::Kernel;

const MOST_HOLDS: u8 = 15;

// The tests of POST; those of POSTFRONT are the same with margin 0. A closure for the one call in which the two differ would be no plainer.
fn may_post(
    k: &Kernel,
    spoilt: bool,
    handle: Handle,
    p: usize,
    margin: usize,
) -> Result<(), Refusal>
    ensures { answer_number result ≡ lowest (post_tests spoilt handle.block handle.generation p margin (state_of k.now)) }
{
    let stale = k.pool.is_stale(handle);
    post_refusal(
        spoilt,
        handle.block,
        p,
        margin,
        stale,
        k.is_started(p),
        k.room(p),
    )
}

// POST handle, p, margin.
pub fn post(
    k: &mut Kernel,
    spoilt: bool,
    handle: Handle,
    p: usize,
    margin: usize,
) -> Result<Reply, Refusal>
    requires { Good k.old }
    ensures { (z : Areas) → outcome k.new result z ≡ machine.post spoilt handle.block handle.generation p margin (state_of k.old) z }
{
    may_post(k, spoilt, handle, p, margin)?;
    let queued = k.queued(p) as u8;
    k.mail[p - 1].push_back(entry_of(Hand::Block(handle.block as u8)));
    k.pool.add(handle.block);
    Ok(reply::done(queued + 1, 0))
}

// POSTFRONT handle, p.
pub fn post_front(k: &mut Kernel, spoilt: bool, handle: Handle, p: usize) -> Result<Reply, Refusal>
    requires { Good k.old }
    ensures { (z : Areas) → outcome k.new result z ≡ machine.post_front spoilt handle.block handle.generation p (state_of k.old) z }
{
    may_post(k, spoilt, handle, p, 0)?;
    let queued = k.queued(p) as u8;
    k.mail[p - 1].push_front(entry_of(Hand::Block(handle.block as u8)));
    k.pool.add(handle.block);
    Ok(reply::done(queued + 1, 0))
}

// What PUBLISH does where every subscriber to the event's signal g has a place. The posts' references are added at once.
fn publish_to_all(k: &mut Kernel, b: usize, g: usize) -> Reply
    requires block { (b < blocks) × (g < 256) × (g ≡ get_or k.old.signals b 0) }
    requires places { (full_receiver (state_of k.old) g objects ≡ false) × ((q : ℕ) → get_or k.old.depths q 0 ≤ room) }
    ensures { (z : Areas) → told k.new result z ≡ publish_done (machine.receivers (state_of k.old) g objects) b (state_of k.old) z }
{
    let n = publish::post_to_all(&k.wants, &mut k.mail, b, g);
    if n == 0 {
        let freed = k.pool.drop_new(b);
        return reply::done(0, u8::from(freed));
    }
    k.pool.add_some(b, n);
    reply::done(n, 0)
}

// PUBLISH handle. Whether a subscriber has no place is known before the first gets the event: all or none.
pub fn publish(k: &mut Kernel, spoilt: bool, handle: Handle) -> Result<Reply, Refusal>
    requires { Good k.old }
    ensures { (z : Areas) → outcome k.new result z ≡ machine.publish spoilt handle.block handle.generation (state_of k.old) z }
{
    let b = handle.block;
    let g = usize::from(byte_at(&k.signals, b));
    let full = publish::any_full(&k.wants, &k.depths, &k.mail, g);
    handle_refusal(spoilt, b, k.pool.is_stale(handle), Refusal::Full, full)?;
    Ok(publish_to_all(k, b, g))
}

// HOLD handle: a hold is a reference.
pub fn hold(k: &mut Kernel, spoilt: bool, handle: Handle) -> Result<Reply, Refusal>
    requires { Good k.old }
    ensures { (z : Areas) → outcome k.new result z ≡ machine.hold spoilt handle.block handle.generation (state_of k.old) z }
{
    let b = handle.block;
    let n = byte_at(&k.holds, b);
    handle_refusal(
        spoilt,
        b,
        k.pool.is_stale(handle),
        Refusal::Holds,
        MOST_HOLDS <= n,
    )?;
    k.holds[b] = n + 1;
    k.pool.add(b);
    Ok(reply::done(n + 1, 0))
}

// RELEASE handle: the last reference frees the event.
pub fn release(k: &mut Kernel, spoilt: bool, handle: Handle) -> Result<Reply, Refusal>
    requires { Good k.old }
    ensures { (z : Areas) → outcome k.new result z ≡ machine.release spoilt handle.block handle.generation (state_of k.old) z }
{
    let b = handle.block;
    let n = byte_at(&k.holds, b);
    handle_refusal(spoilt, b, k.pool.is_stale(handle), Refusal::Holds, n == 0)?;
    k.holds[b] = n - 1;
    let freed = k.pool.let_go(b);
    Ok(reply::done(n - 1, u8::from(freed)))
}

// DROP handle: frees a new event. Where the event is not new, which is the last test, nothing changes.
pub fn drop_event(k: &mut Kernel, spoilt: bool, handle: Handle) -> Result<Reply, Refusal>
    requires { Good k.old }
    ensures { (z : Areas) → outcome k.new result z ≡ machine.drop_event spoilt handle.block handle.generation (state_of k.old) z }
{
    let b = handle.block;
    handle_refusal(spoilt, b, k.pool.is_stale(handle), Refusal::InUse, false)?;
    refuse_if(!k.pool.drop_new(b), Refusal::InUse)?;
    Ok(reply::done(0, 0))
}
