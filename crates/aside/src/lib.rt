// Side queues: the event in hand is set aside, an entry is recalled to a mailbox, all of them are let go.
#![tactic(auto)]

pub mod records;

ghost use Rattle.std.specs.Prelude.{◌≡◌};
ghost use Rattle.machine.specs.Aside as machine;
ghost use Rattle.machine.specs.Reply.{Areas};
ghost use Rattle.machine.specs.Run.{blocks_in};
ghost use Rattle.mail.specs.View.{entries};
ghost use Rattle.pool.specs.Row.{gone_all};
ghost use Rattle.pool.specs.View.{cells, marks};
ghost use Rattle.state.specs.View.{Good, outcome, state_of};

use drain::block_of;
use mail::{Hand, Ring, hand_of};
use numbers::answer::Refusal;
use pool::Pool;
use refusals::{defer_refusal, flush_refusal, recall_refusal};
use reply::{Reply, done};
use state::Kernel;

#[tactic(auto, unfolding(machine::specs::Aside::is_timer))]
fn is_timer(h: Hand) -> bool
    ensures { result ≡ machine.is_timer h }
{
    matches!(h, Hand::Timer(_, _))
}

// DEFER q: the block event in hand goes last into side queue q, which counts as a reference.
pub fn defer(k: &mut Kernel, spoilt: bool, q: usize) -> Result<Reply, Refusal>
    requires { Good k.old }
    ensures { (z : Areas) → outcome k.new result z ≡ machine.defer spoilt q (state_of k.old) z }
{
    let n = k.aside(q);
    let event = hand_of(k.hand);
    defer_refusal(spoilt, q, k.is_open(), is_timer(event), n)?;
    k.sides[q].push_back(k.hand);
    k.pool.add(usize::from(block_of(event)));
    Ok(done((n + 1) as u8, 0))
}

// RECALL q, p: the oldest entry of side queue q moves to the front of p's mailbox. An empty side queue is no refusal.
pub fn recall(k: &mut Kernel, spoilt: bool, q: usize, p: usize) -> Result<Reply, Refusal>
    requires { Good k.old }
    ensures { (z : Areas) → outcome k.new result z ≡ machine.recall spoilt q p (state_of k.old) z }
{
    let n = k.aside(q);
    recall_refusal(spoilt, q, p, k.is_started(p), n, k.room(p))?;
    if n == 0 {
        return Ok(done(0, 0));
    }
    let oldest = k.sides[q].take_front();
    k.mail[p - 1].push_front(oldest);
    Ok(done(1, 0))
}

// Each entry of a side queue is let go, the oldest first.
fn let_go_each(pool: &mut Pool, side: &Ring)
    ensures cells { cells pool.new ≡ gone_all (cells pool.old) (blocks_in (entries side.now)) }
    ensures marks { marks pool.new ≡ marks pool.old }
{
    for i in 0..side.len() {
        pool.let_go(usize::from(block_of(hand_of(side.entry(i)))));
    }
}

// FLUSH q.
pub fn flush(k: &mut Kernel, spoilt: bool, q: usize) -> Result<Reply, Refusal>
    requires { Good k.old }
    ensures { (z : Areas) → outcome k.new result z ≡ machine.flush spoilt q (state_of k.old) z }
{
    flush_refusal(spoilt, q)?;
    let side = &mut k.sides[q];
    let n = side.len();
    let_go_each(&mut k.pool, side);
    side.clear();
    Ok(done(n as u8, 0))
}
