// Subscriptions.
#![tactic(auto)]

pub mod records;

ghost use Rattle.std.specs.Prelude.{cond, not, ◌≡◌};
ghost use Rattle.machine.specs.Events as machine;
ghost use Rattle.machine.specs.Reply.{Areas, answer, done, lowest, unless};
ghost use Rattle.machine.specs.State.{subscribed};
ghost use Rattle.state.specs.View.{outcome, state_of};

use numbers::SIGNAL_PLACES;
use numbers::answer::Refusal;
use publish::subscribes;
use refusals::subscribe_refusal;
use reply::Reply;
use state::Kernel;

// Object p subscribes to g from now on, or does not. The reply says whether that is news.
fn want(k: &mut Kernel, spoilt: bool, p: usize, g: usize, wanted: bool) -> Result<Reply, Refusal>
    ensures { (z : Areas) → outcome k.new result z ≡ unless (lowest (machine.subscribe_tests spoilt p g (state_of k.old))) (state_of k.old) z
        (answer (machine.wanting (state_of k.old) p g (cond wanted 1 0))
        (done (cond (cond wanted (not (subscribed (state_of k.old) p g)) (subscribed (state_of k.old) p g)) 1 0) 0) z) }
{
    subscribe_refusal(spoilt, p, g, k.is_started(p))?;
    let was = subscribes(&k.wants, p, g);
    k.wants[SIGNAL_PLACES * (p - 1) + g] = u8::from(wanted);
    Ok(reply::done(u8::from(wanted != was), 0))
}

// SUBSCRIBE p, signal.
#[tactic(auto, unfolding(machine::specs::Events::subscribe))]
pub fn subscribe(k: &mut Kernel, spoilt: bool, p: usize, g: usize) -> Result<Reply, Refusal>
    ensures { (z : Areas) → outcome k.new result z ≡ machine.subscribe spoilt p g (state_of k.old) z }
{
    want(k, spoilt, p, g, true)
}

// UNSUBSCRIBE p, signal.
#[tactic(auto, unfolding(machine::specs::Events::unsubscribe))]
pub fn unsubscribe(k: &mut Kernel, spoilt: bool, p: usize, g: usize) -> Result<Reply, Refusal>
    ensures { (z : Areas) → outcome k.new result z ≡ machine.unsubscribe spoilt p g (state_of k.old) z }
{
    want(k, spoilt, p, g, false)
}
