// Timers.
#![tactic(auto)]

pub mod records;

ghost use Rattle.std.specs.Prelude.{◌≡◌};
ghost use Rattle.machine.specs.Clocks as machine;
ghost use Rattle.machine.specs.Reply.{Areas};
ghost use Rattle.machine.specs.State.{armed};
ghost use Rattle.state.specs.View.{outcome, Good, state_of};

use numbers::answer::Refusal;
use refusals::{arm_refusal, disarm_refusal, refuse_if};
use reply::Reply;
use state::Kernel;
use tick::Timer;

// Whether timer t has ticks left; not where there is no such timer.
fn is_armed(k: &Kernel, t: usize) -> bool
    ensures { result ≡ armed (state_of k.now) t }
{
    match k.timers.get(t) {
        Some(timer) => timer.counter != 0,
        None => false,
    }
}

// ARM timer, p, signal, ticks, interval: seven parameters, since a Timer would hold no p above 255, which this refuses.
pub fn arm(
    k: &mut Kernel,
    spoilt: bool,
    t: usize,
    p: usize,
    g: u8,
    ticks: u16,
    interval: u16,
) -> Result<Reply, Refusal>
    requires { Good k.old }
    ensures { (z : Areas) → outcome k.new result z ≡ machine.arm spoilt t p g ticks interval (state_of k.old) z }
{
    arm_refusal(
        spoilt,
        t,
        p,
        usize::from(g),
        usize::from(ticks),
        k.is_started(p),
        is_armed(k, t),
    )?;
    k.timers[t] = Timer {
        owner: p as u8,
        alarm: g,
        counter: ticks,
        interval,
    };
    Ok(reply::done(0, 0))
}

// DISARM timer.
pub fn disarm(k: &mut Kernel, spoilt: bool, t: usize) -> Result<Reply, Refusal>
    requires { Good k.old }
    ensures { (z : Areas) → outcome k.new result z ≡ machine.disarm spoilt t (state_of k.old) z }
{
    disarm_refusal(spoilt, t)?;
    let armed = is_armed(k, t);
    k.timers[t].counter = 0;
    Ok(reply::done(u8::from(armed), 0))
}

// TICK.
pub fn tick(k: &mut Kernel, spoilt: bool) -> Result<Reply, Refusal>
    requires { Good k.old }
    ensures { (z : Areas) → outcome k.new result z ≡ machine.tick spoilt (state_of k.old) z }
{
    refuse_if(spoilt, Refusal::Form)?;
    let ticks = tick::tick_all(&mut k.timers, &mut k.mail, &k.depths);
    Ok(reply::done(ticks.fired, ticks.late))
}
