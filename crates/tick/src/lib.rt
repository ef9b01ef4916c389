// TICK: the turn of each timer, on the timers and mailboxes that the kernel lends.
#![tactic(auto)]

ghost use Rattle.std.specs.Prelude.{◌≡◌, ◌+◌, ◌<◌, ◌≤◌};
ghost use Rattle.machine.specs.Clocks as machine;
ghost use Rattle.machine.specs.Clocks.{ticked};
ghost use Rattle.machine.specs.State.{State};
ghost use Rattle.tick.specs.Timing.{Ready, timing};

use mail::{Hand, Ring, entry_of};
use numbers::{OBJECTS, TIMERS};

// A timer of object `owner`, which sends it the signal `alarm`. The counter has the ticks that are left, 0 where it is not armed; the
// interval is the next counter, 0 where it fires once. Numbers, and no Option: any bytes are a timer, as C needs it.
#[repr(C)]
#[derive(Clone, Copy, Debug, PartialEq, Eq)]
pub struct Timer {
    pub owner: u8,
    pub alarm: u8,
    pub counter: u16,
    pub interval: u16,
}

// How many timers have fired in a TICK, and how many were late.
#[derive(Clone, Copy, Debug, PartialEq, Eq)]
pub struct Ticks {
    pub fired: u8,
    pub late: u8,
}

// The turn of timer t. Counter above 1: less one. At 1 with room: it fires, and the counter becomes the interval. Without room: late.
fn tick_timer(
    timers: &mut [Timer; TIMERS],
    mail: &mut [Ring; OBJECTS],
    depths: &[u8; OBJECTS],
    t: usize,
    ticks: &mut Ticks,
)
    requires ready { Ready timers.old depths.now }
    requires few { (t < TIMERS) × (ticks.old.fired ≤ t) × (ticks.old.late ≤ t) }
    ensures still_ready { Ready timers.new depths.now }
    ensures still_few { (ticks.new.fired ≤ t + 1) × (ticks.new.late ≤ t + 1) }
    ensures turned { (s : State) →
        ticked (timing timers.new mail.new depths.now s) ticks.new.fired ticks.new.late
        ≡ machine.tick_timer t (ticked (timing timers.old mail.old depths.now s) ticks.old.fired ticks.old.late) }
{
    let timer = timers[t];
    if timer.counter == 0 {
        return;
    }
    if 1 < timer.counter {
        timers[t].counter = timer.counter - 1;
        return;
    }
    let q = usize::from(timer.owner) - 1;
    if usize::from(depths[q]) <= mail[q].len() {
        ticks.late += 1;
        return;
    }
    mail[q].push_back(entry_of(Hand::Timer(t as u8, timer.alarm)));
    timers[t].counter = timer.interval;
    ticks.fired += 1;
}

// The timers by ascending number.
pub fn tick_all(
    timers: &mut [Timer; TIMERS],
    mail: &mut [Ring; OBJECTS],
    depths: &[u8; OBJECTS],
) -> Ticks
    requires { Ready timers.old depths.now }
    ensures { (s : State) →
        ticked (timing timers.new mail.new depths.now s) result.fired result.late
        ≡ machine.tick_all (timing timers.old mail.old depths.now s) }
{
    let mut ticks = Ticks { fired: 0, late: 0 };
    for t in 0..TIMERS {
        tick_timer(timers, mail, depths, t, &mut ticks);
    }
    ticks
}
