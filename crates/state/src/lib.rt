// The kernel's state in one struct, a fresh start, and what the commands ask of it.
#![tactic(auto, unfolding(crate::specs::View::state_of))]

ghost use Rattle.std.specs.Prelude.{◌≡◌, length};
ghost use Rattle.machine.specs.State as machine;
ghost use Rattle.machine.specs.State.{box_of, fresh_state, side_of, started};
ghost use Rattle.mail.specs.Box.{box_at};
ghost use Rattle.mail.specs.View.{boxes};
ghost use Rattle.state.specs.View.{Good, state_of};

use mail::Ring;
use numbers::{ALL_SIGNAL_PLACES, BLOCKS, FLAGS, OBJECTS, SIDE_QUEUES, SLOTS, TIMERS};
use pool::Pool;
use tick::Timer;

// The entry in hand while no step is open.
pub const NO_EVENT: u16 = 0;

// Object p has place p - 1 of `mail`, `depths`, `seats` and `rests`. Any bytes are a kernel, since C lends any to `trunhoac_fresh`: so
// `Good` is a clause, and no ghost field. An array for each field of an event and of an object, and no struct: steps read signals and seats
// alone while they write rests, PUBLISH lends depths alone, and the machine's state has these lists.
#[repr(C)]
#[derive(Clone, Copy, Debug, PartialEq, Eq)]
pub struct Kernel {
    pub mail: [Ring; OBJECTS],
    pub sides: [Ring; SIDE_QUEUES],
    pub wants: [u8; ALL_SIGNAL_PLACES],
    pub flags: [u64; FLAGS],
    pub signals: [u8; BLOCKS],
    pub sizes: [u8; BLOCKS],
    pub holds: [u8; BLOCKS],
    pub depths: [u8; OBJECTS],
    pub seats: [u8; OBJECTS],
    pub rests: [u8; OBJECTS],
    pub timers: [Timer; TIMERS],
    pub hand: u16,
    pub loaded: [u8; SLOTS],
    pub pool: Pool,
}

// The entries of ring q; none where there is no such ring.
fn waiting(rings: &[Ring], q: usize) -> usize
    ensures { result ≡ length (box_at (boxes rings.now) q) }
{
    match rings.get(q) {
        Some(ring) => ring.len(),
        None => 0,
    }
}

impl Kernel {
    pub fn new() -> Kernel
        ensures state { state_of result ≡ fresh_state }
        ensures good { Good result }
    {
        let idle = Timer {
            owner: 0,
            alarm: 0,
            counter: 0,
            interval: 0,
        };
        Kernel {
            mail: [Ring::new(); OBJECTS],
            sides: [Ring::new(); SIDE_QUEUES],
            wants: [0; ALL_SIGNAL_PLACES],
            flags: [0; FLAGS],
            signals: [0; BLOCKS],
            sizes: [0; BLOCKS],
            holds: [0; BLOCKS],
            depths: [0; OBJECTS],
            seats: [0; OBJECTS],
            rests: [0; OBJECTS],
            timers: [idle; TIMERS],
            hand: NO_EVENT,
            loaded: [0; SLOTS],
            pool: Pool::new(),
        }
    }

    // Whether a step is open: there is an event in hand.
    #[tactic(auto, unfolding(crate::specs::View::state_of, mail::specs::Entry::hand_of, machine::specs::State::is_open))]
    pub fn is_open(&self) -> bool
        ensures { result ≡ machine.is_open (state_of self.now).hand }
    {
        self.hand != NO_EVENT
    }

    // The depth of object p's mailbox, 0 where it is not started and where there is no such object; p = 0 reads as 1, as in the definition.
    fn depth(&self, p: usize) -> usize
        ensures { result ≡ machine.depth_of (state_of self.now) p }
    {
        usize::from(self.depths.get(p.saturating_sub(1)).copied().unwrap_or(0))
    }

    pub fn is_started(&self, p: usize) -> bool
        ensures { result ≡ started (state_of self.now) p }
    {
        self.depth(p) != 0
    }

    // The events that wait in object p's mailbox.
    pub fn queued(&self, p: usize) -> usize
        ensures { result ≡ length (box_of (state_of self.now) p) }
    {
        waiting(&self.mail, p.saturating_sub(1))
    }

    // The free places of object p's mailbox.
    pub fn room(&self, p: usize) -> usize
        ensures { result ≡ machine.room (state_of self.now) p }
    {
        self.depth(p).saturating_sub(self.queued(p))
    }

    // The events that are set aside in side queue q; 0 where there is no such queue.
    pub fn aside(&self, q: usize) -> usize
        ensures { result ≡ length (side_of (state_of self.now) q) }
    {
        waiting(&self.sides, q)
    }
}
