// The tests of each command in the document's order, by ascending number: the first that holds refuses. `spoilt`: an unused byte is not 0.
// A row of tests takes what its command knows, one value for a line of the document's table, and no struct: each row is another.
#![tactic(auto, unfolding(machine::specs::Reply::lowest))]

ghost use Rattle.std.specs.Prelude.{◌&&◌, cond, not, [], ◌∷◌, ◌≡◌, eqb, leb, true, false, MatchResult};
ghost use Rattle.machine.specs.Numbers as ranges;
ghost use Rattle.machine.specs.Numbers.{most_aside, no_block, no_depth, no_flag, no_margin, no_object, no_side, no_signal, no_size, no_slot, no_timer, no_value};
ghost use Rattle.machine.specs.Reply as said;
ghost use Rattle.machine.specs.Reply.{lowest};
ghost use Rattle.numbers.specs.Codes.{code_of};
ghost use Rattle.refusals.specs.Refused.{answer_number};

use numbers::answer::Refusal;
use numbers::{
    BLOCKS, FIRST_SIGNAL, FLAGS, LARGE_BYTES, LAST_SIGNAL, MOST_ASIDE, OBJECTS, PLACES,
    SIDE_QUEUES, SLOTS, TIMERS,
};

const LAST_TIMER: usize = TIMERS - 1;

const LAST_SLOT: usize = SLOTS - 1;

const LAST_BLOCK: usize = BLOCKS - 1;

const LAST_SIDE: usize = SIDE_QUEUES - 1;

const WIDEST: usize = PLACES - 1;

// Refuses where the test holds.
pub fn refuse_if(test: bool, refusal: Refusal) -> Result<(), Refusal>
    ensures { MatchResult result (λ _. test ≡ false) (λ r. (test ≡ true) × (r ≡ refusal)) }
{
    if test { Err(refusal) } else { Ok(()) }
}

// Whether n is not one of low to high.
#[tactic(auto, unfolding(machine::specs::Numbers::outside))]
fn outside(low: usize, high: usize, n: usize) -> bool
    ensures { result ≡ ranges.outside low high n }
{
    !(low..=high).contains(&n)
}

// LOAD.
pub fn load_refusal(
    spoilt: bool,
    bad: bool,
    guarded: bool,
    q: usize,
    busy: bool,
    used: bool,
) -> Result<(), Refusal>
    ensures { answer_number result ≡ lowest ((said.FORM, spoilt) ∷ (said.AREA, bad) ∷ (said.AREA, guarded) ∷ (said.RANGE, no_slot q) ∷ (said.BUSY, busy)
        ∷ (said.TAKEN, used) ∷ []) }
{
    refuse_if(spoilt, Refusal::Form)?;
    refuse_if(bad, Refusal::Area)?;
    refuse_if(guarded, Refusal::Area)?;
    refuse_if(outside(0, LAST_SLOT, q), Refusal::Range)?;
    refuse_if(busy, Refusal::Busy)?;
    refuse_if(used, Refusal::Taken)
}

// START.
pub fn start_refusal(
    spoilt: bool,
    bad: bool,
    guarded: bool,
    p: usize,
    q: usize,
    depth: usize,
    busy: bool,
    loaded: bool,
    started: bool,
    sound: bool,
) -> Result<(), Refusal>
    ensures { answer_number result ≡ lowest ((said.FORM, spoilt) ∷ (said.AREA, bad) ∷ (said.AREA, guarded) ∷ (said.RANGE, no_object p)
        ∷ (said.RANGE, no_slot q) ∷ (said.RANGE, no_depth depth) ∷ (said.BUSY, busy) ∷ (said.ABSENT, not loaded) ∷ (said.TAKEN, started) ∷ (said.TABLE, not sound) ∷ []) }
{
    refuse_if(spoilt, Refusal::Form)?;
    refuse_if(bad, Refusal::Area)?;
    refuse_if(guarded, Refusal::Area)?;
    refuse_if(outside(1, OBJECTS, p), Refusal::Range)?;
    refuse_if(outside(0, LAST_SLOT, q), Refusal::Range)?;
    refuse_if(outside(1, PLACES, depth), Refusal::Range)?;
    refuse_if(busy, Refusal::Busy)?;
    refuse_if(!loaded, Refusal::Absent)?;
    refuse_if(started, Refusal::Taken)?;
    refuse_if(!sound, Refusal::Table)
}

// FLAG.
pub fn flag_refusal(
    spoilt: bool,
    p: usize,
    f: usize,
    v: usize,
    busy: bool,
    started: bool,
) -> Result<(), Refusal>
    ensures { answer_number result ≡ lowest ((said.FORM, spoilt) ∷ (said.RANGE, no_object p) ∷ (said.RANGE, no_flag f) ∷ (said.RANGE, no_value v)
        ∷ (said.BUSY, busy) ∷ (said.ABSENT, not started) ∷ []) }
{
    refuse_if(spoilt, Refusal::Form)?;
    refuse_if(outside(1, OBJECTS, p), Refusal::Range)?;
    refuse_if(outside(1, FLAGS, f), Refusal::Range)?;
    refuse_if(outside(0, 1, v), Refusal::Range)?;
    refuse_if(busy, Refusal::Busy)?;
    refuse_if(!started, Refusal::Absent)
}

// NEW.
pub fn new_refusal(
    spoilt: bool,
    bad: bool,
    g: usize,
    size: usize,
    none: bool,
) -> Result<(), Refusal>
    ensures { answer_number result ≡ lowest ((said.FORM, spoilt) ∷ (said.AREA, bad) ∷ (said.RANGE, no_signal g) ∷ (said.RANGE, no_size size) ∷ (said.DRY, none) ∷ []) }
{
    refuse_if(spoilt, Refusal::Form)?;
    refuse_if(bad, Refusal::Area)?;
    refuse_if(outside(FIRST_SIGNAL, LAST_SIGNAL, g), Refusal::Range)?;
    refuse_if(outside(0, LARGE_BYTES, size), Refusal::Range)?;
    refuse_if(none, Refusal::Dry)
}

// POST, and with margin 0 POSTFRONT.
pub fn post_refusal(
    spoilt: bool,
    b: usize,
    p: usize,
    margin: usize,
    stale: bool,
    started: bool,
    room: usize,
) -> Result<(), Refusal>
    ensures { answer_number result ≡ lowest ((said.FORM, spoilt) ∷ (said.RANGE, no_block b) ∷ (said.RANGE, no_object p) ∷ (said.RANGE, no_margin margin)
        ∷ (said.STALE, stale) ∷ (said.ABSENT, not started) ∷ (said.FULL, leb room margin) ∷ []) }
{
    refuse_if(spoilt, Refusal::Form)?;
    refuse_if(outside(0, LAST_BLOCK, b), Refusal::Range)?;
    refuse_if(outside(1, OBJECTS, p), Refusal::Range)?;
    refuse_if(outside(0, WIDEST, margin), Refusal::Range)?;
    refuse_if(stale, Refusal::Stale)?;
    refuse_if(!started, Refusal::Absent)?;
    refuse_if(room <= margin, Refusal::Full)
}

// PUBLISH, HOLD, RELEASE and DROP, which differ in their last test.
pub fn handle_refusal(
    spoilt: bool,
    b: usize,
    stale: bool,
    last: Refusal,
    test: bool,
) -> Result<(), Refusal>
    ensures { answer_number result ≡ lowest ((said.FORM, spoilt) ∷ (said.RANGE, no_block b) ∷ (said.STALE, stale) ∷ (code_of last, test) ∷ []) }
{
    refuse_if(spoilt, Refusal::Form)?;
    refuse_if(outside(0, LAST_BLOCK, b), Refusal::Range)?;
    refuse_if(stale, Refusal::Stale)?;
    refuse_if(test, last)
}

// SUBSCRIBE and UNSUBSCRIBE.
pub fn subscribe_refusal(spoilt: bool, p: usize, g: usize, started: bool) -> Result<(), Refusal>
    ensures { answer_number result ≡ lowest ((said.FORM, spoilt) ∷ (said.RANGE, no_object p) ∷ (said.RANGE, no_signal g) ∷ (said.ABSENT, not started) ∷ []) }
{
    refuse_if(spoilt, Refusal::Form)?;
    refuse_if(outside(1, OBJECTS, p), Refusal::Range)?;
    refuse_if(outside(FIRST_SIGNAL, LAST_SIGNAL, g), Refusal::Range)?;
    refuse_if(!started, Refusal::Absent)
}

// READ.
pub fn read_refusal(spoilt: bool, bad: bool, b: usize, stale: bool) -> Result<(), Refusal>
    ensures { answer_number result ≡ lowest ((said.FORM, spoilt) ∷ (said.AREA, bad) ∷ (said.RANGE, no_block b) ∷ (said.STALE, stale) ∷ []) }
{
    refuse_if(spoilt, Refusal::Form)?;
    refuse_if(bad, Refusal::Area)?;
    refuse_if(outside(0, LAST_BLOCK, b), Refusal::Range)?;
    refuse_if(stale, Refusal::Stale)
}

// NEXT.
pub fn next_refusal(
    spoilt: bool,
    bad: bool,
    guarded: bool,
    busy: bool,
    p: usize,
    sound: bool,
) -> Result<(), Refusal>
    ensures { answer_number result ≡ lowest ((said.FORM, spoilt) ∷ (said.AREA, bad) ∷ (said.AREA, guarded) ∷ (said.BUSY, busy) ∷ (said.IDLE, eqb p 0)
        ∷ (said.TABLE, not sound) ∷ []) }
{
    refuse_if(spoilt, Refusal::Form)?;
    refuse_if(bad, Refusal::Area)?;
    refuse_if(guarded, Refusal::Area)?;
    refuse_if(busy, Refusal::Busy)?;
    refuse_if(p == 0, Refusal::Idle)?;
    refuse_if(!sound, Refusal::Table)
}

// END.
pub fn end_refusal(spoilt: bool, busy: bool) -> Result<(), Refusal>
    ensures { answer_number result ≡ lowest ((said.FORM, spoilt) ∷ (said.NOSTEP, not busy) ∷ []) }
{
    refuse_if(spoilt, Refusal::Form)?;
    refuse_if(!busy, Refusal::NoStep)
}

// ARM.
pub fn arm_refusal(
    spoilt: bool,
    t: usize,
    p: usize,
    g: usize,
    ticks: usize,
    started: bool,
    armed: bool,
) -> Result<(), Refusal>
    ensures { answer_number result ≡ lowest ((said.FORM, spoilt) ∷ (said.RANGE, no_timer t) ∷ (said.RANGE, no_object p) ∷ (said.RANGE, no_signal g)
        ∷ (said.RANGE, eqb ticks 0) ∷ (said.ABSENT, not started) ∷ (said.TAKEN, armed) ∷ []) }
{
    refuse_if(spoilt, Refusal::Form)?;
    refuse_if(outside(0, LAST_TIMER, t), Refusal::Range)?;
    refuse_if(outside(1, OBJECTS, p), Refusal::Range)?;
    refuse_if(outside(FIRST_SIGNAL, LAST_SIGNAL, g), Refusal::Range)?;
    refuse_if(ticks == 0, Refusal::Range)?;
    refuse_if(!started, Refusal::Absent)?;
    refuse_if(armed, Refusal::Taken)
}

// DISARM.
pub fn disarm_refusal(spoilt: bool, t: usize) -> Result<(), Refusal>
    ensures { answer_number result ≡ lowest ((said.FORM, spoilt) ∷ (said.RANGE, no_timer t) ∷ []) }
{
    refuse_if(spoilt, Refusal::Form)?;
    refuse_if(outside(0, LAST_TIMER, t), Refusal::Range)
}

// DRAIN.
pub fn drain_refusal(
    spoilt: bool,
    tables: bool,
    guarded: bool,
    log: bool,
    busy: bool,
) -> Result<(), Refusal>
    ensures { answer_number result ≡ lowest ((said.FORM, spoilt) ∷ (said.AREA, tables) ∷ (said.AREA, guarded) ∷ (said.AREA, log) ∷ (said.BUSY, busy) ∷ []) }
{
    refuse_if(spoilt, Refusal::Form)?;
    refuse_if(tables, Refusal::Area)?;
    refuse_if(guarded, Refusal::Area)?;
    refuse_if(log, Refusal::Area)?;
    refuse_if(busy, Refusal::Busy)
}

// DEFER.
pub fn defer_refusal(
    spoilt: bool,
    q: usize,
    busy: bool,
    timer: bool,
    aside: usize,
) -> Result<(), Refusal>
    ensures { answer_number result ≡ lowest ((said.FORM, spoilt) ∷ (said.RANGE, no_side q) ∷ (said.NOSTEP, not busy) ∷ (said.STALE, timer)
        ∷ (said.FULL, leb most_aside aside) ∷ []) }
{
    refuse_if(spoilt, Refusal::Form)?;
    refuse_if(outside(0, LAST_SIDE, q), Refusal::Range)?;
    refuse_if(!busy, Refusal::NoStep)?;
    refuse_if(timer, Refusal::Stale)?;
    refuse_if(MOST_ASIDE <= aside, Refusal::Full)
}

// There is an entry to recall, and no place for it.
fn no_place(aside: usize, room: usize) -> bool
    ensures { result ≡ (not (eqb aside 0) && eqb room 0) }
{
    aside != 0 && room == 0
}

// RECALL.
pub fn recall_refusal(
    spoilt: bool,
    q: usize,
    p: usize,
    started: bool,
    aside: usize,
    room: usize,
) -> Result<(), Refusal>
    ensures { answer_number result ≡ lowest ((said.FORM, spoilt) ∷ (said.RANGE, no_side q) ∷ (said.RANGE, no_object p) ∷ (said.ABSENT, not started)
        ∷ (said.FULL, not (eqb aside 0) && eqb room 0) ∷ []) }
{
    refuse_if(spoilt, Refusal::Form)?;
    refuse_if(outside(0, LAST_SIDE, q), Refusal::Range)?;
    refuse_if(outside(1, OBJECTS, p), Refusal::Range)?;
    refuse_if(!started, Refusal::Absent)?;
    refuse_if(no_place(aside, room), Refusal::Full)
}

// FLUSH.
pub fn flush_refusal(spoilt: bool, q: usize) -> Result<(), Refusal>
    ensures { answer_number result ≡ lowest ((said.FORM, spoilt) ∷ (said.RANGE, no_side q) ∷ []) }
{
    refuse_if(spoilt, Refusal::Form)?;
    refuse_if(outside(0, LAST_SIDE, q), Refusal::Range)
}
