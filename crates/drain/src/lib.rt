// Steps: what NEXT reads of the event that comes, and DRAIN's steps over what the kernel lends. The steps leave the blocks alone: they note
// how often each is let go, and the kernel then lets go of all of them.
#![tactic(auto)]

mod slot;

ghost use Rattle.std.specs.Prelude.{cond, ◌≡◌, ℕ, ◌*◌, ◌≤◌, ◌<◌, eqb, ltb, get_or, length};
ghost use Rattle.chart.specs.Held.{answer_at, is_sound};
ghost use Rattle.machine.specs.Inv.{IsEvent};
ghost use Rattle.machine.specs.Numbers.{table_bytes, guarded_bytes, log_bytes, most_steps, reply_bytes};
ghost use Rattle.machine.specs.Reply.{over, reply_of, ran};
ghost use Rattle.machine.specs.Run.{block_of};
ghost use Rattle.machine.specs.State.{State};
ghost use Rattle.mail.specs.Box.{highest};
ghost use Rattle.mail.specs.Entry.{hand_of};
ghost use Rattle.mail.specs.View.{boxes};
ghost use Rattle.pool.specs.Row.{first_bytes, once_more};
ghost use Rattle.drain.specs.Lent.{FitOn, Generations, Lies, Looks, Ready, Runs, Sized, Stretch, run_at, run_on};

use chart::Reading;
use chart::read::Edition;
use mail::{Hand, Ring};
use numbers::{BLOCKS, FIRST_BYTES, FLAGS, OBJECTS, REPLY_BYTES, ROW_BYTES};
use reply::Reply;
use slot::{GuardedSlot, PlainSlot};
use slots::edition_of;

// What NEXT answers for a timer: 128 + t, then 0.
const TIMER: u8 = 128;

// DRAIN's second value, a byte of the reply that no code reads back: nothing is queued, or it stopped below its budget.
const ALL_DONE: u8 = 1;

const STOPPED: u8 = 2;

// For an event that is no block, a byte as `block_of` of machine's Run has it, so that what lets go of blocks takes each event alike.
const NO_BLOCK: u8 = 255;

// An event that comes: its signal, and its handle, the first byte and the generation.
#[derive(Clone, Copy, Debug, PartialEq, Eq)]
pub struct Coming {
    pub signal: u8,
    pub first: u8,
    pub generation: u32,
}

// What a run reads and does not change: the slot of each object, the events, the flags, and the tables of the slots. What it changes comes
// beside it, since a clause on a `&mut` in a struct would have to say that the field still holds the same reference.
#[derive(Clone, Copy)]
pub struct Fixed<'a> {
    pub seats: &'a [u8; OBJECTS],
    pub signals: &'a [u8; BLOCKS],
    pub gens: &'a [u32; BLOCKS],
    pub flags: &'a [u64; FLAGS],
    pub tables: &'a [u8],
    pub guarded: &'a [u8],
}

// The block that an event is; 255, which is no block, for a timer.
#[tactic(auto, unfolding(machine::specs::Run::block_of))]
pub fn block_of(h: Hand) -> u8
    ensures { result ≡ block_of h }
{
    match h {
        Hand::Block(b) => b,
        Hand::Nothing | Hand::Timer(_, _) => NO_BLOCK,
    }
}

// The event of an entry.
#[tactic(auto, unfolding(machine::specs::Inv::IsEvent, machine::specs::Steps::signal_of, machine::specs::Steps::first_byte, machine::specs::Steps::generation_in))]
pub fn look(signals: &[u8; BLOCKS], gens: &[u32; BLOCKS], e: u16) -> Coming
    requires { IsEvent (hand_of e) }
    ensures { (s : State) → s.events.signals ≡ signals.now → Generations s gens.now → Looks s (hand_of e) result }
{
    match mail::hand_of(e) {
        Hand::Nothing => Coming {
            signal: 0,
            first: 0,
            generation: 0,
        },
        Hand::Block(b) => Coming {
            signal: signals[usize::from(b)],
            first: b,
            generation: gens[usize::from(b)],
        },
        Hand::Timer(t, g) => Coming {
            signal: g,
            first: TIMER + t,
            generation: 0,
        },
    }
}

// Whether each row that was read is sound.
#[tactic(auto, unfolding(chart::specs::Held::is_sound))]
pub fn is_sound(found: Reading) -> bool
    ensures { result ≡ is_sound found }
{
    match found {
        Reading::Taken(_) | Reading::Ignored => true,
        Reading::Unsound => false,
    }
}

// The state of rest after what was found in a table: that of the row that is taken, else the one before.
#[tactic(auto, unfolding(chart::specs::Held::answer_at))]
pub fn next_rest(table: &[u8], found: Reading, rest: u8) -> u8
    requires { Lies table.now found }
    ensures { result ≡ (answer_at table.now rest found).next }
{
    match found {
        Reading::Taken(at) => table[at],
        Reading::Ignored | Reading::Unsound => rest,
    }
}

// NEXT's answer, of object p: what was found in a table for the event that comes.
#[tactic(auto, unfolding(chart::specs::Held::answer_at))]
pub fn answer(p: usize, l: Coming, table: &[u8], found: Reading) -> Reply
    requires { Runs p l × Lies table.now found }
    ensures { (rest : ℕ) → result ≡ reply_of (ran p l.signal l.first l.generation (answer_at table.now rest found)) }
{
    match found {
        Reading::Taken(at) => reply::ran(
            p as u8,
            l.signal,
            l.first,
            l.generation,
            &table[at..at + ROW_BYTES],
        ),
        Reading::Ignored | Reading::Unsound => reply::ignored(
            p as u8,
            l.signal,
            l.first,
            l.generation,
        ),
    }
}

// Step n of a run, which took the event of a handle, is noted: its line in the log, and that the event is let go once more.
fn note(log: &mut [u8], times: &mut [u8; FIRST_BYTES], n: usize, first: u8, line: Reply)
    requires { (length log.old ≡ log_bytes) × (length times.old ≡ first_bytes) × (n < most_steps) × ((b : ℕ) → get_or times.old b 0 ≤ n) }
    ensures { (log.new ≡ over log.old (reply_bytes * n) line) × (times.new ≡ once_more times.old first) }
{
    let at = REPLY_BYTES * n;
    log[at..at + REPLY_BYTES].copy_from_slice(&line);
    times[usize::from(first)] += 1;
}

// The steps of object p, if it has mail.
fn turn(
    fixed: Fixed,
    mail: &mut [Ring; OBJECTS],
    rests: &mut [u8; OBJECTS],
    times: &mut [u8; FIRST_BYTES],
    log: &mut [u8],
    budget: usize,
    p: usize,
    from: usize,
) -> usize
    requires { Ready fixed p budget (run_at (boxes mail.old) rests.old times.old log.old from) }
    ensures { Stretch fixed.entry p budget
        (run_at (boxes mail.old) rests.old times.old log.old from)
        (run_at (boxes mail.new) rests.new times.new log.new result) }
{
    if mail[p - 1].is_empty() {
        return from;
    }
    match edition_of(usize::from(fixed.seats[p - 1])) {
        Edition::Plain => {
            slot::run_object::<PlainSlot>(fixed, mail, rests, times, log, budget, p, from)
        }
        Edition::Guarded => {
            slot::run_object::<GuardedSlot>(fixed, mail, rests, times, log, budget, p, from)
        }
    }
}

// DRAIN's steps, at most as many as the budget: how many were taken, and how often each block is to be let go.
pub fn run(
    fixed: Fixed,
    mail: &mut [Ring; OBJECTS],
    rests: &mut [u8; OBJECTS],
    times: &mut [u8; FIRST_BYTES],
    log: &mut [u8],
    budget: usize,
) -> usize
    requires sized { Sized (run_at (boxes mail.old) rests.old times.old log.old 0) × (length fixed.tables.now ≡ table_bytes) × (length fixed.guarded.now ≡ guarded_bytes) × (budget ≤ most_steps) }
    requires fit_run { FitOn fixed (run_at (boxes mail.old) rests.old times.old log.old 0) }
    ensures { Sized (run_at (boxes mail.new) rests.new times.new log.new result)
        × (run_at (boxes mail.new) rests.new times.new log.new result
        ≡ run_on fixed.entry budget (run_at (boxes mail.old) rests.old times.old log.old 0)) }
{
    let mut n = 0;
    for p in (1..=OBJECTS).rev() {
        n = turn(fixed, mail, rests, times, log, budget, p, n);
        if !mail[p - 1].is_empty() {
            return n;
        }
    }
    n
}

// DRAIN's second value: 1 if nothing is queued, else 2 if it stopped below its budget, else 0.
pub fn last_value(mail: &[Ring; OBJECTS], steps: usize, budget: usize) -> u8
    ensures { result ≡ cond (eqb (highest (boxes mail.now)) 0) 1 (cond (ltb steps budget) 2 0) }
{
    if mail::highest(mail) == 0 {
        ALL_DONE
    } else if steps < budget {
        STOPPED
    } else {
        0
    }
}
