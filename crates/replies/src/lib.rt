// A reply of the kernel in words.
//
// First the answer's name, then as much of this as the reply has:
//     object 9  transition  signal 6    START and NEXT: the object, the outcome, and the signal (START has none)
//     event 32 1                        NEXT and NEW: the event's block and generation; or `timer` and its number
//     least free 3                      NEW: the least number of free blocks that its pool has had
//     values 5 0                        any other command that was done: its two values
//     class 2                           CHART: the class of the fault
//     count 4  actions 26 22 31 41      the count and the actions; for READ bytes of the payload
// What the kernel never writes is told too: `unknown answer 16`, a number above 15; `handle 1 2`, where no event is told.
#![tactic(auto)]

use numbers::answer::Refusal;
use numbers::{HANDLE, REPLY_BYTES};
use std::fmt;
use text::Spaced;

// An event that came from timer t has the block number 128 + t.
const FIRST_TIMER: u8 = 128;

// Where the actions begin, or the bytes of a payload.
const COUNTED: usize = 6;

const DONE: u8 = 0;

const CHART: u8 = Refusal::Chart as u8;

// Each answer at its number.
const ANSWERS: [&str; 16] = [
    "DONE", "FORM", "AREA", "RANGE", "BUSY", "NOSTEP", "IDLE", "STALE", "ABSENT", "TAKEN", "FULL",
    "DRY", "HOLDS", "INUSE", "CHART", "TABLE",
];

const OUTCOMES: [&str; 3] = ["ignored", "internal", "transition"];

#[derive(Clone, Copy, Debug)]
pub struct InWords(pub [u8; REPLY_BYTES]);

impl fmt::Display for InWords {
    fn fmt<W: fmt::Write>(&self, f: &mut fmt::Formatter<W>) -> fmt::Result {
        let reply = self.0;
        write_answer(f, reply[0])?;
        if reply[1] != 0 || reply[2] != 0 {
            return write_step(f, reply);
        }
        let handle = Handle::of(reply);
        if reply[0] == DONE && is_to_new(reply, handle) {
            write_event(f, handle)?;
            return write!(f, "  least free {}", reply[3]);
        }
        write_values(f, reply)?;
        write_counted(f, "bytes", reply)?;
        write_handle(f, handle)
    }
}

fn write_answer<W: fmt::Write>(f: &mut fmt::Formatter<W>, number: u8) -> fmt::Result {
    match ANSWERS.get(usize::from(number)) {
        Some(name) => f.write_str(name),
        None => write!(f, "unknown answer {number}"),
    }
}

fn write_outcome<W: fmt::Write>(f: &mut fmt::Formatter<W>, outcome: u8) -> fmt::Result {
    match OUTCOMES.get(usize::from(outcome)) {
        Some(name) => write!(f, "  {name}"),
        None => write!(f, "  outcome {outcome}"),
    }
}

// The last bytes of a reply: the first of them, and the three of the generation as a number.
#[derive(Clone, Copy, Debug, PartialEq, Eq)]
struct Handle {
    block: u8,
    generation: u32,
}

impl Handle {
    const ZERO: Handle = Handle {
        block: 0,
        generation: 0,
    };

    fn of(reply: [u8; REPLY_BYTES]) -> Handle {
        Handle {
            block: reply[HANDLE],
            generation: u32::from_le_bytes([
                reply[HANDLE + 1],
                reply[HANDLE + 2],
                reply[HANDLE + 3],
                0,
            ]),
        }
    }
}

impl fmt::Display for Handle {
    fn fmt<W: fmt::Write>(&self, f: &mut fmt::Formatter<W>) -> fmt::Result {
        write!(f, "{} {}", self.block, self.generation)
    }
}

fn write_event<W: fmt::Write>(f: &mut fmt::Formatter<W>, event: Handle) -> fmt::Result {
    match event.block.checked_sub(FIRST_TIMER) {
        Some(timer) => write!(f, "  timer {timer}"),
        None => write!(f, "  event {event}"),
    }
}

// A handle that is no event's.
fn write_handle<W: fmt::Write>(f: &mut fmt::Formatter<W>, handle: Handle) -> fmt::Result {
    if handle == Handle::ZERO {
        return Ok(());
    }
    write!(f, "  handle {handle}")
}

fn write_values<W: fmt::Write>(f: &mut fmt::Formatter<W>, reply: [u8; REPLY_BYTES]) -> fmt::Result {
    let first = reply[4];
    let second = reply[5];
    match reply[0] {
        CHART => write!(f, "  class {first}"),
        DONE => write!(f, "  values {first} {second}"),
        _ if first != 0 || second != 0 => write!(f, "  values {first} {second}"),
        _ => Ok(()),
    }
}

// The count, what it counts, and as many of these as there can be.
fn write_counted<W: fmt::Write>(
    f: &mut fmt::Formatter<W>,
    name: &str,
    reply: [u8; REPLY_BYTES],
) -> fmt::Result {
    let count = reply[3];
    if count == 0 {
        return Ok(());
    }
    let counted = &reply[COUNTED..HANDLE];
    let shown = counted.len().min(usize::from(count));
    write!(f, "  count {count}  {name}{}", Spaced(&counted[..shown]))
}

// What START and NEXT tell. START has no signal, and so no event.
fn write_step<W: fmt::Write>(f: &mut fmt::Formatter<W>, reply: [u8; REPLY_BYTES]) -> fmt::Result {
    let handle = Handle::of(reply);
    let signal = reply[2] % 32;
    write!(f, "  object {}", reply[1])?;
    write_outcome(f, reply[2] / 32)?;
    if signal == 0 {
        write_counted(f, "actions", reply)?;
        return write_handle(f, handle);
    }
    write!(f, "  signal {signal}")?;
    write_event(f, handle)?;
    write_counted(f, "actions", reply)
}

// Whether a reply that is done answers NEW: it alone has no values and yet a count, its pool's mark, or a handle. READ's count
// comes with the payload's size for a value, and the event of zeros, the first of a fresh pool, with a mark.
fn is_to_new(reply: [u8; REPLY_BYTES], handle: Handle) -> bool {
    reply[4] == 0 && reply[5] == 0 && (reply[3] != 0 || handle != Handle::ZERO)
}
