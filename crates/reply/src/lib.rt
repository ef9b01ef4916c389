// The 28 bytes of every reply.
#![tactic(auto, unfolding(ground::specs::Bytes::padded, machine::specs::Reply::bytes, machine::specs::Reply::reply_of))]

ghost use Rattle.std.specs.Prelude.{◌++◌, ◌≡◌, ℕ, ◌≤◌, ◌<◌, length, get_or, take};
ghost use Rattle.chart.specs.Faults.{class};
ghost use Rattle.chart.specs.Flat.{answer_of, flag_at, row_of};
ghost use Rattle.chart.specs.Numbers.{row_size};
ghost use Rattle.chart.specs.Step as nested;
ghost use Rattle.machine.specs.Numbers.{handle_place, most_bytes, signal_places};
ghost use Rattle.machine.specs.Reply.{no, bad_chart, handle, reply_of};
ghost use Rattle.machine.specs.Reply as told;
ghost use Rattle.reply.specs.Said.{said};

use chart::faults::Fault;
use ground::fill;
use numbers::answer::Refusal;
use numbers::{ACTIONS_IN_ROW, HANDLE, MOST_ACTIONS, REPLY_BYTES};

pub type Reply = [u8; REPLY_BYTES];

const NUMBER: usize = 0;

const OBJECT: usize = 1;

const OUTCOME: usize = 2;

const COUNT: usize = 3;

const FIRST_VALUE: usize = 4;

const SECOND_VALUE: usize = 5;

const ACTIONS: usize = 6;

// A refusal by its number.
pub fn refused(n: u8) -> Reply
    ensures { result ≡ reply_of (no n) }
{
    let mut r = [0u8; REPLY_BYTES];
    r[NUMBER] = n;
    r
}

// What a command answers: its reply, or that it refuses.
pub fn said(answer: Result<Reply, Refusal>) -> Reply
    ensures { result ≡ said answer }
{
    match answer {
        Ok(reply) => reply,
        Err(refusal) => refused(refusal.code()),
    }
}

// A refused chart, with the class of its fault.
pub fn bad_chart(fault: Fault) -> Reply
    ensures { result ≡ reply_of (bad_chart (class fault)) }
{
    let mut r = [0u8; REPLY_BYTES];
    r[NUMBER] = Refusal::Chart.code();
    r[FIRST_VALUE] = fault.class();
    r
}

// Done, with two values.
pub fn done(v: u8, w: u8) -> Reply
    ensures { result ≡ reply_of (told.done v w) }
{
    let mut r = [0u8; REPLY_BYTES];
    r[FIRST_VALUE] = v;
    r[SECOND_VALUE] = w;
    r
}

// The reply with a handle in its last four bytes: the first, and a generation, low byte first.
fn with_handle(reply: Reply, first: u8, generation: u32) -> Reply
    ensures { result ≡ take handle_place reply ++ handle first generation }
{
    let mut r = reply;
    let [low, middle, high, _] = generation.to_le_bytes();
    r[HANDLE..].copy_from_slice(&[first, low, middle, high]);
    r
}

// The answer of NEW: the handle, and the pool's mark.
pub fn made(b: u8, generation: u32, mark: u8) -> Reply
    ensures { result ≡ reply_of (told.made b generation mark) }
{
    let mut r = [0u8; REPLY_BYTES];
    r[COUNT] = mark;
    with_handle(r, b, generation)
}

// The answer of START and NEXT: object p took the row, which is that of an answer, with the signal g, for the event of a handle.
pub fn ran(p: u8, g: u8, first: u8, generation: u32, row: &[u8]) -> Reply
    requires row_len { (length row.now ≡ row_size) × (get_or row.now 1 0 ≤ 2) × (g < signal_places) }
    requires row_value { row_of (flag_at row.now) (answer_of row.now) ≡ row.now }
    ensures { result ≡ reply_of (told.ran p g first generation (answer_of row.now)) }
{
    let mut r = [0u8; REPLY_BYTES];
    r[ACTIONS..HANDLE].copy_from_slice(&row[ACTIONS_IN_ROW..ACTIONS_IN_ROW + MOST_ACTIONS]);
    r[OBJECT] = p;
    r[OUTCOME] = row[1] * 32 + g;
    r[COUNT] = row[2];
    with_handle(r, first, generation)
}

// The answer of NEXT where the object ignores the signal, wherever it rests.
pub fn ignored(p: u8, g: u8, first: u8, generation: u32) -> Reply
    ensures { (rest : ℕ) → result ≡ reply_of (told.ran p g first generation (nested.ignored rest)) }
{
    let mut r = [0u8; REPLY_BYTES];
    r[OBJECT] = p;
    r[OUTCOME] = g;
    with_handle(r, first, generation)
}

// The answer of READ: the payload's length, and as much of it as there is room for.
pub fn shown(payload: &[u8]) -> Reply
    requires { length payload.now ≤ most_bytes }
    ensures { result ≡ reply_of (told.shown payload.now) }
{
    let n = payload.len();
    let mut r = [0u8; REPLY_BYTES];
    fill(&mut r[ACTIONS..HANDLE], payload);
    r[COUNT] = n.min(MOST_ACTIONS) as u8;
    r[FIRST_VALUE] = n as u8;
    r
}
