// Plays a trace: takes it in piece by piece, finds the chart of a LOAD in its file, and has the kernel answer.
#![tactic(auto)]

ghost use Rattle.std.specs.Prelude.{◌≡◌, ◌<◌, IfSome, IsNone, IsOk, OnErr, slice_index};
ghost use Rattle.std.specs.Io.{ReadsAtMost};
ghost use Rattle.machine.specs.Numbers.{slots};
ghost use Rattle.state.specs.View.{Good};

mod lent;

use input::read_full;
use kernel::{Kernel, Reply};
pub use lent::Areas;
use numbers::command::Command;
use numbers::{GUARDED_AREA, LOG_AREA, PAYLOAD_AREA, RECORD_BYTES, TABLE_AREA};
use std::fs::File;
use std::io;
use std::io::Read;
use std::rt::Files;

// The areas as long as the kernel asks for.
pub type KernelAreas = Areas<PAYLOAD_AREA, TABLE_AREA, GUARDED_AREA, LOG_AREA>;

// One byte more than a chart may have, so that a longer file is handed on as a chart that is too long.
const CHART_BYTES: usize = numbers::LONGEST_CHART + 1;

// The folder in which a program is started, by a letter as every folder of charts.
pub const HERE: u8 = b'.';

const SLOTS: u8 = numbers::SLOTS as u8;

const LOAD: u8 = Command::Load as u8;

// Reads the file of a slot's chart, and answers how many bytes it has. A file that is missing has none.
fn read_chart(rt: &impl Files, folder: u8, slot: u8, chart: &mut [u8]) -> io::Result<usize>
    requires { slot < slots }
    ensures { ReadsAtMost result chart.new }
{
    let path = [folder, b'/', b'c', b'h', b'a', b'r', b't', b'0' + slot];
    let Ok(path) = str::from_utf8(&path) else {
        return Ok(0);
    };
    let Ok(mut file) = File::open(rt, path) else {
        return Ok(0);
    };
    read_full(&mut file, chart)
}

// The slot whose chart a record asks for.
fn slot_of(record: &[u8]) -> Option<u8>
    ensures slot { IfSome result (λ slot. slot < slots) }
    ensures only_load { (slice_index «record».now 0 ≡ LOAD → ⊥) → IsNone result }
{
    match record {
        [LOAD, slot, ..] if record.len() == RECORD_BYTES && *slot < SLOTS => Some(*slot),
        _ => None,
    }
}

// The answer to a record of any length, with areas of any lengths. No file is read but for a LOAD of a slot that there is.
pub fn answer(
    rt: &impl Files,
    k: &mut Kernel,
    record: &[u8],
    folder: u8,
    payloads: &mut [u8],
    tables: &mut [u8],
    guarded: &mut [u8],
    log: &mut [u8],
) -> io::Result<Reply>
    requires { Good k.old }
    ensures good { Good k.new }
    ensures kept { OnErr result ((k.new ≡ k.old) × (payloads.new ≡ payloads.old) × (tables.new ≡ tables.old)
        × (guarded.new ≡ guarded.old) × (log.new ≡ log.old)) }
    ensures only_load { (slice_index «record».now 0 ≡ LOAD → ⊥) → IsOk result }
{
    let Some(slot) = slot_of(record) else {
        return Ok(kernel::command(k, record, &[], payloads, tables, guarded, log));
    };
    let mut chart = [0u8; CHART_BYTES];
    let n = read_chart(rt, folder, slot, &mut chart)?;
    Ok(kernel::command(k, record, &chart[..n], payloads, tables, guarded, log))
}

// How replies are written: as they are, or each as a frame, numbered on from this.
#[derive(Clone, Copy, Debug, PartialEq, Eq)]
pub enum Replies {
    Plain,
    Framed(u8),
}

// Writes a reply as a frame, which is never refused: there is room for the longest. The record number is the command's, since a reply
// does not say which command it answers. Answers the number of the next frame.
#[tactic(auto, using(frame::proofs::Theorems::longest), unfolding(frame::specs::Writing::written))]
fn write_frame(rt: &impl Print, number: u8, command: u8, reply: Reply) -> io::Result<u8> {
    let mut bytes = [0u8; frame::LONGEST];
    let written = frame::writer::write(number, command, &reply, &mut bytes).unwrap();
    rt.write_all(&bytes[..written.length])?;
    Ok(written.next)
}

// Writes the reply to a command, and answers how the next is written.
fn write_reply(
    rt: &impl Print,
    replies: Replies,
    command: u8,
    reply: Reply,
) -> io::Result<Replies> {
    match replies {
        Replies::Plain => {
            rt.write_all(&reply)?;
            Ok(Replies::Plain)
        }
        Replies::Framed(number) => Ok(Replies::Framed(write_frame(rt, number, command, reply)?)),
    }
}

// Plays a trace from a fresh start, with the charts of a folder. Each piece of the input is a record, unless it ends before.
// A proved loop has to end, and nothing says that the input does: so the turns are counted.
pub fn play(
    rt: &(impl Files + Print),
    input: &mut impl Read,
    folder: u8,
    replies: Replies,
) -> io::Result<()> {
    let mut k = kernel::fresh();
    let mut areas = KernelAreas::new();
    let mut replies = replies;
    for _ in 0..u64::MAX {
        let mut record = [0u8; RECORD_BYTES];
        let n = read_full(input, &mut record)?;
        if n == 0 {
            break;
        }
        let reply = answer(
            rt,
            &mut k,
            &record[..n],
            folder,
            &mut areas.payloads,
            &mut areas.tables,
            &mut areas.guarded,
            &mut areas.log,
        )?;
        replies = write_reply(rt, replies, record[0], reply)?;
    }
    Ok(())
}
