// Plays traces whose replies were written by hand from documents 01 and 02, and writes them with the kernel's replies.
//
// A line is a record as the crate `words` reads it, `=`, and the reply's bytes without the zeros at its end:
//     POST 0 0 9 2 = 0 0 0 0 1
// The records of a chart have no reply. Those between two commands are one chart, which is lent with the second; a LOAD
// with none before it has the file of its slot:
//     TOP 1 10
//     STATE 0 11 12
//     LOAD 0 = 0 0 0 0 1
// FRESH begins a trace, with a fresh kernel, areas of zeros and no chart. Remarks and empty lines are written as they are.
// So the program has to write what it reads: stdout is a copy of stdin.
#![tactic(auto)]

ghost use Rattle.state.specs.View.{Good};

use arrayvec::ArrayVec;
use kernel::{Kernel, Reply};
use player::KernelAreas;
use std::io;
use std::io::{BufWriter, Read, Write};
use std::rt::Files;
use text::ReplyBytes;
use words::{Entry, Unreadable};

// One byte more than a chart may have. A longer one is cut off there, and is still a chart that is too long.
const CHART_ROOM: usize = numbers::LONGEST_CHART + 1;

// Fewer bytes of a line wait for its end: so many are written as soon as they are there.
const LINE_BYTES: usize = 256;

// Writes in pieces of so many bytes, and the rest where it is flushed.
#[derive(Drop)]
struct Pieces<W: Write + Drop> {
    piece: BufWriter<W>,
}

impl<W: Write + Drop> Write for Pieces<W> {
    fn write(&mut self, bytes: &[u8]) -> io::Result<usize> {
        let room = LINE_BYTES.saturating_sub(self.piece.buffer().len());
        let n = self.piece.write(&bytes[..bytes.len().min(room)])?;
        if LINE_BYTES <= self.piece.buffer().len() {
            self.piece.flush()?;
        }
        Ok(n)
    }

    fn flush(&mut self) -> io::Result<()> {
        self.piece.flush()
    }
}

// A trace in play, with the chart that stands before the next command.
#[derive(Drop)]
struct Trace {
    kernel: Kernel,
    areas: KernelAreas,
    chart: ArrayVec<u8, CHART_ROOM>,
}

impl Trace {
    fn new() -> Trace
        ensures { Good result.kernel }
    {
        Trace {
            kernel: kernel::fresh(),
            areas: KernelAreas::new(),
            chart: ArrayVec::new(),
        }
    }

    // The reply to a record with the chart before it, which no later command is lent. Where there is none, a LOAD finds its chart in a
    // file.
    fn answer(&mut self, rt: &impl Files, record: &[u8]) -> io::Result<Reply>
        requires { Good self.old.kernel }
        ensures { Good self.new.kernel }
    {
        if self.chart.is_empty() {
            return player::answer(
                rt,
                &mut self.kernel,
                record,
                player::HERE,
                &mut self.areas.payloads,
                &mut self.areas.tables,
                &mut self.areas.guarded,
                &mut self.areas.log,
            );
        }
        let chart = self.chart.as_slice();
        let reply = self.areas.command(&mut self.kernel, record, chart);
        self.chart.clear();
        Ok(reply)
    }

    // Writes the end of a line that was read, with the reply if it is a command. Answers whether the trace goes on behind it.
    fn end_line(
        &mut self,
        rt: &impl Files,
        line: Result<Entry, Unreadable>,
        out: &mut impl Write,
    ) -> io::Result<bool>
        requires { Good self.old.kernel }
        ensures { Good self.new.kernel }
    {
        match line {
            Err(Unreadable) => writeln!(out, " cannot be read")?,
            Ok(Entry::Nothing) => writeln!(out)?,
            Ok(Entry::Fresh) => {
                writeln!(out)?;
                return Ok(false);
            }
            Ok(Entry::ChartRecord(record)) => {
                writeln!(out)?;
                // What there is no room for is cut off.
                let room = CHART_ROOM.saturating_sub(self.chart.len());
                let bytes = &record[..record.len().min(room)];
                let _ = self.chart.try_extend_from_slice(bytes);
            }
            Ok(Entry::Command(record)) => {
                let reply = self.answer(rt, record.as_slice())?;
                writeln!(out, "{}", ReplyBytes(reply))?;
            }
        }
        Ok(true)
    }
}

// Plays a trace: echoes each line as it is read, and ends it. Answers whether another trace follows.
// A proved loop has to end, and nothing says that the input does: so the turns are counted.
fn play_trace(rt: &impl Files, input: &mut impl Read, out: &mut impl Write) -> io::Result<bool> {
    let mut trace = Trace::new();
    for _ in 0..u64::MAX {
        let Some(line) = words::read_line(input, out)? else {
            break;
        };
        let goes_on = trace.end_line(rt, line, out)?;
        out.flush()?;
        if !goes_on {
            return Ok(true);
        }
    }
    Ok(false)
}

// The text of a line that ends in an error is let go, as far as it still waits in its buffer. A proved loop has to end, and nothing says
// that the input does: so the traces are counted.
fn main(rt: HostRuntime) -> io::Result<()> {
    let mut input = rt.reader();
    let mut out = Pieces {
        piece: BufWriter::with_capacity(rt.alloc(), LINE_BYTES, io::writer(&rt))?,
    };
    for _ in 0..u64::MAX {
        match play_trace(&rt, &mut input, &mut out) {
            Ok(true) => {}
            Ok(false) => break,
            Err(error) => {
                let _unwritten = out.piece.into_parts();
                return Err(error);
            }
        }
    }
    Ok(())
}
