// Reads the frames that `record` wrote in the night, from standard input, and writes a line for each: its number, the
// command, and the reply in words as `replies` has it.
//      12 NEXT         DONE  object 9  transition  signal 6  event 0 0  count 4  actions 26 22 31 41
//     something is missing here                  before a frame that does not follow the last one
//      16 command 22   no reply, data: 7 8       where no command has the record number, or the data are no reply
//     the end is torn off                        where the input does not end with a frame's end
//     frames: 2, gaps: 1                         last
#![tactic(auto)]

use frame::FLAG;
use frame::reader::{Frame, Reader};
use names::Numbered;
use numbers::REPLY_BYTES;
use replies::InWords;
use std::io::Read;
use std::{fmt, io};
use text::Spaced;

// As many bytes of the input as are read at once.
const PIECE_BYTES: usize = 4096;

// The data of a frame in words.
#[derive(Clone, Copy, Debug)]
struct InFrame<'a>(&'a [u8]);

impl fmt::Display for InFrame<'_> {
    fn fmt<W: fmt::Write>(&self, f: &mut fmt::Formatter<W>) -> fmt::Result {
        match <[u8; REPLY_BYTES]>::try_from(self.0) {
            Ok(reply) => write!(f, "{}", InWords(reply)),
            Err(_) if self.0.is_empty() => write!(f, "no reply, no data"),
            Err(_) => write!(f, "no reply, data:{}", Spaced(self.0)),
        }
    }
}

// A night as far as it was read.
#[derive(Clone, Copy, Debug)]
struct Night {
    reader: Reader,
    frames: u64,
    gaps: u64,
}

impl Night {
    // Tells of a frame that was handed out, and before it whether frames are missing there.
    fn tell(&mut self, rt: &impl Print, frame: Frame) -> io::Result<()> {
        if frame.gap {
            println!(rt; "something is missing here")?;
            self.gaps = self.gaps.wrapping_add(1);
        }
        self.frames = self.frames.wrapping_add(1);
        let told = InFrame(self.reader.data(frame));
        println!(rt; "{:>3} {} {}", frame.number, Numbered(frame.kind), told)
    }

    fn read_piece(&mut self, rt: &impl Print, piece: &[u8]) -> io::Result<()> {
        let mut rest = piece;
        while !rest.is_empty() {
            let fed = self.reader.feed(rest);
            rest = &rest[fed.read..];
            if let Some(frame) = fed.frame {
                self.tell(rt, frame)?;
            }
        }
        Ok(())
    }
}

// A proved loop has to end, and nothing says that the input does: so the turns are counted.
fn main(rt: HostRuntime) -> io::Result<()> {
    let mut night = Night {
        reader: Reader::new(),
        frames: 0,
        gaps: 0,
    };
    let mut is_torn = false;
    let mut input = rt.reader();
    let mut buffer = [0u8; PIECE_BYTES];
    for _ in 0..u64::MAX {
        let n = input.read(&mut buffer)?;
        if n == 0 {
            break;
        }
        night.read_piece(&rt, &buffer[..n])?;
        is_torn = buffer[n - 1] != FLAG;
    }
    if is_torn {
        println!(rt; "the end is torn off")?;
    }
    println!(rt; "frames: {}, gaps: {}", night.frames, night.gaps)
}
