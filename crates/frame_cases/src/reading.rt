// A reader's case: a line for each frame that the whole stream gives, and one that counts the ways of cutting the stream, at each
// place in two and into its bytes, that give the same frames.
//     frame 126 record 125: 125 8 1
//     frame 3 record 1 gap:
//     cuts 17
ghost use Rattle.std.specs.Prelude.{◌≤◌, length};

use frame::reader;
use frame::reader::Reader;
use std::alloc::{AllocError, Global};
use std::{fmt, io};
use text::Spaced;

// What a reader handed out.
#[derive(Drop)]
struct Frame {
    number: u8,
    kind: u8,
    gap: bool,
    bytes: Vec<u8>,
}

impl Frame {
    fn is(&self, frame: reader::Frame, bytes: &[u8]) -> bool {
        self.number == frame.number
            && self.kind == frame.kind
            && self.gap == frame.gap
            && self.bytes.as_slice() == bytes
    }
}

impl fmt::Display for Frame {
    fn fmt<W: fmt::Write>(&self, f: &mut fmt::Formatter<W>) -> fmt::Result {
        let gap = if self.gap { " gap" } else { "" };
        let bytes = Spaced(&self.bytes);
        write!(f, "frame {} record {}{gap}:{bytes}", self.number, self.kind)
    }
}

// A reader, and the frames that it has handed out.
#[derive(Drop)]
struct Report {
    reader: Reader,
    frames: Vec<Frame>,
}

impl Report {
    fn new(alloc: Global) -> Report {
        Report {
            reader: Reader::new(),
            frames: Vec::new(alloc),
        }
    }

    fn read(&mut self, alloc: Global, piece: &[u8]) -> Result<(), AllocError> {
        let mut rest = piece;
        while !rest.is_empty() {
            let fed = self.reader.feed(rest);
            rest = &rest[fed.read..];
            if let Some(frame) = fed.frame {
                self.frames.push(Frame {
                    number: frame.number,
                    kind: frame.kind,
                    gap: frame.gap,
                    bytes: self.reader.data(frame).to_vec(alloc)?,
                })?;
            }
        }
        Ok(())
    }
}

// A reader that reads the stream again, and the frames that it has still to hand out. It keeps none, since a stream is read again once for
// each of its bytes.
#[derive(Drop)]
struct Again<'a> {
    reader: Reader,
    left: &'a [Frame],
    agrees: bool,
}

impl<'a> Again<'a> {
    fn new(frames: &'a [Frame]) -> Again<'a> {
        Again {
            reader: Reader::new(),
            left: frames,
            agrees: true,
        }
    }

    fn read(&mut self, piece: &[u8]) {
        let mut rest = piece;
        while !rest.is_empty() {
            let fed = self.reader.feed(rest);
            rest = &rest[fed.read..];
            if let Some(frame) = fed.frame {
                self.hand_out(frame);
            }
        }
    }

    fn hand_out(&mut self, frame: reader::Frame) {
        let left = self.left;
        match left.split_first() {
            Some((next, others)) if next.is(frame, self.reader.data(frame)) => self.left = others,
            _ => self.agrees = false,
        }
    }

    // Whether it has handed out the same frames, and all of them.
    fn ended(self) -> bool {
        self.agrees && self.left.is_empty()
    }
}

// Whether the stream, cut there, gives the same frames.
fn cut_agrees(stream: &[u8], cut: usize, frames: &[Frame]) -> bool
    requires { cut ≤ length stream.now }
{
    let mut again = Again::new(frames);
    again.read(&stream[..cut]);
    again.read(&stream[cut..]);
    again.ended()
}

// Whether the stream, byte by byte, gives the same frames.
fn bytes_agree(stream: &[u8], frames: &[Frame]) -> bool {
    let mut again = Again::new(frames);
    for byte in stream {
        again.read(&[*byte]);
    }
    again.ended()
}

// How many ways of cutting give the same frames: into bytes, and at each place.
fn count_cuts(stream: &[u8], frames: &[Frame]) -> u64 {
    let mut count = u64::from(bytes_agree(stream, frames));
    for cut in 0..=stream.len() {
        count = count.wrapping_add(u64::from(cut_agrees(stream, cut, frames)));
    }
    count
}

pub fn run(rt: &(impl Print + AllocGlobal), stream: &[u8]) -> io::Result<()> {
    let mut whole = Report::new(rt.alloc());
    whole.read(rt.alloc(), stream)?;
    for frame in &whole.frames {
        println!(rt; "{frame}")?;
    }
    let cuts = count_cuts(stream, &whole.frames);
    println!(rt; "cuts {cuts}")
}
