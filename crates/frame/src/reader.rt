// The reader: memory that is fed the input in pieces, cut anywhere, and hands out the frames in it.
ghost use Rattle.std.specs.Prelude.{◌≡◌, ◌≤◌, length, take, drop};
ghost use Rattle.frame.specs.Reading.{Feeds, after, ended, fresh, gap_at, given, pushed, state, taken};
ghost use Rattle.frame.specs.Wire.{most_bytes, most_data};
ghost use Rattle.frame.specs.declared.reader.Part.TheVariants.{Plain};

use super::*;

// The fewest bytes that a frame has unescaped: a number, a record number and the check byte.
const LEAST_BYTES: usize = 3;

// Where its data begin.
pub const DATA: usize = 2;

// A length that is no frame's any more.
const SPOILT: u8 = MOST_BYTES as u8 + 1;

// What has come since the last FLAG: so many bytes (unescaped), the same and then ESCAPE, or what can be no frame any more.
// While a piece is read it stands beside the reader, whose length and escaped say nothing until `keep` writes it back.
#[derive(Clone, Copy, Debug, PartialEq, Eq)]
enum Part {
    Plain(usize),
    Escaped(usize),
    Spoilt,
}

// Between two frames `bytes` still holds the last one. Any memory is a reader, as C needs it: what is yes or no is a byte, 0 for no, and
// a length above MOST_BYTES says that it can be no frame any more.
#[repr(C)]
#[derive(Clone, Copy, Debug, PartialEq, Eq)]
pub struct Reader {
    pub bytes: [u8; MOST_BYTES],
    length: u8,
    escaped: u8,
    any: u8,
    last: u8,
}

// A frame that was handed out: its number, its record number, how many bytes of data it has, and whether something is missing before it.
#[derive(Clone, Copy, Debug, PartialEq, Eq)]
pub struct Frame {
    pub number: u8,
    pub kind: u8,
    pub size: usize,
    pub gap: bool,
    ghost small: { size ≤ most_data },
}

// How many bytes of a piece were read, and the frame that the last of them completed, if any.
#[derive(Clone, Copy, Debug, PartialEq, Eq)]
pub struct Fed {
    pub read: usize,
    pub frame: Option<Frame>,
}

#[tactic(auto, unfolding(crate::proofs::Opened::reader))]
impl Reader {
    ghost use Rattle.frame.specs.Inside.{seen, size_in, state_with};
    ghost use Rattle.frame.specs.View.{Tells, Within, frames_of, frames_told, state_of};

    // A reader that has read nothing.
    pub fn new() -> Reader
        ensures { state_of result ≡ fresh }
    {
        Reader {
            bytes: [0u8; MOST_BYTES],
            length: 0,
            escaped: 0,
            any: 0,
            last: 0,
        }
    }

    // The data of the frame that was handed out last.
    pub fn data(&self, frame: Frame) -> &[u8]
        ensures bytes { result.now ≡ take frame.size (drop 2 self.now.bytes) }
        ensures size { length result.now ≡ frame.size }
    {
        &self.bytes[DATA..DATA + frame.size]
    }

    fn part(&self) -> Part
        ensures part { state_with self.now result ≡ state_of self.now }
        ensures most { size_in result ≤ most_bytes }
    {
        let length = usize::from(self.length);
        if MOST_BYTES < length {
            Part::Spoilt
        } else if self.escaped != 0 {
            Part::Escaped(length)
        } else {
            Part::Plain(length)
        }
    }

    fn is_gap_before(&self, number: u8) -> bool
        ensures { result ≡ gap_at (state_of self.now).last number }
    {
        self.any != 0 && number != next_number(self.last)
    }

    // The frame that FLAG completes, if any.
    fn whole_frame(&self, part: Part) -> Option<Frame>
        requires { size_in part ≤ most_bytes }
        ensures handed { frames_told self.now result ≡ ended (seen part self.now.bytes) (state_of self.now).last }
        ensures told { Tells result (frames_told self.now result) }
    {
        let Part::Plain(length) = part else {
            return None;
        };
        if length < LEAST_BYTES {
            return None;
        }
        let check = 255 - sum_of(&self.bytes[..length - 1]);
        if self.bytes[length - 1] != check {
            return None;
        }
        let number = self.bytes[0];
        Some(Frame {
            number,
            kind: self.bytes[1],
            size: length - LEAST_BYTES,
            gap: self.is_gap_before(number),
        })
    }

    // FLAG: the frame that it completes, if any. Its number is then the last.
    fn end(&mut self, part: Part) -> Option<Frame>
        requires { size_in part ≤ most_bytes }
        ensures handed { frames_told self.new result ≡ given (state_with self.old part) FLAG }
        ensures then { state_with self.new (Plain 0) ≡ after (state_with self.old part) FLAG }
        ensures told { Tells result (frames_told self.new result) }
    {
        let whole = self.whole_frame(part)?;
        self.any = 1;
        self.last = whole.number;
        Some(whole)
    }

    // One unescaped byte more, behind the first n.
    fn push(&mut self, n: usize, byte: u8) -> Part
        requires { n ≤ most_bytes }
        ensures then { state_with self.new result ≡ state (pushed (take n self.old.bytes) byte) (state_of self.old).last }
        ensures most { size_in result ≤ most_bytes }
    {
        if n < MOST_BYTES {
            self.bytes[n] = byte;
            Part::Plain(n + 1)
        } else {
            Part::Spoilt
        }
    }

    // A byte that is not FLAG.
    fn take_in(&mut self, part: Part, byte: u8) -> Part
        requires { size_in part ≤ most_bytes }
        ensures then { state_with self.new result ≡ state (taken (seen part self.old.bytes) byte) (state_of self.old).last }
        ensures most { size_in result ≤ most_bytes }
    {
        match part {
            Part::Spoilt => Part::Spoilt,
            Part::Escaped(n) => match byte {
                FLAG_SENT => self.push(n, FLAG),
                ESCAPE_SENT => self.push(n, ESCAPE),
                _ => Part::Spoilt,
            },
            Part::Plain(n) => match byte {
                ESCAPE => Part::Escaped(n),
                _ => self.push(n, byte),
            },
        }
    }

    // Any byte: the frame that it completes, if any. With FLAG the next frame starts.
    fn step(&mut self, part: &mut Part, byte: u8) -> Option<Frame>
        requires { size_in part.old ≤ most_bytes }
        ensures handed { frames_told self.new result ≡ given (state_with self.old part.old) byte }
        ensures then { state_with self.new part.new ≡ after (state_with self.old part.old) byte }
        ensures most { size_in part.new ≤ most_bytes }
        ensures told { Tells result (frames_told self.new result) }
    {
        if byte == FLAG {
            let frame = self.end(*part);
            *part = Part::Plain(0);
            return frame;
        }
        *part = self.take_in(*part, byte);
        None
    }

    // What has come is kept for the next piece.
    fn keep(&mut self, part: Part)
        requires { size_in part ≤ most_bytes }
        ensures state { state_of self.new ≡ state_with self.old part }
        ensures bytes { self.new.bytes ≡ self.old.bytes }
    {
        (self.length, self.escaped) = match part {
            Part::Plain(n) => (n as u8, 0),
            Part::Escaped(n) => (n as u8, 1),
            Part::Spoilt => (SPOILT, 0),
        };
    }

    // Reads a piece up to and with the first byte that completes a frame, else all of it.
    pub fn feed(&mut self, piece: &[u8]) -> Fed
        ensures feeds { Feeds (state_of self.old) piece.now result.read (frames_of self.new result) (state_of self.new) }
        ensures within { Within piece.now self.new result }
    {
        // What has come is held here and not in the reader, where each byte would cost stores and loads.
        let mut part = self.part();
        for (i, byte) in piece.iter().enumerate() {
            let frame = self.step(&mut part, *byte);
            if frame.is_some() {
                self.keep(part);
                return Fed { read: i + 1, frame };
            }
        }
        self.keep(part);
        Fed {
            read: piece.len(),
            frame: None,
        }
    }
}
