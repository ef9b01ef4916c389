// Frames for a host in C or Rust: it keeps the writer's number and the reader, and lends the bytes.
ghost use Rattle.std.specs.Prelude.{◌≡◌};
ghost use Rattle.frame.specs.Reading.{fresh};
ghost use Rattle.frame.specs.View.{frames_told, state_of};
ghost use Rattle.host.specs.Frames.{Reads, Writes, told_frame};

use frame::MOST_DATA;
use frame::reader::{Frame, Reader};

const COMPLETE: usize = 0;

const NUMBER: usize = 1;

const KIND: usize = 2;

const GAP: usize = 3;

const SIZE: usize = 4;

const BYTES: usize = 5;

// What is told of a frame: a byte for each of these, and room for the most data.
pub const TOLD_BYTES: usize = BYTES + MOST_DATA;

// The frame that was completed, if any, as a host is told it.
fn told(reader: &Reader, frame: Option<Frame>) -> [u8; TOLD_BYTES]
    ensures { result ≡ told_frame (frames_told reader.now frame) }
{
    let mut told = [0u8; TOLD_BYTES];
    if let Some(frame) = frame {
        told[COMPLETE] = 1;
        told[NUMBER] = frame.number;
        told[KIND] = frame.kind;
        told[GAP] = u8::from(frame.gap);
        told[SIZE] = frame.size as u8;
        told[BYTES..BYTES + frame.size].copy_from_slice(reader.data(frame));
    }
    told
}

// Writes a frame at the front of an area, and answers how many bytes it has, 0 where it is refused. The number is then that of the next.
pub fn trunhoac_frame_write(number: &mut u8, kind: u8, bytes: &[u8], out: &mut [u8]) -> usize
    ensures { Writes out.old number.old kind bytes.now result number.new out.new }
{
    match frame::writer::write(*number, kind, bytes, out) {
        Ok(written) => {
            *number = written.next;
            written.length
        }
        Err(_) => 0,
    }
}

// Makes a reader that has read nothing.
pub fn trunhoac_reader_fresh(r: &mut Reader)
    ensures { state_of r.new ≡ fresh }
{
    *r = Reader::new();
}

// Reads a piece up to and with the first byte that completes a frame, else all of it.
pub fn trunhoac_reader_feed(
    r: &mut Reader,
    piece: &[u8],
    read: &mut usize,
    frame: &mut [u8; TOLD_BYTES],
)
    ensures { Reads (state_of r.old) piece.now read.new frame.new (state_of r.new) }
{
    let fed = r.feed(piece);
    *frame = told(r, fed.frame);
    *read = fed.read;
}
