// Frames for hosts: each function of `host::frames` under its name.
ghost use Rattle.std.specs.Prelude.{◌≡◌};
ghost use Rattle.frame.specs.Reading.{fresh};
ghost use Rattle.frame.specs.View.{state_of};
ghost use Rattle.host.specs.Frames.{Reads, Writes};

use frame::reader::Reader;
use host::frames::TOLD_BYTES;

// Writes a frame at the front of an area, and answers how many bytes it has, 0 where it is refused. The number is then that of the next.
#[unsafe(no_mangle)]
pub extern "C" fn trunhoac_frame_write(
    number: &mut u8,
    kind: u8,
    bytes: &[u8],
    out: &mut [u8],
) -> usize
    ensures { Writes out.old number.old kind bytes.now result number.new out.new }
{
    host::frames::trunhoac_frame_write(number, kind, bytes, out)
}

// Makes a reader that has read nothing.
#[unsafe(no_mangle)]
pub extern "C" fn trunhoac_reader_fresh(r: &mut Reader)
    ensures { state_of r.new ≡ fresh }
{
    host::frames::trunhoac_reader_fresh(r);
}

// Reads a piece up to and with the first byte that completes a frame, else all of it.
#[unsafe(no_mangle)]
pub extern "C" fn trunhoac_reader_feed(
    r: &mut Reader,
    piece: &[u8],
    read: &mut usize,
    frame: &mut [u8; TOLD_BYTES],
)
    ensures { Reads (state_of r.old) piece.now read.new frame.new (state_of r.new) }
{
    host::frames::trunhoac_reader_feed(r, piece, read, frame);
}
