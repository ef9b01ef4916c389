// Frames in the manner of QS, by which a trace can still be read after damage: a writer and a reader, and what both need.
#![tactic(auto)]

pub mod reader;
pub mod writer;

ghost use Rattle.std.specs.Prelude.{◌≡◌, ◌%◌};
ghost use Rattle.frame.specs.Wire.{following, sum};

// Ends a frame.
pub const FLAG: u8 = 0x7E;

// Comes before what is sent for FLAG and for itself.
const ESCAPE: u8 = 0x7D;

const FLAG_SENT: u8 = 0x5E;

const ESCAPE_SENT: u8 = 0x5D;

// The most bytes that a frame has unescaped; all but three of them are data.
pub const MOST_BYTES: usize = 96;

pub const MOST_DATA: usize = 93;

// So many bytes has the longest frame as it is sent: each byte escaped, and FLAG.
pub const LONGEST: usize = 2 * MOST_BYTES + 1;

// The sum of bytes, modulo 256.
fn sum_of(bytes: &[u8]) -> u8
    ensures { result ≡ sum bytes.now % 256 }
{
    bytes
        .iter()
        .fold(0u8, |total, byte| total.wrapping_add(*byte))
}

// The number of the frame that follows.
#[tactic(auto, unfolding(crate::specs::Wire::following))]
fn next_number(n: u8) -> u8
    ensures { result ≡ following n }
{
    n.wrapping_add(1)
}
