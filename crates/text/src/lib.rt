// What several programs write: bytes in decimal, a reply's bytes, and the sum by which a line tells an area.
#![tactic(auto)]

ghost use Rattle.std.specs.Prelude.{◌≡◌, ◌%◌, ◌^◌, ◌≤◌, length};
ghost use Rattle.text.specs.Sum.{weighted};

use numbers::{HANDLE, REPLY_BYTES};
use std::fmt;

// The bytes in decimal, each after a space.
#[derive(Clone, Copy, Debug)]
pub struct Spaced<'a>(pub &'a [u8]);

impl fmt::Display for Spaced<'_> {
    fn fmt<W: fmt::Write>(&self, f: &mut fmt::Formatter<W>) -> fmt::Result {
        for byte in self.0 {
            write!(f, " {byte}")?;
        }
        Ok(())
    }
}

// The bytes of a reply without the zeros at the end of its front, of which the first is told in any case, and without those at the
// end of its handle: `0 0 0 15 @ 32 1`. A handle of zeros is not told.
#[derive(Clone, Copy, Debug)]
pub struct ReplyBytes(pub [u8; REPLY_BYTES]);

impl fmt::Display for ReplyBytes {
    fn fmt<W: fmt::Write>(&self, f: &mut fmt::Formatter<W>) -> fmt::Result {
        let reply = self.0;
        let front = told(&reply[..HANDLE]).max(1);
        let handle = told(&reply[HANDLE..]);
        write!(f, "{}", Spaced(&reply[..front]))?;
        if handle == 0 {
            return Ok(());
        }
        write!(f, " @{}", Spaced(&reply[HANDLE..HANDLE + handle]))
    }
}

// How many bytes there are without the zeros at the end.
fn told(bytes: &[u8]) -> usize
    ensures { result ≤ length bytes.now }
{
    bytes
        .iter()
        .rposition(|byte| *byte != 0)
        .map_or(0, |last| last + 1)
}

// The sum of each byte times its place, counted from 1, modulo 2 to the 32: a number by which a line tells an area.
#[tactic(auto, using(crate::proofs::Sums::sum_step))]
pub fn sum_of(bytes: &[u8]) -> u64
    ensures { result ≡ weighted bytes.now % 2 ^ 32 }
{
    let mut sum: u64 = 0;
    for (i, byte) in bytes.iter().enumerate() {
        let place = i as u64 + 1;
        sum = sum.wrapping_add(place.wrapping_mul(u64::from(*byte)));
    }
    sum % (1 << 32)
}
