// The writer: a frame at the front of a lent area, or nothing.
ghost use Rattle.std.specs.Prelude.{◌≡◌, ◌+◌, ◌*◌, ◌≤◌, IfOk, MatchOption, [], ◌∷◌, length};
ghost use Rattle.frame.specs.Stores.{Puts, stored};
ghost use Rattle.frame.specs.Wire.{check_of, frame_bytes, most_data, sent, sent_all};
ghost use Rattle.frame.specs.Writing.{area_after, next_after, next_of, written};

use super::*;

// How many bytes a frame has that was written, and the number of the next.
#[derive(Clone, Copy, Debug, PartialEq, Eq)]
pub struct Written {
    pub length: usize,
    pub next: u8,
}

// Why nothing was written: the area and the number stay as they are.
#[derive(Clone, Copy, Debug, PartialEq, Eq)]
pub enum WriteError {
    TooManyData,
    TooLittleRoom,
}

// What is sent behind ESCAPE for a byte that is not sent as it is.
#[tactic(auto, unfolding(crate::specs::Wire::sent))]
fn escaped(b: u8) -> Option<u8>
    ensures { MatchOption result (sent b ≡ b ∷ []) (λ e. sent b ≡ 0x7D ∷ e ∷ []) }
{
    match b {
        FLAG => Some(FLAG_SENT),
        ESCAPE => Some(ESCAPE_SENT),
        _ => None,
    }
}

// How many bytes are sent for one.
fn size_of(b: u8) -> usize
    ensures { (result ≡ length (sent b)) × (result ≤ 2) }
{
    if escaped(b).is_some() { 2 } else { 1 }
}

// How many bytes are sent for several.
fn sizes(bytes: &[u8]) -> usize
    requires { length bytes.now ≤ most_data }
    ensures { (result ≡ length (sent_all bytes.now)) × (result ≤ 2 * most_data) }
{
    bytes.iter().map(|b| size_of(*b)).sum()
}

// Writes what is sent for a byte from place `at` on, and tells where the next goes.
#[tactic(auto, unfolding(crate::specs::Stores::stored))]
fn put(out: &mut [u8], at: usize, b: u8) -> usize
    requires { at + length (sent b) ≤ length out.old }
    ensures { Puts out.old at (sent b) out.new result }
{
    if let Some(sent) = escaped(b) {
        out[at] = ESCAPE;
        out[at + 1] = sent;
        return at + 2;
    }
    out[at] = b;
    at + 1
}

// The same for several.
fn put_all(out: &mut [u8], at: usize, bytes: &[u8]) -> usize
    requires { at + length (sent_all bytes.now) ≤ length out.old }
    ensures { Puts out.old at (sent_all bytes.now) out.new result }
{
    let mut next = at;
    for b in bytes {
        next = put(out, next, *b);
    }
    next
}

// A frame that is to be written, unescaped: its number, its record number, its data and its check byte.
#[derive(Clone, Copy)]
struct Unescaped<'a> {
    number: u8,
    kind: u8,
    bytes: &'a [u8],
    check: u8,
    ghost short: { length bytes.now ≤ most_data },
    ghost checked: { check ≡ check_of (number ∷ kind ∷ bytes.now) },
}

impl<'a> Unescaped<'a> {
    fn new(number: u8, kind: u8, bytes: &'a [u8]) -> Unescaped<'a>
        requires { length bytes.now ≤ most_data }
        ensures number { result.number ≡ number }
        ensures kind { result.kind ≡ kind }
        ensures bytes { result.bytes.now ≡ bytes.now }
    {
        Unescaped {
            number,
            kind,
            bytes,
            check: 255 - number.wrapping_add(kind).wrapping_add(sum_of(bytes)),
        }
    }

    // How many bytes are sent for it.
    fn size(&self) -> usize
        ensures { result ≡ length (frame_bytes self.now.number self.now.kind self.now.bytes.now) }
    {
        size_of(self.number) + size_of(self.kind) + sizes(self.bytes) + size_of(self.check) + 1
    }

    // Writes it to an area that has room for it.
    fn fill_in(&self, out: &mut [u8])
        requires { length (frame_bytes self.now.number self.now.kind self.now.bytes.now) ≤ length out.old }
        ensures { out.new ≡ stored out.old 0 (frame_bytes self.now.number self.now.kind self.now.bytes.now) }
    {
        let kind_at = put(out, 0, self.number);
        let data_at = put(out, kind_at, self.kind);
        let check_at = put_all(out, data_at, self.bytes);
        let end = put(out, check_at, self.check);
        out[end] = FLAG;
    }
}

// A frame at the front of an area, the rest of which stays; or nothing, where there are too many bytes or too little room.
pub fn write(number: u8, kind: u8, bytes: &[u8], out: &mut [u8]) -> Result<Written, WriteError>
    ensures value { result ≡ written (length out.old) number kind bytes.now }
    ensures out_after { out.new ≡ area_after out.old number kind bytes.now }
    ensures next_number { next_of number result ≡ next_after (length out.old) number kind bytes.now }
    ensures length_in_bounds { IfOk result (λ w. w.length ≤ length out.old) }
{
    if MOST_DATA < bytes.len() {
        return Err(WriteError::TooManyData);
    }
    let frame = Unescaped::new(number, kind, bytes);
    let length = frame.size();
    if out.len() < length {
        return Err(WriteError::TooLittleRoom);
    }
    frame.fill_in(out);
    Ok(Written {
        length,
        next: next_number(number),
    })
}
