// A mailbox is a ring of 16 places, and a side queue is such a ring too. What stands above relies on the promises alone, which speak of
// `entries`, the list of what a ring holds, front first, and of `boxes`, these lists of several rings.
#![tactic(auto, using(crate::proofs::Rings::ring_laws), unfolding(crate::specs::Box::rest))]

ghost use Rattle.std.specs.Prelude.{[], ◌≡◌, ◌<◌, ◌≤◌, drop, eqb, get_or, length};
ghost use Rattle.mail.specs.Box as Box;
ghost use Rattle.mail.specs.Box.{ahead, bare, behind, rest, room};
ghost use Rattle.mail.specs.Entry.{entry_of, hand_of};
ghost use Rattle.mail.specs.Inside.{boxes, entries, place_of};

use numbers::{PLACES, SIGNAL_PLACES};

// One place back in a ring is so many on.
const ONE_BACK: usize = PLACES - 1;

// Entry 0 is nothing, 1 to 63 are the blocks; from 64 on each timer has an entry for every signal.
const FIRST_TIMER: u16 = 64;

const SIGNALS: u16 = SIGNAL_PLACES as u16;

const BYTES: u16 = 256;

// What an entry stands for: a block, or a timer with its signal.
#[derive(Clone, Copy, Debug, PartialEq, Eq)]
pub enum Hand {
    Nothing,
    Block(u8),
    Timer(u8, u8),
}

// A queue of up to 16 entries: `count` of them, from place `head` on, round. Any bytes are a ring: places are taken modulo 16.
// No `VecDeque`, since the kernel has no heap; no `CircularBuffer`, which has two words beside its places: the kernel is 2,064 bytes.
#[repr(C)]
#[derive(Clone, Copy, Debug, PartialEq, Eq)]
pub struct Ring {
    places: [u16; PLACES],
    head: u8,
    count: u8,
}

impl Ring {
    pub const fn new() -> Ring
        ensures { entries result ≡ [] }
    {
        Ring {
            places: [0; PLACES],
            head: 0,
            count: 0,
        }
    }

    // The place of entry i, counted from the front.
    fn place(&self, i: usize) -> usize
        requires { i < 256 }
        ensures { result ≡ place_of self.now.head i }
    {
        (usize::from(self.head) + i) % PLACES
    }

    pub fn len(&self) -> usize
        ensures { result ≡ length (entries self.now) }
    {
        usize::from(self.count)
    }

    pub fn is_empty(&self) -> bool
        ensures { result ≡ eqb (length (entries self.now)) 0 }
    {
        self.count == 0
    }

    pub fn push_back(&mut self, e: u16)
        requires { length (entries self.old) < room }
        ensures { entries self.new ≡ behind e (entries self.old) }
    {
        let p = self.place(self.len());
        self.places[p] = e;
        self.count += 1;
    }

    pub fn push_front(&mut self, e: u16)
        requires { length (entries self.old) < room }
        ensures { entries self.new ≡ ahead e (entries self.old) }
    {
        let p = self.place(ONE_BACK);
        self.places[p] = e;
        self.head = p as u8;
        self.count += 1;
    }

    // The front entry, which leaves.
    pub fn take_front(&mut self) -> u16
        requires { 0 < length (entries self.old) }
        ensures left { entries self.new ≡ rest (entries self.old) }
        ensures value { result ≡ get_or (entries self.old) 0 0 }
    {
        let e = self.front();
        self.leave(1);
        e
    }

    // The front entry, which stays.
    pub fn front(&self) -> u16
        requires { 0 < length (entries self.now) }
        ensures { result ≡ get_or (entries self.now) 0 0 }
    {
        self.entry(0)
    }

    // Entry i, counted from the front.
    pub fn entry(&self, i: usize) -> u16
        requires { i < length (entries self.now) }
        ensures { result ≡ get_or (entries self.now) i 0 }
    {
        self.places[self.place(i)]
    }

    // Every entry leaves.
    pub fn clear(&mut self)
        ensures { entries self.new ≡ bare (entries self.old) }
    {
        self.count = 0;
    }

    // The first n entries leave.
    pub fn leave(&mut self, n: usize)
        requires { n ≤ length (entries self.old) }
        ensures { entries self.new ≡ drop n (entries self.old) }
    {
        let left = usize::from(self.count) - n;
        self.head = self.place(n) as u8;
        self.count = left as u8;
    }
}

// The highest object with mail, counted from 1; 0 where nothing is queued, and no Option: `Box.highest`, and IDLE's test, speak of this
// number.
pub fn highest(rings: &[Ring]) -> usize
    ensures is { result ≡ Box.highest (boxes rings.now) }
    ensures upper_bound { result ≤ length rings.now }
{
    for p in (1..=rings.len()).rev() {
        if !rings[p - 1].is_empty() {
            return p;
        }
    }
    0
}

// No `From` here: what a u16 stands for is known only where it is an entry.
#[tactic(auto, unfolding(crate::specs::Entry::hand_of))]
pub fn hand_of(e: u16) -> Hand
    ensures { result ≡ hand_of e }
{
    if e == 0 {
        return Hand::Nothing;
    }
    if e < FIRST_TIMER {
        return Hand::Block((e - 1) as u8);
    }
    let n = e - FIRST_TIMER;
    Hand::Timer((n / SIGNALS % BYTES) as u8, (n % SIGNALS) as u8)
}

#[tactic(auto, unfolding(crate::specs::Entry::entry_of))]
pub fn entry_of(h: Hand) -> u16
    ensures { result ≡ entry_of h }
{
    match h {
        Hand::Nothing => 0,
        Hand::Block(b) => 1 + u16::from(b),
        Hand::Timer(t, g) => FIRST_TIMER + SIGNALS * u16::from(t) + u16::from(g),
    }
}
