// Sets of the numbers below 64, each in one word: i is in the set `members w` where digit i of w is 1. No operation has a loop.
#![tactic(auto)]

ghost use Rattle.std.specs.Prelude.{true, false, ◌≡◌, ◌-◌, ◌<◌, ◌≤◌};
ghost use Rattle.bits.specs.Inside.{moved_up};
ghost use Rattle.bits.specs.Members.{members, put, last_below, width};
ghost use Rattle.ground.specs.Range.{count_from, first_from};

const WIDTH: usize = 64;

// Whether i is in the set.
pub fn has(w: u64, i: usize) -> bool
    requires { i < width }
    ensures { result ≡ members w i }
{
    (w >> i) & 1 == 1
}

// The set with i.
pub fn with(w: u64, i: usize) -> u64
    requires { i < width }
    ensures { members result ≡ put i true (members w) }
{
    w | (1u64 << i)
}

// The set without i.
pub fn without(w: u64, i: usize) -> u64
    requires { i < width }
    ensures { members result ≡ put i false (members w) }
{
    let only = 1u64 << i;
    (w | only) ^ only
}

// The members from `from` up to, not including, `to` alone, moved up so that the range ends with the word.
fn range(w: u64, from: usize, to: usize) -> u64
    requires { (from < to) × (to ≤ width) }
    ensures { result ≡ moved_up w from to }
{
    (w >> from) << (WIDTH - (to - from))
}

// The lowest member from `from` up to, not including, `to`; `to` where there is none, or `from` if that is larger.
pub fn lowest(w: u64, from: usize, to: usize) -> usize
    requires { to ≤ width }
    ensures { result ≡ first_from (members w) from (to - from) }
{
    if to <= from {
        return from;
    }
    // moved up, the lowest member is as far from the end of the word as it was from `to`
    to - (WIDTH - (u64::trailing_zeros(range(w, from, to)) as usize))
}

// One more than the highest member, 0 where there is none.
pub fn highest(w: u64) -> usize
    ensures { result ≡ last_below (members w) width }
{
    WIDTH - (u64::leading_zeros(w) as usize)
}

// How many members there are from `from` up to, not including, `to`.
pub fn count(w: u64, from: usize, to: usize) -> usize
    requires { to ≤ width }
    ensures { result ≡ count_from (members w) from (to - from) }
{
    if to <= from {
        return 0;
    }
    u64::count_ones(range(w, from, to)) as usize
}
