// The block pool: 56 blocks in three pools, each with a generation and a count of references, the set of those that are free, and the
// mark of each pool, its least number of free blocks so far. What stands above relies on the promises alone, which speak of `cells p`,
// the row of blocks that a pool stands for, and of `marks p`.
#![tactic(auto, unfolding(crate::specs::Inside::marks))]

ghost use Rattle.std.specs.Prelude.{false, ◌≡◌, ◌<◌};
ghost use Rattle.bits.specs.Members.{members};
ghost use Rattle.ground.specs.Range.{tab};
ghost use Rattle.pool.specs.Cell.{is_new, at_last, more, more_by, fewer, fewer_by, dropped};
ghost use Rattle.pool.specs.Inside.{cells, marks, went_back};
ghost use Rattle.pool.specs.Mark.{fresh_marks};
ghost use Rattle.pool.specs.Promise.{Takes, Frees};
ghost use Rattle.pool.specs.Row.{changed, fresh_row, generation_at, stale_at, pool_for, gone_all, gone_times, blocks};

use numbers::{BLOCKS, FIRST_BYTES, LARGE, LARGE_BYTES, MIDDLE, MIDDLE_BYTES, SMALL_BYTES};

const LAST_GENERATION: u32 = 16777215;

// What a block's count of references says: none yet, the last one, as many as are counted; and one above these, that it is retired. One
// number, and no enum: any bytes are a pool, as C needs it.
const NEW: u16 = 0;

const LAST: u16 = 1;

const MOST: u16 = 65534;

const RETIRED: u16 = MOST + 1;

// The set of all blocks.
const ALL: u64 = (1u64 << BLOCKS) - 1;

const POOLS: usize = 3;

// The number of blocks of each pool.
const SIZES: [u8; POOLS] = [MIDDLE as u8, (LARGE - MIDDLE) as u8, (BLOCKS - LARGE) as u8];

// The set alone says which blocks are free; the count of a free block says nothing. An array for each field, and a set in one word: an
// array of blocks would not leave room for the kernel in its 2,064 bytes.
#[repr(C)]
#[derive(Clone, Copy, Debug, PartialEq, Eq)]
pub struct Pool {
    free: u64,
    generations: [u32; BLOCKS],
    counts: [u16; BLOCKS],
    marks: [u8; POOLS],
}

// A pool by its number: the blocks from `from` up to, not including, `to`.
#[derive(Clone, Copy, Debug, PartialEq, Eq)]
pub struct Span {
    pub number: usize,
    pub from: usize,
    pub to: usize,
}

// A block as a record names it: it is stale once the block is freed.
#[derive(Clone, Copy, Debug, PartialEq, Eq)]
pub struct Handle {
    pub block: usize,
    pub generation: u32,
}

// The block that a take found, and the mark of the pool for its size.
#[derive(Clone, Copy, Debug, PartialEq, Eq)]
pub struct Taken {
    pub found: Option<usize>,
    pub mark: u8,
}

// The first pool whose blocks are large enough for a size. Where no pool is, the answer is one without blocks, as the definition
// `pool_for` has it.
#[tactic(auto, unfolding(crate::specs::Row::pool_for))]
fn pool_for(size: usize) -> Span
    ensures { result ≡ pool_for size }
{
    if size <= SMALL_BYTES {
        Span {
            number: 0,
            from: 0,
            to: MIDDLE,
        }
    } else if size <= MIDDLE_BYTES {
        Span {
            number: 1,
            from: MIDDLE,
            to: LARGE,
        }
    } else if size <= LARGE_BYTES {
        Span {
            number: 2,
            from: LARGE,
            to: BLOCKS,
        }
    } else {
        Span {
            number: POOLS,
            from: BLOCKS,
            to: BLOCKS,
        }
    }
}

impl Pool {
    // Every block free, at generation 0.
    #[tactic(auto, unfolding(crate::specs::Inside::cells, crate::specs::Inside::marks, crate::specs::Inside::row_of, crate::specs::Inside::cell_of, ground::specs::Range::tab_from, bits::specs::Members::members))]
    pub fn new() -> Pool
        ensures cells { cells result ≡ fresh_row }
        ensures marks { marks result ≡ fresh_marks }
    {
        Pool {
            free: ALL,
            generations: [0; BLOCKS],
            counts: [NEW; BLOCKS],
            marks: SIZES,
        }
    }

    // The lowest free block of the first pool that is large enough is handed out: live, with no reference.
    pub fn take(&mut self, size: usize) -> Taken
        ensures { Takes (cells self.old) (marks self.old) size (cells self.new) (marks self.new) result.found result.mark }
    {
        let Span { number, from, to } = pool_for(size);
        let b = bits::lowest(self.free, from, to);
        if to <= b {
            return Taken {
                found: None,
                mark: self.marks.get(number).copied().unwrap_or(0),
            };
        }
        self.counts[b] = NEW;
        self.free = bits::without(self.free, b);
        let left = bits::count(self.free, from, to);
        let mark = left.min(usize::from(self.marks[number])) as u8;
        self.marks[number] = mark;
        Taken {
            found: Some(b),
            mark,
        }
    }

    // So many references more to a live block, as far as they are counted.
    pub fn add_some(&mut self, b: usize, times: u8)
        ensures cells { cells self.new ≡ changed (more_by times) (cells self.old) b }
        ensures marks { marks self.new ≡ marks self.old }
    {
        if BLOCKS <= b || bits::has(self.free, b) {
            return;
        }
        let held = self.counts[b];
        if held < MOST {
            self.counts[b] = held.saturating_add(u16::from(times)).min(MOST);
        }
    }

    // One reference more to a live block.
    #[tactic(auto, unfolding(crate::specs::Inside::marks, crate::specs::Cell::more_by))]
    pub fn add(&mut self, b: usize)
        ensures cells { cells self.new ≡ changed more (cells self.old) b }
        ensures marks { marks self.new ≡ marks self.old }
    {
        self.add_some(b, 1);
    }

    // Block b, which is not free, goes back. At the last generation it is retired.
    fn go_back(&mut self, b: usize)
        requires { (b < blocks) × (members self.old.free b ≡ false) }
        ensures cells { cells self.new ≡ changed went_back (cells self.old) b }
        ensures marks { marks self.new ≡ marks self.old }
    {
        if self.generations[b] < LAST_GENERATION {
            self.generations[b] += 1;
            self.free = bits::with(self.free, b);
        } else {
            self.counts[b] = RETIRED;
        }
    }

    // One reference fewer; with the last one the block goes back. The answer is whether it does.
    pub fn let_go(&mut self, b: usize) -> bool
        ensures frees { Frees fewer at_last (cells self.old) b (cells self.new) result }
        ensures marks { marks self.new ≡ marks self.old }
    {
        if BLOCKS <= b || bits::has(self.free, b) {
            return false;
        }
        let held = self.counts[b];
        if held == NEW || MOST < held {
            return false;
        }
        if held == LAST {
            self.go_back(b);
            return true;
        }
        self.counts[b] = held - 1;
        false
    }

    // Each block of a list has a reference fewer, in order.
    pub fn let_go_all(&mut self, list: &[u8])
        ensures cells { cells self.new ≡ gone_all (cells self.old) list.now }
        ensures marks { marks self.new ≡ marks self.old }
    {
        for &b in list {
            self.let_go(usize::from(b));
        }
    }

    // So many references fewer.
    fn let_go_some(&mut self, b: usize, times: u8)
        requires { b < blocks }
        ensures cells { cells self.new ≡ changed (fewer_by times) (cells self.old) b }
        ensures marks { marks self.new ≡ marks self.old }
    {
        let held = self.counts[b];
        if times == 0 || bits::has(self.free, b) || held == NEW || MOST < held {
            return;
        }
        if u16::from(times) < held {
            self.counts[b] = held - u16::from(times);
        } else {
            self.go_back(b);
        }
    }

    // Each block is let go as often as a list says.
    pub fn let_go_each(&mut self, times: &[u8; FIRST_BYTES])
        ensures cells { cells self.new ≡ gone_times (cells self.old) times.now }
        ensures marks { marks self.new ≡ marks self.old }
    {
        for b in 0..BLOCKS {
            self.let_go_some(b, times[b]);
        }
    }

    // A block that has no reference yet goes back. The answer is whether it does.
    pub fn drop_new(&mut self, b: usize) -> bool
        ensures frees { Frees dropped is_new (cells self.old) b (cells self.new) result }
        ensures marks { marks self.new ≡ marks self.old }
    {
        if BLOCKS <= b || bits::has(self.free, b) || self.counts[b] != NEW {
            return false;
        }
        self.go_back(b);
        true
    }

    // The generation of a block; 0 where there is no such block.
    pub fn generation(&self, b: usize) -> u32
        ensures { result ≡ generation_at (cells self.now) b }
    {
        self.generations.get(b).copied().unwrap_or(0)
    }

    // The generation of every block.
    #[tactic(auto, using(crate::proofs::Store::generations_are), unfolding(crate::specs::Inside::cells))]
    pub fn generations(&self) -> &[u32; BLOCKS]
        ensures { result.now ≡ tab (generation_at (cells self.now)) blocks }
    {
        &self.generations
    }

    // Whether the block of a handle was freed since, or never was.
    pub fn is_stale(&self, handle: Handle) -> bool
        ensures { result ≡ stale_at (cells self.now) handle.block handle.generation }
    {
        let b = handle.block;
        if BLOCKS <= b || bits::has(self.free, b) || MOST < self.counts[b] {
            return true;
        }
        self.generations[b] != handle.generation
    }
}
