// Takes a block and frees it, by the pool's operations alone, until it is handed out no more: it has then had every generation
// once, and is retired. Tells what has become of it, and what is left of its pool.
#![tactic(auto)]

use numbers::{BLOCKS, LARGE, LARGE_BYTES};
use pool::{Handle, Pool};
use std::io;

// The lowest of the blocks for so many bytes, and so the one that is handed out as long as it can be.
const BLOCK: usize = LARGE;

// Takes the block, at this generation, and frees it. False where it has another generation, and the pool is then as it was, or where
// another block is found or nothing is freed.
fn live_once(pool: &mut Pool, generation: u64) -> bool {
    u64::from(pool.generation(BLOCK)) == generation
        && pool.take(LARGE_BYTES).found == Some(BLOCK)
        && pool.drop_new(BLOCK)
}

fn tell_handle(rt: &impl Print, pool: &Pool, generation: u32) -> io::Result<()> {
    let handle = Handle {
        block: BLOCK,
        generation,
    };
    let is = if pool.is_stale(handle) {
        "is"
    } else {
        "is not"
    };
    println!(rt; "its handle of generation {generation} {is} stale")
}

fn tell_block(rt: &impl Print, pool: &Pool, times: u64) -> io::Result<()> {
    println!(rt; "block {BLOCK} was handed out and freed {times} times")?;
    let last = pool.generation(BLOCK);
    println!(rt; "its generation is {last}")?;
    tell_handle(rt, pool, 0)?;
    tell_handle(rt, pool, last)
}

// Takes another block of that size, and tells which, with the mark.
fn take_another(rt: &impl Print, pool: &mut Pool) -> io::Result<()> {
    let taken = pool.take(LARGE_BYTES);
    let mark = taken.mark;
    match taken.found {
        Some(b) => println!(rt;
            "next: block {b} at generation {}, least free {mark}",
            pool.generation(b)
        ),
        None => println!(rt; "next: no block, least free {mark}"),
    }
}

// Takes as many as there are blocks of that size: the last time there is none, since the retired block counts as taken.
fn take_the_others(rt: &impl Print, pool: &mut Pool) -> io::Result<()> {
    for _ in LARGE..BLOCKS {
        take_another(rt, pool)?;
    }
    Ok(())
}

// A proved loop has to end. That this one does is tried here and not proved: so the turns are counted.
fn main(rt: HostRuntime) -> io::Result<()> {
    let mut pool = Pool::new();
    for times in 0..u64::MAX {
        if !live_once(&mut pool, times) {
            tell_block(&rt, &pool, times)?;
            return take_the_others(&rt, &mut pool);
        }
    }
    Ok(())
}
