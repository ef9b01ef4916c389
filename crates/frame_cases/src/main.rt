// Runs the writer and the reader of frames on the cases of standard input, which the model made, and writes what they give.
//
// A case begins with its letter; of two bytes for a number the low one comes first:
//     w    the frame's number, its record number, the area's room in two bytes, the data's size in two bytes, the data
//     r    the stream's length in two bytes, the stream
// What is written of each stands in `writing` and in `reading`.
#![tactic(auto)]

mod reading;
mod writing;

use input::{read_array, read_at_most};
use std::io;
use std::io::Read;

const MOST_STREAM: usize = 1500;

const MOST_DATA: usize = 400;

fn two_bytes(low: u8, high: u8) -> usize {
    usize::from(u16::from_le_bytes([low, high]))
}

// Runs a writer's case, and answers whether it was there.
fn run_writer(rt: &(impl Print + AllocGlobal), input: &mut impl Read) -> io::Result<bool> {
    let Some(head) = read_array::<6>(input)? else {
        return Ok(false);
    };
    let size = two_bytes(head[4], head[5]);
    let Some(data) = read_at_most(rt.alloc(), input, size, MOST_DATA)? else {
        return Ok(false);
    };
    let room = two_bytes(head[2], head[3]);
    writing::run(rt, head[0], head[1], room, &data)?;
    Ok(true)
}

// Runs a reader's case, and answers whether it was there.
fn run_reader(rt: &(impl Print + AllocGlobal), input: &mut impl Read) -> io::Result<bool> {
    let Some(head) = read_array::<2>(input)? else {
        return Ok(false);
    };
    let length = two_bytes(head[0], head[1]);
    let Some(stream) = read_at_most(rt.alloc(), input, length, MOST_STREAM)? else {
        return Ok(false);
    };
    reading::run(rt, &stream)?;
    Ok(true)
}

// Runs the next case, and answers whether it was there.
fn run_case(rt: &(impl Print + AllocGlobal), input: &mut impl Read) -> io::Result<bool> {
    match input::read_byte(input)? {
        Some(b'w') => run_writer(rt, input),
        Some(b'r') => run_reader(rt, input),
        _ => Ok(false),
    }
}

// A proved loop has to end, and nothing says that the input does: so the turns are counted.
fn main(rt: HostRuntime) -> io::Result<()> {
    let mut input = rt.reader();
    for _ in 0..u64::MAX {
        if !run_case(&rt, &mut input)? {
            break;
        }
    }
    Ok(())
}
