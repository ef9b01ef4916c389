// Writes a line for each reply record of standard input: the reply in words, as `replies` has it. A last piece that is shorter
// than a reply is told as such.
#![tactic(auto)]

use numbers::REPLY_BYTES;
use replies::InWords;
use std::io;
use std::io::Read;

// Writes the line of the next reply, and answers whether there may be another.
fn show_next(rt: &impl Print, input: &mut impl Read) -> io::Result<bool> {
    let mut reply = [0u8; REPLY_BYTES];
    match input::read_full(input, &mut reply)? {
        0 => Ok(false),
        REPLY_BYTES => {
            println!(rt; "{}", InWords(reply))?;
            Ok(true)
        }
        n => {
            println!(rt; "no reply, only {n} bytes")?;
            Ok(false)
        }
    }
}

// A proved loop has to end, and nothing says that the input does: so the turns are counted.
fn main(rt: HostRuntime) -> io::Result<()> {
    let mut input = rt.reader();
    for _ in 0..u64::MAX {
        if !show_next(&rt, &mut input)? {
            break;
        }
    }
    Ok(())
}
