// Plays the random traces of standard input, which the model made with the replies that are to be written.
//
// A trace is the letter of its folder of charts, its length in two bytes, low byte first, and its bytes.
#![tactic(auto)]

use player::Replies;
use std::io;
use std::io::Read;
use std::rt::Files;

// Plays the next trace, and answers whether there was one.
fn play_next(rt: &(impl Files + Print), input: &mut impl Read) -> io::Result<bool> {
    let Some(header) = input::read_array::<3>(input)? else {
        return Ok(false);
    };
    let length = u16::from_le_bytes([header[1], header[2]]);
    let mut trace = input.by_ref().take(u64::from(length));
    player::play(rt, &mut trace, header[0], Replies::Plain)?;
    Ok(true)
}

// A proved loop has to end, and nothing says that the input does: so the turns are counted.
fn main(rt: HostRuntime) -> io::Result<()> {
    let mut input = rt.reader();
    for _ in 0..u64::MAX {
        if !play_next(&rt, &mut input)? {
            break;
        }
    }
    Ok(())
}
