// Plays a trace as `replay` does, and writes each reply as a frame: a record of the night that `morning` can read after damage.
#![tactic(auto)]

use player::Replies;
use std::io;

fn main(rt: HostRuntime) -> io::Result<()> {
    let mut input = rt.reader();
    player::play(&rt, &mut input, player::HERE, Replies::Framed(0))
}
