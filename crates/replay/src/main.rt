// Replays a trace: command records from standard input, charts from the files chart0 to chart3, and for each
// record its reply to standard output. A reply is written before the next record is read.
#![tactic(auto)]

use player::Replies;
use std::io;

fn main(rt: HostRuntime) -> io::Result<()> {
    let mut input = rt.reader();
    player::play(&rt, &mut input, player::HERE, Replies::Plain)
}
