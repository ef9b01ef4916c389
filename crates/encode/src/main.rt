// Turns the records in words of standard input, as the crate `words` reads them, into their bytes.
// A line that cannot be read is told on standard error, and nothing behind it is written.
#![tactic(auto)]

use std::io;
use std::io::Read;
use words::{Entry, Unreadable};

// Writes the record of the next line, and answers whether there may be another line.
fn encode_line(rt: &(impl Print + Eprint), input: &mut impl Read, number: u64) -> io::Result<bool> {
    match words::read_line(input, &mut io::sink())? {
        None => return Ok(false),
        Some(Ok(Entry::Nothing)) => {}
        Some(Ok(Entry::Command(record) | Entry::ChartRecord(record))) => {
            rt.write_all(record.as_slice())?;
        }
        Some(Ok(Entry::Fresh) | Err(Unreadable)) => {
            eprintln!(rt; "line {number} cannot be read")?;
            return Ok(false);
        }
    }
    Ok(true)
}

// A proved loop has to end, and nothing says that the input does: so the lines are counted up to a number.
fn main(rt: HostRuntime) -> io::Result<()> {
    let mut input = rt.reader();
    for line in 1..u64::MAX {
        if !encode_line(&rt, &mut input, line)? {
            break;
        }
    }
    Ok(())
}
