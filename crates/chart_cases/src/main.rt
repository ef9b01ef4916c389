// Runs the charts of standard input through the check and the flattener, and writes what they answer.
//
// A case is a byte (1: write the table's rows, 2: the chart is a guarded one, 3: both), the chart's length in two bytes, low byte first,
// and the chart.
#![tactic(auto)]

ghost use Rattle.std.specs.Prelude.{◌≤◌, length};

use chart::read::Edition;
use input::{read_array, read_full};
use numbers::{ACTIONS_IN_ROW, FLAG_IN_ROW, ROW_BYTES};
use std::io;
use std::io::Read;
use text::{Spaced, sum_of};

// More than any chart that is good, for charts that are too long.
const BUFFER_BYTES: usize = 11200;

// The first byte of a case whose chart is a guarded one; one more if its rows are to be written.
const GUARDED_CASE: u8 = 2;

// What a slot is filled with beforehand, to show which charts leave it alone.
const FILL: u8 = 170;

// What comes before a chart.
#[derive(Clone, Copy, Debug)]
struct Header {
    rows: bool,
    edition: Edition,
    length: usize,
}

fn read_header(input: &mut impl Read) -> io::Result<Option<Header>> {
    let Some(header) = read_array::<3>(input)? else {
        return Ok(None);
    };
    Ok(Some(Header {
        rows: header[0] % 2 == 1,
        edition: if header[0] < GUARDED_CASE {
            Edition::Plain
        } else {
            Edition::Guarded
        },
        length: usize::from(u16::from_le_bytes([header[1], header[2]])),
    }))
}

// The answers that C gets.
fn check(edition: Edition, chart: &[u8]) -> u32 {
    match edition {
        Edition::Plain => flattener::chart_check(chart),
        Edition::Guarded => flattener::chart_check_guarded(chart),
    }
}

fn flatten(edition: Edition, chart: &[u8], slot: &mut [u8]) -> u32 {
    match edition {
        Edition::Plain => flattener::chart_flatten(chart, slot),
        Edition::Guarded => flattener::chart_flatten_guarded(chart, slot),
    }
}

// Writes a row, unless the signal is ignored.
fn write_row(rt: &impl Print, offset: usize, row: &[u8]) -> io::Result<()>
    requires { 24 ≤ length row.now }
{
    if row[1] == 0 {
        return Ok(());
    }
    let used = row.len().min(ACTIONS_IN_ROW + usize::from(row[2]));
    let bytes = Spaced(&row[..used]);
    match row[FLAG_IN_ROW] {
        0 => println!(rt; "{offset}:{bytes}"),
        flag => println!(rt; "{offset}:{bytes} flag {flag}"),
    }
}

// Writes what the calls of an edition answer, and what stands in the slot afterwards.
fn run_chart(
    rt: &(impl Print + AllocGlobal),
    edition: Edition,
    chart: &[u8],
    rows: bool,
) -> io::Result<()> {
    let mut slot = vec![in rt.alloc(); FILL; edition.slot_bytes()]?;
    let class = flatten(edition, chart, &mut slot);
    println!(rt; "class {class}")?;
    if check(edition, chart) != class {
        println!(rt; "check differs")?;
    }
    if rows && class == 0 {
        for (i, row) in slot.chunks_exact(ROW_BYTES).enumerate() {
            write_row(rt, i * ROW_BYTES, row)?;
        }
    }
    println!(rt; "sum {}", sum_of(&slot))
}

// Reads the chart behind a header into the front of the buffer and runs it, and answers whether it was there. No Vec: a chart that is
// torn off still counts as far as its header says, with zeros behind.
fn run_case(
    rt: &(impl Print + AllocGlobal),
    input: &mut impl Read,
    header: Header,
    buffer: &mut [u8; BUFFER_BYTES],
) -> io::Result<bool> {
    let length = header.length.min(BUFFER_BYTES);
    if read_full(input, &mut buffer[..length])? != header.length {
        return Ok(false);
    }
    run_chart(rt, header.edition, &buffer[..length], header.rows)?;
    Ok(true)
}

// A proved loop has to end, and nothing says that the input does: so the turns are counted.
fn run_rest(rt: &(impl Print + AllocGlobal), input: &mut impl Read) -> io::Result<()> {
    let mut buffer = [0u8; BUFFER_BYTES];
    for _ in 0..u64::MAX {
        let Some(header) = read_header(input)? else {
            break;
        };
        if !run_case(rt, input, header, &mut buffer)? {
            break;
        }
    }
    Ok(())
}

// Writes what the flattener answers for a slot of this length, and the slot's sum.
fn try_length(
    rt: &(impl Print + AllocGlobal),
    edition: Edition,
    chart: &[u8],
    length: usize,
) -> io::Result<()> {
    let mut slot = vec![in rt.alloc(); FILL; length]?;
    let answer = flatten(edition, chart, &mut slot);
    let name = match edition {
        Edition::Plain => "length",
        Edition::Guarded => "guarded length",
    };
    println!(rt; "{name} {length} answer {answer} sum {}", sum_of(&slot))
}

// Lengths that are not the slot's.
fn try_lengths(rt: &(impl Print + AllocGlobal), chart: &[u8]) -> io::Result<()> {
    for length in [0, 16151, 16153] {
        try_length(rt, Edition::Plain, chart, length)?;
    }
    for length in [0, 16152, 32279, 32281] {
        try_length(rt, Edition::Guarded, chart, length)?;
    }
    Ok(())
}

// The first chart, which is good in both editions, is kept for the slots of other lengths.
fn main(rt: HostRuntime) -> io::Result<()> {
    let mut input = rt.reader();
    let mut first = [0u8; BUFFER_BYTES];
    let mut length = 0;
    if let Some(header) = read_header(&mut input)? {
        length = header.length.min(BUFFER_BYTES);
        run_case(&rt, &mut input, header, &mut first)?;
    }
    run_rest(&rt, &mut input)?;
    try_lengths(&rt, &first[..length])
}
