// The calls of `areas` as they stand in its input.
//
// A call is a head, the first bytes of its record, and its chart. The head has 17 bytes; of two bytes for a number the
// low one comes first:
//
//     0         1 for a fresh start: a fresh kernel, and areas of zeros
//     1         the record's length
//     2         how many of its bytes are given; the rest are 0
//     3 to 10   how many first bytes are lent of the payloads, of the tables, of the guarded table and of the log
//     11        1 if somebody else writes to the tables before the call, 2 if to the guarded table
//     12 to 14  at which offset, and the byte
//     15, 16    the chart's length
#![tactic(auto)]

ghost use Rattle.std.specs.Prelude.{◌≤◌};
ghost use Rattle.calls.specs.declared.TheConstants.{GUARDED_ROOM, LOG_ROOM, PAYLOADS_ROOM, TABLES_ROOM};

use input::{read_array, read_at_most, read_vec};
use numbers::{GUARDED_AREA, LOG_AREA, PAYLOAD_AREA, TABLE_AREA};
use std::alloc::Global;
use std::io;
use std::io::Read;

// Each area that is kept is one byte longer than the kernel's.
pub const PAYLOADS_ROOM: usize = PAYLOAD_AREA + 1;

pub const TABLES_ROOM: usize = TABLE_AREA + 1;

pub const GUARDED_ROOM: usize = GUARDED_AREA + 1;

pub const LOG_ROOM: usize = LOG_AREA + 1;

// Twice the longest chart that is good, for charts that are too long.
const CHART_ROOM: usize = 2 * numbers::LONGEST_CHART;

const HEAD_BYTES: usize = 17;

// To what somebody else writes.
#[derive(Clone, Copy, Debug, PartialEq, Eq)]
pub enum Poked {
    Tables,
    Guarded,
}

#[derive(Clone, Copy, Debug, PartialEq, Eq)]
pub struct Poke {
    pub to: Poked,
    pub offset: usize,
    pub byte: u8,
}

// How many first bytes are lent of each area.
#[derive(Clone, Copy, Debug, PartialEq, Eq)]
pub struct Lent {
    pub payloads: usize,
    pub tables: usize,
    pub guarded: usize,
    pub log: usize,
    ghost payloads_fit: { payloads ≤ PAYLOADS_ROOM },
    ghost tables_fit: { tables ≤ TABLES_ROOM },
    ghost guarded_fits: { guarded ≤ GUARDED_ROOM },
    ghost log_fits: { log ≤ LOG_ROOM },
}

#[derive(Clone, Debug, PartialEq, Eq, Drop)]
pub struct Call {
    pub is_fresh: bool,
    pub record: Vec<u8>,
    pub lent: Lent,
    pub poke: Option<Poke>,
    pub chart: Vec<u8>,
}

fn two_bytes(head: [u8; HEAD_BYTES], at: usize) -> usize
    requires { at ≤ 15 }
{
    usize::from(u16::from_le_bytes([head[at], head[at + 1]]))
}

// What is lent, where there is so much.
fn lent_of(head: [u8; HEAD_BYTES]) -> Option<Lent> {
    let payloads = two_bytes(head, 3);
    let tables = two_bytes(head, 5);
    let guarded = two_bytes(head, 7);
    let log = two_bytes(head, 9);
    if payloads <= PAYLOADS_ROOM
        && tables <= TABLES_ROOM
        && guarded <= GUARDED_ROOM
        && log <= LOG_ROOM
    {
        return Some(Lent {
            payloads,
            tables,
            guarded,
            log,
        });
    }
    None
}

fn poke_of(head: [u8; HEAD_BYTES]) -> Option<Poke> {
    let to = match head[11] {
        1 => Poked::Tables,
        2 => Poked::Guarded,
        _ => return None,
    };
    Some(Poke {
        to,
        offset: two_bytes(head, 12),
        byte: head[14],
    })
}

// Whether the poke is within the area.
fn fits(poke: Poke) -> bool {
    match poke.to {
        Poked::Tables => poke.offset < TABLES_ROOM,
        Poked::Guarded => poke.offset < GUARDED_ROOM,
    }
}

// The next call; none where the input ends before its end, and where it asks for more than there is room for.
pub fn read_call(alloc: Global, input: &mut impl Read) -> io::Result<Option<Call>> {
    let Some(head) = read_array(input)? else {
        return Ok(None);
    };
    let length = usize::from(head[1]);
    let given = usize::from(head[2]);
    let chart_length = two_bytes(head, 15);
    let Some(lent) = lent_of(head) else {
        return Ok(None);
    };
    let poke = poke_of(head);
    if length < given || !poke.is_none_or(fits) {
        return Ok(None);
    }
    let Some(mut record) = read_vec(alloc, input, given)? else {
        return Ok(None);
    };
    record.resize(length, 0)?;
    let Some(chart) = read_at_most(alloc, input, chart_length, CHART_ROOM)? else {
        return Ok(None);
    };
    Ok(Some(Call {
        is_fresh: head[0] == 1,
        record,
        lent,
        poke,
        chart,
    }))
}

#[cfg(test)]
mod tests {
    use super::*;
    use std::test::Fail;

    // A fresh start and a record of two bytes, one of them given, with a byte written to the guarded table before it and a chart of one byte.
    #[test]
    fn reads_a_call_and_none_behind_it(rt: HostRuntime) -> Result<(), Fail> {
        let bytes = [1, 2, 1, 0, 6, 3, 0, 0, 0, 4, 0, 2, 5, 1, 9, 1, 0, 12, 7];
        let mut input = bytes.as_slice();
        let read = read_call(rt.alloc(), &mut input)?;
        assert!(rt;
            read.is_some_and(|call| call.is_fresh
                && call.record.as_slice() == [12u8, 0].as_slice()
                && call.chart.as_slice() == [7u8].as_slice()
                && call.lent.payloads == 1536
                && call.lent.tables == 3
                && call.lent.guarded == 0
                && call.lent.log == 4
                && call.poke
                    == Some(Poke {
                        to: Poked::Guarded,
                        offset: 261,
                        byte: 9
                    }))
        );
        assert!(rt; read_call(rt.alloc(), &mut input)?.is_none());
        Ok(())
    }
}
