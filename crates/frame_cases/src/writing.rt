// A writer's case: the frame's length, the next number, the sum of the whole area and the frame's bytes; or a refusal.
//     written 11 next 127 sum 5758: 125 94 125 93 125 93 8 1 125 94 126
//     refused next 126 sum 9350
use frame::writer::write;
use std::io;
use text::{Spaced, sum_of};

// What the area is filled with beforehand, to show which bytes the writer leaves alone.
const FILL: u8 = 170;

const AREA_ROOM: usize = 400;

// The area is as much of an array as the case gives it room.
pub fn run(rt: &impl Print, number: u8, kind: u8, room: usize, data: &[u8]) -> io::Result<()> {
    let mut array = [FILL; AREA_ROOM];
    let area = &mut array[..room.min(AREA_ROOM)];
    match write(number, kind, data, area) {
        Ok(written) => println!(rt;
            "written {} next {} sum {}:{}",
            written.length,
            written.next,
            sum_of(area),
            Spaced(&area[..written.length]),
        ),
        Err(_) => println!(rt; "refused next {number} sum {}", sum_of(area)),
    }
}
