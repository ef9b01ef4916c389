// The numbers of documents 01 and 02 that several crates use, each once. Their like in the definitions stands in the files `Numbers` of
// `machine` and `chart`, in `mail`'s `Box` and in `pool`'s `Row`.
#![tactic(auto)]

pub mod answer;
pub mod command;

// Objects have the priorities 1 to 16. A mailbox has up to 16 places, all of them together 256.
pub const OBJECTS: usize = 16;

pub const PLACES: usize = 16;

pub const ALL_PLACES: usize = OBJECTS * PLACES;

// Events are set aside in eight side queues of up to 8 entries. Each stands in a ring of as many places as a mailbox has.
pub const SIDE_QUEUES: usize = 8;

pub const MOST_ASIDE: usize = 8;

pub const ALL_SIDE_PLACES: usize = SIDE_QUEUES * PLACES;

// Signals are 4 to 31. Of each object there is a place for every number below 32, which says whether it subscribes.
pub const FIRST_SIGNAL: usize = 4;

pub const LAST_SIGNAL: usize = 31;

pub const SIGNAL_PLACES: usize = 32;

pub const ALL_SIGNAL_PLACES: usize = OBJECTS * SIGNAL_PLACES;

// Each object has the flags 1 to 8.
pub const FLAGS: usize = 8;

pub const TIMERS: usize = 16;

pub const BLOCKS: usize = 56;

// The first byte of an event's handle has one of so many values: a block, or 128 and a timer.
pub const FIRST_BYTES: usize = 256;

// The blocks before 32 hold 16 bytes, those before 48 hold 32, the others 64.
pub const SMALL_BYTES: usize = 16;

pub const MIDDLE: usize = 32;

pub const MIDDLE_BYTES: usize = 32;

pub const LARGE: usize = 48;

pub const LARGE_BYTES: usize = 64;

pub const LONGEST_CHART: usize = 5576;

// A flat table: its rows, where their actions begin and how many there can be, and where a row has its flag.
pub const ROW_BYTES: usize = 24;

pub const ACTIONS_IN_ROW: usize = 3;

pub const MOST_ACTIONS: usize = 18;

pub const FLAG_IN_ROW: usize = 21;

// Four slots for plain charts, whose tables stand one behind the other in one area, and one for a guarded chart, whose table is an area.
pub const SLOT_BYTES: usize = 16152;

pub const PLAIN_SLOTS: usize = 4;

pub const GUARDED_SLOT: usize = PLAIN_SLOTS;

pub const SLOTS: usize = PLAIN_SLOTS + 1;

// What is lent and answered: a record, a reply, the four areas. The log has a line for each of the most steps of a DRAIN.
pub const RECORD_BYTES: usize = 72;

// A reply ends with a handle.
pub const HANDLE: usize = 24;

pub const REPLY_BYTES: usize = 28;

pub const PAYLOAD_AREA: usize = 1536;

pub const TABLE_AREA: usize = PLAIN_SLOTS * SLOT_BYTES;

pub const GUARDED_AREA: usize = 32280;

pub const MOST_STEPS: usize = 255;

pub const LOG_AREA: usize = MOST_STEPS * REPLY_BYTES;
