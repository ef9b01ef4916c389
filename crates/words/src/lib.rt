// Records written in words, read a letter at a time.
//
// A line is a name and numbers, with spaces between them; what stands behind `#` or `=` is left out.
// The name gives the record's first byte, and each number is the next byte:
//     LOAD 0 · START 9 0 1                    a command record of 72 bytes; the bytes that are not given are 0
//     NEW 6 3 7 8 9                           signal, size; then the payload's bytes
//     READ 1 70000 · POST 0 16777215 9 2      a handle: block; then the generation, three bytes
//     ARM 0 9 6 500 0                         timer, object, signal; then ticks and interval, two bytes each
//     TOP 1 10 · STATE 0 11 12 2 13 · ROW 1 5 1 1 15 2   the records of a chart, of 8 bytes
//     23 1 2                                  a number for a name: a command record of just these bytes, then 0
//     PIECE 16 0                              as many bytes as are given
//     FRESH                                   no record, but a mark: here a trace begins
#![tactic(auto)]

use arrayvec::ArrayVec;
use numbers::RECORD_BYTES;
use numbers::command::Command;
use std::io;
use std::io::{Read, Write};

const CHART_RECORD_BYTES: usize = 8;

// Where in a command record NEW's payload begins, the generation of a handle, and ARM's ticks. NEW's size ends at the first of them.
const NEW_HEAD: usize = 3;

const PAYLOAD: usize = 8;

const GENERATION: usize = 2;

const TICKS: usize = 4;

const MOST_DIGITS: usize = 12;

// A word of one letter more than the longest number is none, and no name either.
const WORD_ROOM: usize = MOST_DIGITS + 1;

// A line that is no record in words.
#[derive(Clone, Copy, Debug, PartialEq, Eq)]
pub struct Unreadable;

#[derive(Clone, Debug, PartialEq, Eq, Drop)]
pub enum Entry {
    Nothing,
    Fresh,
    Command(ArrayVec<u8, RECORD_BYTES>),
    ChartRecord(ArrayVec<u8, RECORD_BYTES>),
}

// What a line's first word says of its record.
#[derive(Clone, Copy, Debug, PartialEq, Eq)]
enum Kind {
    Command(Command),
    Number(u8),
    Top,
    State,
    Row,
    Piece,
    Fresh,
}

impl Kind {
    fn named(word: &[u8]) -> Option<Kind> {
        Some(match word {
            b"TOP" => Kind::Top,
            b"STATE" => Kind::State,
            b"ROW" => Kind::Row,
            b"PIECE" => Kind::Piece,
            b"FRESH" => Kind::Fresh,
            _ => Kind::Command(names::command_named(str::from_utf8(word).ok()?)?),
        })
    }

    fn first_byte(self) -> Option<u8> {
        match self {
            Kind::Command(command) => Some(command as u8),
            Kind::Number(number) => Some(number),
            Kind::Top => Some(3),
            Kind::State => Some(1),
            Kind::Row => Some(2),
            Kind::Piece | Kind::Fresh => None,
        }
    }

    // How many bytes the record has; a piece may have fewer.
    fn size(self) -> usize {
        match self {
            Kind::Command(_) | Kind::Number(_) | Kind::Piece => RECORD_BYTES,
            Kind::Top | Kind::State | Kind::Row => CHART_RECORD_BYTES,
            Kind::Fresh => 0,
        }
    }

    // Whether a command names an event by its handle.
    fn has_handle(self) -> bool {
        matches!(
            self,
            Kind::Command(
                Command::Post
                    | Command::PostFront
                    | Command::Publish
                    | Command::Hold
                    | Command::Release
                    | Command::Drop
                    | Command::Read
            )
        )
    }

    // How many bytes the number at a place of the record takes.
    fn width_at(self, at: usize) -> usize {
        if at == GENERATION && self.has_handle() {
            return 3;
        }
        if TICKS <= at && self == Kind::Command(Command::Arm) {
            return 2;
        }
        1
    }
}

// A record, as far as it was read.
#[derive(Drop)]
struct Record {
    kind: Kind,
    bytes: ArrayVec<u8, RECORD_BYTES>,
}

impl Record {
    fn begun(word: &[u8]) -> Result<Record, Unreadable> {
        let kind = match number_in(word) {
            Some(number) => Kind::Number(u8::try_from(number).map_err(|_| Unreadable)?),
            None => Kind::named(word).ok_or(Unreadable)?,
        };
        let mut record = Record {
            kind,
            bytes: ArrayVec::new(),
        };
        if let Some(first) = kind.first_byte() {
            record.push(first)?;
        }
        Ok(record)
    }

    fn push(&mut self, byte: u8) -> Result<(), Unreadable> {
        if self.kind.size() <= self.bytes.len() {
            return Err(Unreadable);
        }
        self.bytes.try_push(byte).map_err(|_| Unreadable)
    }

    fn pad(&mut self, size: usize) -> Result<(), Unreadable> {
        for _ in self.bytes.len()..size {
            self.push(0)?;
        }
        Ok(())
    }

    // Puts the next number to its place, low byte first. One that does not fit there makes the line unreadable.
    fn push_number(&mut self, number: u64) -> Result<(), Unreadable> {
        if self.kind == Kind::Command(Command::New) && self.bytes.len() == NEW_HEAD {
            self.pad(PAYLOAD)?;
        }
        let bytes = number.to_le_bytes();
        let width = self.kind.width_at(self.bytes.len());
        if bytes.iter().skip(width).any(|byte| *byte != 0) {
            return Err(Unreadable);
        }
        for byte in bytes.iter().take(width) {
            self.push(*byte)?;
        }
        Ok(())
    }

    fn ended(mut self) -> Result<Entry, Unreadable> {
        let kind = self.kind;
        if kind != Kind::Piece {
            self.pad(kind.size())?;
        }
        let Record { kind: _, bytes } = self;
        Ok(match kind {
            Kind::Fresh => Entry::Fresh,
            Kind::Top | Kind::State | Kind::Row => Entry::ChartRecord(bytes),
            _ => Entry::Command(bytes),
        })
    }
}

fn number_in(word: &[u8]) -> Option<u64> {
    if MOST_DIGITS < word.len() || !word.iter().all(|letter| letter.is_ascii_digit()) {
        return None;
    }
    str::from_utf8(word).ok()?.parse().ok()
}

// Where in a line a letter stands.
#[derive(Clone, Copy, Debug, PartialEq, Eq)]
enum Part {
    Words,
    Remark,
    Answer,
}

// A line, as far as it was read: the word that has begun, and the record of the words before.
#[derive(Drop)]
struct Line {
    part: Part,
    word: ArrayVec<u8, WORD_ROOM>,
    record: Result<Option<Record>, Unreadable>,
}

impl Line {
    fn new() -> Line {
        Line {
            part: Part::Words,
            word: ArrayVec::new(),
            record: Ok(None),
        }
    }

    fn end_word(&mut self) {
        if self.word.is_empty() {
            return;
        }
        if let Ok(record) = &mut self.record
            && add_word(record, self.word.as_slice()).is_err()
        {
            self.record = Err(Unreadable);
        }
        self.word.clear();
    }

    // What stands behind `=` is not echoed.
    fn push(&mut self, letter: u8, echo: &mut impl Write) -> io::Result<()> {
        if self.part == Part::Answer {
            return Ok(());
        }
        echo.write_all(&[letter])?;
        if self.part == Part::Remark {
            return Ok(());
        }
        match letter {
            b' ' | b'\t' | b'\r' => self.end_word(),
            b'#' => {
                self.end_word();
                self.part = Part::Remark;
            }
            b'=' => {
                self.end_word();
                self.part = Part::Answer;
            }
            // The end of a word that is too long is lost: there is no such word in any case.
            _ => {
                let _ = self.word.try_push(letter);
            }
        }
        Ok(())
    }

    fn ended(mut self) -> Result<Entry, Unreadable> {
        self.end_word();
        let Line {
            part: _,
            word: _,
            record,
        } = self;
        match record? {
            None => Ok(Entry::Nothing),
            Some(record) => record.ended(),
        }
    }
}

fn add_word(record: &mut Option<Record>, word: &[u8]) -> Result<(), Unreadable> {
    match record {
        None => *record = Some(Record::begun(word)?),
        Some(record) => record.push_number(number_in(word).ok_or(Unreadable)?)?,
    }
    Ok(())
}

// Reads the next line of the input, if there is one, and echoes its text but for its end: a letter as it is read, so that a line of any
// length is whole. A proved loop has to end, and nothing says that the line does: so the letters are counted.
pub fn read_line(
    input: &mut impl Read,
    echo: &mut impl Write,
) -> io::Result<Option<Result<Entry, Unreadable>>> {
    let mut next = input::read_byte(input)?;
    if next.is_none() {
        return Ok(None);
    }
    let mut line = Line::new();
    for _ in 0..u64::MAX {
        match next {
            None | Some(b'\n') => break,
            Some(letter) => line.push(letter, echo)?,
        }
        next = input::read_byte(input)?;
    }
    Ok(Some(line.ended()))
}
