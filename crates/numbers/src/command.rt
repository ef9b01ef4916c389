// The commands, each with its number, the first byte of its record.
ghost use Rattle.numbers.specs.Codes.{IsCommand};

#[derive(Clone, Copy, Debug, PartialEq, Eq)]
pub enum Command {
    Load = 1,
    Start = 2,
    New = 3,
    Post = 4,
    PostFront = 5,
    Publish = 6,
    Subscribe = 7,
    Unsubscribe = 8,
    Hold = 9,
    Release = 10,
    Drop = 11,
    Next = 12,
    End = 13,
    Arm = 14,
    Disarm = 15,
    Tick = 16,
    Read = 17,
    Drain = 18,
    Defer = 19,
    Recall = 20,
    Flush = 21,
    Flag = 22,
}

// A number that no command has.
#[derive(Clone, Copy, Debug, PartialEq, Eq)]
pub struct UnknownCommand;

impl TryFrom<u8> for Command {
    type Error = UnknownCommand;

    ghost try_from_gives = { IsCommand };

    fn try_from(number: u8) -> Result<Self, UnknownCommand> {
        Ok(match number {
            1 => Command::Load,
            2 => Command::Start,
            3 => Command::New,
            4 => Command::Post,
            5 => Command::PostFront,
            6 => Command::Publish,
            7 => Command::Subscribe,
            8 => Command::Unsubscribe,
            9 => Command::Hold,
            10 => Command::Release,
            11 => Command::Drop,
            12 => Command::Next,
            13 => Command::End,
            14 => Command::Arm,
            15 => Command::Disarm,
            16 => Command::Tick,
            17 => Command::Read,
            18 => Command::Drain,
            19 => Command::Defer,
            20 => Command::Recall,
            21 => Command::Flush,
            22 => Command::Flag,
            _ => return Err(UnknownCommand),
        })
    }
}
