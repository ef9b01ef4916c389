// The names of the commands, each once: from a command to its name, and back.
#![tactic(auto)]

ghost use Rattle.std.specs.Prelude.{◌≡◌, IfSome};
ghost use Rattle.names.specs.Names.{name_of};

use numbers::command::Command;
use std::fmt;

pub fn name_of(command: Command) -> &'static str
    ensures { result.now ≡ name_of command }
{
    match command {
        Command::Load => "LOAD",
        Command::Start => "START",
        Command::New => "NEW",
        Command::Post => "POST",
        Command::PostFront => "POSTFRONT",
        Command::Publish => "PUBLISH",
        Command::Subscribe => "SUBSCRIBE",
        Command::Unsubscribe => "UNSUBSCRIBE",
        Command::Hold => "HOLD",
        Command::Release => "RELEASE",
        Command::Drop => "DROP",
        Command::Next => "NEXT",
        Command::End => "END",
        Command::Arm => "ARM",
        Command::Disarm => "DISARM",
        Command::Tick => "TICK",
        Command::Read => "READ",
        Command::Drain => "DRAIN",
        Command::Defer => "DEFER",
        Command::Recall => "RECALL",
        Command::Flush => "FLUSH",
        Command::Flag => "FLAG",
    }
}

// The command of this name, if there is one.
pub fn command_named(name: &str) -> Option<Command>
    ensures { IfSome result (λ command. name_of command ≡ name.now) }
{
    (1..=u8::MAX)
        .filter_map(|number| Command::try_from(number).ok())
        .find(|command| name_of(*command) == name)
}

// A command's number as text, in as many columns as the longest name has and one more: its name, or `command 23` where no command has
// the number.
#[derive(Clone, Copy, Debug)]
pub struct Numbered(pub u8);

impl fmt::Display for Numbered {
    fn fmt<W: fmt::Write>(&self, f: &mut fmt::Formatter<W>) -> fmt::Result {
        match Command::try_from(self.0) {
            Ok(command) => write!(f, "{:<12}", name_of(command)),
            Err(_) => write!(f, "command {:<4}", self.0),
        }
    }
}

#[cfg(test)]
mod tests {
    use super::*;

    #[test]
    fn every_command_is_found_by_its_name(rt: HostRuntime) {
        for number in 1..=22 {
            let command = Command::try_from(number).ok();
            assert_eq!(rt;
                command.and_then(|found| command_named(name_of(found))),
                command
            );
        }
        assert_eq!(rt; command_named("load"), None);
    }
}
