// What a record's bytes are to SUBSCRIBE and UNSUBSCRIBE.
#![tactic(auto, unfolding(machine::specs::Machine::choose, machine::specs::Machine::command))]

ghost use Rattle.std.specs.Prelude.{List, ◌≡◌, ℕ};
ghost use Rattle.machine.specs.Machine.{command};
ghost use Rattle.machine.specs.Reply.{Areas};
ghost use Rattle.state.specs.View.{Good, state_of, told};

use arguments::{arg, spoilt};
use reply::{Reply, said};
use state::Kernel;

// SUBSCRIBE p, signal.
pub fn subscribe_command(k: &mut Kernel, record: &[u8]) -> Reply
    requires { Good k.old }
    ensures { (d : List ℕ) (z : Areas) → told k.new result z ≡ command 7 «record».now d (state_of k.old) z }
{
    said(super::subscribe(k, spoilt(record, 2), arg(record, 1), arg(record, 2)))
}

// UNSUBSCRIBE p, signal.
pub fn unsubscribe_command(k: &mut Kernel, record: &[u8]) -> Reply
    requires { Good k.old }
    ensures { (d : List ℕ) (z : Areas) → told k.new result z ≡ command 8 «record».now d (state_of k.old) z }
{
    said(super::unsubscribe(k, spoilt(record, 2), arg(record, 1), arg(record, 2)))
}
