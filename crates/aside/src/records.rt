// What a record's bytes are to DEFER, RECALL and FLUSH.
ghost use Rattle.std.specs.Prelude.{List, ◌≡◌, ℕ};
ghost use Rattle.machine.specs.Machine.{command};
ghost use Rattle.machine.specs.Reply.{Areas};
ghost use Rattle.state.specs.View.{Good, state_of, told};

use arguments::{arg, spoilt};
use reply::{Reply, said};
use state::Kernel;

// DEFER q.
#[tactic(auto, unfolding(machine::specs::Machine::choose, machine::specs::Machine::command))]
pub fn defer_command(k: &mut Kernel, record: &[u8]) -> Reply
    requires { Good k.old }
    ensures { (d : List ℕ) (z : Areas) → told k.new result z ≡ command 19 «record».now d (state_of k.old) z }
{
    said(super::defer(k, spoilt(record, 1), arg(record, 1)))
}

// RECALL q, p.
#[tactic(auto, unfolding(machine::specs::Machine::choose, machine::specs::Machine::command))]
pub fn recall_command(k: &mut Kernel, record: &[u8]) -> Reply
    requires { Good k.old }
    ensures { (d : List ℕ) (z : Areas) → told k.new result z ≡ command 20 «record».now d (state_of k.old) z }
{
    said(super::recall(k, spoilt(record, 2), arg(record, 1), arg(record, 2)))
}

// FLUSH q.
#[tactic(auto, unfolding(machine::specs::Machine::choose, machine::specs::Machine::command))]
pub fn flush_command(k: &mut Kernel, record: &[u8]) -> Reply
    requires { Good k.old }
    ensures { (d : List ℕ) (z : Areas) → told k.new result z ≡ command 21 «record».now d (state_of k.old) z }
{
    said(super::flush(k, spoilt(record, 1), arg(record, 1)))
}
