// What a record's bytes are to ARM, DISARM and TICK.
#![tactic(auto, unfolding(machine::specs::Machine::choose, machine::specs::Machine::command))]

ghost use Rattle.std.specs.Prelude.{List, ◌≡◌, ℕ};
ghost use Rattle.machine.specs.Machine.{command};
ghost use Rattle.machine.specs.Reply.{Areas};
ghost use Rattle.state.specs.View.{Good, state_of, told};

use arguments::{arg, arg16, spoilt};
use ground::byte_at;
use reply::{Reply, said};
use state::Kernel;

// ARM timer, p, signal, ticks, interval.
pub fn arm_command(k: &mut Kernel, record: &[u8]) -> Reply
    requires { Good k.old }
    ensures { (d : List ℕ) (z : Areas) → told k.new result z ≡ command 14 «record».now d (state_of k.old) z }
{
    said(super::arm(
        k,
        spoilt(record, 7),
        arg(record, 1),
        arg(record, 2),
        byte_at(record, 3),
        arg16(record, 4),
        arg16(record, 6),
    ))
}

// DISARM timer.
pub fn disarm_command(k: &mut Kernel, record: &[u8]) -> Reply
    requires { Good k.old }
    ensures { (d : List ℕ) (z : Areas) → told k.new result z ≡ command 15 «record».now d (state_of k.old) z }
{
    said(super::disarm(k, spoilt(record, 1), arg(record, 1)))
}

// TICK.
pub fn tick_command(k: &mut Kernel, record: &[u8]) -> Reply
    requires { Good k.old }
    ensures { (d : List ℕ) (z : Areas) → told k.new result z ≡ command 16 «record».now d (state_of k.old) z }
{
    said(super::tick(k, spoilt(record, 0)))
}
