// What a record's bytes are to the events' commands.
ghost use Rattle.std.specs.Prelude.{List, ◌≡◌, ℕ};
ghost use Rattle.machine.specs.Machine.{command};
ghost use Rattle.machine.specs.Reply.{Areas};
ghost use Rattle.state.specs.View.{Good, state_of, told};

use arguments::{arg, handle, spoilt};
use reply::{Reply, said};
use state::Kernel;

// POST handle, p, margin.
pub fn post_command(k: &mut Kernel, record: &[u8]) -> Reply
    requires { Good k.old }
    ensures { (d : List ℕ) (z : Areas) → told k.new result z ≡ command 4 «record».now d (state_of k.old) z }
{
    said(super::post(
        k,
        spoilt(record, 6),
        handle(record),
        arg(record, 5),
        arg(record, 6),
    ))
}

// POSTFRONT handle, p.
pub fn post_front_command(k: &mut Kernel, record: &[u8]) -> Reply
    requires { Good k.old }
    ensures { (d : List ℕ) (z : Areas) → told k.new result z ≡ command 5 «record».now d (state_of k.old) z }
{
    said(super::post_front(k, spoilt(record, 5), handle(record), arg(record, 5)))
}

// PUBLISH handle.
pub fn publish_command(k: &mut Kernel, record: &[u8]) -> Reply
    requires { Good k.old }
    ensures { (d : List ℕ) (z : Areas) → told k.new result z ≡ command 6 «record».now d (state_of k.old) z }
{
    said(super::publish(k, spoilt(record, 4), handle(record)))
}

// HOLD handle.
pub fn hold_command(k: &mut Kernel, record: &[u8]) -> Reply
    requires { Good k.old }
    ensures { (d : List ℕ) (z : Areas) → told k.new result z ≡ command 9 «record».now d (state_of k.old) z }
{
    said(super::hold(k, spoilt(record, 4), handle(record)))
}

// RELEASE handle.
pub fn release_command(k: &mut Kernel, record: &[u8]) -> Reply
    requires { Good k.old }
    ensures { (d : List ℕ) (z : Areas) → told k.new result z ≡ command 10 «record».now d (state_of k.old) z }
{
    said(super::release(k, spoilt(record, 4), handle(record)))
}

// DROP handle.
pub fn drop_event_command(k: &mut Kernel, record: &[u8]) -> Reply
    requires { Good k.old }
    ensures { (d : List ℕ) (z : Areas) → told k.new result z ≡ command 11 «record».now d (state_of k.old) z }
{
    said(super::drop_event(k, spoilt(record, 4), handle(record)))
}
