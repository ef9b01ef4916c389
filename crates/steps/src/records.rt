// What a record's bytes are to NEXT, END and DRAIN.
ghost use Rattle.std.specs.Prelude.{List, ◌≡◌, ℕ};
ghost use Rattle.machine.specs.Machine.{command};
ghost use Rattle.machine.specs.Reply.{Areas};
ghost use Rattle.state.specs.View.{areas, Good, state_of, told};

use arguments::{arg, spoilt};
use reply::Reply;
use state::Kernel;

// NEXT.
pub fn next_command(k: &mut Kernel, record: &[u8], tables: &[u8], guarded: &[u8]) -> Reply
    requires { Good k.old }
    ensures { (d p l : List ℕ) → told k.new result (areas p tables.now guarded.now l)
        ≡ command 12 «record».now d (state_of k.old) (areas p tables.now guarded.now l) }
{
    reply::said(super::next(k, spoilt(record, 0), tables, guarded))
}

// END.
pub fn end_command(k: &mut Kernel, record: &[u8]) -> Reply
    requires { Good k.old }
    ensures { (d : List ℕ) (z : Areas) → told k.new result z ≡ command 13 «record».now d (state_of k.old) z }
{
    reply::said(super::end(k, spoilt(record, 0)))
}

// DRAIN budget.
pub fn drain_command(
    k: &mut Kernel,
    record: &[u8],
    tables: &[u8],
    guarded: &[u8],
    log: &mut [u8],
) -> Reply
    requires { Good k.old }
    ensures { (d p : List ℕ) → told k.new result (areas p tables.now guarded.now log.new)
        ≡ command 18 «record».now d (state_of k.old) (areas p tables.now guarded.now log.old) }
{
    let budget = arg(record, 1);
    reply::said(super::drain(k, spoilt(record, 1), budget, tables, guarded, log))
}
