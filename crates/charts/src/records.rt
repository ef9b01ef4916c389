// What a record's bytes are to LOAD, START and FLAG.
ghost use Rattle.std.specs.Prelude.{List, ◌≡◌, ℕ};
ghost use Rattle.machine.specs.Machine.{command};
ghost use Rattle.machine.specs.Reply.{Areas};
ghost use Rattle.state.specs.View.{Good, areas, state_of, told};

use arguments::{arg, spoilt};
use reply::{Reply, said};
use state::Kernel;

// LOAD slot, with a chart.
pub fn load_command(
    k: &mut Kernel,
    record: &[u8],
    chart: &[u8],
    tables: &mut [u8],
    guarded: &mut [u8],
) -> Reply
    requires { Good k.old }
    ensures { (p l : List ℕ) → told k.new result (areas p tables.new guarded.new l)
        ≡ command 1 «record».now chart.now (state_of k.old) (areas p tables.old guarded.old l) }
{
    super::load_reply(super::load(k, spoilt(record, 1), arg(record, 1), chart, tables, guarded))
}

// START p, slot, depth.
pub fn start_command(k: &mut Kernel, record: &[u8], tables: &[u8], guarded: &[u8]) -> Reply
    requires { Good k.old }
    ensures { (d p l : List ℕ) → told k.new result (areas p tables.now guarded.now l)
        ≡ command 2 «record».now d (state_of k.old) (areas p tables.now guarded.now l) }
{
    said(super::start(
        k,
        spoilt(record, 3),
        arg(record, 1),
        arg(record, 2),
        arg(record, 3),
        tables,
        guarded,
    ))
}

// FLAG p, flag, 0 or 1.
pub fn flag_command(k: &mut Kernel, record: &[u8]) -> Reply
    requires { Good k.old }
    ensures { (d : List ℕ) (z : Areas) → told k.new result z ≡ command 22 «record».now d (state_of k.old) z }
{
    said(super::flag(
        k,
        spoilt(record, 3),
        arg(record, 1),
        arg(record, 2),
        arg(record, 3),
    ))
}
