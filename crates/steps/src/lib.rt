// Steps: NEXT, END, DRAIN.
#![tactic(auto)]

pub mod records;

ghost use Rattle.std.specs.Prelude.{List, ◌≡◌, ℕ, ◌<◌, ◌≤◌};
ghost use Rattle.machine.specs.Numbers.{objects};
ghost use Rattle.machine.specs.Reply.{Areas};
ghost use Rattle.machine.specs.Run.{Fit};
ghost use Rattle.machine.specs.Steps as machine;
ghost use Rattle.machine.specs.Steps.{to_run};
ghost use Rattle.drain.specs.Lent.{Looks};
ghost use Rattle.state.specs.View.{areas, Good, outcome, state_of};

use drain::{Coming, Fixed};
use numbers::answer::Refusal;
use numbers::{FIRST_BYTES, GUARDED_AREA, LOG_AREA, TABLE_AREA};
use refusals::{drain_refusal, end_refusal, next_refusal, refuse_if};
use reply::Reply;
use slots::{edition_of, slot_bad, table_of};
use state::{Kernel, NO_EVENT};

// The event that comes to object p, the one that is to run.
fn coming(k: &Kernel, p: usize) -> Coming
    requires { (1 ≤ p) × (p ≤ objects) × (p ≡ to_run (state_of k.now)) × Fit (state_of k.now) }
    ensures { Looks (state_of k.now) (machine.coming (state_of k.now)) result }
{
    drain::look(&k.signals, k.pool.generations(), k.mail[p - 1].front())
}

// NEXT. The rows are read last, once there is an event that they are for.
pub fn next(k: &mut Kernel, spoilt: bool, tables: &[u8], guarded: &[u8]) -> Result<Reply, Refusal>
    requires { Good k.old }
    ensures { (p l : List ℕ) → outcome k.new result (areas p tables.now guarded.now l)
        ≡ machine.next spoilt (state_of k.old) (areas p tables.now guarded.now l) }
{
    let p = mail::highest(&k.mail);
    let bad_tables = tables.len() != TABLE_AREA;
    let bad_slot = p != 0 && slot_bad(guarded, usize::from(k.seats[p - 1]));
    next_refusal(spoilt, bad_tables, bad_slot, k.is_open(), p, true)?;
    let q = p - 1;
    let slot = usize::from(k.seats[q]);
    let table = table_of(tables, guarded, slot);
    let l = coming(k, p);
    let rest = k.rests[q];
    let found = chart::find_row(edition_of(slot), table, rest, l.signal, &k.flags, p);
    refuse_if(!drain::is_sound(found), Refusal::Table)?;
    k.hand = k.mail[q].take_front();
    k.rests[q] = drain::next_rest(table, found, rest);
    Ok(drain::answer(p, l, table, found))
}

// END: the event in hand is let go.
pub fn end(k: &mut Kernel, spoilt: bool) -> Result<Reply, Refusal>
    requires { Good k.old }
    ensures { (z : Areas) → outcome k.new result z ≡ machine.end spoilt (state_of k.old) z }
{
    end_refusal(spoilt, k.is_open())?;
    let b = drain::block_of(mail::hand_of(k.hand));
    let freed = k.pool.let_go(usize::from(b));
    k.hand = NO_EVENT;
    Ok(reply::done(u8::from(freed), 0))
}

// DRAIN budget: the steps first, and then all their blocks are let go at once.
pub fn drain(
    k: &mut Kernel,
    spoilt: bool,
    budget: usize,
    tables: &[u8],
    guarded: &[u8],
    log: &mut [u8],
) -> Result<Reply, Refusal>
    requires { Good k.old × (budget < 256) }
    ensures { (p : List ℕ) → outcome k.new result (areas p tables.now guarded.now log.new)
        ≡ machine.drain spoilt budget (state_of k.old) (areas p tables.now guarded.now log.old) }
{
    let bad_tables = tables.len() != TABLE_AREA;
    let bad_guarded = guarded.len() != GUARDED_AREA;
    let bad_log = log.len() != LOG_AREA;
    drain_refusal(spoilt, bad_tables, bad_guarded, bad_log, k.is_open())?;
    let fixed = Fixed {
        seats: &k.seats,
        signals: &k.signals,
        gens: k.pool.generations(),
        flags: &k.flags,
        tables,
        guarded,
    };
    let mut times = [0; FIRST_BYTES];
    let n = drain::run(fixed, &mut k.mail, &mut k.rests, &mut times, log, budget);
    k.pool.let_go_each(&times);
    Ok(reply::done(n as u8, drain::last_value(&k.mail, n, budget)))
}
