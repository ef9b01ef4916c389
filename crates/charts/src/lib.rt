// LOAD and START, which use the tables, and FLAG.
#![tactic(auto)]

mod flags;
pub mod records;

ghost use Rattle.std.specs.Prelude.{List, ◌≡◌, ℕ, ◌<◌, ◌≤◌};
ghost use Rattle.charts.specs.Loaded.{load_reply};
ghost use Rattle.charts.specs.declared.LoadError.TheVariants.{Chart, Refused};
ghost use Rattle.machine.specs.Charts as machine;
ghost use Rattle.machine.specs.Charts.{slot_used, started_at};
ghost use Rattle.mail.specs.Box.{room};
ghost use Rattle.machine.specs.Numbers.{objects, slots};
ghost use Rattle.machine.specs.Reply.{Areas};
ghost use Rattle.machine.specs.State.{is_loaded};
ghost use Rattle.state.specs.View.{areas, outcome, state_of, told};

use chart::faults::Fault;
use chart::read::state_count;
use layout::fill_slot;
use numbers::answer::Refusal;
use numbers::{OBJECTS, TABLE_AREA};
use refusals::{flag_refusal, load_refusal, start_refusal};
use reply::Reply;
use slots::{edition_of, slot_bad, start_row};
use state::Kernel;

const LOADED: u8 = 1;

// The value with which FLAG sets a flag.
const RAISED: usize = 1;

// Why LOAD loads nothing: a test refuses, or the chart has a fault.
#[derive(Clone, Copy, Debug, PartialEq, Eq)]
pub enum LoadError {
    Refused(Refusal),
    Chart(Fault),
}

impl From<Refusal> for LoadError {
    ghost from_gives = { λ refusal error. error ≡ Refused refusal };

    fn from(refusal: Refusal) -> Self {
        LoadError::Refused(refusal)
    }
}

impl From<Fault> for LoadError {
    ghost from_gives = { λ fault error. error ≡ Chart fault };

    fn from(fault: Fault) -> Self {
        LoadError::Chart(fault)
    }
}

// The reply to a LOAD.
pub fn load_reply(answer: Result<Reply, LoadError>) -> Reply
    ensures { result ≡ load_reply answer }
{
    match answer {
        Ok(reply) => reply,
        Err(LoadError::Refused(refusal)) => reply::refused(refusal.code()),
        Err(LoadError::Chart(fault)) => reply::bad_chart(fault),
    }
}

// Whether an object uses slot q.
fn slot_used(k: &Kernel, q: usize) -> bool
    ensures { result ≡ slot_used (state_of k.now) q objects }
{
    for i in (0..OBJECTS).rev() {
        if k.is_started(i + 1) && usize::from(k.seats[i]) == q {
            return true;
        }
    }
    false
}

// LOAD slot.
pub fn load(
    k: &mut Kernel,
    spoilt: bool,
    q: usize,
    chart: &[u8],
    tables: &mut [u8],
    guarded: &mut [u8],
) -> Result<Reply, LoadError>
    ensures { (p l : List ℕ) → told k.new (load_reply result) (areas p tables.new guarded.new l)
        ≡ machine.load spoilt q chart.now (state_of k.old) (areas p tables.old guarded.old l) }
{
    load_refusal(
        spoilt,
        tables.len() != TABLE_AREA,
        slot_bad(guarded, q),
        q,
        k.is_open(),
        slot_used(k, q),
    )?;
    fill_slot(q, chart, tables, guarded)?;
    k.loaded[q] = LOADED;
    Ok(reply::done(state_count(chart) as u8, 0))
}

// Whether slot q is loaded.
#[tactic(auto, unfolding(state::specs::View::state_of))]
fn is_loaded(k: &Kernel, q: usize) -> bool
    ensures { result ≡ is_loaded (state_of k.now) q }
{
    k.loaded.get(q).copied().unwrap_or(0) == LOADED
}

// Object p starts, and all its flags are down.
#[tactic(auto, unfolding(machine::specs::Charts::started_at, state::specs::View::state_of))]
fn start_object(k: &mut Kernel, p: usize, q: usize, depth: usize, rest: u8)
    requires { (1 ≤ p) × (p ≤ objects) × (q < slots) × (depth ≤ room) }
    ensures { state_of k.new ≡ started_at (state_of k.old) p q depth rest }
{
    flags::lower_all(&mut k.flags, p);
    k.depths[p - 1] = depth as u8;
    k.rests[p - 1] = rest;
    k.seats[p - 1] = q as u8;
}

// START p, slot, depth.
pub fn start(
    k: &mut Kernel,
    spoilt: bool,
    p: usize,
    q: usize,
    depth: usize,
    tables: &[u8],
    guarded: &[u8],
) -> Result<Reply, Refusal>
    ensures { (x l : List ℕ) → outcome k.new result (areas x tables.now guarded.now l)
        ≡ machine.start spoilt p q depth (state_of k.old) (areas x tables.now guarded.now l) }
{
    let row = start_row(tables, guarded, q);
    start_refusal(
        spoilt,
        tables.len() != TABLE_AREA,
        slot_bad(guarded, q),
        p,
        q,
        depth,
        k.is_open(),
        is_loaded(k, q),
        k.is_started(p),
        chart::start_sound(edition_of(q), row),
    )?;
    start_object(k, p, q, depth, row[0]);
    Ok(reply::ran(p as u8, 0, 0, 0, row))
}

// FLAG p, flag, 0 or 1.
pub fn flag(k: &mut Kernel, spoilt: bool, p: usize, f: usize, v: usize) -> Result<Reply, Refusal>
    ensures { (z : Areas) → outcome k.new result z ≡ machine.flag spoilt p f v (state_of k.old) z }
{
    flag_refusal(spoilt, p, f, v, k.is_open(), k.is_started(p))?;
    let raised = v == RAISED;
    let changes = flags::is_up(&k.flags, p, f) != raised;
    flags::set(&mut k.flags, p, f, raised);
    Ok(reply::done(u8::from(changes), 0))
}
