// The steps of one object, by the edition of its slot.
ghost use Rattle.std.specs.Prelude.{◌≡◌, ◌-◌, get_or};
ghost use Rattle.chart.specs.declared.read.Edition.{Edition};
ghost use Rattle.chart.specs.declared.read.Edition.TheVariants.{Guarded, Plain};
ghost use Rattle.machine.specs.Numbers.{edition_of};
ghost use Rattle.mail.specs.View.{boxes};
ghost use Rattle.drain.specs.Lent.{Ready, Stretch, run_at};

use super::{Fixed, answer, is_sound, look, next_rest, note};
use chart::find_row;
use chart::read::Edition;
use mail::Ring;
use numbers::{FIRST_BYTES, OBJECTS};
use slots::table_of;

// A kind of slot. Each has a loop of its own, which would be slower if it could read the rows of the other edition too.
pub trait Slot {
    ghost EDITION: { Edition };

    const EDITION: Edition;
}

pub struct PlainSlot;

impl Slot for PlainSlot {
    ghost EDITION = { Plain };

    const EDITION: Edition = Edition::Plain;
}

pub struct GuardedSlot;

impl Slot for GuardedSlot {
    ghost EDITION = { Guarded };

    const EDITION: Edition = Edition::Guarded;
}

// The steps of object p where no higher object has mail, from step `from` of a run on: how many steps the run has then. The state of rest
// and the mailbox are written back at the end.
pub fn run_object<S: Slot>(
    fixed: Fixed,
    mail: &mut [Ring; OBJECTS],
    rests: &mut [u8; OBJECTS],
    times: &mut [u8; FIRST_BYTES],
    log: &mut [u8],
    budget: usize,
    p: usize,
    from: usize,
) -> usize
    requires ready { Ready fixed p budget (run_at (boxes mail.old) rests.old times.old log.old from) }
    requires edition { edition_of (get_or fixed.seats.now (p - 1) 0) ≡ S.EDITION }
    ensures { Stretch fixed.entry p budget
        (run_at (boxes mail.old) rests.old times.old log.old from)
        (run_at (boxes mail.new) rests.new times.new log.new result) }
{
    let q = p - 1;
    let table = table_of(fixed.tables, fixed.guarded, usize::from(fixed.seats[q]));
    let end = from + mail[q].len().min(budget - from);
    let mut rest = rests[q];
    for n in from..end {
        let l = look(fixed.signals, fixed.gens, mail[q].entry(n - from));
        let found = find_row(S::EDITION, table, rest, l.signal, fixed.flags, p);
        if !is_sound(found) {
            mail[q].leave(n - from);
            rests[q] = rest;
            return n;
        }
        rest = next_rest(table, found, rest);
        note(log, times, n, l.first, answer(p, l, table, found));
    }
    mail[q].leave(end - from);
    rests[q] = rest;
    end
}
