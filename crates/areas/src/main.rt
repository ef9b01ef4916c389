// Calls the kernel with areas of any length, and with tables that others write to: what no replay shows. Its input is that of `calls`.
//
// The line of a call has the reply without the zeros at its end; then, as the call leaves them, the sum of each area
// over all its bytes; then the length and the sum of the part that READ hands back.
#![tactic(auto)]

ghost use Rattle.state.specs.View.{Good};

use calls::{Call, GUARDED_ROOM, LOG_ROOM, PAYLOADS_ROOM, Poke, Poked, TABLES_ROOM};
use kernel::{Kernel, Reply};
use player::Areas;
use std::io;
use text::{ReplyBytes, sum_of};

type Rooms = Areas<PAYLOADS_ROOM, TABLES_ROOM, GUARDED_ROOM, LOG_ROOM>;

// Begins anew where the call says so.
fn begin(call: &Call, k: &mut Kernel, areas: &mut Rooms)
    requires { Good k.old }
    ensures { Good k.new }
{
    if call.is_fresh {
        *k = kernel::fresh();
        *areas = Rooms::new();
    }
}

// Writes the byte to a table, as somebody else would.
fn write_poke(table: &mut [u8], poke: Poke) {
    if let Some(byte) = table.get_mut(poke.offset) {
        *byte = poke.byte;
    }
}

// Lends what the call says. The areas stand one by one here, since of a struct behind a reference no parts of fields can be lent together.
fn command(
    k: &mut Kernel,
    call: &Call,
    payloads: &mut [u8; PAYLOADS_ROOM],
    tables: &mut [u8; TABLES_ROOM],
    guarded: &mut [u8; GUARDED_ROOM],
    log: &mut [u8; LOG_ROOM],
) -> Reply
    requires { Good k.old }
    ensures { Good k.new }
{
    let lent = call.lent;
    kernel::command(
        k,
        &call.record,
        &call.chart,
        &mut payloads[..lent.payloads],
        &mut tables[..lent.tables],
        &mut guarded[..lent.guarded],
        &mut log[..lent.log],
    )
}

// Makes a call, after its poke, and writes its line. A READ leaves the kernel as it was, so the part is that of the kernel after the call.
fn make(rt: &impl Print, call: &Call, k: &mut Kernel, areas: &mut Rooms) -> io::Result<()>
    requires { Good k.old }
    ensures { Good k.new }
{
    match call.poke {
        Some(poke) if poke.to == Poked::Tables => write_poke(&mut areas.tables, poke),
        Some(poke) => write_poke(&mut areas.guarded, poke),
        None => {}
    }
    let reply = command(
        k,
        call,
        &mut areas.payloads,
        &mut areas.tables,
        &mut areas.guarded,
        &mut areas.log,
    );
    let part = kernel::read_part(k, &call.record, &areas.payloads[..call.lent.payloads]);
    println!(rt;
        "{} payloads {} tables {} guarded {} log {} part {} sum {}",
        ReplyBytes(reply),
        sum_of(&areas.payloads),
        sum_of(&areas.tables),
        sum_of(&areas.guarded),
        sum_of(&areas.log),
        part.len(),
        sum_of(part),
    )
}

// A proved loop has to end, and nothing says that the input does: so the turns are counted. The last one is where the input ends, or a
// call asks for more than there is.
fn main(rt: HostRuntime) -> io::Result<()> {
    let mut k = kernel::fresh();
    let mut areas = Rooms::new();
    let mut input = rt.reader();
    for _ in 0..u64::MAX {
        let Some(call) = calls::read_call(rt.alloc(), &mut input)? else {
            break;
        };
        begin(&call, &mut k, &mut areas);
        make(&rt, &call, &mut k, &mut areas)?;
    }
    Ok(())
}
