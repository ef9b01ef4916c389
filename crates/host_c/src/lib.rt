// The library for hosts in C and Rust: each function of `host` under its name.
#![tactic(auto)]

pub mod frames;

ghost use Rattle.std.specs.Prelude.{◌≡◌};
ghost use Rattle.chart.specs.Chart.{class_of};
ghost use Rattle.chart.specs.Flat.{flattened};
ghost use Rattle.chart.specs.declared.read.Edition.TheVariants.{Guarded, Plain};
ghost use Rattle.host.specs.Told.{Found};
ghost use Rattle.machine.specs.Machine.{answer_to};
ghost use Rattle.machine.specs.State.{fresh_state};
ghost use Rattle.state.specs.View.{areas, Good, state_of, told};

use kernel::Kernel;
use numbers::REPLY_BYTES;

// Makes a fresh kernel.
#[unsafe(no_mangle)]
pub extern "C" fn trunhoac_fresh(k: &mut Kernel)
    ensures { (state_of k.new ≡ fresh_state) × Good k.new }
{
    host::trunhoac_fresh(k);
}

// Any record, with the chart that LOAD loads, and the areas.
#[unsafe(no_mangle)]
pub extern "C" fn trunhoac_command(
    k: &mut Kernel,
    record: &[u8],
    chart: &[u8],
    payloads: &mut [u8],
    tables: &mut [u8],
    guarded: &mut [u8],
    log: &mut [u8],
    reply: &mut [u8; REPLY_BYTES],
)
    requires { Good k.old }
    ensures { Good k.new
        × (told k.new reply.new (areas payloads.new tables.new guarded.new log.new)
        ≡ answer_to (state_of k.old) «record».now chart.now
        (areas payloads.old tables.old guarded.old log.old)) }
{
    host::trunhoac_command(k, record, chart, payloads, tables, guarded, log, reply);
}

// Where the part that READ hands back begins in the payload area, and how long it is; 0 and 0 when refused, and for any other record.
#[unsafe(no_mangle)]
pub extern "C" fn trunhoac_read(
    k: &Kernel,
    record: &[u8],
    payloads: &[u8],
    place: &mut usize,
    length: &mut usize,
)
    requires { Good k.now }
    ensures { Found (state_of k.now) «record».now payloads.now place.new length.new }
{
    host::trunhoac_read(k, record, payloads, place, length);
}

// The chart calls under their own names, so that one library has all.
#[unsafe(no_mangle)]
pub extern "C" fn chart_check(chart: &[u8]) -> u32
    ensures { result ≡ class_of Plain chart.now }
{
    host::chart_check(chart)
}

#[unsafe(no_mangle)]
pub extern "C" fn chart_check_guarded(chart: &[u8]) -> u32
    ensures { result ≡ class_of Guarded chart.now }
{
    host::chart_check_guarded(chart)
}

#[unsafe(no_mangle)]
pub extern "C" fn chart_flatten(chart: &[u8], table: &mut [u8]) -> u32
    ensures { (result ≡ (flattened Plain chart.now table.old).0) × (table.new ≡ (flattened Plain chart.now table.old).1) }
{
    host::chart_flatten(chart, table)
}

#[unsafe(no_mangle)]
pub extern "C" fn chart_flatten_guarded(chart: &[u8], table: &mut [u8]) -> u32
    ensures { (result ≡ (flattened Guarded chart.now table.old).0) × (table.new ≡ (flattened Guarded chart.now table.old).1) }
{
    host::chart_flatten_guarded(chart, table)
}
