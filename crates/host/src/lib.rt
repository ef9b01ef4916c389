// The kernel for a host in C or Rust, which keeps the struct and the areas as plain memory. `host_c` exports each function under its name.
#![tactic(auto)]

pub mod frames;

ghost use Rattle.std.specs.Prelude.{◌≡◌};
ghost use Rattle.chart.specs.Chart.{class_of};
ghost use Rattle.chart.specs.Flat.{flattened};
ghost use Rattle.chart.specs.declared.read.Edition.TheVariants.{Guarded, Plain};
ghost use Rattle.host.specs.Told.{Found};
ghost use Rattle.machine.specs.Machine.{answer_to};
ghost use Rattle.machine.specs.State.{fresh_state};
ghost use Rattle.state.specs.View.{areas, Good, state_of, told};

use kernel::Kernel;
use numbers::REPLY_BYTES;

// Makes a fresh kernel.
pub fn trunhoac_fresh(k: &mut Kernel)
    ensures { (state_of k.new ≡ fresh_state) × Good k.new }
{
    *k = kernel::fresh();
}

// Any record, with the chart that LOAD loads, and the areas.
pub fn trunhoac_command(
    k: &mut Kernel,
    record: &[u8],
    chart: &[u8],
    payloads: &mut [u8],
    tables: &mut [u8],
    guarded: &mut [u8],
    log: &mut [u8],
    reply: &mut [u8; REPLY_BYTES],
)
    requires { Good k.old }
    ensures { Good k.new
        × (told k.new reply.new (areas payloads.new tables.new guarded.new log.new)
        ≡ answer_to (state_of k.old) «record».now chart.now
        (areas payloads.old tables.old guarded.old log.old)) }
{
    kernel::answer_to(k, record, chart, payloads, tables, guarded, log, reply);
}

// Where the part that READ hands back begins in the payload area, and how long it is; 0 and 0 when refused, and for any other record.
pub fn trunhoac_read(
    k: &Kernel,
    record: &[u8],
    payloads: &[u8],
    place: &mut usize,
    length: &mut usize,
)
    requires { Good k.now }
    ensures { Found (state_of k.now) «record».now payloads.now place.new length.new }
{
    let part = kernel::part_at(k, record, payloads);
    *place = part.place;
    *length = part.length;
}

// The chart calls under their own names, so that one library has all.
pub fn chart_check(chart: &[u8]) -> u32
    ensures { result ≡ class_of Plain chart.now }
{
    flattener::chart_check(chart)
}

pub fn chart_check_guarded(chart: &[u8]) -> u32
    ensures { result ≡ class_of Guarded chart.now }
{
    flattener::chart_check_guarded(chart)
}

pub fn chart_flatten(chart: &[u8], table: &mut [u8]) -> u32
    ensures { (result ≡ (flattened Plain chart.now table.old).0) × (table.new ≡ (flattened Plain chart.now table.old).1) }
{
    flattener::chart_flatten(chart, table)
}

pub fn chart_flatten_guarded(chart: &[u8], table: &mut [u8]) -> u32
    ensures { (result ≡ (flattened Guarded chart.now table.old).0) × (table.new ≡ (flattened Guarded chart.now table.old).1) }
{
    flattener::chart_flatten_guarded(chart, table)
}
