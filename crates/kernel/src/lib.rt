// The kernel: one operation for any record, chart and areas.
#![tactic(auto)]

ghost use Rattle.std.specs.Prelude.{◌≡◌, ◌+◌, ◌≤◌, length};
ghost use Rattle.machine.specs.Machine as machine;
ghost use Rattle.machine.specs.Machine.{answer_to, part_at, part_of};
ghost use Rattle.machine.specs.Numbers.{record_bytes};
ghost use Rattle.machine.specs.State.{fresh_state};
ghost use Rattle.numbers.specs.Codes.{number_of};
ghost use Rattle.state.specs.View.{areas, Good, state_of, told};

use numbers::RECORD_BYTES;
use numbers::answer::Refusal;
use numbers::command::Command;
pub use payloads::Part;
pub use reply::Reply;
pub use state::Kernel;

// What a record that is no command answers.
const FORM: u8 = Refusal::Form as u8;

pub fn fresh() -> Kernel
    ensures state { state_of result ≡ fresh_state }
    ensures good { Good result }
{
    Kernel::new()
}

// Where in the payload area the part begins that READ hands back, and how long it is: 0 and 0 when refused, and for any other record.
#[tactic(auto, unfolding(machine::specs::Machine::part_at))]
pub fn part_at(k: &Kernel, record: &[u8], payloads: &[u8]) -> Part
    requires { Good k.now }
    ensures part { part_at (state_of k.now) «record».now payloads.now ≡ (result.place, result.length) }
    ensures length_in_bounds { result.place + result.length ≤ length payloads.now }
{
    if record.len() != RECORD_BYTES || record[0] != Command::Read as u8 {
        return payloads::no_part();
    }
    payloads::records::read_at_of(k, record, payloads)
}

// That part: empty when refused, and for any other record.
pub fn read_part<'a>(k: &Kernel, record: &[u8], payloads: &'a [u8]) -> &'a [u8]
    requires { Good k.now }
    ensures { result.now ≡ part_of (state_of k.now) «record».now payloads.now }
{
    let Part { place, length } = part_at(k, record, payloads);
    &payloads[place..place + length]
}

// A command with its record.
fn run(
    k: &mut Kernel,
    command: Command,
    record: &[u8],
    chart: &[u8],
    payloads: &mut [u8],
    tables: &mut [u8],
    guarded: &mut [u8],
    log: &mut [u8],
) -> Reply
    requires { Good k.old × (length «record».now ≡ record_bytes) }
    ensures { told k.new result (areas payloads.new tables.new guarded.new log.new)
        ≡ machine.command (number_of command) «record».now chart.now (state_of k.old)
        (areas payloads.old tables.old guarded.old log.old) }
{
    match command {
        Command::Load => charts::records::load_command(k, record, chart, tables, guarded),
        Command::Start => charts::records::start_command(k, record, tables, guarded),
        Command::New => payloads::records::new_command(k, record, payloads),
        Command::Post => events::records::post_command(k, record),
        Command::PostFront => events::records::post_front_command(k, record),
        Command::Publish => events::records::publish_command(k, record),
        Command::Subscribe => subscriptions::records::subscribe_command(k, record),
        Command::Unsubscribe => subscriptions::records::unsubscribe_command(k, record),
        Command::Hold => events::records::hold_command(k, record),
        Command::Release => events::records::release_command(k, record),
        Command::Drop => events::records::drop_event_command(k, record),
        Command::Next => steps::records::next_command(k, record, tables, guarded),
        Command::End => steps::records::end_command(k, record),
        Command::Arm => clocks::records::arm_command(k, record),
        Command::Disarm => clocks::records::disarm_command(k, record),
        Command::Tick => clocks::records::tick_command(k, record),
        Command::Read => payloads::records::read_command(k, record, payloads),
        Command::Drain => steps::records::drain_command(k, record, tables, guarded, log),
        Command::Defer => aside::records::defer_command(k, record),
        Command::Recall => aside::records::recall_command(k, record),
        Command::Flush => aside::records::flush_command(k, record),
        Command::Flag => charts::records::flag_command(k, record),
    }
}

// Any record, with the chart that LOAD loads, and the areas: the kernel is then the one after it.
pub fn command(
    k: &mut Kernel,
    record: &[u8],
    chart: &[u8],
    payloads: &mut [u8],
    tables: &mut [u8],
    guarded: &mut [u8],
    log: &mut [u8],
) -> Reply
    requires { Good k.old }
    ensures good { Good k.new }
    ensures answers { told k.new result (areas payloads.new tables.new guarded.new log.new)
        ≡ answer_to (state_of k.old) «record».now chart.now
        (areas payloads.old tables.old guarded.old log.old) }
{
    if record.len() != RECORD_BYTES {
        return reply::refused(FORM);
    }
    match Command::try_from(record[0]) {
        Ok(command) => run(k, command, record, chart, payloads, tables, guarded, log),
        Err(_) => reply::refused(FORM),
    }
}

// The same, with the reply where the host keeps it. The areas come one by one, as C lends them.
pub fn answer_to(
    k: &mut Kernel,
    record: &[u8],
    chart: &[u8],
    payloads: &mut [u8],
    tables: &mut [u8],
    guarded: &mut [u8],
    log: &mut [u8],
    reply: &mut Reply,
)
    requires { Good k.old }
    ensures { Good k.new
        × (told k.new reply.new (areas payloads.new tables.new guarded.new log.new)
        ≡ answer_to (state_of k.old) «record».now chart.now
        (areas payloads.old tables.old guarded.old log.old)) }
{
    *reply = command(k, record, chart, payloads, tables, guarded, log);
}
