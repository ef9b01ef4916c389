// What is lent to the kernel with each record.
ghost use Rattle.std.specs.Prelude.{◌≡◌, replicate};
ghost use Rattle.state.specs.View.{Good, areas, state_of, told};
ghost use Rattle.machine.specs.Machine.{answer_to};

use kernel::{Kernel, Reply};

// The four areas, of any lengths.
#[derive(Drop)]
pub struct Areas<
    const PAYLOADS: usize,
    const TABLES: usize,
    const GUARDED: usize,
    const LOG: usize,
> {
    pub payloads: [u8; PAYLOADS],
    pub tables: [u8; TABLES],
    pub guarded: [u8; GUARDED],
    pub log: [u8; LOG],
}

impl<const PAYLOADS: usize, const TABLES: usize, const GUARDED: usize, const LOG: usize> Areas<
    PAYLOADS,
    TABLES,
    GUARDED,
    LOG,
> {
    // Areas of zeros.
    pub fn new() -> Self
        ensures { (result.payloads ≡ replicate PAYLOADS 0) × (result.tables ≡ replicate TABLES 0)
            × (result.guarded ≡ replicate GUARDED 0) × (result.log ≡ replicate LOG 0) }
    {
        Areas {
            payloads: [0; PAYLOADS],
            tables: [0; TABLES],
            guarded: [0; GUARDED],
            log: [0; LOG],
        }
    }

    // Has the kernel answer a record, with the areas lent whole.
    pub fn command(&mut self, k: &mut Kernel, record: &[u8], chart: &[u8]) -> Reply
        requires { Good k.old }
        ensures good { Good k.new }
        ensures answer { told k.new result (areas self.new.payloads self.new.tables self.new.guarded self.new.log)
            ≡ answer_to (state_of k.old) «record».now chart.now
            (areas self.old.payloads self.old.tables self.old.guarded self.old.log) }
    {
        kernel::command(
            k,
            record,
            chart,
            &mut self.payloads,
            &mut self.tables,
            &mut self.guarded,
            &mut self.log,
        )
    }
}
