//! Machines for workers.

ghost use Rattle.std.specs.Prelude.{◌≡◌, [], false, IfOk};

use et_base::NoMemory;
use std::alloc::Global;
use test_run::Machine;
use type_frames::Checked;
use vm_heap::RegionMemory;

/// A worker's machine, which ran no test. It takes time and memory in proportion to the program. The only error is want
/// of memory.
pub fn fresh_machine<'p>(
    alloc: Global,
    p: &'p Checked,
    worker: u32,
) -> Result<Machine<'p, RegionMemory>, NoMemory>
    ensures { IfOk result (λ m. (m.program ≡ p.now) × (m.worker ≡ worker)
        × (m.list ≡ []) × (m.spent ≡ false)) }
{
    let memory = RegionMemory::opening(alloc, p.program())?;
    Machine::new(alloc, p, worker, memory)
}
