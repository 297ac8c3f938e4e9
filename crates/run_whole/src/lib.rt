// A whole product run on a machine: its start, and all its turns.
#![tactic(auto)]

ghost use Rattle.std.specs.Prelude.{◌≡◌};
ghost use Rattle.machine.specs.Geometry.{bench_of};
ghost use Rattle.machine.specs.Setting.{chosen};
ghost use Rattle.unit_ranges.specs.Ranges.{seals_in};
ghost use Rattle.run.specs.Whole.{whole, finished_as, Delivers};

use machine::{Machine, Refusal};
use run::{Finished, Plan};

// Starts a run and takes turns until one is refused: C becomes the product, and no other byte of memory changes.
pub fn whole(
    plan: Plan,
    m: Machine,
    seals: &[u8],
    registers: &mut [u8],
    marks: &mut [u8],
    memory: &mut [u8],
) -> Result<Finished, Refusal>
    ensures memory_after { finished_as m result (seals_in seals.now) registers.new marks.new memory.new
        ≡ whole chosen plan (bench_of m (seals_in seals.now) registers.old marks.old memory.old) }
    ensures delivers { Delivers plan (bench_of m (seals_in seals.now) registers.old marks.old memory.old)
        (finished_as m result (seals_in seals.now) registers.new marks.new memory.new) }
{
    let run = run_start::start(plan, m, seals, registers, marks, memory)?;
    let taken = run_turn::turns(
        0xffff_ffff_ffff_ffff,
        run,
        m,
        seals,
        registers,
        marks,
        memory,
    );
    Ok(Finished {
        count: taken.count,
        machine: taken.machine,
    })
}
