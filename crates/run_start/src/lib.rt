// Starting a product run on a machine: 8, then 6, then 9.
#![tactic(auto)]

ghost use Rattle.std.specs.Prelude.{◌≡◌};
ghost use Rattle.machine.specs.Geometry.{bench_of};
ghost use Rattle.machine.specs.Setting.{chosen};
ghost use Rattle.unit_ranges.specs.Ranges.{seals_in};
ghost use Rattle.run.specs.Start.{start_run, run_started, run_started_as};

use machine::{Machine, Refusal};
use run::{Place, Plan, Run};

mod tests; // the tests of a start on memory

// Starts a run on a machine: 8, then 6, then 9.
pub fn start(
    plan: Plan,
    m: Machine,
    seals: &[u8],
    registers: &[u8],
    marks: &[u8],
    memory: &[u8],
) -> Result<Run, Refusal>
    ensures { run_started_as (run_started plan result) (bench_of m (seals_in seals.now) registers.now marks.now memory.now)
        ≡ start_run chosen plan (bench_of m (seals_in seals.now) registers.now marks.now memory.now) }
{
    if !unit_faults::is_sound(m, seals, registers, marks) {
        return Err(Refusal::BadArguments);
    }
    if !run_plan::is_planned(m.elen, plan) {
        return Err(Refusal::BadArguments);
    }
    if !tests::is_lying(plan, memory) {
        return Err(Refusal::OutsideMemory);
    }
    if !tests::is_separate(plan, seals, memory) {
        return Err(Refusal::Overlap);
    }
    Ok(Run {
        plan,
        rlen: m.rlen,
        mlen: m.mlen,
        rule: m.rule,
        elen: m.elen,
        place: Place::AtType,
    })
}
