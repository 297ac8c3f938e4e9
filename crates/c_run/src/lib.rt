// A start of a run, its next step and the number of its steps as C calls them, on blocks of bytes. What each answers and leaves is defined in
// specs/.
#![tactic(auto)]

ghost use Rattle.std.specs.Prelude.{◌≡◌};
ghost use Rattle.c_run.specs.RunCalls.{run_started_out, host_run_start, next_out, host_next, host_run_steps};

use c_blocks::{MACHINE_BYTES, machine_of, packed};
use c_run_blocks::{RUN_BYTES, is_fit, put_handed, put_run, run_of};
use machine::Refusal;
use run::Plan;

// Starts a run of C = A B on a machine, of kind 1 with A kept transposed, of kind 2 of floats, and writes it into the run's block.
#[tactic(auto, unfolding(crate::specs::RunCalls::host_run_start))]
pub fn start(
    plan: Plan,
    machine: &[u8],
    registers: &[u8],
    marks: &[u8],
    memory: &[u8],
    run: &mut [u8],
) -> u64
    ensures { run_started_out result machine.now registers.now marks.now memory.now run.new
        ≡ host_run_start plan machine.now registers.now marks.now memory.now run.old }
{
    if machine.len() != MACHINE_BYTES {
        return packed(Err(Refusal::BadArguments));
    }
    if run.len() != RUN_BYTES {
        return packed(Err(Refusal::BadArguments));
    }
    let held = machine_of(machine);
    match run_start::start(plan, held, machine, registers, marks, memory) {
        Ok(fresh) => {
            put_run(run, fresh);
            packed(Ok(()))
        }
        Err(refusal) => packed(Err(refusal)),
    }
}

// Asks a run for its next step.
#[tactic(auto, unfolding(crate::specs::RunCalls::host_next), using(c_run_blocks::proofs::RunBlockLaws::fit_length))]
pub fn next(run: &mut [u8], step: &mut [u8]) -> u64
    ensures { next_out result run.new step.new ≡ host_next run.old step.old }
{
    if !is_fit(run) {
        return packed(Err(Refusal::BadArguments));
    }
    if step.len() != 24 {
        return packed(Err(Refusal::BadArguments));
    }
    let held = run_of(run);
    match run_next::next(held) {
        Ok(asked) => {
            put_handed(step, asked.handed);
            put_run(run, asked.run);
            packed(Ok(()))
        }
        Err(refusal) => packed(Err(refusal)),
    }
}

// How many steps a run has in all.
#[tactic(auto, unfolding(crate::specs::RunCalls::host_run_steps), using(c_run_blocks::proofs::RunBlockLaws::fit_length))]
pub fn steps(run: &[u8]) -> u64
    ensures { result ≡ host_run_steps run.now }
{
    if !is_fit(run) {
        return 0;
    }
    run_next::steps(run_of(run))
}
