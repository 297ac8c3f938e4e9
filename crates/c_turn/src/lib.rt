// Turns of a run, and a whole run, as C calls them, on blocks of bytes. What each answers and leaves is defined in specs/.
#![tactic(auto)]

ghost use Rattle.std.specs.Prelude.{◌≡◌};
ghost use Rattle.c_turn.specs.TurnCalls.{turned_out, host_turn, host_turns, ran_out, host_run};

use c_blocks::{MACHINE_BYTES, machine_of, packed, put_machine, put_state};
use c_run_blocks::{is_fit, put_place, put_run, run_of};
use machine::Refusal;
use run::Plan;
use unit_element::Element;

// Takes one turn of a run.
#[tactic(auto, unfolding(crate::specs::TurnCalls::host_turn), using(c_run_blocks::proofs::RunBlockLaws::fit_length))]
pub fn turn(
    run: &mut [u8],
    machine: &mut [u8],
    registers: &mut [u8],
    marks: &mut [u8],
    memory: &mut [u8],
) -> u64
    ensures { turned_out result run.new machine.new registers.new marks.new memory.new
        ≡ host_turn run.old machine.old registers.old marks.old memory.old }
{
    if !is_fit(run) {
        return packed(Err(Refusal::BadArguments));
    }
    if machine.len() != MACHINE_BYTES {
        return packed(Err(Refusal::BadArguments));
    }
    let held = run_of(run);
    let m = machine_of(machine);
    match run_turn::turn(held, m, machine, registers, marks, memory) {
        Ok(turned) => {
            put_place(run, turned.run);
            put_state(machine, turned.machine);
            packed(Ok(()))
        }
        Err(refusal) => packed(Err(refusal)),
    }
}

// Takes up to so many turns of a run, and counts them.
#[tactic(auto, unfolding(crate::specs::TurnCalls::host_turns), using(c_run_blocks::proofs::RunBlockLaws::fit_length))]
pub fn turns(
    turns: u64,
    run: &mut [u8],
    machine: &mut [u8],
    registers: &mut [u8],
    marks: &mut [u8],
    memory: &mut [u8],
) -> u64
    ensures { turned_out result run.new machine.new registers.new marks.new memory.new
        ≡ host_turns turns run.old machine.old registers.old marks.old memory.old }
{
    if !is_fit(run) {
        return 0;
    }
    if machine.len() != MACHINE_BYTES {
        return 0;
    }
    let held = run_of(run);
    let m = machine_of(machine);
    let taken = run_turn::turns(turns, held, m, machine, registers, marks, memory);
    put_run(run, taken.run);
    put_machine(machine, taken.machine);
    taken.count
}

// Runs C = A B on a machine, of kind 1 with A kept transposed, of kind 2 of floats, from its start to its last step.
#[tactic(auto, unfolding(crate::specs::TurnCalls::host_run))]
pub fn whole(
    plan: Plan,
    machine: &mut [u8],
    registers: &mut [u8],
    marks: &mut [u8],
    memory: &mut [u8],
    steps: &mut [u8],
) -> u64
    ensures { ran_out result machine.new registers.new marks.new memory.new steps.new
        ≡ host_run plan machine.old registers.old marks.old memory.old steps.old }
{
    if machine.len() != MACHINE_BYTES {
        return packed(Err(Refusal::BadArguments));
    }
    if steps.len() != 8 {
        return packed(Err(Refusal::BadArguments));
    }
    let held = machine_of(machine);
    match run_whole::whole(plan, held, machine, registers, marks, memory) {
        Ok(finished) => {
            put_machine(machine, finished.machine);
            u64::write(steps, 0, finished.count);
            packed(Ok(()))
        }
        Err(refusal) => packed(Err(refusal)),
    }
}
