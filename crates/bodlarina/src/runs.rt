// The product run in the C interface.
ghost use Rattle.std.specs.Prelude.{◌≡◌};
ghost use Rattle.c_run.specs.RunCalls.{run_started_out, host_run_start, next_out, host_next, host_run_steps};
ghost use Rattle.c_turn.specs.TurnCalls.{turned_out, host_turn, host_turns, ran_out, host_run};
ghost use Rattle.bodlarina.specs.Host.{plan_in};

use run::{Layout, Plan};

// The plan in a call's numbers.
fn plan_in(
    kind: u64,
    sew: u64,
    factor: u64,
    m: u64,
    k: u64,
    n: u64,
    a: u64,
    a_stride: u64,
    b: u64,
    b_stride: u64,
    c: u64,
    c_stride: u64,
) -> Plan
    ensures { result ≡ plan_in kind sew factor m k n a a_stride b b_stride c c_stride }
{
    Plan {
        kind: kind,
        sew: sew,
        factor: factor,
        m: m,
        k: k,
        n: n,
        a: Layout {
            address: a,
            stride: a_stride,
        },
        b: Layout {
            address: b,
            stride: b_stride,
        },
        c: Layout {
            address: c,
            stride: c_stride,
        },
    }
}

// Starts a run of C = A B on a machine, of kind 1 with A kept transposed, of kind 2 of floats, and writes it into the run's block.
#[unsafe(no_mangle)]
pub extern "C" fn bodlarina_run_start(
    kind: u64,
    sew: u64,
    factor: u64,
    m: u64,
    k: u64,
    n: u64,
    a: u64,
    a_stride: u64,
    b: u64,
    b_stride: u64,
    c: u64,
    c_stride: u64,
    machine: &[u8],
    registers: &[u8],
    marks: &[u8],
    memory: &[u8],
    run: &mut [u8],
) -> u64
    ensures { run_started_out result machine.now registers.now marks.now memory.now run.new
        ≡ host_run_start (plan_in kind sew factor m k n a a_stride b b_stride c c_stride)
        machine.now registers.now marks.now memory.now run.old }
{
    let plan = plan_in(
        kind, sew, factor, m, k, n, a, a_stride, b, b_stride, c, c_stride,
    );
    c_run::start(plan, machine, registers, marks, memory, run)
}

// Asks a run for its next step.
#[unsafe(no_mangle)]
pub extern "C" fn bodlarina_run_next(run: &mut [u8], step: &mut [u8]) -> u64
    ensures { next_out result run.new step.new ≡ host_next run.old step.old }
{
    c_run::next(run, step)
}

// How many steps a run has in all.
#[unsafe(no_mangle)]
pub extern "C" fn bodlarina_run_steps(run: &[u8]) -> u64
    ensures { result ≡ host_run_steps run.now }
{
    c_run::steps(run)
}

// Takes one turn of a run.
#[unsafe(no_mangle)]
pub extern "C" fn bodlarina_run_turn(
    run: &mut [u8],
    machine: &mut [u8],
    registers: &mut [u8],
    marks: &mut [u8],
    memory: &mut [u8],
) -> u64
    ensures { turned_out result run.new machine.new registers.new marks.new memory.new
        ≡ host_turn run.old machine.old registers.old marks.old memory.old }
{
    c_turn::turn(run, machine, registers, marks, memory)
}

// Takes up to so many turns of a run, and counts them.
#[unsafe(no_mangle)]
pub extern "C" fn bodlarina_run_turns(
    turns: u64,
    run: &mut [u8],
    machine: &mut [u8],
    registers: &mut [u8],
    marks: &mut [u8],
    memory: &mut [u8],
) -> u64
    ensures { turned_out result run.new machine.new registers.new marks.new memory.new
        ≡ host_turns turns run.old machine.old registers.old marks.old memory.old }
{
    c_turn::turns(turns, run, machine, registers, marks, memory)
}

// Runs C = A B on a machine, of kind 1 with A kept transposed, of kind 2 of floats, from its start to its last step.
#[unsafe(no_mangle)]
pub extern "C" fn bodlarina_run(
    kind: u64,
    sew: u64,
    factor: u64,
    m: u64,
    k: u64,
    n: u64,
    a: u64,
    a_stride: u64,
    b: u64,
    b_stride: u64,
    c: u64,
    c_stride: u64,
    machine: &mut [u8],
    registers: &mut [u8],
    marks: &mut [u8],
    memory: &mut [u8],
    steps: &mut [u8],
) -> u64
    ensures { ran_out result machine.new registers.new marks.new memory.new steps.new
        ≡ host_run (plan_in kind sew factor m k n a a_stride b b_stride c c_stride)
        machine.old registers.old marks.old memory.old steps.old }
{
    let plan = plan_in(
        kind, sew, factor, m, k, n, a, a_stride, b, b_stride, c, c_stride,
    );
    c_turn::whole(plan, machine, registers, marks, memory, steps)
}
