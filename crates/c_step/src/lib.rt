// A start of a machine, a step and the sealing of a range as C calls them, on blocks of bytes. What each answers and leaves is defined in specs/.
#![tactic(auto)]

ghost use Rattle.std.specs.Prelude.{◌≡◌};
ghost use Rattle.c_step.specs.BenchCalls.{started_out, host_start, stepped_out, host_step, sealed_out, host_seal};

use c_blocks::{MACHINE_BYTES, machine_of, packed, put_machine, put_seals, put_state};
use machine::Refusal;

// Starts a machine of this ELEN and rule on the lent register bytes and marks, and writes its numbers into the machine block.
pub fn start(
    rlen: u64,
    mlen: u64,
    elen: u64,
    rule: u64,
    seals: &[u64],
    machine: &mut [u8],
    registers: &[u8],
    marks: &mut [u8],
) -> u64
    ensures { started_out result machine.new registers.now marks.new
        ≡ host_start rlen mlen elen rule seals.now machine.old registers.now marks.old }
{
    if machine.len() != MACHINE_BYTES {
        return packed(Err(Refusal::BadArguments));
    }
    match unit_start::start(rlen, mlen, elen, rule, seals, registers, marks) {
        Ok(started) => {
            put_machine(machine, started);
            put_seals(machine, seals);
            packed(Ok(()))
        }
        Err(refusal) => packed(Err(refusal)),
    }
}

// Steps one instruction word, beside a vector file with a group size.
pub fn step(
    word: u32,
    group: u64,
    machine: &mut [u8],
    registers: &mut [u8],
    marks: &mut [u8],
    scalars: &mut [u8],
    memory: &mut [u8],
    vectors: &mut [u8],
) -> u64
    ensures { stepped_out result machine.new registers.new marks.new scalars.new memory.new vectors.new
        ≡ host_step word group machine.old registers.old marks.old scalars.old memory.old vectors.old }
{
    if machine.len() != MACHINE_BYTES {
        return packed(Err(Refusal::BadArguments));
    }
    if scalars.len() != 256 {
        return packed(Err(Refusal::BadArguments));
    }
    let m = machine_of(machine);
    match c_scalars::step_block(
        m, machine, registers, marks, scalars, memory, vectors, group, word,
    ) {
        Ok(next) => {
            put_state(machine, next);
            packed(Ok(()))
        }
        Err(refusal) => packed(Err(refusal)),
    }
}

// Seals one more range of memory.
pub fn seal(start: u64, length: u64, machine: &mut [u8], registers: &[u8], marks: &[u8]) -> u64
    ensures { sealed_out result machine.new registers.now marks.now
        ≡ host_seal start length machine.old registers.now marks.now }
{
    if machine.len() != MACHINE_BYTES {
        return packed(Err(Refusal::BadArguments));
    }
    let m = machine_of(machine);
    let answer = unit_sealing::seal(start, length, m, machine, registers, marks);
    packed(answer)
}
