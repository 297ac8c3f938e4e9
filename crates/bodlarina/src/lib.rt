// The C interface: numbers and lent byte buffers in, one number out. Each function on buffers is one call of the function below it;
// one that takes a plan in numbers makes a plan of them first. What each answers and leaves is defined in specs/, here and in the
// crates that it calls.
#![tactic(auto)]

mod images; // images of machines
mod runs; // the product run
mod texts; // lines of assembler text

ghost use Rattle.std.specs.Prelude.{◌≡◌};
ghost use Rattle.c_step.specs.BenchCalls.{started_out, host_start, stepped_out, host_step, sealed_out, host_seal};
ghost use Rattle.bodlarina.specs.Host.{host_version};

// The version of this interface.
#[unsafe(no_mangle)]
pub extern "C" fn bodlarina_version() -> u64
    ensures { result ≡ host_version }
{
    800
}

// Starts a machine of this ELEN and rule on the lent register bytes and marks, and writes its numbers into the machine block.
#[unsafe(no_mangle)]
pub extern "C" fn bodlarina_start(
    rlen: u64,
    mlen: u64,
    elen: u64,
    rule: u64,
    seals: &[u64],
    machine: &mut [u8],
    registers: &[u8],
    marks: &mut [u8],
) -> u64
    ensures { started_out result machine.new registers.now marks.new
        ≡ host_start rlen mlen elen rule seals.now machine.old registers.now marks.old }
{
    c_step::start(rlen, mlen, elen, rule, seals, machine, registers, marks)
}

// Steps one instruction word, beside a vector file with a group size.
#[unsafe(no_mangle)]
pub extern "C" fn bodlarina_step(
    word: u32,
    group: u64,
    machine: &mut [u8],
    registers: &mut [u8],
    marks: &mut [u8],
    scalars: &mut [u8],
    memory: &mut [u8],
    vectors: &mut [u8],
) -> u64
    ensures { stepped_out result machine.new registers.new marks.new scalars.new memory.new vectors.new
        ≡ host_step word group machine.old registers.old marks.old scalars.old memory.old vectors.old }
{
    c_step::step(
        word, group, machine, registers, marks, scalars, memory, vectors,
    )
}

// Seals one more range of memory, from now on.
#[unsafe(no_mangle)]
pub extern "C" fn bodlarina_seal(
    start: u64,
    length: u64,
    machine: &mut [u8],
    registers: &[u8],
    marks: &[u8],
) -> u64
    ensures { sealed_out result machine.new registers.now marks.now
        ≡ host_seal start length machine.old registers.now marks.now }
{
    c_step::seal(start, length, machine, registers, marks)
}
