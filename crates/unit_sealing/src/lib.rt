// Sealing one more range of memory. What it answers and leaves is defined in machine/specs/Sealing.antt, and of a machine's block in specs/.
#![tactic(auto)]

ghost use Rattle.std.specs.Prelude.{◌≡◌};
ghost use Rattle.unit_sealing.specs.SealBlock.{block_sealed, seal_block};

use machine::{Answer, Machine, Refusal};
use unit_faults::is_sound;
use unit_ranges::{add_range, count_of};
use unit_start::seal_ends;

// Seals one more range, behind those in the machine's block. Refused, it changes nothing.
pub fn seal(
    start: u64,
    size: u64,
    m: Machine,
    block: &mut [u8],
    registers: &[u8],
    marks: &[u8],
) -> Answer
    ensures { block_sealed result block.new ≡ seal_block start size m block.old registers.now marks.now }
{
    if !is_sound(m, block, registers, marks) {
        return Err(Refusal::BadArguments);
    }
    if !seal_ends(start, size) {
        return Err(Refusal::BadArguments);
    }
    if count_of(block) >= 8 {
        return Err(Refusal::TooManySeals);
    }
    add_range(block, start, size);
    Ok(())
}
